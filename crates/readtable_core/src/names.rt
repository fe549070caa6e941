//! The name of a reader macro function.
ghost use Rattle.std.specs.Prelude.{◌≡◌, IsTrue, IfSome, Some, is_some, nat_eq, refl};
ghost use Rattle.std.specs.List.{list_any, list_all};
ghost use Rattle.std.specs.Char.{is_ascii};
ghost use Rattle.std.specs.Ordering.{nat_cmp};
ghost use Rattle.std.specs.Cmp.{partial_equiv_from_equiv};
ghost use Rattle.std.specs.Cmp.Lexicographic.{pointwise, slice_cmp, nat_list_eq_equiv, nat_list_cmp_total, texts_po, texts_ties};
ghost use Rattle.readtable_core.specs.Names.{is_function_name, is_standard, is_dispatch_name, same_name};

use crate::standard_names::{STANDARD_NAMES, STD_DISPATCH};
use std::cmp::Ordering;
use std::marker::Model;

/// The most bytes that a name has.
const CAPACITY: usize = 32;

/// The name of a reader macro function: at most 32 bytes, each below 128, held in the value itself. Contracts see the list of
/// its bytes.
#[derive(Clone, Copy, Debug)]
pub struct FnName {
    bytes: [u8; 32],
    size: u8,
}

impl Model for FnName {
    ghost use Rattle.std.specs.Prelude.{ℕ, ◌≡◌, ◌≤◌, ◌-◌, ◌++◌, List, length, take, replicate};
    ghost use Rattle.std.proofs.Common.{arith, length-take-le};

    ghost Value = { List ℕ };

    ghost view = { λ n. take n.size n.bytes };

    ghost use Rattle.std.specs.List.{list_all};
    ghost use Rattle.std.specs.Char.{is_ascii};
    ghost use Rattle.std.specs.Prelude.{IsTrue};

    ghost invariant = { λ n. (n.size ≤ 32) × (length n.bytes ≡ 32)
        × (take n.size n.bytes ++ replicate (32 - n.size) 0 ≡ n.bytes) × IsTrue (list_all is_ascii (take n.size n.bytes)) };

    ghost inverse = { λ name. record { bytes = name ++ replicate (32 - length name) 0; size = length name } };

    ghost inverse_ok = { λ n h i.
        let kept : length (take n.size n.bytes) ≡ n.size = length-take-le n.size n.bytes (Prim.omega (arith, h.0, h.1)) in
        let same : take n.size n.bytes ++ replicate (32 - length (take n.size n.bytes)) 0 ≡ n.bytes = Prim.rw kept h.2 in
        record { bytes = same i; size = kept i } };
}

impl FnName {
    /// The name of these bytes, or `None` where they are more than 32 or one of them is over 127. Takes no memory.
    pub fn new(bytes: &[u8]) -> Option<FnName>
        ensures variant { is_some result ≡ is_function_name bytes.now }
        ensures some { IfSome result (λ name. name ≡ bytes.now) }
    {
        if bytes.len() > CAPACITY || !are_ascii(bytes) {
            return None;
        }
        let mut held = [0; 32];
        held[..bytes.len()].copy_from_slice(bytes);
        Some(FnName {
            bytes: held,
            size: bytes.len() as u8,
        })
    }

    /// The bytes of the name.
    pub fn as_bytes(&self) -> &[u8]
        ensures value { result.now ≡ self.now }
        ensures sound { IsTrue (is_function_name self.now) }
    {
        &self.bytes[..usize::from(self.size)]
    }

    /// Whether this is one of the 15 functions of the standard readtable, which any character may be given. STD-DISPATCH
    /// is none of them.
    pub fn is_standard(&self) -> bool
        ensures { result ≡ is_standard self.now }
    {
        is_one_of(&STANDARD_NAMES, self.as_bytes())
    }

    /// Whether this is STD-DISPATCH, the function of dispatching macro characters, which cannot be set.
    pub fn is_dispatch(&self) -> bool
        ensures { result ≡ is_dispatch_name self.now }
    {
        STD_DISPATCH == self.as_bytes()
    }
}

/// The name of these bytes, which are a name.
pub(crate) fn named(bytes: &[u8]) -> FnName
    requires { IsTrue (is_function_name bytes.now) }
    ensures { result ≡ bytes.now }
{
    FnName::new(bytes).unwrap()
}

fn are_ascii(bytes: &[u8]) -> bool
    ensures { result ≡ list_all is_ascii bytes.now }
{
    bytes.iter().all(|byte| byte.is_ascii())
}

fn is_one_of(names: &[&[u8]], bytes: &[u8]) -> bool
    ensures { result ≡ list_any (λ name. same_name name.now bytes.now) names.now }
{
    names.iter().any(|name| *name == bytes)
}

impl PartialEq for FnName {
    ghost eq = { same_name };

    ghost laws = { partial_equiv_from_equiv nat_list_eq_equiv };

    fn eq(&self, other: &Self) -> bool {
        self.as_bytes() == other.as_bytes()
    }
}

impl Eq for FnName {
    ghost laws = { nat_list_eq_equiv };
}

impl PartialOrd for FnName {
    ghost partial_cmp = { λ a b. Some (slice_cmp nat_cmp a b) };

    ghost laws = { texts_po };

    fn partial_cmp(&self, other: &Self) -> Option<Ordering> {
        Some(self.cmp(other))
    }
}

impl Ord for FnName {
    ghost cmp = { slice_cmp nat_cmp };

    ghost total = { nat_list_cmp_total };

    ghost matches_partial_cmp = { λ a b. refl };

    ghost matches_eq = { λ a b. texts_ties a b };

    fn cmp(&self, other: &Self) -> Ordering {
        self.as_bytes().cmp(other.as_bytes())
    }
}
