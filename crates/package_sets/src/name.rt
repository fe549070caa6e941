//! A name, as it is kept and as it is sought.
ghost use Rattle.std.specs.Prelude.{◌≡◌, ◌∷◌, [], bytes_eq};
ghost use Rattle.std.specs.Cmp.Lexicographic.{bytes_decides, nat_list_eq_equiv};
ghost use Rattle.std.proofs.Common.{ap};

use indexmap::Equivalent;
use lisp_object::Bytes;
use std::alloc::AllocError;
use std::hash::{Hash, Hasher};

/// A name that is kept; a short one takes no memory of its own. It is hashed in one piece.
#[derive(PartialEq, Eq, Drop)]
pub(crate) struct KeptName {
    pub(crate) bytes: Bytes,
}

impl Clone for KeptName {
    ghost is_clone = { λ name copy. copy.bytes ≡ name.bytes };

    fn clone(&self) -> Result<KeptName, AllocError> {
        let bytes = self.bytes.clone()?;
        Ok(KeptName { bytes })
    }
}

impl Hash for KeptName {
    ghost hash_input = { λ name. name.bytes ∷ [] };

    ghost respects_eq = { λ x y same. ap (λ b. b ∷ []) ((bytes_decides x.bytes y.bytes).0 same) };

    #[inline(always)]
    fn hash<H: Hasher>(&self, state: &mut H) {
        state.write(self.bytes.as_slice());
    }
}

/// A name that is sought.
#[derive(Clone, Copy, PartialEq, Eq)]
pub(crate) struct SoughtName<'a> {
    pub(crate) bytes: &'a [u8],
}

impl<'a> Hash for SoughtName<'a> {
    ghost hash_input = { λ name. name.bytes.now ∷ [] };

    ghost respects_eq = { λ x y same. ap (λ b. b ∷ []) ((bytes_decides x.bytes.now y.bytes.now).0 same) };

    #[inline(always)]
    fn hash<H: Hasher>(&self, state: &mut H) {
        state.write(self.bytes);
    }
}

impl<'a> Equivalent<KeptName> for SoughtName<'a> {
    ghost equivalent = { λ name kept. bytes_eq name.bytes.now kept.bytes };

    ghost respects_hash = { λ name kept same. ap (λ b. b ∷ []) ((bytes_decides name.bytes.now kept.bytes).0 same) };

    ghost respects_eq = { λ name x y. nat_list_eq_equiv.congr name.bytes.now x.bytes y.bytes };

    fn equivalent(&self, key: &KeptName) -> bool {
        self.bytes == key.bytes.as_slice()
    }
}
