//! Bytes that contracts see as a list of numbers.
ghost use Rattle.std.specs.Prelude.{◌≡◌, ◌==◌, ◌<◌, All, IsTrue, IfOk, IfSome};
ghost use Rattle.std.specs.List.{list_all};
ghost use Rattle.std.proofs.Common.{rules};
ghost use Rattle.std.specs.Cmp.Lexicographic.{pointwise};
ghost use Rattle.std.specs.Cmp.Rules.{comparing};
ghost use Rattle.lisp_object.specs.Ascii.{is_ascii};
ghost use Rattle.lisp_object.specs.ByteStorage.{bytes_in};

use crate::short_bytes::ShortBytes;
use std::alloc::{AllocError, Global};
use std::marker::Model;

/// The most bytes that are kept in the value itself.
const SHORT: usize = 14;

/// The name of the package in which most symbols are.
const USER: &[u8] = b"COMMON-LISP-USER";

/// A name or a text, of sixteen bytes. Contracts see the list of its bytes. At most 14 of them are kept in the value itself,
/// and COMMON-LISP-USER takes no memory either.
#[derive(Debug)]
pub struct Bytes {
    kept: Kept,
}

impl Drop for Bytes {
    fn drop(self) {
        let Bytes { kept: _ } = self;
    }
}

#[derive(Debug, Drop)]
enum Kept {
    Short(ShortBytes),
    User,
    Long(Box<Vec<u8>>),
}

impl Model for Bytes {
    ghost use Rattle.std.specs.Prelude.{List, ℕ};
    ghost use Rattle.lisp_object.specs.ByteStorage.{bytes_in};

    ghost Value = { List ℕ };

    ghost view = { λ b. bytes_in b.kept };
}

impl Bytes {
    /// The bytes of `vec`.
    pub fn from_vec(vec: Vec<u8>) -> Result<Bytes, AllocError>
        ensures { IfOk result (λ b. b ≡ vec.items) }
    {
        match in_place(vec.as_slice()) {
            Some(kept) => Ok(Bytes { kept }),
            None => Bytes::long(vec),
        }
    }

    /// A copy of `bytes`.
    #[inline(always)]
    pub fn from_slice(alloc: Global, bytes: &[u8]) -> Result<Bytes, AllocError>
        ensures { IfOk result (λ b. b ≡ bytes.now) }
    {
        match in_place(bytes) {
            Some(kept) => Ok(Bytes { kept }),
            None => Bytes::long(Vec::from_slice(alloc, bytes)?),
        }
    }

    #[inline(never)]
    fn long(vec: Vec<u8>) -> Result<Bytes, AllocError>
        ensures { IfOk result (λ b. b ≡ vec.items) }
    {
        let vec = Box::new(*vec.allocator(), vec)?;
        Ok(Bytes {
            kept: Kept::Long(vec),
        })
    }

    /// The bytes.
    #[inline]
    pub fn as_slice(&self) -> &[u8]
        ensures { result.now ≡ self.now }
    {
        match &self.kept {
            Kept::Short(bytes) => bytes.as_slice(),
            Kept::User => USER,
            Kept::Long(bytes) => bytes.as_slice(),
        }
    }

    /// Whether each byte is a character of the standard, below 128.
    pub fn is_ascii(&self) -> bool
        ensures value { result ≡ list_all is_ascii self.now }
        ensures below { IsTrue result → All (λ b. b < 128) self.now }
    {
        self.as_slice().iter().all(|byte| *byte < 128)
    }
}

// How bytes are kept that take no memory of their own, where these may be kept so.
#[inline(always)]
fn in_place(bytes: &[u8]) -> Option<Kept>
    ensures { IfSome result (λ kept. bytes_in kept ≡ bytes.now) }
{
    if bytes.len() <= SHORT {
        return Some(Kept::Short(ShortBytes::new(bytes)));
    }
    if bytes == USER {
        return Some(Kept::User);
    }
    None
}

impl Clone for Bytes {
    ghost is_clone = { λ b copy. copy ≡ b };

    fn clone(&self) -> Result<Bytes, AllocError> {
        match &self.kept {
            Kept::Short(bytes) => Ok(Bytes {
                kept: Kept::Short(bytes.copy()),
            }),
            Kept::User => Ok(Bytes { kept: Kept::User }),
            Kept::Long(bytes) => {
                let vec = Vec::from_slice(*bytes.allocator(), bytes.as_slice())?;
                Bytes::long(vec)
            }
        }
    }
}

impl PartialEq for Bytes {
    ghost eq = { pointwise ◌==◌ };

    ghost laws = { Prim.search (comparing, rules) };

    fn eq(&self, other: &Bytes) -> bool {
        match (&self.kept, &other.kept) {
            (Kept::User, Kept::User) => true,
            _ => self.as_slice() == other.as_slice(),
        }
    }
}

impl Eq for Bytes {
    ghost laws = { Prim.search (comparing, rules) };
}
