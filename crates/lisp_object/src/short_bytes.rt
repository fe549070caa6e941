//! Few bytes, in the value itself.
ghost use Rattle.std.specs.Prelude.{◌≡◌, ◌≤◌, length};

use std::marker::Model;

/// At most 14 bytes, held in the value itself. Contracts see the list of them.
#[derive(Debug, Drop)]
pub(crate) struct ShortBytes {
    size: u8,
    bytes: [u8; 14],
}

impl Model for ShortBytes {
    ghost use Rattle.std.specs.Prelude.{ℕ, ◌≡◌, ◌≤◌, List, length, take};

    ghost Value = { List ℕ };

    ghost view = { λ s. take s.size s.bytes };

    ghost invariant = { λ s. (s.size ≤ 14) × (length s.bytes ≡ 14) };
}

impl ShortBytes {
    /// These bytes.
    #[inline(always)]
    pub(crate) fn new(bytes: &[u8]) -> ShortBytes
        requires { length bytes.now ≤ 14 }
        ensures { result ≡ bytes.now }
    {
        let mut held = [0; 14];
        held[..bytes.len()].copy_from_slice(bytes);
        ShortBytes {
            size: bytes.len() as u8,
            bytes: held,
        }
    }

    /// The same bytes.
    pub(crate) fn copy(&self) -> ShortBytes
        ensures { result ≡ self.now }
    {
        ShortBytes {
            size: self.size,
            bytes: self.bytes,
        }
    }

    /// The bytes.
    pub(crate) fn as_slice(&self) -> &[u8]
        ensures { result.now ≡ self.now }
    {
        &self.bytes[..usize::from(self.size)]
    }
}
