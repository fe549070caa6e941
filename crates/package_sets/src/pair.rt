//! Two numbers.
ghost use Rattle.std.specs.Prelude.{◌*◌, ◌+◌, ◌^◌};
ghost use Rattle.std.specs.Hash as fed;
ghost use Rattle.std.specs.Cmp.Rules.{hashing};
ghost use Rattle.std.proofs.Common.{rules};

use std::hash::{Hash, Hasher};

/// Two numbers, as those of a symbol: of its home, and of its name.
#[derive(Clone, Copy, Debug, PartialEq, Eq)]
pub struct Pair {
    pub first: u32,
    pub second: u32,
}

impl Hash for Pair {
    ghost hash_input = { λ p. fed.u64 (p.first * 2 ^ 32 + p.second) };

    ghost respects_eq = { Prim.search (hashing, rules) };

    // One word: two writes of a number each would take it apart.
    #[inline(always)]
    fn hash<H: Hasher>(&self, state: &mut H) {
        state.write_u64(self.first as u64 * 0x1_0000_0000 + self.second as u64);
    }
}
