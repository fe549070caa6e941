//! The meaning of a program that has no macro function of its own.
ghost use Rattle.std.specs.Prelude.{refl};
ghost use Rattle.user_macros.specs.Functions.{no_functions};

use crate::{Gather, Meaning};
use readtable_core::FnName;

/// No macro function: readtables have those of the standard alone. `Macros::new(alloc, NoFunctions)` is its registry, and is whole.
#[derive(Clone, Copy, Debug, Drop)]
pub struct NoFunctions;

impl Meaning for NoFunctions {
    ghost functions = { no_functions };

    ghost gathers = { λ name. refl };

    fn names(&self) -> &[FnName] {
        &[]
    }

    fn gather(&self, _name: FnName) -> Option<Gather> {
        None
    }
}
