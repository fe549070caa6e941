//! What the macro functions of a program mean.
ghost use Rattle.std.specs.Prelude.{ℕ, ◌≡◌, List, is_some};
ghost use Rattle.readtable_core.specs.Names.{is_among};
ghost use Rattle.user_macros.specs.Functions.{Functions};

use crate::Gather;
use readtable_core::FnName;

/// What the macro functions of a program mean: their names, the way in which each gathers, and what each answers. Two
/// registries of one type mean the same.
pub trait Meaning {
    /// The names of the functions, the way in which each gathers, and what each answers to a call: the definition.
    ghost functions: { Functions };

    /// The names of the functions. Takes no memory.
    fn names(&self) -> &[FnName]
        ensures { result.now ≡ functions.names };

    /// The way in which the function of this name gathers, and `None` where the name is not among the names. Takes no
    /// memory.
    fn gather(&self, name: FnName) -> Option<Gather>
        ensures { result ≡ functions.way name };

    // exactly the functions that have names gather
    ghost gathers: { (name : List ℕ) → is_some (functions.way name) ≡ is_among functions.names name };
}
