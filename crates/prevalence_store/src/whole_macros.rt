// The macro functions of a store.
ghost use Rattle.std.specs.Prelude.{◌≡◌, true};
ghost use Rattle.user_macros.specs.Functions.{are_registered};

use plist_state::Seed;
use std::marker::Model;
use user_macros::MacroFunctions;

/// Macro functions of which each one that the meaning names is registered, and answers what it means.
pub struct WholeMacros<R: MacroFunctions> {
    pub(crate) functions: R,
    /// By which the names of a world are hashed that is made anew.
    pub(crate) seed: Seed,
}

impl<R: MacroFunctions> Model for WholeMacros<R> {
    ghost use Rattle.std.specs.Prelude.{◌≡◌, true};
    ghost use Rattle.user_macros.specs.Functions.{are_registered};

    ghost Value = { R };

    ghost coded = { R.code };

    ghost view = { λ m. m.functions };

    ghost invariant = { λ m. R.answers m.functions × (are_registered R.Meaning.functions (R.functions m.functions) ≡ true) };
}

impl<R: MacroFunctions> WholeMacros<R> {
    /// What the macro functions mean: their names, how each gathers, and what each answers.
    pub fn meaning(&self) -> &R::Meaning
        ensures { result.now ≡ R.meant self.now }
    {
        self.functions.meaning()
    }

    /// The functions that are registered, of which none is missing.
    pub fn functions(&self) -> &R
        ensures value { result.now ≡ self.now }
        ensures answers { R.answers result.now }
        ensures whole { are_registered R.Meaning.functions (R.functions result.now) ≡ true }
    {
        &self.functions
    }
}
