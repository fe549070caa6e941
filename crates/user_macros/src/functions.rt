//! The macro functions that a reader, an evaluator or a store calls.
ghost use Rattle.std.specs.Prelude.{ℕ, ◌≡◌, List, is_some, IfOk, IsTrue};
ghost use Rattle.std.specs.List.{list_all};
ghost use Rattle.readtable_core.specs.Names.{is_among};
ghost use Rattle.readtable_core.specs.NamedFunctions.{functions_of};
ghost use Rattle.user_macros.specs.Calls.{call_of, answer_of};
ghost use Rattle.user_macros.specs.Functions.{Functions, named_way, are_registered, named_among};
ghost use Rattle.user_macros.specs.Sound.{IsSoundCall};
ghost use Rattle.user_macros.specs.Registry.{is_covered};

use crate::{Answer, Call, Gather, Meaning};
use readtable_core::{FnName, Readtable};
use std::alloc::AllocError;

/// Registered macro functions of one meaning. `Macros` is the one that a program has; the crates above are generic in this
/// trait.
pub trait MacroFunctions {
    /// What the functions mean.
    type Meaning: Meaning;

    /// The functions that are registered: their names, in the order in which they were, and what the meaning says of each.
    ghost functions: { Self → Functions };

    /// The meaning that they were registered for.
    ghost meant: { Self → Self.Meaning };

    /// That each registered function answers what its name means, or out of memory.
    ghost answers: { Self → Type 0 };

    /// The meaning. Takes no memory.
    fn meaning(&self) -> &Self::Meaning
        ensures { result.now ≡ meant self.now };

    /// The way in which the function of this name gathers, and `None` where none is registered. Takes no memory.
    fn gather_of(&self, name: FnName) -> Option<Gather>
        ensures value { result ≡ named_way (functions self.now) name }
        ensures some { answers self.now → IsTrue (is_among (functions self.now).names name)
            → IsTrue (is_some result) };

    /// What the function of this name answers: the definition, or out of memory. The name is registered, and the call is
    /// sound.
    fn call(&self, name: FnName, call: Call) -> Result<Answer, AllocError>
        requires answers { answers self.now }
        requires registered { IsTrue (is_among (functions self.now).names name) }
        requires sound { IsSoundCall call }
        ensures { IfOk result (λ answer. answer_of answer
            ≡ (functions self.now).answer name (call_of call)) };

    /// Whether each name of the meaning is registered. Takes no memory.
    fn is_whole(&self) -> bool
        ensures { result ≡ are_registered Self.Meaning.functions (functions self.now) };

    /// Whether each function that the readtable names, at a character or at a sub-character, is standard, STD-DISPATCH or
    /// registered. Takes no memory.
    fn covers(&self, readtable: &Readtable) -> bool
        ensures { result
            ≡ list_all (is_covered (functions self.now).names) (functions_of readtable.now) };

    // what is registered is what the meaning says of the names
    ghost as_meant: { (macros : Self) → functions macros ≡ named_among (functions macros).names Self.Meaning.functions };

    // only functions that the meaning has names of are registered
    ghost known: { (macros : Self) → answers macros → (name : List ℕ)
        → IsTrue (is_among (functions macros).names name) → IsTrue (is_among Self.Meaning.functions.names name) };
}
