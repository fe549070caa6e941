//! A meaning with the code of its functions.
ghost use Rattle.std.specs.Prelude.{◌≡◌, IfOk, IsTrue};
ghost use Rattle.readtable_core.specs.Names.{is_among};
ghost use Rattle.user_macros.specs.Calls.{call_of, answer_of};
ghost use Rattle.user_macros.specs.Sound.{IsSoundCall};

use readtable_core::FnName;
use std::alloc::{AllocError, Global};
use user_macros::{Answer, Call, Meaning};

/// A meaning with the code of its functions.
pub trait Answering: Meaning {
    /// What the function of this name answers: the definition, or out of memory. The name is one of the meaning, and the call is
    /// sound.
    fn answer(&self, alloc: Global, name: FnName, call: Call) -> Result<Answer, AllocError>
        requires known { IsTrue (is_among Self.functions.names name) }
        requires sound { IsSoundCall call }
        ensures { IfOk result (λ answer. answer_of answer
            ≡ Self.functions.answer name (call_of call)) };
}
