//! One macro function, from its meaning to its call: `Notes` of user_macros with no closure.
ghost use Rattle.std.specs.Prelude.{◌≡◌, IfOk};
ghost use Rattle.user_macros.specs.Calls.{answer_of, no_value};

use crate::{Answering, Fixed};
use lisp_object::Bytes;
use readtable_core::FnName;
use std::alloc::{AllocError, Global};
use user_macros::example::Notes;
use user_macros::{Answer, Call, Gathered, MacroFunctions};

impl Answering for Notes {
    fn answer(&self, _alloc: Global, _name: FnName, _call: Call) -> Result<Answer, AllocError> {
        Ok(Answer::Nothing)
    }
}

/// Calls NOTE on a line with nothing in it.
pub fn note(alloc: Global) -> Result<Answer, AllocError>
    ensures { IfOk result (λ answer. answer_of answer ≡ no_value) }
{
    let macros = Fixed::new(alloc, Notes::new());
    let call = Call {
        character: b'!',
        sub: None,
        number: None,
        gathered: Gathered::Text(Bytes::from_slice(alloc, b"")?),
    };
    macros.call(FnName::new(b"NOTE").unwrap(), call)
}
