//! One macro function, from its meaning to its call: the pattern that `docs/use/macros.md` explains.
ghost use Rattle.std.specs.Prelude.{ℕ, ◌≡◌, [], ◌∷◌, List, Option, Some, None, IfOk, codes, if◌then◌else◌, is_some};
ghost use Rattle.readtable_core.specs.Names.{same_name, is_among};
ghost use Rattle.user_macros.specs.Calls.{answer_of, no_value};

use crate::{Answer, Call, Cause, Gather, Gathered, MacroFn, MacroFunctions, Macros, Meaning};
use lisp_object::Bytes;
use readtable_core::FnName;
use std::alloc::{AllocError, Global};

/// The meaning of one function, NOTE: it gathers a line, and answers no object.
#[derive(Drop)]
pub struct Notes {
    names: [FnName; 1],
    ghost are: { names ≡ codes "NOTE" ∷ [] },
}

impl Notes {
    /// The one meaning of this type.
    pub fn new() -> Notes {
        Notes {
            names: [FnName::new(b"NOTE").unwrap()],
        }
    }
}

impl Meaning for Notes {
    ghost use Rattle.user_macros.specs.declared.call.Gather.TheVariants.{Line};
    ghost use Rattle.std.proofs.Common.{rules};

    ghost functions = { record {
      names = codes "NOTE" ∷ [];
      way = λ name. if same_name (codes "NOTE") name then Some Line else None;
      answer = λ name call. no_value;
    } };

    ghost gathers = { λ name. Prim.search rules };

    fn names(&self) -> &[FnName] {
        &self.names
    }

    fn gather(&self, name: FnName) -> Option<Gather> {
        if b"NOTE".as_slice() == name.as_bytes() {
            Some(Gather::Line)
        } else {
            None
        }
    }
}

/// Registers NOTE, and calls it on a line with nothing in it.
pub fn note(alloc: Global) -> Result<Answer, AllocError>
    ensures { IfOk result (λ answer. answer_of answer ≡ no_value) }
{
    let name = FnName::new(b"NOTE").unwrap();
    let function: MacroFn = Box::new(alloc, |_call: Call| Ok(Answer::Nothing))?;
    let mut macros = Macros::new(alloc, Notes::new());
    if let Err(refusal) = macros.register(name, function) {
        // NOTE is a name of the meaning, and nothing is registered under it.
        prove!(refusal.cause == Cause::OutOfMemory);
        return Err(AllocError);
    }
    let call = Call {
        character: b'!',
        sub: None,
        number: None,
        gathered: Gathered::Text(Bytes::from_slice(alloc, b"")?),
    };
    macros.call(name, call)
}
