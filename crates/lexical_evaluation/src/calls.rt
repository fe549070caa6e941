//! The calls of this crate: the value of a form in the language with functions.
ghost use Rattle.std.specs.Prelude.{◌≡◌, IfOk};
ghost use Rattle.lisp_object.specs.Datum.{object_of};
ghost use Rattle.lisp_operators.specs.Readtables.{AreFunctionNames};
ghost use Rattle.lisp_operators.specs.EvaluationAnswers.{Answers, done, IsArgument};
ghost use Rattle.lexical_evaluation.specs.Calls.{lexical_value};

use crate::machine::{Machine, NextStep, Stepped};
use kept_functions::bounds::{MOST_CALLS, MOST_STEPS};
use lisp_object::Datum;
use lisp_operators::{Evaluated, EvaluationError};
use plist_state::World;
use readtable_core::FnName;
use std::alloc::Global;

/// The value of a form in the language with functions. Where it is refused, or memory runs out, what was carried out before
/// stays, and the marks are as they were.
pub fn evaluate(
    alloc: Global,
    world: &mut World,
    names: &[FnName],
    form: Datum,
) -> Result<Evaluated, EvaluationError>
    requires names { AreFunctionNames names.now }
    requires form { IsArgument world.old.0.packages form }
    ensures gives { Answers done result world.new.0
        (lexical_value names.now world.old.0 (object_of form)) }
    ensures value { IfOk result (λ e. IsArgument world.new.0.packages e.value) }
    ensures marked { world.new.1 ≡ world.old.1 }
{
    world.soundness();
    let mut machine = Machine::new(alloc, MOST_STEPS as u32, MOST_CALLS);
    let mut next = NextStep::Evaluate(form);
    // each step takes one of those that are left, or a part of what waits: so many do not pass
    'steps: for _ in 0..u64::MAX {
        match machine.step(world, names, next) {
            Err(error) => return Err(error),
            Ok(stepped) => match stepped {
                Stepped::GoesOn(following) => next = following,
                Stepped::Reached(value) => {
                    return Ok(Evaluated {
                        value,
                        wrote: machine.wrote,
                    });
                }
            },
        }
    }
    Err(EvaluationError::OutOfMemory)
}
