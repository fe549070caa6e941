//! A form as a trial: whether it is refused with a number, and nothing of it is left.
ghost use Rattle.std.specs.Prelude.{◌≡◌, true, IfOk};
ghost use Rattle.lisp_object.specs.Datum.{object_of, is_proper};
ghost use Rattle.lisp_object.specs.Object.{AllAtoms};
ghost use Rattle.form_eval.specs.Laws.{FitsTable};
ghost use Rattle.refused_part.specs.Part.{is_refused_form};

use form_eval::{EvaluationError, ReadForm, accept};
use lisp_object::Datum;
use plist_state::World;
use std::alloc::{AllocError, Global};
use user_macros::Meaning;

/// A form has at most so many levels.
pub(crate) const MOST_LEVELS: u64 = 100;

/// Whether a form is at most 100 deep, and refused with this number. The world is as it was.
pub(crate) fn is_refused_form<M: Meaning>(
    alloc: Global,
    world: &mut World,
    macros: &M,
    datum: Datum,
    number: u16,
) -> Result<bool, AllocError>
    requires proper { is_proper datum ≡ true }
    requires fits { AllAtoms (FitsTable world.old.0.packages) (object_of datum) }
    ensures tells { IfOk result (λ refused. refused
        ≡ is_refused_form M.functions.names world.old.0 number (object_of datum)) }
    ensures same { world.new ≡ world.old }
{
    // all objects are sound
    if !datum.is_proper() {
        return Ok(false);
    }
    if datum.depth() > MOST_LEVELS {
        return Ok(false);
    }
    let mark = world.mark_count();
    let form = ReadForm {
        datum,
        known: false,
    };
    match accept(alloc, world, macros, &form) {
        Ok(_) => {
            world.back_to(mark);
            Ok(false)
        }
        Err(EvaluationError::Refused(code)) => Ok(code == number),
        Err(EvaluationError::OutOfMemory) => Err(AllocError),
    }
}
