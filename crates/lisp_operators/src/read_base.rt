//! SETF of `*READ-BASE*` (standard 23.1.1), of the value of its argument.
ghost use Rattle.std.specs.Prelude.{◌≡◌, ◌≤◌, IfOk};
ghost use Rattle.lisp_object.specs.declared.refusal.TheConstants.{INTEGER_RANGE as WRONG_RANGE};
ghost use Rattle.lisp_operators.specs.ReadBase.{a_base, set_base};
ghost use Rattle.lisp_operators.specs.EvaluationAnswers.{FoundOr, IsProperValue, AreArgumentsOf, CarriesOut};

use crate::EvaluationError::Refused;
use crate::arguments::one;
use crate::{Evaluated, EvaluationError, kinds};
use lisp_object::Datum;
use lisp_object::refusal::INTEGER_RANGE;
use plist_state::World;

// The base that an integer is: from 2 to 36.
fn base(number: i128) -> Result<u8, EvaluationError>
    ensures base { FoundOr WRONG_RANGE (λ base. base) result (a_base number) }
    ensures lowest_base { IfOk result (λ base. 2 ≤ base) }
    ensures highest_base { IfOk result (λ base. base ≤ 36) }
{
    match u8::try_from(number) {
        Ok(base) if 2 <= base && base <= 36 => Ok(base),
        _ => Err(Refused(INTEGER_RANGE)),
    }
}

/// SETF of `*READ-BASE*`: the new base, from 2 to 36.
/// After an error the world may have changed, but for its marks: who calls it goes back to one.
pub fn set_base(world: &mut World, values: &[Datum]) -> Result<Evaluated, EvaluationError>
    requires { AreArgumentsOf world.old values.now }
    ensures gives { CarriesOut set_base values.now world.old.0 world.new.0 result }
    ensures proper { IfOk result IsProperValue }
    ensures marked { world.new.1 ≡ world.old.1 }
{
    let number = kinds::integer(one(values)?)?;
    world.set_read_base(base(number)?)?;
    Ok(Evaluated {
        value: Datum::Integer(number),
        wrote: true,
    })
}
