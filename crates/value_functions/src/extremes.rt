//! The least or the greatest of numbers (standard 12.2).
ghost use Rattle.std.specs.Prelude.{◌≡◌, IfOk};
ghost use Rattle.lisp_object.specs.Datum.{object_of};
ghost use Rattle.lisp_operators.specs.EvaluationAnswers.{IsProper, AreProper, objects};
ghost use Rattle.value_functions.specs.Comparisons.{is_further, furthest, extreme};
ghost use Rattle.value_functions.specs.FunctionAnswers.{AnswersValue};

use crate::comparisons::{are_numbers, is_less};
use crate::functions::Extreme;
use lisp_object::Datum;
use lisp_object::refusal::ARGUMENT_KIND;
use lisp_operators::EvaluationError;
use lisp_operators::EvaluationError::Refused;
use std::alloc::Global;

// Whether the second number is less than the first, or greater.
fn is_further(way: Extreme, first: &Datum, second: &Datum) -> bool
    requires first { IsProper first.now }
    requires second { IsProper second.now }
    ensures { result ≡ is_further way (object_of first.now) (object_of second.now) }
{
    match way {
        Extreme::Min => is_less(second, first),
        Extreme::Max => is_less(first, second),
    }
}

// The first of the least of these, or of the greatest.
fn furthest<'a>(way: Extreme, first: &'a Datum, rest: &'a [Datum]) -> &'a Datum
    requires first { IsProper first.now }
    requires rest { AreProper rest.now }
    ensures value { object_of result.now ≡ furthest way (object_of first.now) (objects rest.now) }
    ensures proper { IsProper result.now }
{
    let mut found = first;
    'rest: for datum in rest {
        if is_further(way, found, datum) {
            found = datum;
        }
    }
    found
}

/// The least or the greatest of these. Refused as `ARGUMENT_KIND` where there is none, or one is no number.
pub(crate) fn find_extreme(
    alloc: Global,
    way: Extreme,
    values: &[Datum],
) -> Result<Datum, EvaluationError>
    requires { AreProper values.now }
    ensures value { AnswersValue result (extreme way (objects values.now)) }
    ensures proper { IfOk result IsProper }
{
    if !are_numbers(values) {
        return Err(Refused(ARGUMENT_KIND));
    }
    match values {
        [] => Err(Refused(ARGUMENT_KIND)),
        [first, rest @ ..] => Ok(furthest(way, first, rest).copy(alloc)?),
    }
}
