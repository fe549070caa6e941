//! Division of integers, rounded down (standard 12.2).
ghost use Rattle.std.specs.Prelude.{◌≡◌, ◌≢◌, pos, [], ◌∷◌, IfOk};
ghost use Rattle.lisp_object.specs.Datum.{object_of};
ghost use Rattle.lisp_operators.specs.EvaluationAnswers.{IsProper, AreProper, objects};
ghost use Rattle.value_functions.specs.Arithmetic.{is_cut_up, left_over, division_value, division};
ghost use Rattle.value_functions.specs.FunctionAnswers.{AnswersValue};

use crate::functions::Division;
use crate::kinds::integer;
use lisp_object::Datum;
use lisp_object::refusal::{ARGUMENT_KIND, INTEGER_RANGE};
use lisp_operators::EvaluationError;
use lisp_operators::EvaluationError::Refused;
use std::alloc::Global;

// Whether a quotient that is cut to an integer is over the quotient itself.
fn is_cut_up(n: i128, d: i128) -> bool
    requires { d ≢ pos 0 }
    ensures { result ≡ is_cut_up n d }
{
    let rest = n.wrapping_rem(d);
    rest < 0 && 0 < d || 0 < rest && d < 0
}

// FLOOR, its first value, or MOD, of these.
fn division_value(function: Division, n: i128, d: i128) -> Result<Datum, EvaluationError>
    ensures value { AnswersValue result (division_value function n d) }
    ensures proper { IfOk result IsProper }
{
    if d == 0 {
        return Err(Refused(INTEGER_RANGE));
    }
    match function {
        Division::Floor => floor(n, d),
        Division::Mod => Ok(Datum::Integer(left_over(n, d))),
    }
}

// The quotient, rounded down.
fn floor(n: i128, d: i128) -> Result<Datum, EvaluationError>
    requires { d ≢ pos 0 }
    ensures value { AnswersValue result (division_value Division.Floor n d) }
    ensures proper { IfOk result IsProper }
{
    let Some(quotient) = n.checked_div(d) else {
        return Err(Refused(INTEGER_RANGE));
    };
    if !is_cut_up(n, d) {
        return Ok(Datum::Integer(quotient));
    }
    match quotient.checked_sub(1) {
        Some(below) => Ok(Datum::Integer(below)),
        None => Err(Refused(INTEGER_RANGE)),
    }
}

// What is left when the quotient is rounded down.
fn left_over(n: i128, d: i128) -> i128
    requires { d ≢ pos 0 }
    ensures { result ≡ left_over n d }
{
    let rest = n.wrapping_rem(d);
    if is_cut_up(n, d) { rest + d } else { rest }
}

// A division of one argument by another.
fn of_two(function: Division, first: &Datum, second: &Datum) -> Result<Datum, EvaluationError>
    requires first { IsProper first.now }
    requires second { IsProper second.now }
    ensures value { AnswersValue result
        (division function (object_of first.now ∷ object_of second.now ∷ [])) }
    ensures proper { IfOk result IsProper }
{
    let Some(n) = integer(first) else {
        return Err(Refused(ARGUMENT_KIND));
    };
    let Some(d) = integer(second) else {
        return Err(Refused(ARGUMENT_KIND));
    };
    division_value(function, n, d)
}

/// What a division gives: by 1, where no divisor is given. Refused as `ARGUMENT_KIND` where there are not one or two,
/// or one is no integer; `division` says what else refuses it.
pub(crate) fn divide(
    _alloc: Global,
    function: Division,
    values: &[Datum],
) -> Result<Datum, EvaluationError>
    requires { AreProper values.now }
    ensures value { AnswersValue result (division function (objects values.now)) }
    ensures proper { IfOk result IsProper }
{
    match values {
        [first] => match integer(first) {
            Some(n) => division_value(function, n, 1),
            None => Err(Refused(ARGUMENT_KIND)),
        },
        [first, second] => of_two(function, first, second),
        _ => Err(Refused(ARGUMENT_KIND)),
    }
}
