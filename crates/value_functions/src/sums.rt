//! Sums, differences and products of integers (standard 12.2).
ghost use Rattle.std.specs.Prelude.{◌≡◌, true, pos, map, IfOk, is_some};
ghost use Rattle.std.specs.List.{list_all};
ghost use Rattle.lisp_object.specs.Datum.{object_of};
ghost use Rattle.lisp_operators.specs.ArgumentKinds.{an_integer};
ghost use Rattle.lisp_operators.specs.EvaluationAnswers.{IsProper, AreProper, objects};
ghost use Rattle.value_functions.specs.Arithmetic.{integer_in, operation, if_operation, from_left, result_of, arithmetic};
ghost use Rattle.value_functions.specs.FunctionAnswers.{AnswersValue};

use crate::functions::Arithmetic;
use crate::kinds::integer;
use lisp_object::Datum;
use lisp_object::refusal::{ARGUMENT_KIND, INTEGER_RANGE};
use lisp_operators::EvaluationError;
use lisp_operators::EvaluationError::Refused;
use std::alloc::Global;

// Whether each of these is an integer.
fn are_integers(values: &[Datum]) -> bool
    requires { AreProper values.now }
    ensures { result ≡ list_all (λ x. is_some (an_integer x)) (objects values.now) }
{
    'values: for datum in values {
        if integer(datum).is_none() {
            return false;
        }
    }
    true
}

// The sum, the difference or the product of two, where it has at most 128 bits.
fn operated(function: Arithmetic, n: i128, m: i128) -> Option<i128>
    ensures { result ≡ if_operation function n m }
{
    match function {
        Arithmetic::Plus => n.checked_add(m),
        Arithmetic::Minus => n.checked_sub(m),
        Arithmetic::Times => n.checked_mul(m),
    }
}

// The same of a first integer and all of these, one after the other.
fn from_left(function: Arithmetic, first: i128, values: &[Datum]) -> Result<Datum, EvaluationError>
    requires { AreProper values.now }
    ensures value { AnswersValue result (from_left function first (map integer_in (objects values.now))) }
    ensures proper { IfOk result IsProper }
{
    let mut total = first;
    'values: for datum in values {
        let number = integer(datum).unwrap_or(0);
        let Some(next) = operated(function, total, number) else {
            return Err(Refused(INTEGER_RANGE));
        };
        total = next;
    }
    Ok(Datum::Integer(total))
}

/// What a function of integers gives. Refused as `ARGUMENT_KIND` where one is no integer; `arithmetic` says what else
/// refuses it.
pub(crate) fn calculate(
    _alloc: Global,
    function: Arithmetic,
    values: &[Datum],
) -> Result<Datum, EvaluationError>
    requires { AreProper values.now }
    ensures value { AnswersValue result (arithmetic function (objects values.now)) }
    ensures proper { IfOk result IsProper }
{
    if !are_integers(values) {
        return Err(Refused(ARGUMENT_KIND));
    }
    match function {
        Arithmetic::Plus => from_left(function, 0, values),
        Arithmetic::Times => from_left(function, 1, values),
        Arithmetic::Minus => difference(values),
    }
}

// The difference of these; of one integer its negative.
fn difference(values: &[Datum]) -> Result<Datum, EvaluationError>
    requires { AreProper values.now }
    ensures value { AnswersValue result (result_of Arithmetic.Minus (map integer_in (objects values.now))) }
    ensures proper { IfOk result IsProper }
{
    match values {
        [] => Err(Refused(ARGUMENT_KIND)),
        [_] => from_left(Arithmetic::Minus, 0, values),
        [first, rest @ ..] => from_left(Arithmetic::Minus, integer(first).unwrap_or(0), rest),
    }
}
