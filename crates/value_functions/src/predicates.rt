//! What an object is (standard 4.2, 5.3).
ghost use Rattle.std.specs.Prelude.{◌≡◌, IfOk};
ghost use Rattle.lisp_object.specs.Datum.{object_of};
ghost use Rattle.lisp_operators.specs.EvaluationAnswers.{IsProper, AreProper, objects};
ghost use Rattle.value_functions.specs.Predicates.{is_vector, has_predicate, predicate};
ghost use Rattle.value_functions.specs.FunctionAnswers.{AnswersValue};

use crate::functions::Predicate;
use crate::kinds::{character, integer, symbol_name, text};
use crate::truth::truth_value;
use lisp_object::Datum;
use lisp_object::refusal::ARGUMENT_KIND;
use lisp_operators::EvaluationError::Refused;
use lisp_operators::{EvaluationError, kinds};
use std::alloc::Global;

// Whether it is a vector; a text is one too.
fn is_vector(datum: &Datum) -> bool
    requires { IsProper datum.now }
    ensures { result ≡ is_vector (object_of datum.now) }
{
    match datum {
        Datum::Vector(_) => true,
        Datum::Text(_) => true,
        Datum::Integer(_) => false,
        Datum::Rational(_) => false,
        Datum::Char(_) => false,
        Datum::Symbol { .. } => false,
        Datum::Uninterned(_) => false,
        Datum::List { .. } => false,
    }
}

// Whether the object is what the predicate asks for.
fn holds(test: Predicate, datum: &Datum) -> bool
    requires { IsProper datum.now }
    ensures { result ≡ has_predicate test (object_of datum.now) }
{
    match test {
        Predicate::Not => !kinds::is_true(datum),
        Predicate::Consp => kinds::is_pair(datum),
        Predicate::Symbolp => symbol_name(datum).is_some(),
        Predicate::Stringp => text(datum).is_some(),
        Predicate::Integerp => integer(datum).is_some(),
        Predicate::Characterp => character(datum).is_some(),
        Predicate::Vectorp => is_vector(datum),
    }
}

/// Whether the one argument is what the predicate asks for. Refused as `ARGUMENT_KIND` where there is none, or more
/// than one.
pub(crate) fn test_object(
    alloc: Global,
    test: Predicate,
    values: &[Datum],
) -> Result<Datum, EvaluationError>
    requires { AreProper values.now }
    ensures value { AnswersValue result (predicate test (objects values.now)) }
    ensures proper { IfOk result IsProper }
{
    let [datum] = values else {
        return Err(Refused(ARGUMENT_KIND));
    };
    Ok(truth_value(alloc, holds(test, datum))?)
}
