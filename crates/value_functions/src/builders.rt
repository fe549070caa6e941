//! What is built of any number of objects (standard 14.2, 15.2).
ghost use Rattle.std.specs.Prelude.{◌≡◌, IfOk};
ghost use Rattle.lisp_operators.specs.EvaluationAnswers.{IsProper, AreProper, objects};
ghost use Rattle.value_functions.specs.Building.{building};
ghost use Rattle.value_functions.specs.FunctionAnswers.{AnswersValue};

use crate::functions::Building;
use crate::items::{copied, proper_items};
use crate::parts::within;
use lisp_object::refusal::ARGUMENT_KIND;
use lisp_object::{Datum, Items};
use lisp_operators::EvaluationError;
use lisp_operators::EvaluationError::Refused;
use std::alloc::Global;

// VECTOR.
fn vector(alloc: Global, values: &[Datum]) -> Result<Datum, EvaluationError>
    requires { AreProper values.now }
    ensures value { AnswersValue result (building Building.Vector (objects values.now)) }
    ensures proper { IfOk result IsProper }
{
    within(Datum::Vector(Items::from_vec(copied(alloc, values)?)))
}

// APPEND.
fn append(alloc: Global, values: &[Datum]) -> Result<Datum, EvaluationError>
    requires { AreProper values.now }
    ensures value { AnswersValue result (building Building.Append (objects values.now)) }
    ensures proper { IfOk result IsProper }
{
    if values.is_empty() {
        return Ok(Datum::nil(alloc)?);
    }
    let last = values.len() - 1;
    let mut joined = Vec::new(alloc);
    for at in 0..last {
        let Some(items) = proper_items(&values[at]) else {
            return Err(Refused(ARGUMENT_KIND));
        };
        let mut more = copied(alloc, items)?;
        joined.append(&mut more)?;
    }
    within(Datum::list(alloc, joined, Some(values[last].copy(alloc)?))?)
}

/// What is built of these. Refused as `VALUE_TOO_DEEP` or `LIMIT` where it is too deep or too large; APPEND also as
/// `ARGUMENT_KIND`, where one of all but the last is no list.
pub(crate) fn build(
    alloc: Global,
    function: Building,
    values: &[Datum],
) -> Result<Datum, EvaluationError>
    requires { AreProper values.now }
    ensures value { AnswersValue result (building function (objects values.now)) }
    ensures proper { IfOk result IsProper }
{
    match function {
        Building::Append => append(alloc, values),
        Building::Vector => vector(alloc, values),
    }
}
