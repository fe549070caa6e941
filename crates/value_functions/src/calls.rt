//! The value of a function.
ghost use Rattle.std.specs.Prelude.{IfOk};
ghost use Rattle.lisp_operators.specs.EvaluationAnswers.{IsProper, AreProper, objects};
ghost use Rattle.value_functions.specs.Functions.{function_value};
ghost use Rattle.value_functions.specs.FunctionAnswers.{AnswersValue};

use crate::builders::build;
use crate::comparisons::compare_numbers;
use crate::divisions::divide;
use crate::equals::test_equality;
use crate::extremes::find_extreme;
use crate::functions::ValueFunction;
use crate::lists::on_lists;
use crate::predicates::test_object;
use crate::sequences::on_sequences;
use crate::sums::calculate;
use crate::texts::on_texts;
use lisp_object::Datum;
use lisp_operators::EvaluationError;
use std::alloc::Global;

/// The value of a function of these arguments, or the number of its refusal. How many arguments it takes is for the caller to
/// look at: of another number of them it is refused with 33.
pub fn apply(
    alloc: Global,
    function: ValueFunction,
    values: Vec<Datum>,
) -> Result<Datum, EvaluationError>
    requires { AreProper values.items }
    ensures value { AnswersValue result (function_value function (objects values.items)) }
    ensures proper { IfOk result IsProper }
{
    let values = values.as_slice();
    match function {
        ValueFunction::Equality(function) => test_equality(alloc, function, values),
        ValueFunction::Predicate(function) => test_object(alloc, function, values),
        ValueFunction::Comparison(function) => compare_numbers(alloc, function, values),
        ValueFunction::Extreme(function) => find_extreme(alloc, function, values),
        ValueFunction::Arithmetic(function) => calculate(alloc, function, values),
        ValueFunction::Division(function) => divide(alloc, function, values),
        ValueFunction::OnTexts(function) => on_texts(alloc, function, values),
        ValueFunction::OnLists(function) => on_lists(alloc, function, values),
        ValueFunction::OnSequences(function) => on_sequences(alloc, function, values),
        ValueFunction::Building(function) => build(alloc, function, values),
    }
}
