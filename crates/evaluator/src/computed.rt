//! The functions of values alone.
ghost use Rattle.std.specs.Prelude.{◌≡◌, IfOk, List, None};
ghost use Rattle.lisp_object.specs.Object.{Object, list_of};
ghost use Rattle.lisp_object.specs.Datum.{object_of};
ghost use Rattle.plist_state.specs.State.{WorldState};
ghost use Rattle.lisp_operators.specs.Evaluation.{Evaluation, and_then};
ghost use Rattle.lisp_operators.specs.EvaluationAnswers.{Answers, done, IsProper, AreProper, CarriesOut, IsProperValue, objects};
ghost use Rattle.lisp_operators.specs.Properties.{list};
ghost use Rattle.evaluator.specs.Operators.{computed, computed_value};
ghost use Rattle.value_functions.specs.Functions.{most_arguments};

use crate::control::after;
use lisp_object::Datum;
use lisp_operators::{Evaluated, EvaluationError};
use std::alloc::Global;
use value_functions::{ValueFunction, apply};

/// What such a function gives of these values, where it takes so many at most. It changes nothing, and refuses what the
/// function refuses.
pub(crate) fn computed(
    alloc: Global,
    function: ValueFunction,
    values: Vec<Datum>,
) -> Result<Evaluated, EvaluationError>
    requires { AreProper values.items }
    ensures gives { (s : WorldState) → CarriesOut (computed_value function) values.items s s result }
    ensures proper { IfOk result IsProperValue }
{
    match apply(alloc, function, values) {
        Ok(value) => Ok(Evaluated {
            value,
            wrote: false,
        }),
        Err(error) => Err(error),
    }
}

// The items of a list, moved out.
fn into_items(alloc: Global, list: Datum) -> Vec<Datum>
    requires { IsProper list }
    ensures items { (xs : List Object) → object_of list ≡ list_of xs → objects result.items ≡ xs }
    ensures proper { AreProper result.items }
{
    match list.into_list() {
        Ok((items, _tail)) => items.into_vec(),
        Err(_) => Vec::new(alloc),
    }
}

/// What a function of values gives that takes any number of them, of the items of this list. Where there is no list but a refusal of one,
/// the function is refused with that.
pub fn computed_of_list(
    alloc: Global,
    function: ValueFunction,
    listed: Result<Evaluated, EvaluationError>,
) -> Result<Evaluated, EvaluationError>
    requires any { most_arguments function ≡ None }
    requires proper { IfOk listed IsProperValue }
    ensures gives { (s : WorldState) (values : Evaluation (List Object))
        → Answers done listed s (and_then values list)
        → Answers done result s (and_then values (computed function)) }
    ensures proper { IfOk result IsProperValue }
{
    match listed {
        Ok(evaluated) => {
            let Evaluated { value, wrote } = evaluated;
            after(wrote, computed(alloc, function, into_items(alloc, value)))
        }
        Err(error) => Err(error),
    }
}
