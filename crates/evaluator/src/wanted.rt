//! What is asked of the value of a form, and what stands for a value of which less is asked.
ghost use Rattle.std.specs.Prelude.{◌≡◌, true, IfOk};
ghost use Rattle.lisp_object.specs.Object.{Object};
ghost use Rattle.plist_state.specs.State.{WorldState};
ghost use Rattle.lisp_operators.specs.Evaluation.{Evaluation};
ghost use Rattle.lisp_object.specs.Datum.{object_of};
ghost use Rattle.lisp_operators.specs.EvaluationAnswers.{Answers, done, IsProper, IsProperValue};
ghost use Rattle.lisp_operators.specs.ArgumentKinds.{is_true};
ghost use Rattle.evaluator.specs.Value.{has_truth};
ghost use Rattle.evaluator.specs.StandIns.{stand_in, seen, wanted_for};

use crate::operation::Operation;
use lisp_object::Datum;
use lisp_operators::{Evaluated, EvaluationError, ListBuilder, kinds, values};
use std::alloc::{AllocError, Global};

/// What is asked of the value of a form.
#[derive(Clone, Copy, Debug, PartialEq, Eq)]
pub(crate) enum ValueUse {
    /// The value itself.
    Value,
    /// Whether it is true.
    Truth,
    /// Whether it has too many levels for an item of a list.
    Depth,
    /// Nothing: the form is evaluated for what it does.
    Nothing,
}

/// An operator, and what is asked of the value of its form.
#[derive(Clone, Copy, Debug, PartialEq, Eq)]
pub(crate) struct EvaluationTask {
    pub operation: Operation,
    pub wanted: ValueUse,
}

/// What is asked of one value more for a list.
pub(crate) fn wanted_for(values: &ListBuilder) -> ValueUse
    ensures { result ≡ wanted_for values.now }
{
    match values {
        ListBuilder::Within { .. } => ValueUse::Value,
        ListBuilder::TooLarge => ValueUse::Depth,
        ListBuilder::TooDeep => ValueUse::Nothing,
    }
}

/// What is asked of a test whose value may be that of its form where it is true, or else where it is false.
pub(crate) fn wanted_of_test(where_true: bool) -> ValueUse
    ensures truth { (x : Object) → is_true (stand_in result x) ≡ is_true x }
    ensures kept { (x : Object) → has_truth where_true x ≡ true → stand_in result x ≡ x }
{
    if where_true {
        return ValueUse::Value;
    }
    ValueUse::Truth
}

/// The value, or what stands for it.
fn stand_in(value: Datum, wanted: ValueUse) -> Datum
    requires { IsProper value }
    ensures object { object_of result ≡ stand_in wanted (object_of value) }
    ensures proper { IsProper result }
{
    match wanted {
        ValueUse::Value => value,
        ValueUse::Truth => {
            if kinds::is_true(&value) {
                Datum::Integer(1)
            } else {
                value
            }
        }
        ValueUse::Depth => {
            if values::is_too_deep_within(&value) {
                value
            } else {
                Datum::Integer(1)
            }
        }
        ValueUse::Nothing => Datum::Integer(1),
    }
}

/// A copy of a value, or what stands for it: no more is copied than is asked for.
pub(crate) fn shown(alloc: Global, value: &Datum, wanted: ValueUse) -> Result<Datum, AllocError>
    requires { IsProper value.now }
    ensures object { IfOk result (λ d. object_of d ≡ stand_in wanted (object_of value.now)) }
    ensures proper { IfOk result IsProper }
{
    match wanted {
        ValueUse::Value => value.copy(alloc),
        ValueUse::Truth => {
            if kinds::is_true(value) {
                Ok(Datum::Integer(1))
            } else {
                value.copy(alloc)
            }
        }
        ValueUse::Depth => {
            if values::is_too_deep_within(value) {
                value.copy(alloc)
            } else {
                Ok(Datum::Integer(1))
            }
        }
        ValueUse::Nothing => Ok(Datum::Integer(1)),
    }
}

/// What was evaluated, with what stands for its value. What was refused stays refused.
pub(crate) fn seen(
    evaluated: Result<Evaluated, EvaluationError>,
    wanted: ValueUse,
) -> Result<Evaluated, EvaluationError>
    requires { IfOk evaluated IsProperValue }
    ensures gives { (s : WorldState) (o : Evaluation Object)
        → Answers done evaluated s o → Answers done result s (seen wanted o) }
    ensures proper { IfOk result IsProperValue }
{
    match evaluated {
        Ok(Evaluated { value, wrote }) => Ok(Evaluated {
            value: stand_in(value, wanted),
            wrote,
        }),
        Err(error) => Err(error),
    }
}
