//! What an operator makes of the values of its arguments, where less is asked of its value than the value itself: neither a
//! property, nor the value of SETF, nor a list to which PUSH adds is copied.
ghost use Rattle.std.specs.Prelude.{◌≡◌, IfOk, pos, if◌then◌else◌};
ghost use Rattle.lisp_object.specs.Object.{Object, integer, nil};
ghost use Rattle.lisp_object.specs.Datum.{object_of};
ghost use Rattle.plist_state.specs.State.{WorldState};
ghost use Rattle.lisp_operators.specs.Effects.{IsTruth, Leaves};
ghost use Rattle.lisp_operators.specs.EvaluationAnswers.{Answers, done, IsProper, IsProperValue, AreArgumentsOf, objects};
ghost use Rattle.lisp_operators.specs.Evaluation.{Evaluation};
ghost use Rattle.lisp_operators.specs.Readtables.{AreFunctionNames};
ghost use Rattle.evaluator.specs.Operations.{function_of_operation};
ghost use Rattle.evaluator.specs.StandIns.{seen};
ghost use Rattle.evaluator.specs.declared.wanted.ValueUse.TheVariants.{Truth, Nothing};

use crate::operation::Operation;
use crate::perform::carry_out;
use crate::place::PlaceForm;
use crate::wanted::{ValueUse, seen};
use lisp_object::Datum;
use lisp_operators::{Evaluated, EvaluationError, effects, values};
use plist_state::World;
use readtable_core::FnName;
use std::alloc::{AllocError, Global};

// What stands for a value that is true, and for one that is not.
fn truth_value(alloc: Global, is_true: bool) -> Result<Datum, AllocError>
    ensures object { IfOk result (λ d. object_of d ≡ (if is_true then integer (pos 1) else nil)) }
    ensures proper { IfOk result IsProper }
{
    if is_true {
        return Ok(Datum::Integer(1));
    }
    values::empty_list(alloc)
}

// What stands for a value of which it is known whether it is true.
fn shown(
    alloc: Global,
    is_true: Result<bool, EvaluationError>,
) -> Result<Evaluated, EvaluationError>
    ensures gives { (s : WorldState) (o : Evaluation Object)
        → IsTruth is_true s o → Answers done result s (seen Truth o) }
    ensures proper { IfOk result IsProperValue }
{
    match is_true {
        Ok(is_true) => Ok(Evaluated {
            value: truth_value(alloc, is_true)?,
            wrote: false,
        }),
        Err(error) => Err(error),
    }
}

// That nothing was written where it was asked whether a value is true.
fn read(is_true: Result<bool, EvaluationError>) -> Result<bool, EvaluationError>
    ensures { (s : WorldState) (o : Evaluation Object) → IsTruth is_true s o → Leaves result s o }
{
    match is_true {
        Ok(_) => Ok(false),
        Err(error) => Err(error),
    }
}

// What stands for a value of which it is known whether anything was written.
fn left(wrote: Result<bool, EvaluationError>) -> Result<Evaluated, EvaluationError>
    ensures gives { (s : WorldState) (o : Evaluation Object)
        → Leaves wrote s o → Answers done result s (seen Nothing o) }
    ensures proper { IfOk result IsProperValue }
{
    match wrote {
        Ok(wrote) => Ok(Evaluated {
            value: Datum::Integer(1),
            wrote,
        }),
        Err(error) => Err(error),
    }
}

/// What an operator gives of these values, where it is asked whether its value is true. After an error the world may
/// have changed, but for its marks: who calls it goes back to one.
pub(crate) fn truth(
    alloc: Global,
    world: &mut World,
    names: &[FnName],
    operation: Operation,
    place: PlaceForm,
    values: Vec<Datum>,
) -> Result<Evaluated, EvaluationError>
    requires names { AreFunctionNames names.now }
    requires values { AreArgumentsOf world.old values.items }
    ensures gives { Answers done result world.new.0
        (seen Truth (function_of_operation names.now operation place (objects values.items) world.old.0)) }
    ensures proper { IfOk result IsProperValue }
    ensures marked { world.new.1 ≡ world.old.1 }
{
    match operation {
        Operation::Get => shown(alloc, effects::get(world, values)),
        _ => seen(
            carry_out(alloc, world, names, operation, place, values),
            ValueUse::Truth,
        ),
    }
}

/// What an operator does with these values, where its value is not asked for. After an error the world may have
/// changed, but for its marks: who calls it goes back to one.
pub(crate) fn effect(
    alloc: Global,
    world: &mut World,
    names: &[FnName],
    operation: Operation,
    place: PlaceForm,
    values: Vec<Datum>,
) -> Result<Evaluated, EvaluationError>
    requires names { AreFunctionNames names.now }
    requires values { AreArgumentsOf world.old values.items }
    ensures gives { Answers done result world.new.0
        (seen Nothing (function_of_operation names.now operation place (objects values.items) world.old.0)) }
    ensures proper { IfOk result IsProperValue }
    ensures marked { world.new.1 ≡ world.old.1 }
{
    match (operation, place) {
        (Operation::Get, _) => left(read(effects::get(world, values))),
        (Operation::Setf, PlaceForm::Property) => left(effects::set(world, values)),
        (Operation::Push, _) => left(effects::push(alloc, world, values)),
        _ => seen(
            carry_out(alloc, world, names, operation, place, values),
            ValueUse::Nothing,
        ),
    }
}
