//! The calls of this crate: the value of a form, and what a form does.
ghost use Rattle.std.specs.Prelude.{◌≡◌, IfErr, IfOk, None, codes, length};
ghost use Rattle.lisp_object.specs.Object.{pair, symbol};
ghost use Rattle.lisp_object.specs.Datum.{object_of};
ghost use Rattle.package_table.specs.Table.{common_lisp};
ghost use Rattle.lisp_operators.specs.Effects.{Leaves};
ghost use Rattle.lisp_operators.specs.Readtables.{AreFunctionNames};
ghost use Rattle.lisp_operators.specs.EvaluationAnswers.{IsArgument, KeepsArguments};
ghost use Rattle.evaluator.specs.Value.{value};
ghost use Rattle.evaluator.specs.ArgumentValues.{arguments_in, Evaluates};
ghost use Rattle.evaluator.specs.FormsGivenBack.{GivesBack, without_form};

use crate::direct::{into_call, is_literal, set_moved};
use crate::evaluation::evaluate_for;
use crate::wanted::ValueUse;
use lisp_object::{Datum, Items};
use lisp_operators::{Evaluated, EvaluationError};
use plist_state::World;
use readtable_core::FnName;
use std::alloc::Global;

/// The value of a form. Where it is refused, or memory runs out, what was carried out before stays, and the marks are as they
/// were.
pub fn evaluate(
    alloc: Global,
    world: &mut World,
    names: &[FnName],
    form: &Datum,
) -> Result<Evaluated, EvaluationError>
    requires names { AreFunctionNames names.now }
    requires form { IsArgument world.old.0.packages form.now }
    ensures gives { Evaluates names.now (object_of form.now) world.old.0 world.new.0 result }
    ensures value { IfOk result (λ e. IsArgument world.new.0.packages e.value) }
    ensures kept { IfOk result (λ _. KeepsArguments world.old.0.packages world.new.0.packages) }
    ensures marked { world.new.1 ≡ world.old.1 }
{
    evaluate_for(alloc, world, names, form, ValueUse::Value)
}

/// What a form does, as `evaluate` does it, where its value is not asked for. Gives whether anything was written. Where it is
/// refused, or memory runs out, what was carried out before stays, and the marks are as they were. What the form is to store is
/// moved out of it where it is SETF of a property to a literal. A form that is refused for want of an operator or a macro function comes
/// back beside the refusal.
pub fn apply(
    alloc: Global,
    world: &mut World,
    names: &[FnName],
    form: Datum,
) -> Result<bool, (EvaluationError, Option<Datum>)>
    requires names { AreFunctionNames names.now }
    requires form { IsArgument world.old.0.packages form }
    ensures gives { Leaves (without_form result) world.new.0
        (value names.now world.old.0 (object_of form)) }
    ensures kept { IfErr result (GivesBack form) }
    ensures marked { world.new.1 ≡ world.old.1 }
{
    if is_literal(&form) {
        return Ok(false);
    }
    match into_call(form, b"SETF", 3) {
        Ok(items) => assign(alloc, world, names, items),
        Err(form) => carry_out(alloc, world, names, form),
    }
}

// What a list of these items does that is headed by SETF.
fn assign(
    alloc: Global,
    world: &mut World,
    names: &[FnName],
    items: Vec<Datum>,
) -> Result<bool, (EvaluationError, Option<Datum>)>
    requires names { AreFunctionNames names.now }
    requires counted { length items.items ≡ 3 }
    requires setf { object_of (Datum.List items.items None)
        ≡ pair (symbol common_lisp (codes "SETF")) (arguments_in items.items) }
    requires form { IsArgument world.old.0.packages (Datum.List items.items None) }
    ensures gives { Leaves (without_form result) world.new.0
        (value names.now world.old.0 (object_of (Datum.List items.items None))) }
    ensures kept { IfErr result (GivesBack (Datum.List items.items None)) }
    ensures marked { world.new.1 ≡ world.old.1 }
{
    let mut items = items;
    let value = items.remove(2);
    let set = match set_moved(world, &items[1], value) {
        Ok(set) => set,
        Err(value) => {
            return match items.push(value) {
                Ok(()) => {
                    let items = Items::from_vec(items);
                    carry_out(alloc, world, names, Datum::List { items, tail: None })
                }
                Err(_) => Err((EvaluationError::OutOfMemory, None)),
            };
        }
    };
    // of such a form memory alone can lack
    match set {
        Ok(wrote) => Ok(wrote),
        Err(error) => Err((error, None)),
    }
}

// What a form does. It is not taken apart.
fn carry_out(
    alloc: Global,
    world: &mut World,
    names: &[FnName],
    form: Datum,
) -> Result<bool, (EvaluationError, Option<Datum>)>
    requires names { AreFunctionNames names.now }
    requires form { IsArgument world.old.0.packages form }
    ensures gives { Leaves (without_form result) world.new.0
        (value names.now world.old.0 (object_of form)) }
    ensures kept { IfErr result (GivesBack form) }
    ensures marked { world.new.1 ≡ world.old.1 }
{
    match evaluate_for(alloc, world, names, &form, ValueUse::Nothing) {
        Ok(evaluated) => Ok(evaluated.wrote),
        Err(error) => Err((error, Some(form))),
    }
}
