//! Evaluation (standard 3.1.2.1): the value of a form.
ghost use Rattle.std.specs.Prelude.{◌≡◌, ◌<◌, ◌≤◌, true, length, drop, IfOk};
ghost use Rattle.lisp_object.specs.Object.{list_of};
ghost use Rattle.lisp_object.specs.Datum.{object_of};
ghost use Rattle.evaluator.specs.Value.{values_at_place, values_before_place};
ghost use Rattle.lisp_operators.specs.Readtables.{AreFunctionNames};
ghost use Rattle.lisp_operators.specs.EvaluationAnswers.{IsArgument, KeepsArguments, Answers, done, IsProperValue, AreArgumentsOf, objects};
ghost use Rattle.evaluator.specs.ArgumentValues.{all_done, arguments_in, EvaluatesFor, Operates, values_after, subforms, gathered, sequence_value, list_of_values};
ghost use Rattle.evaluator.specs.Operations.{OperationTakesCount, is_ordinary};
ghost use Rattle.evaluator.specs.StandIns.{seen};

mod deciding;

use crate::computed::computed_of_list;
use crate::control::{after, atom, nothing, quoted};
use crate::direct::{get_directly, literal_assignment, quoted_property, set_directly};
use crate::operation::{Operation, operation_of};
use crate::values::Values;
use crate::wanted::{EvaluationTask, ValueUse, seen, wanted_for};
use deciding::{chosen, decided};
use lisp_object::refusal::{ARGUMENT_KIND, NOT_A_FORM};
use lisp_object::{Datum, Items};
use lisp_operators::EvaluationError::Refused;
use lisp_operators::{Evaluated, EvaluationError, ListBuilder, either, kinds, packages};
use plist_state::World;
use readtable_core::FnName;
use std::alloc::Global;

/// The value of a form, or what stands for it where less is asked. After an error the world may have changed, but for
/// its marks: who calls it goes back to one.
#[cycle(evaluation)]
pub(crate) fn evaluate_for(
    alloc: Global,
    world: &mut World,
    names: &[FnName],
    form: &Datum,
    wanted: ValueUse,
) -> Result<Evaluated, EvaluationError>
    requires names { AreFunctionNames names.now }
    requires form { IsArgument world.old.0.packages form.now }
    ensures gives { EvaluatesFor wanted names.now (object_of form.now) world.old.0 world.new.0 result }
    ensures value { IfOk result (λ e. IsArgument world.new.0.packages e.value) }
    ensures kept { IfOk result (λ _. KeepsArguments world.old.0.packages world.new.0.packages) }
    ensures marked { world.new.1 ≡ world.old.1 }
{
    world.soundness();
    match any_form(alloc, world, names, form, wanted) {
        Ok(evaluated) => Ok(evaluated),
        Err(error) => Err(error),
    }
}

// The value of a form, by what it is.
#[cycle(evaluation)]
fn any_form(
    alloc: Global,
    world: &mut World,
    names: &[FnName],
    form: &Datum,
    wanted: ValueUse,
) -> Result<Evaluated, EvaluationError>
    requires names { AreFunctionNames names.now }
    requires form { IsArgument world.old.0.packages form.now }
    ensures gives { EvaluatesFor wanted names.now (object_of form.now) world.old.0 world.new.0 result }
    ensures proper { IfOk result IsProperValue }
    ensures marked { world.new.1 ≡ world.old.1 }
{
    match form {
        Datum::List { items, tail } => {
            if tail.is_some() {
                return Err(Refused(NOT_A_FORM));
            }
            list_form(alloc, world, names, items, wanted)
        }
        _ => seen(atom(alloc, world, form), wanted),
    }
}

// The value of a list, by what is at its head.
#[cycle(evaluation)]
fn list_form(
    alloc: Global,
    world: &mut World,
    names: &[FnName],
    items: &Items<Datum>,
    wanted: ValueUse,
) -> Result<Evaluated, EvaluationError>
    requires some { 0 < length items.now }
    requires names { AreFunctionNames names.now }
    requires items { AreArgumentsOf world.old items.now }
    ensures gives { EvaluatesFor wanted names.now (list_of (objects items.now))
        world.old.0 world.new.0 result }
    ensures proper { IfOk result IsProperValue }
    ensures marked { world.new.1 ≡ world.old.1 }
{
    let items = items.as_slice();
    match operation_of(&items[0], items.len() - 1) {
        Ok(operation) => act(
            alloc,
            world,
            names,
            EvaluationTask { operation, wanted },
            items,
        ),
        Err(error) => Err(error),
    }
}

// What an operator gives, of a form with a right number of arguments.
#[cycle(evaluation)]
fn act(
    alloc: Global,
    world: &mut World,
    names: &[FnName],
    task: EvaluationTask,
    items: &[Datum],
) -> Result<Evaluated, EvaluationError>
    requires counted { OperationTakesCount task.operation (length items.now) }
    requires names { AreFunctionNames names.now }
    requires items { AreArgumentsOf world.old items.now }
    ensures gives { Operates names.now task items.now world.old.0 world.new.0 result }
    ensures proper { IfOk result IsProperValue }
    ensures marked { world.new.1 ≡ world.old.1 }
{
    match task.operation {
        Operation::Quote => seen(quoted(alloc, items), task.wanted),
        Operation::Progn => sequence(alloc, world, names, items, task.wanted),
        Operation::If => chosen(alloc, world, names, items, task.wanted),
        Operation::InPackage => seen(packages::enter(alloc, world, &items[1]), task.wanted),
        Operation::Get => match quoted_property(items) {
            Some(property) => get_directly(alloc, world, property, task.wanted),
            None => ordinary(alloc, world, names, task, items),
        },
        Operation::Setf => match literal_assignment(items) {
            Some(assignment) => set_directly(alloc, world, assignment, task.wanted),
            None => ordinary(alloc, world, names, task, items),
        },
        Operation::MakeList => seen(listed(alloc, world, names, items), task.wanted),
        Operation::Computes(function) => match function.most() {
            Some(_) => ordinary(alloc, world, names, task, items),
            None => seen(
                computed_of_list(alloc, function, listed(alloc, world, names, items)),
                task.wanted,
            ),
        },
        Operation::Decides(decision) => decided(alloc, world, names, decision, items, task.wanted),
        _ => ordinary(alloc, world, names, task, items),
    }
}

// What an operator gives that is a function of the values of its arguments.
#[cycle(evaluation)]
fn ordinary(
    alloc: Global,
    world: &mut World,
    names: &[FnName],
    task: EvaluationTask,
    items: &[Datum],
) -> Result<Evaluated, EvaluationError>
    requires ordinary { is_ordinary task.operation ≡ true }
    requires counted { OperationTakesCount task.operation (length items.now) }
    requires names { AreFunctionNames names.now }
    requires items { AreArgumentsOf world.old items.now }
    ensures gives { Operates names.now task items.now world.old.0 world.new.0 result }
    ensures proper { IfOk result IsProperValue }
    ensures marked { world.new.1 ≡ world.old.1 }
{
    let place = match crate::place::check_place(task.operation, items) {
        Ok(place) => place,
        Err(error) => return Err(error),
    };
    match gathered(alloc, world, names, task.operation, items) {
        Ok(values) => crate::perform::perform(alloc, world, names, task, place, values),
        Err(error) => Err(error),
    }
}

// The values of the arguments of such an operator, in the order in which it takes them.
#[cycle(evaluation)]
fn gathered(
    alloc: Global,
    world: &mut World,
    names: &[FnName],
    operation: Operation,
    items: &[Datum],
) -> Result<Values, EvaluationError>
    requires counted { OperationTakesCount operation (length items.now) }
    requires names { AreFunctionNames names.now }
    requires items { AreArgumentsOf world.old items.now }
    ensures gives { Answers all_done result world.new.0
        (gathered names.now world.old.0 operation (arguments_in items.now)) }
    ensures values { IfOk result (λ v. AreArgumentsOf world.new v.values.items) }
    ensures marked { world.new.1 ≡ world.old.1 }
{
    match operation {
        Operation::Setf => at_place(alloc, world, names, items),
        Operation::Incf => at_place(alloc, world, names, items),
        Operation::Changes(_) => at_place(alloc, world, names, items),
        Operation::Push => before_place(alloc, world, names, items),
        _ => extended(alloc, world, names, Values::none(alloc), items, 1),
    }
}

// The values of the subforms of a place, and of the forms after it.
#[cycle(evaluation)]
fn at_place(
    alloc: Global,
    world: &mut World,
    names: &[FnName],
    items: &[Datum],
) -> Result<Values, EvaluationError>
    requires counted { 2 ≤ length items.now }
    requires names { AreFunctionNames names.now }
    requires items { AreArgumentsOf world.old items.now }
    ensures gives { Answers all_done result world.new.0
        (values_at_place names.now world.old.0 (arguments_in items.now)) }
    ensures values { IfOk result (λ v. AreArgumentsOf world.new v.values.items) }
    ensures marked { world.new.1 ≡ world.old.1 }
{
    let values = Values::none(alloc);
    match subforms(alloc, world, names, values, &items[1]) {
        Ok(values) => extended(alloc, world, names, values, items, 2),
        Err(error) => Err(error),
    }
}

// The value of a form, and then those of the subforms of the place after it.
#[cycle(evaluation)]
fn before_place(
    alloc: Global,
    world: &mut World,
    names: &[FnName],
    items: &[Datum],
) -> Result<Values, EvaluationError>
    requires counted { 3 ≤ length items.now }
    requires names { AreFunctionNames names.now }
    requires items { AreArgumentsOf world.old items.now }
    ensures gives { Answers all_done result world.new.0
        (values_before_place names.now world.old.0 (arguments_in items.now)) }
    ensures values { IfOk result (λ v. AreArgumentsOf world.new v.values.items) }
    ensures marked { world.new.1 ≡ world.old.1 }
{
    if !kinds::is_pair(&items[2]) {
        return Err(Refused(ARGUMENT_KIND));
    }
    let first = match evaluate_for(alloc, world, names, &items[1], ValueUse::Value) {
        Ok(evaluated) => Values::one(alloc, evaluated)?,
        Err(error) => return Err(error),
    };
    subforms(alloc, world, names, first, &items[2])
}

// These values, and after them those of the subforms of a place. A symbol has none.
#[cycle(evaluation)]
fn subforms(
    alloc: Global,
    world: &mut World,
    names: &[FnName],
    values: Values,
    place: &Datum,
) -> Result<Values, EvaluationError>
    requires names { AreFunctionNames names.now }
    requires values { AreArgumentsOf world.old values.values.items }
    requires place { IsArgument world.old.0.packages place.now }
    ensures gives { Answers all_done result world.new.0
        (subforms names.now (objects values.values.items) values.wrote world.old.0 (object_of place.now)) }
    ensures values { IfOk result (λ v. AreArgumentsOf world.new v.values.items) }
    ensures kept { IfOk result (λ _. KeepsArguments world.old.0.packages world.new.0.packages) }
    ensures marked { world.new.1 ≡ world.old.1 }
{
    match place {
        Datum::List { items, .. } => extended(alloc, world, names, values, items.as_slice(), 1),
        Datum::Symbol { .. } => Ok(values),
        Datum::Integer(_) => Err(Refused(ARGUMENT_KIND)),
        Datum::Rational(_) => Err(Refused(ARGUMENT_KIND)),
        Datum::Char(_) => Err(Refused(ARGUMENT_KIND)),
        Datum::Text(_) => Err(Refused(ARGUMENT_KIND)),
        Datum::Uninterned(_) => Err(Refused(ARGUMENT_KIND)),
        Datum::Vector(_) => Err(Refused(ARGUMENT_KIND)),
    }
}

// These values, and after them those of the forms from an index in a list on.
#[cycle(evaluation)]
fn extended(
    alloc: Global,
    world: &mut World,
    names: &[FnName],
    values: Values,
    forms: &[Datum],
    from: usize,
) -> Result<Values, EvaluationError>
    requires from { from ≤ length forms.now }
    requires names { AreFunctionNames names.now }
    requires values { AreArgumentsOf world.old values.values.items }
    requires forms { AreArgumentsOf world.old forms.now }
    ensures gives { Answers all_done result world.new.0
        (values_after names.now (objects values.values.items) values.wrote
        world.old.0 (list_of (objects (drop from forms.now)))) }
    ensures values { IfOk result (λ v. AreArgumentsOf world.new v.values.items) }
    ensures kept { IfOk result (λ _. KeepsArguments world.old.0.packages world.new.0.packages) }
    ensures marked { world.new.1 ≡ world.old.1 }
{
    let mut values = values;
    for i in from..forms.len() {
        let evaluated = match evaluate_for(alloc, world, names, &forms[i], ValueUse::Value) {
            Ok(evaluated) => evaluated,
            Err(error) => return Err(error),
        };
        values = values.with(evaluated)?;
    }
    Ok(values)
}

// LIST: the list of the values of these forms (standard 14.2, `list`). Of values that are too large together none is held.
#[cycle(evaluation)]
fn listed(
    alloc: Global,
    world: &mut World,
    names: &[FnName],
    items: &[Datum],
) -> Result<Evaluated, EvaluationError>
    requires counted { 1 ≤ length items.now }
    requires names { AreFunctionNames names.now }
    requires items { AreArgumentsOf world.old items.now }
    ensures gives { Answers done result world.new.0
        (list_of_values names.now world.old.0 (arguments_in items.now)) }
    ensures proper { IfOk result IsProperValue }
    ensures marked { world.new.1 ≡ world.old.1 }
{
    let mut values = ListBuilder::new(alloc);
    let mut wrote = false;
    for i in 1..items.len() {
        let wanted = wanted_for(&values);
        let evaluated = match evaluate_for(alloc, world, names, &items[i], wanted) {
            Ok(evaluated) => evaluated,
            Err(error) => return Err(error),
        };
        wrote = either(wrote, evaluated.wrote);
        values = values.with(evaluated.value)?;
    }
    after(wrote, values.list(alloc))
}

// PROGN: the last of the values of these forms (standard 5.3, `progn`). The values before it are not made. After an
// error the world may have changed, but for its marks.
#[cycle(evaluation)]
pub(crate) fn sequence(
    alloc: Global,
    world: &mut World,
    names: &[FnName],
    items: &[Datum],
    wanted: ValueUse,
) -> Result<Evaluated, EvaluationError>
    requires counted { 1 ≤ length items.now }
    requires names { AreFunctionNames names.now }
    requires items { AreArgumentsOf world.old items.now }
    ensures gives { Answers done result world.new.0
        (seen wanted (sequence_value names.now world.old.0 (arguments_in items.now))) }
    ensures proper { IfOk result IsProperValue }
    ensures marked { world.new.1 ≡ world.old.1 }
{
    let last = items.len() - 1;
    if last == 0 {
        return seen(nothing(alloc), wanted);
    }
    let mut wrote = false;
    for i in 1..last {
        match evaluate_for(alloc, world, names, &items[i], ValueUse::Nothing) {
            Ok(evaluated) => wrote = either(wrote, evaluated.wrote),
            Err(error) => return Err(error),
        }
    }
    after(
        wrote,
        evaluate_for(alloc, world, names, &items[last], wanted),
    )
}
