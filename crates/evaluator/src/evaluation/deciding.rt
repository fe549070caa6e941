//! The operators that decide which of their forms are evaluated (standard 5.3), and ASSERT.
ghost use Rattle.std.specs.Prelude.{◌≡◌, ◌≤◌, if◌then◌else◌, IfOk, length, drop};
ghost use Rattle.lisp_object.specs.Object.{Object, nil};
ghost use Rattle.lisp_object.specs.Datum.{object_of};
ghost use Rattle.plist_state.specs.State.{WorldState};
ghost use Rattle.lisp_operators.specs.Properties.{t};
ghost use Rattle.lisp_operators.specs.Readtables.{AreFunctionNames};
ghost use Rattle.lisp_operators.specs.EvaluationAnswers.{Answers, done, IsProper, IsProperValue, AreArgumentsOf};
ghost use Rattle.lisp_operators.specs.Evaluation.{Evaluation};
ghost use Rattle.evaluator.specs.Value.{choice, sought, guarded, has_truth};
ghost use Rattle.evaluator.specs.ArgumentValues.{first_value, conditional, asserted, arguments_in, operation_value, HasValue};
ghost use Rattle.evaluator.specs.Operations.{OperationTakesCount};
ghost use Rattle.evaluator.specs.StandIns.{seen};
ghost use Rattle.evaluator.specs.declared.operation.Operation.TheVariants.{Decides};
ghost use Rattle.evaluator.specs.declared.wanted.ValueUse.TheVariants.{Truth};

use crate::clauses::{are_clauses, clause};
use crate::control::{after, nothing};
use crate::decision::Decision;
use crate::evaluation::{evaluate_for, sequence};
use crate::wanted::{ValueUse, seen, wanted_of_test};
use lisp_object::Datum;
use lisp_object::refusal::{ARGUMENT_KIND, ASSERTION_FAILED};
use lisp_operators::EvaluationError::Refused;
use lisp_operators::{Evaluated, EvaluationError, either, kinds, values};
use plist_state::World;
use readtable_core::FnName;
use std::alloc::Global;

/// What an operator that decides gives, of a form with a right number of arguments. After an error the world may have
/// changed, but for its marks.
#[cycle(evaluation)]
pub(crate) fn decided(
    alloc: Global,
    world: &mut World,
    names: &[FnName],
    decision: Decision,
    items: &[Datum],
    wanted: ValueUse,
) -> Result<Evaluated, EvaluationError>
    requires counted { OperationTakesCount (Decides decision) (length items.now) }
    requires names { AreFunctionNames names.now }
    requires items { AreArgumentsOf world.old items.now }
    ensures gives { Answers done result world.new.0
        (seen wanted (operation_value names.now (Decides decision) (arguments_in items.now) world.old.0)) }
    ensures proper { IfOk result IsProperValue }
    ensures marked { world.new.1 ≡ world.old.1 }
{
    match decision {
        Decision::And => sought(alloc, world, names, items, wanted, false),
        Decision::Or => sought(alloc, world, names, items, wanted, true),
        Decision::Cond => selected(alloc, world, names, items, wanted),
        Decision::When => guarded(alloc, world, names, items, wanted, true),
        Decision::Unless => guarded(alloc, world, names, items, wanted, false),
        Decision::Prog1 => first_kept(alloc, world, names, items, wanted),
        Decision::Assert => {
            let test = evaluate_for(alloc, world, names, &items[1], ValueUse::Truth);
            seen(asserted(alloc, test), wanted)
        }
    }
}

/// IF: the second or the third, as the first is true or false (standard 5.3, `if`). After an error the world may have
/// changed, but for its marks.
#[cycle(evaluation)]
pub(crate) fn chosen(
    alloc: Global,
    world: &mut World,
    names: &[FnName],
    items: &[Datum],
    wanted: ValueUse,
) -> Result<Evaluated, EvaluationError>
    requires counted { 3 ≤ length items.now }
    requires names { AreFunctionNames names.now }
    requires items { AreArgumentsOf world.old items.now }
    ensures gives { Answers done result world.new.0
        (seen wanted (choice names.now world.old.0 (arguments_in items.now))) }
    ensures proper { IfOk result IsProperValue }
    ensures marked { world.new.1 ≡ world.old.1 }
{
    let test = match evaluate_for(alloc, world, names, &items[1], ValueUse::Truth) {
        Ok(test) => test,
        Err(error) => return Err(error),
    };
    if kinds::is_true(&test.value) {
        return after(
            test.wrote,
            evaluate_for(alloc, world, names, &items[2], wanted),
        );
    }
    if items.len() == 3 {
        return after(test.wrote, seen(nothing(alloc), wanted));
    }
    after(
        test.wrote,
        evaluate_for(alloc, world, names, &items[3], wanted),
    )
}

// AND and OR: the first value whose truth is this, else that of the last form.
#[cycle(evaluation)]
fn sought(
    alloc: Global,
    world: &mut World,
    names: &[FnName],
    items: &[Datum],
    wanted: ValueUse,
    truth: bool,
) -> Result<Evaluated, EvaluationError>
    requires counted { 1 ≤ length items.now }
    requires names { AreFunctionNames names.now }
    requires items { AreArgumentsOf world.old items.now }
    ensures gives { Answers done result world.new.0
        (seen wanted (sought names.now truth world.old.0 (arguments_in items.now))) }
    ensures proper { IfOk result IsProperValue }
    ensures marked { world.new.1 ≡ world.old.1 }
{
    let last = items.len() - 1;
    if last == 0 {
        return seen(none_sought(alloc, truth), wanted);
    }
    let asked = wanted_of_test(truth);
    let mut wrote = false;
    for i in 1..last {
        let test = match evaluate_for(alloc, world, names, &items[i], asked) {
            Ok(test) => test,
            Err(error) => return Err(error),
        };
        if has_truth(&test.value, truth) {
            return after(wrote, seen(Ok(test), wanted));
        }
        wrote = either(wrote, test.wrote);
    }
    after(
        wrote,
        evaluate_for(alloc, world, names, &items[last], wanted),
    )
}

// COND: the forms of the first clause whose test is true, or the value of this test where it has none.
#[cycle(evaluation)]
fn selected(
    alloc: Global,
    world: &mut World,
    names: &[FnName],
    items: &[Datum],
    wanted: ValueUse,
) -> Result<Evaluated, EvaluationError>
    requires counted { 1 ≤ length items.now }
    requires names { AreFunctionNames names.now }
    requires items { AreArgumentsOf world.old items.now }
    ensures gives { Answers done result world.new.0
        (seen wanted (conditional names.now world.old.0 (arguments_in items.now))) }
    ensures proper { IfOk result IsProperValue }
    ensures marked { world.new.1 ≡ world.old.1 }
{
    if !are_clauses(items) {
        return Err(Refused(ARGUMENT_KIND));
    }
    let mut wrote = false;
    for i in 1..items.len() {
        let Some(clause) = clause(&items[i]) else {
            unreachable!();
        };
        let asked = wanted_of_test(clause.len() == 1);
        let test = match evaluate_for(alloc, world, names, &clause[0], asked) {
            Ok(test) => test,
            Err(error) => return Err(error),
        };
        if kinds::is_true(&test.value) {
            if clause.len() == 1 {
                return after(wrote, seen(Ok(test), wanted));
            }
            let wrote = either(wrote, test.wrote);
            return after(wrote, sequence(alloc, world, names, clause, wanted));
        }
        wrote = either(wrote, test.wrote);
    }
    after(wrote, seen(nothing(alloc), wanted))
}

// WHEN and UNLESS: the forms after the first, where its truth is this.
#[cycle(evaluation)]
fn guarded(
    alloc: Global,
    world: &mut World,
    names: &[FnName],
    items: &[Datum],
    wanted: ValueUse,
    truth: bool,
) -> Result<Evaluated, EvaluationError>
    requires counted { 2 ≤ length items.now }
    requires names { AreFunctionNames names.now }
    requires items { AreArgumentsOf world.old items.now }
    ensures gives { Answers done result world.new.0
        (seen wanted (guarded names.now truth world.old.0 (arguments_in items.now))) }
    ensures proper { IfOk result IsProperValue }
    ensures marked { world.new.1 ≡ world.old.1 }
{
    let guard = match evaluate_for(alloc, world, names, &items[1], ValueUse::Truth) {
        Ok(guard) => guard,
        Err(error) => return Err(error),
    };
    if !has_truth(&guard.value, truth) {
        return after(guard.wrote, seen(nothing(alloc), wanted));
    }
    after(
        guard.wrote,
        sequence(alloc, world, names, arguments(items), wanted),
    )
}

// PROG1: the first of the values of these forms, all of which are evaluated.
#[cycle(evaluation)]
fn first_kept(
    alloc: Global,
    world: &mut World,
    names: &[FnName],
    items: &[Datum],
    wanted: ValueUse,
) -> Result<Evaluated, EvaluationError>
    requires counted { 2 ≤ length items.now }
    requires names { AreFunctionNames names.now }
    requires items { AreArgumentsOf world.old items.now }
    ensures gives { Answers done result world.new.0
        (seen wanted (first_value names.now world.old.0 (arguments_in items.now))) }
    ensures proper { IfOk result IsProperValue }
    ensures marked { world.new.1 ≡ world.old.1 }
{
    let first = match evaluate_for(alloc, world, names, &items[1], wanted) {
        Ok(first) => first,
        Err(error) => return Err(error),
    };
    match sequence(alloc, world, names, arguments(items), ValueUse::Nothing) {
        Ok(others) => Ok(Evaluated {
            value: first.value,
            wrote: either(first.wrote, others.wrote),
        }),
        Err(error) => Err(error),
    }
}

// Whether it is true, or whether it is not, as it is asked.
fn has_truth(value: &Datum, truth: bool) -> bool
    requires { IsProper value.now }
    ensures { result ≡ has_truth truth (object_of value.now) }
{
    if truth {
        return kinds::is_true(value);
    }
    !kinds::is_true(value)
}

// AND and OR of no form: T, and NIL.
fn none_sought(alloc: Global, truth: bool) -> Result<Evaluated, EvaluationError>
    ensures gives { HasValue (if truth then nil else t) result }
    ensures proper { IfOk result IsProperValue }
{
    if truth {
        return nothing(alloc);
    }
    Ok(Evaluated {
        value: values::truth(alloc)?,
        wrote: false,
    })
}

// ASSERT, where this stands for what its test gave.
fn asserted(
    alloc: Global,
    test: Result<Evaluated, EvaluationError>,
) -> Result<Evaluated, EvaluationError>
    requires { IfOk test IsProperValue }
    ensures gives { (s : WorldState) (o : Evaluation Object)
        → Answers done test s (seen Truth o) → Answers done result s (asserted o) }
    ensures proper { IfOk result IsProperValue }
{
    match test {
        Ok(test) => {
            if !kinds::is_true(&test.value) {
                return Err(Refused(ASSERTION_FAILED));
            }
            after(test.wrote, nothing(alloc))
        }
        Err(error) => Err(error),
    }
}

// What comes after the operator of a form.
fn arguments(items: &[Datum]) -> &[Datum]
    requires { 1 ≤ length items.now }
    ensures { result.now ≡ drop 1 items.now }
{
    &items[1..]
}
