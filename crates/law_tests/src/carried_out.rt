//! A form that is carried out in a world or evaluated there, and what the laws say of what it leaves and of its number.
ghost use Rattle.std.specs.Prelude.{◌≡◌, ◌≤◌, Bool, IfErr, IfOk, Ok, false, true, ℕ};
ghost use Rattle.evaluator.specs.EarlierOperators.{operators_before_deciding};
ghost use Rattle.form_eval.specs.Acceptance.{accept_by, accept_over, question_value};
ghost use Rattle.form_eval.specs.Laws.{IsSoundAfter, MayEvaluate};
ghost use Rattle.lisp_object.specs.Datum.{object_of};
ghost use Rattle.lisp_object.specs.Object.{Object};
ghost use Rattle.lisp_operators.specs.EvaluationAnswers.{IsArgument, done};
ghost use Rattle.lisp_operators.specs.Evaluation.{Done, also};
ghost use Rattle.lisp_operators.specs.Readtables.{AreCovered, AreFunctionNames};
ghost use Rattle.package_table.specs.Growth.{Grows};
ghost use Rattle.plist_state.specs.Sound.{IsSoundWorldState};

use evaluator::evaluate;
use evaluator::laws::{
    silent_values_change_nothing, values_are_refused_by_evaluation,
    values_leave_covered_readtables, values_leave_sound_states,
};
use form_eval::laws::{
    accepted_readtables_are_covered, accepted_states_are_sound, more_operators_change_no_form,
    questions_are_answered_as_forms, refusals_are_of_evaluation, silent_forms_change_nothing,
    without_a_base,
};
use form_eval::{Evaluated, EvaluationError, ReadForm, accept};
use lisp_object::Datum;
use plist_state::World;
use readtable_core::FnName;
use std::alloc::{AllocError, Global};
use std::test::Fail;
use user_macros::{Meaning, NoFunctions};

/// Carries a form out in a world.
///
/// - `sound`, `covered`: the world that it leaves is sound, and names no other functions.
/// - `silent`: if it did not write, it leaves the world as it was.
/// - `baseless`, `earlier`: where it is accepted without `*READ-BASE*` or without the operators that decide, it has the same value.
/// - `question_value`: its value is that of the question.
/// - `number`: its number is one of evaluation.
fn carried_out<M: Meaning>(
    alloc: Global,
    world: &mut World,
    macros: &M,
    form: &ReadForm,
) -> Result<Evaluated, EvaluationError>
    requires { MayEvaluate world.old.0.packages form.now }
    ensures sound { IfOk result (λ e. AreFunctionNames M.functions.names
        → IsSoundAfter world.old.0 (done e world.new.0)) }
    ensures covered { IfOk result (λ _. AreCovered M.functions.names world.old.0.readtables
        → AreCovered M.functions.names world.new.0.readtables) }
    ensures silent { IfOk result (λ e. e.wrote ≡ false → world.new.0 ≡ world.old.0) }
    ensures baseless { IfOk result (λ e. (d : Done Object)
        → accept_by false M.functions.names world.old.0 (object_of form.now.datum) ≡ Ok d → done e world.new.0 ≡ d) }

    // By the operators of an earlier program, and as a question.
    ensures earlier { IfOk result (λ e. (d : Done Object)
        → accept_over true (operators_before_deciding M.functions.names) world.old.0 (object_of form.now.datum) ≡ Ok d
        → done e world.new.0 ≡ d) }
    ensures asked { IfOk result (λ e. (new : Bool)
        × (also new (question_value M.functions.names world.old.0 (object_of form.now.datum)) ≡ Ok (done e world.new.0))) }
    ensures number { IfErr result (λ error. (code : ℕ) → error ≡ EvaluationError.Refused code
        → (30 ≤ code) × (code ≤ 47)) }
{
    world.soundness();
    accepted_states_are_sound();
    accepted_readtables_are_covered();
    silent_forms_change_nothing();
    without_a_base();
    more_operators_change_no_form();
    questions_are_answered_as_forms();
    refusals_are_of_evaluation();
    match accept(alloc, world, macros, form) {
        Ok(evaluated) => Ok(evaluated),
        Err(error) => Err(error),
    }
}

/// Evaluates a form whose symbols are there: what it leaves, as where it is carried out.
fn evaluated(
    alloc: Global,
    world: &mut World,
    names: &[FnName],
    form: &Datum,
) -> Result<Evaluated, EvaluationError>
    requires names { AreFunctionNames names.now }
    requires form { IsArgument world.old.0.packages form.now }
    ensures sound { IfOk result (λ _. IsSoundWorldState world.new.0 × Grows world.old.0.packages world.new.0.packages) }
    ensures covered { IfOk result (λ _. AreCovered names.now world.old.0.readtables
        → AreCovered names.now world.new.0.readtables) }
    ensures silent { IfOk result (λ e. e.wrote ≡ false → world.new.0 ≡ world.old.0) }
    ensures number { IfErr result (λ error. (code : ℕ) → error ≡ EvaluationError.Refused code
        → (30 ≤ code) × (code ≤ 47)) }
{
    world.soundness();
    values_leave_sound_states();
    values_leave_covered_readtables();
    silent_values_change_nothing();
    values_are_refused_by_evaluation();
    match evaluate(alloc, world, names, form) {
        Ok(evaluated) => Ok(evaluated),
        Err(error) => Err(error),
    }
}

/// Whether the first world answers a character with itself, and writes nothing.
fn is_its_own_value(alloc: Global) -> Result<bool, AllocError> {
    let mut world = World::new(alloc)?;
    let form = ReadForm {
        datum: Datum::Char(b'A'),
        known: false,
    };
    match carried_out(alloc, &mut world, &NoFunctions, &form) {
        Ok(evaluated) => Ok(!evaluated.wrote && matches!(&evaluated.value, Datum::Char(b'A'))),
        Err(_) => Err(AllocError),
    }
}

/// The same where it is evaluated alone.
fn evaluates_to_itself(alloc: Global) -> Result<bool, AllocError> {
    let mut world = World::new(alloc)?;
    match evaluated(alloc, &mut world, &[], &Datum::Char(b'A')) {
        Ok(evaluated) => Ok(!evaluated.wrote && matches!(&evaluated.value, Datum::Char(b'A'))),
        Err(_) => Err(AllocError),
    }
}

#[test]
fn a_character_is_evaluated(rt: HostRuntime) -> Result<(), Fail> {
    assert!(rt; evaluates_to_itself(rt.alloc())?);
    Ok(())
}

#[test]
fn a_character_is_carried_out(rt: HostRuntime) -> Result<(), Fail> {
    assert!(rt; is_its_own_value(rt.alloc())?);
    Ok(())
}
