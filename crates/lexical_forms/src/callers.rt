//! Callers of the laws, for tests: each calls one as a user would, and its contract says what came of it.
ghost use Rattle.std.specs.Prelude.{ℕ, ◌≡◌, ◌≤◌, [], false, IfErr, IfOk, Ok, Err, codes};
ghost use Rattle.lisp_object.specs.Datum.{object_of};
ghost use Rattle.plist_state.specs.State.{WorldState};
ghost use Rattle.user_macros.specs.Functions.{Functions};
ghost use Rattle.lisp_operators.specs.EvaluationAnswers.{IsArgument, done};
ghost use Rattle.lisp_operators.specs.Readtables.{AreCovered, AreFunctionNames};
ghost use Rattle.evaluator.specs.FormsGivenBack.{asks_for_functions};
ghost use Rattle.kept_functions.specs.ReaderFunctions.{own_readers};
ghost use Rattle.kept_functions.specs.declared.bounds.TheConstants.{TOO_MANY_STEPS};
ghost use Rattle.form_eval.specs.Laws.{MayEvaluate};
ghost use Rattle.lexical_evaluation.specs.Calls.{lexical_value, value_with_functions};
ghost use Rattle.lexical_evaluation.specs.InForce.{functions_in_force};
ghost use Rattle.lexical_forms.specs.WithFunctions.{accept_with_functions};

use crate::laws::{
    accepted_readtables_are_covered, functions_change_no_form, refusals_are_of_evaluation,
    silent_forms_change_nothing,
};
use evaluator::evaluate;
use form_eval::{Evaluated, EvaluationError, ReadForm};
use lexical_evaluation::laws::{
    languages_agree, macro_functions_are_apart, old_forms_keep_their_outcomes,
    values_are_those_of_evaluation,
};
use lisp_object::Datum;
use plist_state::World;
use readtable_core::FnName;
use std::alloc::{AllocError, Global};
use std::test::Fail;
use user_macros::{Meaning, NoFunctions};

/// Accepts a form without functions: with them it is accepted too, and gives the same. One that is refused, but not for want of a
/// function, is refused with them under the same number.
fn accepted<M: Meaning>(
    alloc: Global,
    world: &mut World,
    macros: &M,
    form: &ReadForm,
) -> Result<Evaluated, EvaluationError>
    requires form { MayEvaluate world.old.0.packages form.now }
    ensures value { IfOk result (λ e.
        accept_with_functions M.functions.names world.old.0 (object_of form.now.datum)
        ≡ Ok (done e world.new.0)) }
    ensures refusal { IfErr result (λ error. (code : ℕ) → error ≡ EvaluationError.Refused code
        → asks_for_functions code ≡ false
        → accept_with_functions M.functions.names world.old.0 (object_of form.now.datum) ≡ Err code) }
{
    functions_change_no_form();
    match form_eval::accept(alloc, world, macros, form) {
        Ok(evaluated) => Ok(evaluated),
        Err(error) => Err(error),
    }
}

/// Accepts a form where functions of the world are known. One that does not write leaves the state as it was; it leaves readtables
/// whose functions are known, where those before were so; and it is refused under a number of evaluation.
fn accepted_with_functions<M: Meaning>(
    alloc: Global,
    world: &mut World,
    macros: &M,
    form: &ReadForm,
) -> Result<Evaluated, EvaluationError>
    requires form { MayEvaluate world.old.0.packages form.now }
    ensures silent { IfOk result (λ e. e.wrote ≡ false → world.new.0 ≡ world.old.0) }
    ensures covered { IfOk result (λ _. AreCovered M.functions.names world.old.0.readtables
        → AreCovered M.functions.names world.new.0.readtables) }
    ensures numbered { IfErr result (λ error. (code : ℕ) → error ≡ EvaluationError.Refused code
        → (30 ≤ code) × (code ≤ 49)) }
{
    silent_forms_change_nothing();
    accepted_readtables_are_covered();
    refusals_are_of_evaluation();
    match crate::accept(alloc, world, macros, form) {
        Ok(evaluated) => Ok(evaluated),
        Err(error) => Err(error),
    }
}

/// Evaluates a form in the language without functions: the one with functions gives the same.
fn evaluated(
    alloc: Global,
    world: &mut World,
    names: &[FnName],
    form: &Datum,
) -> Result<Evaluated, EvaluationError>
    requires names { AreFunctionNames names.now }
    requires form { IsArgument world.old.0.packages form.now }
    ensures value { IfOk result
        (λ e. value_with_functions names.now world.old.0 (object_of form.now) ≡ Ok (done e world.new.0)) }
    ensures refusal { IfErr result (λ error. (code : ℕ) → error ≡ EvaluationError.Refused code
        → asks_for_functions code ≡ false
        → value_with_functions names.now world.old.0 (object_of form.now) ≡ Err code) }
    ensures agrees { own_readers world.old.0 ≡ [] → IfOk result (λ e.
        (lexical_value names.now world.old.0 (object_of form.now) ≡ Err TOO_MANY_STEPS → ⊥)
        → lexical_value names.now world.old.0 (object_of form.now) ≡ Ok (done e world.new.0)) }
    ensures numbered { (code : ℕ)
        → lexical_value names.now world.old.0 (object_of form.now) ≡ Err code → code ≤ 49 }
{
    old_forms_keep_their_outcomes();
    languages_agree();
    values_are_those_of_evaluation();
    match evaluate(alloc, world, names, form) {
        Ok(evaluated) => Ok(evaluated),
        Err(error) => Err(error),
    }
}

/// What a name of the world means is the same for each program. For proofs: it does nothing.
fn money_is_apart()
    ensures { (one other : Functions) (s : WorldState)
        → (functions_in_force one s).way (codes "LISP-MONEY") ≡ (functions_in_force other s).way (codes "LISP-MONEY") }
{
    macro_functions_are_apart();
}

/// Whether the first world accepts a character as itself, in the one language and in the other one.
fn accepts_a_character(alloc: Global) -> Result<bool, AllocError> {
    let mut world = World::new(alloc)?;
    let form = ReadForm {
        datum: Datum::Char(b'A'),
        known: false,
    };
    let first = match accepted(alloc, &mut world, &NoFunctions, &form) {
        Ok(evaluated) => !evaluated.wrote && matches!(&evaluated.value, Datum::Char(b'A')),
        Err(_) => return Err(AllocError),
    };
    match accepted_with_functions(alloc, &mut world, &NoFunctions, &form) {
        Ok(evaluated) => Ok(
            first && !evaluated.wrote && matches!(&evaluated.value, Datum::Char(b'A')),
        ),
        Err(_) => Err(AllocError),
    }
}

#[test]
fn a_character_is_accepted(rt: HostRuntime) -> Result<(), Fail> {
    assert!(rt; accepts_a_character(rt.alloc())?);
    Ok(())
}

/// Whether the first world answers a character with itself.
fn evaluates_to_itself(alloc: Global) -> Result<bool, AllocError> {
    let mut world = World::new(alloc)?;
    match evaluated(alloc, &mut world, &[], &Datum::Char(b'A')) {
        Ok(evaluated) => Ok(!evaluated.wrote && matches!(&evaluated.value, Datum::Char(b'A'))),
        Err(_) => Err(AllocError),
    }
}

#[test]
fn a_character_is_evaluated(rt: HostRuntime) -> Result<(), Fail> {
    money_is_apart();
    assert!(rt; evaluates_to_itself(rt.alloc())?);
    Ok(())
}
