//! A form that is asked of a world, and what the laws of forms say of its answer where it decides or changes a place.
ghost use Rattle.std.specs.Prelude.{◌≡◌, ℤ, neg_ℤ, true};
ghost use Rattle.lisp_object.specs.Datum.{object_of};
ghost use Rattle.lisp_object.specs.Object.{Object, nil, integer, is_proper_list};
ghost use Rattle.package_table.specs.Symbols.{symbols};
ghost use Rattle.plist_state.specs.Properties.{Symbol};
ghost use Rattle.lisp_operators.specs.EvaluationAnswers.{Answers, done};
ghost use Rattle.evaluator.specs.FormObjects.{if_form, progn_form, when_form};
ghost use Rattle.form_eval.specs.Acceptance.{question_after_interning, with_symbols_interned};
ghost use Rattle.form_eval.specs.Laws.{MayEvaluate};
ghost use Rattle.form_eval.specs.PlaceForms.{get_form, setf_form, incf_form, decf_form, pop_form, car_form, cdr_form, prog1_form};

use form_eval::laws::{changes_of_places_are_those_of_setf, decisions_are_those_of_if};
use form_eval::{Evaluated, EvaluationError, ReadForm, question};
use lisp_object::Datum;
use plist_state::World;
use std::alloc::{AllocError, Global};
use std::test::Fail;
use user_macros::{Meaning, NoFunctions};

/// Asks a world a form. Once the symbols of the form are there, WHEN is answered as the IF which the standard gives for it, POP as CAR
/// and SETF, and DECF as INCF.
fn asked<M: Meaning>(
    alloc: Global,
    world: &mut World,
    macros: &M,
    form: &ReadForm,
) -> Result<Evaluated, EvaluationError>
    requires { MayEvaluate world.old.0.packages form.now }
    ensures when { (x forms : Object) → object_of form.now.datum ≡ when_form x forms → is_proper_list forms ≡ true
        → Answers done result world.new.0
        (question_after_interning M.functions.names world.old.0 (with_symbols_interned world.old.0.packages (symbols (object_of form.now.datum)))
        (if_form x (progn_form forms) nil)) }
    ensures pop { (x i : Symbol) → object_of form.now.datum ≡ pop_form (get_form x i)
        → Answers done result world.new.0
        (question_after_interning M.functions.names world.old.0 (with_symbols_interned world.old.0.packages (symbols (object_of form.now.datum)))
        (prog1_form (car_form (get_form x i)) (setf_form (get_form x i) (cdr_form (get_form x i))))) }
    ensures decf { (x i : Symbol) (n : ℤ) → object_of form.now.datum ≡ decf_form (get_form x i) (integer n)
        → Answers done result world.new.0
        (question_after_interning M.functions.names world.old.0 (with_symbols_interned world.old.0.packages (symbols (object_of form.now.datum)))
        (incf_form (get_form x i) (integer (neg_ℤ n)))) }
{
    decisions_are_those_of_if();
    changes_of_places_are_those_of_setf();
    question(alloc, world, macros, form)
}

/// The answer of the first world to a character.
fn answer_to_a_character(alloc: Global) -> Result<bool, AllocError> {
    let mut world = World::new(alloc)?;
    let form = ReadForm {
        datum: Datum::Char(b'A'),
        known: false,
    };
    match asked(alloc, &mut world, &NoFunctions, &form) {
        Ok(answer) => Ok(matches!(&answer.value, Datum::Char(b'A'))),
        Err(_) => Err(AllocError),
    }
}

#[test]
fn a_character_is_its_own_value(rt: HostRuntime) -> Result<(), Fail> {
    assert!(rt; answer_to_a_character(rt.alloc())?);
    Ok(())
}
