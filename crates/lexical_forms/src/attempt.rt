//! A form in the language with functions.
ghost use Rattle.std.specs.Prelude.{◌≡◌, ◌∷◌, ◌++◌, ◌||◌, [], IfOk, IfErr};
ghost use Rattle.lisp_object.specs.Datum.{object_of};
ghost use Rattle.lisp_operators.specs.EvaluationAnswers.{Answers, done, IsArgument};
ghost use Rattle.lisp_operators.specs.Readtables.{AreFunctionNames};
ghost use Rattle.form_eval.specs.Laws.{MayEvaluate};
ghost use Rattle.lexical_forms.specs.WithFunctions.{accept_lexically, question_lexically};

use form_eval::{ReadForm, intern_symbols};
use lexical_evaluation::evaluate;
use lisp_operators::{Evaluated, EvaluationError};
use plist_state::World;
use readtable_core::FnName;
use std::alloc::Global;

/// A form is marked, and carried out in the language with functions, or taken back where it is refused or memory runs out. Gives
/// whether a symbol of it is new, and what it was evaluated to.
pub(crate) fn attempt(
    alloc: Global,
    world: &mut World,
    names: &[FnName],
    form: ReadForm,
) -> Result<(bool, Evaluated), EvaluationError>
    requires names { AreFunctionNames names.now }
    requires form { MayEvaluate world.old.0.packages form }
    ensures accepted { Answers (λ p s. let d = done p.1 s in record d { wrote = (p.0 || d.wrote) })
        result world.new.0 (accept_lexically names.now world.old.0 (object_of form.datum)) }
    ensures asked { Answers (λ p. done p.1) result world.new.0
        (question_lexically names.now world.old.0 (object_of form.datum)) }
    ensures value { IfOk result (λ p. IsArgument world.new.0.packages p.1.value) }
    ensures marked { IfOk result (λ _. world.new.1 ≡ world.old.1 ++ world.old.0 ∷ []) }
    ensures unchanged { IfErr result (λ _. world.new ≡ world.old) }
{
    let mark = world.mark()?;
    match run(alloc, world, names, form) {
        Ok(outcome) => Ok(outcome),
        Err(error) => {
            world.back_to(mark);
            Err(error)
        }
    }
}

// Interns the symbols of a form, and evaluates it. Where it is refused, or memory runs out, the world is as that left it.
fn run(
    alloc: Global,
    world: &mut World,
    names: &[FnName],
    form: ReadForm,
) -> Result<(bool, Evaluated), EvaluationError>
    requires names { AreFunctionNames names.now }
    requires form { MayEvaluate world.old.0.packages form }
    ensures accepted { Answers (λ p s. let d = done p.1 s in record d { wrote = (p.0 || d.wrote) })
        result world.new.0 (accept_lexically names.now world.old.0 (object_of form.datum)) }
    ensures asked { Answers (λ p. done p.1) result world.new.0
        (question_lexically names.now world.old.0 (object_of form.datum)) }
    ensures value { IfOk result (λ p. IsArgument world.new.0.packages p.1.value) }
    ensures marked { world.new.1 ≡ world.old.1 }
{
    world.soundness();
    let interned = match intern_symbols(alloc, world, &form) {
        Ok(interned) => interned,
        Err(error) => return Err(EvaluationError::from(error)),
    };
    match evaluate(alloc, world, names, form.datum) {
        Ok(evaluated) => Ok((interned, evaluated)),
        Err(error) => Err(error),
    }
}
