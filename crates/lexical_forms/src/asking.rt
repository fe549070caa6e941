//! A form as a question: it is evaluated as a transaction is, and tells whether its evaluation wrote.
ghost use Rattle.std.specs.Prelude.{◌≡◌, ◌∷◌, ◌++◌, [], IfOk, IfErr};
ghost use Rattle.lisp_object.specs.Datum.{object_of};
ghost use Rattle.lisp_operators.specs.EvaluationAnswers.{Answers, done, IsArgument};
ghost use Rattle.form_eval.specs.Laws.{MayEvaluate};
ghost use Rattle.lisp_operators.specs.Readtables.{AreFunctionNames};
ghost use Rattle.lexical_forms.specs.WithFunctions.{question_lexically, question_with_functions};

use crate::attempt::attempt;
use crate::wanting::wants_function;
use form_eval::{ReadForm, are_names};
use lisp_operators::{Evaluated, EvaluationError};
use plist_state::World;
use readtable_core::FnName;
use std::alloc::Global;
use user_macros::Meaning;

/// Evaluates a form as `accept` does, with its symbols in their homes. Gives its value, and whether its evaluation wrote: that a
/// symbol is new does not count. Asks for what `accept` asks for. The world keeps one mark more, of itself as it was before
/// the question; who goes back to it leaves nothing of the question.
///
/// # Errors
/// Those of `accept`. The world is then as it was, its marks too.
pub fn question<M: Meaning>(
    alloc: Global,
    world: &mut World,
    macros: &M,
    form: &ReadForm,
) -> Result<Evaluated, EvaluationError>
    requires form { MayEvaluate world.old.0.packages form.now }
    ensures gives { Answers done result world.new.0
        (question_with_functions M.functions.names world.old.0 (object_of form.now.datum)) }
    ensures value { IfOk result (λ e. IsArgument world.new.0.packages e.value) }
    ensures marked { IfOk result (λ _. world.new.1 ≡ world.old.1 ++ world.old.0 ∷ []) }
    ensures unchanged { IfErr result (λ _. world.new ≡ world.old) }
{
    match form_eval::question(alloc, world, macros, form) {
        Ok(evaluated) => Ok(evaluated),
        Err(error) => {
            if !wants_function(error) {
                return Err(error);
            }
            let names = macros.names();
            are_names(names);
            let datum = form.datum.copy(alloc)?;
            let known = form.known;
            ask_again(alloc, world, names, ReadForm { datum, known })
        }
    }
}

// A form as a question in the language with functions.
fn ask_again(
    alloc: Global,
    world: &mut World,
    names: &[FnName],
    form: ReadForm,
) -> Result<Evaluated, EvaluationError>
    requires names { AreFunctionNames names.now }
    requires form { MayEvaluate world.old.0.packages form }
    ensures gives { Answers done result world.new.0
        (question_lexically names.now world.old.0 (object_of form.datum)) }
    ensures value { IfOk result (λ e. IsArgument world.new.0.packages e.value) }
    ensures marked { IfOk result (λ _. world.new.1 ≡ world.old.1 ++ world.old.0 ∷ []) }
    ensures unchanged { IfErr result (λ _. world.new ≡ world.old) }
{
    match attempt(alloc, world, names, form) {
        Ok((_, evaluated)) => Ok(evaluated),
        Err(error) => Err(error),
    }
}
