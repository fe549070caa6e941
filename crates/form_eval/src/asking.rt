//! A form as a question: it is evaluated as a transaction is, and tells whether its evaluation wrote.
ghost use Rattle.std.specs.Prelude.{◌≡◌, ◌∷◌, ◌++◌, [], IfOk, IfErr};
ghost use Rattle.lisp_object.specs.Datum.{object_of};
ghost use Rattle.form_eval.specs.Acceptance.{AnswersQuestion};
ghost use Rattle.form_eval.specs.Laws.{MayEvaluate};
ghost use Rattle.lisp_operators.specs.EvaluationAnswers.{IsArgument};
ghost use Rattle.lisp_operators.specs.Readtables.{AreFunctionNames};

use crate::read_form::ReadForm;
use crate::transaction::{are_names, attempt};
use lisp_operators::{Evaluated, EvaluationError};
use plist_state::World;
use readtable_core::FnName;
use std::alloc::Global;
use user_macros::Meaning;

/// Evaluates a form as `accept` does, with its symbols in their homes. Gives its value, and whether its evaluation wrote: that a
/// symbol is new does not count. Asks for what `accept` asks for. The world keeps one mark more, of itself as it was before
/// the question; who goes back to it leaves nothing of the question.
///
/// # Errors
/// Those of `accept`. The world is then as it was, its marks too.
pub fn question<M: Meaning>(
    alloc: Global,
    world: &mut World,
    macros: &M,
    form: &ReadForm,
) -> Result<Evaluated, EvaluationError>
    requires form { MayEvaluate world.old.0.packages form.now }
    ensures gives { AnswersQuestion M.functions.names (object_of form.now.datum)
        world.old.0 world.new.0 result }
    ensures value { IfOk result (λ e. IsArgument world.new.0.packages e.value) }
    ensures marked { IfOk result (λ _. world.new.1 ≡ world.old.1 ++ world.old.0 ∷ []) }
    ensures unchanged { IfErr result (λ _. world.new ≡ world.old) }
{
    let names = macros.names();
    are_names(names);
    ask(alloc, world, names, form)
}

// A form as a question.
fn ask(
    alloc: Global,
    world: &mut World,
    names: &[FnName],
    form: &ReadForm,
) -> Result<Evaluated, EvaluationError>
    requires names { AreFunctionNames names.now }
    requires form { MayEvaluate world.old.0.packages form.now }
    ensures gives { AnswersQuestion names.now (object_of form.now.datum) world.old.0 world.new.0 result }
    ensures value { IfOk result (λ e. IsArgument world.new.0.packages e.value) }
    ensures marked { IfOk result (λ _. world.new.1 ≡ world.old.1 ++ world.old.0 ∷ []) }
    ensures unchanged { IfErr result (λ _. world.new ≡ world.old) }
{
    match attempt(alloc, world, names, form) {
        Ok((_, evaluated)) => Ok(evaluated),
        Err(error) => Err(error),
    }
}
