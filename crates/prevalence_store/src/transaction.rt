// A form as a transaction, and as a question: FORGET-NAMES, or what form_eval says.
ghost use Rattle.std.specs.Prelude.{◌≡◌, ◌∷◌, ◌++◌, [], IfErr, IfOk};
ghost use Rattle.form_eval.specs.Laws.{MayEvaluate};
ghost use Rattle.lisp_object.specs.Datum.{object_of};
ghost use Rattle.lisp_operators.specs.Effects.{Leaves};
ghost use Rattle.lisp_operators.specs.EvaluationAnswers.{Answers, IsArgument, done};
ghost use Rattle.prevalence_store.specs.meaning.Acceptance.{transaction_value};
ghost use Rattle.prevalence_store.specs.meaning.Forgetting.{forgetting, question_in_force};

use crate::forgetting::{count_names, forget_names, is_forgetting};
use crate::whole_macros::WholeMacros;
use form_eval::{Evaluated, EvaluationError, ReadForm, accept, apply, question};
use plist_state::World;
use std::alloc::Global;
use user_macros::MacroFunctions;

/// Carries a form out as one transaction. Gives its value, and whether anything in the world was written. The world keeps one mark
/// more, of itself as it was before the form.
///
/// # Errors
/// Those of `form_eval::accept`. The world is then as it was, its marks too.
pub(crate) fn transact<R: MacroFunctions>(
    alloc: Global,
    world: &mut World,
    macros: &WholeMacros<R>,
    form: &ReadForm,
) -> Result<Evaluated, EvaluationError>
    requires form { MayEvaluate world.old.0.packages form.now }
    ensures gives { Answers done result world.new.0
        (transaction_value R.Meaning.functions.names world.old.0 (object_of form.now.datum)) }
    ensures value { IfOk result (λ e. IsArgument world.new.0.packages e.value) }
    ensures marked { IfOk result (λ _. world.new.1 ≡ world.old.1 ++ world.old.0 ∷ []) }
    ensures unchanged { IfErr result (λ _. world.new ≡ world.old) }
{
    if is_forgetting(&form.datum) {
        return forget_names(alloc, world, macros);
    }
    accept(alloc, world, macros.functions.meaning(), form)
}

// FORGET-NAMES, where its value is not asked for.
fn forget_silently<R: MacroFunctions>(
    alloc: Global,
    world: &mut World,
    macros: &WholeMacros<R>,
) -> Result<bool, EvaluationError>
    ensures gives { Leaves result world.new.0 (forgetting world.old.0) }
    ensures marked { IfOk result (λ _. world.new.1 ≡ world.old.1 ++ world.old.0 ∷ []) }
    ensures unchanged { IfErr result (λ _. world.new ≡ world.old) }
{
    match forget_names(alloc, world, macros) {
        Ok(evaluated) => Ok(evaluated.wrote),
        Err(error) => Err(error),
    }
}

/// Does what `transact` does, where the value is not asked for. Gives whether anything in the world was written.
///
/// # Errors
/// Those of `transact`. The world is then as it was, its marks too.
pub(crate) fn carry_out<R: MacroFunctions>(
    alloc: Global,
    world: &mut World,
    macros: &WholeMacros<R>,
    form: ReadForm,
) -> Result<bool, EvaluationError>
    requires form { MayEvaluate world.old.0.packages form }
    ensures gives { Leaves result world.new.0
        (transaction_value R.Meaning.functions.names world.old.0 (object_of form.datum)) }
    ensures marked { IfOk result (λ _. world.new.1 ≡ world.old.1 ++ world.old.0 ∷ []) }
    ensures unchanged { IfErr result (λ _. world.new ≡ world.old) }
{
    if is_forgetting(&form.datum) {
        return forget_silently(alloc, world, macros);
    }
    apply(alloc, world, macros.functions.meaning(), form)
}

/// Evaluates a form as a question, which tells whether its evaluation would write: that a symbol is new does not count. The world
/// keeps one mark more, of itself as it was before the question; who goes back to it leaves nothing of the question.
///
/// # Errors
/// Those of `form_eval::question`. The world is then as it was, its marks too.
pub fn ask<R: MacroFunctions>(
    alloc: Global,
    world: &mut World,
    macros: &WholeMacros<R>,
    form: &ReadForm,
) -> Result<Evaluated, EvaluationError>
    requires form { MayEvaluate world.old.0.packages form.now }
    ensures gives { Answers done result world.new.0
        (question_in_force R.Meaning.functions.names world.old.0 (object_of form.now.datum)) }
    ensures value { IfOk result (λ e. IsArgument world.new.0.packages e.value) }
    ensures marked { IfOk result (λ _. world.new.1 ≡ world.old.1 ++ world.old.0 ∷ []) }
    ensures unchanged { IfErr result (λ _. world.new ≡ world.old) }
{
    if is_forgetting(&form.datum) {
        return count_names(alloc, world);
    }
    question(alloc, world, macros.functions.meaning(), form)
}
