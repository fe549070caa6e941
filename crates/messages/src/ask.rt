// A question: a form that is evaluated, and of which nothing is left.
ghost use Rattle.std.specs.Prelude.{◌≡◌, Ok, IfOk};
ghost use Rattle.form_eval.specs.Laws.{MayEvaluate};
ghost use Rattle.lisp_object.specs.Datum.{object_of};
ghost use Rattle.lisp_operators.specs.EvaluationAnswers.{IsArgument, done};
ghost use Rattle.messages.specs.MessageAnswers.{answer_to_asked, answer_to_question};
ghost use Rattle.prevalence_store.specs.meaning.Forgetting.{question_in_force};

use crate::request::QUESTION_WRITES;
use crate::texts::{text_of_number, text_of_refusal, text_of_value};
use form_eval::{Evaluated, EvaluationError, ReadForm};
use plist_state::World;
use prevalence_store::{WholeMacros, WholeText, ask, read_whole};
use session_words::Mode;
use std::alloc::{AllocError, Global};
use user_macros::MacroFunctions;

/// The answer to a question. The world is as it was.
pub(crate) fn answer_question<R: MacroFunctions>(
    alloc: Global,
    world: &mut World,
    macros: &WholeMacros<R>,
    text: &[u8],
) -> Result<Vec<u8>, AllocError>
    ensures answer { IfOk result (λ answer. answer.items
        ≡ answer_to_question R.Meaning.functions world.old.0 text.now) }
    ensures same { world.new ≡ world.old }
{
    match read_whole(alloc, world, macros, Mode::Current, text) {
        Ok(WholeText::Refused(number)) => text_of_number(alloc, number),
        Ok(WholeText::Form { form, .. }) => answer_form(alloc, world, macros, &form),
        Err(_) => Err(AllocError),
    }
}

// The answer to a question that was read.
fn answer_form<R: MacroFunctions>(
    alloc: Global,
    world: &mut World,
    macros: &WholeMacros<R>,
    form: &ReadForm,
) -> Result<Vec<u8>, AllocError>
    requires form { MayEvaluate world.old.0.packages form.now }
    ensures answer { IfOk result (λ answer. answer.items
        ≡ answer_to_asked (question_in_force R.Meaning.functions.names
        world.old.0 (object_of form.now.datum))) }
    ensures same { world.new ≡ world.old }
{
    let mark = world.mark_count();
    match ask(alloc, world, macros, form) {
        Ok(evaluated) => {
            // a new symbol is printed while it is there
            let answer = text_of_evaluated(alloc, world, &evaluated);
            world.back_to(mark);
            answer
        }
        Err(EvaluationError::OutOfMemory) => Err(AllocError),
        Err(EvaluationError::Refused(number)) => text_of_number(alloc, number),
    }
}

// The answer to a question that was evaluated.
fn text_of_evaluated(
    alloc: Global,
    world: &World,
    evaluated: &Evaluated,
) -> Result<Vec<u8>, AllocError>
    requires { IsArgument world.now.0.packages evaluated.now.value }
    ensures { IfOk result (λ answer. answer.items
        ≡ answer_to_asked (Ok (done evaluated.now world.now.0))) }
{
    if evaluated.wrote {
        text_of_refusal(alloc, QUESTION_WRITES, b"QUESTION-WRITES")
    } else {
        text_of_value(alloc, world, &evaluated.value)
    }
}
