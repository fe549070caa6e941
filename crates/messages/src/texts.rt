// Answers as bytes.
ghost use Rattle.std.specs.Prelude.{◌≡◌, true, IfOk};
ghost use Rattle.lisp_object.specs.Datum.{is_proper, object_of};
ghost use Rattle.prevalence_store.specs.calls.Execute.{IsProperOutcome};
ghost use Rattle.prevalence_store.specs.calls.ExecuteAll.{told_by};
ghost use Rattle.messages.specs.MessageAnswers.{answer_in, refusal_answer, refusal_text, printed_value};

use canon_printer::print;
use lisp_object::Datum;
use lisp_object::refusal::name_of;
use plist_state::World;
use prevalence_store::Outcome;
use std::alloc::{AllocError, Global};

/// A value, as it is printed in a world.
pub(crate) fn text_of_value(
    alloc: Global,
    world: &World,
    value: &Datum,
) -> Result<Vec<u8>, AllocError>
    requires { is_proper value.now ≡ true }
    ensures { IfOk result (λ text. text.items ≡ printed_value world.now.0 (object_of value.now)) }
{
    world.soundness();
    print(alloc, value, world.packages(), world.current_package())
}

/// A refusal of this number and name.
pub fn text_of_refusal(alloc: Global, number: u16, name: &[u8]) -> Result<Vec<u8>, AllocError>
    ensures { IfOk result (λ text. text.items ≡ refusal_text number name.now) }
{
    let digits = number.to_string(alloc)?;
    let mut text = Vec::from_slice(alloc, b"! ")?;
    text.extend_from_slice(digits.as_bytes())?;
    text.push(b' ')?;
    text.extend_from_slice(name)?;
    Ok(text)
}

/// A refusal of a form.
pub fn text_of_number(alloc: Global, number: u16) -> Result<Vec<u8>, AllocError>
    ensures { IfOk result (λ text. text.items ≡ refusal_answer number) }
{
    text_of_refusal(alloc, number, name_of(number).as_bytes())
}

/// What became of a text, in the world after it.
pub(crate) fn text_of_outcome(
    alloc: Global,
    world: &World,
    outcome: &Outcome,
) -> Result<Vec<u8>, AllocError>
    requires { IsProperOutcome outcome.now }
    ensures { IfOk result (λ text. text.items ≡ answer_in world.now.0 (told_by outcome.now)) }
{
    match outcome {
        Outcome::Accepted(value) => text_of_value(alloc, world, value),
        Outcome::Snapshotted => text_of_number(alloc, 0),
        Outcome::Refused(number) => text_of_number(alloc, *number),
    }
}
