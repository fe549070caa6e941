// Many texts that are handed over in one, and the answers to many forms.
ghost use Rattle.std.specs.Prelude.{◌≡◌, ◌++◌, IfOk, OnOk, map};
ghost use Rattle.std.specs.List.{All, flat_map};
ghost use Rattle.pazturrok_c.specs.Engine.{outcome_bytes, numbered_answer};
ghost use Rattle.pazturrok_c.specs.JoinedTexts.{texts_in};
ghost use Rattle.prevalence_store.specs.calls.Execute.{IsProperOutcome};

use crate::answer::{EngineStore, printed};
use prevalence_store::Outcome;
use std::alloc::{AllocError, Global};

/// The texts that end at these places. It fails only for want of memory.
pub(crate) fn texts_of<'a>(
    alloc: Global,
    bytes: &'a [u8],
    ends: &[u64],
) -> Result<Vec<&'a [u8]>, AllocError>
    ensures { IfOk result (λ texts. map (λ text. text.now) texts.items ≡ texts_in 0 bytes.now ends.now) }
{
    let mut texts = Vec::with_capacity(alloc, ends.len())?;
    let mut rest = bytes;
    let mut start = 0u64;
    for end in ends {
        let length = end.saturating_sub(start).min(rest.len() as u64) as usize;
        let (text, after) = rest.split_at(length);
        texts.push(text)?;
        rest = after;
        start = *end;
    }
    Ok(texts)
}

/// What is told of one form more: its number, the length of its answer, and the answer. After an error, want of memory
/// alone, a part may be added.
pub(crate) fn tell(bytes: &mut Vec<u8>, number: u16, answer: &[u8]) -> Result<(), AllocError>
    ensures { OnOk result (bytes.new.items ≡ bytes.old.items ++ numbered_answer number answer.now) }
{
    bytes.extend_from_slice(&number.to_le_bytes())?;
    bytes.extend_from_slice(&(answer.len() as u64).to_le_bytes())?;
    bytes.extend_from_slice(answer)?;
    Ok(())
}

fn tell_outcome(
    alloc: Global,
    bytes: &mut Vec<u8>,
    store: &EngineStore,
    outcome: &Outcome,
) -> Result<(), AllocError>
    requires { IsProperOutcome outcome.now }
    ensures { OnOk result (bytes.new.items ≡ bytes.old.items ++ outcome_bytes store.now.world outcome.now) }
{
    match outcome {
        Outcome::Accepted(value) => {
            let text = printed(alloc, store, value)?;
            tell(bytes, 0, &text)
        }
        Outcome::Snapshotted => tell(bytes, 0, &[]),
        Outcome::Refused(number) => tell(bytes, *number, &[]),
    }
}

/// What is told of these forms, one after the other. It fails only for want of memory.
pub(crate) fn answers_to(
    alloc: Global,
    store: &EngineStore,
    outcomes: &[Outcome],
) -> Result<Vec<u8>, AllocError>
    requires { All IsProperOutcome outcomes.now }
    ensures { IfOk result (λ bytes. bytes.items ≡ flat_map (outcome_bytes store.now.world) outcomes.now) }
{
    let mut bytes = Vec::new(alloc);
    for outcome in outcomes {
        tell_outcome(alloc, &mut bytes, store, outcome)?;
    }
    Ok(bytes)
}
