//! What is written: answers, and the position.
ghost use Rattle.std.specs.Prelude.{◌≡◌, ◌++◌, OnOk};
ghost use Rattle.message_frames.specs.Frames.{answer_bytes, answer_head, position_bytes, sized_text};
ghost use Rattle.message_frames.specs.Numbers.{number_word};
ghost use Rattle.message_frames.specs.WrittenFrames.{Appends};

use crate::frame::Kind;
use itoa::Buffer;
use std::alloc::AllocError;

/// Adds an answer to `out`; `answer` comes without the newline of its line. If memory runs out, a part of it stands there.
pub fn push_answer(out: &mut Vec<u8>, kind: Kind, answer: &[u8]) -> Result<(), AllocError>
    ensures whole { OnOk result (out.new.items ≡ out.old.items ++ answer_bytes (kind, answer.now)) }
    ensures after { Appends out.old.items out.new.items }
{
    push_head(out, kind)?;
    push_number(out, answer.len() as u64, b'\n')?;
    out.extend_from_slice(answer)?;
    out.push(b'\n')?;
    Ok(())
}

/// Adds the position to `out`. If memory runs out, a part of it stands there.
pub fn push_position(out: &mut Vec<u8>, number: u64) -> Result<(), AllocError>
    ensures whole { OnOk result (out.new.items ≡ out.old.items ++ position_bytes number) }
    ensures after { Appends out.old.items out.new.items }
{
    out.extend_from_slice(b"at ")?;
    push_number(out, number, b'\n')
}

// What an answer begins with.
fn push_head(out: &mut Vec<u8>, kind: Kind) -> Result<(), AllocError>
    ensures whole { OnOk result (out.new.items ≡ out.old.items ++ answer_head kind) }
    ensures after { Appends out.old.items out.new.items }
{
    match kind {
        Kind::Do(number) => push_number(out, number, b' '),
        Kind::By(number) => {
            out.extend_from_slice(b"by ")?;
            push_number(out, number, b' ')
        }
        Kind::Ask => out.extend_from_slice(b"ask "),
    }
}

// A number, and the byte that ends it.
fn push_number(out: &mut Vec<u8>, number: u64, end: u8) -> Result<(), AllocError>
    ensures whole { OnOk result (out.new.items ≡ out.old.items ++ number_word end number) }
    ensures after { Appends out.old.items out.new.items }
{
    let mut buffer = Buffer::new();
    out.extend_from_slice(buffer.format(number).as_bytes())?;
    out.push(end)?;
    Ok(())
}
