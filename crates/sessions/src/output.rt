// What a session writes.
ghost use Rattle.std.specs.Option.{option_map};
ghost use Rattle.std.specs.Prelude.{◌≡◌, OnOk, OnErr, IfOk, IfSome, true};
ghost use Rattle.lisp_object.specs.Datum.{object_of, is_proper};
ghost use Rattle.lisp_operators.specs.EvaluationAnswers.{or_nil};
ghost use Rattle.sessions.specs.FormAnswers.{refusal_line, value_line};
ghost use Rattle.sessions.specs.Streams.{Writes, WritesPart};

use crate::recipient::OutputFault;
use canon_printer::print;
use form_eval::Evaluated;
use lisp_object::Datum;
use lisp_object::refusal::name_of;
use plist_state::World;
use std::alloc::{AllocError, Global};
use std::io::Write;

/// Writes the text whole, or a part of it from its front. The error is that of the output; a part is written then, or
/// nothing.
pub(crate) fn write_text<W: Write>(writer: &mut W, text: &[u8]) -> Result<(), OutputFault>
    ensures whole { OnOk result (Writes (W.contents writer.old) (W.contents writer.new) text.now) }
    ensures part { OnErr result
        (WritesPart (W.contents writer.old) (W.contents writer.new) text.now) }
{
    let mut rest = text;
    'pieces: while !rest.is_empty() {
        let Ok(count) = writer.write(rest) else {
            return Err(OutputFault);
        };
        if count == 0 {
            return Err(OutputFault);
        }
        rest = &rest[count..];
    }
    Ok(())
}

/// The line that answers a form which was accepted: its value, as it is printed in the world after the form.
pub(crate) fn line_of_value(
    alloc: Global,
    world: &World,
    evaluated: &Evaluated,
) -> Result<Vec<u8>, AllocError>
    requires { is_proper evaluated.now.value ≡ true }
    ensures { IfOk result (λ line.
        line.items ≡ value_line world.now.0 (object_of evaluated.now.value)) }
{
    line_of_datum(alloc, world, &evaluated.value)
}

/// The line of the value of a property, where it has one, and else that of NIL.
pub(crate) fn line_of_property(
    alloc: Global,
    world: &World,
    value: Option<&Datum>,
) -> Result<Vec<u8>, AllocError>
    requires { IfSome value (λ d. is_proper d.now ≡ true) }
    ensures { IfOk result (λ line.
        line.items ≡ value_line world.now.0 (or_nil (option_map (λ d. object_of d.now) value.entry))) }
{
    match value {
        Some(value) => line_of_datum(alloc, world, value),
        None => {
            let nil = Datum::nil(alloc)?;
            line_of_datum(alloc, world, &nil)
        }
    }
}

// A datum, as it is printed in a world, and a newline.
#[inline(always)]
fn line_of_datum(alloc: Global, world: &World, value: &Datum) -> Result<Vec<u8>, AllocError>
    requires { is_proper value.now ≡ true }
    ensures { IfOk result (λ line. line.items ≡ value_line world.now.0 (object_of value.now)) }
{
    world.soundness();
    let mut line = print(alloc, value, world.packages(), world.current_package())?;
    line.push(b'\n')?;
    Ok(line)
}

/// The line that answers a refusal: an exclamation mark, its number and its name.
pub(crate) fn line_of_refusal(alloc: Global, number: u16) -> Result<Vec<u8>, AllocError>
    ensures { IfOk result (λ line. line.items ≡ refusal_line number) }
{
    let digits = number.to_string(alloc)?;
    let mut line = Vec::from_slice(alloc, b"! ")?;
    line.extend_from_slice(digits.as_bytes())?;
    line.push(b' ')?;
    line.extend_from_slice(name_of(number).as_bytes())?;
    line.push(b'\n')?;
    Ok(line)
}
