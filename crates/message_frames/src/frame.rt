//! Frames, and how one is read.
ghost use Rattle.std.specs.Prelude.{◌≡◌, ◌≤◌, ◌++◌, ◌∷◌, [], length};
ghost use Rattle.message_frames.specs.Frames.{IsFrame, frame_bytes, sized_text};
ghost use Rattle.message_frames.specs.Reading.{IsMessage, found_frame, found_keyword, found_message, found_text, keyword_bytes, message_bytes};
ghost use Rattle.message_frames.specs.Words.{Reads};

use crate::number::read_number;
use crate::words::NotWhole;

/// What is sent.
#[derive(Clone, Copy, Debug, PartialEq, Eq)]
pub enum Kind {
    /// A message with this number, to be carried out.
    Do(u64),
    /// A message with this number among those of a client, whose name its text begins with.
    By(u64),
    /// A question, which changes nothing.
    Ask,
}

/// A message or a question.
#[derive(Clone, Copy, Debug)]
pub struct MessageFrame<'a> {
    pub kind: Kind,
    pub text: &'a [u8],
}

// The first word of a frame.
#[derive(Clone, Copy)]
enum Keyword {
    Do,
    By,
    Ask,
}

/// The frame that the bytes begin with, whose text has at most so many bytes, and what comes after it.
///
/// # Errors
///
/// `Begun` if more bytes may make it a frame, `Malformed` if none do.
pub fn first_frame(bytes: &[u8], limit: usize) -> Result<(MessageFrame<'_>, &[u8]), NotWhole>
    ensures { Reads frame_bytes (IsFrame limit) bytes.now (found_frame result) }
{
    match read_keyword(bytes) {
        Ok((Keyword::Do, rest)) => match read_message(rest, limit) {
            Ok(((number, text), rest)) => {
                let kind = Kind::Do(number);
                Ok((MessageFrame { kind, text }, rest))
            }
            Err(fault) => Err(fault),
        },
        Ok((Keyword::By, rest)) => match read_message(rest, limit) {
            Ok(((number, text), rest)) => {
                let kind = Kind::By(number);
                Ok((MessageFrame { kind, text }, rest))
            }
            Err(fault) => Err(fault),
        },
        Ok((Keyword::Ask, rest)) => match read_sized(rest, limit) {
            Ok((text, rest)) => {
                let kind = Kind::Ask;
                Ok((MessageFrame { kind, text }, rest))
            }
            Err(fault) => Err(fault),
        },
        Err(fault) => Err(fault),
    }
}

// The first word, and the space after it.
fn read_keyword(bytes: &[u8]) -> Result<(Keyword, &[u8]), NotWhole>
    ensures { Reads keyword_bytes (λ _. Unit {0}) bytes.now (found_keyword result) }
{
    if let Some(rest) = bytes.strip_prefix(b"do ") {
        return Ok((Keyword::Do, rest));
    }
    if let Some(rest) = bytes.strip_prefix(b"by ") {
        return Ok((Keyword::By, rest));
    }
    if let Some(rest) = bytes.strip_prefix(b"ask ") {
        return Ok((Keyword::Ask, rest));
    }
    if b"do ".starts_with(bytes) {
        return Err(NotWhole::Begun);
    }
    if b"by ".starts_with(bytes) {
        return Err(NotWhole::Begun);
    }
    if b"ask ".starts_with(bytes) {
        return Err(NotWhole::Begun);
    }
    Err(NotWhole::Malformed)
}

// The number and the text of a message, after its first word.
fn read_message(bytes: &[u8], limit: usize) -> Result<((u64, &[u8]), &[u8]), NotWhole>
    ensures { Reads message_bytes (IsMessage limit) bytes.now (found_message result) }
{
    match read_number(bytes, u64::MAX, b' ') {
        Ok((number, rest)) => match read_sized(rest, limit) {
            Ok((text, rest)) => Ok(((number, text), rest)),
            Err(fault) => Err(fault),
        },
        Err(fault) => Err(fault),
    }
}

// A text of at most so many bytes, after its length.
fn read_sized(bytes: &[u8], limit: usize) -> Result<(&[u8], &[u8]), NotWhole>
    ensures { Reads sized_text (λ text. length text ≤ limit) bytes.now (found_text result) }
{
    match read_number(bytes, limit as u64, b'\n') {
        Ok((count, rest)) => read_line(rest, count as usize),
        Err(fault) => Err(fault),
    }
}

// So many bytes, and the newline after them.
fn read_line(bytes: &[u8], count: usize) -> Result<(&[u8], &[u8]), NotWhole>
    ensures { Reads (λ text. text ++ 10 ∷ []) (λ text. length text ≡ count) bytes.now (found_text result) }
{
    match bytes.get(count) {
        Some(b'\n') => Ok((&bytes[..count], &bytes[count + 1..])),
        Some(_) => Err(NotWhole::Malformed),
        None => Err(NotWhole::Begun),
    }
}
