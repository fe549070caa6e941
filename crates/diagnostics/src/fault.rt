// The line of a fault, that with its cause, and how a text is written.
ghost use Rattle.std.specs.Prelude.{◌≢◌, ℕ, List, [], ◌∷◌, ◌++◌, All};
ghost use Rattle.sessions.specs.FormAnswers.{refusal_line};
ghost use Rattle.diagnostics.specs.Faults.{IsFaultText};
ghost use Rattle.diagnostics.specs.StreamTexts.{WritesOut, WritesText};

use arrayvec::{ArrayString, ArrayVec};
use disk_trait::HostError;
use lisp_object::refusal::{DEVICE, name_of};
use std::fmt;
use std::fmt::Write as WriteText;
use std::io::Write;

/// The longest path that the system takes.
const LONGEST_PATH: usize = 4096;

/// A text was not written whole.
#[derive(Clone, Copy, Debug, PartialEq, Eq)]
pub struct Unwritten;

/// Writes the line of a fault: an exclamation mark, its number and its name. It takes no memory; where a write fails or takes
/// nothing, a part of the line was written, from its front.
pub fn write_fault<W: Write>(faults: &mut W, number: u16) -> Result<(), Unwritten>
    ensures { WritesText result (W.contents faults.old) (W.contents faults.new)
        (refusal_line number) }
{
    let name = name_of(number);
    let mut line = ArrayString::<48>::new();
    // the line has room for each number and name
    let Ok(()) = writeln!(line, "! {number} {name}") else {
        return Err(Unwritten);
    };
    write_text(faults, line.as_bytes())
}

/// Writes what is told of a fault: its line, and after that of the device a line with the cause, if it is known. The line names the file of
/// a call that failed, and else the folder of the store, by the path with which the folder was opened; with an empty path none is told.
pub fn write_fault_with_cause<W: Write>(
    faults: &mut W,
    number: u16,
    cause: Option<&HostError>,
    folder: &str,
) -> Result<(), Unwritten>
    ensures { (text : List ℕ) × IsFaultText number text
        × WritesText result (W.contents faults.old) (W.contents faults.new) text }
{
    if write_fault(faults, number).is_err() {
        return Err(Unwritten);
    }
    match cause {
        Some(cause) if number == DEVICE => write_cause(faults, cause, folder),
        _ => Ok(()),
    }
}

// Writes a line with a cause. It takes no memory.
fn write_cause<W: Write>(faults: &mut W, cause: &HostError, folder: &str) -> Result<(), Unwritten>
    ensures { (line : List ℕ) × All (λ byte. byte ≢ 10) line
        × WritesText result (W.contents faults.old) (W.contents faults.new) (line ++ 10 ∷ []) }
{
    let mut text = ArrayString::<4600>::new();
    // it has room for the longest path, and for the words around it
    let _ = push_cause(&mut text, cause, folder);
    let mut line = ArrayVec::<u8, 4601>::new();
    'bytes: for byte in text.as_bytes() {
        if line.len() == 4600 {
            break;
        }
        // the cause is one line, whatever the path is, and no control character of it gets to a terminal
        line.push(if *byte < b' ' { b' ' } else { *byte });
    }
    line.push(b'\n');
    write_text(faults, line.as_slice())
}

// The words of a cause, with the path of what it is about.
fn push_cause(text: &mut ArrayString<4600>, cause: &HostError, folder: &str) -> fmt::Result {
    if folder.is_empty() || folder.len() > LONGEST_PATH {
        return write!(text, "{cause}");
    }
    match cause {
        HostError::Failed(failed) => {
            let file = failed.file.behind_folder();
            write!(
                text,
                "cannot {} {folder}{file}: {}",
                failed.call, failed.error
            )
        }
        cause => write!(text, "{folder}: {cause}"),
    }
}

/// Writes a text whole. After an error a part of it was written, from its front.
pub fn write_text<W: Write>(writer: &mut W, text: &[u8]) -> Result<(), Unwritten>
    ensures { WritesText result (W.contents writer.old) (W.contents writer.new) text.now }
{
    let mut rest = text;
    'pieces: while !rest.is_empty() {
        let Ok(count) = writer.write(rest) else {
            return Err(Unwritten);
        };
        // a writer that takes nothing would be asked again for ever
        if count == 0 {
            return Err(Unwritten);
        }
        rest = &rest[count..];
    }
    Ok(())
}

/// Writes a text whole and flushes it. Else a part of it was written, from its front, or all of it and the flush failed.
pub fn write_out<W: Write>(writer: &mut W, text: &[u8]) -> Result<(), Unwritten>
    ensures { WritesOut result (W.contents writer.old) (W.contents writer.new) text.now }
{
    if write_text(writer, text).is_err() {
        return Err(Unwritten);
    }
    // the text may still be held back, and a flush is the last call that tells so
    match writer.flush() {
        Ok(()) => Ok(()),
        Err(_) => Err(Unwritten),
    }
}
