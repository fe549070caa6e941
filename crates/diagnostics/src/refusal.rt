// The refusal that ended a session, and the line on it.
ghost use Rattle.std.specs.Prelude.{◌≡◌, ◌++◌, IfOk, OnOk};
ghost use Rattle.diagnostics.specs.Refusals.{IsRefusalOf, after_text, before_text, byte_line, byte_text, form_line, form_of, line_of, number_text, place_line, refused_text, spot_text, start_byte_text, start_text};
ghost use Rattle.diagnostics.specs.StreamTexts.{WritesText};

use crate::fault::{Unwritten, write_text};
use crate::places::{Places, Spot};
use arrayvec::ArrayString;
use lisp_object::refusal::name_of;
use sessions::{Ended, Place};
use std::alloc::{AllocError, Global};
use std::fmt;
use std::fmt::Write as WriteText;
use std::io::Write;

/// The refusal that ended a session.
#[derive(Clone, Copy, Debug, PartialEq, Eq)]
pub struct Refusal {
    pub number: u16,
    /// Its place in the input of the session.
    pub place: Place,
    /// The lines of that, if they are known.
    pub spots: Option<Spots>,
}

/// The places of a refusal.
#[derive(Clone, Copy, Debug, PartialEq, Eq)]
pub struct Spots {
    /// Where its form began.
    pub start: Spot,
    /// Where it was refused.
    pub at: Spot,
}

impl Refusal {
    /// The refusal with which a session over this input ended, if it ended with one.
    pub fn of<I: Places>(ended: Ended, input: &I) -> Option<Refusal>
        ensures { IsRefusalOf ended result }
    {
        match ended {
            Ended::Unreadable(number, place) | Ended::Unaccepted(number, place) => {
                input.note_refusal(number, place);
                Some(Refusal {
                    number,
                    place,
                    spots: spots_of(place, input),
                })
            }
            Ended::End | Ended::Store(_) => None,
        }
    }

    // Which form was refused, counted from 1.
    fn form(&self) -> u64
        ensures { result ≡ form_of self.now }
    {
        self.place.forms.saturating_add(1)
    }
}

impl Spots {
    /// Those of a form that was refused where it begins.
    pub fn of_form(start: Spot) -> Spots {
        Spots { start, at: start }
    }
}

// The lines of a place of an input, if they are known.
fn spots_of<I: Places>(place: Place, input: &I) -> Option<Spots> {
    let start = input.spot_at(place.start)?;
    let at = input.spot_at(place.at)?;
    Some(Spots { start, at })
}

/// Writes the line on a refusal: where it came, its number and its name, which form it was, and where that began. It takes no memory.
pub fn write_refusal<W: Write>(faults: &mut W, refusal: &Refusal) -> Result<(), Unwritten>
    ensures { WritesText result (W.contents faults.old) (W.contents faults.new) (line_of refusal.now) }
{
    match refusal.spots {
        Some(spots) => write_lines(faults, refusal.number, refusal.form(), spots),
        None => write_bytes(faults, refusal.number, refusal.form(), refusal.place),
    }
}

/// Writes the line on a form that was refused, and goes on: where it begins, its number, a text on it that is one line, and where more is told
/// of the number. Without memory for the line nothing is written.
pub fn write_refused_form<W: Write>(
    alloc: Global,
    faults: &mut W,
    refusal: &Refusal,
    text: &[u8],
) -> Result<(), Unwritten>
    ensures { WritesText result (W.contents faults.old) (W.contents faults.new)
        (form_line refusal.now text.now) }
{
    match line_of_form(alloc, refusal, text) {
        Ok(line) => write_text(faults, line.as_slice()),
        Err(_) => Err(Unwritten),
    }
}

// The line on a form that was refused.
fn line_of_form(alloc: Global, refusal: &Refusal, text: &[u8]) -> Result<Vec<u8>, AllocError>
    ensures { IfOk result (λ line. line.items ≡ form_line refusal.now text.now) }
{
    let (mut before, mut after) = (ArrayString::<256>::new(), ArrayString::<256>::new());
    // each has room for all numbers
    if push_before(&mut before, refusal).is_err()
        || push_after(&mut after, refusal.number).is_err()
    {
        return Err(AllocError);
    }
    let mut line = Vec::from_slice(alloc, before.as_bytes())?;
    line.extend_from_slice(text)?;
    line.extend_from_slice(after.as_bytes())?;
    Ok(line)
}

// Where a form that was refused begins, and its number.
fn push_before(text: &mut ArrayString<256>, refusal: &Refusal) -> fmt::Result
    ensures { OnOk result (text.new.bytes ≡ text.old.bytes ++ before_text refusal.now) }
{
    match refusal.spots {
        Some(spots) => push_spot(text, spots.start.line, spots.start.column)?,
        None => push_byte(text, refusal.place.start)?,
    }
    push_number(text, refusal.number)
}

fn push_number(text: &mut ArrayString<256>, number: u16) -> fmt::Result
    ensures { OnOk result (text.new.bytes ≡ text.old.bytes ++ number_text number) }
{
    let Ok(()) = write!(text, "{number}: ") else {
        return Err(fmt::Error);
    };
    Ok(())
}

fn push_after(text: &mut ArrayString<256>, number: u16) -> fmt::Result
    ensures { OnOk result (text.new.bytes ≡ text.old.bytes ++ after_text number) }
{
    let Ok(()) = writeln!(text, " (help {number})") else {
        return Err(fmt::Error);
    };
    Ok(())
}

// The line on a refusal whose lines are known.
fn write_lines<W: Write>(
    faults: &mut W,
    number: u16,
    form: u64,
    spots: Spots,
) -> Result<(), Unwritten>
    ensures { WritesText result (W.contents faults.old) (W.contents faults.new)
        (place_line number form spots) }
{
    let mut line = ArrayString::<256>::new();
    // the line has room for all numbers and names
    let Ok(()) = push_lines(&mut line, number, form, spots) else {
        return Err(Unwritten);
    };
    write_text(faults, line.as_bytes())
}

// The line on a refusal whose lines are not known.
fn write_bytes<W: Write>(
    faults: &mut W,
    number: u16,
    form: u64,
    place: Place,
) -> Result<(), Unwritten>
    ensures { WritesText result (W.contents faults.old) (W.contents faults.new)
        (byte_line number form place) }
{
    let mut line = ArrayString::<256>::new();
    let Ok(()) = push_bytes(&mut line, number, form, place) else {
        return Err(Unwritten);
    };
    write_text(faults, line.as_bytes())
}

fn push_lines(line: &mut ArrayString<256>, number: u16, form: u64, spots: Spots) -> fmt::Result
    ensures { OnOk result (line.new.bytes ≡ line.old.bytes ++ place_line number form spots) }
{
    push_spot(line, spots.at.line, spots.at.column)?;
    push_refused(line, number, form)?;
    push_start(line, spots.start.line, spots.start.column)
}

fn push_bytes(line: &mut ArrayString<256>, number: u16, form: u64, place: Place) -> fmt::Result
    ensures { OnOk result (line.new.bytes ≡ line.old.bytes ++ byte_line number form place) }
{
    push_byte(line, place.at)?;
    push_refused(line, number, form)?;
    push_start_byte(line, place.start)
}

fn push_spot(text: &mut ArrayString<256>, line: u64, column: u64) -> fmt::Result
    ensures { OnOk result (text.new.bytes ≡ text.old.bytes ++ spot_text line column) }
{
    let Ok(()) = write!(text, "line {line}, column {column}: ") else {
        return Err(fmt::Error);
    };
    Ok(())
}

fn push_byte(text: &mut ArrayString<256>, bytes: u64) -> fmt::Result
    ensures { OnOk result (text.new.bytes ≡ text.old.bytes ++ byte_text bytes) }
{
    let Ok(()) = write!(text, "after {bytes} bytes: ") else {
        return Err(fmt::Error);
    };
    Ok(())
}

fn push_refused(text: &mut ArrayString<256>, number: u16, form: u64) -> fmt::Result
    ensures { OnOk result (text.new.bytes ≡ text.old.bytes ++ refused_text number form) }
{
    let name = name_of(number);
    let Ok(()) = write!(text, "refused with {number} {name} in form {form}, ") else {
        return Err(fmt::Error);
    };
    Ok(())
}

fn push_start(text: &mut ArrayString<256>, line: u64, column: u64) -> fmt::Result
    ensures { OnOk result (text.new.bytes ≡ text.old.bytes ++ start_text line column) }
{
    let Ok(()) = writeln!(text, "which began at line {line}, column {column}") else {
        return Err(fmt::Error);
    };
    Ok(())
}

fn push_start_byte(text: &mut ArrayString<256>, bytes: u64) -> fmt::Result
    ensures { OnOk result (text.new.bytes ≡ text.old.bytes ++ start_byte_text bytes) }
{
    let Ok(()) = writeln!(text, "which began after {bytes} bytes") else {
        return Err(fmt::Error);
    };
    Ok(())
}
