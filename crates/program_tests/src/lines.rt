//! Lines of the text of calls, and why a test has none.

use disk_trait::{DeviceFault, Half};
use lisp_object::Datum;
use prevalence_store::Outcome;
use sessions::{Ended, Ending, Place};
use std::alloc::AllocError;
use std::io::Write;

/// Why a test has no text or bytes to look at.
#[derive(Debug, PartialEq, Eq, Drop)]
pub enum Trouble {
    /// The device failed: a disk in memory does where it finds none.
    Device,
    Memory,
    /// A refusal of this number, where the test wants none.
    Refused(u16),
}

/// What a refusal of this number is, where none is wanted.
pub fn trouble_of(number: u16) -> Trouble {
    match number {
        90 => Trouble::Memory,
        60 => Trouble::Device,
        _ => Trouble::Refused(number),
    }
}

impl From<AllocError> for Trouble {
    fn from(_error: AllocError) -> Trouble {
        Trouble::Memory
    }
}

impl From<DeviceFault> for Trouble {
    fn from(_fault: DeviceFault) -> Trouble {
        Trouble::Device
    }
}

// A line of a word and a number.
fn number_line(text: &mut Vec<u8>, word: &str, number: i128) -> Result<(), Trouble> {
    match writeln!(text, "{word} {number}") {
        Ok(()) => Ok(()),
        Err(_) => Err(Trouble::Memory),
    }
}

/// The line on the half in use.
pub fn half_line(
    text: &mut Vec<u8>,
    half: Half,
    generation: u64,
    records: u64,
) -> Result<(), Trouble> {
    let letter = match half {
        Half::A => "A",
        Half::B => "B",
    };
    match writeln!(
        text,
        "half {letter} generation {generation} records {records}"
    ) {
        Ok(()) => Ok(()),
        Err(_) => Err(Trouble::Memory),
    }
}

/// The line of how a session ended. A writer in memory fails for want of it alone.
pub fn ending_line(text: &mut Vec<u8>, ending: Ending) -> Result<(), Trouble> {
    match ending {
        Ending::End => Ok(text.extend_from_slice(b"end\n")?),
        Ending::Reader(number) => number_line(text, "reader", i128::from(number)),
        Ending::Store(68) => Err(Trouble::Memory),
        Ending::Store(number) => number_line(text, "store", i128::from(number)),
    }
}

/// The line of a refusal that ended a session, with its place.
fn place_line(text: &mut Vec<u8>, word: &str, number: u16, place: Place) -> Result<(), Trouble> {
    let Place { forms, start, at } = place;
    match writeln!(text, "{word} {number} forms {forms} start {start} at {at}") {
        Ok(()) => Ok(()),
        Err(_) => Err(Trouble::Memory),
    }
}

/// The line of how a session ended that tells where.
pub fn ended_line(text: &mut Vec<u8>, ended: Ended) -> Result<(), Trouble> {
    match ended {
        Ended::End => Ok(text.extend_from_slice(b"end\n")?),
        Ended::Unreadable(number, place) => place_line(text, "reader", number, place),
        Ended::Unaccepted(number, place) => place_line(text, "strict", number, place),
        Ended::Store(68) => Err(Trouble::Memory),
        Ended::Store(number) => number_line(text, "store", i128::from(number)),
    }
}

/// The line of what a form or a snapshot gave.
fn outcome_line(text: &mut Vec<u8>, outcome: &Outcome) -> Result<(), Trouble> {
    match outcome {
        Outcome::Accepted(Datum::Integer(number)) => number_line(text, "accepted", *number),
        Outcome::Accepted(_) => Ok(text.extend_from_slice(b"accepted\n")?),
        Outcome::Snapshotted => Ok(text.extend_from_slice(b"snapshotted\n")?),
        Outcome::Refused(number) => number_line(text, "refused", i128::from(*number)),
    }
}

/// The lines of what steps gave.
pub fn outcome_lines(text: &mut Vec<u8>, outcomes: &[Outcome]) -> Result<(), Trouble> {
    for outcome in outcomes {
        outcome_line(text, outcome)?;
    }
    Ok(())
}

/// Whether a line tells of want of memory.
pub fn is_short(line: &[u8]) -> bool {
    matches!(line, b"refused 90" | b"store 90")
}
