//! An output that lets refusals through, and counts the answers.
ghost use Rattle.std.specs.Prelude.{◌≡◌, ◌++◌, length, None, IfOk, OnOk};
ghost use Rattle.std.specs.Io.{WritesAtMost};
ghost use Rattle.std.specs.Io.KnownBytes.{WriteAppends};
ghost use Rattle.program_streams.specs.AnswerText.{place_after_byte, after_all, counted_on, counted_byte, counts_line, refusal_bytes_after, refusals_in, Gets};

use crate::answer_text::At;
use arrayvec::ArrayString;
use std::alloc::{AllocError, Global};
use std::fmt::Write as WriteText;
use std::io;
use std::io::{ErrorKind, Write};

/// How many answers went to an output.
#[derive(Clone, Copy, Debug, PartialEq, Eq)]
pub struct Counts {
    pub values: u64,
    pub refusals: u64,
}

impl Counts {
    /// No value and no refusal was counted.
    pub fn new() -> Counts
        ensures { result ≡ record { values = 0; refusals = 0 } }
    {
        Counts {
            values: 0,
            refusals: 0,
        }
    }

    // With an answer that ends with this byte, if one does.
    fn after(self, at: At, byte: u8) -> Counts
        ensures { result ≡ counted_byte at self byte }
    {
        match (at.after(byte), at) {
            (At::Start, At::Refusal) => Counts {
                refusals: self.refusals.saturating_add(1),
                ..self
            },
            (At::Start, _) => Counts {
                values: self.values.saturating_add(1),
                ..self
            },
            _ => self,
        }
    }
}

/// Writes the line on so many answers: how many there were, and how many of them were refusals.
///
/// # Errors
///
/// Those of the writer, which got a part of the line from its front then.
pub fn write_counts<W: Write>(writer: &mut W, counts: Counts) -> io::Result<()>
    ensures { OnOk result (Gets (W.contents writer.old) (W.contents writer.new) (counts_line counts)) }
{
    let Counts { values, refusals } = counts;
    let answers = values.saturating_add(refusals);
    let mut line = ArrayString::<64>::new();
    let Ok(()) = writeln!(line, "answers {answers} refusals {refusals}") else {
        return Err(ErrorKind::WriteZero.into());
    };
    write_whole(writer, line.as_bytes())
}

/// An output of answers, of which it hands on the refusals alone.
#[derive(Drop)]
pub struct Refusals<O> {
    output: O,
    at: At,
    refusals: Vec<u8>,
    counts: Counts,
}

impl<O> Refusals<O> {
    /// Before the first answer.
    pub fn new(alloc: Global, output: O) -> Refusals<O>
        ensures output { result.output ≡ output }
        ensures at { result.at ≡ At.Start }
        ensures counts { result.counts ≡ record { values = 0; refusals = 0 } }
    {
        Refusals {
            output,
            at: At::Start,
            refusals: Vec::new(alloc),
            counts: Counts::new(),
        }
    }

    /// How many answers were handed to it.
    pub fn counts(&self) -> Counts
        ensures { result ≡ self.now.counts }
    {
        self.counts
    }

    // Takes note of a byte.
    fn note(&mut self, byte: u8) -> Result<(), AllocError>
        ensures output { self.new.output ≡ self.old.output }
        ensures at { OnOk result (self.new.at ≡ place_after_byte self.old.at byte) }
        ensures refusals { OnOk result (self.new.refusals.items
            ≡ self.old.refusals.items ++ refusal_bytes_after self.old.at byte) }
        ensures counts { OnOk result (self.new.counts ≡ counted_byte self.old.at self.old.counts byte) }
    {
        match self.at {
            At::Mark if byte == b' ' => self.refusals.extend_from_slice(b"! ")?,
            At::Refusal => self.refusals.push(byte)?,
            _ => {}
        }
        self.counts = self.counts.after(self.at, byte);
        self.at = self.at.after(byte);
        Ok(())
    }

    // Takes note of bytes: their refusals are then to be handed on.
    fn note_all(&mut self, bytes: &[u8]) -> Result<(), AllocError>
        ensures output { self.new.output ≡ self.old.output }
        ensures at { OnOk result (self.new.at ≡ after_all self.old.at bytes.now) }
        ensures refusals { OnOk result (self.new.refusals.items ≡ refusals_in self.old.at bytes.now) }
        ensures counts { OnOk result (self.new.counts ≡ counted_on self.old.at self.old.counts bytes.now) }
    {
        self.refusals.clear();
        for byte in bytes {
            self.note(*byte)?;
        }
        Ok(())
    }
}

// Writes a text whole, or a part of it from its front.
fn write_whole<O: Write>(output: &mut O, text: &[u8]) -> io::Result<()>
    ensures { OnOk result (Gets (O.contents output.old) (O.contents output.new) text.now) }
{
    let mut rest = text;
    'pieces: while !rest.is_empty() {
        let count = output.write(rest)?;
        if count == 0 {
            return Err(ErrorKind::WriteZero.into());
        }
        rest = &rest[count..];
    }
    Ok(())
}

impl<O: Write> Write for Refusals<O> {
    // of what was handed to it nothing is told
    ghost contents = { λ _. None };

    fn write(&mut self, buf: &[u8]) -> io::Result<usize>
        ensures bound { WritesAtMost result buf.now }
        ensures bytes { WriteAppends None None result buf.now }
        ensures whole { IfOk result (λ count. count ≡ length buf.now) }
        ensures at { IfOk result (λ _. self.new.at ≡ after_all self.old.at buf.now) }
        ensures refusals { IfOk result (λ _. Gets (O.contents self.old.output) (O.contents self.new.output)
            (refusals_in self.old.at buf.now)) }
        ensures counts { IfOk result (λ _. self.new.counts ≡ counted_on self.old.at self.old.counts buf.now) }
    {
        self.note_all(buf)?;
        write_whole(&mut self.output, self.refusals.as_slice())?;
        Ok(buf.len())
    }

    fn flush(&mut self) -> io::Result<()> {
        self.output.flush()
    }
}
