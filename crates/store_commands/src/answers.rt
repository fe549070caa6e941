// What was answered, as the output sees it, and an input that knows whether anything was.
ghost use Rattle.std.specs.Prelude.{◌≡◌};

use crate::given::Given;
use diagnostics::{Places, Spot};
use sessions::Place;
use std::cell::Cell;
use std::io;
use std::io::{Read, Write};

/// What an output was handed last.
#[derive(Clone, Copy, Debug, PartialEq, Eq)]
pub enum Heard {
    Nothing,
    /// The line of a form.
    Answer,
}

/// An output that tells what was written to it.
#[derive(Drop)]
pub struct Answers<'a, O> {
    output: O,
    heard: &'a Cell<Heard>,
}

impl<'a, O> Answers<'a, O> {
    /// The output, and the cell of the input: a `Terminal` or a `Piped`.
    pub fn new(output: O, heard: &'a Cell<Heard>) -> Answers<'a, O>
        ensures { result.output ≡ output }
    {
        Answers { output, heard }
    }
}

impl<O: Write> Write for Answers<'_, O> {
    ghost contents = { λ a. O.contents a.output };

    fn write(&mut self, buf: &[u8]) -> io::Result<usize> {
        self.heard.set(Heard::Answer);
        self.output.write(buf)
    }

    fn flush(&mut self) -> io::Result<()> {
        self.output.flush()
    }
}

/// An input that is no terminal, of which it is known whether it gave text and nothing was answered. What the standard readtable takes for
/// comments is no text.
#[derive(Drop)]
pub struct Piped<'a, I> {
    input: I,
    heard: &'a Cell<Heard>,
    given: Given,
}

impl<'a, I> Piped<'a, I> {
    /// Before the first byte. The cell is that of the output's `Answers`.
    pub fn new(input: I, heard: &'a Cell<Heard>) -> Piped<'a, I>
        ensures { result.input ≡ input }
    {
        Piped {
            input,
            heard,
            given: Given::Nothing,
        }
    }
}

impl<I: Read> Read for Piped<'_, I> {
    ghost remaining = { λ p. I.remaining p.input };

    fn read(&mut self, buf: &mut [u8]) -> io::Result<usize> {
        let count = self.input.read(buf)?;
        self.given = self.given.after_all(&buf[..count]);
        Ok(count)
    }
}

impl<I: Places> Places for Piped<'_, I> {
    fn spot_at(&self, bytes: u64) -> Option<Spot> {
        self.input.spot_at(bytes)
    }

    fn byte_at(&self, bytes: u64) -> Option<u8> {
        self.input.byte_at(bytes)
    }

    fn note_refusal(&self, number: u16, place: Place) {
        self.input.note_refusal(number, place);
    }

    fn is_unanswered(&self) -> bool {
        self.given.is_text() && self.heard.get() == Heard::Nothing
    }
}
