// An output that may fail before its end, as its reader goes or there is no room.
use std::cell::Cell;
use std::io;
use std::io::{ErrorKind, Write};

/// An output that takes note of why it takes no more: its reader has gone, as `head` goes after its lines, or there is no room.
#[derive(Drop)]
pub struct Pipe<'a, W> {
    output: W,
    failure: &'a Cell<Option<ErrorKind>>,
}

impl<'a, W> Pipe<'a, W> {
    /// The cell gets the kind of the last failure of the output.
    pub fn new(output: W, failure: &'a Cell<Option<ErrorKind>>) -> Pipe<'a, W> {
        Pipe { output, failure }
    }
}

impl<W: Write> Write for Pipe<'_, W> {
    ghost contents = { λ pipe. W.contents pipe.output };

    fn write(&mut self, buf: &[u8]) -> io::Result<usize> {
        match self.output.write(buf) {
            Err(error) => {
                self.failure.set(Some(error.kind()));
                Err(error)
            }
            written => written,
        }
    }

    fn flush(&mut self) -> io::Result<()> {
        match self.output.flush() {
            Err(error) => {
                self.failure.set(Some(error.kind()));
                Err(error)
            }
            flushed => flushed,
        }
    }
}

/// Whether the reader of an output has gone that failed so.
pub fn has_lost_reader(failure: Option<ErrorKind>) -> bool {
    failure == Some(ErrorKind::BrokenPipe)
}

/// A writer of what is told beside the output of a `Pipe`: once its reader has gone nothing is told any more.
#[derive(Drop)]
pub struct BesidePipe<'a, W> {
    writer: W,
    failure: &'a Cell<Option<ErrorKind>>,
}

impl<'a, W> BesidePipe<'a, W> {
    /// The cell is that of the `Pipe`.
    pub fn new(writer: W, failure: &'a Cell<Option<ErrorKind>>) -> BesidePipe<'a, W> {
        BesidePipe { writer, failure }
    }
}

impl<W: Write> Write for BesidePipe<'_, W> {
    ghost use Rattle.std.specs.Prelude.{None};

    // what is told may be left out
    ghost contents = { λ _. None };

    fn write(&mut self, buf: &[u8]) -> io::Result<usize> {
        if has_lost_reader(self.failure.get()) {
            return Ok(buf.len());
        }
        self.writer.write(buf)
    }

    fn flush(&mut self) -> io::Result<()> {
        self.writer.flush()
    }
}
