// The refusals among answers, and how many answers there were.
use program_streams::{Counts, Refusals};
use std::alloc::Global;
use std::cell::Cell;
use std::io;
use std::io::Write;

/// An output of answers, of which it hands on the refusals alone. A cell tells how many answers it was handed.
#[derive(Drop)]
pub(crate) struct Counted<'a, O> {
    output: Refusals<O>,
    counts: &'a Cell<Counts>,
}

impl<'a, O> Counted<'a, O> {
    /// Before the first answer.
    pub(crate) fn new(alloc: Global, output: O, counts: &'a Cell<Counts>) -> Counted<'a, O> {
        Counted {
            output: Refusals::new(alloc, output),
            counts,
        }
    }
}

impl<O: Write> Write for Counted<'_, O> {
    ghost use Rattle.std.specs.Prelude.{None};

    // what is no refusal is left out
    ghost contents = { λ _. None };

    fn write(&mut self, buf: &[u8]) -> io::Result<usize> {
        let written = self.output.write(buf);
        self.counts.set(self.output.counts());
        written
    }

    fn flush(&mut self) -> io::Result<()> {
        self.output.flush()
    }
}
