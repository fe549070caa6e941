// Streams of the system, on which a signal ends no session.
ghost use Rattle.std.specs.Prelude.{◌≡◌, ◌≢◌, IfErr};
ghost use Rattle.std.specs.Io.{ReadsAtMost, WritesAtMost};
ghost use Rattle.std.specs.Io.KnownBytes.{ReadConsumes, WriteAppends};
ghost use Rattle.std.specs.IoError.{error_kind};

use std::io;
use std::io::{ErrorKind, Read, Write};

/// A stream of which a call that a signal interrupts is made again. Nothing was read or written by it then.
#[derive(Drop)]
pub struct Uninterrupted<S> {
    stream: S,
}

impl<S> Uninterrupted<S> {
    /// The same stream, whose calls are made again where they were interrupted.
    pub fn new(stream: S) -> Uninterrupted<S>
        ensures { result.stream ≡ stream }
    {
        Uninterrupted { stream }
    }
}

impl<S: Read> Read for Uninterrupted<S> {
    ghost remaining = { λ u. S.remaining u.stream };

    fn read(&mut self, buf: &mut [u8]) -> io::Result<usize>
        ensures bound { ReadsAtMost result buf.new }
        ensures bytes { ReadConsumes (S.remaining self.old.stream) (S.remaining self.new.stream)
            result buf.new }
        ensures again { IfErr result (λ error. error_kind error ≢ ErrorKind.Interrupted) }
    {
        'again: for _ in 0..u64::MAX {
            match self.stream.read(buf) {
                Err(error) if error.kind() == ErrorKind::Interrupted => {}
                answer => return answer,
            }
        }
        Err(ErrorKind::TimedOut.into())
    }
}

impl<S: Write> Write for Uninterrupted<S> {
    ghost contents = { λ u. S.contents u.stream };

    fn write(&mut self, buf: &[u8]) -> io::Result<usize>
        ensures bound { WritesAtMost result buf.now }
        ensures bytes { WriteAppends (S.contents self.old.stream) (S.contents self.new.stream)
            result buf.now }
        ensures again { IfErr result (λ error. error_kind error ≢ ErrorKind.Interrupted) }
    {
        'again: for _ in 0..u64::MAX {
            match self.stream.write(buf) {
                Err(error) if error.kind() == ErrorKind::Interrupted => {}
                answer => return answer,
            }
        }
        Err(ErrorKind::TimedOut.into())
    }

    fn flush(&mut self) -> io::Result<()> {
        self.stream.flush()
    }
}
