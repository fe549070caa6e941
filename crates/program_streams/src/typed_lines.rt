// What a terminal hands on of the lines that are typed.
use std::io;
use std::io::{Read, Write};

/// So many bytes a terminal of Linux hands on of a line, with its newline.
const LONGEST: usize = 4096;

const CUT: &[u8] =
    b"A terminal hands on 4,095 bytes of a line, and dropped the rest of this one, so the form that was begun is not whole.\nCtrl-C ends the session, and the store gets nothing of that form. Write it in shorter lines, or send it from a file: run DIR < FILE\n";

/// An input at a terminal, which tells of each line that the terminal has cut.
#[derive(Drop)]
pub struct TypedLines<I, T> {
    input: I,
    terminal: T,
    // How many bytes of the line that is open were read, which may come in several reads.
    length: usize,
}

impl<I, T> TypedLines<I, T> {
    /// What it tells goes to `terminal`.
    pub fn new(input: I, terminal: T) -> TypedLines<I, T> {
        TypedLines {
            input,
            terminal,
            length: 0,
        }
    }
}

impl<I: Read, T: Write> Read for TypedLines<I, T> {
    ghost remaining = { λ lines. I.remaining lines.input };

    fn read(&mut self, buf: &mut [u8]) -> io::Result<usize> {
        let count = self.input.read(buf)?;
        let length = self.length.saturating_add(count);
        if count > 0 && buf.get(count - 1) == Some(&b'\n') {
            self.length = 0;
            if length == LONGEST {
                let _ = self.terminal.write_all(CUT);
            }
        } else {
            self.length = length;
        }
        Ok(count)
    }
}
