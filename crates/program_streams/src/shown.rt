// Text of somebody else's that goes to a terminal.
use std::{fmt, io};

/// A writer of text that shows each control character but the newline by its number in base 16, so that no terminal obeys it.
#[derive(Drop)]
pub struct ShownText<'a, W> {
    writer: &'a mut W,
}

impl<'a, W> ShownText<'a, W> {
    /// Writes to this writer, and shows what a terminal may obey in another way.
    pub fn new(writer: &'a mut W) -> ShownText<'a, W> {
        ShownText { writer }
    }
}

/// Whether a terminal may obey it: a control character of ASCII or of Latin-1.
fn is_obeyed(c: char) -> bool {
    (c < ' ' && c != '\n') || ('\x7f' <= c && c <= '\u{9f}')
}

impl<W: io::Write> fmt::Write for ShownText<'_, W> {
    fn write_str(&mut self, text: &str) -> fmt::Result {
        for c in text.chars() {
            let written = if is_obeyed(c) {
                write!(self.writer, "\\x{:02x}", c as u32)
            } else {
                write!(self.writer, "{c}")
            };
            if written.is_err() {
                return Err(fmt::Error);
            }
        }
        Ok(())
    }
}
