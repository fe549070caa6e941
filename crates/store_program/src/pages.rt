//! Where prompts go, and what the pages say.
use program_streams::Prompts;
use std::io::{Stderr, Write};
use std::path::Path;
use std::{env, fs, io};

/// The variable of the environment that names a file with what the pages say: of each word a line that begins so, and the lines on it.
const PAGES: &str = "PAZTURROK_PAGES";

const HEAD: u8 = b'@';

/// Standard error, with what the pages say of operators and of the numbers of refusals, if that is at hand.
#[derive(Drop)]
pub struct Pages {
    text: Option<Vec<u8>>,
    stream: Stderr,
}

impl Pages {
    /// The file is read, if one is named.
    pub fn new(rt: &HostRuntime) -> Pages {
        Pages {
            text: text_of_pages(rt),
            stream: rt.stderr(),
        }
    }
}

// The file, if there is one.
fn text_of_pages(rt: &HostRuntime) -> Option<Vec<u8>> {
    let name = env::var(rt, PAGES).ok()?;
    fs::read(rt, Path::new(name.as_str())).ok()
}

impl Write for Pages {
    ghost use Rattle.std.specs.Prelude.{None};

    ghost contents = { λ _. None };

    fn write(&mut self, buf: &[u8]) -> io::Result<usize> {
        self.stream.write(buf)
    }

    fn flush(&mut self) -> io::Result<()> {
        self.stream.flush()
    }
}

impl Prompts for Pages {
    fn write_page(&mut self, word: &[u8]) -> bool {
        match &self.text {
            Some(text) => {
                write_page_of(&mut self.stream, text.as_slice(), word);
                true
            }
            None => false,
        }
    }
}

// Writes what the pages say of a word, or that they say nothing.
fn write_page_of<W: Write>(stream: &mut W, text: &[u8], word: &[u8]) {
    let text = match text {
        [front @ .., b'\n'] => front,
        text => text,
    };
    let mut is_asked = false;
    let mut is_known = false;
    for line in text.split(|byte| *byte == b'\n') {
        match line {
            [HEAD, b' ', known @ ..] => is_asked = known.eq_ignore_ascii_case(word),
            _ if is_asked => {
                is_known = true;
                let _ = stream.write_all(line);
                let _ = stream.write_all(b"\n");
            }
            _ => {}
        }
    }
    if !is_known {
        let _ = stream.write_all(b"there is no operator and no number ");
        let _ = stream.write_all(word);
        let _ = stream.write_all(b"; help tells of a first form\n");
    }
}
