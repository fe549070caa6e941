// A terminal: prompts before its lines, and sessions in a row.
ghost use Rattle.std.specs.Prelude.{◌≡◌};
ghost use Rattle.store_commands.specs.SessionsInRow.{DropsRestOfLine, DropsByte};

use crate::answers::Heard;
use crate::given::is_blank;
use arrayvec::ArrayVec;
use diagnostics::{Places, Refusal, Spot, write_text, write_unread};
use program_streams::{Prompts, Wish, wish_of};
use sessions::Place;
use std::alloc::Global;
use std::cell::Cell;
use std::io;
use std::io::{Read, Write};

/// The prompt before a line that begins a form.
const PROMPT: &[u8] = b"> ";

/// The prompt before a line inside a form.
const INNER_PROMPT: &[u8] = b". ";

const WELCOME: &[u8] =
    b"Type a form and Enter; help tells more, Ctrl-D ends. For editing lines: rlwrap before the command.\n";

const HELP: &[u8] =
    b"(SETF (GET 'APPLE 'PRICE) 7) sets a property, (GET 'APPLE 'PRICE) gives it, (SYMBOL-PLIST 'APPLE) gives all of a symbol.\nAn answer that begins with ! is a refusal: help 31 tells of the number 31, help GET of the operator GET.\nBeside this session the command with the word help has all commands, and docs/use/operators.md all operators.\nCtrl-D at the beginning of a line ends. Each answer is in the store by then.\n";

const BESIDE: &[u8] = b"Beside this session the command tells more, with the words help ";

const LEAVING: &[u8] = b"Ctrl-D at the beginning of a line ends.\n";

const UNANSWERED: &[u8] =
    b"Nothing was answered: a form is open, or the readtable makes comments of what is typed; --rescue reads under the standard one.\n";

/// After so many lines that leave a form open the terminal tells that nothing is answered.
const PATIENCE: u8 = 4;

const DROPPED: &[u8] = b"The rest of the line was dropped, and a new session begins.\n";

/// An input of sessions in a row, which tells the lines of places counted in the present one.
pub trait Sessions: Places {
    /// After a session that a refusal ended: whether another one follows. If so, the rest of the line was dropped, and the refusal
    /// was told.
    fn next_session(&mut self, refusal: &Refusal) -> bool
        ensures drops { DropsRestOfLine (Self.remaining self.old) (Self.remaining self.new) };
}

/// An input at a terminal. It is read byte by byte, so that it is known after which byte a form was answered, and a prompt is
/// written before each line. What is open is guessed from the answers, and nothing but the prompts depends on it.
#[derive(Drop)]
pub struct Terminal<'a, I, P> {
    alloc: Global,
    input: I,
    prompts: P,
    // what was answered since the last byte was given
    heard: &'a Cell<Heard>,
    line: Line,
    last: u8,
    // the line that is typed, if it is a short one
    typed: ArrayVec<u8, 64>,
    // how many lines were typed that left a form open since the last answer
    open_lines: u8,
    gave_text: bool,
    has_answered: bool,
    // how many bytes were given, and how many of them before the present session
    given: u64,
    start: u64,
    is_new: bool,
    has_ended: bool,
}

/// What the last line of a terminal left open.
#[derive(Clone, Copy, Debug, PartialEq, Eq)]
enum Line {
    /// Nothing.
    Closed,
    /// A comment.
    Comment,
    /// A form, or the token that it is.
    Open,
}

impl<'a, I, P> Terminal<'a, I, P> {
    /// Before the first line. The cell is that of the output's `Answers`.
    pub fn new(alloc: Global, input: I, prompts: P, heard: &'a Cell<Heard>) -> Terminal<'a, I, P>
        ensures { result.input ≡ input }
    {
        Terminal {
            alloc,
            input,
            prompts,
            heard,
            line: Line::Closed,
            last: b'\n',
            typed: ArrayVec::new(),
            open_lines: 0,
            gave_text: false,
            has_answered: false,
            given: 0,
            start: 0,
            is_new: true,
            has_ended: false,
        }
    }
}

impl<I, P: Prompts> Terminal<'_, I, P> {
    // Writes the prompt before a line, and before the first one how to go on and how to end.
    fn prompt(&mut self)
        ensures { self.new.input ≡ self.old.input }
    {
        if self.last != b'\n' {
            return;
        }
        if self.is_new {
            self.is_new = false;
            let _ = write_text(&mut self.prompts, WELCOME);
        }
        let prompt = match self.line {
            Line::Open => INNER_PROMPT,
            _ => PROMPT,
        };
        let _ = write_text(&mut self.prompts, prompt);
    }

    // Takes note of the end, and tells if nothing was answered.
    fn end(&mut self)
        ensures { self.new.input ≡ self.old.input }
    {
        self.has_ended = true;
        let _ = write_text(&mut self.prompts, b"\n");
        if self.gave_text && !self.has_answered {
            let _ = write_text(&mut self.prompts, UNANSWERED);
        }
    }

    // Takes note of a byte that is given.
    fn give(&mut self, byte: u8)
        ensures input { self.new.input ≡ self.old.input }
        ensures last { self.new.last ≡ byte }
    {
        self.given = self.given.saturating_add(1);
        self.last = byte;
        self.gave_text |= !is_blank(byte);
        if byte != b'\n' {
            // a longer line is no word that is looked for
            let _ = self.typed.try_push(byte);
        }
    }

    // What the last byte left open, and what is to be told of it.
    fn settle(&mut self)
        ensures { self.new.input ≡ self.old.input }
    {
        let heard = self.heard.get();
        self.heard.set(Heard::Nothing);
        if heard == Heard::Nothing {
            self.leave_open();
        } else {
            self.has_answered = true;
            self.open_lines = 0;
            // a token may be ended by the parenthesis that begins the next form
            self.line = if self.last == b'(' {
                Line::Open
            } else {
                Line::Closed
            };
            self.hint();
        }
        if self.last == b'\n' {
            self.typed.clear();
        }
    }

    // What a byte that was not answered left open.
    fn leave_open(&mut self)
        ensures { self.new.input ≡ self.old.input }
    {
        self.line = match (self.line, self.last) {
            (Line::Closed, b';') => Line::Comment,
            (Line::Comment, b'\n') => Line::Closed,
            (Line::Closed, b' ' | b'\t' | b'\r' | b'\n') => Line::Closed,
            (Line::Closed, _) => Line::Open,
            (line, _) => line,
        };
        if self.last == b'\n' && self.line == Line::Closed {
            // a form was answered before the line ended
            self.hint();
        }
        if self.last == b'\n' && self.line == Line::Open {
            self.open_lines = self.open_lines.saturating_add(1);
            if self.open_lines == PATIENCE {
                let _ = write_text(&mut self.prompts, UNANSWERED);
            }
        }
    }

    // Tells how to go on after an answer to a line that asks for help, or that would leave.
    fn hint(&mut self)
        ensures { self.new.input ≡ self.old.input }
    {
        if self.last != b'\n' {
            return;
        }
        match wish_of(self.typed.as_slice()) {
            Wish::Nothing => {}
            Wish::Help => {
                let _ = write_text(&mut self.prompts, HELP);
            }
            Wish::Leaving => {
                let _ = write_text(&mut self.prompts, LEAVING);
            }
            Wish::Page(word) => {
                if !self.prompts.write_page(word) {
                    let _ = write_text(&mut self.prompts, BESIDE);
                    let _ = write_text(&mut self.prompts, word);
                    let _ = write_text(&mut self.prompts, b"\n");
                }
            }
        }
    }
}

impl<I: Read, P: Prompts> Read for Terminal<'_, I, P> {
    ghost remaining = { λ t. I.remaining t.input };

    // Reads one byte. Before it, it notes what the byte before left open, and tells what a line asked to be told of; at
    // the beginning of a line it writes a prompt. At the end of the input it ends the line.
    fn read(&mut self, buf: &mut [u8]) -> io::Result<usize> {
        if buf.is_empty() {
            return self.input.read(buf);
        }
        self.settle();
        self.prompt();
        let count = self.input.read(&mut buf[..1])?;
        if count == 0 {
            self.end();
        } else {
            self.give(buf[0]);
        }
        Ok(count)
    }
}

impl<I: Read, P: Prompts> Terminal<'_, I, P> {
    // Drops a byte, and tells whether there was one.
    fn drop_byte(&mut self) -> bool
        ensures { DropsByte result self.new.last
            (I.remaining self.old.input) (I.remaining self.new.input) }
    {
        let mut byte = [0u8];
        match self.input.read(&mut byte) {
            Ok(1) => {
                self.give(byte[0]);
                true
            }
            _ => false,
        }
    }

    // Drops the rest of the line, and tells whether it had an end.
    fn drop_line(&mut self) -> bool
        ensures { DropsRestOfLine (I.remaining self.old.input) (I.remaining self.new.input) }
    {
        'line: for _ in 0..u64::MAX {
            if self.last == b'\n' {
                break;
            }
            if !self.drop_byte() {
                return false;
            }
        }
        true
    }
}

impl<I: Places, P: Prompts> Terminal<'_, I, P> {
    // Tells what could not be read, and where. Of a form that was read it is told already.
    fn tell_unread(&mut self, refusal: &Refusal)
        ensures { self.new.input ≡ self.old.input }
    {
        let place = Place {
            forms: refusal.place.forms,
            start: self.start.saturating_add(refusal.place.start),
            at: self.start.saturating_add(refusal.place.at),
        };
        let spot = self.input.spot_at(place.at);
        let number = refusal.number;
        let prompts = &mut self.prompts;
        let _ = write_unread(self.alloc, prompts, &self.input, number, place, spot);
    }
}

impl<I: Places, P: Prompts> Places for Terminal<'_, I, P> {
    fn spot_at(&self, bytes: u64) -> Option<Spot> {
        self.input.spot_at(self.start.checked_add(bytes)?)
    }

    fn byte_at(&self, bytes: u64) -> Option<u8> {
        self.input.byte_at(self.start.checked_add(bytes)?)
    }

    fn note_refusal(&self, number: u16, place: Place) {
        self.input.note_refusal(number, place);
    }
}

impl<I: Places, P: Prompts> Sessions for Terminal<'_, I, P> {
    fn next_session(&mut self, refusal: &Refusal) -> bool {
        if self.has_ended || !self.drop_line() {
            return false;
        }
        self.tell_unread(refusal);
        let _ = write_text(&mut self.prompts, DROPPED);
        self.start = self.given;
        self.line = Line::Closed;
        self.has_answered = true;
        self.open_lines = 0;
        self.typed.clear();
        self.heard.set(Heard::Nothing);
        true
    }
}
