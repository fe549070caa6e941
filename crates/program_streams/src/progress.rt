//! Tells how much of an input was read.
ghost use Rattle.std.specs.Prelude.{◌≡◌};

use arrayvec::ArrayString;
use std::cell::Cell;
use std::fmt::Write as WriteText;
use std::io::{Read, Write};
use std::time::{Clock, Duration};
use std::{fmt, io};

/// Before so many milliseconds nothing is told.
const PATIENCE: u64 = 1_000;

/// After so many more it is told anew.
const INTERVAL: u64 = 500;

/// To the beginning of the line, and the line away.
const CLEAR: &str = "\r\x1b[K";

/// An input that is no terminal, at a terminal: after a second a line tells how much of it was read, and how long the rest will take.
#[derive(Drop)]
pub struct Progress<'a, R, I, T> {
    input: I,
    clock: &'a R,
    terminal: T,
    /// Whether the line stands there.
    stands: &'a Cell<bool>,
    whole: Option<u64>,
    given: u64,
    /// When it began, if there is a clock.
    began: Option<Duration>,
    /// When it is told next.
    next: Duration,
}

impl<'a, R: Clock, I, T> Progress<'a, R, I, T> {
    /// An input of which nothing was read yet, of `whole` bytes if that is known. `stands` says whether the line of it stands at the terminal;
    /// the `Cleared` of that terminal has the same cell.
    pub fn new(
        clock: &'a R,
        input: I,
        terminal: T,
        stands: &'a Cell<bool>,
        whole: Option<u64>,
    ) -> Progress<'a, R, I, T>
        ensures { result.input ≡ input }
    {
        let began = clock.monotonic().ok();
        Progress {
            input,
            clock,
            terminal,
            stands,
            whole,
            given: 0,
            began,
            next: Duration::from_millis(PATIENCE),
        }
    }
}

impl<'a, R, I, T> Progress<'a, R, I, T> {
    /// The same, of which nothing is told.
    pub fn silent(
        clock: &'a R,
        input: I,
        terminal: T,
        stands: &'a Cell<bool>,
    ) -> Progress<'a, R, I, T>
        ensures { result.input ≡ input }
    {
        Progress {
            input,
            clock,
            terminal,
            stands,
            whole: None,
            given: 0,
            began: None,
            next: Duration::from_millis(PATIENCE),
        }
    }
}

impl<R: Clock, I, T: Write> Progress<'_, R, I, T> {
    // Tells how far it is, if it is time.
    fn tell(&mut self)
        ensures { self.new.input ≡ self.old.input }
    {
        let Some(passed) = self.passed() else {
            return;
        };
        if passed < self.next {
            return;
        }
        self.next = passed.saturating_add(Duration::from_millis(INTERVAL));
        let mut line = ArrayString::<160>::new();
        let Ok(()) = push_line(&mut line, self.given, self.whole, passed.as_secs()) else {
            return;
        };
        self.stands.set(true);
        let _ = self.terminal.write_all(line.as_bytes());
    }

    // How long it has been.
    fn passed(&self) -> Option<Duration> {
        let began = self.began?;
        let now = self.clock.monotonic().ok()?;
        Some(now.saturating_sub(began))
    }
}

// The line after so many bytes and seconds.
fn push_line(
    line: &mut ArrayString<160>,
    given: u64,
    whole: Option<u64>,
    seconds: u64,
) -> fmt::Result {
    let megabytes = given / 1_000_000;
    write!(line, "{CLEAR}{megabytes} MB read")?;
    if let Some(whole) = whole {
        push_rest(line, given, whole, seconds)?;
    }
    write!(line, " in {seconds} s")
}

// How much of the whole that is, and how long the rest will take.
fn push_rest(line: &mut ArrayString<160>, given: u64, whole: u64, seconds: u64) -> fmt::Result {
    let of = whole / 1_000_000;
    write!(line, " of {of} MB")?;
    let Some(left) = left_of(given, whole, seconds) else {
        return Ok(());
    };
    write!(line, ", {left} s more,")
}

// How many seconds the rest will take.
fn left_of(given: u64, whole: u64, seconds: u64) -> Option<u128> {
    let rest = u128::from(whole.checked_sub(given)?);
    (rest * u128::from(seconds)).checked_div(u128::from(given))
}

impl<R: Clock, I: Read, T: Write> Read for Progress<'_, R, I, T> {
    ghost remaining = { λ p. I.remaining p.input };

    fn read(&mut self, buf: &mut [u8]) -> io::Result<usize> {
        self.tell();
        let count = self.input.read(buf)?;
        self.given = self.given.saturating_add(count as u64);
        Ok(count)
    }
}

/// A writer at the same terminal: before it writes it takes the line away.
#[derive(Drop)]
pub struct Cleared<'a, T> {
    terminal: T,
    stands: &'a Cell<bool>,
}

impl<'a, T> Cleared<'a, T> {
    /// A writer to the terminal at which a `Progress` has its line, which has the same cell.
    pub fn new(terminal: T, stands: &'a Cell<bool>) -> Cleared<'a, T> {
        Cleared { terminal, stands }
    }
}

impl<T: Write> Cleared<'_, T> {
    /// Takes the line away, if it stands there.
    pub fn clear(&mut self) {
        if self.stands.get() {
            self.stands.set(false);
            let _ = self.terminal.write_all(CLEAR.as_bytes());
        }
    }
}

impl<T: Write> Write for Cleared<'_, T> {
    ghost use Rattle.std.specs.Prelude.{None};

    // of a terminal nothing is told
    ghost contents = { λ _. None };

    fn write(&mut self, buf: &[u8]) -> io::Result<usize> {
        self.clear();
        self.terminal.write(buf)
    }

    fn flush(&mut self) -> io::Result<()> {
        self.terminal.flush()
    }
}
