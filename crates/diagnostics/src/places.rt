// Lines and columns of an input.
ghost use Rattle.std.specs.Prelude.{◌≡◌, ◌+◌, ◌≤◌, ℕ, List, [], ◌∷◌, ◌++◌, length, take, IfSome};
ghost use Rattle.diagnostics.specs.Places.{IsSpotBehind, IsMovedFrom, IsSpotAfter, GivenKeeps};

use sessions::Place;
use std::alloc::{AllocError, Global};
use std::cell::{Cell, RefCell};
use std::io::Read;
use std::{io, mem};

/// Of what was given so many bytes are kept at least: those of a form, and of the read in which it ended.
const KEPT: usize = 1_064_960;

/// A place in a text.
#[derive(Clone, Copy, Debug, PartialEq, Eq)]
pub struct Spot {
    /// How many bytes come before it.
    pub bytes: u64,
    /// Its line, counted from 1.
    pub line: u64,
    /// Its column, in bytes, counted from 1.
    pub column: u64,
}

/// An input whose lines can be told.
pub trait Places: Read {
    /// The place after so many bytes of it, if that is known.
    fn spot_at(&self, bytes: u64) -> Option<Spot>;

    /// The byte after so many bytes of it, if that is known.
    fn byte_at(&self, _bytes: u64) -> Option<u8> {
        None
    }

    /// Takes note of the refusal that ended a session over it.
    fn note_refusal(&self, _number: u16, _place: Place) {}

    /// Whether it is known that text was given, and nothing of it answered.
    fn is_unanswered(&self) -> bool {
        false
    }
}

/// An input that keeps the last bytes that it gave, where others may ask for places while it is read.
#[derive(Drop)]
pub struct Lines<'a, I> {
    input: I,
    history: &'a History,
}

/// What an input gave last, and the refusal that ended the last session that one has ended.
#[derive(Drop)]
pub struct History {
    given: RefCell<GivenBytes>,
    refused: Cell<Option<(u16, Place)>>,
}

/// What was given: the place before the bytes that are kept, unless it is lost, and these in two parts.
#[derive(Drop)]
pub(crate) struct GivenBytes {
    before: Option<Spot>,
    older: Vec<u8>,
    newer: Vec<u8>,
}

impl Spot {
    /// The beginning of a text.
    pub fn first() -> Spot
        ensures { IsSpotAfter result [] }
    {
        Spot {
            bytes: 0,
            line: 1,
            column: 1,
        }
    }

    // The place after one byte more; None where a count would pass 64 bits.
    fn after(self, byte: u8) -> Option<Spot>
        ensures { IfSome result (IsSpotBehind self (byte ∷ [])) }
    {
        let bytes = self.bytes.checked_add(1)?;
        let (line, column) = if byte == b'\n' {
            (self.line.checked_add(1)?, 1)
        } else {
            (self.line, self.column.checked_add(1)?)
        };
        Some(Spot {
            bytes,
            line,
            column,
        })
    }

    /// After the bytes of a text more, unless there are more than a number of 64 bits counts.
    pub fn through(self, text: &[u8]) -> Option<Spot>
        ensures { IfSome result (IsSpotBehind self text.now) }
    {
        let mut spot = self;
        'bytes: for byte in text {
            spot = spot.after(*byte)?;
        }
        Some(spot)
    }

    // After so many bytes of two texts more, if they have so many.
    fn through_two(self, one: &[u8], other: &[u8], count: usize) -> Option<Spot>
        ensures { IfSome result (λ spot. (count ≤ length (one.now ++ other.now))
            × IsSpotBehind self (take count (one.now ++ other.now)) spot) }
    {
        if count <= one.len() {
            return self.through(&one[..count]);
        }
        let rest = count - one.len();
        if rest > other.len() {
            return None;
        }
        self.through(one)?.through(&other[..rest])
    }
}

impl GivenBytes {
    /// Nothing yet.
    pub(crate) fn new(alloc: Global) -> GivenBytes
        ensures { GivenKeeps result [] }
    {
        GivenBytes {
            before: Some(Spot::first()),
            older: Vec::new(alloc),
            newer: Vec::new(alloc),
        }
    }

    /// A piece more. If there is no memory for it, no place is known any more.
    pub(crate) fn note(&mut self, piece: &[u8])
        ensures { (bytes : List ℕ) → GivenKeeps self.old bytes → GivenKeeps self.new (bytes ++ piece.now) }
    {
        if self.newer.len() >= KEPT {
            self.let_go();
        }
        self.add(piece);
    }

    // Lets the older bytes go.
    fn let_go(&mut self)
        ensures { (bytes : List ℕ) → GivenKeeps self.old bytes → GivenKeeps self.new bytes }
    {
        self.before = passed(self.before, self.older.as_slice());
        mem::swap(&mut self.older, &mut self.newer);
        self.newer.clear();
    }

    // Keeps a piece more; without memory for it nothing is known.
    fn add(&mut self, piece: &[u8])
        ensures { (bytes : List ℕ) → GivenKeeps self.old bytes → GivenKeeps self.new (bytes ++ piece.now) }
    {
        match self.newer.extend_from_slice(piece) {
            Ok(()) => {}
            Err(AllocError) => self.before = None,
        }
    }

    /// The place after so many bytes of what was given, if it is known.
    pub(crate) fn spot_at(&self, bytes: u64) -> Option<Spot>
        ensures { (given : List ℕ) → GivenKeeps self.now given
            → IfSome result (λ spot. (bytes ≤ length given) × IsSpotAfter spot (take bytes given)) }
    {
        let before = self.before?;
        let count = bytes_between(before.bytes, bytes)?;
        before.through_two(self.older.as_slice(), self.newer.as_slice(), count)
    }

    /// The byte after so many bytes of what was given, if it is kept.
    pub(crate) fn byte_at(&self, bytes: u64) -> Option<u8> {
        let before = self.before?;
        let count = bytes_between(before.bytes, bytes)?;
        match count.checked_sub(self.older.len()) {
            Some(count) => self.newer.as_slice().get(count).copied(),
            None => self.older.as_slice().get(count).copied(),
        }
    }
}

// How many bytes lie between these two places; None where the second lies before the first.
fn bytes_between(from: u64, to: u64) -> Option<usize>
    ensures { IfSome result (λ count. to ≡ from + count) }
{
    usize::try_from(to.checked_sub(from)?).ok()
}

// The place after a text more, if it is known.
fn passed(before: Option<Spot>, text: &[u8]) -> Option<Spot>
    ensures { IfSome result (IsMovedFrom before text.now) }
{
    before?.through(text)
}

impl History {
    /// No byte was read yet.
    pub fn new(alloc: Global) -> History {
        History {
            given: RefCell::new(GivenBytes::new(alloc)),
            refused: Cell::new(None),
        }
    }

    // A piece more.
    fn note(&self, piece: &[u8]) {
        if let Ok(mut given) = self.given.try_borrow_mut() {
            given.note(piece);
        }
    }

    /// The place after so many bytes of what was given, if it is known.
    pub fn spot_at(&self, bytes: u64) -> Option<Spot> {
        match self.given.try_borrow() {
            Ok(given) => given.spot_at(bytes),
            Err(_) => None,
        }
    }

    /// The byte after so many bytes of what was given, if it is known.
    pub fn byte_at(&self, bytes: u64) -> Option<u8> {
        match self.given.try_borrow() {
            Ok(given) => given.byte_at(bytes),
            Err(_) => None,
        }
    }

    /// The refusal that ended a session over the input last, if one was ended by one, and its place there.
    pub fn refused(&self) -> Option<(u16, Place)> {
        self.refused.get()
    }
}

impl<'a, I> Lines<'a, I> {
    /// An input of which nothing is read yet. What it gives is noted in the history.
    pub fn new(input: I, history: &'a History) -> Lines<'a, I>
        ensures { result.input ≡ input }
    {
        Lines { input, history }
    }
}

impl<I: Read> Read for Lines<'_, I> {
    ghost remaining = { λ lines. I.remaining lines.input };

    fn read(&mut self, buf: &mut [u8]) -> io::Result<usize> {
        let count = self.input.read(buf)?;
        self.history.note(&buf[..count]);
        Ok(count)
    }
}

impl<I: Read> Places for Lines<'_, I> {
    fn spot_at(&self, bytes: u64) -> Option<Spot> {
        self.history.spot_at(bytes)
    }

    fn byte_at(&self, bytes: u64) -> Option<u8> {
        self.history.byte_at(bytes)
    }

    fn note_refusal(&self, number: u16, place: Place) {
        self.history.refused.set(Some((number, place)));
    }
}
