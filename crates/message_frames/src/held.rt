//! The bytes of frames that come in pieces.
ghost use Rattle.std.specs.Prelude.{◌≡◌, ◌≤◌, ◌<◌, ◌++◌, [], length, drop, IfOk, OnErr, OnOk};
ghost use Rattle.message_frames.specs.WholeFrames.{AreWhole};

use crate::frame::{MessageFrame, first_frame};
use crate::words::NotWhole;
use std::alloc::{AllocError, Global};
use std::marker::Model;

/// Bytes that came and were not passed yet.
#[derive(Drop)]
pub struct Held {
    bytes: Vec<u8>,
    passed: usize,
}

impl Model for Held {
    ghost use Rattle.std.specs.Prelude.{ℕ, List, ◌≤◌, drop, length};

    ghost Value = { List ℕ };

    ghost view = { λ held. drop held.passed held.bytes.items };

    ghost invariant = { λ held. held.passed ≤ length held.bytes.items };
}

/// What comes after frames.
#[derive(Clone, Copy, Debug, PartialEq, Eq)]
pub enum Next {
    /// Nothing, or the beginning of a frame.
    Begun,
    /// No frame, however the bytes go on.
    Malformed,
    /// Nobody looked: these were as many as were wanted.
    Unread,
}

impl From<NotWhole> for Next {
    ghost use Rattle.message_frames.specs.WholeFrames.{next_after};

    ghost from_gives = { λ fault next. next ≡ next_after fault };

    fn from(fault: NotWhole) -> Next {
        match fault {
            NotWhole::Begun => Next::Begun,
            NotWhole::Malformed => Next::Malformed,
        }
    }
}

/// Frames that stand whole in bytes, one after the other, how many bytes they take, and what comes after them.
#[derive(Drop)]
pub struct Whole<'a> {
    pub frames: Vec<MessageFrame<'a>>,
    pub bytes: usize,
    pub next: Next,
}

impl Held {
    /// No bytes are held.
    pub fn new(alloc: Global) -> Held
        ensures { result ≡ [] }
    {
        Held {
            bytes: Vec::new(alloc),
            passed: 0,
        }
    }

    /// Adds a piece. What was passed is let go, so each byte is moved once at most. After an error, want of memory
    /// alone, the bytes are as they were.
    pub fn feed(&mut self, piece: &[u8]) -> Result<(), AllocError>
        ensures fed { OnOk result (self.new ≡ self.old ++ piece.now) }
        ensures unchanged { OnErr result (self.new ≡ self.old) }
    {
        let rest = self.bytes.len() - self.passed;
        self.bytes.rotate_left(self.passed);
        self.bytes.truncate(rest);
        self.passed = 0;
        self.bytes.extend_from_slice(piece)
    }

    /// The bytes that are held, without those that are done with.
    pub fn bytes(&self) -> &[u8]
        ensures { result.now ≡ self.now }
    {
        &self.bytes[self.passed..]
    }

    /// So many bytes are done with.
    pub fn pass(&mut self, count: usize)
        requires { count ≤ length self.old }
        ensures { self.new ≡ drop count self.old }
    {
        self.passed += count;
    }

    /// The frames that stand whole in the bytes, one after the other, at most so many, and of texts of at most so many bytes.
    pub fn frames(&self, alloc: Global, limit: usize, most: usize) -> Result<Whole<'_>, AllocError>
        ensures whole { IfOk result (AreWhole limit most self.now) }
    {
        frames_in(alloc, self.bytes(), limit, most)
    }
}

// The frames that bytes begin with.
fn frames_in(
    alloc: Global,
    bytes: &[u8],
    limit: usize,
    most: usize,
) -> Result<Whole<'_>, AllocError>
    ensures whole { IfOk result (AreWhole limit most bytes.now) }
{
    let mut frames = Vec::new(alloc);
    let mut rest = bytes;
    'frames: while frames.len() < most {
        match first_frame(rest, limit) {
            Ok((frame, after)) => {
                frames.push(frame)?;
                rest = after;
            }
            Err(fault) => {
                let next = Next::from(fault);
                let bytes = bytes.len() - rest.len();
                return Ok(Whole {
                    frames,
                    bytes,
                    next,
                });
            }
        }
    }
    let next = Next::Unread;
    let bytes = bytes.len() - rest.len();
    Ok(Whole {
        frames,
        bytes,
        next,
    })
}
