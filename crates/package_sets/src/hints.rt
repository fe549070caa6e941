//! Guesses at the numbers of names, by a few of their bytes.
use std::alloc::{AllocError, Global};

/// The place of no name.
const NONE: u32 = 0xFFFF_FFFF;

/// For so many names there are guesses first.
const FIRST_PLACES: usize = 256;

/// So many bytes at the end of a name tell its place.
const LOOKED_AT: usize = 8;

/// For each place the number of the first name that fell there. A guess may be wrong: whoever takes it compares the names. So
/// names that are chosen to fall together gain nothing but that they are hashed.
#[derive(Drop)]
pub(crate) struct Hints {
    numbers: Vec<u32>,
}

impl Hints {
    /// No guesses.
    pub(crate) fn new(alloc: Global) -> Hints {
        Hints {
            numbers: Vec::new(alloc),
        }
    }

    /// The same guesses, on their own memory.
    pub(crate) fn copy(&self) -> Result<Hints, AllocError> {
        let numbers = self.numbers.clone()?;
        Ok(Hints { numbers })
    }

    /// Whether there is no place for the name of this number.
    pub(crate) fn is_narrow(&self, number: u32) -> bool {
        self.numbers.len() <= number as usize
    }

    /// Twice as many places, in which no name is yet.
    pub(crate) fn wider(&self, alloc: Global) -> Result<Hints, AllocError> {
        let count = self.numbers.len().saturating_mul(2).max(FIRST_PLACES);
        let numbers = vec![in alloc; NONE; count]?;
        Ok(Hints { numbers })
    }

    /// The number that a name may have.
    #[inline(always)]
    pub(crate) fn guess(&self, name: &[u8]) -> Option<u32> {
        match self.numbers.get(place(name, self.numbers.len())) {
            Some(number) => Some(*number),
            None => None,
        }
    }

    /// Notes a name that has this number now, and is the last, where no earlier name is at its place.
    pub(crate) fn note(&mut self, name: &[u8], number: u32) {
        let count = self.numbers.len();
        if let Some(noted) = self.numbers.get_mut(place(name, count)) {
            if *noted > number {
                *noted = number;
            }
        }
    }
}

/// The place of a name among so many, which are a power of two.
#[inline(always)]
fn place(name: &[u8], count: usize) -> usize {
    if count == 0 {
        return 0;
    }
    let first = name.len().saturating_sub(LOOKED_AT);
    let mut mixed = 0x811C_9DC5u32;
    for c in &name[first..] {
        mixed = (mixed ^ u32::from(*c)).wrapping_mul(0x0100_0193);
    }
    mixed as usize & (count - 1)
}
