//! What names and numbers are hashed with.
use std::hash::{BuildHasher, DefaultHasher, Hasher};
use std::io;
use std::random::RandomSource;

/// Makes hashers that begin with two words. Who does not know these cannot choose names that fall together.
#[derive(Clone, Copy)]
pub struct Seed {
    // The words are written to it.
    start: DefaultHasher,
}

impl Seed {
    /// A seed of the hashes of names, made of two words.
    pub fn new(first: u64, second: u64) -> Seed {
        let mut start = DefaultHasher::new();
        start.write_u64(first);
        start.write_u64(second);
        Seed { start }
    }

    /// The same seed each time: for names that are not chosen by others, and for tests.
    pub fn fixed() -> Seed {
        Seed::new(0x7061_7a74_7572_726f, 0x6b20_7061_636b_6167)
    }

    /// A seed that nobody can know.
    ///
    /// # Errors
    /// What the source answers if it has no random bytes.
    pub fn draw(source: &impl RandomSource) -> io::Result<Seed> {
        let mut bytes = [0; 16];
        source.fill_bytes(&mut bytes)?;
        let words = u128::from_le_bytes(bytes);
        Ok(Seed::new((words & 0xFFFF_FFFF_FFFF_FFFF) as u64, (words >> 64) as u64))
    }
}

impl BuildHasher for Seed {
    type Hasher = DefaultHasher;

    ghost build_hasher = { λ s. s.start };

    #[inline(always)]
    fn build_hasher(&self) -> DefaultHasher {
        self.start
    }
}
