//! Two files that somebody else may be writing.
ghost use Rattle.log_look.specs.Live.{GivesHead, GivesPiece, Watch};

use disk_trait::{DeviceFault, Half};

/// Two files of bytes that can be read while somebody else writes them.
///
/// What reads them claims to be honest or claims nothing. The clauses that begin with `IsHonestWatch` bind an honest one: what a read gives
/// is what was in the file when it was read. The bytes of one read need not have been there together.
pub trait LiveFiles {
    /// What the two files hold at each moment, and the moment that the reader has come to.
    ghost watch: { Self → Watch };

    /// Reads the first bytes of a half, sixteen at most, as they were at one moment: as many as the file had, up to the length of
    /// `buffer`. Answers how many.
    fn head(&mut self, half: Half, buffer: &mut [u8]) -> Result<usize, DeviceFault>
        ensures { GivesHead half buffer.old buffer.new (watch self.old) (watch self.new) result };

    /// Reads from offset `at` on, byte after byte: as many as the file has there, up to the length of `buffer`. Answers how many.
    fn read(&mut self, half: Half, at: u64, buffer: &mut [u8]) -> Result<usize, DeviceFault>
        ensures { GivesPiece half at buffer.old buffer.new (watch self.old) (watch self.new) result };
}
