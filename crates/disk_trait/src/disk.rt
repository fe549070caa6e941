// A disk as the log sees it: two files of bytes, of which a crash may leave less than a read gives.
ghost use Rattle.std.specs.Prelude.{◌≡◌, ◌<◌, ◌-◌, ◌^◌};
ghost use Rattle.disk_trait.specs.Calls.{CutsFile, GivesBytes, GivesLength, IsWithinFile, SyncsFile, WritesBytes};
ghost use Rattle.disk_trait.specs.Disk.{State, IsHonest, IsSoundDisk};

use crate::Half;
use thiserror::Error;

/// A call of the device failed. It may have done any part of its work; a sync that failed has synced nothing.
#[derive(Clone, Copy, Debug, PartialEq, Eq, Error)]
#[error("the device failed")]
pub struct DeviceFault;

/// Two files of bytes. What is written lasts through a crash only after a sync of its half.
///
/// A disk claims to be honest or claims nothing. The clauses that begin with `IsHonest` bind an honest one;
/// the others bind every disk.
///
/// # Before you claim that a disk is honest
///
/// The clauses bound what a crash leaves from above: an image that they do not allow is never left. They ask for no
/// torn image, and a disk whose writes last as soon as they return is honest too. So what is to be checked of a device
/// is that it leaves nothing else: of a write any bytes in its range and past the old end any number of them, of a cut
/// any bytes up to the old end (`torn_images`), and every other byte as it was.
///
/// A disk may claim besides that its writes mix (`mixes`): then of a write it leaves each byte as it was or as it was to be, and past the
/// old end 0 or as it was to be. That is less than any bytes, so all that is proved of an honest disk holds of one that mixes.
///
/// A crash inside a call leaves what one before the call might have left, or what one after it may leave. So what a
/// call may leave half done has to be among what may be left after it, until a sync: a device whose writes last as they
/// return, but may tear while they are made, is told as one that may tear until the next sync.
pub trait Disk {
    /// What the disk holds, what a crash may leave of it, and how often it has failed.
    ghost state: { Self → State };

    /// How often a call of this disk has failed.
    fn failures(&self) -> u64
        ensures { result ≡ (state self.now).failures };

    /// Whether it claims that its writes mix: if it is honest, a write that a crash cuts short leaves of each byte the old one or the
    /// new one. No call changes it.
    fn mixes(&self) -> bool
        ensures { result ≡ (state self.now).mixes };

    /// The length of a half's file in bytes.
    fn len(&mut self, half: Half) -> Result<u64, DeviceFault>
        requires { (state self.old).failures < 2 ^ 64 - 1 }
        ensures { GivesLength half (state self.old) (state self.new) result };

    /// Reads from offset `at` on: as many bytes as the file has there, up to the length of `buffer`.
    /// Answers how many.
    fn read(&mut self, half: Half, at: u64, buffer: &mut [u8]) -> Result<usize, DeviceFault>
        requires { (state self.old).failures < 2 ^ 64 - 1 }
        ensures { GivesBytes half at buffer.old buffer.new
            (state self.old) (state self.new) result };

    /// Writes `bytes` from offset `at` on, over what is there and past the end.
    fn write_at(&mut self, half: Half, at: u64, bytes: &[u8]) -> Result<(), DeviceFault>
        requires count { (state self.old).failures < 2 ^ 64 - 1 }
        requires within { IsWithinFile half at (state self.old) }
        ensures { WritesBytes half at bytes.now (state self.old) (state self.new) result };

    /// Cuts a half's file to `len` bytes.
    fn cut(&mut self, half: Half, len: u64) -> Result<(), DeviceFault>
        requires count { (state self.old).failures < 2 ^ 64 - 1 }
        requires within { IsWithinFile half len (state self.old) }
        ensures { CutsFile half len (state self.old) (state self.new) result };

    /// After it a crash leaves of this half what a read gives.
    fn sync(&mut self, half: Half) -> Result<(), DeviceFault>
        requires { (state self.old).failures < 2 ^ 64 - 1 }
        ensures { SyncsFile half (state self.old) (state self.new) result };

    /// How an honest disk stands between calls.
    ghost sound: { (disk : Self) → IsHonest (state disk) → IsSoundDisk (state disk) };
}
