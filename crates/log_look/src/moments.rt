//! Two files in memory, moment by moment.
ghost use Rattle.std.specs.Prelude.{◌≡◌, ◌≤◌, drop, length, take};
ghost use Rattle.disk_trait.specs.Disk.{file_of};
ghost use Rattle.log_look.specs.Moments.{IsLaterOf, file_then, image_at};

use crate::live::LiveFiles;
use crate::sight::copy_from;
use disk_trait::{DeviceFault, Half};

/// The bytes of both files at one moment.
#[derive(Drop)]
pub struct Moment {
    pub a: Vec<u8>,
    pub b: Vec<u8>,
}

/// Two files of which each moment is in memory; the last one lasts. Each read is at one moment, and the next read some moments later. It
/// is an honest reader, for tests of what looks at files that are written meanwhile.
#[derive(Drop)]
pub struct MomentFiles {
    moments: Vec<Moment>,
    next: usize,
    pace: usize,
}

impl MomentFiles {
    ghost use Rattle.log_look.specs.Moments.{next_of};

    /// These moments, of which the first read is at number `next`; each read takes `pace` of them.
    pub fn new(moments: Vec<Moment>, next: usize, pace: usize) -> MomentFiles
        ensures { next_of result ≡ next }
    {
        MomentFiles {
            moments,
            next,
            pace,
        }
    }

    /// The number of the moment of the next read.
    pub fn next(&self) -> usize
        ensures { result ≡ next_of self.now }
    {
        self.next
    }

    fn read_now(&mut self, half: Half, at: u64, buffer: &mut [u8]) -> usize
        ensures later { IsLaterOf self.old self.new }
        ensures within { result ≤ length buffer.old }
        ensures bytes { take result buffer.new
            ≡ take (length buffer.old) (drop at (file_then half self.old)) }
    {
        let count = copy_from(
            file_in(self.moments.as_slice(), self.next, half),
            at,
            buffer,
        );
        self.next = self.next.saturating_add(self.pace);
        count
    }
}

// A file at a moment, or at the last one.
fn file_in(moments: &[Moment], number: usize, half: Half) -> &[u8]
    ensures { result.now ≡ file_of half (image_at moments.now number) }
{
    let count = moments.len();
    if count == 0 {
        return &[];
    }
    let index = number.min(count - 1);
    let moment = &moments[index];
    match half {
        Half::A => &moment.a,
        Half::B => &moment.b,
    }
}

impl LiveFiles for MomentFiles {
    ghost use Rattle.log_look.specs.Moments.{watch_of};

    ghost watch = { watch_of };

    fn head(&mut self, half: Half, buffer: &mut [u8]) -> Result<usize, DeviceFault> {
        Ok(self.read_now(half, 0, buffer))
    }

    fn read(&mut self, half: Half, at: u64, buffer: &mut [u8]) -> Result<usize, DeviceFault> {
        Ok(self.read_now(half, at, buffer))
    }
}
