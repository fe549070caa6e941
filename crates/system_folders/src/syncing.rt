//! The files of a folder, of which is said what the words ask for.
ghost use Rattle.std.specs.Prelude.{◌≡◌, false, IfOk};
ghost use Rattle.command_words.specs.declared.way.Syncs.TheVariants.{One, Two};
ghost use Rattle.device_disk.specs.Told.{told_of};
ghost use Rattle.disk_trait.specs.Disk.{IsHonest, IsMixing};

use command_words::Syncs;
use device_disk::{DeviceDisk, HostDevice};
use disk_trait::{HostError, IfMissing};
use std::alloc::{Alloc, Global};
use std::io;
use std::random::RandomSource;
use store_commands::Folders;

/// The system, where it is said of each disk that its writes mix if a form is to be kept with one sync. It is a premise of whoever gives
/// that word: nothing here shows it.
#[derive(Clone, Copy)]
pub struct Syncing<'a> {
    rt: &'a HostRuntime,
    syncs: Syncs,
}

impl<'a> Syncing<'a> {
    /// Opens the folders of this system, and says of them what these syncs ask for.
    pub fn new(rt: &'a HostRuntime, syncs: Syncs) -> Syncing<'a> {
        Syncing { rt, syncs }
    }
}

impl Folders for Syncing<'_> {
    type Disk = DeviceDisk<HostDevice>;

    ghost opens = { λ syncing folder if_missing result. IfOk result (λ disk. IsHonest (told_of disk)
        × (syncing.syncs ≡ One → IsMixing (told_of disk))
        × (syncing.syncs ≡ Two → (told_of disk).mixes ≡ false)) };

    fn open_files(
        &self,
        folder: &str,
        if_missing: IfMissing,
    ) -> Result<DeviceDisk<HostDevice>, HostError> {
        let files = HostDevice::open_files(self.rt, folder, if_missing)?;
        match self.syncs {
            Syncs::One => DeviceDisk::open_mixing(self.rt.alloc(), files),
            Syncs::Two => DeviceDisk::open(self.rt.alloc(), files),
        }
    }
}

impl Alloc for Syncing<'_> {
    type A = Global;

    fn alloc(&self) -> Global {
        self.rt.alloc()
    }
}

impl RandomSource for Syncing<'_> {
    fn fill_bytes(&self, buf: &mut [u8]) -> io::Result<()> {
        self.rt.fill_bytes(buf)
    }
}
