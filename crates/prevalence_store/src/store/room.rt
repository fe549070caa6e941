// How much the half in use takes, and how much it may still take.
ghost use Rattle.std.specs.Prelude.{◌≡◌, ◌-◌};

use crate::store::Store;
use disk_trait::Disk;
use user_macros::MacroFunctions;

impl<D: Disk, R: MacroFunctions> Store<D, R> {
    /// How many bytes more the half in use may take: a record takes 6, or 18 in version 3, and its text. After a device fault, what it was before it.
    pub fn room(&self) -> u64
        ensures { result ≡ self.now.limit - self.now.size }
    {
        self.log.halves.room()
    }

    /// How many bytes the half in use takes. After a device fault, what it was before it.
    pub fn size(&self) -> u64
        ensures { result ≡ self.now.size }
    {
        self.log.halves.size()
    }

    /// How many bytes the half in use took before its first record. After a device fault, what it was before it.
    pub fn first_size(&self) -> u64
        ensures { result ≡ self.now.first_size }
    {
        self.log.halves.first_size()
    }
}
