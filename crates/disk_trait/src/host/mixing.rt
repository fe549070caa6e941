// A disk of the operating system of which somebody says that its writes mix.
ghost use Rattle.std.specs.Prelude.{◌≡◌};
ghost use Rattle.disk_trait.specs.Disk.{IsMixing};

use crate::{Disk, HostDisk};

impl HostDisk {
    /// The same disk, of which is said that its writes mix. Nothing here shows that: it is a premise of whoever says it.
    pub fn with_mixing_writes(self) -> HostDisk
        ensures failures { (⟦<HostDisk as Disk>⟧.state result).failures
            ≡ (⟦<HostDisk as Disk>⟧.state self).failures }
        ensures mixes { IsMixing (⟦<HostDisk as Disk>⟧.state result) }
    {
        let mut disk = self;
        disk.mixes = true;
        disk
    }
}
