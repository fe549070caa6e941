//! A disk in memory that crashes.
ghost use Rattle.std.specs.Prelude.{◌≡◌, IfSome};
ghost use Rattle.disk_trait.specs.Disk.{IsHonest, IsSoundDisk};
ghost use Rattle.disk_trait.specs.Memory.{state_of};

use disk_trait::{Crash, Disk, MemoryDisk};

/// Does nothing. How an honest disk stands between its calls.
fn stands<D: Disk>(disk: &D)
    ensures { IsHonest (D.state disk.now) → IsSoundDisk (D.state disk.now) }
{
    let _ = disk;
}

/// Lets a disk of which no call has failed crash in this way: what it reads then, a crash might have left. `None` for want of memory.
pub fn after_crash(disk: MemoryDisk, kind: Crash) -> Option<MemoryDisk>
    ensures left { IfSome result (λ left. (state_of disk).left_since (state_of disk).moment (state_of left).reads) }
    ensures room { IfSome result (λ left. (state_of left).failures ≡ 0) }
{
    let mut disk = disk;
    if disk.failures() > 0 {
        return None;
    }
    stands(&disk);
    match disk.crash(kind) {
        Ok(()) => Some(disk),
        Err(_) => None,
    }
}
