//! A write on a disk that mixes.
ghost use Rattle.std.specs.Prelude.{◌≡◌, ◌-◌, ◌^◌, ◌<◌, OnOk, length};
ghost use Rattle.disk_trait.specs.Calls.{IsWithinFile};
ghost use Rattle.disk_trait.specs.Disk.{Image, IsHonest, IsMixing, OnHalf, Partly, Torn};

use disk_trait::{Crash, DeviceFault, Disk, Half, MemoryDisk, mixed_is_torn};
use std::test::Fail;

/// Writes bytes into half A of a disk that mixes. A crash leaves what it may leave where writes tear.
fn write_mixing<D: Disk>(disk: &mut D, at: u64, bytes: &[u8]) -> Result<(), DeviceFault>
    requires room { (D.state disk.old).failures < 2 ^ 64 - 1 }
    requires within { IsWithinFile Half.A at (D.state disk.old) }
    ensures torn { (image : Image) → IsHonest (D.state disk.old) → IsMixing (D.state disk.old)
        → (D.state disk.new).may_leave image → (before : Image)
        × (D.state disk.old).may_leave before × Partly (OnHalf Half.A (Torn at (length bytes.now))) before image }
    ensures failures { OnOk result ((D.state disk.new).failures ≡ (D.state disk.old).failures) }
{
    mixed_is_torn();
    disk.write_at(Half::A, at, bytes)
}

#[test]
fn a_write_without_a_sync_may_be_lost(rt: HostRuntime) -> Result<(), Fail> {
    for (kind, length) in [(Crash::Kept, 3), (Crash::Lost, 0)] {
        let mut disk = MemoryDisk::mixing(rt.alloc());
        write_mixing(&mut disk, 0, b"abc")?;
        disk.crash(kind)?;
        assert_eq!(rt; disk.len(Half::A)?, length, "{kind:?}");
    }
    Ok(())
}
