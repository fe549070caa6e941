//! What a crash may make of a write to which no sync came: any bytes in the place of those that were written, and a cut that is not done.
ghost use Rattle.std.specs.Prelude.{false, ◌≡◌, ◌+◌, ◌-◌, ◌^◌, ◌<◌, ◌≤◌, ◌++◌, length, take, OnOk};
ghost use Rattle.disk_trait.specs.Disk.{Image, written};
ghost use Rattle.disk_trait.specs.Memory.{state_of};

use disk_trait::{Crash, DeviceFault, Disk, Half, MemoryDisk, torn_images};
use std::test::Fail;

/// Writes bytes into half A, and syncs nothing: a crash may leave any others in their place, as many as these.
fn write_unsynced(
    disk: &mut MemoryDisk,
    at: u64,
    bytes: &[u8],
    others: &[u8],
) -> Result<(), DeviceFault>
    requires room { (state_of disk.old).failures < 2 ^ 64 - 1 }
    requires within { at ≤ length (state_of disk.old).reads.a }
    requires tears { (state_of disk.old).mixes ≡ false }
    ensures left { OnOk result (length others.now ≡ length bytes.now
        → (before : Image) → (state_of disk.old).may_leave before
        → (state_of disk.new).may_leave (record { a = written at others.now before.a; b = before.b })) }
    ensures failures { OnOk result ((state_of disk.new).failures ≡ (state_of disk.old).failures) }
{
    torn_images();
    let _ = others;
    disk.write_at(Half::A, at, bytes)?;
    Ok(())
}

/// Cuts half A, and syncs nothing: a crash may leave others after the first bytes, as many as there were.
fn cut_unsynced(disk: &mut MemoryDisk, len: u64, others: &[u8]) -> Result<(), DeviceFault>
    requires room { (state_of disk.old).failures < 2 ^ 64 - 1 }
    requires within { len ≤ length (state_of disk.old).reads.a }
    ensures left { OnOk result ((before : Image) → (state_of disk.old).may_leave before
        → len + length others.now ≤ length before.a
        → (state_of disk.new).may_leave (record { a = take len before.a ++ others.now; b = before.b })) }
    ensures failures { OnOk result ((state_of disk.new).failures ≡ (state_of disk.old).failures) }
{
    torn_images();
    let _ = others;
    disk.cut(Half::A, len)?;
    Ok(())
}

/// "abcd" is synced. Then two bytes are written after the first one, or all after it is cut; and a crash fills what it may with another byte.
#[test]
fn a_crash_leaves_other_bytes(rt: HostRuntime) -> Result<(), Fail> {
    for cuts in [false, true] {
        let left: &[u8] = if cuts { b"a!!!" } else { b"a!!d" };
        let mut disk = MemoryDisk::new(rt.alloc());
        disk.write_at(Half::A, 0, b"abcd")?;
        disk.sync(Half::A)?;
        let end = disk.len(Half::A)?;
        if cuts {
            cut_unsynced(&mut disk, end.min(1), b"!!!")?;
        } else {
            write_unsynced(&mut disk, end.min(1), b"xy", b"!!")?;
        }
        disk.crash(Crash::Filled(b'!'))?;
        let mut buffer = [0; 8];
        let count = disk.read(Half::A, 0, &mut buffer)?;
        assert_eq!(rt; &buffer[..count], left, "{cuts}");
    }
    Ok(())
}
