ghost use Rattle.std.specs.Prelude.{◌≡◌, ◌<◌, ◌-◌, ◌^◌, IfOk, OnOk};

use disk_trait::{Crash, DeviceFault, Disk, FuseDisk, Half, HostDisk, MemoryDisk, OnceDisk};
use std::fs::{File, OpenOptions};
use std::test::Fail;
use std::{env, fs, process};

/// A folder of this name that no other test has.
fn folder(rt: &HostRuntime, name: &str) -> Result<String, Fail> {
    let place = env::temp_dir(rt)?;
    Ok(format!(in rt.alloc();
        "{}/disk_trait-{name}-{}",
        place.display(),
        process::id(rt.process())
    )?)
}

/// "abc" is written to half A and synced; then "xy" after it is not, or a cut to one byte, nor "q" in half B.
#[test]
fn a_crash_leaves_what_was_synced(rt: HostRuntime) -> Result<(), Fail> {
    let cases: [(Crash, &[u8], &[u8], u64); 3] = [
        (Crash::Kept, b"abcxy", b"a", 1),
        (Crash::Lost, b"abc", b"abc", 0),
        (Crash::Filled(b'!'), b"abc!!", b"a!!", 1),
    ];
    for (kind, grown, shortened, beside) in cases {
        for (cuts, left) in [(false, grown), (true, shortened)] {
            let mut disk = MemoryDisk::new(rt.alloc());
            disk.write_at(Half::A, 0, b"abc")?;
            disk.write_at(Half::B, 0, b"q")?;
            disk.sync(Half::A)?;
            let end = disk.len(Half::A)?;
            if cuts {
                disk.cut(Half::A, end.min(1))?;
            } else {
                disk.write_at(Half::A, end, b"xy")?;
            }
            disk.crash(kind)?;
            let mut buffer = [0; 8];
            let count = disk.read(Half::A, 0, &mut buffer)?;
            assert_eq!(rt; &buffer[..count], left, "{kind:?} {cuts}");
            assert_eq!(rt; disk.len(Half::B)?, beside, "{kind:?} {cuts}");
        }
    }
    Ok(())
}

/// "abcdef" is synced in half A of a disk that mixes; then "uvwxyz!" is written over its last four bytes and past them. Of each byte the
/// old one or the new one is left, and past the old end 0 or the new one; a crash that fills leaves the write whole.
#[test]
fn a_crash_mixes_old_and_new(rt: HostRuntime) -> Result<(), Fail> {
    let cases: [(Crash, &[u8]); 5] = [
        (Crash::Kept, b"abuvwxyz!"),
        (Crash::Lost, b"abcdef"),
        (Crash::Filled(b'?'), b"abuvwxyz!"),
        (Crash::Scattered(0), b"abcdef\0\0\0"),
        (Crash::Scattered(100), b"abuvwf\0\0\0"),
    ];
    for (kind, left) in cases {
        let mut disk = MemoryDisk::mixing(rt.alloc());
        assert!(rt; disk.mixes());
        disk.write_at(Half::A, 0, b"abcdef")?;
        disk.sync(Half::A)?;
        let end = disk.len(Half::A)?;
        disk.write_at(Half::A, end.min(2), b"uvwxyz!")?;
        disk.crash(kind)?;
        let mut buffer = [0; 16];
        let count = disk.read(Half::A, 0, &mut buffer)?;
        assert_eq!(rt; &buffer[..count], left, "{kind:?}");
    }
    Ok(())
}

/// Four calls, of which none is a sync. Half A holds "abc" then.
fn passes_unsynced<D: Disk>(disk: &mut D) -> Result<(), DeviceFault>
    requires { (D.state disk.old).failures < 2 ^ 64 - 1 }
    ensures { OnOk result ((D.state disk.new).failures ≡ (D.state disk.old).failures) }
{
    disk.write_at(Half::A, 0, b"abc")?;
    let end = disk.len(Half::A)?;
    disk.cut(Half::A, end)?;
    let mut buffer = [0; 8];
    disk.read(Half::A, 0, &mut buffer)?;
    Ok(())
}

/// Four calls pass and sync nothing; the next two fail, or the next alone.
#[test]
fn calls_fail_where_they_are_told_to(rt: HostRuntime) -> Result<(), Fail> {
    let mut fuse = FuseDisk::new(MemoryDisk::new(rt.alloc()), 4);
    passes_unsynced(&mut fuse)?;
    assert!(rt; fuse.sync(Half::A).is_err() && fuse.sync(Half::A).is_err());
    assert_eq!(rt; fuse.failures(), 2);
    let mut disk = fuse.into_inner();
    disk.crash(Crash::Lost)?;
    assert_eq!(rt; disk.len(Half::A)?, 0);
    for (synced, left) in [(false, 0), (true, 3)] {
        let mut once = OnceDisk::new(MemoryDisk::new(rt.alloc()), 4);
        passes_unsynced(&mut once)?;
        assert!(rt; once.sync(Half::A).is_err());
        if synced {
            once.sync(Half::A)?;
        }
        assert_eq!(rt; once.failures(), 1);
        let mut disk = once.into_inner();
        disk.crash(Crash::Lost)?;
        assert_eq!(rt; disk.len(Half::A)?, left);
    }
    Ok(())
}

/// A disk whose half of this kind is the file with this name, and whose other half is an empty file in the folder.
fn disk_with(rt: &HostRuntime, dir: &str, bad: Half, name: &str) -> Result<HostDisk, Fail>
    ensures { IfOk result (λ disk. (⟦<HostDisk as Disk>⟧.state disk).failures ≡ 0) }
{
    let path = format!(in rt.alloc(); "{dir}/other")?;
    let other = File::create_new(rt, path.as_str())?;
    let file = OpenOptions::new().read(true).write(true).open(rt, name)?;
    match bad {
        Half::A => Ok(HostDisk::of_files(file, other)?),
        Half::B => Ok(HostDisk::of_files(other, file)?),
    }
}

/// A file of the system that is a regular one, and that cannot be synced.
const UNSYNCED: &str = "/proc/self/comm";

#[test]
fn a_sync_that_failed_is_never_forgotten(rt: HostRuntime) -> Result<(), Fail> {
    let dir = folder(&rt, "syncs")?;
    for (bad, good) in [(Half::A, Half::B), (Half::B, Half::A)] {
        fs::create_dir(&rt, dir.as_str())?;
        let mut disk = disk_with(&rt, dir.as_str(), bad, UNSYNCED)?;
        disk.sync(good)?;
        assert!(rt; disk.sync(bad).is_err());
        disk.write_at(good, 0, b"abc")?;
        disk.cut(good, 1)?;
        assert_eq!(rt; disk.len(good)?, 1);
        let mut buffer = [0; 8];
        assert_eq!(rt; disk.read(good, 0, &mut buffer)?, 1);
        assert!(rt; disk.sync(good).is_err() && disk.sync(good).is_err());
        assert_eq!(rt; disk.failures(), 3);
        drop(disk);
        fs::remove_dir_all(&rt, dir.as_str())?;
    }
    Ok(())
}

/// A regular file of the system, at whose start nothing can be read or written.
const UNREAD: &str = "/proc/self/mem";

#[test]
fn a_call_that_failed_is_a_fault(rt: HostRuntime) -> Result<(), Fail> {
    let dir = folder(&rt, "faults")?;
    fs::create_dir(&rt, dir.as_str())?;
    let mut disk = disk_with(&rt, dir.as_str(), Half::A, UNREAD)?;
    let mut buffer = [0; 8];
    assert!(rt; disk.read(Half::A, 0, &mut buffer).is_err());
    assert!(rt; disk.write_at(Half::A, 0, b"abc").is_err());
    assert_eq!(rt; disk.failures(), 2);
    drop(disk);
    fs::remove_dir_all(&rt, dir.as_str())?;
    Ok(())
}
