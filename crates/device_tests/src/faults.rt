//! A fault at each call of the device in turn.
use crate::script::{STEPS, held_after, run, step, synced_after};
use device_disk::{DeviceDisk, InjectedFault, MemoryDevice, a_crash_leaves_what_is_told};
use disk_trait::{Disk, Half, HostCall, HostError, HostFile};
use std::io;
use std::test::Fail;

// An opening syncs both files, and reads each until there is no more: here they are empty.
const CALLS_TO_OPEN: u64 = 4;

// Each step but the syncs asks for the length first, which is no call of the device.
const CALLS: u64 = CALLS_TO_OPEN + STEPS;

fn is_held(device: &MemoryDevice, steps: u64) -> bool {
    let (a, b) = held_after(steps);
    device.bytes(Half::A) == a && device.bytes(Half::B) == b
}

fn is_synced(device: &MemoryDevice, steps: u64) -> bool {
    let (a, b) = synced_after(steps);
    device.synced(Half::A) == a && device.synced(Half::B) == b
}

// What a disk over a device reads of a file.
fn is_read(disk: &mut DeviceDisk<MemoryDevice>, half: Half, want: &[u8]) -> bool {
    if disk.failures() > 0 {
        return false;
    }
    let mut buffer = [0u8; 16];
    match disk.read(half, 0, &mut buffer) {
        Ok(count) => &buffer[..count] == want,
        Err(_) => false,
    }
}

// Both files are synced, as a store does before it reads.
fn sync_both(disk: &mut DeviceDisk<MemoryDevice>) -> bool {
    for half in [Half::A, Half::B] {
        if disk.failures() > 0 || disk.sync(half).is_err() {
            return false;
        }
    }
    true
}

#[test]
fn a_call_that_fails_is_the_last_one(rt: HostRuntime) -> Result<(), Fail> {
    for kind in [io::ErrorKind::StorageFull, io::ErrorKind::Other] {
        for call in 0..CALLS {
            let fault = Some((call, InjectedFault::Failed(kind)));
            let device = MemoryDevice::new(rt.alloc(), fault);
            let Ok(mut disk) = DeviceDisk::open(rt.alloc(), device) else {
                assert!(rt; call < CALLS_TO_OPEN, "call {call}");
                continue;
            };
            a_crash_leaves_what_is_told(&disk);
            let done = run(&mut disk);
            assert_eq!(rt; call.saturating_sub(CALLS_TO_OPEN), done);
            assert!(rt; step(&mut disk, 1).is_err(), "call {call}");
            let cause = disk.failed_call().map(|failed| failed.error.kind());
            assert_eq!(rt; cause, Some(kind));
            let device = disk.into_device();
            assert_eq!(rt; device.count(), call + 1);
            assert!(rt; is_held(&device, done), "call {call}");
            assert!(rt; is_synced(&device, done), "call {call}");
        }
    }
    Ok(())
}

#[test]
fn an_opening_tells_the_call_that_failed(rt: HostRuntime) -> Result<(), Fail> {
    let asked = [
        (HostCall::Sync, HostFile::HalfA),
        (HostCall::Sync, HostFile::HalfB),
        (HostCall::Read, HostFile::HalfA),
        (HostCall::Read, HostFile::HalfB),
    ];
    for (number, (call, file)) in asked.into_iter().enumerate() {
        let kind = io::ErrorKind::StorageFull;
        let fault = Some((number as u64, InjectedFault::Failed(kind)));
        let device = MemoryDevice::new(rt.alloc(), fault);
        match DeviceDisk::open(rt.alloc(), device) {
            Err(HostError::Failed(failed)) => {
                assert_eq!(rt; failed.call, call);
                assert_eq!(rt; failed.file, file);
                assert_eq!(rt; failed.error.kind(), kind);
            }
            _ => assert!(rt; false, "call {number}"),
        }
    }
    Ok(())
}

#[test]
fn a_disk_says_that_its_writes_mix_where_that_is_asked_for(rt: HostRuntime) -> Result<(), Fail> {
    let device = MemoryDevice::new(rt.alloc(), None);
    assert!(rt; !DeviceDisk::open(rt.alloc(), device)?.mixes());
    let device = MemoryDevice::new(rt.alloc(), None);
    let mut disk = DeviceDisk::open_mixing(rt.alloc(), device)?;
    assert!(rt; disk.mixes());
    a_crash_leaves_what_is_told(&disk);
    assert_eq!(rt; run(&mut disk), STEPS);
    assert!(rt; disk.mixes());
    assert!(rt; is_synced(&disk.into_device(), STEPS));
    Ok(())
}

#[test]
fn what_comes_in_part_or_is_interrupted_is_asked_again(rt: HostRuntime) -> Result<(), Fail> {
    for fault in [InjectedFault::Short(1), InjectedFault::Interrupted] {
        for call in 0..CALLS {
            let device = MemoryDevice::new(rt.alloc(), Some((call, fault)));
            let mut disk = DeviceDisk::open(rt.alloc(), device)?;
            assert_eq!(rt; run(&mut disk), STEPS);
            let device = disk.into_device();
            assert!(rt; is_held(&device, STEPS), "call {call}");
            assert!(rt; is_synced(&device, STEPS), "call {call}");
        }
    }
    Ok(())
}

#[test]
fn a_write_that_takes_nothing_fails(rt: HostRuntime) -> Result<(), Fail> {
    let fault = Some((CALLS_TO_OPEN, InjectedFault::Short(0)));
    let device = MemoryDevice::new(rt.alloc(), fault);
    let mut disk = DeviceDisk::open(rt.alloc(), device)?;
    assert_eq!(rt; run(&mut disk), 0);
    assert_eq!(rt; disk.into_device().count(), CALLS_TO_OPEN + 1);
    Ok(())
}

#[test]
fn the_next_opening_finds_what_was_synced(rt: HostRuntime) -> Result<(), Fail> {
    for call in CALLS_TO_OPEN..CALLS {
        let fault = Some((call, InjectedFault::Torn(1)));
        let device = MemoryDevice::new(rt.alloc(), fault);
        let mut disk = DeviceDisk::open(rt.alloc(), device)?;
        let done = run(&mut disk);
        let device = disk
            .into_device()
            .crashed(Some((3, InjectedFault::Short(1))));
        let mut disk = DeviceDisk::open(rt.alloc(), device)?;
        let (a, b) = synced_after(done);
        assert!(rt; sync_both(&mut disk), "call {call}");
        assert!(rt; is_read(&mut disk, Half::A, a), "call {call}");
        assert!(rt; is_read(&mut disk, Half::B, b), "call {call}");
    }
    Ok(())
}
