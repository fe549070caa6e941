// The disk over a device.
ghost use Rattle.std.specs.Prelude.{◌≡◌, ◌+◌, ◌-◌, ◌<◌, ◌^◌, [], false, IfOk, IsErr, IsOk, MatchResult};
ghost use Rattle.deferred_disk.specs.Disk.{calls_of, state_by_calls};
ghost use Rattle.deferred_disk.specs.DiskRequests.{after_report};
ghost use Rattle.deferred_disk.specs.Sound.{sound_ordered};
ghost use Rattle.disk_trait.specs.Calls.{CutsFile, GivesBytes, GivesLength, IsWithinFile, SyncsFile, WritesBytes};
ghost use Rattle.disk_trait.specs.Disk.{Image, IsMixing};
ghost use Rattle.disk_trait.specs.Orders.{cuts, syncs};
ghost use Rattle.device_disk.specs.DeviceFiles.{FilesAfter, MixingFilesAfter};
ghost use Rattle.device_disk.specs.Pieces.{IsDone, IsNotDone, IsTried, IsDeviceWrittenInPart, IsDeviceWritten};
ghost use Rattle.device_disk.specs.Told.{IsSyncedAndRead, told_of, told_sound};

use crate::device::Device;
use crate::opening::{read_file, sync_file};
use crate::whole::{cut_whole, sync_whole, write_whole};
use deferred_disk::DeferredDisk;
use disk_trait::{DeviceFault, Disk, FailedCall, Half, HostCall, HostError, HostFile};
use gate_log::DefersCalls;
use std::alloc::Global;
use std::io;
use std::marker::Model;

/// Two files of a device. Each call that changes them is noted in memory, and made before the call of the disk ends. After a call that failed
/// the device is asked for nothing.
///
/// What a crash may leave of the device's files is always among what the state of the disk says (`a_crash_leaves_what_is_told`).
#[derive(Drop)]
pub struct DeviceDisk<V: Device> {
    device: V,
    noted: DeferredDisk,
    failed: u64,
    cause: Option<FailedCall>,
}

impl<V: Device> Model for DeviceDisk<V> {
    ghost use Rattle.device_disk.specs.Told.{DeviceDiskValue, IsToldDisk, device_disk_code};

    ghost Value = { DeviceDiskValue V };

    ghost coded = { device_disk_code V.code };

    ghost view = { λ d. record { device = d.device; noted = d.noted; failed = d.failed } };

    ghost invariant = { λ d. IsToldDisk d.noted d.failed (V.calls d.device) };
}

impl<V: Device + Drop> DeviceDisk<V> {
    /// Syncs both files of a device that was asked for nothing yet, and reads them: a crash leaves just what they hold then. Of a write that was
    /// not synced it may leave any bytes.
    ///
    /// # Errors
    ///
    /// The call of the device that failed, with its error; out of memory.
    pub fn open(alloc: Global, device: V) -> Result<DeviceDisk<V>, HostError>
        requires { V.calls device ≡ [] }
        ensures failed { IfOk result (λ it. it.failed ≡ 0) }
        ensures tears { IfOk result (λ it. (told_of it).mixes ≡ false) }
        ensures calls { IfOk result (λ it. IsSyncedAndRead it.noted (V.calls device) (V.calls it.device)) }
    {
        DeviceDisk::open_by(alloc, device, false)
    }

    /// The same of a device of which is said that its writes mix. Nothing here shows that: it is a premise of whoever says it
    /// (`MixingFilesAfter`).
    ///
    /// # Errors
    ///
    /// Those of `open`.
    pub fn open_mixing(alloc: Global, device: V) -> Result<DeviceDisk<V>, HostError>
        requires { V.calls device ≡ [] }
        ensures failed { IfOk result (λ it. it.failed ≡ 0) }
        ensures mixes { IfOk result (λ it. IsMixing (told_of it)) }
        ensures calls { IfOk result (λ it. IsSyncedAndRead it.noted (V.calls device) (V.calls it.device)) }
    {
        DeviceDisk::open_by(alloc, device, true)
    }

    fn open_by(alloc: Global, device: V, mixes: bool) -> Result<DeviceDisk<V>, HostError>
        requires { V.calls device ≡ [] }
        ensures failed { IfOk result (λ it. it.failed ≡ 0) }
        ensures mixes { IfOk result (λ it. (told_of it).mixes ≡ mixes) }
        ensures calls { IfOk result (λ it. IsSyncedAndRead it.noted (V.calls device) (V.calls it.device)) }
    {
        let mut device = device;
        sync_file(&mut device, Half::A)?;
        sync_file(&mut device, Half::B)?;
        let a = read_file(alloc, &mut device, Half::A)?;
        let b = read_file(alloc, &mut device, Half::B)?;
        Ok(DeviceDisk {
            device,
            noted: DeferredDisk::holding(alloc, mixes, a, b),
            failed: 0,
            cause: None,
        })
    }
}

impl<V: Device> DeviceDisk<V> {
    /// The call that failed first.
    pub fn failed_call(&self) -> Option<FailedCall> {
        self.cause
    }

    /// The device.
    pub fn into_device(self) -> V
        ensures { result ≡ self.device }
    {
        let DeviceDisk {
            device,
            noted: _,
            failed: _,
            cause: _,
        } = self;
        device
    }
}

// One call more has failed.
fn fail(failed: &mut u64) -> DeviceFault
    requires { failed.old < 2 ^ 64 - 1 }
    ensures { failed.new ≡ failed.old + 1 }
{
    *failed += 1;
    DeviceFault
}

// One call more has failed, with this error.
fn fail_with(
    failed: &mut u64,
    cause: &mut Option<FailedCall>,
    asked: (HostCall, HostFile),
    error: io::Error,
) -> DeviceFault
    requires { failed.old < 2 ^ 64 - 1 }
    ensures { failed.new ≡ failed.old + 1 }
{
    let (call, file) = asked;
    *cause = Some(FailedCall { call, file, error });
    fail(failed)
}

// One call more has failed, as there is no memory to note it.
fn fail_in_memory(
    failed: &mut u64,
    cause: &mut Option<FailedCall>,
    asked: (HostCall, HostFile),
) -> DeviceFault
    requires { failed.old < 2 ^ 64 - 1 }
    ensures { failed.new ≡ failed.old + 1 }
{
    fail_with(failed, cause, asked, io::ErrorKind::OutOfMemory.into())
}

// What was noted was made, or it failed.
fn end(
    noted: &mut DeferredDisk,
    failed: &mut u64,
    cause: &mut Option<FailedCall>,
    asked: (HostCall, HostFile),
    made: io::Result<()>,
) -> Result<(), DeviceFault>
    requires { failed.old < 2 ^ 64 - 1 }
    ensures same { MatchResult result (λ _. IsOk made) (λ _. IsErr made) }
    ensures noted { MatchResult result
        (λ _. (calls_of noted.new ≡ after_report (calls_of noted.old)) × (noted.new.failures ≡ noted.old.failures))
        (λ _. noted.new ≡ noted.old) }
    ensures mixes { noted.new.mixes ≡ noted.old.mixes }
    ensures failed { MatchResult result (λ _. failed.new ≡ failed.old) (λ _. failed.new ≡ failed.old + 1) }
{
    match made {
        Ok(()) => {
            let count = noted.orders().len();
            noted.report_done(count);
            Ok(())
        }
        Err(error) => Err(fail_with(failed, cause, asked, error)),
    }
}

impl<V: Device> Disk for DeviceDisk<V> {
    ghost state = { told_of };

    ghost sound = { λ d honest. told_sound (state_by_calls d.noted) d.failed
        (sound_ordered d.noted.mixes d.noted.past.calls d.noted.failures
        d.noted.began d.noted.wrote d.noted.within) };

    fn failures(&self) -> u64 {
        self.failed
    }

    fn mixes(&self) -> bool {
        self.noted.mixes()
    }

    fn len(&mut self, half: Half) -> Result<u64, DeviceFault>
        requires { self.old.failed < 2 ^ 64 - 1 }
        ensures disk { GivesLength half (told_of self.old) (told_of self.new) result }
        ensures device { self.new.device ≡ self.old.device }
    {
        if self.failed > 0 {
            return Err(fail(&mut self.failed));
        }
        match self.noted.len(half) {
            Ok(len) => Ok(len),
            Err(_) => Err(fail(&mut self.failed)),
        }
    }

    fn read(&mut self, half: Half, at: u64, buffer: &mut [u8]) -> Result<usize, DeviceFault>
        requires { self.old.failed < 2 ^ 64 - 1 }
        ensures disk { GivesBytes half at buffer.old buffer.new (told_of self.old) (told_of self.new) result }
        ensures device { self.new.device ≡ self.old.device }
    {
        if self.failed > 0 {
            return Err(fail(&mut self.failed));
        }
        match self.noted.read(half, at, buffer) {
            Ok(count) => Ok(count),
            Err(_) => Err(fail(&mut self.failed)),
        }
    }

    fn write_at(&mut self, half: Half, at: u64, bytes: &[u8]) -> Result<(), DeviceFault>
        requires count { self.old.failed < 2 ^ 64 - 1 }
        requires within { IsWithinFile half at (told_of self.old) }
        ensures disk { WritesBytes half at bytes.now (told_of self.old) (told_of self.new) result }
        ensures calls { MatchResult result
            (λ _. IsDeviceWritten half at bytes.now (V.calls self.old.device) (V.calls self.new.device))
            (λ _. IsDeviceWrittenInPart half at bytes.now (V.calls self.old.device) (V.calls self.new.device)) }
        ensures never_again { 0 < self.old.failed → IsErr result × (self.new.device ≡ self.old.device) }
    {
        if self.failed > 0 || at.checked_add(bytes.len() as u64).is_none() {
            return Err(fail(&mut self.failed));
        }
        let asked = (HostCall::Write, HostFile::of_half(half));
        // it is noted first, as a write that fails may have done any part
        match self.noted.write_at(half, at, bytes) {
            Ok(()) => {
                let made = write_whole(&mut self.device, half, at, bytes);
                end(
                    &mut self.noted,
                    &mut self.failed,
                    &mut self.cause,
                    asked,
                    made,
                )
            }
            Err(_) => Err(fail_in_memory(&mut self.failed, &mut self.cause, asked)),
        }
    }

    fn cut(&mut self, half: Half, len: u64) -> Result<(), DeviceFault>
        requires count { self.old.failed < 2 ^ 64 - 1 }
        requires within { IsWithinFile half len (told_of self.old) }
        ensures disk { CutsFile half len (told_of self.old) (told_of self.new) result }
        ensures calls { MatchResult result
            (λ _. IsDone (cuts half len) (V.calls self.old.device) (V.calls self.new.device))
            (λ _. IsNotDone (cuts half len) (V.calls self.old.device) (V.calls self.new.device)) }
        ensures never_again { 0 < self.old.failed → IsErr result × (self.new.device ≡ self.old.device) }
    {
        if self.failed > 0 {
            return Err(fail(&mut self.failed));
        }
        let asked = (HostCall::Cut, HostFile::of_half(half));
        // it is noted first, as a write is
        match self.noted.cut(half, len) {
            Ok(()) => {
                let made = cut_whole(&mut self.device, half, len);
                end(
                    &mut self.noted,
                    &mut self.failed,
                    &mut self.cause,
                    asked,
                    made,
                )
            }
            Err(_) => Err(fail_in_memory(&mut self.failed, &mut self.cause, asked)),
        }
    }

    fn sync(&mut self, half: Half) -> Result<(), DeviceFault>
        requires { self.old.failed < 2 ^ 64 - 1 }
        ensures disk { SyncsFile half (told_of self.old) (told_of self.new) result }
        ensures calls { MatchResult result
            (λ _. IsDone (syncs half) (V.calls self.old.device) (V.calls self.new.device))
            (λ _. IsTried (syncs half) (V.calls self.old.device) (V.calls self.new.device)) }
        ensures never_again { 0 < self.old.failed → IsErr result × (self.new.device ≡ self.old.device) }
    {
        if self.failed > 0 {
            return Err(fail(&mut self.failed));
        }
        let asked = (HostCall::Sync, HostFile::of_half(half));
        // it is noted once it is made, as a sync that failed binds nothing
        match sync_whole(&mut self.device, half) {
            Ok(()) => match self.noted.sync(half) {
                Ok(()) => {
                    // what was read as the disk was opened stays: a store syncs both files before it reads them
                    self.noted.note_done();
                    Ok(())
                }
                Err(_) => Err(fail_in_memory(&mut self.failed, &mut self.cause, asked)),
            },
            Err(error) => Err(fail_with(&mut self.failed, &mut self.cause, asked, error)),
        }
    }
}

/// All that a crash may leave of the files of the device, whatever they held as it was made, is among what the state of the disk says: what
/// is proved of an honest disk is so of these files, as far as the device does what its calls say (`specs/DeviceFiles.antt`). A disk that says
/// that its writes mix stands on more: that writes of the device do.
#[tactic(auto, using(crate::proofs::Telling::left_told, crate::proofs::Telling::left_mixing))]
pub fn a_crash_leaves_what_is_told<V: Device>(disk: &DeviceDisk<V>)
    ensures tears { (told_of disk.now).mixes ≡ false
        → (first holds left : Image) → FilesAfter first (V.calls disk.now.device) holds left
        → (told_of disk.now).may_leave left }
    ensures mixes { IsMixing (told_of disk.now)
        → (first holds left : Image) → MixingFilesAfter first (V.calls disk.now.device) holds left
        → (told_of disk.now).may_leave left }
{
    // no effect at run time: the proof reads here what is always true of the disk
    let _ = &disk.failed;
}
