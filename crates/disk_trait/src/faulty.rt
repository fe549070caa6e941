//! A disk some of whose calls fail.
ghost use Rattle.std.specs.Prelude.{◌≡◌, ◌+◌, ◌-◌, ◌<◌, ◌^◌, Some, true, IsErr, OnErr, OnOk, ◌↔◌};
ghost use Rattle.disk_trait.specs.Moments.{recounted_sound};

use crate::{DeviceFault, Disk, Faults, Fuse, Half, Once};
use std::marker::Model;

/// Passes each call on to another disk but those that fail, which do nothing inside.
#[derive(Drop)]
pub struct FaultyDisk<D: Disk, F: Faults> {
    disk: D,
    faults: F,
    failed: u64,
}

/// Passes a number of calls on to another disk; from then on each call fails, and does nothing inside.
pub type FuseDisk<D> = FaultyDisk<D, Fuse>;

/// Passes each call on to another disk but one, which fails and does nothing inside.
pub type OnceDisk<D> = FaultyDisk<D, Once>;

impl<D: Disk, F: Faults> Model for FaultyDisk<D, F> {
    ghost use Rattle.std.specs.Prelude.{◌+◌, ◌<◌, ◌^◌};
    ghost use Rattle.disk_trait.specs.Faulty.{FaultyValue, faulty_code};

    ghost Value = { FaultyValue D F };

    ghost coded = { faulty_code D.code F.code };

    ghost view = { λ f. record { disk = f.disk; faults = f.faults; failed = f.failed } };

    ghost invariant = { λ f. (D.state f.disk).failures + f.failed < 2 ^ 64 };
}

impl<D: Disk> FaultyDisk<D, Fuse> {
    /// Lets `calls` calls pass.
    pub fn new(disk: D, calls: u64) -> FuseDisk<D>
        ensures disk { result.disk ≡ disk }
        ensures faults { result.faults ≡ calls }
        ensures failed { result.failed ≡ 0 }
    {
        with_faults(disk, Fuse::new(calls))
    }
}

impl<D: Disk> FaultyDisk<D, Once> {
    /// Fails the call of this number. Calls are counted from 0.
    pub fn new(disk: D, call: u64) -> OnceDisk<D>
        ensures disk { result.disk ≡ disk }
        ensures faults { result.faults ≡ Some call }
        ensures failed { result.failed ≡ 0 }
    {
        with_faults(disk, Once::new(call))
    }
}

impl<D: Disk, F: Faults> FaultyDisk<D, F> {
    /// The disk inside. The calls that failed here are not in its count of failures.
    pub fn into_inner(self) -> D
        ensures { result ≡ self.disk }
    {
        let FaultyDisk {
            disk,
            faults: _,
            failed: _,
        } = self;
        disk
    }
}

fn with_faults<D: Disk, F: Faults>(disk: D, faults: F) -> FaultyDisk<D, F>
    ensures disk { result.disk ≡ disk }
    ensures faults { result.faults ≡ faults }
    ensures failed { result.failed ≡ 0 }
{
    let _failures = disk.failures();
    FaultyDisk {
        disk,
        faults,
        failed: 0,
    }
}

// Passes a call, or counts its failure.
fn pass<F: Faults>(faults: &mut F, failed: &mut u64) -> Result<(), DeviceFault>
    requires { failed.old < 2 ^ 64 - 1 }
    ensures fails { IsErr result ↔ (F.fails faults.old ≡ true) }
    ensures after { faults.new ≡ F.after faults.old }
    ensures passed { OnOk result (failed.new ≡ failed.old) }
    ensures failed { OnErr result (failed.new ≡ failed.old + 1) }
{
    if faults.strike() {
        *failed += 1;
        return Err(DeviceFault);
    }
    Ok(())
}

impl<D: Disk, F: Faults> Disk for FaultyDisk<D, F> {
    ghost use Rattle.disk_trait.specs.Calls.{CutsFile, GivesBytes, GivesLength, IsWithinFile, SyncsFile, WritesBytes};
    ghost use Rattle.disk_trait.specs.Faulty.{Strikes, faulty};

    ghost state = { faulty D.state };

    ghost sound = { λ f honest. recounted_sound (D.state f.disk) ((D.state f.disk).failures + f.failed) (D.sound f.disk honest) };

    fn failures(&self) -> u64 {
        self.disk.failures() + self.failed
    }

    fn mixes(&self) -> bool {
        self.disk.mixes()
    }

    fn len(&mut self, half: Half) -> Result<u64, DeviceFault>
        requires { (faulty D.state self.old).failures < 2 ^ 64 - 1 }
        ensures disk { GivesLength half (faulty D.state self.old) (faulty D.state self.new) result }
        ensures strikes { Strikes F.fails F.after self.old self.new result }
    {
        pass(&mut self.faults, &mut self.failed)?;
        self.disk.len(half)
    }

    fn read(&mut self, half: Half, at: u64, buffer: &mut [u8]) -> Result<usize, DeviceFault>
        requires { (faulty D.state self.old).failures < 2 ^ 64 - 1 }
        ensures disk { GivesBytes half at buffer.old buffer.new
            (faulty D.state self.old) (faulty D.state self.new) result }
        ensures strikes { Strikes F.fails F.after self.old self.new result }
    {
        pass(&mut self.faults, &mut self.failed)?;
        self.disk.read(half, at, buffer)
    }

    fn write_at(&mut self, half: Half, at: u64, bytes: &[u8]) -> Result<(), DeviceFault>
        requires count { (faulty D.state self.old).failures < 2 ^ 64 - 1 }
        requires within { IsWithinFile half at (faulty D.state self.old) }
        ensures disk { WritesBytes half at bytes.now
            (faulty D.state self.old) (faulty D.state self.new) result }
        ensures strikes { Strikes F.fails F.after self.old self.new result }
    {
        pass(&mut self.faults, &mut self.failed)?;
        self.disk.write_at(half, at, bytes)
    }

    fn cut(&mut self, half: Half, len: u64) -> Result<(), DeviceFault>
        requires count { (faulty D.state self.old).failures < 2 ^ 64 - 1 }
        requires within { IsWithinFile half len (faulty D.state self.old) }
        ensures disk { CutsFile half len (faulty D.state self.old) (faulty D.state self.new) result }
        ensures strikes { Strikes F.fails F.after self.old self.new result }
    {
        pass(&mut self.faults, &mut self.failed)?;
        self.disk.cut(half, len)
    }

    fn sync(&mut self, half: Half) -> Result<(), DeviceFault>
        requires { (faulty D.state self.old).failures < 2 ^ 64 - 1 }
        ensures disk { SyncsFile half (faulty D.state self.old) (faulty D.state self.new) result }
        ensures strikes { Strikes F.fails F.after self.old self.new result }
    {
        pass(&mut self.faults, &mut self.failed)?;
        self.disk.sync(half)
    }
}
