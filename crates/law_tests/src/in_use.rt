//! Two logs whose disks read the same.
ghost use Rattle.std.specs.Prelude.{◌≡◌, ◌-◌, ◌^◌, ◌<◌, IsTrue};
ghost use Rattle.disk_trait.specs.Disk.{Image};
ghost use Rattle.gate_log.specs.Opening.{FindsContents};

use crate::AMPLE;
use disk_trait::{Disk, Half, MemoryDisk};
use gate_log::{Halves, one_answer};
use std::alloc::Global;
use std::test::Fail;

fn is_same(one: Half, other: Half) -> bool
    ensures { one ≡ other → IsTrue result }
{
    one == other
}

/// Whether two logs have the same half in use: those that found it on disks that read the same have.
fn have_same_half<D: Disk, E: Disk>(one: &Halves<D>, other: &Halves<E>) -> bool
    ensures { (image : Image) → FindsContents one.now.used image → FindsContents other.now.used image → IsTrue result }
{
    one_answer();
    is_same(one.half(), other.half())
}

/// A log over a new disk, with one half that has a snapshot.
fn started(alloc: Global) -> Result<Halves<MemoryDisk>, Fail> {
    match Halves::open(alloc, MemoryDisk::new(alloc), AMPLE) {
        Ok(mut log) => {
            log.start_half(alloc, b"snapshot")?;
            Ok(log)
        }
        Err(error) => Err(error.refusal.into()),
    }
}

#[test]
fn logs_that_took_the_same_have_the_same_half(rt: HostRuntime) -> Result<(), Fail> {
    let one = started(rt.alloc())?;
    let other = started(rt.alloc())?;
    assert!(rt; have_same_half(&one, &other));
    Ok(())
}
