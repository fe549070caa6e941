//! A disk whose calls are orders that somebody else carries out, and a crash between two of them.
ghost use Rattle.std.specs.Prelude.{◌≡◌, ◌-◌, ◌^◌, ◌<◌, [], ◌∷◌, OnOk};
ghost use Rattle.deferred_disk.specs.Disk.{calls_of, pending_of, state_by_calls};
ghost use Rattle.deferred_disk.specs.State.{OrdersMayLeave};
ghost use Rattle.disk_trait.specs.Disk.{Image};
ghost use Rattle.disk_trait.specs.Orders.{writes};

use deferred_disk::{DeferredDisk, between_orders};
use disk_trait::{DeviceFault, Disk, Half};
use gate_log::DefersCalls;
use std::alloc::Global;
use std::test::Fail;

/// Writes bytes from the start of half A on, and syncs it: two orders. A crash after the first of them was carried out, and before the
/// second, leaves what a crash within these two calls might have left.
fn write_and_sync(disk: &mut DeferredDisk, bytes: &[u8]) -> Result<(), DeviceFault>
    requires room { (state_by_calls disk.old).failures < 2 ^ 64 - 1 }
    ensures { OnOk result (pending_of disk.old ≡ [] → (image : Image)
        → OrdersMayLeave (state_by_calls disk.old).mixes (calls_of disk.old).start
        (writes Half.A 0 bytes.now ∷ (calls_of disk.old).done) image
        → (state_by_calls disk.new).left_since (state_by_calls disk.old).moment image) }
{
    between_orders();
    disk.write_at(Half::A, 0, bytes)?;
    disk.sync(Half::A)?;
    Ok(())
}

/// Whether orders were made, and none is left once they were reported done.
fn is_reported(alloc: Global, bytes: &[u8]) -> Result<bool, DeviceFault> {
    let mut disk = DeferredDisk::new(alloc, Vec::new(alloc), Vec::new(alloc));
    write_and_sync(&mut disk, bytes)?;
    let is_asked = !disk.is_done();
    let count = disk.orders().len();
    disk.report_done(count);
    Ok(is_asked && disk.is_done())
}

#[test]
fn orders_are_reported_done(rt: HostRuntime) -> Result<(), Fail> {
    assert!(rt; is_reported(rt.alloc(), b"abc")?);
    Ok(())
}
