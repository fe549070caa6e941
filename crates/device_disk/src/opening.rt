// What a disk asks of its device as it is opened. What fails is told with the call and the file.
ghost use Rattle.std.specs.Prelude.{IfOk, OnOk};
ghost use Rattle.disk_trait.specs.Orders.{syncs};
ghost use Rattle.device_disk.specs.Pieces.{IsDone, IsDeviceRead};

use crate::device::Device;
use crate::whole::{read_whole, sync_whole};
use disk_trait::{FailedCall, Half, HostCall, HostError, HostFile};
use std::alloc::Global;
use std::io;

// Why a file was not synced or read.
fn failure(call: HostCall, half: Half, error: io::Error) -> HostError {
    if error.kind() == io::ErrorKind::OutOfMemory {
        return HostError::OutOfMemory;
    }
    let file = HostFile::of_half(half);
    HostError::Failed(FailedCall { call, file, error })
}

/// Syncs a file.
pub(crate) fn sync_file<V: Device>(device: &mut V, half: Half) -> Result<(), HostError>
    ensures { OnOk result (IsDone (syncs half) (V.calls device.old) (V.calls device.new)) }
{
    match sync_whole(device, half) {
        Ok(()) => Ok(()),
        Err(error) => Err(failure(HostCall::Sync, half, error)),
    }
}

/// All bytes of a file.
pub(crate) fn read_file<V: Device>(
    alloc: Global,
    device: &mut V,
    half: Half,
) -> Result<Vec<u8>, HostError>
    ensures { IfOk result (λ bytes. IsDeviceRead half bytes.items (V.calls device.old) (V.calls device.new)) }
{
    match read_whole(alloc, device, half) {
        Ok(bytes) => Ok(bytes),
        Err(error) => Err(failure(HostCall::Read, half, error)),
    }
}
