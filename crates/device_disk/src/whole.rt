// What is asked of a device until it is done whole, or fails.
ghost use Rattle.std.specs.Prelude.{◌≡◌, ◌+◌, ◌<◌, ◌^◌, MatchResult, OnErr, IfOk, length};
ghost use Rattle.disk_trait.specs.Orders.{cuts, syncs};
ghost use Rattle.device_disk.specs.Pieces.{IsDone, IsNotDone, IsDeviceRead, IsDeviceWrittenInPart, IsDeviceWritten};

use crate::device::{Device, DeviceAnswer};
use disk_trait::Half;
use std::alloc::Global;
use std::io;

/// So many bytes are read at once.
const PIECE: usize = 65_536;

/// A file of a store has at most so many bytes: a half may have 1 GiB, and a crash leaves less than the rest behind it.
const MOST: usize = (1 << 30) + (1 << 26);

/// All bytes of a file. One that is longer than `MOST` is refused, and not read into memory to its end.
pub(crate) fn read_whole<V: Device>(
    alloc: Global,
    device: &mut V,
    half: Half,
) -> io::Result<Vec<u8>>
    ensures { IfOk result (λ bytes. IsDeviceRead half bytes.items (V.calls device.old) (V.calls device.new)) }
{
    let mut bytes = Vec::new(alloc);
    let mut piece = [0u8; PIECE];
    'parts: for _ in 0..u64::MAX {
        if bytes.len() > MOST {
            return Err(io::ErrorKind::FileTooLarge.into());
        }
        match device.read_at(half, bytes.len() as u64, &mut piece) {
            DeviceAnswer::Done(0) => return Ok(bytes),
            DeviceAnswer::Done(count) => bytes.extend_from_slice(&piece[..count])?,
            DeviceAnswer::Interrupted => {}
            DeviceAnswer::Failed(error) => return Err(error),
        }
    }
    Err(io::ErrorKind::Other.into())
}

/// Writes all of these bytes from there on.
pub(crate) fn write_whole<V: Device>(
    device: &mut V,
    half: Half,
    at: u64,
    bytes: &[u8],
) -> io::Result<()>
    requires { at + length bytes.now < 2 ^ 64 }
    ensures { MatchResult result
        (λ _. IsDeviceWritten half at bytes.now (V.calls device.old) (V.calls device.new))
        (λ _. IsDeviceWrittenInPart half at bytes.now (V.calls device.old) (V.calls device.new)) }
{
    let mut rest = bytes;
    let mut place = at;
    'pieces: for _ in 0..u64::MAX {
        if rest.is_empty() {
            return Ok(());
        }
        match device.write_at(half, place, rest) {
            DeviceAnswer::Done(0) => return Err(io::ErrorKind::WriteZero.into()),
            DeviceAnswer::Done(count) => {
                rest = &rest[count..];
                place += count as u64;
            }
            DeviceAnswer::Interrupted => {}
            DeviceAnswer::Failed(error) => return Err(error),
        }
    }
    Err(io::ErrorKind::Other.into())
}

/// Cuts a file.
pub(crate) fn cut_whole<V: Device>(device: &mut V, half: Half, len: u64) -> io::Result<()>
    ensures { MatchResult result (λ _. IsDone (cuts half len) (V.calls device.old) (V.calls device.new))
        (λ _. IsNotDone (cuts half len) (V.calls device.old) (V.calls device.new)) }
{
    'tries: for _ in 0..u64::MAX {
        match device.cut(half, len) {
            DeviceAnswer::Done(()) => return Ok(()),
            DeviceAnswer::Interrupted => {}
            DeviceAnswer::Failed(error) => return Err(error),
        }
    }
    Err(io::ErrorKind::Other.into())
}

/// Syncs a file.
pub(crate) fn sync_whole<V: Device>(device: &mut V, half: Half) -> io::Result<()>
    ensures { MatchResult result (λ _. IsDone (syncs half) (V.calls device.old) (V.calls device.new))
        (λ _. IsNotDone (syncs half) (V.calls device.old) (V.calls device.new)) }
{
    'tries: for _ in 0..u64::MAX {
        match device.sync(half) {
            DeviceAnswer::Done(()) => return Ok(()),
            DeviceAnswer::Interrupted => {}
            DeviceAnswer::Failed(error) => return Err(error),
        }
    }
    Err(io::ErrorKind::Other.into())
}
