// What a crash leaves of a file in memory.
ghost use Rattle.std.specs.Prelude.{◌≡◌, ◌+◌, ◌-◌, ◌<◌, ◌++◌, ◌*◌, ◌%◌, length, take, drop, replicate, get_or, nat_lt, if◌then◌else◌, IfOk};
ghost use Rattle.disk_trait.specs.Disk.{written};
ghost use Rattle.disk_trait.specs.Replay.{reads_after};
ghost use Rattle.disk_trait.specs.Crash.{cut_after, bytes_left_after, mixed_after, scattered_bytes, left_by_calls, torn_after};

use crate::Half;
use crate::call::{DiskCall, What};
use std::alloc::{AllocError, Global};

/// What a crash makes of the bytes that were not synced.
#[derive(Clone, Copy, Debug, PartialEq, Eq)]
pub enum Crash {
    /// All of them stay: the disk is as it reads.
    Kept,
    /// None of them stay: each file is as at its last sync.
    Lost,
    /// Each byte that may be any is this one, and each file is as long as it may be. Where writes mix none may be any: they are whole.
    Filled(u8),
    /// Of each write so many bytes in 256 are new, here and there, and the others as before, 0 past the old end. A cut is undone.
    Scattered(u8),
}

// A file with these bytes in place of its own from there on.
pub(crate) fn overwritten(
    alloc: Global,
    file: &[u8],
    at: u64,
    bytes: &[u8],
) -> Result<Vec<u8>, AllocError>
    ensures { IfOk result (λ next. next.items ≡ written at bytes.now file.now) }
{
    let at = at as usize;
    let mut next = file[..at.min(file.len())].to_vec(alloc)?;
    next.extend_from_slice(bytes)?;
    let end = at.saturating_add(bytes.len());
    if end < file.len() {
        next.extend_from_slice(&file[end..])?;
    }
    Ok(next)
}

// A file whose bytes from there on are all this one.
fn cut_filled(alloc: Global, file: &[u8], len: u64, byte: u8) -> Result<Vec<u8>, AllocError>
    ensures { IfOk result (λ next. next.items ≡ take len file.now ++ replicate (length file.now - len) byte) }
{
    let len = (len as usize).min(file.len());
    let mut next = file[..len].to_vec(alloc)?;
    next.extend_from_slice(&filler(alloc, file.len() - len, byte)?)?;
    Ok(next)
}

fn filler(alloc: Global, count: usize, byte: u8) -> Result<Vec<u8>, AllocError>
    ensures { IfOk result (λ bytes. bytes.items ≡ replicate count byte) }
{
    Ok(vec![in alloc; byte; count]?)
}

// The byte at this place in a write: the new one in so many of 256 places, else that of the file, 0 past its end.
fn mixed_byte(share: u8, place: usize, byte: u8, file: &[u8]) -> u8
    ensures { result ≡ (if nat_lt (place % 256 * 37 % 256) share then byte else get_or file.now place 0) }
{
    if place % 256 * 37 % 256 < share as usize {
        return byte;
    }
    if place < file.len() {
        return file[place];
    }
    0
}

// The bytes of a write at the end of `file` without its front, so many in 256 of them new.
fn merged(alloc: Global, share: u8, bytes: &[u8], file: &[u8]) -> Result<Vec<u8>, AllocError>
    ensures { IfOk result (λ next. next.items ≡ scattered_bytes share 0 bytes.now file.now) }
{
    let mut next = Vec::with_capacity(alloc, bytes.len())?;
    let mut place = 0usize;
    'bytes: for byte in bytes {
        next.push(mixed_byte(share, place, *byte, file))?;
        place += 1;
    }
    Ok(next)
}

// What a crash leaves of a file after a write of which it leaves some bytes.
fn written_in_part(
    alloc: Global,
    share: u8,
    at: u64,
    bytes: &[u8],
    left: &[u8],
) -> Result<Vec<u8>, AllocError>
    ensures { IfOk result (λ next. next.items
        ≡ written at (scattered_bytes share 0 bytes.now (drop at left.now)) left.now) }
{
    let behind = &left[(at as usize).min(left.len())..];
    let some = merged(alloc, share, bytes, behind)?;
    overwritten(alloc, left, at, &some)
}

// What a crash leaves of a write.
fn torn(
    alloc: Global,
    kind: Crash,
    at: u64,
    bytes: &[u8],
    left: Vec<u8>,
) -> Result<Vec<u8>, AllocError>
    ensures { IfOk result (λ next. next.items ≡ torn_after kind at bytes.now left.items) }
{
    match kind {
        Crash::Kept => overwritten(alloc, &left, at, bytes),
        Crash::Lost => Ok(left),
        Crash::Filled(byte) => overwritten(alloc, &left, at, &filler(alloc, bytes.len(), byte)?),
        Crash::Scattered(share) => written_in_part(alloc, share, at, bytes, &left),
    }
}

// What a crash leaves of a write on a disk that mixes.
fn mixed(
    alloc: Global,
    kind: Crash,
    at: u64,
    bytes: &[u8],
    left: Vec<u8>,
) -> Result<Vec<u8>, AllocError>
    ensures { IfOk result (λ next. next.items ≡ mixed_after kind at bytes.now left.items) }
{
    match kind {
        Crash::Kept | Crash::Filled(_) => overwritten(alloc, &left, at, bytes),
        Crash::Lost => Ok(left),
        Crash::Scattered(share) => written_in_part(alloc, share, at, bytes, &left),
    }
}

// What a crash leaves of a cut.
fn shortened(alloc: Global, kind: Crash, len: u64, left: Vec<u8>) -> Result<Vec<u8>, AllocError>
    ensures { IfOk result (λ next. next.items ≡ cut_after kind len left.items) }
{
    match kind {
        Crash::Kept => {
            let mut left = left;
            left.truncate(len as usize);
            Ok(left)
        }
        Crash::Lost | Crash::Scattered(_) => Ok(left),
        Crash::Filled(byte) => cut_filled(alloc, &left, len, byte),
    }
}

// What a read gives after a call, which gave `file` before.
fn next_read(alloc: Global, what: &What, file: Vec<u8>) -> Result<Vec<u8>, AllocError>
    ensures { IfOk result (λ next. next.items ≡ reads_after what.now file.items) }
{
    match what {
        What::Looked | What::Synced => Ok(file),
        What::Wrote { at, bytes } => overwritten(alloc, &file, *at, bytes),
        What::WroteMixing { at, bytes } => overwritten(alloc, &file, *at, bytes),
        What::Shortened { len } => {
            let mut file = file;
            file.truncate(*len as usize);
            Ok(file)
        }
    }
}

// What a crash leaves after a call on a file that reads as `file`, of which it left `left` before.
fn next_left(
    alloc: Global,
    what: &What,
    kind: Crash,
    file: &[u8],
    left: Vec<u8>,
) -> Result<Vec<u8>, AllocError>
    ensures { IfOk result (λ next. next.items ≡ bytes_left_after kind what.now file.now left.items) }
{
    match what {
        What::Looked => Ok(left),
        What::Synced => file.to_vec(alloc),
        What::Wrote { at, bytes } => torn(alloc, kind, *at, bytes, left),
        What::WroteMixing { at, bytes } => mixed(alloc, kind, *at, bytes, left),
        What::Shortened { len } => shortened(alloc, kind, *len, left),
    }
}

// What a crash of this kind after these calls leaves of a half.
pub(crate) fn left_of(
    alloc: Global,
    start: &[u8],
    calls: &[DiskCall],
    half: Half,
    kind: Crash,
) -> Result<Vec<u8>, AllocError>
    ensures { IfOk result (λ left. left.items ≡ left_by_calls kind half calls.now start.now start.now) }
{
    let mut file = start.to_vec(alloc)?;
    let mut left = start.to_vec(alloc)?;
    'calls: for call in calls {
        if call.half == half {
            left = next_left(alloc, &call.what, kind, &file, left)?;
            file = next_read(alloc, &call.what, file)?;
        }
    }
    Ok(left)
}
