//! A file, read from its start to its end.
ghost use Rattle.std.specs.Prelude.{◌≡◌, ◌<◌, ◌≤◌, length, IfErr, IfOk};
ghost use Rattle.log_look.specs.Live.{IsHonestWatch, IsPiece, Later, file_at};
ghost use Rattle.log_look.specs.LookResults.{IsReadToEnd};
ghost use Rattle.log_look.specs.OneTry.{IsPassingLook};

use crate::PIECE;
use crate::error::LookError;
use crate::live::LiveFiles;
use disk_trait::Half;
use std::alloc::Global;

/// A piece of a half from offset `at` on, of `size` bytes at most.
pub(crate) fn read_piece<F: LiveFiles>(
    alloc: Global,
    files: &mut F,
    half: Half,
    at: u64,
    size: usize,
) -> Result<Vec<u8>, LookError>
    ensures later { Later (F.watch files.old) (F.watch files.new) }
    ensures piece { IfOk result (λ v. IsHonestWatch (F.watch files.old)
        → IsPiece (file_at half (F.watch files.old)) at size v.items
        (F.watch files.old).now (F.watch files.new).now) }
    ensures passing { IfErr result IsPassingLook }
{
    let mut bytes = vec![in alloc; 0u8; size]?;
    let count = files.read(half, at, bytes.as_mut_slice())?;
    bytes.truncate(count);
    Ok(bytes)
}

/// All bytes of a half, in pieces one after the other. Nothing is written. It fails only where the device does, or for
/// want of memory.
pub(crate) fn read_whole<F: LiveFiles>(
    alloc: Global,
    files: &mut F,
    half: Half,
) -> Result<Vec<u8>, LookError>
    ensures later { Later (F.watch files.old) (F.watch files.new) }
    ensures whole { IfOk result (λ v. IsHonestWatch (F.watch files.old)
        → IsReadToEnd (file_at half (F.watch files.old)) v.items
        (F.watch files.old).now (F.watch files.new).now) }
    ensures passing { IfErr result IsPassingLook }
{
    let mut bytes = Vec::new(alloc);
    'pieces: loop {
        let piece = read_piece(alloc, files, half, bytes.len() as u64, PIECE)?;
        bytes.extend_from_slice(piece.as_slice())?;
        if piece.len() < PIECE {
            return Ok(bytes);
        }
    }
}
