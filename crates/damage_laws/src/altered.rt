//! Two halves that differ in one byte, read by the call that reads halves.
ghost use Rattle.std.specs.Prelude.{◌≡◌, ◌-◌, ◌^◌, ◌<◌, IfOk, length};
ghost use Rattle.batched_half.specs.Contents.{Contents};
ghost use Rattle.batched_half.specs.Layout.{IsHalfMark};
ghost use Rattle.damage_laws.specs.Damage.{AgreeAsFarAsBothGo, DifferInOneByte};
ghost use Rattle.disk_trait.specs.Disk.{IsHonest};

use crate::damage;
use batch_bytes::batch_of;
use batched_half::{
    HalfError, HalfRead, ONE_SYNC, TWO_SYNCS, halves_hold_contents, new_half_bytes, read_half,
};
use disk_trait::{Disk, Half, MemoryDisk};
use std::alloc::Global;
use std::test::Fail;

/// Reads half A of two disks. If these halves differ in one byte, and both are read, they agree as far as both go.
fn read_both<D: Disk>(
    alloc: Global,
    disk: &mut D,
    altered: &mut D,
) -> Result<(HalfRead, HalfRead), HalfError>
    requires room { (D.state disk.old).failures < 2 ^ 64 - 1 }
    requires room_altered { (D.state altered.old).failures < 2 ^ 64 - 1 }
    ensures { IfOk result (λ both. IsHonest (D.state disk.old) → IsHonest (D.state altered.old)
        → DifferInOneByte (D.state disk.old).reads.a (D.state altered.old).reads.a
        → (k : Contents) × (j : Contents) × AgreeAsFarAsBothGo k j
        × (both.0.head.generation ≡ k.generation) × (both.1.head.generation ≡ j.generation)
        × (both.0.records ≡ length k.entries) × (both.1.records ≡ length j.entries)) }
{
    damage();
    halves_hold_contents();
    let first = read_half(alloc, disk, Half::A)?;
    let second = read_half(alloc, altered, Half::A)?;
    Ok((first, second))
}

/// A half with a snapshot of five bytes and two records, which came in a batch each.
fn half_of_two(alloc: Global, mark: u8) -> Result<Vec<u8>, Fail>
    requires mark { IsHalfMark mark }
{
    let mut bytes = Vec::new(alloc);
    bytes.push(TWO_SYNCS)?;
    bytes.extend_from_slice(&new_half_bytes(alloc, 1, mark, &[7; 16], b"start")?)?;
    let _gate = if mark == TWO_SYNCS { bytes.pop() } else { None };
    bytes.extend_from_slice(&batch_of(alloc, mark, &[(0, b"(A)")])?)?;
    bytes.extend_from_slice(&batch_of(alloc, mark, &[(1, b"(B)")])?)?;
    bytes.push(0)?;
    Ok(bytes)
}

/// How many records are read of the half with this byte in the place of one of its own. `None` where it is refused.
fn records_with(alloc: Global, bytes: &[u8], place: usize, byte: u8) -> Result<Option<u64>, Fail>
    requires { place < length bytes.now }
{
    let mut altered = Vec::new(alloc);
    altered.extend_from_slice(bytes)?;
    altered[place] = byte;
    let mut disk = MemoryDisk::new(alloc);
    disk.write_at(Half::A, 0, bytes)?;
    let mut other = MemoryDisk::new(alloc);
    other.write_at(Half::A, 0, &altered)?;
    match read_both(alloc, &mut disk, &mut other) {
        Ok((first, second)) if second.head.generation == first.head.generation => {
            Ok(Some(second.records))
        }
        Ok(_) => Ok(Some(u64::MAX)),
        Err(HalfError::Damaged) => Ok(None),
        Err(error) => Err(error.into()),
    }
}

/// Whether a half that is kept in this manner gives no other record, whichever bit of it is turned.
fn gives_no_other(alloc: Global, mark: u8) -> Result<bool, Fail>
    requires { IsHalfMark mark }
{
    let bytes = half_of_two(alloc, mark)?;
    for place in 0..bytes.len() {
        for bit in [1u8, 2, 4, 8, 16, 32, 64, 128] {
            let byte = bytes[place] ^ bit;
            if records_with(alloc, &bytes, place, byte)?.is_some_and(|count| count > 2) {
                return Ok(false);
            }
        }
    }
    Ok(true)
}

#[test]
fn a_bit_that_is_turned_gives_no_other_record(rt: HostRuntime) -> Result<(), Fail> {
    assert!(rt; gives_no_other(rt.alloc(), TWO_SYNCS)?);
    assert!(rt; gives_no_other(rt.alloc(), ONE_SYNC)?);
    Ok(())
}
