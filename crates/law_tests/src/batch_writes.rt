//! The writes of records that come together to a half of version 3, and what a crash leaves of the half.
//!
//! They write to half A and sync nothing: what is said of a crash holds from the write on.
ghost use Rattle.std.specs.Prelude.{◌≡◌, ◌≢◌, ◌⊎◌, ◌+◌, ◌-◌, ◌^◌, ◌<◌, ℕ, List, OnOk, length, replicate};
ghost use Rattle.std.specs.List.{AllByRecursion};
ghost use Rattle.batch_bytes.specs.Batch.{IsLogRecord, LogRecord, batch_bytes};
ghost use Rattle.disk_trait.specs.Calls.{IsWithinFile};
ghost use Rattle.disk_trait.specs.Disk.{IsHonest, IsMixing};
ghost use Rattle.disk_trait.specs.Memory.{state_of};
ghost use Rattle.gate_log.specs.Layout.{Contents, with_records};
ghost use Rattle.batched_half.specs.Version3.{EndsInZeros, HoldsBatches, MayCome, mark_of_one_sync};
ghost use Rattle.law_tests.specs.Writes.{EndsClosed, HasLeftBehind, IsBehindGate, LeavesHalf};

use crate::batches::{batch_of_two, count_records, is_damaged};
use batched_half::{
    batches_of_one_sync, batches_of_two_syncs, left_batches_are_cleared, one_contents_in_batches,
};
use disk_trait::{Crash, DeviceFault, Disk, Half, MemoryDisk};
use std::test::Fail;

/// The mark of a batch with one sync.
const ONE_SYNC: u8 = 0xFE;
/// The mark of a batch with two syncs.
const TWO_SYNCS: u8 = 0xA5;

/// Writes a batch over the zeros behind a half that is kept with one sync, on a disk that mixes.
///
/// - `left`: a crash leaves what the half held, or that and the new records.
/// - `nothing_else`: and these are the only contents that it holds then.
fn write_batch<D: Disk>(disk: &mut D, at: u64, bytes: &[u8]) -> Result<(), DeviceFault>
    requires room { (D.state disk.old).failures < 2 ^ 64 - 1 }
    requires within { IsWithinFile Half.A at (D.state disk.old) }
    ensures left { (k : Contents) (entries : List LogRecord) → IsHonest (D.state disk.old)
        → IsMixing (D.state disk.old) → MayCome entries → bytes.now ≡ batch_bytes mark_of_one_sync entries
        → LeavesHalf (D.state disk.old) (EndsInZeros k at)
        → LeavesHalf (D.state disk.new) (λ file. HoldsBatches k file ⊎ HoldsBatches (with_records k entries) file) }
    ensures nothing_else { (k : Contents) (entries : List LogRecord) → IsHonest (D.state disk.old)
        → IsMixing (D.state disk.old) → MayCome entries → bytes.now ≡ batch_bytes mark_of_one_sync entries
        → LeavesHalf (D.state disk.old) (EndsInZeros k at)
        → LeavesHalf (D.state disk.new) (λ file. (j : Contents) → HoldsBatches j file
        → (j ≡ k) ⊎ (j ≡ with_records k entries)) }
    ensures written { OnOk result ((k : Contents) (entries : List LogRecord) → IsHonest (D.state disk.old)
        → MayCome entries → bytes.now ≡ batch_bytes mark_of_one_sync entries
        → EndsInZeros k at (D.state disk.old).reads.a
        → EndsInZeros (with_records k entries) (at + length bytes.now) (D.state disk.new).reads.a) }
    ensures failures { OnOk result ((D.state disk.new).failures ≡ (D.state disk.old).failures) }
{
    batches_of_one_sync();
    one_contents_in_batches();
    disk.write_at(Half::A, at, bytes)
}

/// Writes zeros over what a crash left of a batch behind a half that is kept with one sync, on a disk that mixes: a crash leaves what the half
/// held.
fn clear<D: Disk>(disk: &mut D, at: u64, zeros: &[u8]) -> Result<(), DeviceFault>
    requires room { (D.state disk.old).failures < 2 ^ 64 - 1 }
    requires within { IsWithinFile Half.A at (D.state disk.old) }
    ensures held { (k : Contents) (count : ℕ) → IsHonest (D.state disk.old) → IsMixing (D.state disk.old)
        → zeros.now ≡ replicate count 0 → LeavesHalf (D.state disk.old) (HasLeftBehind k at count)
        → LeavesHalf (D.state disk.new) (HoldsBatches k) }
    ensures failures { OnOk result ((D.state disk.new).failures ≡ (D.state disk.old).failures) }
{
    left_batches_are_cleared();
    disk.write_at(Half::A, at, zeros)
}

/// Writes bytes behind the closed gate of a half that is kept with two syncs: a crash leaves what the half held.
fn write_behind<D: Disk>(disk: &mut D, place: u64, bytes: &[u8]) -> Result<(), DeviceFault>
    requires room { (D.state disk.old).failures < 2 ^ 64 - 1 }
    requires within { IsWithinFile Half.A place (D.state disk.old) }
    ensures held { (k : Contents) (at : ℕ) → IsHonest (D.state disk.old) → place ≡ at + 1
        → LeavesHalf (D.state disk.old) (EndsClosed k at)
        → LeavesHalf (D.state disk.new) (HoldsBatches k) }
    ensures failures { OnOk result ((D.state disk.new).failures ≡ (D.state disk.old).failures) }
{
    batches_of_two_syncs();
    disk.write_at(Half::A, place, bytes)
}

/// Makes that gate a mark.
///
/// - `left`: a crash leaves what the half held, or that and the records behind the gate.
/// - `written`: else they are there.
fn write_mark<D: Disk>(disk: &mut D, at: u64) -> Result<(), DeviceFault>
    requires room { (D.state disk.old).failures < 2 ^ 64 - 1 }
    requires within { IsWithinFile Half.A at (D.state disk.old) }
    ensures left { (k : Contents) (entries : List LogRecord) → IsHonest (D.state disk.old)
        → 0 < length entries → AllByRecursion IsLogRecord entries
        → LeavesHalf (D.state disk.old) (IsBehindGate k at entries)
        → LeavesHalf (D.state disk.new) (λ file. HoldsBatches k file ⊎ HoldsBatches (with_records k entries) file) }
    ensures written { OnOk result ((k : Contents) (entries : List LogRecord) → IsHonest (D.state disk.old)
        → 0 < length entries → AllByRecursion IsLogRecord entries
        → IsBehindGate k at entries (D.state disk.old).reads.a
        → HoldsBatches (with_records k entries) (D.state disk.new).reads.a) }
    ensures failures { OnOk result ((D.state disk.new).failures ≡ (D.state disk.old).failures) }
{
    batches_of_two_syncs();
    let mark = [TWO_SYNCS];
    disk.write_at(Half::A, at, &mark)
}

/// How many records stand at the front of half A, and whether it is damaged there.
fn front_of(disk: &mut MemoryDisk, mark: u8) -> Result<(usize, bool), DeviceFault>
    requires mark { mark ≢ 0 }
    requires room { (state_of disk.old).failures < 2 ^ 64 - 1 }
    ensures { OnOk result ((state_of disk.new).failures ≡ (state_of disk.old).failures) }
{
    let mut buffer = [0; 64];
    let count = disk.read(Half::A, 0, &mut buffer)?;
    let bytes = &buffer[..count];
    Ok((count_records(mark, bytes), is_damaged(mark, bytes)))
}

/// Two records are written, and nothing is synced. Then zeros are written over what a crash left.
#[test]
fn a_crash_leaves_both_or_neither(rt: HostRuntime) -> Result<(), Fail> {
    for (kind, wanted) in [
        (Crash::Kept, 2),
        (Crash::Lost, 0),
        (Crash::Scattered(100), 0),
    ] {
        let bytes = batch_of_two(rt.alloc(), ONE_SYNC)?;
        let mut disk = MemoryDisk::mixing(rt.alloc());
        write_batch(&mut disk, 0, &bytes)?;
        disk.crash(kind)?;
        assert!(rt;
            front_of(&mut disk, ONE_SYNC)? == (wanted, false),
            "{kind:?}"
        );
        clear(&mut disk, 0, &[0; 42])?;
        assert!(rt; front_of(&mut disk, ONE_SYNC)? == (0, false), "{kind:?}");
    }
    Ok(())
}

/// A closed gate, behind which two records are written; then it becomes their mark.
#[test]
fn records_are_there_with_their_mark(rt: HostRuntime) -> Result<(), Fail> {
    let bytes = batch_of_two(rt.alloc(), TWO_SYNCS)?;
    let Some((_mark, behind)) = bytes.split_first() else {
        return Err(Fail::from("no bytes"));
    };
    let mut disk = MemoryDisk::new(rt.alloc());
    disk.write_at(Half::A, 0, b"\0")?;
    let end = disk.len(Half::A)?;
    write_behind(&mut disk, end.min(1), behind)?;
    disk.sync(Half::A)?;
    assert!(rt; front_of(&mut disk, TWO_SYNCS)? == (0, false));
    write_mark(&mut disk, 0)?;
    assert!(rt; front_of(&mut disk, TWO_SYNCS)? == (2, false));
    Ok(())
}
