//! Records that come together, and what a crash leaves of their bytes.
ghost use Rattle.std.specs.Prelude.{◌≡◌, ◌≢◌, ◌⊎◌, ◌<◌, ◌≤◌, ◌++◌, ℕ, List, IfOk, false, get_or, length};
ghost use Rattle.std.specs.List.{AllByRecursion};
ghost use Rattle.batch_bytes.specs.Batch.{IsLogRecord, IsPlain, LogRecord, batch_bytes, borrowed_records};
ghost use Rattle.batch_bytes.specs.Reading.{HasNoMark, IsBlank, IsUnfinishedBatch};

use batch_bytes::{
    BatchThere, batch_of, batch_there, cut_short, full_batches, one_batch, unfinished_none,
    zeroed_still,
};
use std::alloc::{AllocError, Global};
use std::test::Fail;

const MARK: u8 = 0xFE;

/// Plain records as one batch: of its bytes none is 0.
fn full_batch(alloc: Global, mark: u8, records: &[(u8, &[u8])]) -> Result<Vec<u8>, AllocError>
    requires mark { mark ≢ 0 }
    requires fit { AllByRecursion IsLogRecord (borrowed_records records.now) }
    requires plain { AllByRecursion IsPlain (borrowed_records records.now) }
    ensures { IfOk result (λ bytes. AllByRecursion (λ byte. byte ≢ 0) bytes.items) }
{
    full_batches();
    let bytes = batch_of(alloc, mark, records)?;
    Ok(bytes)
}

/// Whether what stands here is damaged: neither a batch, nor what is left of one.
///
/// - `crashed`: what a crash leaves of a batch over zeros is not damaged.
/// - `zeroed`: nor is what was left of one once some of its bytes are 0; and zeros alone are not. Of each no mark stands behind, so no other batch does.
pub fn is_damaged(mark: u8, bytes: &[u8]) -> bool
    requires { mark ≢ 0 }
    ensures crashed { (entries : List LogRecord) (left behind : List ℕ) → 0 < length entries
        → AllByRecursion IsLogRecord entries → AllByRecursion IsPlain entries → IsBlank behind → HasNoMark behind
        → length left ≤ length (batch_bytes mark entries)
        → ((i : ℕ) → i < length left → (get_or left i 0 ≡ get_or (batch_bytes mark entries) i 0) ⊎ (get_or left i 0 ≡ 0))
        → bytes.now ≡ left ++ behind → result ≡ false }
    ensures zeroed { (was : List ℕ) → length bytes.now ≤ length was
        → ((i : ℕ) → i < length bytes.now → (get_or bytes.now i 0 ≡ get_or was i 0) ⊎ (get_or bytes.now i 0 ≡ 0))
        → IsUnfinishedBatch mark was → result ≡ false }
    ensures blank { IsBlank bytes.now → HasNoMark bytes.now → result ≡ false }
{
    cut_short();
    zeroed_still();
    match batch_there(mark, bytes) {
        BatchThere::Whole {
            size: _,
            records: _,
        } => false,
        BatchThere::Unfinished => false,
        BatchThere::Neither => true,
    }
}

/// How many records the batch has that stands here, 0 where none does. It is that of the only batch that these bytes begin with; and what is
/// left of one is none.
pub fn count_records(mark: u8, bytes: &[u8]) -> usize
    requires { mark ≢ 0 }
    ensures these { (entries : List LogRecord) (behind : List ℕ) → 0 < length entries
        → AllByRecursion IsLogRecord entries → AllByRecursion IsPlain entries
        → bytes.now ≡ batch_bytes mark entries ++ behind → result ≡ length entries }
    ensures none { IsUnfinishedBatch mark bytes.now → result ≡ 0 }
{
    one_batch();
    unfinished_none();
    match batch_there(mark, bytes) {
        BatchThere::Whole { size: _, records } => records,
        BatchThere::Unfinished => 0,
        BatchThere::Neither => 0,
    }
}

/// The bytes of the records "(A)" and "(B)", which come together.
pub fn batch_of_two(alloc: Global, mark: u8) -> Result<Vec<u8>, AllocError>
    requires { mark ≢ 0 }
{
    full_batch(alloc, mark, &[(0, b"(A)"), (1, b"(B)")])
}

/// At each place the bytes end, or a 0 stands there, as a crash may leave them: no batch stands there, and no damage.
#[test]
fn a_batch_that_was_cut_short_is_no_damage(rt: HostRuntime) -> Result<(), Fail> {
    let bytes = batch_of_two(rt.alloc(), MARK)?;
    assert_eq!(rt; count_records(MARK, &bytes), 2);
    assert!(rt; !is_damaged(MARK, &bytes));
    for place in 0..bytes.len() {
        let mut left = bytes.clone()?;
        left[place] = 0;
        for cut_short in [&bytes[..place], left.as_slice()] {
            assert_eq!(rt; count_records(MARK, cut_short), 0, "{place}");
            assert!(rt; !is_damaged(MARK, cut_short), "{place}");
        }
    }
    Ok(())
}

/// Where a 0 stands in a batch and another batch behind it, no crash left that: it is damage.
#[test]
fn a_zero_before_another_batch_is_damage(rt: HostRuntime) -> Result<(), Fail> {
    let mut bytes = batch_of_two(rt.alloc(), MARK)?;
    let other = batch_of_two(rt.alloc(), MARK)?;
    bytes.extend_from_slice(other.as_slice())?;
    for place in 0..bytes.len() / 2 {
        let mut zeroed = bytes.clone()?;
        zeroed[place] = 0;
        assert_eq!(rt; count_records(MARK, zeroed.as_slice()), 0, "{place}");
        assert!(rt; is_damaged(MARK, zeroed.as_slice()), "{place}");
    }
    Ok(())
}
