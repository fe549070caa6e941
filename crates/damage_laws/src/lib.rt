//! What a byte that has changed in a half of version 3 comes to. It is a law: the contract of a function that does nothing, so that who
//! calls it has it in his own proof. Module `altered` calls it: it reads halves of which each bit is turned.
//!
//! Lemmas in `proofs`: `Parting`, where the byte stands, and what it does to a sum; `NearRecords`, the records; `LastBatch`, what it hides with one sync;
//! `NearHalves`, the head and the snapshot.
#![tactic(auto)]

mod altered;

ghost use Rattle.std.specs.Prelude.{◌≡◌, ◌+◌, ◌<◌, ◌++◌, ℕ, List, length};
ghost use Rattle.batch_bytes.specs.Batch.{LogRecord};
ghost use Rattle.batched_half.specs.Contents.{Contents};
ghost use Rattle.batched_half.specs.PlaceReading.{records_size};
ghost use Rattle.batched_half.specs.Version3.{HoldsBatches, mark_of_one_sync, mark_of_two_syncs};
ghost use Rattle.damage_laws.specs.Damage.{AgreeAsFarAsBothGo, DifferInOneByte, IsMarkAt, LacksLastBatch};

/// A half of version 3 in which one byte has changed, whichever byte it is: either it is no half of version 3 any more, and `read_half` gives none; or
/// this holds, so that no record is ever given that was altered.
///
/// - `agree`: it has the same generation, the same snapshot, and as far as both go the same records.
/// - `hides`: with two syncs, if records are missing, the byte was the mark of the batch that begins with the first of them.
/// - `hides_last`: with one sync, if records are missing, they are those of the last batch.
pub fn damage()
    ensures agree { (k j : Contents) (file other : List ℕ) → HoldsBatches k file → HoldsBatches j other
        → DifferInOneByte file other → AgreeAsFarAsBothGo k j }
    ensures hides { (k j : Contents) (file other : List ℕ) (h : HoldsBatches k file) → HoldsBatches j other
        → (d : DifferInOneByte file other) → h.manner.mark ≡ mark_of_two_syncs
        → (more : List LogRecord) → k.entries ≡ j.entries ++ more → 0 < length more
        → IsMarkAt mark_of_two_syncs (41 + length k.snapshot + records_size j.entries) d }
    ensures hides_last { (k j : Contents) (file other : List ℕ) (h : HoldsBatches k file)
        → HoldsBatches j other → DifferInOneByte file other → h.manner.mark ≡ mark_of_one_sync
        → (more : List LogRecord) → k.entries ≡ j.entries ++ more → 0 < length more
        → LacksLastBatch h.batches j.entries }
{}
