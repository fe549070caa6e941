//! A session that goes out through a ledger, and what is there at each moment after its lines went out.
ghost use Rattle.std.specs.Prelude.{◌≡◌, ◌≤◌, ◌<◌, ◌-◌, ◌^◌, ℕ, Some, IsSome, length};
ghost use Rattle.disk_trait.specs.Disk.{Image, IsHonest};
ghost use Rattle.plist_state.specs.State.{WorldState};
ghost use Rattle.sessions.specs.Account.{first_account};
ghost use Rattle.session_ledger.specs.OutgoingLines.{WentOut, calls_in, disk_after_lines};
ghost use Rattle.store_laws.specs.Batches.{MeansCalls};

use crate::again::AMPLE;
use disk_trait::{Disk, MemoryDisk};
use prevalence_store::{Mode, Store};
use session_ledger::{serve_recorded, what_went_out_is_there};
use sessions::{Ended, SessionOptions};
use std::alloc::Global;
use std::io::{Read, Write};
use std::test::Fail;
use user_macros::{MacroFunctions, Macros, NoFunctions};

/// A session with groups over an open store, to an output that keeps no account of its own, and how it ended.
///
/// This went out of it. And from the moment on at which lines went out for the k-th time, a crash leaves the world after all forms of at
/// least k times, and of no time a part.
fn there_by_then<D: Disk, M: MacroFunctions, I: Read, O: Write>(
    store: &mut Store<D, M>,
    reader: &mut I,
    output: &mut O,
) -> Ended
    requires is_open { IsSome store.old.world }
    ensures { (world : WorldState) → store.old.world ≡ Some world → IsHonest (D.state store.old.disk)
        → (went : WentOut M.Meaning.functions D.state
        (first_account world Mode.Current (I.remaining reader.old) store.old.disk) store.new
        (O.contents output.old) (O.contents output.new))
        × ((k : ℕ) → k ≤ length went.out.sent → (image : Image)
        → (D.state store.new.disk).left_since (D.state (disk_after_lines
        (first_account world Mode.Current (I.remaining reader.old) store.old.disk) went.out.sent k)).moment image
        → MeansCalls M.Meaning.functions world (calls_in M.Meaning.functions D.state
        (first_account world Mode.Current (I.remaining reader.old) store.old.disk) store.new went) k image) }
{
    let wanted = SessionOptions {
        mode: Mode::Current,
        snapshot_every: 0,
        snapshot_ratio: 0,
        strict: false,
        group: true,
    };
    store.keeps_its_world();
    what_went_out_is_there::<D, M>();
    serve_recorded(store, reader, output, wanted)
}

/// What a session over a disk writes, and how it ended. `None` where the disk is not opened.
fn written_over<D: Disk + Drop, M: MacroFunctions + Drop>(
    alloc: Global,
    disk: D,
    macros: M,
    input: &[u8],
) -> Option<(Ended, Vec<u8>)>
    requires room { (D.state disk).failures < 2 ^ 64 - 1 }
    requires answers { M.answers macros }
{
    let Ok(mut store) = Store::open(alloc, disk, macros, AMPLE) else {
        return None;
    };
    let mut reader = input;
    let mut output = Vec::new(alloc);
    let ended = there_by_then(&mut store, &mut reader, &mut output);
    let _closed = store.close();
    Some((ended, output))
}

/// The same over a fresh disk, with no macro functions.
fn written_anew(alloc: Global, input: &[u8]) -> Option<(Ended, Vec<u8>)> {
    let disk = MemoryDisk::new(alloc);
    if disk.failures() > 0 {
        return None;
    }
    written_over(alloc, disk, Macros::new(alloc, NoFunctions), input)
}

#[test]
fn what_went_out_is_there_by_then(rt: HostRuntime) -> Result<(), Fail> {
    let written = written_anew(rt.alloc(), b"(SETF (GET 'A 'B) 7) (GET 'A 'B)\n(CAR 'A)");
    assert!(rt;
        written.is_some_and(|(ended, bytes)| ended == Ended::End
            && bytes.as_slice() == b"7\n7\n! 31 UNKNOWN-OPERATOR\n".as_slice())
    );
    Ok(())
}
