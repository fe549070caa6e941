//! Sessions in a row over one store.
ghost use Rattle.std.specs.Prelude.{◌≡◌, ◌<◌, ◌-◌, ◌^◌, List, Option, Some, IsSome, ℕ};
ghost use Rattle.disk_trait.specs.Disk.{IsHonest};
ghost use Rattle.plist_state.specs.State.{WorldState};
ghost use Rattle.sessions.specs.Account.{first_account};
ghost use Rattle.session_ledger.specs.OutgoingLines.{WentOut, handings_of};
ghost use Rattle.store_commands.specs.Accounts.{AccountGoesOn};
ghost use Rattle.store_laws.specs.SessionLines.{account_after};

use disk_trait::{Disk, MemoryDisk};
use prevalence_store::{Mode, Store};
use session_ledger::serve_recorded;
use sessions::{Ended, SessionOptions};
use std::alloc::Global;
use std::io::{Read, Write};
use std::test::Fail;
use store_commands::sessions_go_on;
use user_macros::{MacroFunctions, Macros, NoFunctions};

/// A limit that no file comes near.
const AMPLE: u64 = 1 << 30;

/// A session over an open store, and how it ended.
///
/// This went out of it. Another session may come after it: from the account of its last lines to the one with which the other begins there
/// is one call, which acknowledges nothing.
fn serve_before_another<D: Disk, M: MacroFunctions, I: Read, O: Write>(
    store: &mut Store<D, M>,
    reader: &mut I,
    output: &mut O,
    wanted: SessionOptions,
) -> Ended
    requires is_open { IsSome store.old.world }
    ensures { (world : WorldState) → store.old.world ≡ Some world → IsHonest (D.state store.old.disk)
        → (went : WentOut M.Meaning.functions D.state
        (first_account world wanted.mode (I.remaining reader.old) store.old.disk) store.new
        (O.contents output.old) (O.contents output.new))
        × ((now : WorldState) (mode : Mode) (had : Option (List ℕ)) → store.new.world ≡ Some now
        → AccountGoesOn M.Meaning.functions D.state (account_after
        (first_account world wanted.mode (I.remaining reader.old) store.old.disk) (handings_of went.out.sent))
        (first_account now mode had store.new.disk)) }
{
    sessions_go_on::<D, M>();
    serve_recorded(store, reader, output, wanted)
}

/// What two sessions in a row over an open store wrote. `None` where the store is not open before one of them.
fn written_twice<D: Disk, M: MacroFunctions>(
    alloc: Global,
    store: &mut Store<D, M>,
    input: &[u8],
    more: &[u8],
) -> Option<Vec<u8>> {
    let wanted = SessionOptions {
        mode: Mode::Current,
        snapshot_every: 0,
        snapshot_ratio: 0,
        strict: false,
        group: true,
    };
    let mut output = Vec::new(alloc);
    for text in [input, more] {
        if !store.is_open() {
            return None;
        }
        let mut reader = text;
        let _ended = serve_before_another(store, &mut reader, &mut output, wanted);
    }
    Some(output)
}

/// The same over a disk that is opened for it.
fn written_over<D: Disk + Drop, M: MacroFunctions + Drop>(
    alloc: Global,
    disk: D,
    macros: M,
    input: &[u8],
    more: &[u8],
) -> Option<Vec<u8>>
    requires room { (D.state disk).failures < 2 ^ 64 - 1 }
    requires answers { M.answers macros }
{
    let Ok(mut store) = Store::open(alloc, disk, macros, AMPLE) else {
        return None;
    };
    let written = written_twice(alloc, &mut store, input, more);
    let _closed = store.close();
    written
}

/// The same over a fresh disk, with no macro functions.
fn written_anew(alloc: Global, input: &[u8], more: &[u8]) -> Option<Vec<u8>> {
    let disk = MemoryDisk::new(alloc);
    if disk.failures() > 0 {
        return None;
    }
    written_over(alloc, disk, Macros::new(alloc, NoFunctions), input, more)
}

#[test]
fn sessions_come_one_after_the_other(rt: HostRuntime) -> Result<(), Fail> {
    let written = written_anew(rt.alloc(), b"(SETF (GET 'A 'B) 7)", b"(GET 'A 'B)");
    assert!(rt; written.is_some_and(|bytes| bytes.as_slice() == b"7\n7\n".as_slice()));
    Ok(())
}
