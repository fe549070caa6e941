//! A store that is opened and called, stopped, refused once, opened again and called again.
ghost use Rattle.std.specs.Prelude.{◌≡◌, ◌<◌, ◌+◌, ◌-◌, ◌^◌, ◌++◌, Ok, IfSome, length};
ghost use Rattle.disk_trait.specs.Disk.{IsHonest};
ghost use Rattle.plist_state.specs.State.{WorldState};
ghost use Rattle.prevalence_store.specs.meaning.Acceptance.{Acceptance, accepts, records_of};
ghost use Rattle.prevalence_store.specs.Theorem.{Keeps, KeepsSome};
ghost use Rattle.store_laws.specs.Histories.{IsStop};

use crate::troubled_disks::{AMPLE, Trouble};
use disk_trait::{Disk, MemoryDisk, OnceDisk};
use prevalence_store::{Mode, Outcome, Store};
use std::alloc::Global;
use std::test::Fail;
use store_laws::histories;
use user_macros::{MacroFunctions, Macros, NoFunctions};

/// A disk that was closed before a stop, and the store after it.
type Lives<D, M> = (D, Store<D, M>);

/// Opens a disk, executes a form, and closes the store. Then, on the disk that a stop left: an opening that is refused, an opening of
/// what that gave back, and another form. `None` where an opening or a form goes otherwise.
///
/// Where a stop after the close may have left the other disk, a crash after all leaves the world after both forms, whatever the first
/// opening of it was refused for.
fn live_on<D: Disk + Drop, M: MacroFunctions + Drop>(
    alloc: Global,
    disk: D,
    stopped: D,
    macros: M,
    first: &[u8],
    second: &[u8],
) -> Option<Lives<D, M>>
    requires room { (D.state disk).failures < 2 ^ 64 - 1 }
    requires room_again { (D.state stopped).failures < 2 ^ 64 - 2 }
    requires answers { M.answers macros }
    ensures kept { IfSome result (λ lives. (w : WorldState)
        → IsHonest (D.state disk) → Keeps M.Meaning.functions (D.state disk) w
        → IsStop D.state lives.0 lives.0 stopped
        → (one : Acceptance) × (both : Acceptance)
        × (accepts M.Meaning.functions w Mode.Current first.now ≡ Ok one)
        × (accepts M.Meaning.functions one.world Mode.Current second.now ≡ Ok both)
        × KeepsSome M.Meaning.functions (D.state lives.1.disk) w
        (records_of one.wrote Mode.Current one.text ++ records_of both.wrote Mode.Current both.text)
        (length (records_of one.wrote Mode.Current one.text) + length (records_of both.wrote Mode.Current both.text))) }
{
    let Ok(mut store) = Store::open(alloc, disk, macros, AMPLE) else {
        return None;
    };
    let Outcome::Accepted(_) = store.execute(Mode::Current, first) else {
        let _closed = store.close();
        return None;
    };
    let (left, macros) = store.close();
    let refused = match Store::open(alloc, stopped, macros, AMPLE) {
        Ok(store) => {
            let _closed = store.close();
            return None;
        }
        Err(refused) => refused,
    };
    let Ok(mut store) = Store::open(alloc, refused.disk, refused.macros, AMPLE) else {
        return None;
    };
    let Outcome::Accepted(_) = store.execute(Mode::Current, second) else {
        let _closed = store.close();
        return None;
    };
    histories::<D>();
    Some((left, store))
}

/// A fresh disk, the call of this number of which fails.
fn failing_once(alloc: Global, call: u64) -> OnceDisk<MemoryDisk> {
    OnceDisk::new(MemoryDisk::new(alloc), call)
}

/// Two forms across a stop, after which the first call of the device fails. That ends early for want of memory alone.
fn lived(alloc: Global, first: &[u8], second: &[u8]) -> Result<(), Trouble> {
    let disk = failing_once(alloc, u64::MAX);
    let stopped = failing_once(alloc, 0);
    if disk.failures() > 0 || stopped.failures() > 0 {
        return Err(Trouble::Device);
    }
    let macros = Macros::new(alloc, NoFunctions);
    live(alloc, disk, stopped, macros, first, second)
}

/// The same on these disks. That ends early for want of memory alone.
fn live<D: Disk + Drop, M: MacroFunctions + Drop>(
    alloc: Global,
    disk: D,
    stopped: D,
    macros: M,
    first: &[u8],
    second: &[u8],
) -> Result<(), Trouble>
    requires room { (D.state disk).failures < 2 ^ 64 - 1 }
    requires room_again { (D.state stopped).failures < 2 ^ 64 - 2 }
    requires answers { M.answers macros }
{
    match live_on(alloc, disk, stopped, macros, first, second) {
        Some((_left, store)) => {
            let _disk = store.close();
            Ok(())
        }
        None => Err(Trouble::Memory),
    }
}

#[test]
fn a_store_lives_on(rt: HostRuntime) -> Result<(), Fail> {
    lived(rt.alloc(), b"(SETF (GET 'A 'B) 7)", b"(GET 'A 'B)")?;
    Ok(())
}
