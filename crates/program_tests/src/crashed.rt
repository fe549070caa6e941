//! A store on a new disk in memory, which crashes: what is said of it asks for nothing.
ghost use Rattle.std.specs.Prelude.{◌≡◌, IfSome, Ok};
ghost use Rattle.disk_trait.specs.Memory.{state_of};
ghost use Rattle.plist_state.specs.State.{initial};
ghost use Rattle.prevalence_store.specs.Theorem.{Keeps};
ghost use Rattle.prevalence_store.specs.meaning.Acceptance.{Acceptance, accepts};
ghost use Rattle.program_tests.specs.Crashed.{HasReopened, HasTaken};
ghost use Rattle.user_macros.specs.Functions.{no_functions};

use crate::stopped::after_crash;
use crate::troubled_disks::{AMPLE, Trouble};
use disk_trait::{Crash, Disk, MemoryDisk};
use gate_log::Halves;
use prevalence_store::{Mode, Outcome, Store, fresh_files, headline};
use std::alloc::Global;
use std::snapshot::Snapshot;
use std::test::Fail;
use user_macros::{MacroFunctions, Macros, NoFunctions};

/// A disk as it was, and the store on it.
type Taken<M> = (Snapshot<MemoryDisk>, Store<MemoryDisk, M>);

/// Opens a new disk in memory, and executes a form. `None` where a call goes otherwise.
///
/// All that `headline` asks for is met by these calls: so a crash at any moment of them leaves the world after some of their forms.
fn taken<M: MacroFunctions + Drop>(alloc: Global, macros: M, form: &[u8]) -> Option<Taken<M>>
    requires answers { M.answers macros }
    ensures { IfSome result (λ taken. (given : Acceptance)
        × HasTaken M.Meaning.functions taken.0.value taken.1 form.now given) }
{
    let disk = MemoryDisk::new(alloc);
    let start = Snapshot::of(&disk);
    let Ok(mut store) = Store::open(alloc, disk, macros, AMPLE) else {
        return None;
    };
    let Outcome::Accepted(_) = store.execute(Mode::Current, form) else {
        let _closed = store.close();
        return None;
    };
    fresh_files::<MemoryDisk>();
    headline::<MemoryDisk>();
    Some((start, store))
}

/// Closes the store, lets the disk crash in this way, and opens what that left.
fn reopened<M: MacroFunctions + Drop>(
    alloc: Global,
    store: Store<MemoryDisk, M>,
    kind: Crash,
) -> Option<Store<MemoryDisk, M>>
    ensures { IfSome result (λ later. HasReopened M.Meaning.functions store later) }
{
    let (disk, macros) = store.close();
    let Some(left) = after_crash(disk, kind) else {
        return None;
    };
    let Ok(later) = Store::open(alloc, left, macros, AMPLE) else {
        return None;
    };
    Some(later)
}

/// A new disk in memory is opened, takes a form, is closed, crashes in this way, and is opened and closed again. The store had the world then
/// that the form leaves of the initial one, and a crash of the disk that is given back would leave it again.
fn closed_again<M: MacroFunctions + Drop>(
    alloc: Global,
    macros: M,
    form: &[u8],
    kind: Crash,
) -> Option<MemoryDisk>
    requires answers { M.answers macros }
    ensures { IfSome result (λ disk. (given : Acceptance)
        × (accepts M.Meaning.functions initial Mode.Current form.now ≡ Ok given)
        × Keeps M.Meaning.functions (state_of disk) given.world) }
{
    let Some(taken) = taken(alloc, macros, form) else {
        return None;
    };
    let (_start, store) = taken;
    let Some(later) = reopened(alloc, store, kind) else {
        return None;
    };
    later.keeps_its_world();
    let (disk, _macros) = later.close();
    Some(disk)
}

/// The same by a program without macro functions. `None` where the form is refused, or for want of memory.
///
/// This is the theorem without a premise, neither on the disk nor on what its files held.
fn outlives(alloc: Global, form: &[u8], kind: Crash) -> Option<MemoryDisk>
    ensures { IfSome result (λ disk. (given : Acceptance)
        × (accepts no_functions initial Mode.Current form.now ≡ Ok given)
        × Keeps no_functions (state_of disk) given.world) }
{
    let Some(disk) = closed_again(alloc, Macros::new(alloc, NoFunctions), form, kind) else {
        return None;
    };
    Some(disk)
}

/// How many records the log of a disk has.
fn record_count(alloc: Global, disk: MemoryDisk) -> Result<u64, Trouble> {
    if disk.failures() > 0 {
        return Err(Trouble::Device);
    }
    match Halves::open(alloc, disk, AMPLE) {
        Ok(log) => Ok(log.record_count()),
        Err(_) => Err(Trouble::Memory),
    }
}

#[test]
fn a_store_outlives_each_crash(rt: HostRuntime) -> Result<(), Fail> {
    let kinds = [
        Crash::Kept,
        Crash::Lost,
        Crash::Filled(0),
        Crash::Filled(165),
    ];
    for kind in kinds {
        let Some(disk) = outlives(rt.alloc(), b"(SETF (GET 'A 'B) 7)", kind) else {
            return Err(Trouble::Memory.into());
        };
        assert!(rt; record_count(rt.alloc(), disk)? == 1);
    }
    Ok(())
}
