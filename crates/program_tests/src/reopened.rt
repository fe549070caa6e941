//! A store that is opened with macro functions on files of a program without any.
ghost use Rattle.std.specs.Prelude.{◌≡◌, ◌<◌, ◌-◌, ◌^◌, IfSome, Some};
ghost use Rattle.disk_trait.specs.Disk.{IsHonest};
ghost use Rattle.plist_state.specs.State.{WorldState};
ghost use Rattle.prevalence_store.specs.meaning.Files.{MeansWorld};
ghost use Rattle.user_macros.specs.Functions.{no_functions};

use crate::troubled_disks::AMPLE;
use disk_trait::{Disk, MemoryDisk};
use prevalence_store::{Mode, Outcome, Store};
use std::alloc::{AllocError, Global};
use std::test::Fail;
use user_macros::{MacroFunctions, Macros, NoFunctions};
use wider_functions::more_functions_open;

/// Opens a disk with any macro functions. On files that meant a world to a program without any the store has this world.
fn opened_with<D: Disk + Drop, M: MacroFunctions + Drop>(
    alloc: Global,
    disk: D,
    macros: M,
) -> Option<Store<D, M>>
    requires room { (D.state disk).failures < 2 ^ 64 - 1 }
    requires answers { M.answers macros }
    ensures { IfSome result (λ store. (w : WorldState)
        → IsHonest (D.state disk) → MeansWorld no_functions (D.state disk).reads w
        → store.world ≡ Some w) }
{
    let Ok(store) = Store::open(alloc, disk, macros, AMPLE) else {
        return None;
    };
    more_functions_open::<D, M>();
    Some(store)
}

/// Opens a disk, executes a form and closes the store: the disk, and the number of the refusal, 0 where there is none. That ends early
/// for want of memory alone.
fn answered<D: Disk + Drop, M: MacroFunctions + Drop>(
    alloc: Global,
    disk: D,
    macros: M,
    form: &[u8],
) -> Result<(D, u16), AllocError>
    requires answers { M.answers macros }
{
    if disk.failures() > 0 {
        return Err(AllocError);
    }
    let Ok(mut store) = Store::open(alloc, disk, macros, AMPLE) else {
        return Err(AllocError);
    };
    let outcome = store.execute(Mode::Current, form);
    let (disk, _macros) = store.close();
    match outcome {
        Outcome::Accepted(_) => Ok((disk, 0)),
        Outcome::Refused(number) if number < 60 => Ok((disk, number)),
        _ => Err(AllocError),
    }
}

/// How many records the store has after an opening. That ends early for want of memory alone.
fn record_count<D: Disk + Drop, M: MacroFunctions + Drop>(
    alloc: Global,
    disk: D,
    macros: M,
) -> Result<u64, AllocError>
    requires answers { M.answers macros }
{
    if disk.failures() > 0 {
        return Err(AllocError);
    }
    let Some(store) = opened_with(alloc, disk, macros) else {
        return Err(AllocError);
    };
    let count = store.record_count();
    let _disk = store.close();
    Ok(count)
}

/// What a form is answered, and how many records the store has after another opening.
fn lived(alloc: Global) -> Result<(u16, u64), AllocError> {
    let disk = MemoryDisk::new(alloc);
    let form = b"(SETF (GET 'A 'B) 7)";
    let (disk, number) = answered(alloc, disk, Macros::new(alloc, NoFunctions), form)?;
    let count = record_count(alloc, disk, Macros::new(alloc, NoFunctions))?;
    Ok((number, count))
}

#[test]
fn files_keep_their_records(rt: HostRuntime) -> Result<(), Fail> {
    assert!(rt; lived(rt.alloc())? == (0, 1));
    Ok(())
}
