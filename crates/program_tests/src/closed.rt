//! A store that is closed and opened again.
ghost use Rattle.std.specs.Prelude.{◌≡◌, ◌<◌, ◌-◌, ◌^◌, IfSome, Some};
ghost use Rattle.disk_trait.specs.Disk.{IsHonest};
ghost use Rattle.plist_state.specs.State.{WorldState};

use crate::troubled_disks::{AMPLE, Trouble};
use disk_trait::{Disk, MemoryDisk};
use prevalence_store::{Mode, Outcome, Store, one_world};
use std::alloc::Global;
use std::test::Fail;
use user_macros::{MacroFunctions, Macros, NoFunctions};

/// Closes a store and opens it again, with no crash between: it has the world that it had. `None` where it is not opened.
fn opened_again<D: Disk + Drop, M: MacroFunctions + Drop>(
    alloc: Global,
    store: Store<D, M>,
) -> Option<Store<D, M>>
    ensures { IfSome result (λ later. (w : WorldState) → store.world ≡ Some w
        → IsHonest (D.state store.disk) → later.world ≡ Some w) }
{
    store.keeps_its_world();
    one_world();
    let (disk, macros) = store.close();
    if disk.failures() == u64::MAX {
        return None;
    }
    let Ok(later) = Store::open(alloc, disk, macros, AMPLE) else {
        return None;
    };
    Some(later)
}

/// How many records a store has that took a form, and was closed and opened again.
fn record_count<D: Disk + Drop, M: MacroFunctions + Drop>(
    alloc: Global,
    disk: D,
    macros: M,
    form: &[u8],
) -> Result<u64, Trouble>
    requires room { (D.state disk).failures < 2 ^ 64 - 1 }
    requires answers { M.answers macros }
{
    let Ok(mut store) = Store::open(alloc, disk, macros, AMPLE) else {
        return Err(Trouble::Memory);
    };
    let outcome = store.execute(Mode::Current, form);
    let Some(later) = opened_again(alloc, store) else {
        return Err(Trouble::Memory);
    };
    let count = later.record_count();
    let _closed = later.close();
    match outcome {
        Outcome::Accepted(_) => Ok(count),
        _ => Err(Trouble::Memory),
    }
}

#[test]
fn a_store_opens_as_it_was_closed(rt: HostRuntime) -> Result<(), Fail> {
    let alloc = rt.alloc();
    let disk = MemoryDisk::new(alloc);
    let macros = Macros::new(alloc, NoFunctions);
    assert!(rt; record_count(alloc, disk, macros, b"(SETF (GET 'A 'B) 7)")? == 1);
    Ok(())
}
