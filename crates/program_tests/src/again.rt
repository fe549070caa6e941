//! The store that a history goes on with after a session.
ghost use Rattle.std.specs.Prelude.{ℕ, List, ◌<◌, ◌-◌, ◌^◌, IfSome, IsSome};
ghost use Rattle.gate_log.specs.Layout.{LogRecord};
ghost use Rattle.plist_state.specs.State.{WorldState};
ghost use Rattle.store_laws.specs.Histories.{StandsAfterEvents, StillStands};

use disk_trait::{Disk, MemoryDisk, OnceDisk};
use prevalence_store::{Mode, Store};
use std::alloc::Global;
use std::test::Fail;
use store_laws::histories;
use user_macros::{MacroFunctions, Macros, NoFunctions};

/// A limit that no file of a test comes near.
pub const AMPLE: u64 = 1 << 30;

/// The store, as it is; or, if a device fault came, opened again on the disk that this left. `None` where the opening is refused.
///
/// - `is_open`: it has a world, so that it may be called.
/// - `stands`: however a history stood, all forms that were sure are still the first of its line.
pub fn reopen_failed<D: Disk + Drop, M: MacroFunctions + Drop>(
    alloc: Global,
    store: Store<D, M>,
) -> Option<Store<D, M>>
    ensures is_open { IfSome result (λ later. IsSome later.world) }
    ensures stands { IfSome result (λ later. (first : WorldState) (line : List LogRecord) (sure : ℕ)
        → StandsAfterEvents M.Meaning.functions D.state first line sure store.disk store.world
        → StillStands M.Meaning.functions D.state first line sure later.disk later.world) }
{
    histories::<D>();
    if store.world().is_some() {
        return Some(store);
    }
    let (disk, macros) = store.close();
    if disk.failures() == u64::MAX {
        return None;
    }
    match Store::open(alloc, disk, macros, AMPLE) {
        Ok(store) => Some(store),
        Err(_) => None,
    }
}

/// How many records a store over this disk has once it took a form twice, and was opened again between where the first failed.
fn record_count<D: Disk + Drop, M: MacroFunctions + Drop>(
    alloc: Global,
    disk: D,
    macros: M,
    form: &[u8],
) -> Option<u64>
    requires room { (D.state disk).failures < 2 ^ 64 - 1 }
    requires answers { M.answers macros }
{
    let Ok(mut store) = Store::open(alloc, disk, macros, AMPLE) else {
        return None;
    };
    let _first = store.execute(Mode::Current, form);
    let mut later = reopen_failed(alloc, store)?;
    let _second = later.execute(Mode::Current, form);
    let count = later.record_count();
    let _closed = later.close();
    Some(count)
}

/// The same over a fresh disk, the call of this number of which fails.
fn record_count_over_a_fault(alloc: Global, call: u64) -> Option<u64> {
    let disk = OnceDisk::new(MemoryDisk::new(alloc), call);
    if disk.failures() > 0 {
        return None;
    }
    record_count(
        alloc,
        disk,
        Macros::new(alloc, NoFunctions),
        b"(SETF (GET 'A 'B) 7)",
    )
}

#[test]
fn a_store_goes_on_after_a_fault(rt: HostRuntime) -> Result<(), Fail> {
    let alloc = rt.alloc();
    assert!(rt; record_count_over_a_fault(alloc, u64::MAX) == Some(2));
    Ok(())
}
