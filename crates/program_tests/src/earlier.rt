//! A store that is opened on files of an earlier program of version 2, which had no macro functions, and to which the package PAZTURROK
//! had no operators.
ghost use Rattle.std.specs.Prelude.{◌≡◌, ◌<◌, ◌-◌, ◌^◌, IfSome, Some};
ghost use Rattle.disk_trait.specs.Disk.{IsHonest};
ghost use Rattle.plist_state.specs.State.{WorldState};
ghost use Rattle.prevalence_store.specs.meaning.BeforeOperators.{rules_before_operators};
ghost use Rattle.prevalence_store.specs.meaning.Files.{MeansWorldBy};
ghost use Rattle.user_macros.specs.Functions.{no_functions};

use crate::troubled_disks::{AMPLE, HALF, Trouble, disk_of};
use disk_trait::{Disk, MemoryDisk};
use prevalence_store::Store;
use std::alloc::Global;
use std::test::Fail;
use user_macros::{MacroFunctions, Macros, NoFunctions};
use wider_functions::newer_programs_open;

/// Opens a disk. On files that meant a world to the earlier program the store has this world.
fn opened_later<D: Disk + Drop, M: MacroFunctions + Drop>(
    alloc: Global,
    disk: D,
    macros: M,
) -> Option<Store<D, M>>
    requires room { (D.state disk).failures < 2 ^ 64 - 1 }
    requires answers { M.answers macros }
    ensures { IfSome result (λ store. (w : WorldState)
        → IsHonest (D.state disk)
        → MeansWorldBy rules_before_operators no_functions (D.state disk).reads w
        → store.world ≡ Some w) }
{
    let Ok(store) = Store::open(alloc, disk, macros, AMPLE) else {
        return None;
    };
    newer_programs_open::<D, M>();
    Some(store)
}

/// How many records a store has that is opened on a half with one.
fn record_count(alloc: Global) -> Result<u64, Trouble> {
    let disk = disk_of(alloc, HALF)?;
    if disk.failures() > 0 {
        return Err(Trouble::Device);
    }
    opened_count(alloc, disk, Macros::new(alloc, NoFunctions))
}

/// The same of a disk, once it is opened.
fn opened_count<D: Disk + Drop, M: MacroFunctions + Drop>(
    alloc: Global,
    disk: D,
    macros: M,
) -> Result<u64, Trouble>
    requires room { (D.state disk).failures < 2 ^ 64 - 1 }
    requires answers { M.answers macros }
{
    match opened_later(alloc, disk, macros) {
        Some(store) => {
            let count = store.record_count();
            let _disk = store.close();
            Ok(count)
        }
        None => Err(Trouble::Memory),
    }
}

#[test]
fn files_of_an_earlier_program_open(rt: HostRuntime) -> Result<(), Fail> {
    assert!(rt; record_count(rt.alloc())? == 1);
    Ok(())
}
