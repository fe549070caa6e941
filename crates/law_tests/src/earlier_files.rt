//! A store that is opened on files of version 2.
ghost use Rattle.std.specs.Prelude.{◌≡◌, ◌<◌, ◌-◌, ◌^◌, IfSome, Some};
ghost use Rattle.disk_trait.specs.Disk.{IsHonest};
ghost use Rattle.plist_state.specs.State.{WorldState};
ghost use Rattle.prevalence_store.specs.meaning.Version2.{MeansWorld2};

use crate::AMPLE;
use disk_trait::{Disk, MemoryDisk};
use prevalence_store::{Store, version_2_stays};
use std::alloc::{AllocError, Global};
use std::test::Fail;
use user_macros::{MacroFunctions, Macros, NoFunctions};

/// Opens a disk. On files that meant a world to a program of version 2 the store has this world.
fn opened<D: Disk + Drop, M: MacroFunctions + Drop>(
    alloc: Global,
    disk: D,
    macros: M,
) -> Option<Store<D, M>>
    requires room { (D.state disk).failures < 2 ^ 64 - 1 }
    requires answers { M.answers macros }
    ensures { IfSome result (λ store. (w : WorldState)
        → IsHonest (D.state disk) → MeansWorld2 M.Meaning.functions (D.state disk).reads w
        → store.world ≡ Some w) }
{
    let Ok(store) = Store::open(alloc, disk, macros, AMPLE) else {
        return None;
    };
    version_2_stays();
    Some(store)
}

/// The version of the half that a store begins on this disk.
fn begun_version<D: Disk + Drop, M: MacroFunctions + Drop>(
    alloc: Global,
    disk: D,
    macros: M,
) -> Result<u16, AllocError>
    requires room { (D.state disk).failures < 2 ^ 64 - 1 }
    requires answers { M.answers macros }
{
    match opened(alloc, disk, macros) {
        Some(store) => {
            let version = store.version();
            let _disk = store.close();
            Ok(version)
        }
        None => Err(AllocError),
    }
}

#[test]
fn a_store_begins_files_of_version_2(rt: HostRuntime) -> Result<(), Fail> {
    let disk = MemoryDisk::new(rt.alloc());
    let macros = Macros::new(rt.alloc(), NoFunctions);
    assert!(rt; begun_version(rt.alloc(), disk, macros)? == 2);
    Ok(())
}
