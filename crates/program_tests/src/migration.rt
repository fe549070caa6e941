//! A store that is opened on files of version 1.
ghost use Rattle.std.specs.Prelude.{◌≡◌, ◌<◌, ◌-◌, ◌^◌, IfSome, Some};
ghost use Rattle.disk_trait.specs.Disk.{IsHonest};
ghost use Rattle.plist_state.specs.State.{WorldState};
ghost use Rattle.prevalence_store.specs.meaning.Version1.{MeansWorld1};

use crate::troubled_disks::{AMPLE, Trouble, disk_of};
use disk_trait::{Disk, MemoryDisk};
use prevalence_store::Store;
use std::alloc::Global;
use std::test::Fail;
use store_laws::version_1_opens;
use user_macros::{MacroFunctions, Macros, NoFunctions};

/// Opens a disk. On files that meant a world to version 1 the store has this world.
fn migrated<D: Disk + Drop, M: MacroFunctions + Drop>(
    alloc: Global,
    disk: D,
    macros: M,
) -> Option<Store<D, M>>
    requires room { (D.state disk).failures < 2 ^ 64 - 1 }
    requires answers { M.answers macros }
    ensures { IfSome result (λ store. (w : WorldState)
        → IsHonest (D.state disk) → MeansWorld1 M.Meaning.functions (D.state disk).reads w
        → store.world ≡ Some w) }
{
    let Ok(store) = Store::open(alloc, disk, macros, AMPLE) else {
        return None;
    };
    version_1_opens::<D, M>();
    Some(store)
}

/// A half of version 1 whose world has the property 7.
const HALF: &[u8] =
    b"\xa5\0\x01\0\0\0\0\0\0\0\x01\0\0\0\x87((\"COMMON-LISP-USER\" (\"COMMON-LISP\") NIL NIL NIL) (\"KEYWORD\" NIL NIL NIL NIL))\nNIL\n(\"COMMON-LISP-USER\" \"USER\" ((\"USER\" \"UPCASE\" NIL)))\n\xa5\0\0\0\0\x14(SETF (GET 'A 'B) 7)\0";

/// The version of the half in use of files of version 1, and how many records it holds.
fn migrated_half(alloc: Global) -> Result<(u16, u64), Trouble> {
    let disk = disk_of(alloc, HALF)?;
    if disk.failures() > 0 {
        return Err(Trouble::Device);
    }
    opened_half(alloc, disk, Macros::new(alloc, NoFunctions))
}

/// The same of a disk, once it is opened.
fn opened_half<D: Disk + Drop, M: MacroFunctions + Drop>(
    alloc: Global,
    disk: D,
    macros: M,
) -> Result<(u16, u64), Trouble>
    requires room { (D.state disk).failures < 2 ^ 64 - 1 }
    requires answers { M.answers macros }
{
    match migrated(alloc, disk, macros) {
        Some(store) => {
            let half = (store.version(), store.record_count());
            let _disk = store.close();
            Ok(half)
        }
        None => Err(Trouble::Memory),
    }
}

#[test]
fn files_of_version_1_open(rt: HostRuntime) -> Result<(), Fail> {
    assert!(rt; migrated_half(rt.alloc())? == (1, 1));
    Ok(())
}
