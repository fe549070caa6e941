//! A folder that is opened for a store that exists.
ghost use Rattle.std.specs.Prelude.{IfOk};
ghost use Rattle.disk_trait.specs.Disk.{IsHonest};
ghost use Rattle.store_commands.specs.Folders.{HoldsStore};

use crate::machine::MemoryMachine;
use crate::stops::answers_on;
use disk_trait::{HostError, MemoryDisk};
use std::alloc::Global;
use std::test::Fail;
use store_commands::{Folders, existing_stores_are_open, open_folder};

/// Opens the files of a folder, in which a store is to exist: if they are an honest disk, one of both is an open half.
fn open_existing<R: Folders>(rt: &R, folder: &str) -> Result<R::Disk, HostError>
    ensures { IfOk result (λ disk. IsHonest (R.Disk.state disk) → HoldsStore (R.Disk.state disk).reads) }
{
    existing_stores_are_open::<R>();
    let disk = open_folder(rt, folder, true)?;
    Ok(disk)
}

/// Whether the folder of a machine is opened so, before the program made a store there, and after it. `None` for want of memory.
fn is_opened_before_and_after(alloc: Global) -> Option<(bool, bool)> {
    let machine = MemoryMachine::new(alloc, MemoryDisk::new(alloc), u64::MAX).ok()?;
    let before = open_existing(&machine, "store").is_ok();
    let _answers = answers_on(alloc, &machine, "--strict", b"(SETF (GET 'A 'B) 1)\n");
    let after = open_existing(&machine, "store").is_ok();
    Some((before, after))
}

#[test]
fn a_store_is_there_once_it_was_made(rt: HostRuntime) -> Result<(), Fail> {
    assert!(rt; is_opened_before_and_after(rt.alloc()) == Some((false, true)));
    Ok(())
}

#[test]
fn a_folder_without_a_store_is_refused(rt: HostRuntime) -> Result<(), Fail> {
    for folder in ["", "/proc/self/no_such_folder"] {
        assert!(rt; open_existing(&rt, folder).is_err());
    }
    Ok(())
}
