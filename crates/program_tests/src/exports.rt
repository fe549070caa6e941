//! A store that takes the export of a world.
ghost use Rattle.std.specs.Prelude.{◌≡◌, ◌<◌, ◌-◌, ◌^◌, [], IfOk, IsTrue, Some, true};
ghost use Rattle.plist_state.specs.State.{initial};
ghost use Rattle.snapshot_text.specs.NamedFunctions.{are_covered};
ghost use Rattle.world_forms.specs.Properties.{left_out_lines};

use crate::same::have_same_export;
use crate::troubled_disks::{AMPLE, Trouble};
use disk_trait::{Disk, MemoryDisk};
use plist_state::World;
use prevalence_store::{Mode, Store};
use sessions::{Ended, SessionOptions, serve, serve_wanted};
use std::alloc::{AllocError, Global};
use std::test::Fail;
use user_macros::{MacroFunctions, Macros, NoFunctions};
use whole_export::export_is_taken;
use world_forms::{Content, all_forms};

/// Whether a session came to the end of its input.
fn is_at_end(ended: Ended) -> bool
    ensures { IsTrue result → ended ≡ Ended.End }
{
    matches!(ended, Ended::End)
}

/// Writes the forms of a world, and hands them to a store: whether the session came to the end of them. If the store had the first
/// world, and nothing was left out, it has this world then.
fn taken_in<D: Disk, M: MacroFunctions>(
    alloc: Global,
    world: &World,
    store: &mut Store<D, M>,
) -> Result<bool, AllocError>
    ensures { IfOk result (λ is_taken. IsTrue is_taken
        → are_covered M.Meaning.functions.names world.now.0 ≡ true
        → left_out_lines world.now.0 ≡ [] → store.old.world ≡ Some initial
        → store.new.world ≡ Some world.now.0) }
{
    let exported = all_forms(alloc, world, Content::World)?;
    let wanted = SessionOptions {
        mode: Mode::Current,
        snapshot_every: 0,
        snapshot_ratio: 0,
        strict: true,
        group: true,
    };
    let mut reader = exported.forms.as_slice();
    let mut answers = Vec::new(alloc);
    let ended = serve_wanted(store, &mut reader, &mut answers, wanted);
    world.soundness();
    export_is_taken::<D, M>();
    Ok(is_at_end(ended))
}

/// The same of the world that a store has after an input, and of another store; and how many records this has then. It says so only if
/// the two have the same export too.
fn taken_from<D: Disk, M: MacroFunctions>(
    alloc: Global,
    one: &mut Store<D, M>,
    other: &mut Store<D, M>,
    input: &[u8],
) -> Result<(bool, u64), Trouble> {
    let mut reader = input;
    let mut answers = Vec::new(alloc);
    let _ended = serve(one, &mut reader, &mut answers, Mode::Current, 0);
    match one.world() {
        Some(world) => {
            let is_taken = taken_in(alloc, world, other)?;
            let is_same = have_same_export(alloc, one, other)?;
            Ok((is_taken && is_same, other.record_count()))
        }
        None => Err(Trouble::Memory),
    }
}

/// The same over disks that are opened for it.
fn taken_over<D: Disk + Drop, M: MacroFunctions + Drop>(
    alloc: Global,
    disks: (D, D),
    macros: (M, M),
    input: &[u8],
) -> Result<(bool, u64), Trouble>
    requires room { (D.state disks.0).failures < 2 ^ 64 - 1 }
    requires others_room { (D.state disks.1).failures < 2 ^ 64 - 1 }
    requires answers { M.answers macros.0 }
    requires others_answers { M.answers macros.1 }
{
    let (disk, others_disk) = disks;
    let (macros, others_macros) = macros;
    let Ok(mut one) = Store::open(alloc, disk, macros, AMPLE) else {
        return Err(Trouble::Memory);
    };
    let Ok(mut other) = Store::open(alloc, others_disk, others_macros, AMPLE) else {
        let _closed = one.close();
        return Err(Trouble::Memory);
    };
    let taken = taken_from(alloc, &mut one, &mut other, input);
    let _closed = one.close();
    let _others_closed = other.close();
    taken
}

const INPUT: &[u8] =
    b"(MAKE-PACKAGE \"P\") (SETF (GET 'A 'B) 7) (COPY-READTABLE NIL :R) (SETF (READTABLE-CASE :R) :INVERT) (SETF *READ-BASE* 16)";

#[test]
fn an_export_is_taken(rt: HostRuntime) -> Result<(), Fail> {
    let alloc = rt.alloc();
    let disks = (MemoryDisk::new(alloc), MemoryDisk::new(alloc));
    if disks.0.failures() > 0 || disks.1.failures() > 0 {
        return Err(Fail::from(AllocError));
    }
    let macros = (
        Macros::new(alloc, NoFunctions),
        Macros::new(alloc, NoFunctions),
    );
    let (is_taken, records) = taken_over(alloc, disks, macros, INPUT)?;
    // the standard readtable, the package, three symbols, the property, :R and its case, :USER, and what is current
    assert!(rt; is_taken && records == 10);
    Ok(())
}
