//! The world of a text.
ghost use Rattle.std.specs.Prelude.{◌≡◌, ◌≤◌, ℕ, List, [], ◌++◌, Some, true, length, drop, IfOk, IfErr, OnOk};
ghost use Rattle.readtable_core.specs.Tables.{standard};
ghost use Rattle.plist_state.specs.State.{WorldState, initial};
ghost use Rattle.snapshot_text.specs.BuiltWorlds.{built_with_packages, built_with_properties};
ghost use Rattle.plist_state.specs.Sound.{IsSoundWorldState as IsSoundState};
ghost use Rattle.snapshot_text.specs.NamedFunctions.{are_covered, AreBytesRefused};
ghost use Rattle.world_text.specs.Snapshot.{packages_object, tables_object_in, snapshot_line, snapshot_in};
ghost use Rattle.lisp_object.specs.Object.{Object};
ghost use Rattle.snapshot_lines.specs.PartAnswers.{IsOfMade, OrNoMemory};

use crate::SnapshotError;
use crate::package_parts::make_packages;
use crate::property_lines::read_properties;
use crate::table_parts::put_tables;
use plist_state::{Seed, World};
use readtable_core::Readtable;
use snapshot_lines::{BuildError, Source, next_object};
use std::alloc::{AllocError, Global};
use user_macros::MacroFunctions;
use world_text::{table_named, write_in};

// The most bytes in the text of a snapshot.
const MOST_BYTES: usize = 4_294_967_295;

// Makes the packages of the first line, in a new world. Gives where the next line begins.
fn read_packages(alloc: Global, world: &mut World, bytes: &[u8]) -> Result<usize, BuildError>
    ensures { (s : WorldState) (rest : List ℕ) → IsSoundState s → length bytes.now ≤ 4294967295
        → bytes.now ≡ snapshot_line s.packages (packages_object s.packages) ++ rest
        → world.old.0 ≡ initial
        → IsOfMade result (λ next. (world.new.0 ≡ built_with_packages s)
        × (drop next bytes.now ≡ rest)) }
{
    let rest = make_packages(alloc, world, bytes)?;
    // the newline is left out
    Ok(bytes.len().saturating_sub(rest.len()).saturating_add(1))
}

// Makes the readtables of the line that begins at `at`, in a world that has the packages and the properties.
fn read_tables<R: MacroFunctions>(
    source: &Source<'_, R>,
    version: u16,
    world: &mut World,
    at: usize,
) -> Result<(), BuildError>
    requires answers { R.answers source.now.macros.now }
    requires table { source.now.table.now ≡ standard }
    ensures { (s : WorldState) (third : Object) (rest : List ℕ) → IsSoundState s
        → length source.now.bytes.now ≤ 4294967295 → tables_object_in version s ≡ Some third
        → drop at source.now.bytes.now ≡ snapshot_line s.packages third ++ rest
        → world.old.0 ≡ built_with_properties s → OrNoMemory (world.new.0 ≡ s) result }
{
    let (tables, _) = next_object(source, world, at)?;
    put_tables(world, version, &tables)?;
    Ok(())
}

// Makes the packages, the properties and the readtables of the lines of a text of this version, in a new world.
fn fill<R: MacroFunctions>(
    source: &Source<'_, R>,
    version: u16,
    world: &mut World,
) -> Result<(), BuildError>
    requires answers { R.answers source.now.macros.now }
    requires table { source.now.table.now ≡ standard }
    ensures { (s : WorldState) → IsSoundState s → length source.now.bytes.now ≤ 4294967295
        → snapshot_in version s ≡ Some source.now.bytes.now → world.old.0 ≡ initial
        → OrNoMemory (world.new.0 ≡ s) result }
{
    let at = read_packages(source.alloc, world, source.bytes)?;
    let at = read_properties(source, world, at)?;
    read_tables(source, version, world, at)?;
    Ok(())
}

// A world made from the three lines of a text of this version. From the text of a sound state the state is made.
fn built<R: MacroFunctions>(
    alloc: Global,
    version: u16,
    bytes: &[u8],
    macros: &R,
    seed: Seed,
) -> Result<World, BuildError>
    requires { R.answers macros.now }
    ensures { (s : WorldState) → IsSoundState s → length bytes.now ≤ 4294967295
        → snapshot_in version s ≡ Some bytes.now → IsOfMade result (λ world. world.0 ≡ s) }
{
    let standard = Readtable::standard(alloc)?;
    let source = Source {
        alloc,
        table: &standard,
        macros,
        bytes,
    };
    let mut world = World::with_seed(alloc, seed)?;
    fill(&source, version, &mut world)?;
    Ok(world)
}

// Whether the functions that the readtables of a world name are standard or registered.
fn is_covered<R: MacroFunctions>(
    alloc: Global,
    world: &World,
    macros: &R,
) -> Result<bool, AllocError>
    ensures { IfOk result (λ covered. covered
        ≡ are_covered (R.functions macros.now).names world.now.0) }
{
    let first = Readtable::standard(alloc)?;
    let names = world.readtable_names(alloc)?;
    for name in names.as_slice() {
        if !macros.covers(table_named(world, &first, name.as_slice())) {
            return Ok(false);
        }
    }
    Ok(true)
}

// Looks whether these bytes are the text of the world that was built from them, with no function missing.
fn approve<R: MacroFunctions>(
    alloc: Global,
    version: u16,
    bytes: &[u8],
    macros: &R,
    world: &World,
) -> Result<(), SnapshotError>
    requires built { (s : WorldState) → IsSoundState s → snapshot_in version s ≡ Some bytes.now
        → world.now.0 ≡ s }
    requires size { length bytes.now ≤ 4294967295 }
    ensures text { OnOk result (snapshot_in version world.now.0 ≡ Some bytes.now) }
    ensures covered { OnOk result (are_covered (R.functions macros.now).names world.now.0 ≡ true) }
    ensures refused { IfErr result
        (AreBytesRefused (R.functions macros.now).names version bytes.now) }
{
    world.soundness();
    // what was built from the bytes of no text has another one, or none in this version
    let Some(text) = write_in(alloc, version, world)? else {
        return Err(SnapshotError::Damaged);
    };
    if text.as_slice() != bytes {
        return Err(SnapshotError::Damaged);
    }
    if !is_covered(alloc, world, macros)? {
        return Err(SnapshotError::MissingFunction);
    }
    Ok(())
}

/// The world of which these bytes are the text in a half of this version, 1 to 3, with nothing marked, where the functions that
/// its readtables name are standard or among `macros`. Only the text that `write_in` gives is read. A text of version 1 has no
/// base for numbers: its world reads in base 10.
///
/// # Errors
/// `MissingFunction` where the bytes are the text of a world, and one of its readtables names a function that is neither
/// standard nor registered; `OutOfMemory` where memory runs out; `Damaged` where the bytes are, in this version, the text of no
/// world that is sound and within the size.
pub fn read<R: MacroFunctions>(
    alloc: Global,
    version: u16,
    bytes: &[u8],
    macros: &R,
) -> Result<World, SnapshotError>
    requires { R.answers macros.now }
    ensures text { IfOk result (λ world. snapshot_in version world.0 ≡ Some bytes.now) }
    ensures only { IfOk result (λ world. (s : WorldState) → IsSoundState s
        → snapshot_in version s ≡ Some bytes.now → s ≡ world.0) }
    ensures size { IfOk result (λ world. length bytes.now ≤ 4294967295) }
    ensures covered { IfOk result (λ world. are_covered (R.functions macros.now).names world.0
        ≡ true) }
    ensures unmarked { IfOk result (λ world. world.1 ≡ []) }
    ensures refused { IfErr result
        (AreBytesRefused (R.functions macros.now).names version bytes.now) }
{
    read_with_seed(alloc, version, bytes, macros, Seed::fixed())
}

/// The same, where the names of the world are hashed by this seed (`World::with_seed`).
///
/// # Errors
/// Those of `read`.
pub fn read_with_seed<R: MacroFunctions>(
    alloc: Global,
    version: u16,
    bytes: &[u8],
    macros: &R,
    seed: Seed,
) -> Result<World, SnapshotError>
    requires { R.answers macros.now }
    ensures text { IfOk result (λ world. snapshot_in version world.0 ≡ Some bytes.now) }
    ensures only { IfOk result (λ world. (s : WorldState) → IsSoundState s
        → snapshot_in version s ≡ Some bytes.now → s ≡ world.0) }
    ensures size { IfOk result (λ world. length bytes.now ≤ 4294967295) }
    ensures covered { IfOk result (λ world. are_covered (R.functions macros.now).names world.0
        ≡ true) }
    ensures unmarked { IfOk result (λ world. world.1 ≡ []) }
    ensures refused { IfErr result
        (AreBytesRefused (R.functions macros.now).names version bytes.now) }
{
    if bytes.len() > MOST_BYTES {
        return Err(SnapshotError::Damaged);
    }
    let mut world = built(alloc, version, bytes, macros, seed)?;
    world.settle();
    world.soundness();
    match approve(alloc, version, bytes, macros, &world) {
        Ok(()) => Ok(world),
        Err(error) => Err(error),
    }
}
