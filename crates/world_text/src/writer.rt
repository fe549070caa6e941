//! The text of a world.
//! After an error, want of memory alone, what was written so far is let go.
ghost use Rattle.std.specs.Prelude.{◌≡◌, [], ◌∷◌, ◌++◌, true, IfOk, OnOk};
ghost use Rattle.std.specs.Option.{option_map};
ghost use Rattle.lisp_object.specs.Datum.{object_of, is_proper};
ghost use Rattle.world_text.specs.KeptNames.{kept_names, kept_snapshot};
ghost use Rattle.world_text.specs.Snapshot.{snapshot_line, packages_with, properties_object, tables_object_1};
ghost use Rattle.world_text.specs.Snapshot.{snapshot, snapshot_in, snapshot_with};

use crate::name_test::{EveryName, NameTest};
use crate::package_rows::push_packages;
use crate::printing::push_printed;
use crate::property_texts::push_properties;
use crate::table_rows::{tables_of, tables_of_1};
use lisp_object::Datum;
use package_table::Packages;
use plist_state::World;
use std::alloc::{AllocError, Global};

// Adds a newline.
fn end_line(text: &mut Vec<u8>) -> Result<(), AllocError>
    ensures { OnOk result (text.new.items ≡ text.old.items ++ 10 ∷ []) }
{
    text.push(b'\n')?;
    Ok(())
}

// Adds the printed text of an object, and a newline.
fn push_line(
    alloc: Global,
    text: &mut Vec<u8>,
    datum: Datum,
    packages: &Packages,
) -> Result<(), AllocError>
    requires { is_proper datum ≡ true }
    ensures { OnOk result (text.new.items
        ≡ text.old.items ++ snapshot_line packages.now.0 (object_of datum)) }
{
    push_printed(alloc, text, datum, packages)?;
    end_line(text)
}

// Adds the line of the packages, with the names that a test keeps.
fn push_package_line<T: NameTest>(
    alloc: Global,
    text: &mut Vec<u8>,
    packages: &Packages,
    test: &T,
) -> Result<(), AllocError>
    ensures { let t = packages.now.0 in OnOk result (text.new.items
        ≡ text.old.items ++ snapshot_line t (packages_with t (kept_names (T.keeps test.now) t))) }
{
    push_packages(alloc, text, packages, test)?;
    end_line(text)
}

// Adds the line of the property lists.
fn push_property_line(alloc: Global, text: &mut Vec<u8>, world: &World) -> Result<(), AllocError>
    ensures { OnOk result (text.new.items
        ≡ text.old.items ++ snapshot_line world.now.0.packages (properties_object world.now.0)) }
{
    push_properties(alloc, text, world)?;
    end_line(text)
}

// The lines of the packages, with the names that a test keeps, and of the property lists.
fn first_lines<T: NameTest>(alloc: Global, world: &World, test: &T) -> Result<Vec<u8>, AllocError>
    ensures { let s = world.now.0 in IfOk result (λ text. text.items
        ≡ snapshot_line s.packages (packages_with s.packages (kept_names (T.keeps test.now) s.packages))
        ++ snapshot_line s.packages (properties_object s)) }
{
    let mut text = Vec::new(alloc);
    push_package_line(alloc, &mut text, world.packages(), test)?;
    push_property_line(alloc, &mut text, world)?;
    Ok(text)
}

/// The text of the world with those of the names made in its packages that a test keeps: `write`, for a world that has these
/// names alone. What is external, imported or used is written whatever the test says, and so are the property lists.
///
/// So the text is that of a world only where the test keeps each name that is written elsewhere: of a symbol that is external or imported,
/// that has properties, is an indicator or stands in a value. Any other text is refused where it is read.
///
/// # Errors
/// Out of memory.
pub fn write_kept<T: NameTest>(
    alloc: Global,
    world: &World,
    test: &T,
) -> Result<Vec<u8>, AllocError>
    ensures { IfOk result (λ text. text.items ≡ kept_snapshot (T.keeps test.now) world.now.0) }
{
    let mut text = first_lines(alloc, world, test)?;
    push_line(alloc, &mut text, tables_of(alloc, world)?, world.packages())?;
    Ok(text)
}

/// The text of a snapshot of the world as it is now: its packages, its property lists and its readtables, each an object
/// printed in COMMON-LISP-USER (standard 22.1.3) and followed by a newline. Marked states are not in it. It is that of versions 2 and 3.
///
/// # Errors
/// Out of memory.
pub fn write(alloc: Global, world: &World) -> Result<Vec<u8>, AllocError>
    ensures { IfOk result (λ text. text.items ≡ snapshot world.now.0) }
{
    write_kept(alloc, world, &EveryName)
}

// The same in version 1.
fn write_1(alloc: Global, world: &World) -> Result<Vec<u8>, AllocError>
    ensures { IfOk result (λ text. text.items
        ≡ snapshot_with world.now.0 (tables_object_1 world.now.0)) }
{
    let mut text = first_lines(alloc, world, &EveryName)?;
    push_line(
        alloc,
        &mut text,
        tables_of_1(alloc, world)?,
        world.packages(),
    )?;
    Ok(text)
}

/// The text of the world in a half of this version, 1 to 3, if it has one: version 1 has no base for numbers, and is the text
/// of worlds that read in base 10 alone.
///
/// # Errors
/// Out of memory.
pub fn write_in(alloc: Global, version: u16, world: &World) -> Result<Option<Vec<u8>>, AllocError>
    ensures { IfOk result (λ text.
        option_map (λ t. t.items) text ≡ snapshot_in version world.now.0) }
{
    if version == 2 || version == 3 {
        return Ok(Some(write(alloc, world)?));
    }
    if version == 1 && world.read_base() == 10 {
        return Ok(Some(write_1(alloc, world)?));
    }
    Ok(None)
}
