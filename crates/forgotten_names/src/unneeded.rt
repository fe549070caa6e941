//! The symbols that a world does not need.
//! After an error, want of memory alone, nothing is left of the marks, and no world has changed.
ghost use Rattle.std.specs.Prelude.{◌≡◌, ◌∷◌, ◌++◌, ◌||◌, not, length, map, filter, IfOk, OnOk};
ghost use Rattle.std.specs.List.{flat_map};
ghost use Rattle.package_table.specs.Lookup.{is_external};
ghost use Rattle.package_table.specs.Numbers.{table_now};
ghost use Rattle.package_table.specs.Symbols.{symbols as symbols_of};
ghost use Rattle.package_table.specs.Readers.{imports, own_names, package_names};
ghost use Rattle.plist_state.specs.Changes.{plist};
ghost use Rattle.plist_state.specs.Lists.{symbols};
ghost use Rattle.plist_state.specs.Readers.{borrowed_symbol, borrowed_symbols};
ghost use Rattle.plist_state.specs.Views.{property_of};
ghost use Rattle.forgotten_names.specs.WorldsWithoutNames.{forgettable};
ghost use Rattle.forgotten_names.specs.Marks.{AddsMarks, AreMarksOfNeeded, is_marked};
ghost use Rattle.forgotten_names.specs.NeededSymbols.{plist_symbols};

use crate::marks::{is_marked, mark, mark_all, mark_datum};
use lisp_object::Bytes;
use package_table::Packages;
use plist_state::{Property, PropertyList, World};
use std::alloc::{AllocError, Global};

// Marks an indicator, and the symbols of the value beside it.
fn mark_property(
    packages: &Packages,
    marks: &mut Vec<bool>,
    property: Property<'_>,
) -> Result<(), AllocError>
    ensures { OnOk result (AddsMarks (table_now packages.now) marks.old.items marks.new.items
        ((property_of property.entry).0 ∷ symbols_of (property_of property.entry).1)) }
{
    mark(packages, marks, property.home, property.name)?;
    mark_datum(packages, marks, property.value)
}

// Marks the symbols in a property list.
#[tactic(auto, using(crate::proofs::Marking::marked_none, crate::proofs::Marking::marked_more))]
fn mark_plist(
    packages: &Packages,
    marks: &mut Vec<bool>,
    list: &PropertyList<'_>,
) -> Result<(), AllocError>
    ensures { OnOk result (AddsMarks (table_now packages.now) marks.old.items marks.new.items
        (plist_symbols list.now)) }
{
    for index in 0..list.len() {
        mark_property(packages, marks, list.at(index))?;
    }
    Ok(())
}

// Marks a symbol, and those in its property list.
fn mark_owner(
    packages: &Packages,
    marks: &mut Vec<bool>,
    world: &World,
    owner: (&[u8], &[u8]),
) -> Result<(), AllocError>
    ensures { OnOk result (AddsMarks (table_now packages.now) marks.old.items marks.new.items
        (borrowed_symbol owner.entry ∷ plist_symbols (plist world.now.0 (borrowed_symbol owner.entry)))) }
{
    mark(packages, marks, owner.0, owner.1)?;
    mark_plist(packages, marks, &world.plist_of(owner.0, owner.1))
}

// Marks these symbols, each with those in its property list.
#[tactic(auto, using(crate::proofs::Marking::marked_none, crate::proofs::Marking::marked_more))]
fn mark_owners(
    packages: &Packages,
    marks: &mut Vec<bool>,
    world: &World,
    owners: &[(&[u8], &[u8])],
) -> Result<(), AllocError>
    ensures { OnOk result (AddsMarks (table_now packages.now) marks.old.items marks.new.items
        (flat_map (λ o. borrowed_symbol o ∷ plist_symbols (plist world.now.0 (borrowed_symbol o)))
        owners.now)) }
{
    for owner in owners {
        mark_owner(packages, marks, world, *owner)?;
    }
    Ok(())
}

// Marks what a package imports: names, each with its home.
#[tactic(auto, using(crate::proofs::Marking::marked_none, crate::proofs::Marking::marked_next))]
fn mark_imports(
    packages: &Packages,
    marks: &mut Vec<bool>,
    imported: &[(Bytes, Bytes)],
) -> Result<(), AllocError>
    ensures { OnOk result (AddsMarks (table_now packages.now) marks.old.items marks.new.items
        (map (λ r. (r.1, r.0)) imported.now)) }
{
    for (name, home) in imported {
        mark(packages, marks, home.as_slice(), name.as_slice())?;
    }
    Ok(())
}

// Marks what these packages import.
#[tactic(auto, using(crate::proofs::Marking::marked_none, crate::proofs::Marking::marked_more))]
fn mark_all_imports(
    alloc: Global,
    packages: &Packages,
    marks: &mut Vec<bool>,
    owners: &[&[u8]],
) -> Result<(), AllocError>
    ensures { OnOk result (AddsMarks (table_now packages.now) marks.old.items marks.new.items
        (flat_map (λ p. map (λ r. (r.1, r.0)) (imports packages.now.0 p.now)) owners.now)) }
{
    for owner in owners {
        let Ok(imported) = packages.imports(alloc, owner) else {
            return Err(AllocError);
        };
        mark_imports(packages, marks, imported.as_slice())?;
    }
    Ok(())
}

/// Whether a symbol is external in its home, or marked. Takes no memory.
pub(crate) fn is_needed(packages: &Packages, marks: &[bool], home: &[u8], name: &[u8]) -> bool
    ensures { result ≡ (is_external packages.now.0 home.now name.now
        || is_marked (table_now packages.now) marks.now (home.now, name.now)) }
{
    if packages.is_external(home, name) {
        return true;
    }
    is_marked(packages, marks, home, name)
}

// Adds the symbols of a home that are neither external in it nor marked. The home is a package, so that only memory can run out.
fn push_unneeded<'a>(
    alloc: Global,
    packages: &'a Packages,
    marks: &[bool],
    home: &'a [u8],
    found: &mut Vec<(&'a [u8], &'a [u8])>,
) -> Result<(), AllocError>
    ensures { OnOk result (borrowed_symbols found.new.items ≡ borrowed_symbols found.old.items
        ++ filter (λ x. not (is_external packages.now.0 x.0 x.1
        || is_marked (table_now packages.now) marks.now x))
        (map (λ n. (home.now, n)) (own_names packages.now.0 home.now))) }
{
    let Ok(names) = packages.own_names(alloc, home) else {
        return Err(AllocError);
    };
    for name in names {
        if !is_needed(packages, marks, home, name) {
            found.push((home, name))?;
        }
    }
    Ok(())
}

// The symbols that are neither external in their homes nor marked.
fn unmarked<'a>(
    alloc: Global,
    packages: &'a Packages,
    marks: &[bool],
) -> Result<Vec<(&'a [u8], &'a [u8])>, AllocError>
    ensures { IfOk result (λ found. borrowed_symbols found.items
        ≡ filter (λ x. not (is_external packages.now.0 x.0 x.1
        || is_marked (table_now packages.now) marks.now x)) (symbols packages.now.0)) }
{
    let mut found = Vec::new(alloc);
    for home in packages.package_names(alloc)? {
        push_unneeded(alloc, packages, marks, home, &mut found)?;
    }
    Ok(found)
}

/// The marks of the symbols that are held, that stand in the property lists, and that are imported.
pub(crate) fn needed_marks(
    alloc: Global,
    packages: &Packages,
    world: &World,
    held: &[(&[u8], &[u8])],
) -> Result<Vec<bool>, AllocError>
    ensures { IfOk result (λ marks. AreMarksOfNeeded (borrowed_symbols held.now) world.now.0
        (table_now packages.now) marks.items) }
{
    let mut marks = Vec::new(alloc);
    mark_all(packages, &mut marks, held)?;
    let owners = world.owners(alloc)?;
    mark_owners(packages, &mut marks, world, owners.as_slice())?;
    let homes = packages.package_names(alloc)?;
    mark_all_imports(alloc, packages, &mut marks, homes.as_slice())?;
    Ok(marks)
}

/// The symbols that a world does not need, in the order of their homes and then of their names. Those in `held` are needed, and are none
/// of these. Each is there as the world has its home and its name: no name is copied. Linear in the world.
pub fn forgettable<'a>(
    alloc: Global,
    world: &'a World,
    held: &[(&[u8], &[u8])],
) -> Result<Vec<(&'a [u8], &'a [u8])>, AllocError>
    ensures { IfOk result (λ found. borrowed_symbols found.items
        ≡ forgettable (borrowed_symbols held.now) world.now.0) }
{
    let packages = world.packages();
    let marks = needed_marks(alloc, packages, world, held)?;
    unmarked(alloc, packages, marks.as_slice())
}

/// How many symbols the world does not need, where those of `held` stay in any case.
pub fn forgettable_count(
    alloc: Global,
    world: &World,
    held: &[(&[u8], &[u8])],
) -> Result<usize, AllocError>
    ensures { IfOk result (λ count. count
        ≡ length (forgettable (borrowed_symbols held.now) world.now.0)) }
{
    Ok(forgettable(alloc, world, held)?.len())
}
