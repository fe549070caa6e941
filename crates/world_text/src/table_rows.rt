//! The readtables of a snapshot, as data.
//! After an error, want of memory alone, a part may be added.
ghost use Rattle.std.specs.Prelude.{bytes_eq, ◌≡◌, ◌++◌, ◌<◌, ◌≤◌, [], ◌∷◌, not, filter, true, pos, map, IfOk, OnOk, unwrap_or, None, get_or};
ghost use Rattle.std.specs.List.{list_all, flat_map, range_with_len};
ghost use Rattle.lisp_object.specs.Object.{list_of, text};
ghost use Rattle.lisp_object.specs.Datum.{object_of, is_proper};
ghost use Rattle.lisp_object.specs.Ascii.{is_ascii};
ghost use Rattle.readtable_core.specs.Cases.{case_name};
ghost use Rattle.readtable_core.specs.Characters.{syntax_number};
ghost use Rattle.readtable_core.specs.NamedFunctions.{same_entry};
ghost use Rattle.readtable_core.specs.Tables.{entry_at, standard};
ghost use Rattle.plist_state.specs.State.{standard_name};
ghost use Rattle.world_text.specs.Snapshot.{snapshot_readtable, readtables_object, tables_object, tables_object_1, number, dispatch_object, dispatch_objects, entry_object, entry_objects, readtable_object};

use crate::texts::{list_of_three, text_of};
use lisp_object::{Bytes, Datum};
use plist_state::{STANDARD, World};
use readtable_core::{Case, CharacterSlot, FnName, Readtable};
use std::alloc::{AllocError, Global};

// A number as a datum.
fn number_of(n: u8) -> Datum
    ensures { result ≡ Datum.Integer (pos n) }
{
    Datum::Integer(i128::from(n))
}

// The name of a function as a text.
fn function_text(alloc: Global, function: FnName) -> Result<Datum, AllocError>
    ensures object { IfOk result (λ d. object_of d ≡ text function) }
    ensures proper { IfOk result (λ d. is_proper d ≡ true) }
{
    text_of(alloc, function.as_bytes())
}

// The name of the function at a character, or the empty text.
fn function_of(alloc: Global, function: Option<FnName>) -> Result<Datum, AllocError>
    ensures object { IfOk result (λ d. object_of d ≡ text (unwrap_or function [])) }
    ensures proper { IfOk result (λ d. is_proper d ≡ true) }
{
    match function {
        Some(function) => function_text(alloc, function),
        None => text_of(alloc, b""),
    }
}

// A sub-character and its function.
fn pair_of(alloc: Global, sub: u8, function: FnName) -> Result<Datum, AllocError>
    ensures object { IfOk result (λ d. object_of d ≡ list_of (number sub ∷ text function ∷ [])) }
    ensures proper { IfOk result (λ d. is_proper d ≡ true) }
{
    let mut items = Vec::new(alloc);
    items.push(number_of(sub))?;
    items.push(function_text(alloc, function)?)?;
    Datum::list(alloc, items, None)
}

// The function of a sub-character in an entry.
fn function_at(entry: &CharacterSlot, sub: u8) -> Option<FnName>
    ensures { result ≡ get_or entry.now.dispatch sub None }
{
    let function = entry.dispatch().get(usize::from(sub))?;
    *function
}

// Adds a sub-character that has a function.
fn push_pair(
    alloc: Global,
    pairs: &mut Vec<Datum>,
    sub: u8,
    function: Option<FnName>,
) -> Result<(), AllocError>
    ensures objects { OnOk result (map object_of pairs.new.items
        ≡ map object_of pairs.old.items ++ dispatch_object function sub) }
    ensures proper { list_all is_proper pairs.old.items ≡ true
        → OnOk result (list_all is_proper pairs.new.items ≡ true) }
{
    match function {
        Some(function) => {
            pairs.push(pair_of(alloc, sub, function)?)?;
            Ok(())
        }
        None => Ok(()),
    }
}

// The sub-characters below `count` that have a function, in their order.
#[tactic(auto, using(crate::proofs::Ranges::flat_map_more))]
fn pairs_below(alloc: Global, entry: &CharacterSlot, count: u8) -> Result<Vec<Datum>, AllocError>
    ensures objects { IfOk result (λ pairs. map object_of pairs.items
        ≡ flat_map (λ sub. dispatch_object (get_or entry.now.dispatch sub None) sub)
        (range_with_len 0 count)) }
    ensures proper { IfOk result (λ pairs. list_all is_proper pairs.items ≡ true) }
{
    let mut pairs = Vec::new(alloc);
    for sub in 0..count {
        push_pair(alloc, &mut pairs, sub, function_at(entry, sub))?;
    }
    Ok(pairs)
}

// The sub-characters that have a function, in their order.
fn dispatch_rows(alloc: Global, entry: &CharacterSlot) -> Result<Vec<Datum>, AllocError>
    ensures objects { IfOk result (λ pairs. map object_of pairs.items
        ≡ dispatch_objects entry.now) }
    ensures proper { IfOk result (λ pairs. list_all is_proper pairs.items ≡ true) }
{
    pairs_below(alloc, entry, 128)
}

// A character and what is there.
fn entry_of(alloc: Global, c: u8, entry: &CharacterSlot) -> Result<Datum, AllocError>
    ensures object { IfOk result (λ d. object_of d ≡ entry_object c entry.now) }
    ensures proper { IfOk result (λ d. is_proper d ≡ true) }
{
    let function = function_of(alloc, entry.function())?;
    let dispatch = Datum::list(alloc, dispatch_rows(alloc, entry)?, None)?;
    let mut items = Vec::new(alloc);
    items.push(number_of(c))?;
    items.push(number_of(entry.syntax().number()))?;
    items.push(function)?;
    items.push(dispatch)?;
    Datum::list(alloc, items, None)
}

// The entry of a character of a readtable.
fn entry_here(table: &Readtable, c: u8) -> &CharacterSlot
    requires { c < 128 }
    ensures { result.now ≡ entry_at table.now c }
{
    table.soundness();
    &table.entries()[usize::from(c)]
}

// Adds the entry of a character that is not as in the standard readtable.
fn push_entry(
    alloc: Global,
    rows: &mut Vec<Datum>,
    table: &Readtable,
    first: &Readtable,
    c: u8,
) -> Result<(), AllocError>
    requires { c < 128 }
    ensures objects { OnOk result (map object_of rows.new.items
        ≡ map object_of rows.old.items ++ map (λ c. entry_object c (entry_at table.now c))
        (filter (λ c. not (same_entry (entry_at table.now c) (entry_at first.now c))) (c ∷ []))) }
    ensures proper { list_all is_proper rows.old.items ≡ true
        → OnOk result (list_all is_proper rows.new.items ≡ true) }
{
    if !table.same_entry(first, c) {
        rows.push(entry_of(alloc, c, entry_here(table, c))?)?;
    }
    Ok(())
}

// The entries of the characters below `count` that are not as in the standard readtable.
#[tactic(auto, using(crate::proofs::Ranges::filtered_more))]
fn entries_below(
    alloc: Global,
    table: &Readtable,
    first: &Readtable,
    count: u8,
) -> Result<Vec<Datum>, AllocError>
    requires { count ≤ 128 }
    ensures objects { IfOk result (λ rows. map object_of rows.items
        ≡ map (λ c. entry_object c (entry_at table.now c))
        (filter (λ c. not (same_entry (entry_at table.now c) (entry_at first.now c)))
        (range_with_len 0 count))) }
    ensures proper { IfOk result (λ rows. list_all is_proper rows.items ≡ true) }
{
    let mut rows = Vec::new(alloc);
    for c in 0..count {
        push_entry(alloc, &mut rows, table, first, c)?;
    }
    Ok(rows)
}

// The entries that are not as in the standard readtable.
fn entry_rows(alloc: Global, table: &Readtable, first: &Readtable) -> Result<Vec<Datum>, AllocError>
    requires { first.now ≡ standard }
    ensures objects { IfOk result (λ rows. map object_of rows.items ≡ entry_objects table.now) }
    ensures proper { IfOk result (λ rows. list_all is_proper rows.items ≡ true) }
{
    entries_below(alloc, table, first, 128)
}

// The same as one object.
fn entries_of(alloc: Global, table: &Readtable, first: &Readtable) -> Result<Datum, AllocError>
    requires { first.now ≡ standard }
    ensures object { IfOk result (λ d. object_of d ≡ list_of (entry_objects table.now)) }
    ensures proper { IfOk result (λ d. is_proper d ≡ true) }
{
    Datum::list(alloc, entry_rows(alloc, table, first)?, None)
}

// The name of a case as a text.
fn case_of(alloc: Global, letters: Case) -> Result<Datum, AllocError>
    ensures object { IfOk result (λ d. object_of d ≡ text (case_name letters)) }
    ensures proper { IfOk result (λ d. is_proper d ≡ true) }
{
    text_of(alloc, letters.name())
}

// A readtable: its name, its case and its entries.
fn readtable_of(
    alloc: Global,
    name: &[u8],
    table: &Readtable,
    first: &Readtable,
) -> Result<Datum, AllocError>
    requires { first.now ≡ standard }
    ensures object { IfOk result (λ d. object_of d ≡ readtable_object name.now table.now) }
    ensures proper { list_all is_ascii name.now ≡ true → IfOk result (λ d. is_proper d ≡ true) }
{
    let name = text_of(alloc, name)?;
    let letters = case_of(alloc, table.case())?;
    let entries = entries_of(alloc, table, first)?;
    list_of_three(alloc, name, letters, entries)
}

/// The readtable of a name, or the standard one where there is none. For snapshot_text.
pub fn table_named<'a>(world: &'a World, first: &'a Readtable, name: &[u8]) -> &'a Readtable
    requires { first.now ≡ standard }
    ensures { result.now ≡ snapshot_readtable world.now.0 name.now }
{
    match world.readtable(name) {
        Some(table) => table,
        None => first,
    }
}

// The readtables of these names, but for the standard one.
fn readtable_rows(alloc: Global, world: &World, names: &[Bytes]) -> Result<Vec<Datum>, AllocError>
    ensures objects { IfOk result (λ rows. map object_of rows.items
        ≡ map (λ n. readtable_object n (snapshot_readtable world.now.0 n))
        (filter (λ n. not (bytes_eq n standard_name)) names.now)) }
    ensures proper { list_all (λ name. list_all is_ascii name) names.now ≡ true
        → IfOk result (λ rows. list_all is_proper rows.items ≡ true) }
{
    let first = Readtable::standard(alloc)?;
    let mut rows = Vec::new(alloc);
    for name in names {
        let name = name.as_slice();
        if name != STANDARD {
            let table = table_named(world, &first, name);
            rows.push(readtable_of(alloc, name, table, &first)?)?;
        }
    }
    Ok(rows)
}

// All readtables but the standard one.
fn readtables_of(alloc: Global, world: &World) -> Result<Datum, AllocError>
    ensures object { IfOk result (λ d. object_of d ≡ readtables_object world.now.0) }
    ensures proper { IfOk result (λ d. is_proper d ≡ true) }
{
    world.soundness();
    let names = world.readtable_names(alloc)?;
    let rows = readtable_rows(alloc, world, names.as_slice())?;
    Datum::list(alloc, rows, None)
}

// The name of the current package, or of the current readtable, as a text.
fn package_text(alloc: Global, world: &World) -> Result<Datum, AllocError>
    ensures object { IfOk result (λ d. object_of d ≡ text world.now.0.current_package) }
    ensures proper { IfOk result (λ d. is_proper d ≡ true) }
{
    world.soundness();
    text_of(alloc, world.current_package())
}

fn readtable_text(alloc: Global, world: &World) -> Result<Datum, AllocError>
    ensures object { IfOk result (λ d. object_of d ≡ text world.now.0.current_readtable) }
    ensures proper { IfOk result (λ d. is_proper d ≡ true) }
{
    world.soundness();
    text_of(alloc, world.current_readtable())
}

/// The current package, the current readtable, the base of numbers, and the readtables.
pub(crate) fn tables_of(alloc: Global, world: &World) -> Result<Datum, AllocError>
    ensures object { IfOk result (λ d. object_of d ≡ tables_object world.now.0) }
    ensures proper { IfOk result (λ d. is_proper d ≡ true) }
{
    let mut items = Vec::new(alloc);
    items.push(package_text(alloc, world)?)?;
    items.push(readtable_text(alloc, world)?)?;
    items.push(number_of(world.read_base()))?;
    items.push(readtables_of(alloc, world)?)?;
    Datum::list(alloc, items, None)
}

/// The readtables, what is current, as version 1 has them: without the base.
pub(crate) fn tables_of_1(alloc: Global, world: &World) -> Result<Datum, AllocError>
    ensures object { IfOk result (λ d. object_of d ≡ tables_object_1 world.now.0) }
    ensures proper { IfOk result (λ d. is_proper d ≡ true) }
{
    let package = package_text(alloc, world)?;
    let readtable = readtable_text(alloc, world)?;
    let readtables = readtables_of(alloc, world)?;
    list_of_three(alloc, package, readtable, readtables)
}
