//! The rows of properties, by the numbers of their symbols: look-ups, single changes, and how each is taken back.
ghost use Rattle.std.specs.Prelude.{◌≡◌, ◌≤◌, true, [], map, length, Some, None, is_some, unwrap_or, IfOk, OnOk, IfErr, OnErr, IfSome, MatchOption, All, IsSome};
ghost use Rattle.std.specs.List.{position};
ghost use Rattle.std.specs.Option.{option_map};
ghost use Rattle.lisp_object.specs.Datum.{object_of, is_proper};
ghost use Rattle.property_rows.specs.Rows.{room};
ghost use Rattle.plist_state.specs.Properties.{value_beside, with_value_by, without_value_by};
ghost use Rattle.plist_state.specs.PushedLists.{holds_pair, with_pushed_by, with_pushed_in};
ghost use Rattle.plist_state.specs.Lists.{same_number, plist_of_number, value_in, with_row, with_value_in, without_value_in};
ghost use Rattle.plist_state.specs.Views.{items_in, numbered_property, plist_of, lists_of, row_at, room_at};
ghost use Rattle.plist_state.specs.Undoing.{list_before, GoesBack};
ghost use Rattle.plist_state.specs.RowIndexes.{IsIndexedIn, AreRowIndexes, KeepsOthers};
ghost use Rattle.plist_state.specs.KeptRows.{IsProperRow, IsProperRows, IsProperChange, IsEmptyList, IsWider};

use crate::first_items::{put_first, take_first};
use crate::note::PropertyChange;
use crate::pops::put_back;
use crate::row_index::{Indexes, new_order, note_back, place};
use lisp_object::Datum;
use property_rows::{NumberedProperty, Row};
use std::alloc::{AllocError, Global};

/// The properties of the symbol of a number.
pub(crate) fn row<'a>(rows: &'a Vec<Row>, number: u32) -> Option<&'a Row>
    requires { IsProperRows rows.now.items }
    ensures list { map numbered_property (items_in result) ≡ plist_of_number (lists_of rows.now) number }
    ensures proper { All (λ p. is_proper p.value ≡ true) (items_in result) }
    ensures indexed { (indexes : _) → AreRowIndexes rows.now.items indexes
        → IsIndexedIn indexes number (items_in result) }
{
    rows.get(number as usize)
}

/// How many properties the symbol of a number has.
pub(crate) fn count(rows: &Vec<Row>, number: u32) -> usize
    ensures { result ≡ length (plist_of_number (lists_of rows.now) number) }
{
    match rows.get(number as usize) {
        Some(row) => row.len(),
        None => 0,
    }
}

/// The value beside an indicator in the property list of the symbol of a number.
pub(crate) fn value<'a>(
    rows: &'a Vec<Row>,
    indexes: &Indexes,
    number: u32,
    indicator: u32,
) -> Option<&'a Datum>
    requires values { IsProperRows rows.now.items }
    requires indexed { AreRowIndexes rows.now.items indexes.now.entries }
    ensures value { option_map (λ d. object_of d.now) result
        ≡ value_in (lists_of rows.now) number indicator }
    ensures proper { IfSome result (λ d. is_proper d.now ≡ true) }
{
    let Some(row) = row(rows, number) else {
        return None;
    };
    match place(row, indexes, number, indicator) {
        Some(index) => Some(row.value(index)),
        None => None,
    }
}

// Sets the value beside an indicator in a row, in its place or last.
fn write(
    alloc: Global,
    row: &mut Row,
    indexes: &mut Indexes,
    number: u32,
    indicator: u32,
    value: Datum,
) -> Result<PropertyChange, AllocError>
    requires proper { is_proper value ≡ true }
    requires indexed { IsIndexedIn indexes.old.entries number row.old.items }
    ensures ok { IfOk result
        (λ _. plist_of row.new
        ≡ with_value_by same_number (plist_of row.old) indicator (object_of value)) }
    ensures back { IfOk result (GoesBack (plist_of row.old) (plist_of row.new)) }
    ensures values { IsProperRow row.old → IsProperRow row.new }
    ensures former { IsProperRow row.old → IfOk result IsProperChange }

    // No less room is in the row, its index fits it, and other rows keep theirs; out of memory leaves its properties as they were.
    ensures room { room row.old ≤ room row.new }
    ensures err { OnErr result (row.new.items ≡ row.old.items) }
    ensures indexed { IsIndexedIn indexes.new.entries number row.new.items }
    ensures others { KeepsOthers indexes.old.entries indexes.new.entries number }
{
    match place(row, indexes, number, indicator) {
        Some(index) => {
            let value = row.replace(index, value);
            Ok(PropertyChange::Set { index, value })
        }
        None => {
            let order = new_order(alloc, row, indexes, number, indicator)?;
            row.push(NumberedProperty {
                indicator,
                order,
                value,
            })?;
            Ok(PropertyChange::Added)
        }
    }
}

// Puts an item before the list that is beside an indicator in a row. `empty` is NIL.
fn write_first(
    row: &mut Row,
    indexes: &Indexes,
    number: u32,
    indicator: u32,
    first: Datum,
    empty: Datum,
) -> Result<PropertyChange, AllocError>
    requires first { is_proper first ≡ true }
    requires empty { IsEmptyList empty }
    requires values { IsProperRow row.old }
    requires list { holds_pair (value_beside same_number (plist_of row.old) indicator) ≡ true }
    requires indexed { IsIndexedIn indexes.now.entries number row.old.items }

    // The list has the item first, and without it is as it was.
    ensures ok { IfOk result (λ _. plist_of row.new
        ≡ with_pushed_by same_number (plist_of row.old) indicator (object_of first)) }
    ensures back { IfOk result (GoesBack (plist_of row.old) (plist_of row.new)) }
    ensures values { IsProperRow row.new }
    ensures former { IfOk result IsProperChange }

    // No less room is in the row, and its index fits it; out of memory leaves its properties as they were.
    ensures room { room row.old ≤ room row.new }
    ensures err { OnErr result (plist_of row.new ≡ plist_of row.old) }
    ensures indexed { IsIndexedIn indexes.now.entries number row.new.items }
{
    let Some(index) = place(row, indexes, number, indicator) else {
        unreachable!()
    };
    let mut list = row.replace(index, Datum::Integer(0));
    let pushed = put_first(&mut list, first);
    let _ = row.replace(index, list);
    pushed?;
    Ok(PropertyChange::Pushed { index, empty })
}

// Takes a property out of a row.
fn cut(row: &mut Row, indexes: &Indexes, number: u32, indicator: u32) -> Option<PropertyChange>
    requires { IsIndexedIn indexes.now.entries number row.old.items }
    ensures after { plist_of row.new
        ≡ without_value_by same_number (plist_of row.old) indicator }
    ensures had { is_some result
        ≡ is_some (value_beside same_number (plist_of row.old) indicator) }
    ensures back { IfSome result (GoesBack (plist_of row.old) (plist_of row.new)) }
    ensures values { IsProperRow row.old → IsProperRow row.new }
    ensures former { IsProperRow row.old → IfSome result IsProperChange }
    ensures room { room row.old ≤ room row.new }
    ensures indexed { IsIndexedIn indexes.now.entries number row.new.items }
{
    match place(row, indexes, number, indicator) {
        Some(index) => {
            let property = row.remove(index);
            Some(PropertyChange::Removed { index, property })
        }
        None => None,
    }
}

// Takes a change of a row back. There is memory for what it was.
fn revert(row: &mut Row, indexes: &mut Indexes, number: u32, change: PropertyChange)
    requires former { IsProperChange change }
    requires indexed { IsIndexedIn indexes.old.entries number row.old.items }
    requires values { IsProperRow row.old }
    requires room { length (list_before change (plist_of row.old)) ≤ room row.old }
    ensures after { plist_of row.new ≡ list_before change (plist_of row.old) }
    ensures values { IsProperRow row.old → IsProperRow row.new }

    // No less room is in the row, its index fits it, and other rows keep theirs.
    ensures room { room row.old ≤ room row.new }
    ensures indexed { IsIndexedIn indexes.new.entries number row.new.items }
    ensures others { KeepsOthers indexes.old.entries indexes.new.entries number }
{
    match change {
        PropertyChange::Set { index, value } => {
            if index < row.len() {
                let _ = row.replace(index, value);
            }
        }
        PropertyChange::Added => {
            row.pop();
        }
        PropertyChange::Pushed { index, empty } => {
            if index < row.len() {
                let mut list = row.replace(index, Datum::Integer(0));
                take_first(&mut list, empty);
                let _ = row.replace(index, list);
            }
        }
        PropertyChange::Popped { index, items } => put_back(row, index, items),
        PropertyChange::Removed { index, property } => {
            let index = index.min(row.len());
            note_back(row, indexes, number, index, &property);
            if let Err(_) = row.insert(index, property) {
                unreachable!()
            }
        }
    }
}

// An empty row for a number that has none.
fn add_row(alloc: Global, rows: &mut Vec<Row>, number: u32) -> Result<(), AllocError>
    ensures there { OnOk result (IsSome (row_at rows.new.items number)) }
    ensures same { lists_of rows.new ≡ lists_of rows.old }
    ensures wider { IsWider rows.old.items rows.new.items }
    ensures indexed { (indexes : _) → AreRowIndexes rows.old.items indexes
        → AreRowIndexes rows.new.items indexes }
{
    while rows.len() <= number as usize {
        rows.push(Row::new(alloc))?;
    }
    if rows[number as usize].has_memory() {
        return Ok(());
    }
    // Most symbols have one property.
    let row = Row::with_capacity(alloc, 1)?;
    rows[number as usize] = row;
    Ok(())
}

// Sets the value beside an indicator in the row of a number, which is there.
fn write_at(
    alloc: Global,
    rows: &mut Vec<Row>,
    indexes: &mut Indexes,
    number: u32,
    indicator: u32,
    value: Datum,
) -> Result<PropertyChange, AllocError>
    requires proper { is_proper value ≡ true }
    requires row { IsSome (row_at rows.old.items number) }
    requires values { IsProperRows rows.old.items }
    requires indexed { AreRowIndexes rows.old.items indexes.old.entries }
    ensures ok { IfOk result (λ _. lists_of rows.new
        ≡ with_value_in (lists_of rows.old) number indicator (object_of value)) }
    ensures back { IfOk result
        (GoesBack (plist_of_number (lists_of rows.old) number) (plist_of_number (lists_of rows.new) number)) }
    ensures former { IfOk result IsProperChange }

    // No row has less room, and each index fits its row; out of memory leaves all properties as they were.
    ensures wider { IsWider rows.old.items rows.new.items }
    ensures err { OnErr result (lists_of rows.new ≡ lists_of rows.old) }
    ensures indexed { AreRowIndexes rows.new.items indexes.new.entries }
{
    let Some(row) = rows.get_mut(number as usize) else {
        unreachable!()
    };
    match write(alloc, row, indexes, number, indicator, value) {
        Ok(change) => Ok(change),
        Err(_) => Err(AllocError),
    }
}

/// Sets the value beside an indicator of the symbol of a number, in its place or last. After an error, want of memory
/// alone, the properties are as they were.
pub(crate) fn put(
    alloc: Global,
    rows: &mut Vec<Row>,
    indexes: &mut Indexes,
    number: u32,
    indicator: u32,
    value: Datum,
) -> Result<PropertyChange, AllocError>
    requires proper { is_proper value ≡ true }
    requires values { IsProperRows rows.old.items }
    requires indexed { AreRowIndexes rows.old.items indexes.old.entries }
    ensures ok { IfOk result (λ _. lists_of rows.new
        ≡ with_value_in (lists_of rows.old) number indicator (object_of value)) }
    ensures back { IfOk result
        (GoesBack (plist_of_number (lists_of rows.old) number) (plist_of_number (lists_of rows.new) number)) }
    ensures former { IfOk result IsProperChange }

    // No row has less room, and each index fits its row; out of memory leaves all properties as they were.
    ensures wider { IsWider rows.old.items rows.new.items }
    ensures err { OnErr result (lists_of rows.new ≡ lists_of rows.old) }
    ensures indexed { AreRowIndexes rows.new.items indexes.new.entries }
{
    add_row(alloc, rows, number)?;
    write_at(alloc, rows, indexes, number, indicator, value)
}

/// Puts an item before the list that is beside an indicator of the symbol of a number. `empty` is NIL. After an error,
/// want of memory alone, the properties are as they were.
pub(crate) fn push(
    rows: &mut Vec<Row>,
    indexes: &Indexes,
    number: u32,
    indicator: u32,
    first: Datum,
    empty: Datum,
) -> Result<PropertyChange, AllocError>
    requires first { is_proper first ≡ true }
    requires empty { IsEmptyList empty }
    requires values { IsProperRows rows.old.items }
    requires indexed { AreRowIndexes rows.old.items indexes.now.entries }
    requires list { holds_pair (value_in (lists_of rows.old) number indicator) ≡ true }
    ensures ok { IfOk result (λ _. lists_of rows.new
        ≡ with_pushed_in (lists_of rows.old) number indicator (object_of first)) }
    ensures back { IfOk result
        (GoesBack (plist_of_number (lists_of rows.old) number) (plist_of_number (lists_of rows.new) number)) }
    ensures former { IfOk result IsProperChange }

    // No row has less room, and each index fits its row; out of memory leaves all properties as they were.
    ensures wider { IsWider rows.old.items rows.new.items }
    ensures err { OnErr result (lists_of rows.new ≡ lists_of rows.old) }
    ensures indexed { AreRowIndexes rows.new.items indexes.now.entries }
{
    let Some(row) = rows.get_mut(number as usize) else {
        unreachable!()
    };
    match write_first(row, indexes, number, indicator, first, empty) {
        Ok(change) => Ok(change),
        Err(_) => Err(AllocError),
    }
}

/// Takes the property of an indicator out of the list of the symbol of a number, if it is there.
pub(crate) fn remove(
    rows: &mut Vec<Row>,
    indexes: &Indexes,
    number: u32,
    indicator: u32,
) -> Option<PropertyChange>
    requires values { IsProperRows rows.old.items }
    requires indexed { AreRowIndexes rows.old.items indexes.now.entries }
    ensures after { lists_of rows.new
        ≡ without_value_in (lists_of rows.old) number indicator }
    ensures had { is_some result
        ≡ is_some (value_in (lists_of rows.old) number indicator) }
    ensures back { IfSome result
        (GoesBack (plist_of_number (lists_of rows.old) number) (plist_of_number (lists_of rows.new) number)) }
    ensures former { IfSome result IsProperChange }
    ensures wider { IsWider rows.old.items rows.new.items }
    ensures indexed { AreRowIndexes rows.new.items indexes.now.entries }
{
    match rows.get_mut(number as usize) {
        Some(row) => cut(row, indexes, number, indicator),
        None => None,
    }
}

/// Takes a change of the property list of the symbol of a number back. There is memory for what it was.
pub(crate) fn take_back(
    rows: &mut Vec<Row>,
    indexes: &mut Indexes,
    number: u32,
    change: PropertyChange,
)
    requires former { IsProperChange change }
    requires values { IsProperRows rows.old.items }
    requires indexed { AreRowIndexes rows.old.items indexes.old.entries }
    requires room { length (list_before change (plist_of_number (lists_of rows.old) number))
        ≤ room_at rows.old.items number }
    ensures after { lists_of rows.new
        ≡ with_row (lists_of rows.old) number (list_before change (plist_of_number (lists_of rows.old) number)) }
    ensures wider { IsWider rows.old.items rows.new.items }
    ensures indexed { AreRowIndexes rows.new.items indexes.new.entries }
{
    if let Some(row) = rows.get_mut(number as usize) {
        revert(row, indexes, number, change);
    }
}

/// Moves the properties of the symbol of a number together, if many were taken out between them. What was taken out cannot be
/// taken back in its place then.
pub(crate) fn tidy(rows: &mut Vec<Row>, number: u32)
    ensures same { lists_of rows.new ≡ lists_of rows.old }
    ensures wider { IsWider rows.old.items rows.new.items }
    ensures indexed { (indexes : _) → AreRowIndexes rows.old.items indexes
        → AreRowIndexes rows.new.items indexes }
{
    if let Some(row) = rows.get_mut(number as usize) {
        row.tidy();
    }
}
