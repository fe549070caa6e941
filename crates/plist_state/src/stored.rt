//! What a world keeps besides its packages.
ghost use Rattle.std.specs.Prelude.{◌≡◌, ◌≢◌, ◌≤◌, ◌<◌, true, Ok, Err, is_some, unwrap_or, IfOk, IfErr, OnOk, OnErr};
ghost use Rattle.std.specs.FinMap as finite;
ghost use Rattle.lisp_object.specs.Object.{nil};
ghost use Rattle.lisp_object.specs.Datum.{object_of, is_proper};
ghost use Rattle.plist_state.specs.PushedLists.{holds_pair, with_pushed_in};
ghost use Rattle.plist_state.specs.PoppedLists.{with_popped_in};
ghost use Rattle.plist_state.specs.State.{first_readtables};
ghost use Rattle.plist_state.specs.Lists.{value_in, with_value_in, without_value_in};
ghost use Rattle.plist_state.specs.Views.{NumberedRest, first_numbered, rest_of, lists_of, readtables_of};
ghost use Rattle.plist_state.specs.RowIndexes.{AreRowIndexes};
ghost use Rattle.plist_state.specs.KeptRows.{IsProperRows, IsWider};
ghost use Rattle.plist_state.specs.Undoing.{rest_before, element_count};
ghost use Rattle.plist_state.specs.declared.note.Note.TheVariants.{Property};
ghost use Rattle.plist_state.specs.Journal.{marks_of, ContinuesJournal};

use crate::first_items::{count_items, end_of};
use crate::journal::{push_note, reserve_note};
use crate::note::{Note, PropertyChange};
use crate::overwritten::{PropertyPlace, as_noted, is_overwritten};
use crate::row_index::Indexes;
use crate::tables::{STANDARD, USER};
use crate::{pops, rows};
use lisp_object::Datum;
use package_table::standardized::COMMON_LISP_USER;
use property_rows::Row;
use readtable_core::Readtable;
use std::alloc::{AllocError, Global};
use std::collections::BTreeMap;

/// A row of properties for each symbol that ever had one, by its number, the indexes of long rows, the readtables by name, the
/// two current names, and the base in which numbers are read.
/// A row that was emptied stays, so that to go back takes no memory for a row: the symbol has no property list then.
#[derive(Drop)]
pub(crate) struct Stored {
    pub(crate) properties: Vec<Row>,
    pub(crate) indexes: Indexes,
    pub(crate) readtables: BTreeMap<Vec<u8>, Readtable>,
    pub(crate) current_package: Vec<u8>,
    pub(crate) current_readtable: Vec<u8>,
    pub(crate) read_base: u8,
}

// The base in which numbers are read first.
const FIRST_BASE: u8 = 10;

// The first readtables: STANDARD and USER.
fn first_readtables(alloc: Global) -> Result<BTreeMap<Vec<u8>, Readtable>, AllocError>
    ensures { IfOk result (λ tables. readtables_of tables ≡ first_readtables) }
{
    let standard = Readtable::standard(alloc)?;
    let user = Readtable::standard(alloc)?;
    let mut tables = BTreeMap::new(alloc);
    tables.insert(Vec::from_slice(alloc, STANDARD)?, standard)?;
    tables.insert(Vec::from_slice(alloc, USER)?, user)?;
    Ok(tables)
}

/// What the first world has besides its packages.
pub(crate) fn first_stored(alloc: Global) -> Result<Stored, AllocError>
    ensures first { IfOk result (λ stored. rest_of stored ≡ first_numbered) }
    ensures values { IfOk result (λ stored. IsProperRows stored.properties.items) }
    ensures indexed { IfOk result (λ stored. AreRowIndexes stored.properties.items stored.indexes.entries) }
{
    let readtables = first_readtables(alloc)?;
    Ok(Stored {
        properties: Vec::new(alloc),
        indexes: BTreeMap::new(alloc),
        readtables,
        current_package: Vec::from_slice(alloc, COMMON_LISP_USER)?,
        current_readtable: Vec::from_slice(alloc, USER)?,
        read_base: FIRST_BASE,
    })
}

// Whether a value that was set need not be noted: the one that it overwrote is overwritten as earlier changes are undone.
fn needs_no_note(rows: &Vec<Row>, marks: &[Vec<Note>], number: u32, change: &PropertyChange) -> bool
    ensures { result ≡ true → (t u : NumberedRest) → u.properties ≡ lists_of rows.now
        → rest_before (Property number change.now) u ≡ t → ContinuesJournal (marks_of marks.now) t (marks_of marks.now) u }
{
    let PropertyChange::Set { index, value } = change else {
        return false;
    };
    let Some(newest) = marks.last() else {
        return false;
    };
    if newest.is_empty() {
        return false;
    }
    let length = rows::count(rows, number);
    let place = PropertyPlace {
        index: *index,
        length,
    };
    is_overwritten(marks, number, place, value)
}

/// Sets a property of the symbol of a number, and notes what it overwrote, but where that need not be kept. After an
/// error, want of memory alone, the properties are as they were.
pub(crate) fn put(
    alloc: Global,
    stored: &mut Stored,
    marks: &mut Vec<Vec<Note>>,
    number: u32,
    indicator: u32,
    value: Datum,
) -> Result<(), AllocError>
    requires proper { is_proper value ≡ true }
    requires values { IsProperRows stored.old.properties.items }
    requires indexed { AreRowIndexes stored.old.properties.items stored.old.indexes.entries }
    ensures ok { let r = rest_of stored.old in
        OnOk result (rest_of stored.new ≡ record r {
          properties = with_value_in r.properties number indicator (object_of value);
        }) }
    ensures err { OnErr result (rest_of stored.new ≡ rest_of stored.old) }
    ensures wider { IsWider stored.old.properties.items stored.new.properties.items }
    ensures indexed { AreRowIndexes stored.new.properties.items stored.new.indexes.entries }
    ensures marked { ContinuesJournal (marks_of marks.old.items) (rest_of stored.old)
        (marks_of marks.new.items) (rest_of stored.new) }
{
    reserve_note(marks)?;
    let Ok(change) = rows::put(
        alloc,
        &mut stored.properties,
        &mut stored.indexes,
        number,
        indicator,
        value,
    ) else {
        return Err(AllocError);
    };
    if needs_no_note(&stored.properties, marks.as_slice(), number, &change) {
        return Ok(());
    }
    push_note(marks, Note::Property { number, change });
    Ok(())
}

/// Puts a value before the list that is a property of the symbol of a number, and notes it. Nothing of the list is
/// copied. After an error, want of memory alone, the properties are as they were.
pub(crate) fn push(
    alloc: Global,
    stored: &mut Stored,
    marks: &mut Vec<Vec<Note>>,
    number: u32,
    indicator: u32,
    first: Datum,
) -> Result<(), AllocError>
    requires first { is_proper first ≡ true }
    requires values { IsProperRows stored.old.properties.items }
    requires indexed { AreRowIndexes stored.old.properties.items stored.old.indexes.entries }
    requires list { holds_pair (value_in (rest_of stored.old).properties number indicator) ≡ true }

    // The property has the item first; or memory ran out, and it is as it was.
    ensures ok { let r = rest_of stored.old in
        OnOk result (rest_of stored.new ≡ record r {
          properties = with_pushed_in r.properties number indicator (object_of first);
        }) }
    ensures err { OnErr result (rest_of stored.new ≡ rest_of stored.old) }

    // No row has less room, each index fits its row, and the marks lead back to what they led back to.
    ensures wider { IsWider stored.old.properties.items stored.new.properties.items }
    ensures indexed { AreRowIndexes stored.new.properties.items stored.new.indexes.entries }
    ensures marked { ContinuesJournal (marks_of marks.old.items) (rest_of stored.old)
        (marks_of marks.new.items) (rest_of stored.new) }
{
    reserve_note(marks)?;
    let empty = Datum::nil(alloc)?;
    let Ok(change) = rows::push(
        &mut stored.properties,
        &stored.indexes,
        number,
        indicator,
        first,
        empty,
    ) else {
        return Err(AllocError);
    };
    push_note(marks, Note::Property { number, change });
    Ok(())
}

// Takes the first item off the list that is a property of the symbol of a number, which has so many, and notes it.
fn shorten(
    alloc: Global,
    stored: &mut Stored,
    marks: &mut Vec<Vec<Note>>,
    number: u32,
    indicator: u32,
    count: usize,
) -> Result<(), AllocError>
    requires values { IsProperRows stored.old.properties.items }
    requires indexed { AreRowIndexes stored.old.properties.items stored.old.indexes.entries }
    requires count { let old = value_in (rest_of stored.old).properties number indicator in
        element_count (unwrap_or old nil) ≡ count }
    requires more { 1 < count }

    // The property has the rest; or memory ran out, and it is as it was.
    ensures ok { let r = rest_of stored.old in
        OnOk result (rest_of stored.new ≡ record r {
          properties = with_popped_in r.properties number indicator;
        }) }
    ensures err { OnErr result (rest_of stored.new ≡ rest_of stored.old) }

    // No row has less room, each index fits its row, and the marks lead back to what they led back to.
    ensures wider { IsWider stored.old.properties.items stored.new.properties.items }
    ensures indexed { AreRowIndexes stored.new.properties.items stored.new.indexes.entries }
    ensures marked { ContinuesJournal (marks_of marks.old.items) (rest_of stored.old)
        (marks_of marks.new.items) (rest_of stored.new) }
{
    reserve_note(marks)?;
    let space = Vec::with_capacity(alloc, count)?;
    let change = pops::pop(
        &mut stored.properties,
        &stored.indexes,
        number,
        indicator,
        space,
    );
    push_note(marks, Note::Property { number, change });
    Ok(())
}

/// Takes the first item off the list that is a property of the symbol of a number, and notes it. The rest is not
/// copied. After an error, want of memory alone, the properties are as they were.
pub(crate) fn pop(
    alloc: Global,
    stored: &mut Stored,
    marks: &mut Vec<Vec<Note>>,
    number: u32,
    indicator: u32,
) -> Result<(), AllocError>
    requires values { IsProperRows stored.old.properties.items }
    requires indexed { AreRowIndexes stored.old.properties.items stored.old.indexes.entries }
    requires list { holds_pair (value_in (rest_of stored.old).properties number indicator) ≡ true }

    // The property has the rest; or memory ran out, and it is as it was.
    ensures ok { let r = rest_of stored.old in
        OnOk result (rest_of stored.new ≡ record r {
          properties = with_popped_in r.properties number indicator;
        }) }
    ensures err { OnErr result (rest_of stored.new ≡ rest_of stored.old) }

    // No row has less room, each index fits its row, and the marks lead back to what they led back to.
    ensures wider { IsWider stored.old.properties.items stored.new.properties.items }
    ensures indexed { AreRowIndexes stored.new.properties.items stored.new.indexes.entries }
    ensures marked { ContinuesJournal (marks_of marks.old.items) (rest_of stored.old)
        (marks_of marks.new.items) (rest_of stored.new) }
{
    let Some(list) = rows::value(&stored.properties, &stored.indexes, number, indicator) else {
        unreachable!()
    };
    let count = count_items(list);
    if count > 1 {
        return shorten(alloc, stored, marks, number, indicator, count);
    }
    let end = end_of(alloc, list)?;
    put(alloc, stored, marks, number, indicator, end)
}

// Moves the properties of the symbol of a number together, if there is no mark: then nothing that was taken out comes back.
fn tidy_unmarked(stored: &mut Stored, marks: &[Vec<Note>], number: u32)
    requires { AreRowIndexes stored.old.properties.items stored.old.indexes.entries }
    ensures same { rest_of stored.new ≡ rest_of stored.old }
    ensures wider { IsWider stored.old.properties.items stored.new.properties.items }
    ensures indexed { AreRowIndexes stored.new.properties.items stored.new.indexes.entries }
{
    if marks.is_empty() {
        rows::tidy(&mut stored.properties, number);
    }
}

/// Removes a property of the symbol of a number, notes it, and answers whether it was there. Its value is noted where
/// that has to be kept. After an error, want of memory alone, the properties are as they were.
pub(crate) fn remove(
    stored: &mut Stored,
    marks: &mut Vec<Vec<Note>>,
    number: u32,
    indicator: u32,
) -> Result<bool, AllocError>
    requires values { IsProperRows stored.old.properties.items }
    requires indexed { AreRowIndexes stored.old.properties.items stored.old.indexes.entries }

    // The property is gone, and whether it was there; or memory ran out, and it is as it was.
    ensures ok { let r = rest_of stored.old in
        OnOk result (rest_of stored.new ≡ record r {
          properties = without_value_in r.properties number indicator;
        }) }
    ensures had { IfOk result (λ had. had
        ≡ is_some (value_in (rest_of stored.old).properties number indicator)) }
    ensures absent { OnErr result
        (is_some (value_in (rest_of stored.old).properties number indicator) ≡ true) }
    ensures err { OnErr result (rest_of stored.new ≡ rest_of stored.old) }

    // No row has less room, each index fits its row, and the marks lead back to what they led back to.
    ensures wider { IsWider stored.old.properties.items stored.new.properties.items }
    ensures indexed { AreRowIndexes stored.new.properties.items stored.new.indexes.entries }
    ensures marked { ContinuesJournal (marks_of marks.old.items) (rest_of stored.old)
        (marks_of marks.new.items) (rest_of stored.new) }
{
    if rows::value(&stored.properties, &stored.indexes, number, indicator).is_none() {
        return Ok(false);
    }
    reserve_note(marks)?;
    let count = rows::count(&stored.properties, number);
    let Some(change) = rows::remove(&mut stored.properties, &stored.indexes, number, indicator)
    else {
        unreachable!()
    };
    tidy_unmarked(stored, marks.as_slice(), number);
    let change = as_noted(marks.as_slice(), number, count, change);
    push_note(marks, Note::Property { number, change });
    Ok(true)
}

// Moves what is left of the property lists together from which these notes took properties out.
fn tidy_noted(stored: &mut Stored, notes: &[Note])
    requires { AreRowIndexes stored.old.properties.items stored.old.indexes.entries }
    ensures same { rest_of stored.new ≡ rest_of stored.old }
    ensures wider { IsWider stored.old.properties.items stored.new.properties.items }
    ensures indexed { AreRowIndexes stored.new.properties.items stored.new.indexes.entries }
{
    for note in notes {
        if let Some(number) = note.shortens() {
            rows::tidy(&mut stored.properties, number);
        }
    }
}

/// Moves what is left of the property lists together from which properties were taken out since these marks.
pub(crate) fn tidy(stored: &mut Stored, marks: &[Vec<Note>])
    requires { AreRowIndexes stored.old.properties.items stored.old.indexes.entries }
    ensures same { rest_of stored.new ≡ rest_of stored.old }
    ensures wider { IsWider stored.old.properties.items stored.new.properties.items }
    ensures indexed { AreRowIndexes stored.new.properties.items stored.new.indexes.entries }
{
    for notes in marks {
        tidy_noted(stored, notes.as_slice());
    }
}
