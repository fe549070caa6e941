//! Items taken off the front of lists that are properties, and put back.
ghost use Rattle.std.specs.Prelude.{◌≡◌, ◌≤◌, ◌<◌, [], All, true, unwrap_or, vec_capacity};
ghost use Rattle.lisp_object.specs.Object.{nil};
ghost use Rattle.lisp_object.specs.Datum.{is_proper};
ghost use Rattle.property_rows.specs.Rows.{room};
ghost use Rattle.plist_state.specs.Properties.{value_beside};
ghost use Rattle.plist_state.specs.PoppedLists.{with_popped_by, with_popped_in};
ghost use Rattle.plist_state.specs.Lists.{same_number, plist_of_number, value_in};
ghost use Rattle.plist_state.specs.Views.{plist_of, lists_of};
ghost use Rattle.plist_state.specs.Undoing.{GoesBack, element_count, with_changed_at, with_items};
ghost use Rattle.plist_state.specs.RowIndexes.{IsIndexedIn, AreRowIndexes};
ghost use Rattle.plist_state.specs.KeptRows.{IsProperRow, IsProperRows, IsProperChange, IsWider};

use crate::first_items::{pop_first, put_items};
use crate::note::PropertyChange;
use crate::row_index::{Indexes, place};
use lisp_object::Datum;
use property_rows::Row;

// Takes the first item off the list that is beside an indicator in a row, and that has more, into `space`.
fn write_rest(
    row: &mut Row,
    indexes: &Indexes,
    number: u32,
    indicator: u32,
    space: Vec<Datum>,
) -> PropertyChange
    requires values { IsProperRow row.old }
    requires indexed { IsIndexedIn indexes.now.entries number row.old.items }

    // The list has more, and `space` has room for it.
    requires more { let list = unwrap_or (value_beside same_number (plist_of row.old) indicator) nil in
        1 < element_count list }
    requires empty { space.items ≡ [] }
    requires space { let list = unwrap_or (value_beside same_number (plist_of row.old) indicator) nil in
        element_count list ≤ vec_capacity space }

    // The list is without its first item, and with it before the rest it is as it was.
    ensures after { plist_of row.new ≡ with_popped_by same_number (plist_of row.old) indicator }
    ensures back { GoesBack (plist_of row.old) (plist_of row.new) result }
    ensures values { IsProperRow row.new }
    ensures former { IsProperChange result }

    // No less room is in the row, and its index fits it.
    ensures room { room row.old ≤ room row.new }
    ensures indexed { IsIndexedIn indexes.now.entries number row.new.items }
{
    let Some(index) = place(row, indexes, number, indicator) else {
        unreachable!()
    };
    let mut list = row.replace(index, Datum::Integer(0));
    let items = pop_first(&mut list, space);
    let _ = row.replace(index, list);
    PropertyChange::Popped { index, items }
}

/// Takes the first item off the list that is beside an indicator of the symbol of a number, and that has more. `space` is
/// empty, and has room for what it has.
pub(crate) fn pop(
    rows: &mut Vec<Row>,
    indexes: &Indexes,
    number: u32,
    indicator: u32,
    space: Vec<Datum>,
) -> PropertyChange
    requires values { IsProperRows rows.old.items }
    requires indexed { AreRowIndexes rows.old.items indexes.now.entries }

    // The list has more, and `space` has room for it.
    requires more { let list = unwrap_or (value_in (lists_of rows.old) number indicator) nil in
        1 < element_count list }
    requires empty { space.items ≡ [] }
    requires space { let list = unwrap_or (value_in (lists_of rows.old) number indicator) nil in
        element_count list ≤ vec_capacity space }

    // The list is without its first item, and with it before the rest it is as it was.
    ensures after { lists_of rows.new ≡ with_popped_in (lists_of rows.old) number indicator }
    ensures back { GoesBack (plist_of_number (lists_of rows.old) number)
        (plist_of_number (lists_of rows.new) number) result }
    ensures former { IsProperChange result }

    // No row has less room, and each index fits its row.
    ensures wider { IsWider rows.old.items rows.new.items }
    ensures indexed { AreRowIndexes rows.new.items indexes.now.entries }
{
    let Some(row) = rows.get_mut(number as usize) else {
        unreachable!()
    };
    write_rest(row, indexes, number, indicator, space)
}

/// Puts items before the list at an index of a row again, where they have room for what it has.
pub(crate) fn put_back(row: &mut Row, index: usize, items: Vec<Datum>)
    requires values { IsProperRow row.old }
    requires items { All (λ d. is_proper d ≡ true) items.items }
    ensures after { plist_of row.new ≡ with_changed_at (with_items items) (plist_of row.old) index }
    ensures values { IsProperRow row.new }
    ensures room { room row.old ≤ room row.new }
    ensures indexed { (indexes : _) (number : _) → IsIndexedIn indexes number row.old.items
        → IsIndexedIn indexes number row.new.items }
{
    if index < row.len() {
        let mut list = row.replace(index, Datum::Integer(0));
        put_items(&mut list, items);
        let _ = row.replace(index, list);
    }
}
