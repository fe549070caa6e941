//! The index of a long row: the order of each of its properties by the number of its indicator.
ghost use Rattle.std.specs.Prelude.{◌≡◌, ◌≢◌, ◌≤◌, ◌<◌, ◌-◌, ◌++◌, ◌∷◌, [], ℕ, true, None, Some, cond, length, IfOk, IfErr, IfSome, OnOk};
ghost use Rattle.std.specs.List.{position, insert};
ghost use Rattle.std.specs.Ordering.{nat_cmp, eq_by_cmp};
ghost use Rattle.property_rows.specs.declared.property.NumberedProperty.{NumberedProperty as Numbered};
ghost use Rattle.plist_state.specs.Lists.{same_number};
ghost use Rattle.plist_state.specs.RowIndexes.{Orders, orders, indexed_order, order_in, HasRisingOrders, IsRowIndex, IsIndexedIn, KeepsOthers};

use property_rows::{NumberedProperty, Row};
use std::alloc::{AllocError, Global};
use std::collections::BTreeMap;

/// The order of each property of a row, by the number of its indicator.
pub(crate) type Index = BTreeMap<u32, u64>;

/// The indexes of long rows, by the numbers of their symbols.
pub(crate) type Indexes = BTreeMap<u32, Index>;

// From so many properties on a row has an index.
const LONG: usize = 32;

// The place of the indicator in a row, from its front.
fn searched(row: &Row, indicator: u32) -> Option<usize>
    ensures { result ≡ position (λ p. same_number indicator p.indicator) row.now.items }
{
    row.search(indicator)
}

// Where the property of this order is.
fn by_order(row: &Row, order: u64) -> Option<usize>
    requires { HasRisingOrders (orders row.now.items) }
    ensures found { IfSome result (λ k. (k < length row.now.items)
        × ((indexed_order (orders row.now.items) k).1 ≡ order)) }
    ensures absent { result ≡ None → (k : ℕ) → k < length row.now.items
        → (indexed_order (orders row.now.items) k).1 ≢ order }
{
    let mut first = 0;
    let mut end = row.len();
    while first < end {
        let middle = first + (end - first) / 2;
        let here = row.order(middle);
        if here == order {
            return Some(middle);
        }
        if here < order {
            first = middle + 1;
        } else {
            end = middle;
        }
    }
    None
}

// The place of the indicator in a row with an index.
fn indexed(index: &Index, row: &Row, indicator: u32) -> Option<usize>
    requires { IsRowIndex index.now.entries (orders row.now.items) }
    ensures { result ≡ position (λ p. same_number indicator p.indicator) row.now.items }
{
    let Some(order) = index.get(&indicator) else {
        return None;
    };
    let Some(place) = by_order(row, *order) else {
        return None;
    };
    if row.indicator(place) == indicator {
        Some(place)
    } else {
        None
    }
}

/// The place of the indicator in the row of a number. Where the row has an index, it is not searched from its front.
pub(crate) fn place(row: &Row, indexes: &Indexes, number: u32, indicator: u32) -> Option<usize>
    requires { IsIndexedIn indexes.now.entries number row.now.items }
    ensures { result ≡ position (λ p. same_number indicator p.indicator) row.now.items }
{
    if row.len() < LONG {
        return searched(row, indicator);
    }
    match indexes.get(&number) {
        Some(index) => indexed(index, row, indicator),
        None => searched(row, indicator),
    }
}

// The order of a property that is new in a row.
fn next_order(row: &Row) -> Result<u64, AllocError>
    ensures { IfOk result (λ next. HasRisingOrders (orders row.now.items)
        → (k : ℕ) → k < length row.now.items → (indexed_order (orders row.now.items) k).1 < next) }
{
    match row.last_order().checked_add(1) {
        Some(next) => Ok(next),
        None => Err(AllocError),
    }
}

// The index of a row, if its orders rise and no indicator comes twice.
fn index_of(alloc: Global, row: &Row) -> Result<Option<Index>, AllocError>
    ensures { IfOk result (λ index. IfSome index (λ x. IsRowIndex x.entries (orders row.now.items))) }
{
    let mut index = BTreeMap::new(alloc);
    let mut next = 0;
    let count = row.len();
    let mut place = 0;
    while place < count {
        let (indicator, order) = (row.indicator(place), row.order(place));
        if order < next || index.contains_key(&indicator) {
            return Ok(None);
        }
        let Some(above) = order.checked_add(1) else {
            return Ok(None);
        };
        next = above;
        index.insert(indicator, order)?;
        place += 1;
    }
    Ok(Some(index))
}

// Makes the index of a long row where it has none, and makes it anew where most of its indicators are gone from the row.
fn make_index(
    alloc: Global,
    row: &Row,
    indexes: &mut Indexes,
    number: u32,
) -> Result<(), AllocError>
    requires { IsIndexedIn indexes.old.entries number row.now.items }
    ensures indexed { IsIndexedIn indexes.new.entries number row.now.items }
    ensures others { KeepsOthers indexes.old.entries indexes.new.entries number }
{
    let is_kept = match indexes.get(&number) {
        Some(index) => index.len() / 2 <= row.len().max(LONG),
        None => row.len() < LONG,
    };
    if is_kept {
        return Ok(());
    }
    let Some(index) = index_of(alloc, row)? else {
        return Ok(());
    };
    match indexes.insert(number, index) {
        Ok(_) => Ok(()),
        Err(_) => Err(AllocError),
    }
}

// Gives the index of a row, if it has one, the order of an indicator that is new in it.
fn note_order(
    row: &Row,
    indexes: &mut Indexes,
    number: u32,
    indicator: u32,
    order: u64,
) -> Result<(), AllocError>
    requires indexed { IsIndexedIn indexes.old.entries number row.now.items }
    requires new { position (λ p. same_number indicator p.indicator) row.now.items ≡ None }
    requires above { HasRisingOrders (orders row.now.items) → (k : ℕ) → k < length row.now.items
        → (indexed_order (orders row.now.items) k).1 < order }
    ensures indexed { IsIndexedIn indexes.new.entries number row.now.items }
    ensures next { OnOk result ((p : Numbered) → p.indicator ≡ indicator → p.order ≡ order
        → IsIndexedIn indexes.new.entries number (row.now.items ++ p ∷ [])) }
    ensures others { KeepsOthers indexes.old.entries indexes.new.entries number }
{
    let Some(index) = indexes.get_mut(&number) else {
        return Ok(());
    };
    match index.insert(indicator, order) {
        Ok(_) => Ok(()),
        Err(_) => Err(AllocError),
    }
}

/// The order of a property whose indicator is new in the row of a number. If the row has an index, this knows it then;
/// a long row gets one. After an error, want of memory alone, each index fits its row still.
pub(crate) fn new_order(
    alloc: Global,
    row: &Row,
    indexes: &mut Indexes,
    number: u32,
    indicator: u32,
) -> Result<u64, AllocError>
    requires indexed { IsIndexedIn indexes.old.entries number row.now.items }
    requires new { position (λ p. same_number indicator p.indicator) row.now.items ≡ None }
    ensures indexed { IsIndexedIn indexes.new.entries number row.now.items }
    ensures next { IfOk result (λ order. (p : Numbered) → p.indicator ≡ indicator → p.order ≡ order
        → IsIndexedIn indexes.new.entries number (row.now.items ++ p ∷ [])) }
    ensures others { KeepsOthers indexes.old.entries indexes.new.entries number }
{
    let order = next_order(row)?;
    make_index(alloc, row, indexes, number)?;
    note_order(row, indexes, number, indicator, order)?;
    Ok(order)
}

// Whether the orders rise where a property of this order comes to a place.
fn is_between(row: &Row, place: usize, order: u64) -> bool
    requires { place ≤ length row.now.items }
    ensures below { result ≡ true → 0 < place → (indexed_order (orders row.now.items) (place - 1)).1 < order }
    ensures above { result ≡ true → place < length row.now.items
        → order < (indexed_order (orders row.now.items) place).1 }
{
    if place > 0 && row.order(place - 1) >= order {
        return false;
    }
    place == row.len() || order < row.order(place)
}

// Whether a property that comes to a place of the row of a number is new there, and its order between those beside it.
fn fits(
    row: &Row,
    indexes: &Indexes,
    number: u32,
    index: usize,
    property: &NumberedProperty,
) -> bool
    requires indexed { IsIndexedIn indexes.now.entries number row.now.items }
    requires index { index ≤ length row.now.items }
    ensures new { result ≡ true
        → position (λ p. same_number property.now.indicator p.indicator) row.now.items ≡ None }
    ensures below { result ≡ true → 0 < index
        → (indexed_order (orders row.now.items) (index - 1)).1 < property.now.order }
    ensures above { result ≡ true → index < length row.now.items
        → property.now.order < (indexed_order (orders row.now.items) index).1 }
{
    if place(row, indexes, number, property.indicator).is_some() {
        return false;
    }
    is_between(row, index, property.order)
}

// Gives an index the order of an indicator, and tells whether it knows it now. It asks for memory only where it did not know one.
fn set_order(index: &mut Index, indicator: u32, order: u64) -> bool
    ensures { result ≡ true → (q : ℕ) → order_in index.new.entries q
        ≡ cond (eq_by_cmp nat_cmp q indicator) (Some order) (order_in index.old.entries q) }
{
    index.insert(indicator, order).is_ok()
}

/// A property comes back to a place of the row of a number: its index knows it then. Where it does not fit, or there is no
/// memory for it, the row has no index any more.
pub(crate) fn note_back(
    row: &Row,
    indexes: &mut Indexes,
    number: u32,
    index: usize,
    property: &NumberedProperty,
)
    requires indexed { IsIndexedIn indexes.old.entries number row.now.items }
    requires index { index ≤ length row.now.items }
    ensures indexed { IsIndexedIn indexes.new.entries number (insert row.now.items index property.now) }
    ensures others { KeepsOthers indexes.old.entries indexes.new.entries number }
{
    if fits(row, indexes, number, index, property) {
        if let Some(known) = indexes.get_mut(&number) {
            if set_order(known, property.indicator, property.order) {
                return;
            }
        }
    }
    let _index = indexes.remove(&number);
}
