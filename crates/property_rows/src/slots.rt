//! Slots, as a row keeps them.
ghost use Rattle.std.specs.Prelude.{◌≡◌, ◌+◌, ◌-◌, ◌<◌, ◌≤◌, ◌==◌, true, false, not, [], ◌∷◌, ◌++◌, map, length, take, is_ok, if◌then◌else◌, IfSome, IsOk, slice_index_or, slice_set, vec_capacity};
ghost use Rattle.std.specs.List.{filter, position, insert, remove};
ghost use Rattle.property_rows.specs.Vacant.{IsVacantSlot};
ghost use Rattle.property_rows.specs.Slots.{IsSlots, gone_in, slot_at, is_gone, property_in, present_properties, uncounted_slot, slots_there, blank, no_property, has, with_value, most_slots};

use crate::NumberedProperty;
use crate::slot::Slot;
use crate::tree::{count_gone, gone_before, gone_before_next, slot_of, tree_of, turn};
use lisp_object::Datum;
use std::alloc::AllocError;
use std::mem;

// More slots than this are refused.
const MOST: usize = 2147483647;

/// How many are gone.
pub(crate) fn gone(slots: &[Slot]) -> usize
    requires { IsSlots slots.now }
    ensures { result ≡ gone_in slots.now }
{
    count_gone(slots, tree_of(slots.len()))
}

/// The slot of the property at an index, and the one after the last where there are not so many.
pub(crate) fn place(slots: &[Slot], index: usize) -> usize
    requires { IsSlots slots.now }
    ensures { result ≡ slot_at slots.now index }
{
    slot_of(slots, tree_of(slots.len()), index)
}

/// The slot that holds the property at an index.
pub(crate) fn holder(slots: &[Slot], index: usize) -> &Slot
    requires slots { IsSlots slots.now }
    requires index { index < length (present_properties slots.now) }
    ensures { property_in result.now ≡ slice_index_or (present_properties slots.now) index no_property }
{
    &slots[place(slots, index)]
}

// Takes the slots that are gone out.
fn drop_gone(slots: &mut Vec<Slot>)
    ensures items { slots.new.items ≡ filter (λ s. not (is_gone s)) slots.old.items }
    ensures capacity { vec_capacity slots.new ≡ vec_capacity slots.old }
{
    slots.retain(|slot| slot.gone % 2 != 1);
}

// No slot counts any more.
fn forget_counts(slots: &mut [Slot])
    ensures { slots.new ≡ map uncounted_slot slots.old }
{
    for slot in slots.iter_mut() {
        slot.gone = 0;
    }
}

/// Moves those that are there together.
pub(crate) fn pack(slots: &mut Vec<Slot>)
    ensures items { slots.new.items ≡ slots_there slots.old.items }
    ensures capacity { vec_capacity slots.new ≡ vec_capacity slots.old }
{
    drop_gone(slots);
    forget_counts(slots.as_mut_slice());
}

// The first slot of an indicator.
fn first_of(slots: &[Slot], indicator: u32) -> Option<usize>
    ensures { result ≡ position (λ s. indicator == s.indicator) slots.now }
{
    slots.iter().position(|slot| indicator == slot.indicator)
}

/// The index of an indicator, from the front, where no slot is gone.
pub(crate) fn search(slots: &[Slot], indicator: u32) -> Option<usize>
    requires { gone_in slots.now ≡ 0 }
    ensures { result ≡ position (has indicator) (present_properties slots.now) }
{
    first_of(slots, indicator)
}

// Takes the property of a slot out.
fn empty(slot: &mut Slot) -> NumberedProperty
    ensures property { result ≡ property_in slot.old }
    ensures count { slot.new.gone ≡ slot.old.gone }
{
    NumberedProperty {
        indicator: slot.indicator,
        order: slot.order,
        value: mem::replace(&mut slot.value, Datum::Integer(0)),
    }
}

// Puts a property into a slot.
fn fill(slot: &mut Slot, property: NumberedProperty)
    ensures property { property_in slot.new ≡ property }
    ensures count { slot.new.gone ≡ slot.old.gone }
{
    slot.indicator = property.indicator;
    slot.order = property.order;
    slot.value = property.value;
}

/// Takes the property at an index out. Its slot stays.
pub(crate) fn take_out(slots: &mut [Slot], index: usize) -> NumberedProperty
    requires slots { IsSlots slots.old }
    requires index { index < length (present_properties slots.old) }
    ensures slots { IsSlots slots.new }
    ensures value { result ≡ slice_index_or (present_properties slots.old) index no_property }
    ensures items { present_properties slots.new ≡ remove (present_properties slots.old) index }
{
    let at = place(slots, index);
    turn(slots, tree_of(slots.len()), at, true);
    empty(&mut slots[at])
}

// The first slot whose order is not below this one, where the orders rise: those of slots that are gone too, as a new one is over `last_order`.
fn first_from(slots: &[Slot], order: u64) -> usize
    ensures { result ≤ length slots.now }
{
    let mut first = 0;
    let mut end = slots.len();
    while first < end {
        let middle = first + (end - first) / 2;
        if slots[middle].order < order {
            first = middle + 1;
        } else {
            end = middle;
        }
    }
    first
}

// Whether a slot is gone, and so many properties are there before it.
fn is_vacant(slots: &[Slot], at: usize, index: usize) -> bool
    requires { IsSlots slots.now }
    ensures { result ≡ true → IsVacantSlot slots.now at index }
{
    if at >= slots.len() || slots[at].gone % 2 != 1 {
        return false;
    }
    at - gone_before(slots, tree_of(slots.len()), at) == index
}

/// The slot that a property of this order left, where it is gone still and the property comes to this index again. None
/// says nothing of the row: the property is put in as a new one then.
pub(crate) fn vacant(slots: &[Slot], index: usize, order: u64) -> Option<usize>
    requires { IsSlots slots.now }
    ensures { IfSome result (λ at. IsVacantSlot slots.now at index) }
{
    let at = first_from(slots, order);
    if is_vacant(slots, at, index) {
        return Some(at);
    }
    None
}

/// A property comes to an index, in a slot that is gone.
pub(crate) fn bring_back(slots: &mut [Slot], index: usize, at: usize, property: NumberedProperty)
    requires slots { IsSlots slots.old }
    requires vacant { IsVacantSlot slots.old at index }
    ensures slots { IsSlots slots.new }
    ensures items { present_properties slots.new ≡ insert (present_properties slots.old) index property }
{
    turn(slots, tree_of(slots.len()), at, false);
    fill(&mut slots[at], property);
}

/// Puts another value at an index, and gives the one that was there.
pub(crate) fn exchange(slots: &mut [Slot], index: usize, value: Datum) -> Datum
    requires slots { IsSlots slots.old }
    requires index { index < length (present_properties slots.old) }
    ensures slots { IsSlots slots.new }
    ensures value { result ≡ (slice_index_or (present_properties slots.old) index no_property).value }
    ensures items { present_properties slots.new ≡ slice_set (present_properties slots.old) index
        (with_value (slice_index_or (present_properties slots.old) index no_property) value) }
{
    let at = place(slots, index);
    mem::replace(&mut slots[at].value, value)
}

/// Adds a property at the end. After an error the properties are those that were there.
pub(crate) fn append(slots: &mut Vec<Slot>, property: NumberedProperty) -> Result<(), AllocError>
    requires { IsSlots slots.old.items }
    ensures slots { IsSlots slots.new.items }
    ensures items { present_properties slots.new.items
        ≡ (if is_ok result then present_properties slots.old.items ++ property ∷ [] else present_properties slots.old.items) }
    ensures capacity { vec_capacity slots.old ≤ vec_capacity slots.new }
{
    let count = slots.len();
    if count >= MOST {
        return Err(AllocError);
    }
    let before = gone_before_next(slots.as_slice(), tree_of(count + 1));
    let slot = Slot {
        indicator: property.indicator,
        gone: 2 * (before as u32),
        order: property.order,
        value: property.value,
    };
    match slots.push(slot) {
        Ok(_) => Ok(()),
        Err(_) => Err(AllocError),
    }
}

/// Takes the last slot away, in which a property is.
pub(crate) fn drop_last(slots: &mut Vec<Slot>)
    requires slots { IsSlots slots.old.items }
    requires some { 0 < length slots.old.items }
    requires last { is_gone (slice_index_or slots.old.items (length slots.old.items - 1) blank) ≡ false }
    ensures slots { IsSlots slots.new.items }
    ensures items { present_properties slots.new.items
        ≡ take (length (present_properties slots.old.items) - 1) (present_properties slots.old.items) }
    ensures capacity { vec_capacity slots.new ≡ vec_capacity slots.old }
{
    let _ = slots.pop();
}

/// A property comes to an index. The others are moved. After an error the properties are those that were there.
pub(crate) fn put_in(
    slots: &mut Vec<Slot>,
    index: usize,
    property: NumberedProperty,
) -> Result<(), AllocError>
    requires slots { IsSlots slots.old.items }
    requires index { index ≤ length (present_properties slots.old.items) }
    ensures slots { IsSlots slots.new.items }
    ensures items { present_properties slots.new.items
        ≡ (if is_ok result then insert (present_properties slots.old.items) index property else present_properties slots.old.items) }
    ensures capacity { vec_capacity slots.old ≤ vec_capacity slots.new }
    ensures succeeds { length (present_properties slots.old.items) < vec_capacity slots.old
        → length (present_properties slots.old.items) < most_slots → IsOk result }
{
    pack(slots);
    if slots.len() >= MOST {
        return Err(AllocError);
    }
    let slot = Slot {
        indicator: property.indicator,
        gone: 0,
        order: property.order,
        value: property.value,
    };
    match slots.insert(index, slot) {
        Ok(_) => Ok(()),
        Err(_) => Err(AllocError),
    }
}
