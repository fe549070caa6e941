//! Values that are lists, with an item more in front or one less.
ghost use Rattle.std.specs.Prelude.{◌≡◌, ◌∷◌, ◌++◌, ◌+◌, ◌<◌, ◌≤◌, [], None, Some, true, false, IfOk, IfSome, OnOk, OnErr, All, length, nat_le, if◌then◌else◌, unwrap_or, option_map, vec_capacity};
ghost use Rattle.lisp_object.specs.Object.{pair, nil};
ghost use Rattle.lisp_object.specs.Datum.{object_of, is_proper};
ghost use Rattle.plist_state.specs.PushedLists.{holds_pair};
ghost use Rattle.plist_state.specs.PoppedLists.{first_item};
ghost use Rattle.plist_state.specs.Undoing.{without_first, element_count, with_items};
ghost use Rattle.plist_state.specs.KeptRows.{IsEmptyList};

use lisp_object::{Boxed, Datum, Items};
use std::alloc::{AllocError, Global};
use std::mem;

// These items with one more in front, and whether there was memory for it. Where there was none these alone.
fn with_first(items: Items<Datum>, first: Datum) -> (Items<Datum>, bool)
    ensures made { result.1 ≡ true → result.0 ≡ first ∷ items }
    ensures refused { result.1 ≡ false → result.0 ≡ items }
{
    let mut items = items.into_vec();
    let made = items.insert(0, first).is_ok();
    (Items::from_vec(items), made)
}

/// Puts an item before the others of a list. Where memory runs out the list is as it was.
pub(crate) fn put_first(list: &mut Datum, first: Datum) -> Result<(), AllocError>
    requires list { is_proper list.old ≡ true }
    requires pair { holds_pair (Some (object_of list.old)) ≡ true }
    requires first { is_proper first ≡ true }
    ensures ok { OnOk result (object_of list.new ≡ pair (object_of first) (object_of list.old)) }
    ensures err { OnErr result (object_of list.new ≡ object_of list.old) }
    ensures proper { is_proper list.new ≡ true }
{
    let Ok((items, tail)) = mem::replace(list, Datum::Integer(0)).into_list() else {
        unreachable!()
    };
    let (items, made) = with_first(items, first);
    *list = Datum::List { items, tail };
    if !made {
        return Err(AllocError);
    }
    Ok(())
}

// A list without its first item, where anything of it is left. What is no list stays.
fn rest_of(list: Datum) -> Option<Datum>
    requires { is_proper list ≡ true }
    ensures value { unwrap_or (option_map object_of result) nil ≡ without_first (object_of list) }
    ensures proper { IfSome result (λ d. is_proper d ≡ true) }
{
    match list.into_list() {
        Ok((items, tail)) => {
            let mut items = items.into_vec();
            let _first = items.remove(0);
            if items.is_empty() {
                return tail.map(Boxed::into_inner);
            }
            Some(Datum::List {
                items: Items::from_vec(items),
                tail,
            })
        }
        Err(other) => Some(other),
    }
}

/// Takes the first item of a list away. Where it was the only one, the empty list is there in its place.
pub(crate) fn take_first(list: &mut Datum, empty: Datum)
    requires list { is_proper list.old ≡ true }
    requires empty { IsEmptyList empty }
    ensures value { object_of list.new ≡ without_first (object_of list.old) }
    ensures proper { is_proper list.new ≡ true }
{
    if let Some(rest) = rest_of(mem::replace(list, empty)) {
        *list = rest;
    }
}

/// A copy of the first item of a value that is a list with an item.
pub(crate) fn first_of(alloc: Global, value: &Datum) -> Result<Option<Datum>, AllocError>
    requires { is_proper value.now ≡ true }
    ensures first { IfOk result
        (λ first. option_map object_of first ≡ first_item (Some (object_of value.now))) }
    ensures proper { IfOk result (λ first. IfSome first (λ d. is_proper d ≡ true)) }
{
    match value {
        Datum::List { items, .. } => Ok(Some(items.as_slice()[0].copy(alloc)?)),
        _ => Ok(None),
    }
}

/// How many items a list has.
pub(crate) fn count_items(list: &Datum) -> usize
    requires list { is_proper list.now ≡ true }
    requires pair { holds_pair (Some (object_of list.now)) ≡ true }
    ensures count { result ≡ element_count (object_of list.now) }
    ensures some { 0 < result }
{
    let Datum::List { items, .. } = list else {
        unreachable!()
    };
    items.len()
}

/// What ends a list: NIL, or a copy of what follows the dot.
pub(crate) fn end_of(alloc: Global, list: &Datum) -> Result<Datum, AllocError>
    requires list { is_proper list.now ≡ true }
    requires one { element_count (object_of list.now) ≡ 1 }
    ensures end { IfOk result (λ end. object_of end ≡ without_first (object_of list.now)) }
    ensures proper { IfOk result (λ end. is_proper end ≡ true) }
{
    let Datum::List { tail, .. } = list else {
        unreachable!()
    };
    match tail {
        Some(end) => end.get().copy(alloc),
        None => Datum::nil(alloc),
    }
}

/// Takes the first item of a list that has more into a `Vec` that has room for all of them.
pub(crate) fn pop_first(list: &mut Datum, space: Vec<Datum>) -> Vec<Datum>
    requires list { is_proper list.old ≡ true }
    requires more { 1 < element_count (object_of list.old) }
    requires empty { space.items ≡ [] }
    requires room { element_count (object_of list.old) ≤ vec_capacity space }
    ensures value { object_of list.new ≡ without_first (object_of list.old) }
    ensures back { with_items result (object_of list.new) ≡ object_of list.old }
    ensures proper { is_proper list.new ≡ true }
    ensures items { All (λ d. is_proper d ≡ true) result.items }
{
    let Ok((items, tail)) = mem::replace(list, Datum::Integer(0)).into_list() else {
        unreachable!()
    };
    let mut items = items.into_vec();
    let mut popped = space;
    popped.push_reserved(items.remove(0));
    *list = Datum::List {
        items: Items::from_vec(items),
        tail,
    };
    popped
}

// Items before others, where they have room for those; else the others alone.
fn joined(items: Vec<Datum>, others: Items<Datum>) -> Items<Datum>
    ensures { let fit = nat_le (length items.items + length others) (vec_capacity items) in
        result ≡ (if fit then items.items ++ others else others) }
{
    let mut items = items;
    let mut others = others.into_vec();
    if others.len() > items.capacity() - items.len() {
        return Items::from_vec(others);
    }
    if let Err(_) = items.append(&mut others) {
        unreachable!()
    }
    Items::from_vec(items)
}

/// Puts items before those of a list, where they have room for these. Else the list stays, as what is no list does.
pub(crate) fn put_items(list: &mut Datum, items: Vec<Datum>)
    requires list { is_proper list.old ≡ true }
    requires items { All (λ d. is_proper d ≡ true) items.items }
    ensures value { object_of list.new ≡ with_items items (object_of list.old) }
    ensures proper { is_proper list.new ≡ true }
{
    match mem::replace(list, Datum::Integer(0)).into_list() {
        Ok((others, tail)) => {
            *list = Datum::List {
                items: joined(items, others),
                tail,
            };
        }
        Err(other) => *list = other,
    }
}
