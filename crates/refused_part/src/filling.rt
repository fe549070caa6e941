//! A form with another part at a place.
ghost use Rattle.std.specs.Option.{option_map};
ghost use Rattle.std.specs.Prelude.{◌≡◌, ◌+◌, ◌<◌, ◌++◌, ◌∷◌, drop, length, slice_get, take, true, IfOk, OnOk, Some};
ghost use Rattle.lisp_object.specs.declared.datum.Datum.{Datum};
ghost use Rattle.lisp_object.specs.Datum.{object_of, is_proper};
ghost use Rattle.lisp_object.specs.Object.{Object};
ghost use Rattle.refused_part.specs.PartPlaces.{HasPart, items_inside, with_item, with_part};

use lisp_object::{Boxed, Datum, Items};
use std::alloc::{AllocError, Global};

/// A copy of a datum with another part at this place.
pub(crate) fn filled(
    alloc: Global,
    whole: &Datum,
    place: &[usize],
    other: &Datum,
) -> Result<Datum, AllocError>
    requires there { (part : Datum) × HasPart place.now whole.now part }
    requires whole { is_proper whole.now ≡ true }
    requires other { is_proper other.now ≡ true }
    ensures object { IfOk result (λ d. object_of d
        ≡ with_part place.now (object_of other.now) (object_of whole.now)) }
    ensures proper { IfOk result (λ d. is_proper d ≡ true) }
{
    match place {
        [] => other.copy(alloc),
        [index, inner @ ..] => match item_at(whole, *index) {
            Some(item) => {
                let item = filled(alloc, item, inner, other)?;
                with_item(alloc, whole, *index, item)
            }
            // a part has a place
            None => Err(AllocError),
        },
    }
}

// A copy of a list with another item in the place of one.
fn with_item(alloc: Global, whole: &Datum, index: usize, item: Datum) -> Result<Datum, AllocError>
    requires whole { is_proper whole.now ≡ true }
    requires item { is_proper item ≡ true }
    ensures object { IfOk result (λ d. (change : Object → Object) (x : Datum)
        → slice_get (items_inside whole.now) index ≡ Some x → object_of item ≡ change (object_of x)
        → object_of d ≡ with_item index change (object_of whole.now)) }
    ensures proper { IfOk result (λ d. is_proper d ≡ true) }
{
    match whole {
        Datum::List { items, tail } => {
            let items = with_another(alloc, items.as_slice(), index, item)?;
            let tail = copied_tail(alloc, tail)?;
            Ok(Datum::List { items, tail })
        }
        // nothing else has items
        _ => Err(AllocError),
    }
}

// Copies of these, with another one in the place of one.
fn with_another(
    alloc: Global,
    items: &[Datum],
    index: usize,
    item: Datum,
) -> Result<Items<Datum>, AllocError>
    ensures { IfOk result (λ copies. (index < length items.now)
        × (copies ≡ take index items.now ++ item ∷ drop (index + 1) items.now)) }
{
    if index >= items.len() {
        return Err(AllocError);
    }
    let mut copies = Items::new(alloc);
    add_copies(alloc, &mut copies, &items[..index])?;
    copies.push(item)?;
    add_copies(alloc, &mut copies, &items[index + 1..])?;
    Ok(copies)
}

// Adds copies of these.
fn add_copies(alloc: Global, copies: &mut Items<Datum>, items: &[Datum]) -> Result<(), AllocError>
    ensures { OnOk result (copies.new ≡ copies.old ++ items.now) }
{
    for item in items {
        copies.push(item.copy(alloc)?)?;
    }
    Ok(())
}

// A copy of what ends a list.
fn copied_tail(
    alloc: Global,
    tail: &Option<Boxed<Datum>>,
) -> Result<Option<Boxed<Datum>>, AllocError>
    ensures { IfOk result (λ copy. copy ≡ tail.now) }
{
    match tail {
        None => Ok(None),
        Some(tail) => {
            let copy = tail.get().copy(alloc)?;
            Ok(Some(Boxed::new(alloc, copy)?))
        }
    }
}

/// The items of a list; another datum has none.
#[tactic(auto, using(crate::proofs::Items::item_laws))]
pub(crate) fn items_inside(datum: &Datum) -> &[Datum]
    ensures { result.now ≡ items_inside datum.now }
{
    match datum {
        Datum::List { items, .. } => items.as_slice(),
        Datum::Vector(_) => &[],
        Datum::Integer(_) => &[],
        Datum::Rational(_) => &[],
        Datum::Char(_) => &[],
        Datum::Text(_) => &[],
        Datum::Symbol { .. } => &[],
        Datum::Uninterned(_) => &[],
    }
}

/// The item of this index in a list.
pub(crate) fn item_at(datum: &Datum, index: usize) -> Option<&Datum>
    ensures { option_map (λ item. item.now) result ≡ slice_get (items_inside datum.now) index }
{
    items_inside(datum).get(index)
}
