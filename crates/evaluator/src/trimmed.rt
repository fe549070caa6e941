//! Data that are to be kept for long.
ghost use Rattle.std.specs.Prelude.{◌≡◌};

use lisp_object::{Datum, Items};
use std::mem;

/// The same datum. Its lists and vectors, but for one behind a dot, keep no room for more items than they have.
#[cycle(trimming)]
pub fn trimmed(datum: Datum) -> Datum
    ensures { result ≡ datum }
{
    match datum.into_list() {
        Ok((items, tail)) => Datum::List {
            items: trimmed_items(items),
            tail,
        },
        Err(other) => match other.into_vector() {
            Ok(items) => Datum::Vector(trimmed_items(items)),
            Err(other) => other,
        },
    }
}

// The same items, each of them trimmed.
#[cycle(trimming)]
fn trimmed_items(items: Items<Datum>) -> Items<Datum>
    ensures { result ≡ items }
{
    let mut items = items.into_vec();
    for i in 0..items.len() {
        if has_items(&items[i]) {
            let item = mem::replace(&mut items[i], Datum::Integer(0));
            put_back(&mut items[i], trimmed(item));
        }
    }
    items.shrink_to_fit();
    Items::from_vec(items)
}

// Puts a datum where another stood.
fn put_back(place: &mut Datum, datum: Datum)
    ensures { place.new ≡ datum }
{
    let _placeholder = mem::replace(place, datum);
}

// Whether it is a list or a vector.
fn has_items(datum: &Datum) -> bool {
    match datum {
        Datum::List { .. } => true,
        Datum::Vector(_) => true,
        _ => false,
    }
}
