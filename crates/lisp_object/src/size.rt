//! How large data are.
ghost use Rattle.std.specs.Prelude.{◌≡◌, ◌-◌, ◌^◌, min, sum, true, map, unwrap_or, option_map};
ghost use Rattle.lisp_object.specs.Object.{object_size};
ghost use Rattle.lisp_object.specs.Datum.{object_of, is_proper, size};

use crate::{Boxed, Datum, Items};

impl Datum {
    /// An atom has size 1, and a list or a vector 1 and the sizes of its items and of its tail; the NIL that ends a list
    /// counts 0. More than 2^64-1 counts as that.
    #[tactic(auto, using(crate::proofs::Sizes::size_object))]
    pub fn size(&self) -> u64
        ensures value { result ≡ min (size self.now) (2 ^ 64 - 1) }
        ensures object { is_proper self.now ≡ true
            → result ≡ min (object_size (object_of self.now)) (2 ^ 64 - 1) }
    {
        extent(self)
    }
}

#[cycle(extent)]
fn extent(datum: &Datum) -> u64
    ensures { result ≡ min (size datum.now) (2 ^ 64 - 1) }
{
    match datum {
        Datum::List { items, tail } => {
            let items = total_extent(items);
            let tail = tail_extent(tail);
            items.saturating_add(tail).saturating_add(1)
        }
        Datum::Vector(items) => total_extent(items).saturating_add(1),
        _ => 1,
    }
}

#[cycle(extent)]
fn total_extent(items: &Items<Datum>) -> u64
    ensures { result ≡ min (sum (map size items.now)) (2 ^ 64 - 1) }
{
    let items = items.as_slice();
    let mut total = 0u64;
    for item in items {
        total = total.saturating_add(extent(item));
    }
    total
}

#[cycle(extent)]
fn tail_extent(tail: &Option<Boxed<Datum>>) -> u64
    ensures { result ≡ min (unwrap_or (option_map size tail.now) 0) (2 ^ 64 - 1) }
{
    match tail {
        None => 0,
        Some(tail) => extent(tail.get()),
    }
}
