//! How deep data are nested.
ghost use Rattle.std.specs.Prelude.{◌≡◌, ◌-◌, ◌^◌, min, true, map, unwrap_or, option_map};
ghost use Rattle.lisp_object.specs.Object.{object_depth};
ghost use Rattle.lisp_object.specs.Datum.{object_of, is_proper, depth, greatest};

use crate::{Boxed, Datum, Items};

impl Datum {
    /// An atom has depth 0, and a list or a vector one more than its deepest part, the tail included. More than 2^64-1
    /// counts as that.
    #[tactic(auto, using(crate::proofs::Depths::depth_object))]
    pub fn depth(&self) -> u64
        ensures value { result ≡ min (depth self.now) (2 ^ 64 - 1) }
        ensures object { is_proper self.now ≡ true
            → result ≡ min (object_depth (object_of self.now)) (2 ^ 64 - 1) }
    {
        nesting(self)
    }
}

#[cycle(nesting)]
fn nesting(datum: &Datum) -> u64
    ensures { result ≡ min (depth datum.now) (2 ^ 64 - 1) }
{
    match datum {
        Datum::List { items, tail } => {
            let most = deepest(items);
            let tail = tail_nesting(tail);
            most.max(tail).saturating_add(1)
        }
        Datum::Vector(items) => deepest(items).saturating_add(1),
        _ => 0,
    }
}

#[cycle(nesting)]
fn deepest(items: &Items<Datum>) -> u64
    ensures { result ≡ min (greatest (map depth items.now)) (2 ^ 64 - 1) }
{
    let items = items.as_slice();
    let mut most = 0;
    for item in items {
        most = nesting(item).max(most);
    }
    most
}

#[cycle(nesting)]
fn tail_nesting(tail: &Option<Boxed<Datum>>) -> u64
    ensures { result ≡ min (unwrap_or (option_map depth tail.now) 0) (2 ^ 64 - 1) }
{
    match tail {
        None => 0,
        Some(tail) => nesting(tail.get()),
    }
}
