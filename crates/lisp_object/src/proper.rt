//! Which data are proper.
ghost use Rattle.std.specs.Prelude.{◌≡◌, ◌&&◌, not, true, map, All, IsTrue, unwrap_or, option_map};
ghost use Rattle.std.specs.List.{list_all};
ghost use Rattle.std.specs.Option.{option_map_or};
ghost use Rattle.lisp_object.specs.Object.{nil, IsSound};
ghost use Rattle.lisp_object.specs.Datum.{object_of, standing, is_proper};

use crate::{Boxed, Datum, Items};

impl Datum {
    /// Whether each list in it has an item and a tail, if any, that is no list, and each byte in it is below 128.
    #[cycle(proper)]
    pub fn is_proper(&self) -> bool
        ensures value { result ≡ is_proper self.now }
        ensures sound { IsTrue result → IsSound (object_of self.now) }
    {
        match self {
            Datum::Integer(n) => {
                let _in_range = *n;
                true
            }
            Datum::Rational(ratio) => {
                let _in_lowest_terms = (ratio.numerator(), ratio.denominator());
                true
            }
            Datum::Char(c) => *c < 128,
            Datum::Text(bytes) => bytes.is_ascii(),
            Datum::Symbol { package, name } => {
                if !package.is_ascii() {
                    return false;
                }
                name.is_ascii()
            }
            Datum::Uninterned(name) => name.is_ascii(),
            Datum::List { items, tail } => {
                if items.is_empty() {
                    return false;
                }
                if !are_proper(items) {
                    return false;
                }
                ends_proper(tail)
            }
            Datum::Vector(items) => are_proper(items),
        }
    }
}

// Whether each item is proper.
#[cycle(proper)]
fn are_proper(items: &Items<Datum>) -> bool
    ensures value { result ≡ list_all (λ p. p.0) (map standing items.now) }
    ensures sound { IsTrue result → All (λ d. IsSound (object_of d)) items.now }
{
    let items = items.as_slice();
    for item in items {
        if !item.is_proper() {
            return false;
        }
    }
    true
}

// Whether the tail, if any, is proper and no list.
#[cycle(proper)]
fn ends_proper(tail: &Option<Boxed<Datum>>) -> bool
    ensures value { result ≡ option_map_or (λ p. p.0 && not p.1) (option_map standing tail.now) true }
    ensures sound { IsTrue result → IsSound (unwrap_or (option_map object_of tail.now) nil) }
{
    match tail {
        None => true,
        Some(tail) => {
            let tail = tail.get();
            if tail.is_list() {
                return false;
            }
            tail.is_proper()
        }
    }
}
