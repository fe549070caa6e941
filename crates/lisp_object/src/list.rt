//! Lists of items.
ghost use Rattle.std.specs.Prelude.{◌≡◌, ◌≢◌, ◌<◌, ◌++◌, List, Option, Some, None, length, true, false, map, unwrap_or, IfOk, codes};
ghost use Rattle.std.specs.List.{list_all};
ghost use Rattle.std.specs.Option.{option_map_or};
ghost use Rattle.lisp_object.specs.Object.{nil, pairs};
ghost use Rattle.lisp_object.specs.Datum.{object_of, is_proper, is_list};

use crate::{Boxed, Datum, Items};
use std::alloc::{AllocError, Global};

impl Datum {
    /// The list of these items that ends in `tail`, or in NIL where there is none. Where there are no items it is the tail
    /// itself, or NIL. A tail that is a list is joined, so that proper parts give a proper list.
    #[inline(always)]
    pub fn list(alloc: Global, items: Vec<Datum>, tail: Option<Datum>) -> Result<Datum, AllocError>
        ensures object { IfOk result
            (λ d. object_of d ≡ pairs (map object_of items.items) (option_map_or object_of tail nil)) }
        ensures proper { IfOk result
            (λ d. list_all is_proper items.items ≡ true → option_map_or is_proper tail true ≡ true → is_proper d ≡ true) }
        ensures no_items { length items.items ≡ 0
            → IfOk result (λ d. d ≡ unwrap_or tail (Datum.Symbol (codes "COMMON-LISP") (codes "NIL"))) }
        ensures list_tail { 0 < length items.items → (more : List Datum) (end : Option Datum)
            → tail ≡ Some (Datum.List more end) → IfOk result (λ d. d ≡ Datum.List (items.items ++ more) end) }
        ensures nil_tail { 0 < length items.items
            → tail ≡ Some (Datum.Symbol (codes "COMMON-LISP") (codes "NIL"))
            → IfOk result (λ d. d ≡ Datum.List items.items None) }
        ensures other_tail { 0 < length items.items → option_map_or is_list tail false ≡ false
            → IfOk result (λ d. d ≡ Datum.List items.items tail) }
    {
        let items = Items::from_vec(items);
        match tail {
            None => proper_list(alloc, items),
            Some(tail) => {
                if items.is_empty() {
                    Ok(tail)
                } else if tail.is_nil() {
                    proper_list(alloc, items)
                } else {
                    joined(alloc, items, tail)
                }
            }
        }
    }
}

// The list of these items that ends in NIL.
#[inline(always)]
fn proper_list(alloc: Global, items: Items<Datum>) -> Result<Datum, AllocError>
    ensures object { IfOk result (λ d. object_of d ≡ pairs (map object_of items) nil) }
    ensures proper { IfOk result (λ d. list_all is_proper items ≡ true → is_proper d ≡ true) }
    ensures no_items { length items ≡ 0
        → IfOk result (λ d. d ≡ Datum.Symbol (codes "COMMON-LISP") (codes "NIL")) }
    ensures some_items { 0 < length items → IfOk result (λ d. d ≡ Datum.List items None) }
{
    if items.is_empty() {
        Datum::nil(alloc)
    } else {
        Ok(Datum::List { items, tail: None })
    }
}

// The items, and after them the items and the end of a tail that is a list.
#[inline(never)]
fn joined(alloc: Global, items: Items<Datum>, tail: Datum) -> Result<Datum, AllocError>
    requires some { 0 < length items }
    requires not_nil { tail ≢ Datum.Symbol (codes "COMMON-LISP") (codes "NIL") }
    ensures object { IfOk result (λ d. object_of d ≡ pairs (map object_of items) (object_of tail)) }
    ensures proper { IfOk result
        (λ d. list_all is_proper items ≡ true → is_proper tail ≡ true → is_proper d ≡ true) }
    ensures list_tail { (more : List Datum) (end : Option Datum) → tail ≡ Datum.List more end
        → IfOk result (λ d. d ≡ Datum.List (items ++ more) end) }
    ensures other_tail { is_list tail ≡ false → IfOk result (λ d. d ≡ Datum.List items (Some tail)) }
{
    match tail.into_list() {
        Ok((more, tail)) => Ok(Datum::List {
            items: items.followed_by(more)?,
            tail,
        }),
        Err(other) => Ok(Datum::List {
            items,
            tail: Some(Boxed::new(alloc, other)?),
        }),
    }
}
