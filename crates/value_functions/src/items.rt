//! The items of lists, and copies of them.
ghost use Rattle.std.specs.Prelude.{◌≡◌, option_map, IfOk, IfSome};
ghost use Rattle.lisp_object.specs.Datum.{object_of};
ghost use Rattle.lisp_operators.specs.EvaluationAnswers.{IsProper, AreProper, objects};
ghost use Rattle.value_functions.specs.Sequences.{items_of};

use lisp_object::Datum;
use std::alloc::{AllocError, Global};

/// The items of a list that ends in NIL; nothing of any other object.
pub(crate) fn proper_items(datum: &Datum) -> Option<&[Datum]>
    requires { IsProper datum.now }
    ensures value { option_map (λ xs. objects xs.now) result ≡ items_of (object_of datum.now) }
    ensures proper { IfSome result (λ xs. AreProper xs.now) }
{
    match datum {
        Datum::List { items, tail } => match tail {
            Some(_) => None,
            None => Some(items.as_slice()),
        },
        Datum::Symbol { .. } => { if datum.is_nil() { Some(&[]) } else { None } }
        Datum::Uninterned(_) => None,
        Datum::Text(_) => None,
        Datum::Vector(_) => None,
        Datum::Integer(_) => None,
        Datum::Rational(_) => None,
        Datum::Char(_) => None,
    }
}

/// Copies of these data. It fails only for want of memory.
pub(crate) fn copied(alloc: Global, items: &[Datum]) -> Result<Vec<Datum>, AllocError>
    ensures { IfOk result (λ v. v.items ≡ items.now) }
{
    let mut copies = Vec::new(alloc);
    for item in items {
        copies.push(item.copy(alloc)?)?;
    }
    Ok(copies)
}
