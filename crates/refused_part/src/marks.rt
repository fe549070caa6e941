//! What is put in the place of a part.
ghost use Rattle.std.specs.Prelude.{◌≡◌, ◌∷◌, [], true, codes, IfOk};
ghost use Rattle.lisp_object.specs.Datum.{object_of, is_proper};
ghost use Rattle.lisp_object.specs.Object.{list_of};
ghost use Rattle.package_table.specs.Table.{common_lisp};
ghost use Rattle.refused_part.specs.PartPlaces.{both, no_form, quotation, quote_of_none};

use lisp_object::{Bytes, Datum, Items};
use package_table::standardized::COMMON_LISP;
use std::alloc::{AllocError, Global};

/// A symbol without a home.
#[tactic(auto, using(lisp_object::proofs::Objects::object_laws, lisp_object::proofs::Properness::proper_laws))]
pub(crate) fn no_form(alloc: Global) -> Result<Datum, AllocError>
    ensures object { IfOk result (λ d. object_of d ≡ no_form) }
    ensures proper { IfOk result (λ d. is_proper d ≡ true) }
{
    Ok(Datum::Uninterned(Bytes::from_slice(alloc, b"")?))
}

/// QUOTE of nothing.
#[tactic(auto, using(lisp_object::proofs::Objects::object_laws, lisp_object::proofs::Properness::proper_laws))]
pub(crate) fn quote_of_none(alloc: Global) -> Result<Datum, AllocError>
    ensures object { IfOk result (λ d. object_of d ≡ quote_of_none) }
    ensures proper { IfOk result (λ d. is_proper d ≡ true) }
{
    let mut items = Items::new(alloc);
    items.push(standard(alloc, b"QUOTE")?)?;
    Ok(Datum::List { items, tail: None })
}

/// PROGN of a part and this.
#[tactic(auto, using(lisp_object::proofs::Objects::object_laws, lisp_object::proofs::Properness::proper_laws))]
pub(crate) fn both(alloc: Global, part: &Datum, other: Datum) -> Result<Datum, AllocError>
    requires part { is_proper part.now ≡ true }
    requires other { is_proper other ≡ true }
    ensures object { IfOk result (λ d. object_of d ≡ both (object_of part.now) (object_of other)) }
    ensures proper { IfOk result (λ d. is_proper d ≡ true) }
{
    let mut items = Items::new(alloc);
    items.push(standard(alloc, b"PROGN")?)?;
    items.push(part.copy(alloc)?)?;
    items.push(other)?;
    Ok(Datum::List { items, tail: None })
}

/// QUOTE of this.
#[tactic(auto, using(lisp_object::proofs::Objects::object_laws, lisp_object::proofs::Properness::proper_laws))]
pub(crate) fn quotation(alloc: Global, part: &Datum) -> Result<Datum, AllocError>
    requires part { is_proper part.now ≡ true }
    ensures object { IfOk result (λ d. object_of d ≡ quotation (object_of part.now)) }
    ensures proper { IfOk result (λ d. is_proper d ≡ true) }
{
    let mut items = Items::new(alloc);
    items.push(standard(alloc, b"QUOTE")?)?;
    items.push(part.copy(alloc)?)?;
    Ok(Datum::List { items, tail: None })
}

/// A form without arguments that begins with this.
#[tactic(auto, using(lisp_object::proofs::Objects::object_laws, lisp_object::proofs::Properness::proper_laws))]
pub(crate) fn call_of(alloc: Global, head: &Datum) -> Result<Datum, AllocError>
    requires head { is_proper head.now ≡ true }
    ensures object { IfOk result (λ d. object_of d ≡ list_of (object_of head.now ∷ [])) }
    ensures proper { IfOk result (λ d. is_proper d ≡ true) }
{
    let mut items = Items::new(alloc);
    items.push(head.copy(alloc)?)?;
    Ok(Datum::List { items, tail: None })
}

// The symbol of COMMON-LISP with this name.
fn standard(alloc: Global, name: &[u8]) -> Result<Datum, AllocError>
    ensures { IfOk result (λ d. d ≡ Datum.Symbol common_lisp name.now) }
{
    Ok(Datum::Symbol {
        package: Bytes::from_slice(alloc, COMMON_LISP)?,
        name: Bytes::from_slice(alloc, name)?,
    })
}
