//! Values that the operators build.
ghost use Rattle.std.specs.Prelude.{◌≡◌, ◌≤◌, true, nat_lt, Some, IfOk};
ghost use Rattle.std.specs.List.{list_all};
ghost use Rattle.lisp_object.specs.Object.{Object, nil, pair, object_depth, object_size};
ghost use Rattle.lisp_object.specs.Datum.{object_of, is_proper};
ghost use Rattle.package_table.specs.Table.{keyword};
ghost use Rattle.plist_state.specs.State.{WorldState};
ghost use Rattle.plist_state.specs.PushedLists.{holds_pair};
ghost use Rattle.lisp_operators.specs.Properties.{t, list};
ghost use Rattle.lisp_operators.specs.EvaluationAnswers.{Answers, done, IsProper, IsProperValue, IsAscii, objects};

use crate::EvaluationError::Refused;
use crate::{Evaluated, EvaluationError};
use lisp_object::refusal::{LIMIT, VALUE_TOO_DEEP};
use lisp_object::{Bytes, Datum, Items};
use package_table::standardized::{COMMON_LISP, KEYWORD};
use std::alloc::{AllocError, Global};

// The most levels of a value that is built.
const MOST_LEVELS: u64 = 100;

// The most levels of an item of a list that is built.
const MOST_LEVELS_WITHIN: u64 = 99;

/// The largest size of a value that is built.
pub(crate) const LARGEST_SIZE: u64 = 1_000_000;

/// The symbol of this home and name, of bytes below 128.
pub(crate) fn symbol(alloc: Global, home: &[u8], name: &[u8]) -> Result<Datum, AllocError>
    ensures value { IfOk result (λ d. object_of d ≡ Object.symbol home.now name.now) }
    ensures proper { IsAscii home.now → IsAscii name.now → IfOk result IsProper }
{
    Ok(Datum::Symbol {
        package: Bytes::from_slice(alloc, home)?,
        name: Bytes::from_slice(alloc, name)?,
    })
}

/// T, the symbol for true (standard 5.3, `t`).
pub fn truth(alloc: Global) -> Result<Datum, AllocError>
    ensures value { IfOk result (λ d. object_of d ≡ t) }
    ensures proper { IfOk result IsProper }
{
    symbol(alloc, COMMON_LISP, b"T")
}

/// NIL, the empty list.
pub fn empty_list(alloc: Global) -> Result<Datum, AllocError>
    ensures value { IfOk result (λ d. object_of d ≡ nil) }
    ensures proper { IfOk result IsProper }
{
    Datum::nil(alloc)
}

/// The keyword of this name, of bytes below 128.
pub fn keyword(alloc: Global, name: &[u8]) -> Result<Datum, AllocError>
    ensures value { IfOk result (λ d. object_of d ≡ Object.symbol keyword name.now) }
    ensures proper { IsAscii name.now → IfOk result IsProper }
{
    symbol(alloc, KEYWORD, name)
}

/// The text of these characters, below 128.
pub fn text(alloc: Global, characters: &[u8]) -> Result<Datum, AllocError>
    ensures value { IfOk result (λ d. object_of d ≡ Object.text characters.now) }
    ensures proper { IsAscii characters.now → IfOk result IsProper }
{
    Ok(Datum::Text(Bytes::from_slice(alloc, characters)?))
}

/// Whether a value has more levels than one that is built may have.
#[tactic(auto, using(crate::proofs::Shapes::depth_test))]
pub(crate) fn is_too_deep(value: &Datum) -> bool
    requires { IsProper value.now }
    ensures { result ≡ nat_lt 100 (object_depth (object_of value.now)) }
{
    value.depth() > MOST_LEVELS
}

/// Whether a value is larger than one that is built may be.
#[tactic(auto, using(crate::proofs::Shapes::size_test))]
pub(crate) fn is_too_large(value: &Datum) -> bool
    requires { IsProper value.now }
    ensures { result ≡ nat_lt 1000000 (object_size (object_of value.now)) }
{
    value.size() > LARGEST_SIZE
}

/// Whether a value has more levels than an item of a list that is built may have.
#[tactic(auto, using(crate::proofs::Pushes::within_depth, crate::proofs::Pushes::before_depth))]
pub fn is_too_deep_within(item: &Datum) -> bool
    requires { IsProper item.now }
    ensures value { result ≡ nat_lt 99 (object_depth (object_of item.now)) }
    ensures before { (list : Object) → holds_pair (Some list) ≡ true → object_depth list ≤ 100
        → result ≡ nat_lt 100 (object_depth (pair (object_of item.now) list)) }
{
    item.depth() > MOST_LEVELS_WITHIN
}

/// LIST: the list of these values.
pub fn list(alloc: Global, values: Vec<Datum>) -> Result<Evaluated, EvaluationError>
    requires { list_all is_proper values.items ≡ true }
    ensures gives { (s : WorldState) → Answers done result s (list (objects values.items) s) }
    ensures proper { IfOk result IsProperValue }
{
    let items = Items::from_vec(values);
    if items.is_empty() {
        return Ok(Evaluated {
            value: empty_list(alloc)?,
            wrote: false,
        });
    }
    let value = Datum::List { items, tail: None };
    if is_too_deep(&value) {
        return Err(Refused(VALUE_TOO_DEEP));
    }
    if is_too_large(&value) {
        return Err(Refused(LIMIT));
    }
    Ok(Evaluated {
        value,
        wrote: false,
    })
}
