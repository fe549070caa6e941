//! The places that SETF, INCF, DECF, PUSH and POP take (standard 5.1).
ghost use Rattle.std.specs.Prelude.{◌≡◌, true, Some, None, length, IfOk, MatchOption};
ghost use Rattle.lisp_object.specs.Object.{Object, pair, is_proper_list};
ghost use Rattle.lisp_object.specs.Datum.{object_of, is_proper};
ghost use Rattle.lisp_object.specs.declared.refusal.TheConstants.{ARGUMENT_KIND as WRONG_KIND};
ghost use Rattle.evaluator.specs.Operators.{is_standard, count};
ghost use Rattle.evaluator.specs.Value.{get_place_refusal, default_place_refusal, list_place_refusal, place_refusal};
ghost use Rattle.evaluator.specs.Operations.{OperationTakesCount};
ghost use Rattle.evaluator.specs.ArgumentValues.{refusal_of_place, property_place, list_place, setf_place, place_form_of, RefusesIfSome, arguments_in};
ghost use Rattle.lisp_operators.specs.EvaluationAnswers.{IsProper, AreProper};

use crate::operation::Operation;
use lisp_object::Datum;
use lisp_object::refusal::{ARGUMENT_COUNT, ARGUMENT_KIND};
use lisp_operators::EvaluationError::Refused;
use lisp_operators::{EvaluationError, kinds};
use package_table::standardized::COMMON_LISP;

/// What an operator puts a value into.
#[derive(Clone, Copy, Debug, PartialEq, Eq)]
pub enum PlaceForm {
    /// A property, which GET names.
    Property,
    /// The same, where GET has a default.
    PropertyOr,
    /// The case of a readtable, which READTABLE-CASE names.
    Case,
    /// The base in which numbers are read, `*READ-BASE*`.
    ReadBase,
}

// The operator of a list as a place, and the number of its subforms.
fn accessor(place: &Datum) -> Option<(&Datum, usize)>
    requires { IsProper place.now }
    ensures value { MatchOption result
        ((get_place_refusal (object_of place.now) ≡ Some WRONG_KIND)
        × (list_place_refusal (object_of place.now) ≡ Some WRONG_KIND)
        × (default_place_refusal (object_of place.now) ≡ Some WRONG_KIND))
        (λ p. (subforms : Object) × (object_of place.now ≡ pair (object_of p.0.now) subforms)
        × (is_proper_list subforms ≡ true) × (count subforms ≡ p.1)) }
    ensures proper { MatchOption result (Unit {0}) (λ p. is_proper p.0.now ≡ true) }
{
    match place {
        Datum::List { items, tail } => {
            if tail.is_some() {
                return None;
            }
            let items = items.as_slice();
            Some((&items[0], items.len() - 1))
        }
        Datum::Integer(_) => None,
        Datum::Rational(_) => None,
        Datum::Char(_) => None,
        Datum::Text(_) => None,
        Datum::Symbol { .. } => None,
        Datum::Uninterned(_) => None,
        Datum::Vector(_) => None,
    }
}

/// Whether it is the symbol of COMMON-LISP with this name.
#[tactic(auto, using(crate::proofs::Places::standard_by_parts))]
pub fn is_standard(datum: &Datum, name: &[u8]) -> bool
    requires { IsProper datum.now }
    ensures { result ≡ is_standard name.now (object_of datum.now) }
{
    match kinds::symbol(datum) {
        Ok((home, own)) => home == COMMON_LISP && own == name,
        Err(_) => false,
    }
}

// That it is a place that GET names.
fn check_property(place: &Datum) -> Result<PlaceForm, EvaluationError>
    requires { IsProper place.now }
    ensures refusal { RefusesIfSome (get_place_refusal (object_of place.now)) result }
    ensures value { IfOk result (λ p. p ≡ PlaceForm.Property) }
{
    let Some((operator, number)) = accessor(place) else {
        return Err(Refused(ARGUMENT_KIND));
    };
    if !is_standard(operator, b"GET") {
        return Err(Refused(ARGUMENT_KIND));
    }
    if number != 2 {
        return Err(Refused(ARGUMENT_COUNT));
    }
    Ok(PlaceForm::Property)
}

// That it is a place that GET names, with a default or without.
fn check_with_default(place: &Datum) -> Result<PlaceForm, EvaluationError>
    requires { IsProper place.now }
    ensures refusal { RefusesIfSome (default_place_refusal (object_of place.now)) result }
    ensures value { IfOk result (λ p. p ≡ property_place (object_of place.now)) }
{
    let Some((name, number)) = accessor(place) else {
        return Err(Refused(ARGUMENT_KIND));
    };
    if !is_standard(name, b"GET") {
        return Err(Refused(ARGUMENT_KIND));
    }
    if number == 3 {
        return Ok(PlaceForm::PropertyOr);
    }
    if number == 2 {
        return Ok(PlaceForm::Property);
    }
    Err(Refused(ARGUMENT_COUNT))
}

// That it is a list that is a place for SETF, and what it names.
fn check_list(place: &Datum) -> Result<PlaceForm, EvaluationError>
    requires { IsProper place.now }
    ensures refusal { RefusesIfSome (list_place_refusal (object_of place.now)) result }
    ensures value { IfOk result (λ p. p ≡ list_place (object_of place.now)) }
{
    let Some((operator, number)) = accessor(place) else {
        return Err(Refused(ARGUMENT_KIND));
    };
    if !is_standard(operator, b"READTABLE-CASE") {
        return check_property(place);
    }
    if number != 1 {
        return Err(Refused(ARGUMENT_COUNT));
    }
    Ok(PlaceForm::Case)
}

// That it is a place for SETF, and what it names.
fn check_setf(place: &Datum) -> Result<PlaceForm, EvaluationError>
    requires { IsProper place.now }
    ensures refusal { RefusesIfSome (place_refusal (object_of place.now)) result }
    ensures value { IfOk result (λ p. p ≡ setf_place (object_of place.now)) }
{
    if is_standard(place, b"*READ-BASE*") {
        return Ok(PlaceForm::ReadBase);
    }
    check_list(place)
}

/// That the place of an operator, if it takes one, is a place, and what it names. The first of the items is the
/// operator itself. What is no place is refused as `refusal_of_place` says.
pub fn check_place(operation: Operation, items: &[Datum]) -> Result<PlaceForm, EvaluationError>
    requires counted { OperationTakesCount operation (length items.now) }
    requires proper { AreProper items.now }
    ensures refusal { RefusesIfSome (refusal_of_place operation (arguments_in items.now)) result }
    ensures value { IfOk result (λ p. p ≡ place_form_of operation (arguments_in items.now)) }
{
    match operation {
        Operation::Setf => check_setf(&items[1]),
        Operation::Incf => check_property(&items[1]),
        Operation::Push => check_property(&items[2]),
        Operation::Changes(_) => check_with_default(&items[1]),
        _ => Ok(PlaceForm::Property),
    }
}
