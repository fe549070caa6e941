//! The functions on lists, vectors and texts (standard 15.2, 17.3).
ghost use Rattle.std.specs.Prelude.{◌≡◌, not, reverse, option_map, IfErr, IfOk, IfSome};
ghost use Rattle.std.specs.List.{filter};
ghost use Rattle.lisp_object.specs.Datum.{object_of};
ghost use Rattle.lisp_operators.specs.ArgumentKinds.{a_character};
ghost use Rattle.lisp_operators.specs.EvaluationAnswers.{IsProper, AreProper, IsAscii, objects};
ghost use Rattle.lisp_operators.specs.declared.error.EvaluationError.TheVariants.{OutOfMemory};
ghost use Rattle.value_functions.specs.Equality.{is_eql};
ghost use Rattle.value_functions.specs.Sequences.{a_sequence, a_vector, item_in, item_at, items_of, list, object_of_sequence, length_of, other_characters, reversed, without, of_sequence, with_sequence, on_sequences};
ghost use Rattle.value_functions.specs.SequenceParts.{sequence_in, AreProperParts};
ghost use Rattle.value_functions.specs.FunctionAnswers.{AnswersValue};

use crate::equals::is_eql;
use crate::functions::OnSequences;
use crate::items::{copied, proper_items};
use crate::kinds::{character, integer};
use lisp_object::refusal::{ARGUMENT_KIND, INTEGER_RANGE};
use lisp_object::{Bytes, Datum, Items};
use lisp_operators::EvaluationError;
use lisp_operators::EvaluationError::Refused;
use std::alloc::{AllocError, Global};

/// A list that ends in NIL, a vector or a text, by its items or its characters.
#[derive(Clone, Copy)]
pub(crate) enum SequenceParts<'a> {
    List(&'a [Datum]),
    Vector(&'a [Datum]),
    Text(&'a [u8]),
}

// What is no vector and no text, as a list.
fn list_in(datum: &Datum) -> Option<SequenceParts<'_>>
    requires { IsProper datum.now }
    ensures value { option_map sequence_in result ≡ option_map list (items_of (object_of datum.now)) }
    ensures proper { IfSome result AreProperParts }
{
    match proper_items(datum) {
        Some(items) => Some(SequenceParts::List(items)),
        None => None,
    }
}

// The sequence that an object is.
fn sequence(datum: &Datum) -> Option<SequenceParts<'_>>
    requires { IsProper datum.now }
    ensures value { option_map sequence_in result ≡ a_sequence (object_of datum.now) }
    ensures proper { IfSome result AreProperParts }
{
    match datum {
        Datum::Text(characters) => Some(SequenceParts::Text(characters.as_slice())),
        Datum::Vector(items) => Some(SequenceParts::Vector(items.as_slice())),
        Datum::List { .. } => list_in(datum),
        Datum::Symbol { .. } => list_in(datum),
        Datum::Uninterned(_) => None,
        Datum::Integer(_) => None,
        Datum::Rational(_) => None,
        Datum::Char(_) => None,
    }
}

// The items of a vector.
fn vector(datum: &Datum) -> Option<&[Datum]>
    requires { IsProper datum.now }
    ensures value { option_map (λ xs. objects xs.now) result ≡ a_vector (object_of datum.now) }
    ensures proper { IfSome result (λ xs. AreProper xs.now) }
{
    match datum {
        Datum::Vector(items) => Some(items.as_slice()),
        Datum::List { .. } => None,
        Datum::Symbol { .. } => None,
        Datum::Text(_) => None,
        Datum::Uninterned(_) => None,
        Datum::Integer(_) => None,
        Datum::Rational(_) => None,
        Datum::Char(_) => None,
    }
}

// How many items or characters it has.
fn length_of(sequence: SequenceParts<'_>) -> usize
    ensures { result ≡ length_of (sequence_in sequence.entry) }
{
    match sequence {
        SequenceParts::List(items) => items.len(),
        SequenceParts::Vector(items) => items.len(),
        SequenceParts::Text(characters) => characters.len(),
    }
}

// Copies of these, the last one first.
fn reversed_items(alloc: Global, items: &[Datum]) -> Result<Vec<Datum>, AllocError>
    requires { AreProper items.now }
    ensures value { IfOk result (λ v. objects v.items ≡ reverse (objects items.now)) }
    ensures proper { IfOk result (λ v. AreProper v.items) }
{
    let mut copies = copied(alloc, items)?;
    copies.reverse();
    Ok(copies)
}

// Copies of these but those that are EQL to the first object.
fn other_items(alloc: Global, datum: &Datum, items: &[Datum]) -> Result<Vec<Datum>, AllocError>
    requires datum { IsProper datum.now }
    requires items { AreProper items.now }
    ensures value { IfOk result
        (λ v. objects v.items ≡ filter (λ y. not (is_eql (object_of datum.now) y)) (objects items.now)) }
    ensures proper { IfOk result (λ v. AreProper v.items) }
{
    let mut others = Vec::new(alloc);
    for item in items {
        if !is_eql(datum, item) {
            others.push(item.copy(alloc)?)?;
        }
    }
    Ok(others)
}

// These characters but this one, where the object is one.
fn other_characters(alloc: Global, datum: &Datum, characters: &[u8]) -> Result<Vec<u8>, AllocError>
    requires datum { IsProper datum.now }
    requires characters { IsAscii characters.now }
    ensures value { IfOk result
        (λ v. v.items ≡ other_characters (a_character (object_of datum.now)) characters.now) }
    ensures proper { IfOk result (λ v. IsAscii v.items) }
{
    let Some(left_out) = character(datum) else {
        return Vec::from_slice(alloc, characters);
    };
    let mut others = Vec::new(alloc);
    for byte in characters {
        if left_out != *byte {
            others.push(*byte)?;
        }
    }
    Ok(others)
}

// REVERSE of a sequence.
fn reversed(alloc: Global, sequence: SequenceParts<'_>) -> Result<Datum, EvaluationError>
    requires { AreProperParts sequence }
    ensures value { IfOk result
        (λ d. object_of d ≡ object_of_sequence (reversed (sequence_in sequence.entry))) }
    ensures memory { IfErr result (λ error. error ≡ OutOfMemory) }
    ensures proper { IfOk result IsProper }
{
    match sequence {
        SequenceParts::List(items) => Ok(Datum::list(alloc, reversed_items(alloc, items)?, None)?),
        SequenceParts::Vector(items) => Ok(Datum::Vector(Items::from_vec(reversed_items(
            alloc, items,
        )?))),
        SequenceParts::Text(characters) => {
            let mut copies = Vec::from_slice(alloc, characters)?;
            copies.reverse();
            Ok(Datum::Text(Bytes::from_vec(copies)?))
        }
    }
}

// REMOVE of an object from a sequence.
fn without(
    alloc: Global,
    datum: &Datum,
    sequence: SequenceParts<'_>,
) -> Result<Datum, EvaluationError>
    requires datum { IsProper datum.now }
    requires sequence { AreProperParts sequence }
    ensures value { IfOk result
        (λ d. object_of d ≡ object_of_sequence (without (object_of datum.now) (sequence_in sequence.entry))) }
    ensures memory { IfErr result (λ error. error ≡ OutOfMemory) }
    ensures proper { IfOk result IsProper }
{
    match sequence {
        SequenceParts::List(items) => Ok(Datum::list(
            alloc,
            other_items(alloc, datum, items)?,
            None,
        )?),
        SequenceParts::Vector(items) => {
            let others = other_items(alloc, datum, items)?;
            Ok(Datum::Vector(Items::from_vec(others)))
        }
        SequenceParts::Text(characters) => {
            let others = other_characters(alloc, datum, characters)?;
            Ok(Datum::Text(Bytes::from_vec(others)?))
        }
    }
}

// The item at this place.
fn item_in(alloc: Global, items: &[Datum], at: usize) -> Result<Datum, EvaluationError>
    requires { AreProper items.now }
    ensures value { AnswersValue result (item_in at (objects items.now)) }
    ensures proper { IfOk result IsProper }
{
    if at >= items.len() {
        return Err(Refused(INTEGER_RANGE));
    }
    Ok(items[at].copy(alloc)?)
}

// The item at this index.
fn item_at(alloc: Global, items: &[Datum], index: i128) -> Result<Datum, EvaluationError>
    requires { AreProper items.now }
    ensures value { AnswersValue result (item_at (objects items.now) index) }
    ensures proper { IfOk result IsProper }
{
    if index < 0 || index >= items.len() as i128 {
        return Err(Refused(INTEGER_RANGE));
    }
    item_in(alloc, items, index as usize)
}

// SVREF.
fn svref(alloc: Global, datum: &Datum, index: &Datum) -> Result<Datum, EvaluationError>
    requires datum { IsProper datum.now }
    requires index { IsProper index.now }
    ensures value { AnswersValue result
        (with_sequence OnSequences.Svref (object_of datum.now) (object_of index.now)) }
    ensures proper { IfOk result IsProper }
{
    let Some(items) = vector(datum) else {
        return Err(Refused(ARGUMENT_KIND));
    };
    let Some(number) = integer(index) else {
        return Err(Refused(ARGUMENT_KIND));
    };
    item_at(alloc, items, number)
}

// A function of one sequence.
fn of_sequence(
    alloc: Global,
    function: OnSequences,
    datum: &Datum,
) -> Result<Datum, EvaluationError>
    requires { IsProper datum.now }
    ensures value { AnswersValue result (of_sequence function (object_of datum.now)) }
    ensures proper { IfOk result IsProper }
{
    let Some(parts) = sequence(datum) else {
        return Err(Refused(ARGUMENT_KIND));
    };
    match function {
        OnSequences::Length => Ok(Datum::Integer(length_of(parts) as i128)),
        OnSequences::Reverse => reversed(alloc, parts),
        OnSequences::Remove | OnSequences::Svref => Err(Refused(ARGUMENT_KIND)),
    }
}

// REMOVE.
fn remove(alloc: Global, datum: &Datum, from: &Datum) -> Result<Datum, EvaluationError>
    requires datum { IsProper datum.now }
    requires from { IsProper from.now }
    ensures value { AnswersValue result
        (with_sequence OnSequences.Remove (object_of datum.now) (object_of from.now)) }
    ensures proper { IfOk result IsProper }
{
    match sequence(from) {
        Some(parts) => without(alloc, datum, parts),
        None => Err(Refused(ARGUMENT_KIND)),
    }
}

// A function of two arguments.
fn with_sequence(
    alloc: Global,
    function: OnSequences,
    first: &Datum,
    second: &Datum,
) -> Result<Datum, EvaluationError>
    requires first { IsProper first.now }
    requires second { IsProper second.now }
    ensures value { AnswersValue result
        (with_sequence function (object_of first.now) (object_of second.now)) }
    ensures proper { IfOk result IsProper }
{
    match function {
        OnSequences::Remove => remove(alloc, first, second),
        OnSequences::Svref => svref(alloc, first, second),
        OnSequences::Length | OnSequences::Reverse => Err(Refused(ARGUMENT_KIND)),
    }
}

/// What a function on sequences gives. Refused as `ARGUMENT_KIND` where there are not one or two; `on_sequences` of the
/// specs says what each refuses besides.
pub(crate) fn on_sequences(
    alloc: Global,
    function: OnSequences,
    values: &[Datum],
) -> Result<Datum, EvaluationError>
    requires { AreProper values.now }
    ensures value { AnswersValue result (on_sequences function (objects values.now)) }
    ensures proper { IfOk result IsProper }
{
    match values {
        [datum] => of_sequence(alloc, function, datum),
        [first, second] => with_sequence(alloc, function, first, second),
        _ => Err(Refused(ARGUMENT_KIND)),
    }
}
