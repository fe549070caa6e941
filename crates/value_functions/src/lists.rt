//! The functions on pairs and lists (standard 14.2).
ghost use Rattle.std.specs.Prelude.{◌≡◌, ◌<◌, false, length, IfOk, IfSome};
ghost use Rattle.lisp_object.specs.Object.{Object, pair, pairs};
ghost use Rattle.lisp_object.specs.Datum.{object_of};
ghost use Rattle.lisp_operators.specs.ArgumentKinds.{is_pair};
ghost use Rattle.lisp_operators.specs.EvaluationAnswers.{IsProper, AreProper, objects};
ghost use Rattle.value_functions.specs.Lists.{car, cdr, nth_value, member, assoc, adjoin, of_list, function_of_list, on_lists};
ghost use Rattle.value_functions.specs.Parts.{end_of, IsListEnd, from_place};
ghost use Rattle.value_functions.specs.FunctionAnswers.{AnswersValue, if_within};

use crate::equals::is_eql;
use crate::functions::OnLists;
use crate::kinds::integer;
use crate::parts::{copied_list, list_parts, past_end, within};
use lisp_object::Datum;
use lisp_object::refusal::{ARGUMENT_KIND, INTEGER_RANGE};
use lisp_operators::EvaluationError;
use lisp_operators::EvaluationError::Refused;
use std::alloc::Global;

// CAR.
fn car(alloc: Global, datum: &Datum) -> Result<Datum, EvaluationError>
    requires { IsProper datum.now }
    ensures value { AnswersValue result (car (object_of datum.now)) }
    ensures proper { IfOk result IsProper }
{
    let Some((items, end)) = list_parts(datum) else {
        return Err(Refused(ARGUMENT_KIND));
    };
    match items {
        [first, ..] => Ok(first.copy(alloc)?),
        [] => past_end(alloc, end),
    }
}

// CDR.
fn cdr(alloc: Global, datum: &Datum) -> Result<Datum, EvaluationError>
    requires { IsProper datum.now }
    ensures value { AnswersValue result (cdr (object_of datum.now)) }
    ensures proper { IfOk result IsProper }
{
    let Some((items, end)) = list_parts(datum) else {
        return Err(Refused(ARGUMENT_KIND));
    };
    match items {
        [_, rest @ ..] => Ok(copied_list(alloc, rest, end)?),
        [] => past_end(alloc, end),
    }
}

// CONS.
fn cons(alloc: Global, first: &Datum, rest: &Datum) -> Result<Datum, EvaluationError>
    requires first { IsProper first.now }
    requires rest { IsProper rest.now }
    ensures value { AnswersValue result (if_within (pair (object_of first.now) (object_of rest.now))) }
    ensures proper { IfOk result IsProper }
{
    let mut items = Vec::new(alloc);
    items.push(first.copy(alloc)?)?;
    within(Datum::list(alloc, items, Some(rest.copy(alloc)?))?)
}

// NTH.
fn nth(alloc: Global, index: &Datum, list: &Datum) -> Result<Datum, EvaluationError>
    requires index { IsProper index.now }
    requires list { IsProper list.now }
    ensures value { AnswersValue result (nth_value (object_of index.now) (object_of list.now)) }
    ensures proper { IfOk result IsProper }
{
    let Some(number) = integer(index) else {
        return Err(Refused(ARGUMENT_KIND));
    };
    let Some((items, end)) = list_parts(list) else {
        return Err(Refused(ARGUMENT_KIND));
    };
    if number < 0 {
        return Err(Refused(INTEGER_RANGE));
    }
    let Ok(at) = usize::try_from(number) else {
        return past_end(alloc, end);
    };
    if at >= items.len() {
        return past_end(alloc, end);
    }
    Ok(items[at].copy(alloc)?)
}

// The place of the first item that is EQL to this object.
fn place(datum: &Datum, items: &[Datum]) -> Option<usize>
    requires datum { IsProper datum.now }
    requires items { AreProper items.now }
    ensures value { (end : Object) → is_pair end ≡ false
        → member (object_of datum.now) (pairs (objects items.now) end)
        ≡ from_place (objects items.now) end result }
    ensures within { IfSome result (λ at. at < length items.now) }
{
    for at in 0..items.len() {
        if is_eql(datum, &items[at]) {
            return Some(at);
        }
    }
    None
}

// MEMBER.
fn member(alloc: Global, datum: &Datum, list: &Datum) -> Result<Datum, EvaluationError>
    requires datum { IsProper datum.now }
    requires list { IsProper list.now }
    ensures value { AnswersValue result (member (object_of datum.now) (object_of list.now)) }
    ensures proper { IfOk result IsProper }
{
    let Some((items, end)) = list_parts(list) else {
        return Err(Refused(ARGUMENT_KIND));
    };
    match place(datum, items) {
        Some(at) => Ok(copied_list(alloc, &items[at..], end)?),
        None => past_end(alloc, end),
    }
}

// ADJOIN.
fn adjoin(alloc: Global, datum: &Datum, list: &Datum) -> Result<Datum, EvaluationError>
    requires datum { IsProper datum.now }
    requires list { IsProper list.now }
    ensures value { AnswersValue result (adjoin (object_of datum.now) (object_of list.now)) }
    ensures proper { IfOk result IsProper }
{
    let Some((items, end)) = list_parts(list) else {
        return Err(Refused(ARGUMENT_KIND));
    };
    if place(datum, items).is_some() {
        return Ok(list.copy(alloc)?);
    }
    if end.is_some() {
        return Err(Refused(ARGUMENT_KIND));
    }
    cons(alloc, datum, list)
}

// ASSOC in these items of a list.
fn assoc_in(
    alloc: Global,
    datum: &Datum,
    items: &[Datum],
    end: Option<&Datum>,
) -> Result<Datum, EvaluationError>
    requires datum { IsProper datum.now }
    requires items { AreProper items.now }
    requires end { IsListEnd end }
    ensures value { AnswersValue result
        (assoc (object_of datum.now) (pairs (objects items.now) (end_of end.entry))) }
    ensures proper { IfOk result IsProper }
{
    for item in items {
        let Some((parts, _)) = list_parts(item) else {
            return Err(Refused(ARGUMENT_KIND));
        };
        match parts {
            [key, ..] => {
                if is_eql(datum, key) {
                    return Ok(item.copy(alloc)?);
                }
            }
            [] => {}
        }
    }
    past_end(alloc, end)
}

// ASSOC.
fn assoc(alloc: Global, datum: &Datum, list: &Datum) -> Result<Datum, EvaluationError>
    requires datum { IsProper datum.now }
    requires list { IsProper list.now }
    ensures value { AnswersValue result (assoc (object_of datum.now) (object_of list.now)) }
    ensures proper { IfOk result IsProper }
{
    match list_parts(list) {
        Some((items, end)) => assoc_in(alloc, datum, items, end),
        None => Err(Refused(ARGUMENT_KIND)),
    }
}

// A function of one argument.
fn of_list(alloc: Global, function: OnLists, datum: &Datum) -> Result<Datum, EvaluationError>
    requires { IsProper datum.now }
    ensures value { AnswersValue result (of_list function (object_of datum.now)) }
    ensures proper { IfOk result IsProper }
{
    match function {
        OnLists::Car => car(alloc, datum),
        OnLists::Cdr => cdr(alloc, datum),
        OnLists::Cons | OnLists::Nth | OnLists::Member | OnLists::Assoc | OnLists::Adjoin => {
            Err(Refused(ARGUMENT_KIND))
        }
    }
}

// A function of two.
fn with_list(
    alloc: Global,
    function: OnLists,
    first: &Datum,
    second: &Datum,
) -> Result<Datum, EvaluationError>
    requires first { IsProper first.now }
    requires second { IsProper second.now }
    ensures value { AnswersValue result
        (function_of_list function (object_of first.now) (object_of second.now)) }
    ensures proper { IfOk result IsProper }
{
    match function {
        OnLists::Cons => cons(alloc, first, second),
        OnLists::Nth => nth(alloc, first, second),
        OnLists::Member => member(alloc, first, second),
        OnLists::Assoc => assoc(alloc, first, second),
        OnLists::Adjoin => adjoin(alloc, first, second),
        OnLists::Car | OnLists::Cdr => Err(Refused(ARGUMENT_KIND)),
    }
}

/// What a function on lists gives. Refused as `ARGUMENT_KIND` where there are not one or two; `on_lists` of the specs
/// says what each refuses besides.
pub(crate) fn on_lists(
    alloc: Global,
    function: OnLists,
    values: &[Datum],
) -> Result<Datum, EvaluationError>
    requires { AreProper values.now }
    ensures value { AnswersValue result (on_lists function (objects values.now)) }
    ensures proper { IfOk result IsProper }
{
    match values {
        [datum] => of_list(alloc, function, datum),
        [first, second] => with_list(alloc, function, first, second),
        _ => Err(Refused(ARGUMENT_KIND)),
    }
}
