//! The functions on texts and the names of symbols (standard 16.2, 10.2).
ghost use Rattle.std.specs.Prelude.{◌≡◌, bytes_eq, Ok, IfOk};
ghost use Rattle.lisp_object.specs.Datum.{object_of};
ghost use Rattle.lisp_operators.specs.EvaluationAnswers.{IsProper, AreProper, objects};
ghost use Rattle.value_functions.specs.TextValues.{less_at, place_or_nil, with_text, of_text, on_texts};
ghost use Rattle.value_functions.specs.FunctionAnswers.{AnswersValue, truth_value};

use crate::functions::OnTexts;
use crate::kinds::string;
use crate::truth::truth_value;
use lisp_object::Datum;
use lisp_object::refusal::ARGUMENT_KIND;
use lisp_operators::EvaluationError;
use lisp_operators::EvaluationError::Refused;
use std::alloc::Global;

// Where the first text is less than the second: the place at which they are not the same.
fn less_at(a: &[u8], b: &[u8]) -> Option<usize>
    ensures { result ≡ less_at 0 a.now b.now }
{
    for at in 0..a.len() {
        if at >= b.len() || a[at] > b[at] {
            return None;
        }
        if a[at] < b[at] {
            return Some(at);
        }
    }
    if a.len() < b.len() {
        return Some(a.len());
    }
    None
}

// STRING=.
fn same_text(alloc: Global, a: &[u8], b: &[u8]) -> Result<Datum, EvaluationError>
    ensures value { AnswersValue result (Ok (truth_value (bytes_eq a.now b.now))) }
    ensures proper { IfOk result IsProper }
{
    Ok(truth_value(alloc, a == b)?)
}

// STRING<.
fn text_less(alloc: Global, a: &[u8], b: &[u8]) -> Result<Datum, EvaluationError>
    ensures value { AnswersValue result (place_or_nil (less_at 0 a.now b.now)) }
    ensures proper { IfOk result IsProper }
{
    match less_at(a, b) {
        Some(at) => Ok(Datum::Integer(at as i128)),
        None => Ok(Datum::nil(alloc)?),
    }
}

// A function of two string designators.
fn with_text(
    alloc: Global,
    function: OnTexts,
    first: &Datum,
    second: &Datum,
) -> Result<Datum, EvaluationError>
    requires first { IsProper first.now }
    requires second { IsProper second.now }
    ensures value { AnswersValue result (with_text function (object_of first.now) (object_of second.now)) }
    ensures proper { IfOk result IsProper }
{
    let Some(a) = string(first) else {
        return Err(Refused(ARGUMENT_KIND));
    };
    let Some(b) = string(second) else {
        return Err(Refused(ARGUMENT_KIND));
    };
    match function {
        OnTexts::SameText => same_text(alloc, a, b),
        OnTexts::TextLess => text_less(alloc, a, b),
        OnTexts::SymbolName => Err(Refused(ARGUMENT_KIND)),
    }
}

// A function of one symbol.
fn of_text(function: OnTexts, datum: &Datum) -> Result<Datum, EvaluationError>
    requires { IsProper datum.now }
    ensures value { AnswersValue result (of_text function (object_of datum.now)) }
    ensures proper { IfOk result IsProper }
{
    match function {
        OnTexts::SameText | OnTexts::TextLess => Err(Refused(ARGUMENT_KIND)),
        OnTexts::SymbolName => name_of(datum),
    }
}

// SYMBOL-NAME.
fn name_of(datum: &Datum) -> Result<Datum, EvaluationError>
    requires { IsProper datum.now }
    ensures value { AnswersValue result (of_text OnTexts.SymbolName (object_of datum.now)) }
    ensures proper { IfOk result IsProper }
{
    match datum {
        Datum::Symbol { name, .. } => Ok(Datum::Text(name.clone()?)),
        Datum::Uninterned(name) => Ok(Datum::Text(name.clone()?)),
        Datum::Text(_) => Err(Refused(ARGUMENT_KIND)),
        Datum::Char(_) => Err(Refused(ARGUMENT_KIND)),
        Datum::Integer(_) => Err(Refused(ARGUMENT_KIND)),
        Datum::Rational(_) => Err(Refused(ARGUMENT_KIND)),
        Datum::List { .. } => Err(Refused(ARGUMENT_KIND)),
        Datum::Vector(_) => Err(Refused(ARGUMENT_KIND)),
    }
}

/// What a function on texts gives. Refused as `ARGUMENT_KIND` where there are not one or two; `on_texts` of the specs
/// says what each refuses besides.
pub(crate) fn on_texts(
    alloc: Global,
    function: OnTexts,
    values: &[Datum],
) -> Result<Datum, EvaluationError>
    requires { AreProper values.now }
    ensures value { AnswersValue result (on_texts function (objects values.now)) }
    ensures proper { IfOk result IsProper }
{
    match values {
        [datum] => of_text(function, datum),
        [first, second] => with_text(alloc, function, first, second),
        _ => Err(Refused(ARGUMENT_KIND)),
    }
}
