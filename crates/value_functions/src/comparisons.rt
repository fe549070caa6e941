//! How numbers are to one another (standard 12.2).
ghost use Rattle.std.specs.Prelude.{◌≡◌, ◌<◌, ◌*◌, nat_lt, IfOk, true};
ghost use Rattle.std.specs.List.{list_all};
ghost use Rattle.lisp_object.specs.Datum.{object_of};
ghost use Rattle.lisp_operators.specs.EvaluationAnswers.{IsProper, AreProper, objects};
ghost use Rattle.value_functions.specs.Comparisons.{is_number, fraction_of, is_less, compares, is_chain, comparison};
ghost use Rattle.value_functions.specs.FunctionAnswers.{AnswersValue};

use crate::functions::Comparison;
use crate::truth::truth_value;
use lisp_object::Datum;
use lisp_object::refusal::ARGUMENT_KIND;
use lisp_operators::EvaluationError;
use lisp_operators::EvaluationError::Refused;
use std::alloc::Global;

// Whether it is a number.
fn is_number(datum: &Datum) -> bool
    requires { IsProper datum.now }
    ensures { result ≡ is_number (object_of datum.now) }
{
    match datum {
        Datum::Integer(_) => true,
        Datum::Rational(_) => true,
        Datum::Char(_) => false,
        Datum::Text(_) => false,
        Datum::Symbol { .. } => false,
        Datum::Uninterned(_) => false,
        Datum::List { .. } => false,
        Datum::Vector(_) => false,
    }
}

/// Whether each of these is a number.
pub(crate) fn are_numbers(values: &[Datum]) -> bool
    requires { AreProper values.now }
    ensures { result ≡ list_all is_number (objects values.now) }
{
    'values: for datum in values {
        if !is_number(datum) {
            return false;
        }
    }
    true
}

// The numerator and the denominator of a number.
fn fraction_of(datum: &Datum) -> (i128, u128)
    requires { IsProper datum.now }
    ensures value { (result.0, result.1) ≡ fraction_of (object_of datum.now) }
    ensures over_zero { 0 < result.1 }
{
    match datum {
        Datum::Integer(n) => (*n, 1),
        Datum::Rational(ratio) => (ratio.numerator(), ratio.denominator()),
        Datum::Char(_) => (0, 1),
        Datum::Text(_) => (0, 1),
        Datum::Symbol { .. } => (0, 1),
        Datum::Uninterned(_) => (0, 1),
        Datum::List { .. } => (0, 1),
        Datum::Vector(_) => (0, 1),
    }
}

// Whether the fraction a/b is less than c/d. Where their quotients are the same, what is left of each decides, r/b and
// s/d: the first is less where d/s is less than b/r.
fn is_under(mut a: u128, mut b: u128, mut c: u128, mut d: u128) -> bool
    requires first { 0 < b }
    requires second { 0 < d }
    ensures { result ≡ nat_lt (a * d) (c * b) }
{
    while a / b == c / d && a % b != 0 && c % d != 0 {
        let r = a % b;
        let s = c % d;
        a = d;
        c = b;
        b = s;
        d = r;
    }
    if a / b != c / d {
        return a / b < c / d;
    }
    a % b == 0 && c % d != 0
}

/// Whether the first number is less than the second.
pub(crate) fn is_less(first: &Datum, second: &Datum) -> bool
    requires first { IsProper first.now }
    requires second { IsProper second.now }
    ensures { result ≡ is_less (object_of first.now) (object_of second.now) }
{
    let (n, d) = fraction_of(first);
    let (m, e) = fraction_of(second);
    if n < 0 {
        if m < 0 {
            return is_under(m.unsigned_abs(), e, n.unsigned_abs(), d);
        }
        return true;
    }
    if m < 0 {
        return false;
    }
    is_under(n.unsigned_abs(), d, m.unsigned_abs(), e)
}

// Whether the first number is so to the second.
fn compares(test: Comparison, first: &Datum, second: &Datum) -> bool
    requires first { IsProper first.now }
    requires second { IsProper second.now }
    ensures { result ≡ compares test (object_of first.now) (object_of second.now) }
{
    match test {
        Comparison::Same => !is_less(first, second) && !is_less(second, first),
        Comparison::Different => is_less(first, second) || is_less(second, first),
        Comparison::Less => is_less(first, second),
        Comparison::AtMost => !is_less(second, first),
        Comparison::Greater => is_less(second, first),
        Comparison::AtLeast => !is_less(first, second),
    }
}

// Whether each of these is so to the next one.
fn is_chain(test: Comparison, first: &Datum, rest: &[Datum]) -> bool
    requires first { IsProper first.now }
    requires rest { AreProper rest.now }
    ensures { result ≡ is_chain test (object_of first.now) (objects rest.now) }
{
    let mut before = first;
    'rest: for datum in rest {
        if !compares(test, before, datum) {
            return false;
        }
        before = datum;
    }
    true
}

/// What a comparison of these gives. Refused as `ARGUMENT_KIND` where there is none, or one is no number.
pub(crate) fn compare_numbers(
    alloc: Global,
    test: Comparison,
    values: &[Datum],
) -> Result<Datum, EvaluationError>
    requires { AreProper values.now }
    ensures value { AnswersValue result (comparison test (objects values.now)) }
    ensures proper { IfOk result IsProper }
{
    if !are_numbers(values) {
        return Err(Refused(ARGUMENT_KIND));
    }
    match values {
        [] => Err(Refused(ARGUMENT_KIND)),
        [first, rest @ ..] => Ok(truth_value(alloc, is_chain(test, first, rest))?),
    }
}
