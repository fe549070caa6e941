//! Whether two objects are the same (standard 5.3).
ghost use Rattle.std.specs.Prelude.{◌≡◌, ◌&&◌, true, false, option_map, IfOk, IfSome};
ghost use Rattle.lisp_object.specs.Object.{Object, pairs};
ghost use Rattle.lisp_object.specs.Datum.{object_of, is_proper, is_list};
ghost use Rattle.lisp_operators.specs.ArgumentKinds.{is_pair};
ghost use Rattle.lisp_operators.specs.EvaluationAnswers.{or_nil, IsProper, AreProper, objects};
ghost use Rattle.value_functions.specs.Equality.{is_eql, is_equal, equality};
ghost use Rattle.value_functions.specs.FunctionAnswers.{AnswersValue};

use crate::functions::Equality;
use crate::kinds::{character, integer, ratio, text};
use crate::truth::truth_value;
use lisp_object::refusal::ARGUMENT_KIND;
use lisp_object::{Boxed, Datum, Items};
use lisp_operators::EvaluationError::Refused;
use lisp_operators::{EvaluationError, kinds};
use std::alloc::Global;

/// EQL.
#[tactic(auto, using(crate::proofs::Equal::eql_laws))]
pub(crate) fn is_eql(a: &Datum, b: &Datum) -> bool
    requires first { IsProper a.now }
    requires second { IsProper b.now }
    ensures { result ≡ is_eql (object_of a.now) (object_of b.now) }
{
    match a {
        Datum::Integer(m) => match integer(b) {
            Some(n) => *m == n,
            None => false,
        },
        Datum::Rational(p) => match ratio(b) {
            Some((n, d)) => p.numerator() == n && p.denominator() == d,
            None => false,
        },
        Datum::Char(c) => match character(b) {
            Some(d) => *c == d,
            None => false,
        },
        Datum::Symbol { package, name } => match kinds::symbol(b) {
            Ok((home, other)) => package.as_slice() == home && name.as_slice() == other,
            Err(_) => false,
        },
        Datum::Text(_) => false,
        Datum::Uninterned(_) => false,
        Datum::List { .. } => false,
        Datum::Vector(_) => false,
    }
}

/// EQUAL. The time is that of what both hold, and the stack takes a call for each level of nesting.
#[cycle(equal)]
fn is_equal(a: &Datum, b: &Datum) -> bool
    requires first { IsProper a.now }
    requires second { IsProper b.now }
    ensures { result ≡ is_equal (object_of a.now) (object_of b.now) }
{
    match a {
        Datum::Text(characters) => match text(b) {
            Some(others) => characters.as_slice() == others,
            None => false,
        },
        Datum::List { items, tail } => match b {
            Datum::List {
                items: others,
                tail: end,
            } => {
                if !are_equal(items, others) {
                    return false;
                }
                ends_equal(tail, end)
            }
            _ => false,
        },
        _ => is_eql(a, b),
    }
}

// Whether lists of these items, which end in the same, are EQUAL.
#[cycle(equal)]
fn are_equal(items: &Items<Datum>, others: &Items<Datum>) -> bool
    requires first { AreProper items.now }
    requires second { AreProper others.now }
    ensures { (s t : Object) → is_pair s ≡ false → is_pair t ≡ false
        → is_equal (pairs (objects items.now) s) (pairs (objects others.now) t) ≡ (result && is_equal s t) }
{
    let items = items.as_slice();
    let others = others.as_slice();
    if items.len() != others.len() {
        return false;
    }
    for at in 0..items.len() {
        if !is_equal(&items[at], &others[at]) {
            return false;
        }
    }
    true
}

// Whether what ends two lists is EQUAL.
#[cycle(equal)]
fn ends_equal(tail: &Option<Boxed<Datum>>, end: &Option<Boxed<Datum>>) -> bool
    requires first { IfSome tail.now (λ d. (is_proper d ≡ true) × (is_list d ≡ false)) }
    requires second { IfSome end.now (λ d. (is_proper d ≡ true) × (is_list d ≡ false)) }
    ensures { result
        ≡ is_equal (or_nil (option_map object_of tail.now)) (or_nil (option_map object_of end.now)) }
{
    match tail {
        Some(tail) => match end {
            Some(end) => is_equal(tail.get(), end.get()),
            None => false,
        },
        None => match end {
            Some(_) => false,
            None => true,
        },
    }
}

/// EQL or EQUAL of two arguments. Refused as `ARGUMENT_KIND` where there are not two.
pub(crate) fn test_equality(
    alloc: Global,
    test: Equality,
    values: &[Datum],
) -> Result<Datum, EvaluationError>
    requires { AreProper values.now }
    ensures value { AnswersValue result (equality test (objects values.now)) }
    ensures proper { IfOk result IsProper }
{
    let [a, b] = values else {
        return Err(Refused(ARGUMENT_KIND));
    };
    match test {
        Equality::Eql => Ok(truth_value(alloc, is_eql(a, b))?),
        Equality::Equal => Ok(truth_value(alloc, is_equal(a, b))?),
    }
}
