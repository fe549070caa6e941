//! The arguments of an operator: so many of them, and what those after the first ones stand for where they are given.
ghost use Rattle.std.specs.Prelude.{◌≡◌, ◌<◌, true, [], ◌∷◌, All, IfOk};
ghost use Rattle.lisp_object.specs.Datum.{object_of};
ghost use Rattle.lisp_operators.specs.ArgumentKinds.{a_name, a_keyword, a_source, given_or, given_or_nil, is_true};
ghost use Rattle.lisp_operators.specs.Readtables.{after_first};
ghost use Rattle.lisp_operators.specs.EvaluationAnswers.{IsArgument, IsOfKind, IsProper, AreProper, AreExactly, AreAtLeast, WhereArguments, objects};

use crate::EvaluationError::Refused;
use crate::{EvaluationError, kinds};
use lisp_object::Datum;
use lisp_object::refusal::ARGUMENT_KIND;
use std::alloc::{AllocError, Global};

/// The one argument. Refused as `ARGUMENT_KIND` where there is none, or more than one.
pub(crate) fn one(values: &[Datum]) -> Result<&Datum, EvaluationError>
    ensures value { AreExactly 1 (λ x. x.now ∷ []) values.now result }
    ensures arguments { WhereArguments values.now result (λ u x. IsArgument u x.now) }
{
    match values {
        [first] => Ok(first),
        _ => Err(Refused(ARGUMENT_KIND)),
    }
}

/// The two arguments. Refused as `ARGUMENT_KIND` where there are not two.
pub(crate) fn two(values: &[Datum]) -> Result<(&Datum, &Datum), EvaluationError>
    ensures value { AreExactly 2 (λ p. p.0.now ∷ p.1.now ∷ []) values.now result }
    ensures arguments { WhereArguments values.now result
        (λ u p. IsArgument u p.0.now × IsArgument u p.1.now) }
{
    match values {
        [first, second] => Ok((first, second)),
        _ => Err(Refused(ARGUMENT_KIND)),
    }
}

/// The first argument, and those after it. Refused as `ARGUMENT_KIND` where there is none.
pub(crate) fn one_and_rest(values: &[Datum]) -> Result<(&Datum, &[Datum]), EvaluationError>
    ensures value { AreAtLeast 1 (λ p. p.0.now ∷ p.1.now) values.now result }
    ensures arguments { WhereArguments values.now result
        (λ u p. IsArgument u p.0.now × All (IsArgument u) p.1.now) }
{
    match values {
        [first, rest @ ..] => Ok((first, rest)),
        _ => Err(Refused(ARGUMENT_KIND)),
    }
}

/// The first two arguments, and those after them. Refused as `ARGUMENT_KIND` where there are fewer.
pub(crate) fn two_and_rest(values: &[Datum]) -> Result<(&Datum, &Datum, &[Datum]), EvaluationError>
    ensures value { AreAtLeast 2 (λ p. p.0.now ∷ p.1.now ∷ p.2.now) values.now result }
    ensures arguments { WhereArguments values.now result
        (λ u p. IsArgument u p.0.now × IsArgument u p.1.now × All (IsArgument u) p.2.now) }
{
    match values {
        [first, second, rest @ ..] => Ok((first, second, rest)),
        _ => Err(Refused(ARGUMENT_KIND)),
    }
}

/// The first three arguments, and those after them. Refused as `ARGUMENT_KIND` where there are fewer.
pub(crate) fn three_and_rest(
    values: &[Datum],
) -> Result<(&Datum, &Datum, &Datum, &[Datum]), EvaluationError>
    ensures value { AreAtLeast 3 (λ p. p.0.now ∷ p.1.now ∷ p.2.now ∷ p.3.now)
        values.now result }
    ensures arguments { WhereArguments values.now result
        (λ u p. IsArgument u p.0.now × IsArgument u p.1.now × IsArgument u p.2.now × All (IsArgument u) p.3.now) }
{
    match values {
        [first, second, third, rest @ ..] => Ok((first, second, third, rest)),
        _ => Err(Refused(ARGUMENT_KIND)),
    }
}

/// What is given after the first of these.
pub(crate) fn after_first(rest: &[Datum]) -> &[Datum]
    ensures value { objects result.now ≡ after_first (objects rest.now) }
    ensures proper { AreProper rest.now → AreProper result.now }
{
    match rest {
        [_, more @ ..] => more,
        [] => rest,
    }
}

/// The name that the first of these designates, or the other one where there is none. Refused as `ARGUMENT_KIND` where
/// the first is neither a text nor a symbol.
pub(crate) fn name_or<'a>(rest: &'a [Datum], other: &'a [u8]) -> Result<&'a [u8], EvaluationError>
    requires { AreProper rest.now }
    ensures { IsOfKind (λ n. n.now) result (given_or a_name other.now (objects rest.now)) }
{
    match rest {
        [given, ..] => kinds::name(given),
        [] => Ok(other),
    }
}

/// The name of the first of these, a keyword, or the other name where there is none. Refused as `ARGUMENT_KIND` where
/// the first is no keyword.
pub(crate) fn keyword_or<'a>(
    rest: &'a [Datum],
    other: &'a [u8],
) -> Result<&'a [u8], EvaluationError>
    requires { AreProper rest.now }
    ensures { IsOfKind (λ n. n.now) result (given_or a_keyword other.now (objects rest.now)) }
{
    match rest {
        [given, ..] => kinds::keyword(given),
        [] => Ok(other),
    }
}

/// The readtable that the first of these names as one to take from, or the other one where there is none. Refused as
/// `ARGUMENT_KIND` where the first is neither a keyword nor NIL.
pub(crate) fn source_or<'a>(rest: &'a [Datum], other: &'a [u8]) -> Result<&'a [u8], EvaluationError>
    requires { AreProper rest.now }
    ensures { IsOfKind (λ n. n.now) result (given_or a_source other.now (objects rest.now)) }
{
    match rest {
        [given, ..] => kinds::source(given),
        [] => Ok(other),
    }
}

/// The first of these, and NIL where there is none.
pub(crate) fn given_or_nil(alloc: Global, rest: &[Datum]) -> Result<Datum, AllocError>
    requires { AreProper rest.now }
    ensures value { IfOk result (λ d. object_of d ≡ given_or_nil (objects rest.now)) }
    ensures proper { IfOk result IsProper }
{
    match rest {
        [given, ..] => given.copy(alloc),
        [] => Datum::nil(alloc),
    }
}

/// Whether the first of these is given, and true.
pub(crate) fn is_given(rest: &[Datum]) -> bool
    requires { AreProper rest.now }
    ensures { result ≡ is_true (given_or_nil (objects rest.now)) }
{
    match rest {
        [given, ..] => kinds::is_true(given),
        [] => false,
    }
}
