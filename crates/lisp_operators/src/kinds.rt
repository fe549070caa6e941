//! The kinds of arguments, and what an argument of each stands for.
ghost use Rattle.std.specs.Prelude.{◌≡◌, true};
ghost use Rattle.lisp_object.specs.Datum.{object_of};
ghost use Rattle.lisp_operators.specs.ArgumentKinds.{a_symbol, a_name, a_text, an_integer, a_character, a_keyword, a_source, a_case, is_true, is_pair};
ghost use Rattle.lisp_operators.specs.EvaluationAnswers.{IsOfKind, IsProper};

use crate::EvaluationError;
use crate::EvaluationError::Refused;
use lisp_object::Datum;
use lisp_object::refusal::ARGUMENT_KIND;
use package_table::standardized::{COMMON_LISP, KEYWORD};
use plist_state::STANDARD;
use readtable_core::Case;

/// The home and the name of an interned symbol. Refused as `ARGUMENT_KIND` where it is another object.
pub fn symbol(datum: &Datum) -> Result<(&[u8], &[u8]), EvaluationError>
    requires { IsProper datum.now }
    ensures { IsOfKind (λ p. (p.0.now, p.1.now)) result (a_symbol (object_of datum.now)) }
{
    match datum {
        Datum::Symbol { package, name } => Ok((package.as_slice(), name.as_slice())),
        Datum::Integer(_) => Err(Refused(ARGUMENT_KIND)),
        Datum::Rational(_) => Err(Refused(ARGUMENT_KIND)),
        Datum::Char(_) => Err(Refused(ARGUMENT_KIND)),
        Datum::Text(_) => Err(Refused(ARGUMENT_KIND)),
        Datum::Uninterned(_) => Err(Refused(ARGUMENT_KIND)),
        Datum::List { .. } => Err(Refused(ARGUMENT_KIND)),
        Datum::Vector(_) => Err(Refused(ARGUMENT_KIND)),
    }
}

/// The characters of a text. Refused as `ARGUMENT_KIND` where it is another object.
pub(crate) fn text(datum: &Datum) -> Result<&[u8], EvaluationError>
    requires { IsProper datum.now }
    ensures { IsOfKind (λ n. n.now) result (a_text (object_of datum.now)) }
{
    match datum {
        Datum::Text(characters) => Ok(characters.as_slice()),
        Datum::Integer(_) => Err(Refused(ARGUMENT_KIND)),
        Datum::Rational(_) => Err(Refused(ARGUMENT_KIND)),
        Datum::Char(_) => Err(Refused(ARGUMENT_KIND)),
        Datum::Symbol { .. } => Err(Refused(ARGUMENT_KIND)),
        Datum::Uninterned(_) => Err(Refused(ARGUMENT_KIND)),
        Datum::List { .. } => Err(Refused(ARGUMENT_KIND)),
        Datum::Vector(_) => Err(Refused(ARGUMENT_KIND)),
    }
}

/// An integer. Refused as `ARGUMENT_KIND` where it is another object.
pub(crate) fn integer(datum: &Datum) -> Result<i128, EvaluationError>
    requires { IsProper datum.now }
    ensures { IsOfKind (λ x. x) result (an_integer (object_of datum.now)) }
{
    match datum {
        Datum::Integer(n) => Ok(*n),
        Datum::Rational(_) => Err(Refused(ARGUMENT_KIND)),
        Datum::Char(_) => Err(Refused(ARGUMENT_KIND)),
        Datum::Text(_) => Err(Refused(ARGUMENT_KIND)),
        Datum::Symbol { .. } => Err(Refused(ARGUMENT_KIND)),
        Datum::Uninterned(_) => Err(Refused(ARGUMENT_KIND)),
        Datum::List { .. } => Err(Refused(ARGUMENT_KIND)),
        Datum::Vector(_) => Err(Refused(ARGUMENT_KIND)),
    }
}

/// A character. Refused as `ARGUMENT_KIND` where it is another object.
pub(crate) fn character(datum: &Datum) -> Result<u8, EvaluationError>
    requires { IsProper datum.now }
    ensures { IsOfKind (λ x. x) result (a_character (object_of datum.now)) }
{
    match datum {
        Datum::Char(c) => Ok(*c),
        Datum::Integer(_) => Err(Refused(ARGUMENT_KIND)),
        Datum::Rational(_) => Err(Refused(ARGUMENT_KIND)),
        Datum::Text(_) => Err(Refused(ARGUMENT_KIND)),
        Datum::Symbol { .. } => Err(Refused(ARGUMENT_KIND)),
        Datum::Uninterned(_) => Err(Refused(ARGUMENT_KIND)),
        Datum::List { .. } => Err(Refused(ARGUMENT_KIND)),
        Datum::Vector(_) => Err(Refused(ARGUMENT_KIND)),
    }
}

/// The name for which a text or a symbol is the designator (standard 11.1). Refused as `ARGUMENT_KIND` where it is
/// another object.
#[tactic(auto, using(crate::proofs::Shapes::name_by_parts))]
pub(crate) fn name(datum: &Datum) -> Result<&[u8], EvaluationError>
    requires { IsProper datum.now }
    ensures { IsOfKind (λ n. n.now) result (a_name (object_of datum.now)) }
{
    match symbol(datum) {
        Ok((_, name)) => Ok(name),
        Err(_) => text(datum),
    }
}

/// The name of a keyword. Refused as `ARGUMENT_KIND` where it is another object.
#[tactic(auto, using(crate::proofs::Shapes::keyword_by_parts))]
pub(crate) fn keyword(datum: &Datum) -> Result<&[u8], EvaluationError>
    requires { IsProper datum.now }
    ensures { IsOfKind (λ n. n.now) result (a_keyword (object_of datum.now)) }
{
    let (home, name) = symbol(datum)?;
    if home == KEYWORD {
        Ok(name)
    } else {
        Err(Refused(ARGUMENT_KIND))
    }
}

/// The name of a readtable to take from: a keyword, or NIL for the standard one. Refused as `ARGUMENT_KIND` where it is
/// another object.
#[tactic(auto, using(crate::proofs::Shapes::source_by_parts))]
pub(crate) fn source(datum: &Datum) -> Result<&[u8], EvaluationError>
    requires { IsProper datum.now }
    ensures { IsOfKind (λ n. n.now) result (a_source (object_of datum.now)) }
{
    let (home, name) = symbol(datum)?;
    if home == COMMON_LISP && name == b"NIL".as_slice() {
        Ok(STANDARD)
    } else {
        keyword(datum)
    }
}

/// The case that a keyword names. Refused as `ARGUMENT_KIND` where it is no keyword, or names none.
pub(crate) fn case(datum: &Datum) -> Result<Case, EvaluationError>
    requires { IsProper datum.now }
    ensures { IsOfKind (λ x. x) result (a_case (object_of datum.now)) }
{
    let name = keyword(datum)?;
    match Case::from_name(name) {
        Some(letters) => Ok(letters),
        None => Err(Refused(ARGUMENT_KIND)),
    }
}

/// Whether it is true: NIL is false.
#[tactic(auto, using(crate::proofs::Shapes::truth_by_parts))]
pub fn is_true(datum: &Datum) -> bool
    requires { IsProper datum.now }
    ensures { result ≡ is_true (object_of datum.now) }
{
    match symbol(datum) {
        Ok((home, name)) => !(home == COMMON_LISP && name == b"NIL".as_slice()),
        Err(_) => true,
    }
}

/// Whether it is a pair.
pub fn is_pair(datum: &Datum) -> bool
    requires { IsProper datum.now }
    ensures { result ≡ is_pair (object_of datum.now) }
{
    match datum {
        Datum::List { .. } => true,
        Datum::Integer(_) => false,
        Datum::Rational(_) => false,
        Datum::Char(_) => false,
        Datum::Text(_) => false,
        Datum::Symbol { .. } => false,
        Datum::Uninterned(_) => false,
        Datum::Vector(_) => false,
    }
}
