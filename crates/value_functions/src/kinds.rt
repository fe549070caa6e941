//! What an argument is, where it is of a kind.
ghost use Rattle.std.specs.Prelude.{◌≡◌, option_map};
ghost use Rattle.lisp_object.specs.Datum.{object_of};
ghost use Rattle.lisp_operators.specs.ArgumentKinds.{a_character, a_text, an_integer};
ghost use Rattle.lisp_operators.specs.EvaluationAnswers.{IsProper};
ghost use Rattle.value_functions.specs.ArgumentsByKind.{a_ratio};
ghost use Rattle.value_functions.specs.TextValues.{a_string, a_symbol_name};

use lisp_object::Datum;
use std::slice;

/// An integer.
pub(crate) fn integer(datum: &Datum) -> Option<i128>
    requires { IsProper datum.now }
    ensures { result ≡ an_integer (object_of datum.now) }
{
    match datum {
        Datum::Integer(n) => Some(*n),
        Datum::Rational(_) => None,
        Datum::Char(_) => None,
        Datum::Text(_) => None,
        Datum::Symbol { .. } => None,
        Datum::Uninterned(_) => None,
        Datum::List { .. } => None,
        Datum::Vector(_) => None,
    }
}

/// The numerator and the denominator of a ratio that is no integer.
pub(crate) fn ratio(datum: &Datum) -> Option<(i128, u128)>
    requires { IsProper datum.now }
    ensures { result ≡ a_ratio (object_of datum.now) }
{
    match datum {
        Datum::Rational(ratio) => Some((ratio.numerator(), ratio.denominator())),
        Datum::Integer(_) => None,
        Datum::Char(_) => None,
        Datum::Text(_) => None,
        Datum::Symbol { .. } => None,
        Datum::Uninterned(_) => None,
        Datum::List { .. } => None,
        Datum::Vector(_) => None,
    }
}

/// A character.
pub(crate) fn character(datum: &Datum) -> Option<u8>
    requires { IsProper datum.now }
    ensures { result ≡ a_character (object_of datum.now) }
{
    match datum {
        Datum::Char(c) => Some(*c),
        Datum::Integer(_) => None,
        Datum::Rational(_) => None,
        Datum::Text(_) => None,
        Datum::Symbol { .. } => None,
        Datum::Uninterned(_) => None,
        Datum::List { .. } => None,
        Datum::Vector(_) => None,
    }
}

/// The characters of a text.
pub(crate) fn text(datum: &Datum) -> Option<&[u8]>
    requires { IsProper datum.now }
    ensures { option_map (λ s. s.now) result ≡ a_text (object_of datum.now) }
{
    match datum {
        Datum::Text(characters) => Some(characters.as_slice()),
        Datum::Integer(_) => None,
        Datum::Rational(_) => None,
        Datum::Char(_) => None,
        Datum::Symbol { .. } => None,
        Datum::Uninterned(_) => None,
        Datum::List { .. } => None,
        Datum::Vector(_) => None,
    }
}

/// The characters that a string designator stands for.
pub(crate) fn string(datum: &Datum) -> Option<&[u8]>
    requires { IsProper datum.now }
    ensures { option_map (λ s. s.now) result ≡ a_string (object_of datum.now) }
{
    match datum {
        Datum::Text(characters) => Some(characters.as_slice()),
        Datum::Symbol { name, .. } => Some(name.as_slice()),
        Datum::Uninterned(name) => Some(name.as_slice()),
        Datum::Char(c) => Some(slice::from_ref(c)),
        Datum::Integer(_) => None,
        Datum::Rational(_) => None,
        Datum::List { .. } => None,
        Datum::Vector(_) => None,
    }
}

/// The characters of a symbol's name.
pub(crate) fn symbol_name(datum: &Datum) -> Option<&[u8]>
    requires { IsProper datum.now }
    ensures { option_map (λ s. s.now) result ≡ a_symbol_name (object_of datum.now) }
{
    match datum {
        Datum::Symbol { name, .. } => Some(name.as_slice()),
        Datum::Uninterned(name) => Some(name.as_slice()),
        Datum::Text(_) => None,
        Datum::Char(_) => None,
        Datum::Integer(_) => None,
        Datum::Rational(_) => None,
        Datum::List { .. } => None,
        Datum::Vector(_) => None,
    }
}
