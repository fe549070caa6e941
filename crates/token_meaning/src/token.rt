//! The meaning of a token.
ghost use Rattle.std.specs.Prelude.{◌≡◌, ◌<◌, ◌≤◌, length, true, IfOk, IsTrue, IfSome, option_map};
ghost use Rattle.std.specs.List.{list_all};
ghost use Rattle.lisp_object.specs.Datum.{is_proper};
ghost use Rattle.token_scan.specs.Marks.{are_ascii};
ghost use Rattle.token_meaning.specs.Meanings.{is_unescaped, name_of_marks, dots_of, number_meaning, meaning_of, rational_of};
ghost use Rattle.token_meaning.specs.Leading.{codes_of, is_dot};
ghost use Rattle.token_meaning.specs.Results.{AnswersMeaning, view_number, IsProperNumber, HasAsciiName};

use crate::names::name;
use crate::numbers::{number, rational_number};
use crate::{MeaningError, MeaningRefusal};
use lisp_object::{Bytes, Datum};
use std::alloc::Global;
use token_scan::Mark;

/// A symbol's name with its package prefix (standard 2.3.5).
#[derive(PartialEq, Eq, Debug, Drop)]
pub enum TokenName {
    /// No colon: a symbol of the current package.
    Unqualified(Bytes),
    /// One colon with no mark before it, as in `:x`: a keyword.
    Keyword(Bytes),
    /// A prefix and one colon, as in `p:x`: an external symbol of that package. Bars alone make the empty prefix.
    External { package: Bytes, name: Bytes },
    /// A prefix and two colons, as in `p::x`: any symbol of that package.
    Internal { package: Bytes, name: Bytes },
}

/// What a token means (standard 2.3).
#[derive(PartialEq, Eq, Debug, Drop)]
pub enum TokenMeaning {
    /// An integer or a ratio.
    Number(Datum),
    /// A dot alone, as in `(A . B)`.
    Dot,
    /// A name.
    Name(TokenName),
}

/// The meaning of a token whose case is folded, with numbers in `base`, which is 2 to 36 (standard 2.3). There is at least
/// one mark. Only a name takes memory.
///
/// # Errors
///
/// A refusal, where the token means nothing: 6 DOTS-ONLY, several dots alone; 7 FLOAT-TOKEN; 9 ZERO-DENOMINATOR; 8
/// NUMBER-RANGE; 10 PACKAGE-MARKERS. And out of memory, where it is a name.
pub fn meaning(alloc: Global, marks: &[Mark], base: u8) -> Result<TokenMeaning, MeaningError>
    requires marks { 0 < length marks.now }
    requires lowest_base { 2 ≤ base }
    requires highest_base { base ≤ 36 }
    ensures gives { AnswersMeaning result (meaning_of base marks.now) }
    ensures proper { IfOk result IsProperNumber }
    ensures ascii { IsTrue (are_ascii marks.now) → IfOk result HasAsciiName }
{
    if !are_plain(marks) {
        return named(alloc, marks);
    }
    if are_dots(marks) {
        return dots(marks);
    }
    match number(marks, base) {
        Some(given) => numbered(given),
        None => named(alloc, marks),
    }
}

/// The integer or the ratio that a token writes in digits of `base`, which is 2 to 36, with no decimal point (standard
/// 2.4.8.7 to 2.4.8.10); None where the token is none, or has an escaped character or a bar. Takes no memory.
///
/// # Errors
///
/// 9 ZERO-DENOMINATOR; 8 NUMBER-RANGE.
pub fn rational(marks: &[Mark], base: u8) -> Option<Result<Datum, MeaningRefusal>>
    requires lowest_base { 2 ≤ base }
    requires highest_base { base ≤ 36 }
    ensures gives { rational_of base marks.now ≡ option_map view_number result }
    ensures proper { IfSome result (λ given. IfOk given (λ datum. is_proper datum ≡ true)) }
{
    if are_plain(marks) {
        rational_number(marks, base)
    } else {
        None
    }
}

/// Whether no character was escaped, and there is no bar.
fn are_plain(marks: &[Mark]) -> bool
    ensures { result ≡ list_all is_unescaped marks.now }
{
    marks.iter().all(|mark| matches!(mark, Mark::Plain(_)))
}

fn are_dots(marks: &[Mark]) -> bool
    ensures { result ≡ list_all is_dot marks.now }
{
    marks.iter().all(|mark| matches!(mark, Mark::Plain(b'.')))
}

fn numbered(given: Result<Datum, MeaningRefusal>) -> Result<TokenMeaning, MeaningError>
    requires { IfOk given (λ datum. is_proper datum ≡ true) }
    ensures gives { AnswersMeaning result (number_meaning (view_number given)) }
    ensures proper { IfOk result IsProperNumber }
    ensures ascii { IfOk result HasAsciiName }
{
    match given {
        Ok(datum) => Ok(TokenMeaning::Number(datum)),
        Err(refusal) => Err(MeaningError::Refused(refusal)),
    }
}

fn named(alloc: Global, marks: &[Mark]) -> Result<TokenMeaning, MeaningError>
    ensures gives { AnswersMeaning result (name_of_marks marks.now) }
    ensures proper { IfOk result IsProperNumber }
    ensures ascii { IsTrue (are_ascii marks.now) → IfOk result HasAsciiName }
{
    match name(alloc, marks) {
        Ok(own) => Ok(TokenMeaning::Name(own)),
        Err(error) => Err(error),
    }
}

/// What dots alone mean (standard 2.3.3).
fn dots(marks: &[Mark]) -> Result<TokenMeaning, MeaningError>
    ensures gives { AnswersMeaning result (dots_of (codes_of marks.now)) }
    ensures proper { IfOk result IsProperNumber }
    ensures ascii { IfOk result HasAsciiName }
{
    if marks.len() == 1 {
        Ok(TokenMeaning::Dot)
    } else {
        Err(MeaningError::Refused(MeaningRefusal::DotsOnly))
    }
}
