//! Characters, and their names (standard 13.1.7).
ghost use Rattle.std.specs.Prelude.{◌≡◌, ◌≢◌, ◌∷◌, [], Err, IfOk, IsTrue, MatchOption};
ghost use Rattle.token_scan.specs.Marks.{characters, mark_character as character_of_mark, are_ascii};
ghost use Rattle.std_macros.specs.Values.{is_named, code_named, character_of, character_or_refused};
ghost use Rattle.std_macros.specs.Results.{AnswersWithValue, IsProperFinished};

use crate::{FinishError, Finished, StdRefusal};
use lisp_object::Datum;
use token_scan::Mark;

/// The character of a token: the only one that it has, or the one of that name. Refused where there is no such name.
pub(crate) fn character(marks: &[Mark]) -> Result<Finished, FinishError>
    requires { IsTrue (are_ascii marks.now) }
    ensures value { AnswersWithValue result (character_of (characters marks.now)) }
    ensures proper { IfOk result IsProperFinished }
{
    match only(marks) {
        Some(c) => Ok(Finished::One(Datum::Char(c))),
        None => named(marks),
    }
}

/// The only character that there is.
fn only(marks: &[Mark]) -> Option<u8>
    ensures { MatchOption result (character_of (characters marks.now)
        ≡ character_or_refused (code_named (characters marks.now)))
        (λ c. characters marks.now ≡ c ∷ []) }
{
    let (c, others) = first(marks)?;
    match first(others) {
        None => Some(c),
        Some(_) => None,
    }
}

/// The first character, and the marks after it.
fn first(marks: &[Mark]) -> Option<(u8, &[Mark])>
    ensures { MatchOption result (characters marks.now ≡ [])
        (λ found. characters marks.now ≡ found.0 ∷ characters found.1.now) }
{
    let mut rest = marks;
    while let Some((mark, others)) = rest.split_first() {
        if let Some(c) = character_of_mark(*mark) {
            return Some((c, others));
        }
        rest = others;
    }
    None
}

fn character_of_mark(mark: Mark) -> Option<u8>
    ensures { result ≡ character_of_mark mark }
{
    match mark {
        Mark::Plain(c) | Mark::Quoted(c) => Some(c),
        Mark::Bar => None,
    }
}

fn named(marks: &[Mark]) -> Result<Finished, FinishError>
    ensures value { AnswersWithValue result (character_or_refused (code_named (characters marks.now))) }
    ensures proper { IfOk result IsProperFinished }
{
    match code_named(marks) {
        Some(c) => Ok(Finished::One(Datum::Char(c))),
        None => Err(FinishError::Refused(StdRefusal::CharacterName)),
    }
}

/// The character whose name these marks are, whatever the case of its letters.
fn code_named(name: &[Mark]) -> Option<u8>
    ensures { result ≡ code_named (characters name.now) }
{
    if is_named(name, b"Space") {
        Some(32)
    } else if is_named(name, b"Newline") {
        Some(10)
    } else if is_named(name, b"Tab") {
        Some(9)
    } else if is_named(name, b"Page") {
        Some(12)
    } else if is_named(name, b"Return") {
        Some(13)
    } else if is_named(name, b"Linefeed") {
        Some(10)
    } else if is_named(name, b"Backspace") {
        Some(8)
    } else if is_named(name, b"Rubout") {
        Some(127)
    } else {
        None
    }
}

fn is_named(name: &[Mark], wanted: &[u8]) -> bool
    ensures { result ≡ is_named (characters name.now) wanted.now }
{
    let mut rest = name;
    let mut left = wanted;
    while let Some((c, others)) = first(rest) {
        let Some((next, more)) = left.split_first() else {
            return false;
        };
        if !c.eq_ignore_ascii_case(next) {
            return false;
        }
        rest = others;
        left = more;
    }
    left.is_empty()
}
