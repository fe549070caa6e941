//! The package patterns of names (standard 2.3.5).
ghost use Rattle.std.specs.Prelude.{◌≡◌, ◌<◌, ◌∷◌, [], false, length, not, ◌&&◌, true, Ok, IfOk, IfSome, IsTrue, MatchResult, option_map, position, take, drop, ◌+◌};
ghost use Rattle.std.specs.List.{list_any, slice_split};
ghost use Rattle.token_scan.specs.Marks.{characters, are_ascii};
ghost use Rattle.token_meaning.specs.Numerals.{is_empty, cut_at_first};
ghost use Rattle.token_meaning.specs.Meanings.{name as named, is_package_marker, pattern, name_of_marks};
ghost use Rattle.token_meaning.specs.Results.{Fails, begins_with_marker, is_one_part, parts_of, is_ascii_name, name_of_parts, view_parts};

use crate::{MeaningError, MeaningRefusal, TokenName};
use lisp_object::Bytes;
use std::alloc::{AllocError, Global};
use token_scan::{Mark, characters};

/// The marks of a name, cut at its package markers.
#[derive(Clone, Copy)]
enum NameParts<'a> {
    Unqualified(&'a [Mark]),
    Keyword(&'a [Mark]),
    External(&'a [Mark], &'a [Mark]),
    Internal(&'a [Mark], &'a [Mark]),
}

/// The name of a token with these marks. Refused where the colons make no name, and `OutOfMemory`.
pub(crate) fn name(alloc: Global, marks: &[Mark]) -> Result<TokenName, MeaningError>
    ensures gives { MatchResult result (λ own. name_of_marks marks.now ≡ Ok (named own))
        (λ error. Fails error (name_of_marks marks.now)) }
    ensures ascii { IsTrue (are_ascii marks.now) → IfOk result (λ own. is_ascii_name own ≡ true) }
{
    let parts = name_parts(marks)?;
    match joined(alloc, parts) {
        Ok(own) => Ok(own),
        Err(_) => Err(MeaningError::OutOfMemory),
    }
}

/// The characters of the parts.
fn joined(alloc: Global, parts: NameParts<'_>) -> Result<TokenName, AllocError>
    ensures { IfOk result (λ own. own ≡ name_of_parts parts.entry) }
{
    match parts {
        NameParts::Unqualified(own) => Ok(TokenName::Unqualified(bytes(alloc, own)?)),
        NameParts::Keyword(own) => Ok(TokenName::Keyword(bytes(alloc, own)?)),
        NameParts::External(package, own) => Ok(TokenName::External {
            package: bytes(alloc, package)?,
            name: bytes(alloc, own)?,
        }),
        NameParts::Internal(package, own) => Ok(TokenName::Internal {
            package: bytes(alloc, package)?,
            name: bytes(alloc, own)?,
        }),
    }
}

/// The characters of these marks.
fn bytes(alloc: Global, marks: &[Mark]) -> Result<Bytes, AllocError>
    ensures { IfOk result (λ b. b ≡ characters marks.now) }
{
    Bytes::from_vec(characters(alloc, marks)?)
}

/// The parts of a token with these marks. Takes no memory.
fn name_parts(marks: &[Mark]) -> Result<NameParts<'_>, MeaningRefusal>
    ensures { name_of_marks marks.now ≡ view_parts result }
{
    match cut_at_marker(marks) {
        None => Ok(NameParts::Unqualified(marks)),
        Some((prefix, rest)) => parts_after_marker(prefix, rest),
    }
}

/// The parts of a token with these marks round its first package marker.
fn parts_after_marker<'a>(
    prefix: &'a [Mark],
    rest: &'a [Mark],
) -> Result<NameParts<'a>, MeaningRefusal>
    ensures { pattern (prefix.now ∷ slice_split is_package_marker rest.now)
        ≡ view_parts result }
{
    match rest {
        [mark, name @ ..] if is_package_marker(*mark) => parts_after_two(prefix, name),
        _ => parts_after_one(prefix, rest),
    }
}

/// The parts where one package marker is between them.
#[tactic(auto, using(crate::proofs::Patterns::one_refused, crate::proofs::Patterns::keyword_given, crate::proofs::Patterns::external_given))]
fn parts_after_one<'a>(
    prefix: &'a [Mark],
    name: &'a [Mark],
) -> Result<NameParts<'a>, MeaningRefusal>
    requires { begins_with_marker name.now ≡ false }
    ensures { pattern (prefix.now ∷ slice_split is_package_marker name.now)
        ≡ view_parts result }
{
    if !is_one_part(name) {
        return Err(MeaningRefusal::PackageMarkers);
    }
    if is_empty(prefix) {
        return Ok(NameParts::Keyword(name));
    }
    Ok(NameParts::External(prefix, name))
}

/// The parts where two package markers are between them, which asks for a prefix.
#[tactic(auto, using(crate::proofs::Patterns::no_prefix, crate::proofs::Patterns::two_refused, crate::proofs::Patterns::internal_given))]
fn parts_after_two<'a>(
    prefix: &'a [Mark],
    name: &'a [Mark],
) -> Result<NameParts<'a>, MeaningRefusal>
    ensures { pattern (prefix.now ∷ [] ∷ slice_split is_package_marker name.now)
        ≡ view_parts result }
{
    if is_empty(prefix) {
        return Err(MeaningRefusal::PackageMarkers);
    }
    if !is_one_part(name) {
        return Err(MeaningRefusal::PackageMarkers);
    }
    Ok(NameParts::Internal(prefix, name))
}

/// Whether no mark is there. Bars are marks.
fn is_empty(marks: &[Mark]) -> bool
    ensures { result ≡ is_empty marks.now }
{
    marks.is_empty()
}

/// Whether a mark is there, and no package marker.
fn is_one_part(marks: &[Mark]) -> bool
    ensures { result ≡ is_one_part marks.now }
{
    !is_empty(marks) && !has_marker(marks)
}

fn has_marker(marks: &[Mark]) -> bool
    ensures { result ≡ list_any is_package_marker marks.now }
{
    marks.iter().any(|mark| is_package_marker(*mark))
}

/// The marks before the first package marker and after it, if there is one.
#[tactic(auto, using(crate::proofs::Cuts::cut_is))]
fn cut_at_marker(marks: &[Mark]) -> Option<(&[Mark], &[Mark])>
    ensures { option_map parts_of result ≡ cut_at_first is_package_marker marks.now }
{
    cut_at(marks, first_marker(marks))
}

fn cut_at(marks: &[Mark], at: Option<usize>) -> Option<(&[Mark], &[Mark])>
    requires { IfSome at (λ i. i < length marks.now) }
    ensures { option_map parts_of result
        ≡ option_map (λ i. (take i marks.now, drop (i + 1) marks.now)) at }
{
    let at = at?;
    Some((&marks[..at], &marks[at + 1..]))
}

fn first_marker(marks: &[Mark]) -> Option<usize>
    ensures value { result ≡ position is_package_marker marks.now }
    ensures within { IfSome result (λ i. i < length marks.now) }
{
    marks.iter().position(|mark| is_package_marker(*mark))
}

/// Whether it is a colon that was not escaped (standard 2.3.5).
fn is_package_marker(mark: Mark) -> bool
    ensures { result ≡ is_package_marker mark }
{
    matches!(mark, Mark::Plain(b':'))
}
