//! Tokens without escapes.
//! None says that no token without escapes is seen, and nothing of what the text means.
ghost use Rattle.std.specs.Prelude.{◌≡◌, ◌≤◌, ◌<◌, ℕ, ◌∷◌, map, length, take, true, false, None, IfOk, IfSome, IsTrue};
ghost use Rattle.std.specs.List.{list_all};
ghost use Rattle.lisp_object.specs.Ascii.{is_ascii};
ghost use Rattle.readtable_core.specs.Characters.{has_invalid_trait};
ghost use Rattle.token_scan.specs.Marks.{are_ascii};
ghost use Rattle.token_scan.specs.Tokens.{typed_byte, kind};
ghost use Rattle.plain_reader.specs.Plain.{Takes, Puts, LeavesLessText, AreSymbolsThere, AllAreThere, IfStill};
ghost use Rattle.plain_reader.specs.Tokens.{IsTokenRun, IsToken, marks_of_bytes};
ghost use Rattle.plain_reader.specs.Words.{is_word};

use crate::context::PlainContext;
use crate::objects::Taken;
use crate::words::{decimal, is_word, word};
use lisp_reading::{HeldObject, HeldObjects, ResolutionError, ResolvedToken, tell};
use readtable_core::{Readtable, Syntax};
use smallvec::SmallVec;
use std::alloc::{AllocError, Global};
use token_scan::{Mark, Marks};

/// A token at the front of the text, without escapes, that is an object.
#[inline(always)]
pub(crate) fn token<'a>(
    with: &PlainContext<'_>,
    known: &mut bool,
    text: &'a [u8],
) -> Result<Option<Taken<'a>>, AllocError>
    ensures takes { (room : ℕ)
        → IfOk result (λ found. IfSome found (Takes with.now room text.now)) }
    ensures known { IfOk result (λ found. IfStill known.old known.new
        (IfSome found (λ t. AreSymbolsThere with.now t.object))) }
    ensures token { IfOk result (λ found. IfSome found (λ t. t.token ≡ true)) }
    ensures shorter { IfOk result (λ found. IfSome found (LeavesLessText text.now)) }
{
    let Some(count) = token_length(with.readtable, text) else {
        return Ok(None);
    };
    if count == 0 || count > with.limits.token {
        return Ok(None);
    }
    let bytes = &text[..count];
    let rest = &text[count..];
    match meaning(with, known, bytes)? {
        None => Ok(None),
        Some(object) => Ok(Some(Taken {
            token: true,
            object,
            rest,
        })),
    }
}

/// A token at the front of the text, without escapes, that is an object, is put to the items of a list. Gives the text
/// after it. If there is none, the items are as they were.
#[inline(always)]
pub(crate) fn put_token<'a>(
    with: &PlainContext<'_>,
    known: &mut bool,
    items: &mut HeldObjects,
    text: &'a [u8],
) -> Result<Option<&'a [u8]>, AllocError>
    ensures puts { (room : ℕ) → IfOk result (λ found. IfSome found
        (λ rest. Puts with.now room items.old text.now items.new rest.now)) }
    ensures same { IfOk result (λ found. found ≡ None → items.new ≡ items.old) }
    ensures known { IfOk result (λ _. IfStill known.old known.new
        (AllAreThere with.now items.old → AllAreThere with.now items.new)) }
    ensures shorter { IfOk result
        (λ found. IfSome found (λ rest. length rest.now < length text.now)) }
{
    let Some(count) = token_length(with.readtable, text) else {
        return Ok(None);
    };
    if count == 0 || count > with.limits.token {
        return Ok(None);
    }
    let bytes = &text[..count];
    let rest = &text[count..];
    match meaning(with, known, bytes)? {
        None => Ok(None),
        Some(object) => {
            items.push(object)?;
            Ok(Some(rest))
        }
    }
}

/// How many bytes a token at the front of the text has, where it is a name without a package prefix, whatever the base is.
#[inline(always)]
pub(crate) fn word_length(with: &PlainContext<'_>, text: &[u8]) -> Option<usize>
    ensures standard { IfSome result (λ _. IsTrue with.now.standard) }
    ensures run { IfSome result (IsTokenRun with.now.readtable.now text.now) }
    ensures word { IfSome result (λ n. IsTrue (is_word (take n text.now))) }
    ensures fits { IfSome result (λ n. n ≤ with.now.limits.token) }
    ensures within { IfSome result (λ n. n < length text.now) }
{
    if !with.standard {
        return None;
    }
    let Some(count) = token_length(with.readtable, text) else {
        return None;
    };
    if count > with.limits.token {
        return None;
    }
    if is_word(&text[..count]) {
        Some(count)
    } else {
        None
    }
}

/// How many bytes at the front of the text a token has there; None where it has an escape, or nothing ends it.
#[inline(always)]
fn token_length(readtable: &Readtable, text: &[u8]) -> Option<usize>
    ensures run { IfSome result (IsTokenRun readtable.now text.now) }
    ensures within { IfSome result (λ n. n < length text.now) }
{
    for (i, c) in text.iter().enumerate() {
        match kind(readtable, *c) {
            Syntax::Constituent => {
                if is_invalid(*c) {
                    return None;
                }
            }
            Syntax::Whitespace | Syntax::TerminatingMacro => return Some(i),
            _ => return None,
        }
    }
    None
}

/// Whether it has the trait invalid.
#[inline(always)]
fn is_invalid(c: u8) -> bool
    ensures { result ≡ has_invalid_trait c }
{
    c <= 32 || c >= 127
}

/// The syntax type of a byte, which is no character over 127.
#[inline(always)]
fn kind(readtable: &Readtable, c: u8) -> Syntax
    ensures { result ≡ kind (typed_byte readtable.now c) }
{
    if c < 128 {
        readtable.syntax(c)
    } else {
        Syntax::Invalid
    }
}

/// The object that a token of these bytes is.
#[inline(always)]
fn meaning(
    with: &PlainContext<'_>,
    known: &mut bool,
    bytes: &[u8],
) -> Result<Option<HeldObject>, AllocError>
    requires some { 0 < length bytes.now }
    requires ascii { list_all is_ascii bytes.now ≡ true }
    ensures token { IfOk result (λ found. IfSome found (IsToken with.now bytes.now)) }
    ensures known { IfOk result (λ found. IfStill known.old known.new
        (IfSome found (AreSymbolsThere with.now))) }
{
    if with.standard {
        if is_word(bytes) {
            return word(with, known, bytes);
        }
        if let Some(n) = decimal(bytes) {
            return Ok(Some(HeldObject::integer(n)));
        }
    }
    through_marks(with, known, bytes)
}

/// The same, over its marks.
#[inline(never)]
fn through_marks(
    with: &PlainContext<'_>,
    known: &mut bool,
    bytes: &[u8],
) -> Result<Option<HeldObject>, AllocError>
    requires some { 0 < length bytes.now }
    requires ascii { list_all is_ascii bytes.now ≡ true }
    ensures token { IfOk result (λ found. IfSome found (IsToken with.now bytes.now)) }
    ensures known { IfOk result (λ found. IfStill known.old known.new
        (IfSome found (AreSymbolsThere with.now))) }
{
    let case = with.readtable.case();
    let marks = marks(with.alloc, bytes)?;
    match tell(
        with.alloc,
        case,
        with.packages,
        with.current,
        with.base,
        marks,
    ) {
        Ok(ResolvedToken::Object(object)) => {
            if !object.is_there(with.packages) {
                *known = false;
            }
            Ok(Some(object))
        }
        Ok(ResolvedToken::Dot) => Ok(None),
        Err(ResolutionError::OutOfMemory) => Err(AllocError),
        Err(ResolutionError::Refused(_)) => Ok(None),
    }
}

/// The marks of these bytes.
fn marks(alloc: Global, bytes: &[u8]) -> Result<Marks, AllocError>
    ensures { IfOk result (λ marks. marks.items ≡ marks_of_bytes bytes.now) }
{
    let mut marks: Marks = SmallVec::new(alloc);
    for c in bytes {
        marks.push(Mark::Plain(*c))?;
    }
    Ok(marks)
}
