//! Lists, quoted objects and texts.
//! None says that no plain object is there, and nothing of what the text means. After an error, want of memory alone, a
//! part may be added.
ghost use Rattle.std.specs.Prelude.{◌≡◌, ◌<◌, ℕ, ◌∷◌, [], codes, length, None, Some, IfOk, IfSome, IsTrue};
ghost use Rattle.lisp_object.specs.Object.{symbol};
ghost use Rattle.readtable_core.specs.Names.{std_string};
ghost use Rattle.readtable_core.specs.Tables.{entry_at};
ghost use Rattle.lisp_reading.specs.Gathering.{is_escape};
ghost use Rattle.lisp_reading.specs.Setting.{Setting};
ghost use Rattle.lisp_reading.specs.Reading.{is_whitespace};
ghost use Rattle.plain_reader.specs.Plain.{Takes, TakesList, Puts, Gathers, Closes, LeavesLessText, AreSymbolsThere, AllAreThere, IfStill};
ghost use Rattle.plain_reader.specs.Texts.{is_letter, IsText};

use crate::context::PlainContext;
use crate::tokens::put_token;
use lisp_object::Bytes;
use lisp_reading::{HeldObject, HeldObjects};
use readtable_core::standard_names::STD_STRING;
use readtable_core::{Readtable, Syntax};
use std::alloc::{AllocError, Global};

/// An object that was read: whether a token ends it, and the text after it.
#[derive(Drop)]
pub(crate) struct Taken<'a> {
    pub token: bool,
    pub object: HeldObject,
    pub rest: &'a [u8],
}

/// The items of a list, and the text after it.
#[derive(Drop)]
pub(crate) struct ClosedList<'a> {
    pub items: HeldObjects,
    pub rest: &'a [u8],
}

/// An object at the front of the text, where `room` more calls may be opened, is put to the items of a list: it is not handed up.
/// Gives the text after it. `known` becomes false where it has a symbol that is in no package, or may be in none.
#[cycle(objects)]
pub(crate) fn put<'a>(
    with: &PlainContext<'_>,
    room: u32,
    known: &mut bool,
    items: &mut HeldObjects,
    text: &'a [u8],
) -> Result<Option<&'a [u8]>, AllocError>
    ensures puts { IfOk result (λ found. IfSome found
        (λ rest. Puts with.now room items.old text.now items.new rest.now)) }
    ensures same { IfOk result (λ found. found ≡ None → items.new ≡ items.old) }
    ensures known { IfOk result (λ _. IfStill known.old known.new
        (AllAreThere with.now items.old → AllAreThere with.now items.new)) }
    ensures shorter { IfOk result
        (λ found. IfSome found (λ rest. length rest.now < length text.now)) }
{
    match text {
        [c, rest @ ..] if *c == b'(' => put_list(with, room, known, items, rest),
        [c, rest @ ..] if *c == b'\'' && with.quotes => put_quoted(with, room, known, items, rest),
        [c, rest @ ..] if *c == b'"' && spells(with.readtable) => put_string(with, items, rest),
        _ => put_token(with, known, items, text),
    }
}

// A list is put to the items, whose opening parenthesis was before the text.
#[cycle(objects)]
fn put_list<'a>(
    with: &PlainContext<'_>,
    room: u32,
    known: &mut bool,
    items: &mut HeldObjects,
    text: &'a [u8],
) -> Result<Option<&'a [u8]>, AllocError>
    ensures puts { IfOk result (λ found. IfSome found
        (λ rest. Puts with.now room items.old (40 ∷ text.now) items.new rest.now)) }
    ensures same { IfOk result (λ found. found ≡ None → items.new ≡ items.old) }
    ensures known { IfOk result (λ _. IfStill known.old known.new
        (AllAreThere with.now items.old → AllAreThere with.now items.new)) }
    ensures shorter { IfOk result
        (λ found. IfSome found (λ rest. length rest.now < length text.now)) }
{
    match list(with, room, known, text)? {
        None => Ok(None),
        Some(gathered) => {
            with.packages.soundness();
            let list = gathered.items.into_list(with.alloc)?;
            items.push(list)?;
            Ok(Some(gathered.rest))
        }
    }
}

/// The items of a list, whose opening parenthesis was before the text.
#[cycle(objects)]
#[inline(never)]
pub(crate) fn list<'a>(
    with: &PlainContext<'_>,
    room: u32,
    known: &mut bool,
    text: &'a [u8],
) -> Result<Option<ClosedList<'a>>, AllocError>
    ensures takes { IfOk result (λ found. IfSome found
        (λ g. TakesList with.now room text.now g.items g.rest.now)) }
    ensures known { IfOk result (λ found. IfStill known.old known.new
        (IfSome found (λ g. AllAreThere with.now g.items))) }
    ensures shorter { IfOk result (λ found. IfSome found
        (λ g. length g.rest.now < length text.now)) }
{
    if room == 0 {
        return Ok(None);
    }
    let mut items = HeldObjects::new(with.alloc);
    let mut rest = text;
    while let Some(more) = item(with, room - 1, known, &mut items, rest)? {
        rest = more;
    }
    Ok(close(items, rest))
}

/// What comes next in a list: whitespace, or an object, which is put to the items. None where neither comes.
#[cycle(objects)]
#[inline(always)]
fn item<'a>(
    with: &PlainContext<'_>,
    room: u32,
    known: &mut bool,
    items: &mut HeldObjects,
    text: &'a [u8],
) -> Result<Option<&'a [u8]>, AllocError>
    ensures gathers { IfOk result (λ found. IfSome found
        (λ rest. Gathers with.now room items.old text.now items.new rest.now)) }
    ensures shorter { IfOk result
        (λ found. IfSome found (λ rest. length rest.now < length text.now)) }
    ensures same { IfOk result (λ found. found ≡ None → items.new ≡ items.old) }
    ensures known { IfOk result (λ _. IfStill known.old known.new
        (AllAreThere with.now items.old → AllAreThere with.now items.new)) }
{
    match text {
        [] => Ok(None),
        [c, ..] if *c == b')' => Ok(None),
        [c, rest @ ..] if is_blank(with.readtable, *c) => Ok(Some(rest)),
        _ => match put(with, room, known, items, text)? {
            None => Ok(None),
            Some(rest) => Ok(Some(rest)),
        },
    }
}

/// The list of these items, where its closing parenthesis is at the front of the text.
fn close<'a>(items: HeldObjects, text: &'a [u8]) -> Option<ClosedList<'a>>
    ensures closes { (setting : Setting) (room : ℕ) → IfSome result
        (λ g. Closes setting room items text.now g.rest.now) }
    ensures items { IfSome result (λ g. g.items ≡ items) }
    ensures shorter { IfSome result (λ g. length g.rest.now < length text.now) }
{
    match text {
        [c, rest @ ..] if *c == b')' => Some(ClosedList { items, rest }),
        _ => None,
    }
}

// A quoted object is put to the items, whose quote was before the text.
#[cycle(objects)]
fn put_quoted<'a>(
    with: &PlainContext<'_>,
    room: u32,
    known: &mut bool,
    items: &mut HeldObjects,
    text: &'a [u8],
) -> Result<Option<&'a [u8]>, AllocError>
    requires { IsTrue with.now.quotes }
    ensures puts { IfOk result (λ found. IfSome found
        (λ rest. Puts with.now room items.old (39 ∷ text.now) items.new rest.now)) }
    ensures same { IfOk result (λ found. found ≡ None → items.new ≡ items.old) }
    ensures known { IfOk result (λ _. IfStill known.old known.new
        (AllAreThere with.now items.old → AllAreThere with.now items.new)) }
    ensures shorter { IfOk result
        (λ found. IfSome found (λ rest. length rest.now < length text.now)) }
{
    if room == 0 {
        return Ok(None);
    }
    with.packages.soundness();
    let mut both = quotation(with.alloc)?;
    match put(with, room - 1, known, &mut both, text)? {
        None => Ok(None),
        Some(rest) => {
            let quoted = both.into_list(with.alloc)?;
            items.push(quoted)?;
            Ok(Some(rest))
        }
    }
}

// The items of a quoted object before it: the symbol QUOTE.
#[inline(always)]
fn quotation(alloc: Global) -> Result<HeldObjects, AllocError>
    ensures { IfOk result (λ xs. xs ≡ symbol (codes "COMMON-LISP") (codes "QUOTE") ∷ []) }
{
    let mut items = HeldObjects::with_capacity(alloc, 2)?;
    let name = Bytes::from_slice(alloc, b"QUOTE")?;
    let quote = HeldObject::symbol(alloc, b"COMMON-LISP", name)?;
    items.push(quote)?;
    Ok(items)
}

// A text is put to the items, whose first double quote was before the text.
#[inline(never)]
fn put_string<'a>(
    with: &PlainContext<'_>,
    items: &mut HeldObjects,
    text: &'a [u8],
) -> Result<Option<&'a [u8]>, AllocError>
    requires { (entry_at with.now.readtable.now 34).function ≡ Some std_string }
    ensures puts { (room : ℕ) → IfOk result (λ found. IfSome found
        (λ rest. Puts with.now room items.old (34 ∷ text.now) items.new rest.now)) }
    ensures same { IfOk result (λ found. found ≡ None → items.new ≡ items.old) }
    ensures there { IfOk result
        (λ _. AllAreThere with.now items.old → AllAreThere with.now items.new) }
    ensures shorter { IfOk result
        (λ found. IfSome found (λ rest. length rest.now < length text.now)) }
{
    match string(with, text)? {
        None => Ok(None),
        Some(taken) => {
            items.push(taken.object)?;
            Ok(Some(taken.rest))
        }
    }
}

/// A text without escapes, whose first double quote was before it.
#[inline(never)]
pub(crate) fn string<'a>(
    with: &PlainContext<'_>,
    text: &'a [u8],
) -> Result<Option<Taken<'a>>, AllocError>
    requires { (entry_at with.now.readtable.now 34).function ≡ Some std_string }
    ensures takes { (room : ℕ)
        → IfOk result (λ found. IfSome found (Takes with.now room (34 ∷ text.now))) }
    ensures there { IfOk result (λ found. IfSome found (λ t. AreSymbolsThere with.now t.object)) }
    ensures shorter { IfOk result (λ found. IfSome found (LeavesLessText text.now)) }
{
    match string_length(with.readtable, text) {
        None => Ok(None),
        Some(count) => Ok(Some(Taken {
            token: false,
            object: HeldObject::text(Bytes::from_slice(with.alloc, &text[..count])?),
            rest: &text[count + 1..],
        })),
    }
}

/// Whether a double quote begins a text.
pub(crate) fn spells(readtable: &Readtable) -> bool
    ensures { IsTrue result → (entry_at readtable.now 34).function ≡ Some std_string }
{
    calls(readtable, b'"', STD_STRING)
}

/// Whether the function of the macro character `c` has this name.
pub(crate) fn calls(readtable: &Readtable, c: u8, name: &[u8]) -> bool
    ensures { IsTrue result → (entry_at readtable.now c).function ≡ Some name.now }
{
    match readtable.macro_of(c) {
        Some(function) => function.as_bytes() == name,
        None => false,
    }
}

/// How many characters are before the double quote that ends a text; None where one of them is an escape, or nothing ends it.
fn string_length(readtable: &Readtable, text: &[u8]) -> Option<usize>
    ensures { IfSome result (IsText readtable.now text.now) }
{
    for (i, c) in text.iter().enumerate() {
        if *c == b'"' {
            return Some(i);
        }
        if !is_letter(readtable, *c) {
            return None;
        }
    }
    None
}

/// Whether it is a character that is no escape.
#[inline(always)]
fn is_letter(readtable: &Readtable, c: u8) -> bool
    ensures { result ≡ is_letter readtable.now c }
{
    c < 128 && !is_escape(readtable.syntax(c))
}

#[inline(always)]
fn is_escape(syntax: Syntax) -> bool
    ensures { result ≡ is_escape syntax }
{
    matches!(syntax, Syntax::SingleEscape)
}

/// Whether it is whitespace.
#[inline(always)]
pub(crate) fn is_blank(readtable: &Readtable, c: u8) -> bool
    ensures { result ≡ is_whitespace readtable.now c }
{
    matches!(readtable.syntax(c), Syntax::Whitespace)
}
