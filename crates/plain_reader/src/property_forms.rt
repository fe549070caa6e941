//! GET of the property of two quoted symbols, and SETF of it to a literal, by the names that stand in the text: no name is made,
//! and none is sought but those of the operators.
//! None says that the text is to be read as any other, and nothing of what it means.
ghost use Rattle.std.specs.Prelude.{◌≡◌, ◌∷◌, ◌<◌, [], ℕ, codes, length, true, false, IfOk, IfSome, IsTrue};
ghost use Rattle.std.specs.List.{list_all, list_any};
ghost use Rattle.lisp_object.specs.Ascii.{is_ascii};
ghost use Rattle.lisp_object.specs.Datum.{object_of};
ghost use Rattle.lisp_object.specs.Object.{symbol, IsSound};
ghost use Rattle.package_table.specs.Table.{Name, common_lisp};
ghost use Rattle.readtable_core.specs.Characters.{is_lower_case};
ghost use Rattle.plain_reader.specs.Written.{lisp, literal_of, quote_of, EndsList, TakesItems, TakesObject, arguments_at, get_form_at, setf_at, FindsSymbol};
ghost use Rattle.plain_reader.specs.Plain.{AreSymbolsThere, IfStill};
ghost use Rattle.plain_reader.specs.Tokens.{IsToken};
ghost use Rattle.plain_reader.specs.Words.{is_word};

use crate::context::PlainContext;
use crate::literal::Literal;
use crate::literals::literal;
use crate::objects::is_blank;
use crate::tokens::word_length;
use crate::words::has_lower;
use package_table::Resolved;
use package_table::standardized::COMMON_LISP;
use std::alloc::AllocError;

// A name in capitals, and the text after it.
#[derive(Clone, Copy)]
struct WrittenName<'a> {
    name: &'a [u8],
    rest: &'a [u8],
}

/// The names of a symbol and of an indicator, and the text after the place that they name.
#[derive(Clone, Copy)]
pub(crate) struct WrittenPlace<'a> {
    pub symbol: &'a [u8],
    pub indicator: &'a [u8],
    pub rest: &'a [u8],
}

/// The names in SETF of such a place to a literal, the literal, and the text after it.
#[derive(Drop)]
pub(crate) struct WrittenSetf<'a> {
    pub symbol: &'a [u8],
    pub indicator: &'a [u8],
    pub literal: Literal,
    pub rest: &'a [u8],
}

/// The form whose opening parenthesis was before the text, where it is such a SETF and `room` calls may be opened.
#[inline(always)]
pub(crate) fn written_setf<'a>(
    with: &PlainContext<'_>,
    room: u32,
    known: &mut bool,
    text: &'a [u8],
) -> Result<Option<WrittenSetf<'a>>, AllocError>
    requires { IsTrue with.now.quotes }
    ensures takes { (h i : Name) → IfOk result (λ found. IfSome found
        (λ t. FindsSymbol with.now h t.symbol.now → FindsSymbol with.now i t.indicator.now
        → TakesObject with.now room (40 ∷ text.now) false
        (setf_at h t.symbol.now i t.indicator.now t.literal) t.rest.now)) }
    ensures known { IfOk result (λ found. IfStill known.old known.new
        (IfSome found (λ t. AreSymbolsThere with.now (literal_of t.literal)))) }
    ensures operators { IfOk result (λ found. IfSome found
        (λ _. AreSymbolsThere with.now (lisp (codes "SETF"))
        × AreSymbolsThere with.now (lisp (codes "GET")))) }
    ensures names { IfOk result (λ found. IfSome found
        (λ t. (list_all is_ascii t.symbol.now ≡ true) × (list_all is_ascii t.indicator.now ≡ true))) }
    ensures shorter { IfOk result (λ found. IfSome found
        (λ t. length t.rest.now < length text.now)) }
    ensures sound { IfOk result (λ found. IfSome found (λ t. IsSound (object_of t.literal.datum))) }
{
    if room < 3 {
        return Ok(None);
    }
    let Some(rest) = lisp_operator(with, b"SETF", text) else {
        return Ok(None);
    };
    written_assignment(with, room - 1, known, rest)
}

// The arguments of SETF, and the end of its list.
#[inline(always)]
fn written_assignment<'a>(
    with: &PlainContext<'_>,
    room: u32,
    known: &mut bool,
    text: &'a [u8],
) -> Result<Option<WrittenSetf<'a>>, AllocError>
    requires quotes { IsTrue with.now.quotes }
    requires room { 1 < room }
    ensures takes { (h i : Name) → IfOk result (λ found. IfSome found
        (λ t. FindsSymbol with.now h t.symbol.now → FindsSymbol with.now i t.indicator.now
        → EndsList with.now room text.now
        (get_form_at h t.symbol.now i t.indicator.now ∷ literal_of t.literal ∷ []) t.rest.now)) }
    ensures known { IfOk result (λ found. IfStill known.old known.new
        (IfSome found (λ t. AreSymbolsThere with.now (literal_of t.literal)))) }
    ensures operator { IfOk result (λ found. IfSome found
        (λ _. AreSymbolsThere with.now (lisp (codes "GET")))) }
    ensures names { IfOk result (λ found. IfSome found
        (λ t. (list_all is_ascii t.symbol.now ≡ true) × (list_all is_ascii t.indicator.now ≡ true))) }
    ensures shorter { IfOk result (λ found. IfSome found
        (λ t. length t.rest.now < length text.now)) }
    ensures sound { IfOk result (λ found. IfSome found (λ t. IsSound (object_of t.literal.datum))) }
{
    let Some(place) = spaced_written(with, room, text) else {
        return Ok(None);
    };
    let Some(value) = literal(with, room, known, place.rest)? else {
        return Ok(None);
    };
    match value.rest {
        [c, rest @ ..] if *c == b')' => Ok(Some(WrittenSetf {
            symbol: place.symbol,
            indicator: place.indicator,
            literal: value.literal,
            rest,
        })),
        _ => Ok(None),
    }
}

// GET of two quoted symbols behind whitespace, as the next item of a list.
#[inline(always)]
fn spaced_written<'a>(
    with: &PlainContext<'_>,
    room: u32,
    text: &'a [u8],
) -> Option<WrittenPlace<'a>>
    requires quotes { IsTrue with.now.quotes }
    requires room { 1 < room }
    ensures takes { (h i : Name) → IfSome result
        (λ p. FindsSymbol with.now h p.symbol.now → FindsSymbol with.now i p.indicator.now
        → TakesItems with.now room text.now (get_form_at h p.symbol.now i p.indicator.now ∷ []) p.rest.now) }
    ensures operator { IfSome result (λ _. AreSymbolsThere with.now (lisp (codes "GET"))) }
    ensures names { IfSome result
        (λ p. (list_all is_ascii p.symbol.now ≡ true) × (list_all is_ascii p.indicator.now ≡ true)) }
    ensures shorter { IfSome result (λ p. length p.rest.now < length text.now) }
{
    match text {
        [space, open, rest @ ..] if *open == b'(' && is_blank(with.readtable, *space) => {
            written_place(with, room, rest)
        }
        _ => None,
    }
}

/// The place whose opening parenthesis was before the text.
#[inline(always)]
pub(crate) fn written_place<'a>(
    with: &PlainContext<'_>,
    room: u32,
    text: &'a [u8],
) -> Option<WrittenPlace<'a>>
    requires quotes { IsTrue with.now.quotes }
    requires room { 1 < room }
    ensures takes { (h i : Name) → IfSome result
        (λ p. FindsSymbol with.now h p.symbol.now → FindsSymbol with.now i p.indicator.now
        → TakesObject with.now room (40 ∷ text.now) false
        (get_form_at h p.symbol.now i p.indicator.now) p.rest.now) }
    ensures operator { IfSome result (λ _. AreSymbolsThere with.now (lisp (codes "GET"))) }
    ensures names { IfSome result
        (λ p. (list_all is_ascii p.symbol.now ≡ true) × (list_all is_ascii p.indicator.now ≡ true)) }
    ensures shorter { IfSome result (λ p. length p.rest.now < length text.now) }
{
    let Some(rest) = lisp_operator(with, b"GET", text) else {
        return None;
    };
    written_arguments(with, rest)
}

// The arguments of GET, and the end of its list.
#[inline(always)]
fn written_arguments<'a>(with: &PlainContext<'_>, text: &'a [u8]) -> Option<WrittenPlace<'a>>
    requires { IsTrue with.now.quotes }
    ensures takes { (room : ℕ) (h i : Name) → 0 < room → IfSome result
        (λ p. FindsSymbol with.now h p.symbol.now → FindsSymbol with.now i p.indicator.now
        → EndsList with.now room text.now (arguments_at h p.symbol.now i p.indicator.now) p.rest.now) }
    ensures names { IfSome result
        (λ p. (list_all is_ascii p.symbol.now ≡ true) × (list_all is_ascii p.indicator.now ≡ true)) }
    ensures shorter { IfSome result (λ p. length p.rest.now < length text.now) }
{
    let Some(owner) = written_argument(with, text) else {
        return None;
    };
    let Some(indicator) = written_argument(with, owner.rest) else {
        return None;
    };
    match indicator.rest {
        [c, rest @ ..] if *c == b')' => Some(WrittenPlace {
            symbol: owner.name,
            indicator: indicator.name,
            rest,
        }),
        _ => None,
    }
}

// The quoted symbol behind whitespace, as the next item of a list.
#[inline(always)]
fn written_argument<'a>(with: &PlainContext<'_>, text: &'a [u8]) -> Option<WrittenName<'a>>
    requires { IsTrue with.now.quotes }
    ensures takes { (room : ℕ) (home : Name) → 0 < room → IfSome result
        (λ s. FindsSymbol with.now home s.name.now
        → TakesItems with.now room text.now (quote_of (symbol home s.name.now) ∷ []) s.rest.now) }
    ensures ascii { IfSome result (λ s. list_all is_ascii s.name.now ≡ true) }
    ensures shorter { IfSome result (λ s. length s.rest.now < length text.now) }
{
    match text {
        [space, quote, rest @ ..] if *quote == b'\'' && is_blank(with.readtable, *space) => {
            written_name(with, rest)
        }
        _ => None,
    }
}

// The name in capitals that a text begins with, without a package prefix.
#[inline(always)]
fn written_name<'a>(with: &PlainContext<'_>, text: &'a [u8]) -> Option<WrittenName<'a>>
    ensures takes { (room : ℕ) (home : Name) → IfSome result
        (λ s. FindsSymbol with.now home s.name.now
        → TakesObject with.now room text.now true (symbol home s.name.now) s.rest.now) }
    ensures ascii { IfSome result (λ s. list_all is_ascii s.name.now ≡ true) }
    ensures shorter { IfSome result (λ s. length s.rest.now < length text.now) }
{
    let Some(count) = word_length(with, text) else {
        return None;
    };
    let name = &text[..count];
    let rest = &text[count..];
    if has_lower(name) {
        None
    } else {
        Some(WrittenName { name, rest })
    }
}

// The text after an operator, where the symbol of COMMON-LISP with this name, in capitals, is the next item of a list.
#[inline(always)]
fn lisp_operator<'a>(with: &PlainContext<'_>, name: &[u8], text: &'a [u8]) -> Option<&'a [u8]>
    requires capitals { list_any is_lower_case name.now ≡ false }
    ensures takes { (room : ℕ) → IfSome result
        (λ rest. TakesItems with.now room text.now (lisp name.now ∷ []) rest.now) }
    ensures operator { IfSome result (λ _. AreSymbolsThere with.now (lisp name.now)) }
    ensures shorter { IfSome result (λ rest. length rest.now < length text.now) }
{
    let Some(count) = word_length(with, text) else {
        return None;
    };
    if is_lisp(with, &text[..count], name) {
        Some(&text[count..])
    } else {
        None
    }
}

// Whether a name without a package prefix is that of the symbol of COMMON-LISP with this name, in capitals.
#[inline(always)]
fn is_lisp(with: &PlainContext<'_>, bytes: &[u8], name: &[u8]) -> bool
    requires standard { IsTrue with.now.standard }
    requires word { IsTrue (is_word bytes.now) }
    requires capitals { list_any is_lower_case name.now ≡ false }
    ensures token { result ≡ true → IsToken with.now bytes.now (lisp name.now) }
    ensures there { result ≡ true → AreSymbolsThere with.now (lisp name.now) }
{
    with.packages.soundness();
    if is_name(bytes, name) {
        finds_lisp(with, name)
    } else {
        false
    }
}

// Whether the current package finds the symbol of COMMON-LISP by this name.
#[inline(always)]
fn finds_lisp(with: &PlainContext<'_>, name: &[u8]) -> bool
    ensures { result ≡ true → FindsSymbol with.now common_lisp name.now }
{
    match with.current_package.resolve(name) {
        Ok(Resolved::Found(home)) => is_name(home, COMMON_LISP),
        Ok(Resolved::New(_)) => false,
        Err(_) => false,
    }
}

// Whether it is this name.
#[inline(always)]
fn is_name(bytes: &[u8], name: &[u8]) -> bool
    ensures { result ≡ true → bytes.now ≡ name.now }
{
    bytes == name
}
