//! Literals: objects that are quoted, or evaluate to themselves.
//! None says that no plain literal is there, and nothing of what the text means.
ghost use Rattle.std.specs.Prelude.{◌≡◌, ◌∷◌, ◌<◌, [], ℕ, length, true, IfOk, IfSome, IsTrue};
ghost use Rattle.lisp_object.specs.Object.{IsSound};
ghost use Rattle.lisp_object.specs.Datum.{object_of};
ghost use Rattle.plain_reader.specs.Plain.{AreSymbolsThere, IfStill, Takes};
ghost use Rattle.plain_reader.specs.Written.{literal_of, TakesItems};
ghost use Rattle.plain_reader.specs.SelfEvaluating.{is_self_evaluating};

use crate::context::PlainContext;
use crate::literal::Literal;
use crate::objects::{Taken, is_blank, put, spells, string};
use crate::tokens::token;
use lisp_object::Datum;
use lisp_reading::{HeldObject, HeldObjects};
use std::alloc::AllocError;

/// A literal, and the text after it.
#[derive(Drop)]
pub(crate) struct ReadLiteral<'a> {
    pub literal: Literal,
    pub rest: &'a [u8],
}

/// The literal behind whitespace, as the next item of a list, where `room` calls may be opened.
#[inline(always)]
pub(crate) fn literal<'a>(
    with: &PlainContext<'_>,
    room: u32,
    known: &mut bool,
    text: &'a [u8],
) -> Result<Option<ReadLiteral<'a>>, AllocError>
    requires { IsTrue with.now.quotes }
    ensures takes { IfOk result (λ found. IfSome found
        (λ l. TakesItems with.now room text.now (literal_of l.literal ∷ []) l.rest.now)) }
    ensures known { IfOk result (λ found. IfStill known.old known.new
        (IfSome found (λ l. AreSymbolsThere with.now (literal_of l.literal)))) }
    ensures shorter { IfOk result (λ found. IfSome found
        (λ l. length l.rest.now < length text.now)) }
    ensures sound { IfOk result (λ found. IfSome found
        (λ l. IsSound (object_of l.literal.datum))) }
{
    match text {
        [space, quote, rest @ ..] if *quote == b'\'' && is_blank(with.readtable, *space) => {
            quoted(with, room, known, rest)
        }
        [space, rest @ ..] if is_blank(with.readtable, *space) => itself(with, known, rest),
        _ => Ok(None),
    }
}

// What is quoted, where the quote was before the text, as the next item of a list.
fn quoted<'a>(
    with: &PlainContext<'_>,
    room: u32,
    known: &mut bool,
    text: &'a [u8],
) -> Result<Option<ReadLiteral<'a>>, AllocError>
    requires { IsTrue with.now.quotes }
    ensures takes { IfOk result (λ found. IfSome found
        (λ l. TakesItems with.now room (39 ∷ text.now) (literal_of l.literal ∷ []) l.rest.now)) }
    ensures known { IfOk result (λ found. IfStill known.old known.new
        (IfSome found (λ l. AreSymbolsThere with.now (literal_of l.literal)))) }
    ensures shorter { IfOk result (λ found. IfSome found
        (λ l. length l.rest.now < length text.now)) }
    ensures sound { IfOk result (λ found. IfSome found
        (λ l. IsSound (object_of l.literal.datum))) }
{
    if room == 0 {
        return Ok(None);
    }
    with.packages.soundness();
    let mut items = HeldObjects::new(with.alloc);
    match put(with, room - 1, known, &mut items, text)? {
        None => Ok(None),
        Some(rest) => match only(items) {
            None => Ok(None),
            Some(object) => Ok(Some(ReadLiteral {
                literal: Literal {
                    datum: object.into_datum(),
                    is_quoted: true,
                },
                rest,
            })),
        },
    }
}

// The object, where there is one alone.
fn only(items: HeldObjects) -> Option<HeldObject>
    ensures { IfSome result (λ x. items ≡ x ∷ []) }
{
    let mut data = items.into_items().into_vec();
    if data.len() != 1 {
        return None;
    }
    match data.pop() {
        None => None,
        Some(datum) => Some(HeldObject::new(datum)),
    }
}

// What evaluates to itself, as the next item of a list.
#[inline(always)]
fn itself<'a>(
    with: &PlainContext<'_>,
    known: &mut bool,
    text: &'a [u8],
) -> Result<Option<ReadLiteral<'a>>, AllocError>
    ensures takes { (room : ℕ) → IfOk result (λ found. IfSome found
        (λ l. TakesItems with.now room text.now (literal_of l.literal ∷ []) l.rest.now)) }
    ensures known { IfOk result (λ found. IfStill known.old known.new
        (IfSome found (λ l. AreSymbolsThere with.now (literal_of l.literal)))) }
    ensures shorter { IfOk result (λ found. IfSome found
        (λ l. length l.rest.now < length text.now)) }
    ensures sound { IfOk result (λ found. IfSome found
        (λ l. IsSound (object_of l.literal.datum))) }
{
    match text {
        [] => Ok(None),
        [c, ..] if *c == b')' => Ok(None),
        _ => match atom(with, known, text)? {
            None => Ok(None),
            Some(taken) => {
                let datum = taken.object.into_datum();
                if is_self_evaluating(&datum) {
                    Ok(Some(ReadLiteral {
                        literal: Literal {
                            datum,
                            is_quoted: false,
                        },
                        rest: taken.rest,
                    }))
                } else {
                    Ok(None)
                }
            }
        },
    }
}

// A text or a token at the front of the text.
#[inline(always)]
fn atom<'a>(
    with: &PlainContext<'_>,
    known: &mut bool,
    text: &'a [u8],
) -> Result<Option<Taken<'a>>, AllocError>
    ensures takes { (room : ℕ)
        → IfOk result (λ found. IfSome found (Takes with.now room text.now)) }
    ensures known { IfOk result (λ found. IfStill known.old known.new
        (IfSome found (λ t. AreSymbolsThere with.now t.object))) }
    ensures shorter { IfOk result (λ found. IfSome found
        (λ t. length t.rest.now < length text.now)) }
{
    match text {
        [c, rest @ ..] if *c == b'"' && spells(with.readtable) => string(with, rest),
        _ => token(with, known, text),
    }
}

// Whether it evaluates to itself.
#[tactic(auto, using(lisp_object::proofs::Objects::object_laws))]
#[inline(always)]
fn is_self_evaluating(datum: &Datum) -> bool
    ensures { result ≡ true → is_self_evaluating (object_of datum.now) ≡ true }
{
    match datum {
        Datum::Integer(_) => true,
        Datum::Rational(_) => true,
        Datum::Char(_) => true,
        Datum::Text(_) => true,
        Datum::Vector(_) => true,
        Datum::Symbol { .. } => false,
        Datum::Uninterned(_) => false,
        Datum::List { .. } => false,
    }
}
