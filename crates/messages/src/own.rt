// The store's own forms, which take the position out of a world and put it in.
ghost use Rattle.std.specs.Prelude.{◌≡◌, ◌↔◌, ◌&&◌, [], ◌∷◌, IsTrue, IfOk, pos};
ghost use Rattle.package_table.specs.Symbols.{are_there};
ghost use Rattle.messages.specs.Position.{own_form, own_text};
ghost use Rattle.messages.specs.Rounds.{call_datum, own_datum, quoted_datum};

use lisp_object::Datum;
use plist_state::World;
use std::alloc::{AllocError, Global};

const COMMON_LISP: &[u8] = b"COMMON-LISP";

/// A form of the store's own.
#[derive(Clone, Copy, Debug)]
pub(crate) enum Own {
    /// It takes the position out.
    Clearing,
    /// It makes this number the position.
    Position(u64),
}

impl Own {
    /// Its text.
    pub(crate) fn text(self, alloc: Global) -> Result<Vec<u8>, AllocError>
        ensures { IfOk result (λ text. text.items ≡ own_text self) }
    {
        match self {
            Own::Clearing => Vec::from_slice(alloc, b"(REMPROP '|position| '|position|)"),
            Own::Position(number) => text_of_position(alloc, number),
        }
    }

    /// Whether this is what is read of it.
    pub(crate) fn is_read_as(self, datum: &Datum) -> bool
        ensures { IsTrue result ↔ (datum.now ≡ own_datum self) }
    {
        match self {
            Own::Clearing => is_property(datum, b"REMPROP"),
            Own::Position(number) => is_setting(datum, number),
        }
    }

    /// Whether the packages of a world have each symbol of it.
    pub(crate) fn are_symbols_there(self, world: &World) -> bool
        ensures { result ≡ are_there world.now.0.packages (own_form self) }
    {
        let packages = world.packages();
        let is_quote = packages.is_symbol(COMMON_LISP, b"QUOTE");
        let is_position = packages.is_symbol(b"COMMON-LISP-USER", b"position");
        let is_nil = packages.is_symbol(COMMON_LISP, b"NIL");
        let is_quoted = both(both(is_quote, is_position), is_nil);
        match self {
            Own::Clearing => both(packages.is_symbol(COMMON_LISP, b"REMPROP"), is_quoted),
            Own::Position(_) => {
                let is_setf = packages.is_symbol(COMMON_LISP, b"SETF");
                let is_get = packages.is_symbol(COMMON_LISP, b"GET");
                both(both(is_setf, is_get), is_quoted)
            }
        }
    }
}

fn both(one: bool, other: bool) -> bool
    ensures { result ≡ (one && other) }
{
    if one { other } else { false }
}

fn text_of_position(alloc: Global, number: u64) -> Result<Vec<u8>, AllocError>
    ensures { IfOk result (λ text. text.items ≡ own_text (Own.Position number)) }
{
    let digits = number.to_string(alloc)?;
    let mut text = Vec::from_slice(alloc, b"(SETF (GET '|position| '|position|) ")?;
    text.extend_from_slice(digits.as_bytes())?;
    text.extend_from_slice(b")")?;
    Ok(text)
}

// Whether it is the symbol of this home and name.
fn is_symbol(datum: &Datum, home: &[u8], name: &[u8]) -> bool
    ensures { IsTrue result ↔ (datum.now ≡ Datum.Symbol home.now name.now) }
{
    match datum {
        Datum::Symbol { package, name: own } => package.as_slice() == home
            && own.as_slice() == name,
        _ => false,
    }
}

fn is_number(datum: &Datum, number: u64) -> bool
    ensures { IsTrue result ↔ (datum.now ≡ Datum.Integer (pos number)) }
{
    match datum {
        Datum::Integer(value) => *value == i128::from(number),
        _ => false,
    }
}

// Whether it is the quoted symbol at which the position stands.
fn is_quoted_position(datum: &Datum) -> bool
    ensures { IsTrue result ↔ (datum.now ≡ quoted_datum) }
{
    let Datum::List { items, tail } = datum else {
        return false;
    };
    let [quote, position] = items.as_slice() else {
        return false;
    };
    if tail.is_some() {
        return false;
    }
    is_symbol(quote, COMMON_LISP, b"QUOTE") && is_symbol(position, b"COMMON-LISP-USER", b"position")
}

// Whether it is the call of this operator with the quoted symbol twice.
fn is_property(datum: &Datum, operator: &[u8]) -> bool
    ensures { IsTrue result ↔ (datum.now ≡ call_datum operator.now (quoted_datum ∷ quoted_datum ∷ [])) }
{
    let Datum::List { items, tail } = datum else {
        return false;
    };
    let [name, owner, indicator] = items.as_slice() else {
        return false;
    };
    if tail.is_some() {
        return false;
    }
    is_symbol(name, COMMON_LISP, operator)
        && is_quoted_position(owner)
        && is_quoted_position(indicator)
}

fn is_setting(datum: &Datum, number: u64) -> bool
    ensures { IsTrue result ↔ (datum.now ≡ own_datum (Own.Position number)) }
{
    let Datum::List { items, tail } = datum else {
        return false;
    };
    let [name, place, value] = items.as_slice() else {
        return false;
    };
    if tail.is_some() {
        return false;
    }
    is_symbol(name, COMMON_LISP, b"SETF") && is_property(place, b"GET") && is_number(value, number)
}
