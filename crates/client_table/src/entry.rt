// The table: the entries of clients, as properties of the world.
ghost use Rattle.std.specs.Prelude.{◌≡◌, ◌<◌, ◌∷◌, [], true, All, IfOk, IfSome, Some, option_map, pos};
ghost use Rattle.std.specs.List.{list_all};
ghost use Rattle.client_table.specs.Entries.{MayStand, client_count, entry, entry_in, entry_list, entry_of_three, entry_property, is_of, kept_in, kept_message, kept_objects, may_be_kept, whole_with};
ghost use Rattle.client_table.specs.Named.{client_standing};
ghost use Rattle.client_table.specs.Told.{entry_told, kept_told};
ghost use Rattle.lisp_object.specs.Ascii.{is_ascii};
ghost use Rattle.lisp_object.specs.Datum.{is_proper, object_of};
ghost use Rattle.lisp_object.specs.Object.{integer, text};

use crate::asked::KEPT_BYTES;
use lisp_object::{Bytes, Datum, Items};
use messages::number_of;
use plist_state::{BorrowedSymbol, World};
use std::alloc::{AllocError, Global};

/// The package of the table.
pub(crate) const TABLE_PACKAGE: &[u8] = b"%CLIENTS";

/// The indicator of an entry, and the symbol that has the number of clients.
pub(crate) const MESSAGE_NAME: &[u8] = b"%MESSAGE";

/// What is kept of a message.
#[derive(Clone, Copy)]
pub(crate) enum KeptAnswer<'a> {
    /// Its form and its answer.
    Whole(&'a [u8], &'a [u8]),
    /// How many bytes its form has.
    Count(u64),
}

/// The number of the last message of a client, and what is kept of it.
#[derive(Clone, Copy)]
pub(crate) struct Entry<'a> {
    pub(crate) number: u64,
    pub(crate) kept: KeptAnswer<'a>,
}

/// How a message of a client stands to the table.
#[derive(Clone, Copy)]
pub(crate) enum Standing {
    /// The client has no entry.
    New,
    /// What stands there is no entry.
    NoEntry,
    /// Its number is under that of the entry.
    Old,
    /// Its number is that of the entry, and its form is not.
    Other,
    /// Its number and its form are those of the entry.
    Last,
    /// Its number is over that of the entry, or the client goes.
    Later,
}

/// What stands where the entry of a client does.
#[tactic(auto, using(crate::proofs::Found::none_found, crate::proofs::Found::first_found))]
pub(crate) fn entry_property<'a>(world: &'a World, name: &[u8]) -> Option<&'a Datum>
    ensures value { option_map (λ d. object_of d.now) result ≡ entry_property world.now.0 name.now }
    ensures proper { IfSome result (λ d. is_proper d.now ≡ true) }
{
    let home = TABLE_PACKAGE;
    let properties = world.plist_of(home, name);
    if properties.is_empty() {
        return None;
    }
    let first = properties.at(0);
    if first.name == MESSAGE_NAME && first.home == home {
        return Some(first.value);
    }
    let indicator = BorrowedSymbol {
        home,
        name: MESSAGE_NAME,
    };
    world.get_at(BorrowedSymbol { home, name }, indicator)
}

/// How many clients the table has.
pub(crate) fn client_count(world: &World) -> u64
    ensures { result ≡ client_count world.now.0 }
{
    let home = TABLE_PACKAGE;
    let symbol = BorrowedSymbol {
        home,
        name: MESSAGE_NAME,
    };
    let indicator = BorrowedSymbol {
        home,
        name: b"%CLIENTS",
    };
    match world.get_at(symbol, indicator) {
        Some(value) => number_of(value).unwrap_or(0),
        None => 0,
    }
}

/// The entry that a datum is; None where it is no list of three data that `entry_by` takes.
#[tactic(auto, using(crate::proofs::Shapes::no_entry, crate::proofs::Shapes::other_count, crate::proofs::Shapes::other_end))]
pub(crate) fn entry_in(datum: &Datum) -> Option<Entry<'_>>
    requires { is_proper datum.now ≡ true }
    ensures { option_map entry_told result ≡ entry_in (object_of datum.now) }
{
    let Datum::List { items, tail } = datum else {
        return None;
    };
    let [number, form, answer] = items.as_slice() else {
        return None;
    };
    if tail.is_some() {
        return None;
    }
    entry_by(number, form, answer)
}

// The entry that these three data are; None where the first is no number of 64 bits, or the others keep nothing.
fn entry_by<'a>(number: &'a Datum, form: &'a Datum, answer: &'a Datum) -> Option<Entry<'a>>
    requires number { is_proper number.now ≡ true }
    requires form { is_proper form.now ≡ true }
    requires answer { is_proper answer.now ≡ true }
    ensures { option_map entry_told result
        ≡ entry_of_three true (object_of number.now) (object_of form.now) (object_of answer.now) }
{
    let number = number_of(number)?;
    let kept = kept_in(form, answer)?;
    Some(Entry { number, kept })
}

// What is kept by two data: a form and its answer, or the length of a form. None where they are neither.
#[tactic(auto, using(crate::proofs::Shapes::by_number))]
fn kept_in<'a>(form: &'a Datum, answer: &'a Datum) -> Option<KeptAnswer<'a>>
    requires form { is_proper form.now ≡ true }
    requires answer { is_proper answer.now ≡ true }
    ensures { option_map kept_told result ≡ kept_in (object_of form.now) (object_of answer.now) }
{
    if let Datum::Text(form) = form {
        return whole_with(form.as_slice(), answer);
    }
    let count = number_of(form)?;
    Some(KeptAnswer::Count(count))
}

// What is kept by a form and a datum; None where the datum is no text.
#[tactic(auto, using(crate::proofs::Shapes::no_text))]
fn whole_with<'a>(form: &'a [u8], answer: &'a Datum) -> Option<KeptAnswer<'a>>
    requires { is_proper answer.now ≡ true }
    ensures { option_map kept_told result ≡ whole_with form.now (object_of answer.now) }
{
    if let Datum::Text(answer) = answer {
        return Some(KeptAnswer::Whole(form, answer.as_slice()));
    }
    None
}

/// What is kept of a form and its answer.
pub(crate) fn kept_of<'a>(form: &'a [u8], answer: &'a [u8]) -> KeptAnswer<'a>
    ensures { kept_told result ≡ kept_message form.now answer.now }
{
    if may_be_kept(form) && may_be_kept(answer) {
        KeptAnswer::Whole(form, answer)
    } else {
        KeptAnswer::Count(form.len() as u64)
    }
}

// Whether it is short, and each byte is a character of a text.
fn may_be_kept(bytes: &[u8]) -> bool
    ensures { result ≡ may_be_kept bytes.now }
{
    bytes.len() <= KEPT_BYTES && are_ascii(bytes)
}

fn are_ascii(bytes: &[u8]) -> bool
    ensures { result ≡ list_all is_ascii bytes.now }
{
    bytes.iter().all(|byte| *byte < 128)
}

/// The entry as a datum.
#[tactic(auto, using(crate::proofs::Shapes::made_object, crate::proofs::Shapes::made_proper))]
pub(crate) fn datum_of(
    alloc: Global,
    number: u64,
    kept: KeptAnswer<'_>,
) -> Result<Datum, AllocError>
    requires { MayStand (kept_told kept) }
    ensures object { IfOk result (λ datum. object_of datum ≡ entry_list number (kept_told kept.entry)) }
    ensures proper { IfOk result (λ datum. is_proper datum ≡ true) }
{
    let (form, answer) = kept_data(alloc, kept)?;
    let mut items = Vec::with_capacity(alloc, 3)?;
    items.push(number_datum(number))?;
    items.push(form)?;
    items.push(answer)?;
    Ok(Datum::List {
        items: Items::from_vec(items),
        tail: None,
    })
}

// What is kept, as two data.
fn kept_data(alloc: Global, kept: KeptAnswer<'_>) -> Result<(Datum, Datum), AllocError>
    requires { MayStand (kept_told kept) }
    ensures objects { IfOk result (λ both. object_of both.0 ∷ object_of both.1 ∷ []
        ≡ kept_objects (kept_told kept.entry)) }
    ensures proper { IfOk result (λ both. (is_proper both.0 ≡ true) × (is_proper both.1 ≡ true)) }
{
    match kept {
        KeptAnswer::Whole(form, answer) => {
            let form = text_datum(alloc, form)?;
            let answer = text_datum(alloc, answer)?;
            Ok((form, answer))
        }
        KeptAnswer::Count(count) => {
            let empty = text_datum(alloc, b"")?;
            Ok((number_datum(count), empty))
        }
    }
}

fn number_datum(number: u64) -> Datum
    ensures object { object_of result ≡ integer (pos number) }
    ensures proper { is_proper result ≡ true }
{
    Datum::Integer(i128::from(number))
}

fn text_datum(alloc: Global, bytes: &[u8]) -> Result<Datum, AllocError>
    requires { All (λ b. b < 128) bytes.now }
    ensures object { IfOk result (λ datum. object_of datum ≡ text bytes.now) }
    ensures proper { IfOk result (λ datum. is_proper datum ≡ true) }
{
    let bytes = Bytes::from_slice(alloc, bytes)?;
    Ok(Datum::Text(bytes))
}

/// How a message of this number stands to the table: one with a form, or of a client that goes.
pub(crate) fn client_standing(
    world: &World,
    number: u64,
    form: Option<&[u8]>,
    name: &[u8],
) -> Standing
    ensures { result
        ≡ client_standing number (option_map (λ form. form.now) form.entry)
        (entry_property world.now.0 name.now) }
{
    let Some(value) = entry_property(world, name) else {
        return Standing::New;
    };
    let Some(entry) = entry_in(value) else {
        return Standing::NoEntry;
    };
    if number < entry.number {
        return Standing::Old;
    }
    match form {
        Some(form) if number == entry.number => {
            if is_of(entry.kept, form) {
                Standing::Last
            } else {
                Standing::Other
            }
        }
        _ => Standing::Later,
    }
}

// Whether this is kept of this form, or may be.
fn is_of(kept: KeptAnswer<'_>, form: &[u8]) -> bool
    ensures { result ≡ is_of (kept_told kept.entry) form.now }
{
    match kept {
        KeptAnswer::Whole(own, _) => own == form,
        KeptAnswer::Count(count) => count == form.len() as u64,
    }
}

/// The entry of a client; None where nothing stands there, or no entry.
pub(crate) fn find_entry<'a>(world: &'a World, name: &[u8]) -> Option<Entry<'a>>
    ensures { option_map entry_told result ≡ entry world.now.0 name.now }
{
    match entry_property(world, name) {
        Some(value) => entry_in(value),
        None => None,
    }
}
