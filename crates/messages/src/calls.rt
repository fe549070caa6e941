// The calls of a store that carries out messages.
ghost use Rattle.std.specs.Prelude.{◌≡◌, ◌≢◌, ◌<◌, ◌≤◌, [], false, length, None, Some, IfOk, IfErr, Err};
ghost use Rattle.std.specs.Option.{option_and_then};
ghost use Rattle.lisp_object.specs.declared.refusal.TheConstants.{DEVICE as DEVICE_FAULT, REOPEN as NOT_OPEN};
ghost use Rattle.plist_state.specs.State.{WorldState};
ghost use Rattle.messages.specs.MessageAnswers.{first_round};
ghost use Rattle.messages.specs.MessageCalls.{AnswersRequests, BeginsMessages};
ghost use Rattle.messages.specs.Fronts.{AnswersFirst, first_of};
ghost use Rattle.messages.specs.Position.{is_position_hidden, position as position_of, position_property};

use crate::first_requests::FirstRequests;
use crate::own::Own;
use crate::place::PositionPlace;
use crate::request::{ANSWER_BYTES, NO_POSITION, Replies, Request};
use disk_trait::Disk;
use lisp_object::refusal::{NO_MEMORY, REOPEN};
use prevalence_store::{Outcome, Store};
use session_words::Mode;
use std::alloc::AllocError;
use user_macros::MacroFunctions;

/// The position: the number of the last message that wrote, or of a later one that was answered with it. `None` where the
/// property is no number of 64 bits, or is not there, and after a device fault.
pub fn position<D: Disk, R: MacroFunctions>(store: &Store<D, R>) -> Result<Option<u64>, AllocError>
    ensures { IfOk result (λ found. found ≡ option_and_then position_of store.now.world) }
{
    let place = PositionPlace::new(store.alloc())?;
    match store.world() {
        Some(world) => Ok(place.number(world)),
        None => Ok(None),
    }
}

/// Begins with messages: gives the position. In a store that has none yet it is 0, which is logged.
///
/// # Errors
///
/// 61 after an earlier device fault; 52 if the property that is to be the position is no number of 64 bits, or if its name stands
/// for another symbol in COMMON-LISP-USER; else, of the form that sets it to 0, as `execute` says. After 60 the store has to be
/// opened again, after any other it is as it was.
pub fn begin_messages<D: Disk, R: MacroFunctions>(store: &mut Store<D, R>) -> Result<u64, u16>
    ensures reopen { store.old.world ≡ None → (result ≡ Err NOT_OPEN) × (store.new ≡ store.old) }
    ensures begins { (world : WorldState) → store.old.world ≡ Some world
        → BeginsMessages R.Meaning.functions D.state store.old store.new world result }
    ensures honest { (D.state store.new.disk).honest ≡ (D.state store.old.disk).honest }
    ensures macros { store.new.macros ≡ store.old.macros }
{
    let Some(world) = store.world() else {
        return Err(REOPEN);
    };
    let Ok(place) = PositionPlace::new(store.alloc()) else {
        return Err(NO_MEMORY);
    };
    match place.number(world) {
        Some(number) => Ok(number),
        None if place.is_taken(world) => Err(NO_POSITION),
        None if place.is_hidden(world) => Err(NO_POSITION),
        None => set_first_position(store),
    }
}

// Makes 0 the position, which is not there, and whose name stands for no other symbol.
fn set_first_position<D: Disk, R: MacroFunctions>(store: &mut Store<D, R>) -> Result<u64, u16>
    ensures begins { (world : WorldState) → store.old.world ≡ Some world
        → position_property world ≡ None → is_position_hidden world ≡ false
        → BeginsMessages R.Meaning.functions D.state store.old store.new world result }
    ensures honest { (D.state store.new.disk).honest ≡ (D.state store.old.disk).honest }
    ensures macros { store.new.macros ≡ store.old.macros }
{
    let Ok(text) = Own::Position(0).text(store.alloc()) else {
        return Err(NO_MEMORY);
    };
    match store.execute(Mode::Rescue, text.as_slice()) {
        Outcome::Refused(number) => Err(number),
        _ => Ok(0),
    }
}

/// Answers these requests one after the other, where `last` is the number of the last message before them. A message whose number
/// is not over it and over the position is refused with 50. Each message is carried out in a world without the position. What the
/// messages that write need is appended to the log together, and the new position after it: a crash leaves none or all.
///
/// # Errors
///
/// 61 after an earlier device fault; 64 if the half has no room for them, 90 if a growth was refused, and any number under which
/// a form of the store's own is refused, 52 if it is read as another one or a symbol of it is not there: the store is then as it
/// was. After 60 it has to be opened again.
pub fn answer_requests<D: Disk, R: MacroFunctions>(
    store: &mut Store<D, R>,
    last: u64,
    requests: &[Request<'_>],
) -> Result<Replies, u16>
    ensures reopen { store.old.world ≡ None → (result ≡ Err NOT_OPEN) × (store.new ≡ store.old) }
    ensures answer { (world : WorldState) → store.old.world ≡ Some world
        → AnswersRequests R.Meaning.functions D.state store.old store.new world last requests.now result }
    ensures unchanged { IfErr result (λ number. number ≢ DEVICE_FAULT → store.new ≡ store.old) }
    ensures honest { (D.state store.new.disk).honest ≡ (D.state store.old.disk).honest }
    ensures macros { store.new.macros ≡ store.old.macros }
{
    answer_up_to(store, last, requests, None)
}

/// Answers the first of these requests, as `answer_requests` does: up to the one with whose answer the answers have `ANSWER_BYTES`
/// bytes, or all. So at least one is answered, if there is one, and there is an answer for each that is. The rest is as if it had not
/// been asked: who goes on hands it in again, with the last number of these replies.
///
/// # Errors
///
/// As `answer_requests`, of those that are to be answered together.
pub fn answer_first_requests<D: Disk, R: MacroFunctions>(
    store: &mut Store<D, R>,
    last: u64,
    requests: &[Request<'_>],
) -> Result<Replies, u16>
    ensures reopen { store.old.world ≡ None → (result ≡ Err NOT_OPEN) × (store.new ≡ store.old) }
    ensures answer { (world : WorldState) → store.old.world ≡ Some world
        → AnswersFirst R.Meaning.functions D.state store.old store.new world last requests.now result }
    ensures most { IfOk result (λ replies. length replies.answers.items ≤ length requests.now) }
    ensures some { requests.now ≢ [] → IfOk result (λ replies. 0 < length replies.answers.items) }
    ensures unchanged { IfErr result (λ number. number ≢ DEVICE_FAULT → store.new ≡ store.old) }
    ensures honest { (D.state store.new.disk).honest ≡ (D.state store.old.disk).honest }
    ensures macros { store.new.macros ≡ store.old.macros }
{
    answer_up_to(store, last, requests, Some(ANSWER_BYTES))
}

// Answers the first of these requests, until their answers have so many bytes, or all.
fn answer_up_to<D: Disk, R: MacroFunctions>(
    store: &mut Store<D, R>,
    last: u64,
    requests: &[Request<'_>],
    most: Option<usize>,
) -> Result<Replies, u16>
    ensures reopen { store.old.world ≡ None → (result ≡ Err NOT_OPEN) × (store.new ≡ store.old) }
    ensures answer { (world : WorldState) → store.old.world ≡ Some world
        → AnswersRequests R.Meaning.functions D.state store.old store.new world last
        (first_of R.Meaning.functions most (first_round last world) requests.now) result }
    ensures unchanged { IfErr result (λ number. number ≢ DEVICE_FAULT → store.new ≡ store.old) }
    ensures honest { (D.state store.new.disk).honest ≡ (D.state store.old.disk).honest }
    ensures macros { store.new.macros ≡ store.old.macros }
{
    if !store.is_open() {
        return Err(REOPEN);
    }
    let turn = FirstRequests {
        last,
        requests,
        most,
    };
    match store.together(&turn) {
        Ok(made) => made,
        Err(cause) => Err(cause.number()),
    }
}
