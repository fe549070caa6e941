// A message with a name, in a round: by the table.
// After an error the world and the round may have changed: the marks of the world lead back.
ghost use Rattle.std.specs.Prelude.{◌≡◌, ◌∷◌, ◌++◌, [], ℕ, Bool, List, true, false, None, Some, IfErr, IfOk, IsSome, OnOk};
ghost use Rattle.client_table.specs.CallsByName.{HasAnswer, KeepsAnswer, KeepsAnswerAt, RefusesNamed};
ghost use Rattle.client_table.specs.Entries.{HasEntrySymbols, entry, entry_property, kept_message};
ghost use Rattle.client_table.specs.Names.{is_client_name as is_a_name};
ghost use Rattle.client_table.specs.Named.{by_later, by_name, by_table, by_no_entry, last_told, with_entry_kept, with_kept, without_client};
ghost use Rattle.client_table.specs.Steps.{IsAdmitted, RefusesMessageAt, refusal_of};
ghost use Rattle.client_table.specs.Told.{form_told};
ghost use Rattle.messages.specs.MessageAnswers.{refusal_answer, refusal_text, with_answer};
ghost use Rattle.messages.specs.Rounds.{IfRefused, StaysMade, round_in};
ghost use Rattle.plist_state.specs.State.{WorldState, Worlds};
ghost use Rattle.prevalence_store.specs.calls.ExecuteAll.{told_by};
ghost use Rattle.prevalence_store.specs.steps.Batch.{IsWorldMarked};
ghost use Rattle.user_macros.specs.Functions.{Functions};

use crate::asked::{NO_ENTRY, NO_FRAME, NO_ROOM, NOT_KEPT, Named, OTHER_TEXT};
use crate::entry::{
    KeptAnswer, MESSAGE_NAME, Standing, TABLE_PACKAGE, client_count, client_standing, datum_of,
    entry_property, find_entry, kept_of,
};
use crate::name::{is_client_name, split};
use crate::texts::{admission_text, entry_text, leaving_text};
use messages::{OLD_NUMBER, Round, text_of_number, text_of_refusal};
use plist_state::{BorrowedSymbol, World};
use prevalence_store::{Outcome, Unadded, WholeMacros};
use std::alloc::AllocError;
use user_macros::MacroFunctions;

/// A message of a client: its number, the name, and the form, which one of a client that goes has not.
#[derive(Clone, Copy)]
pub(crate) struct ClientMessage<'a> {
    pub(crate) number: u64,
    pub(crate) name: &'a [u8],
    pub(crate) form: Option<&'a [u8]>,
}

/// Answers a message with a name, in a table of at most so many clients.
pub(crate) fn answer_named<R: MacroFunctions>(
    round: &mut Round,
    world: &mut World,
    macros: &WholeMacros<R>,
    most: u64,
    named: &Named<'_>,
) -> Result<(), Unadded>
    ensures answered { OnOk result (round_in round.new world.new.0
        ≡ by_name R.Meaning.functions most named.now.number named.now.text.now
        (round_in round.old world.old.0)) }
    ensures kept { OnOk result (KeepsAnswer (round_in round.old world.old.0) named.now
        (round_in round.new world.new.0)) }
    ensures made { OnOk result (StaysMade R.Meaning.functions
        (round_in round.old world.old.0) (round_in round.new world.new.0)) }
    ensures refused { IfErr result (λ cause. IfRefused cause
        (RefusesNamed R.Meaning.functions most (round_in round.old world.old.0) named.now)) }
    ensures marks { (worlds : Worlds) → IsWorldMarked worlds world.old.1
        → IsWorldMarked worlds world.new.1 }
{
    match round.clear(world, macros) {
        Ok(()) => {}
        Err(failure) => return Err(failure),
    }
    let (name, form) = split(named.text);
    if !is_client_name(name) {
        return refuse(round, NO_FRAME, b"NO-FRAME");
    }
    let message = ClientMessage {
        number: named.number,
        name,
        form,
    };
    answer_by_table(round, world, macros, most, message)
}

// Answers a message in a world without the position, by how it stands to the table.
fn answer_by_table<R: MacroFunctions>(
    round: &mut Round,
    world: &mut World,
    macros: &WholeMacros<R>,
    most: u64,
    message: ClientMessage<'_>,
) -> Result<(), Unadded>
    requires named { is_a_name message.name.now ≡ true }
    ensures answered { OnOk result ((round_in round.new world.new.0)
        ≡ by_table R.Meaning.functions most message.entry.number message.entry.name.now
        (form_told message.entry) (round_in round.old world.old.0)) }
    ensures kept { OnOk result (KeepsAnswerAt message.entry.number message.entry.name.now
        (form_told message.entry) (round_in round.old world.old.0) (round_in round.new world.new.0)) }
    ensures made { OnOk result (StaysMade R.Meaning.functions
        (round_in round.old world.old.0) (round_in round.new world.new.0)) }
    ensures refused { IfErr result (λ cause. IfRefused cause
        (RefusesMessageAt R.Meaning.functions message.entry.name.now (form_told message.entry)
        (round_in round.old world.old.0))) }
    ensures marks { (worlds : Worlds) → IsWorldMarked worlds world.old.1
        → IsWorldMarked worlds world.new.1 }
{
    match client_standing(world, message.number, message.form, message.name) {
        Standing::New => answer_new(round, world, macros, most, message),
        Standing::NoEntry => refuse(round, NO_ENTRY, b"NO-ENTRY"),
        Standing::Old => refuse(round, OLD_NUMBER, b"OLD-NUMBER"),
        Standing::Other => refuse(round, OTHER_TEXT, b"OTHER-TEXT"),
        Standing::Last => answer_again(round, world, message.name),
        Standing::Later => answer_later(round, world, macros, message),
    }
}

// A refusal, before anything is carried out.
fn refuse(round: &mut Round, number: u16, name: &[u8]) -> Result<(), Unadded>
    ensures answered { OnOk result ((s : WorldState) → round_in round.new s
        ≡ with_answer (refusal_text number name.now) false (round_in round.old s)) }
    ensures refused { IfErr result (λ cause. cause ≡ Unadded.OutOfMemory) }
{
    match text_of_refusal(round.alloc(), number, name) {
        Ok(text) => push(round, text, false),
        Err(_) => Err(Unadded::OutOfMemory),
    }
}

// One answer more.
fn push(round: &mut Round, text: Vec<u8>, wrote: bool) -> Result<(), Unadded>
    ensures answered { OnOk result ((s : WorldState) → round_in round.new s
        ≡ with_answer text.items wrote (round_in round.old s)) }
    ensures refused { IfErr result (λ cause. cause ≡ Unadded.OutOfMemory) }
{
    match round.push(text, wrote) {
        Ok(()) => Ok(()),
        Err(_) => Err(Unadded::OutOfMemory),
    }
}

// These bytes as an answer.
fn tell(round: &mut Round, answer: &[u8], wrote: bool) -> Result<(), Unadded>
    ensures answered { OnOk result ((s : WorldState) → round_in round.new s
        ≡ with_answer answer.now wrote (round_in round.old s)) }
    ensures refused { IfErr result (λ cause. cause ≡ Unadded.OutOfMemory) }
{
    match Vec::from_slice(round.alloc(), answer) {
        Ok(text) => push(round, text, wrote),
        Err(_) => Err(Unadded::OutOfMemory),
    }
}

// The answer of the last message again.
fn answer_again(round: &mut Round, world: &World, name: &[u8]) -> Result<(), Unadded>
    ensures answered { OnOk result ((s : WorldState) → round_in round.new s
        ≡ with_answer (last_told (entry world.now.0 name.now)) false (round_in round.old s)) }
    ensures refused { IfErr result (λ cause. cause ≡ Unadded.OutOfMemory) }
{
    match find_entry(world, name) {
        Some(entry) => match entry.kept {
            KeptAnswer::Whole(_, answer) => tell(round, answer, false),
            KeptAnswer::Count(_) => refuse(round, NOT_KEPT, b"NOT-KEPT"),
        },
        None => tell(round, b"", false),
    }
}

// A message of a client that has no entry. Its symbol is made before anything is carried out.
fn answer_new<R: MacroFunctions>(
    round: &mut Round,
    world: &mut World,
    macros: &WholeMacros<R>,
    most: u64,
    message: ClientMessage<'_>,
) -> Result<(), Unadded>
    requires named { is_a_name message.name.now ≡ true }
    requires none { entry_property world.old.0 message.name.now ≡ None }
    ensures answered { OnOk result ((round_in round.new world.new.0)
        ≡ by_no_entry R.Meaning.functions most message.entry.number message.entry.name.now
        (form_told message.entry) (round_in round.old world.old.0)) }
    ensures kept { OnOk result (KeepsAnswerAt message.entry.number message.entry.name.now
        (form_told message.entry) (round_in round.old world.old.0) (round_in round.new world.new.0)) }
    ensures made { OnOk result (StaysMade R.Meaning.functions
        (round_in round.old world.old.0) (round_in round.new world.new.0)) }
    ensures refused { IfErr result (λ cause. IfRefused cause
        (RefusesMessageAt R.Meaning.functions message.entry.name.now (form_told message.entry)
        (round_in round.old world.old.0))) }
    ensures marks { (worlds : Worlds) → IsWorldMarked worlds world.old.1
        → IsWorldMarked worlds world.new.1 }
{
    let Some(form) = message.form else {
        return tell(round, b"NIL", false);
    };
    if most <= client_count(world) {
        return refuse(round, NO_ROOM, b"NO-ROOM");
    }
    match admit(round, world, macros, message.name) {
        Ok(None) => keep_answer(round, world, macros, message.number, message.name, form),
        Ok(Some(number)) => tell_refusal(round, number),
        Err(failure) => Err(failure),
    }
}

// The refusal of a form of the store's own.
fn tell_refusal(round: &mut Round, number: u16) -> Result<(), Unadded>
    ensures answered { OnOk result ((s : WorldState) → round_in round.new s
        ≡ with_answer (refusal_answer number) false (round_in round.old s)) }
    ensures refused { IfErr result (λ cause. cause ≡ Unadded.OutOfMemory) }
{
    match text_of_number(round.alloc(), number) {
        Ok(text) => push(round, text, false),
        Err(_) => Err(Unadded::OutOfMemory),
    }
}

// Makes the symbol of a client that has no entry, with one. Gives the number with which that is refused, if it is.
fn admit<R: MacroFunctions>(
    round: &mut Round,
    world: &mut World,
    macros: &WholeMacros<R>,
    name: &[u8],
) -> Result<Option<u16>, Unadded>
    ensures admitted { IfOk result (IsAdmitted R.Meaning.functions name.now
        (round_in round.old world.old.0) (round_in round.new world.new.0)) }
    ensures made { OnOk result (StaysMade R.Meaning.functions
        (round_in round.old world.old.0) (round_in round.new world.new.0)) }
    ensures refused { IfErr result (λ cause. IfRefused cause
        (λ number. (form : List ℕ)
        → RefusesMessageAt R.Meaning.functions name.now (Some form)
        (round_in round.old world.old.0) number)) }
    ensures marks { (worlds : Worlds) → IsWorldMarked worlds world.old.1
        → IsWorldMarked worlds world.new.1 }
{
    let Ok(text) = admission_text(round.alloc(), world, name) else {
        return Err(Unadded::OutOfMemory);
    };
    let Ok(outcome) = round.add_form(world, macros, text.as_slice()) else {
        return Err(Unadded::OutOfMemory);
    };
    match refusal_in(&outcome) {
        Some(number) => Ok(Some(number)),
        None => {
            if entry_property(world, name).is_some() {
                return Ok(None);
            }
            Err(Unadded::Refused(NO_ENTRY))
        }
    }
}

// The number with which a form was refused. No form takes a snapshot.
fn refusal_in(outcome: &Outcome) -> Option<u16>
    ensures { result ≡ refusal_of (told_by outcome.now) }
{
    match outcome {
        Outcome::Accepted(_) => None,
        Outcome::Refused(number) => Some(*number),
        Outcome::Snapshotted => Some(0),
    }
}

// A message that is carried out, or of a client that goes.
fn answer_later<R: MacroFunctions>(
    round: &mut Round,
    world: &mut World,
    macros: &WholeMacros<R>,
    message: ClientMessage<'_>,
) -> Result<(), Unadded>
    requires named { is_a_name message.name.now ≡ true }
    requires there { IsSome (entry_property world.old.0 message.name.now) }
    ensures answered { OnOk result ((round_in round.new world.new.0)
        ≡ by_later R.Meaning.functions message.entry.number message.entry.name.now (form_told message.entry)
        (round_in round.old world.old.0)) }
    ensures kept { OnOk result (KeepsAnswerAt message.entry.number message.entry.name.now
        (form_told message.entry) (round_in round.old world.old.0) (round_in round.new world.new.0)) }
    ensures made { OnOk result (StaysMade R.Meaning.functions
        (round_in round.old world.old.0) (round_in round.new world.new.0)) }
    ensures refused { IfErr result (λ cause. IfRefused cause
        (RefusesMessageAt R.Meaning.functions message.entry.name.now (form_told message.entry)
        (round_in round.old world.old.0))) }
    ensures marks { (worlds : Worlds) → IsWorldMarked worlds world.old.1
        → IsWorldMarked worlds world.new.1 }
{
    match message.form {
        Some(form) => keep_answer(round, world, macros, message.number, message.name, form),
        None => take_out(round, world, macros, message.name),
    }
}

// Carries a message out, and keeps its answer.
fn keep_answer<R: MacroFunctions>(
    round: &mut Round,
    world: &mut World,
    macros: &WholeMacros<R>,
    number: u64,
    name: &[u8],
    form: &[u8],
) -> Result<(), Unadded>
    requires named { is_a_name name.now ≡ true }
    requires there { IsSome (entry_property world.old.0 name.now) }
    ensures answered { OnOk result ((round_in round.new world.new.0)
        ≡ with_kept R.Meaning.functions number name.now form.now (round_in round.old world.old.0)) }
    ensures kept { OnOk result (HasAnswer number name.now form.now (round_in round.old world.old.0)
        (round_in round.new world.new.0)) }
    ensures made { OnOk result (StaysMade R.Meaning.functions
        (round_in round.old world.old.0) (round_in round.new world.new.0)) }
    ensures refused { IfErr result (λ cause. cause ≡ Unadded.OutOfMemory) }
    ensures marks { (worlds : Worlds) → IsWorldMarked worlds world.old.1
        → IsWorldMarked worlds world.new.1 }
{
    world.soundness();
    let last = round.last_number();
    let Ok(()) = round.carry_out_cleared(world, macros, last, form) else {
        return Err(Unadded::OutOfMemory);
    };
    match put_entry(round, world, number, name, form) {
        Ok(()) => Ok(()),
        Err(_) => Err(Unadded::OutOfMemory),
    }
}

// Makes the last answer that of the entry of a client, whose symbols are there.
fn put_entry(
    round: &mut Round,
    world: &mut World,
    number: u64,
    name: &[u8],
    form: &[u8],
) -> Result<(), AllocError>
    requires named { is_a_name name.now ≡ true }
    requires there { HasEntrySymbols world.old.0 name.now }
    ensures put { OnOk result ((told : List (List ℕ × Bool)) (answer : List ℕ × Bool)
        → (round_in round.old world.old.0).told ≡ told ++ answer ∷ []
        → round_in round.new world.new.0
        ≡ with_entry_kept name.now number (kept_message form.now answer.0) (round_in round.old world.old.0)) }
    ensures made { OnOk result ((functions : Functions)
        → StaysMade functions (round_in round.old world.old.0) (round_in round.new world.new.0)) }
    ensures marks { (worlds : Worlds) → IsWorldMarked worlds world.old.1
        → IsWorldMarked worlds world.new.1 }
{
    world.soundness();
    let alloc = round.alloc();
    let kept = kept_of(form, round.last_answer());
    let text = entry_text(alloc, name, number, kept)?;
    let value = datum_of(alloc, number, kept)?;
    let home = TABLE_PACKAGE;
    let symbol = BorrowedSymbol { home, name };
    let indicator = BorrowedSymbol {
        home,
        name: MESSAGE_NAME,
    };
    round.add_property(world, symbol, indicator, value, text)
}

// Takes the entry of a client out.
fn take_out<R: MacroFunctions>(
    round: &mut Round,
    world: &mut World,
    macros: &WholeMacros<R>,
    name: &[u8],
) -> Result<(), Unadded>
    ensures answered { OnOk result ((round_in round.new world.new.0)
        ≡ without_client R.Meaning.functions name.now (round_in round.old world.old.0)) }
    ensures kept { OnOk result (entry_property world.new.0 name.now ≡ None) }
    ensures made { OnOk result (StaysMade R.Meaning.functions
        (round_in round.old world.old.0) (round_in round.new world.new.0)) }
    ensures refused { IfErr result (λ cause. IfRefused cause
        (RefusesMessageAt R.Meaning.functions name.now None (round_in round.old world.old.0))) }
    ensures marks { (worlds : Worlds) → IsWorldMarked worlds world.old.1
        → IsWorldMarked worlds world.new.1 }
{
    let Ok(text) = leaving_text(round.alloc(), world, name) else {
        return Err(Unadded::OutOfMemory);
    };
    let Ok(_) = round.add_form(world, macros, text.as_slice()) else {
        return Err(Unadded::OutOfMemory);
    };
    if entry_property(world, name).is_some() {
        return Err(Unadded::Refused(NO_ENTRY));
    }
    tell(round, b"NIL", true)
}
