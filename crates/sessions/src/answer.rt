// The answer to a form, and to a refusal of the reader.
ghost use Rattle.std.specs.Option.{option_map};
ghost use Rattle.std.specs.Prelude.{◌≡◌, Result, ◌≤◌, ◌<◌, ◌+◌, ◌^◌, ℕ, List, Some, IsSome, IfOk, IfErr, OnOk, OnErr};
ghost use Rattle.form_eval.specs.Laws.{MayEvaluate};
ghost use Rattle.lisp_object.specs.Datum.{object_of};
ghost use Rattle.lisp_object.specs.declared.refusal.TheConstants.{LOG_FULL};
ghost use Rattle.lisp_operators.specs.declared.evaluated.Evaluated.{Evaluated};
ghost use Rattle.plist_state.specs.State.{WorldState, Worlds};
ghost use Rattle.sessions.specs.Account.{Account, AreStored, with_forms};
ghost use Rattle.sessions.specs.Streams.{Writes, WritesPart};
ghost use Rattle.sessions.specs.steps.Forms.{Failure};
ghost use Rattle.sessions.specs.steps.Answer.{AnswersFault, AnswersForm, AnswersRead, BeginsWithForm, FitsForm, IsFormOf, IsReplyTo, MayBeHeard, TriesForm, refusal_that_ends, was_logged};
ghost use Rattle.prevalence_store.specs.steps.Batch.{IsWorldMarked};
ghost use Rattle.sessions.specs.steps.Course.{course_of};
ghost use Rattle.sessions.specs.steps.Schedule.{pace_of};
ghost use Rattle.sessions.specs.steps.Standing.{AcknowledgesNone, HandsOn, StandsAtForm, StandsAtRefusal};

use crate::course::Course;
use crate::ending::{Ended, Ending};
use crate::input::PlacedForm;
use crate::one_form::take_reply;
use crate::open_world::open_world;
use crate::output::{line_of_refusal, line_of_value};
use crate::recipient::{OutputFault, Recipient, SessionForm};
use crate::refusal::RefusalVisit;
use crate::schedule::{Schedule, renew, renew_after_form};
use disk_trait::Disk;
use form_eval::ReadForm;
use lisp_object::refusal::{LOG_FULL, NO_MEMORY, OUTPUT};
use plist_state::World;
use prevalence_store::{Batch, Store, Unadded, WholeMacros};
use session_words::{Mode, SessionOptions};
use std::alloc::AllocError;
use user_macros::MacroFunctions;

/// What became of a form that was answered.
#[derive(Clone, Copy)]
pub(crate) enum Answered {
    /// It was accepted; `logged` if it was.
    Accepted { logged: bool },
    /// Its evaluation was refused, with this number.
    Refused(u16),
}

/// What answers a form: its line, and what became of it.
#[derive(Drop)]
pub(crate) struct Reply {
    pub(crate) line: Vec<u8>,
    pub(crate) answered: Answered,
}

impl Answered {
    /// Whether the form was logged.
    pub(crate) fn is_logged(self) -> bool
        ensures { result ≡ was_logged self }
    {
        match self {
            Answered::Accepted { logged } => logged,
            Answered::Refused(_) => false,
        }
    }

    /// The number of the refusal, if it ends a session that may be strict.
    pub(crate) fn refusal_that_ends(self, strict: bool) -> Option<u16>
        ensures { result ≡ refusal_that_ends strict self }
    {
        match self {
            Answered::Refused(number) if strict => Some(number),
            _ => None,
        }
    }
}

// Answers a refusal of the reader, and ends the session.
pub(crate) fn answer_fault<D: Disk, R: MacroFunctions, W: Recipient<D, R>>(
    store: &mut Store<D, R>,
    writer: &mut W,
    mode: Mode,
    number: u16,
) -> Ending
    requires is_open { IsSome store.old.world }
    requires stands { StandsAtRefusal R.Meaning.functions D.state
        (W.account writer.old) store.old mode number }
    ensures answers { AnswersFault number (W.contents writer.old) (W.contents writer.new) result }
    ensures under_way { AcknowledgesNone R.Meaning.functions D.state (W.account writer.new) store.new }
    ensures first { W.first writer.new ≡ W.first writer.old }
    ensures same { store.new ≡ store.old }
{
    let Ok(line) = line_of_refusal(store.alloc(), number) else {
        return Ending::Store(NO_MEMORY);
    };
    store.keeps_its_world();
    match writer.write_lines(store, line.as_slice(), 0) {
        Ok(()) => Ending::Reader(number),
        Err(_) => Ending::Store(OUTPUT),
    }
}

// Answers a form that was read, and passes over its bytes. Gives how the session has ended, if it has: in a fault, or, if it
// is strict, as the form was refused.
pub(crate) fn answer_read<D: Disk, R: MacroFunctions, W: Recipient<D, R>>(
    store: &mut Store<D, R>,
    writer: &mut W,
    wanted: SessionOptions,
    course: &mut Course,
    form: &PlacedForm,
) -> Result<(), Ended>
    // The form was read in the world of the store, the recipient stands before it, and its places have room.
    requires form { IsFormOf R.Meaning.functions store.old.world wanted.mode form.now.read
        form.now.own.items }
    requires stands { StandsAtForm R.Meaning.functions D.state (W.account writer.old) store.old
        wanted.mode (object_of form.now.read.datum) form.now.own.items }
    requires order { form.now.start < form.now.next }
    requires forms { (course_of course.old).forms ≤ (course_of course.old).bytes }
    requires room { (course_of course.old).bytes + form.now.next < 2 ^ 63 }

    // What became of it, and what the recipient was handed.
    ensures answers { (w : WorldState) → store.old.world ≡ Some w → (text : List ℕ) (next : ℕ)
        → (begins : BeginsWithForm R.Meaning.functions w wanted.mode text
        (object_of form.now.read.datum) form.now.own.items next)
        → begins.start ≡ form.now.start
        → AnswersRead R.Meaning.functions D.state (course_of course.old)
        (course_of course.new) store.old store.new w wanted
        text (W.contents writer.old) (W.contents writer.new) form.now.start form.now.next result }
    ensures hands { OnOk result
        (HandsOn R.Meaning.functions D.state (course_of course.old).forms (course_of course.new).forms
        (W.account writer.old) (W.account writer.new) store.new) }
    ensures under_way { OnErr result
        (AcknowledgesNone R.Meaning.functions D.state (W.account writer.new) store.new) }

    // No more forms are counted than bytes, and no more bytes than the form took.
    ensures forms { (course_of course.new).forms ≤ (course_of course.new).bytes }
    ensures bytes { (course_of course.new).bytes ≤ (course_of course.old).bytes + form.now.next }
    ensures first { W.first writer.new ≡ W.first writer.old }
    ensures honest { (D.state store.new.disk).honest ≡ (D.state store.old.disk).honest }
{
    let place = course.place(form.start, form.start);
    let own = form.own.as_slice();
    let read = &form.read;
    let placed = SessionForm { read, own, place };
    let schedule = &mut course.schedule;
    match answer_form(store, writer, wanted.mode, schedule, &placed) {
        Err(number) => Err(Ended::Store(number)),
        Ok(answered) => {
            course.pass(form.next);
            if wanted.strict {
                if let Answered::Refused(number) = answered {
                    return Err(Ended::Unaccepted(number, place));
                }
            }
            Ok(())
        }
    }
}

// Answers a form that was read, and takes a snapshot if one is due after it. Gives what became of it, or the number of the
// fault that ends the session in it.
pub(crate) fn answer_form<D: Disk, R: MacroFunctions, W: Recipient<D, R>>(
    store: &mut Store<D, R>,
    writer: &mut W,
    mode: Mode,
    schedule: &mut Schedule,
    form: &SessionForm<'_>,
) -> Result<Answered, u16>
    requires form { IsFormOf R.Meaning.functions store.old.world mode form.now.read.now form.now.own.now }
    requires stands { StandsAtForm R.Meaning.functions D.state (W.account writer.old) store.old
        mode (object_of form.now.read.now.datum) form.now.own.now }
    ensures answers { (w : WorldState) → store.old.world ≡ Some w → (text : List ℕ) (next : ℕ)
        → BeginsWithForm R.Meaning.functions w mode text
        (object_of form.now.read.now.datum) form.now.own.now next
        → AnswersForm R.Meaning.functions D.state store.old store.new w mode
        (pace_of schedule.old) (pace_of schedule.new)
        text (W.contents writer.old) (W.contents writer.new) result }
    ensures hands { OnOk result
        (HandsOn R.Meaning.functions D.state 0 1 (W.account writer.old) (W.account writer.new) store.new) }
    ensures under_way { OnErr result
        (AcknowledgesNone R.Meaning.functions D.state (W.account writer.new) store.new) }
    ensures first { W.first writer.new ≡ W.first writer.old }
    ensures honest { (D.state store.new.disk).honest ≡ (D.state store.old.disk).honest }
{
    match fit_form(store, writer, mode, form, schedule.ratio) {
        Ok(answered) => match renew_after_form(store, schedule, answered.is_logged()) {
            None => Ok(answered),
            Some(number) => Err(number),
        },
        Err(number) => Err(number),
    }
}

// Answers a form that was read. If the half has no room for it, it takes a snapshot, and tries once more. Gives what
// became of the form, or the number of the fault that ends the session in it.
fn fit_form<D: Disk, R: MacroFunctions, W: Recipient<D, R>>(
    store: &mut Store<D, R>,
    writer: &mut W,
    mode: Mode,
    form: &SessionForm<'_>,
    ratio: u64,
) -> Result<Answered, u16>
    requires form { IsFormOf R.Meaning.functions store.old.world mode form.now.read.now form.now.own.now }
    requires stands { StandsAtForm R.Meaning.functions D.state (W.account writer.old) store.old
        mode (object_of form.now.read.now.datum) form.now.own.now }
    ensures fits { (w : WorldState) → store.old.world ≡ Some w → (text : List ℕ) (next : ℕ)
        → BeginsWithForm R.Meaning.functions w mode text
        (object_of form.now.read.now.datum) form.now.own.now next
        → FitsForm R.Meaning.functions D.state store.old store.new w mode
        text (W.contents writer.old) (W.contents writer.new) result }
    ensures is_open { OnOk result (IsSome store.new.world) }
    ensures hands { OnOk result
        (HandsOn R.Meaning.functions D.state 0 1 (W.account writer.old) (W.account writer.new) store.new) }
    ensures under_way { OnErr result
        (AcknowledgesNone R.Meaning.functions D.state (W.account writer.new) store.new) }
    ensures first { W.first writer.new ≡ W.first writer.old }
    ensures honest { (D.state store.new.disk).honest ≡ (D.state store.old.disk).honest }
{
    match try_form(store, writer, mode, form) {
        Ok(answered) => Ok(answered),
        Err(number) => {
            if number != LOG_FULL {
                return Err(number);
            }
            // a half that was just begun holds the text of the world alone: what does not fit there fits nowhere
            if let Err(number) = renew(store, ratio) {
                return Err(number);
            }
            try_form(store, writer, mode, form)
        }
    }
}

// Evaluates a form that was read, logs it if it writes, and answers it. Gives what became of it, or the number of the
// fault that ends the session in it; with 64 nothing was done.
fn try_form<D: Disk, R: MacroFunctions, W: Recipient<D, R>>(
    store: &mut Store<D, R>,
    writer: &mut W,
    mode: Mode,
    form: &SessionForm<'_>,
) -> Result<Answered, u16>
    // The form was read in the world of the store, and the recipient stands before it.
    requires form { IsFormOf R.Meaning.functions store.old.world mode form.now.read.now form.now.own.now }
    requires stands { StandsAtForm R.Meaning.functions D.state (W.account writer.old) store.old
        mode (object_of form.now.read.now.datum) form.now.own.now }

    // What became of it: with 64 nothing was done.
    ensures tries { (w : WorldState) → store.old.world ≡ Some w → (text : List ℕ) (next : ℕ)
        → BeginsWithForm R.Meaning.functions w mode text
        (object_of form.now.read.now.datum) form.now.own.now next
        → TriesForm R.Meaning.functions D.state store.old store.new w mode
        text (W.contents writer.old) (W.contents writer.new) result }
    ensures unchanged { IfErr result (λ number. number ≡ LOG_FULL → store.new ≡ store.old) }
    ensures quiet { IfErr result (λ number. number ≡ LOG_FULL → writer.new ≡ writer.old) }

    // It was handed the line of this form, whose record is stored; or, where the session ends, nothing that was done is acknowledged.
    ensures is_open { OnOk result (IsSome store.new.world) }
    ensures hands { OnOk result
        (HandsOn R.Meaning.functions D.state 0 1 (W.account writer.old) (W.account writer.new) store.new) }
    ensures under_way { OnErr result
        (AcknowledgesNone R.Meaning.functions D.state (W.account writer.new) store.new) }
    ensures first { W.first writer.new ≡ W.first writer.old }
    ensures honest { (D.state store.new.disk).honest ≡ (D.state store.old.disk).honest }
{
    open_world(store).soundness();
    let reply = match take_reply(store, mode, form.read, form.own) {
        Ok(reply) => reply,
        Err(failure) => return Err(failure.number()),
    };
    store.keeps_its_world();
    // what is answered is stored: a line comes after its record
    match hand_on(store, writer, &reply, form) {
        Ok(()) => Ok(reply.answered),
        Err(_) => Err(OUTPUT),
    }
}

// Hands the line of a form on. Of one that was refused the recipient hears first.
fn hand_on<D: Disk, R: MacroFunctions, W: Recipient<D, R>>(
    store: &mut Store<D, R>,
    writer: &mut W,
    reply: &Reply,
    form: &SessionForm<'_>,
) -> Result<(), OutputFault>
    requires is_open { IsSome store.old.world }
    requires heard { MayBeHeard R.Meaning.functions store.old.world reply.now.answered form.now.read.now }
    requires stored { (kept : Account D) → W.account writer.old ≡ Some kept
        → AreStored R.Meaning.functions D.state kept store.old reply.now.line.items 1 }
    ensures whole { OnOk result
        (Writes (W.contents writer.old) (W.contents writer.new) reply.now.line.items) }
    ensures part { OnErr result
        (WritesPart (W.contents writer.old) (W.contents writer.new) reply.now.line.items) }
    ensures kept { (later : Account D) → W.account writer.new ≡ Some later
        → option_map (with_forms 1 store.old) (W.account writer.old) ≡ Some later }
    ensures first { W.first writer.new ≡ W.first writer.old }
    ensures same { store.new ≡ store.old }
{
    tell_refusal(store, writer, reply.answered, form);
    writer.write_lines(store, reply.line.as_slice(), 1)
}

// Tells the recipient of a form, if it was refused.
fn tell_refusal<D: Disk, R: MacroFunctions, W: Recipient<D, R>>(
    store: &mut Store<D, R>,
    writer: &mut W,
    answered: Answered,
    form: &SessionForm<'_>,
)
    requires is_open { IsSome store.old.world }
    requires heard { MayBeHeard R.Meaning.functions store.old.world answered form.now.read.now }
    ensures unwritten { W.contents writer.new ≡ W.contents writer.old }
    ensures kept { W.account writer.new ≡ W.account writer.old }
    ensures first { W.first writer.new ≡ W.first writer.old }
    ensures same { store.new ≡ store.old }
{
    if let Answered::Refused(number) = answered {
        let refusal = RefusalVisit {
            number,
            form: *form,
        };
        store.visit(&refusal, writer);
    }
}

/// Adds a form to a batch, and makes the line that answers it. After an error, want of memory alone, the world and the
/// batch may have changed: the marks of the world lead back.
pub(crate) fn reply_to<R: MacroFunctions>(
    world: &mut World,
    macros: &WholeMacros<R>,
    mode: Mode,
    batch: &mut Batch,
    form: &ReadForm,
    own: &[u8],
) -> Result<Reply, AllocError>
    requires form { MayEvaluate world.old.0.packages form.now }
    ensures replies { IfOk result (λ reply. (answer : Result Evaluated Failure)
        × IsReplyTo R.Meaning.functions.names mode (object_of form.now.datum)
        own.now world.old.0 world.new.0 batch.old batch.new reply answer) }
    ensures marks { (worlds : Worlds) → IsWorldMarked worlds world.old.1
        → IsWorldMarked worlds world.new.1 }
{
    let alloc = batch.alloc;
    match batch.add(world, macros, mode, form, own) {
        Ok(evaluated) => {
            let line = line_of_value(alloc, world, &evaluated)?;
            let logged = evaluated.wrote;
            let answered = Answered::Accepted { logged };
            Ok(Reply { line, answered })
        }
        Err(Unadded::Refused(number)) => {
            let line = line_of_refusal(alloc, number)?;
            let answered = Answered::Refused(number);
            Ok(Reply { line, answered })
        }
        Err(_) => Err(AllocError),
    }
}
