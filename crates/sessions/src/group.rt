// The answers to the forms of a group.
ghost use Rattle.std.specs.Prelude.{◌≡◌, ◌+◌, ◌<◌, ◌≤◌, ◌^◌, List, ℕ, Some, drop, length};
ghost use Rattle.lisp_object.specs.Datum.{object_of};
ghost use Rattle.plist_state.specs.State.{WorldState};
ghost use Rattle.sessions.specs.declared.group.Grouped.TheVariants.{Answered, Left, Ended as HasEnded};
ghost use Rattle.sessions.specs.declared.ending.Ended.{Ended};
ghost use Rattle.sessions.specs.steps.Answer.{IsFormOf};
ghost use Rattle.sessions.specs.steps.Course.{course_of};
ghost use Rattle.sessions.specs.steps.Gather.{AnswersGroup, BeginsWhole};
ghost use Rattle.sessions.specs.steps.Standing.{AcknowledgesNone, HandsOn, StandsAtWhole};

use crate::course::Course;
use crate::ending::Ended;
use crate::gather::GroupLimit;
use crate::input::PlacedForm;
use crate::recipient::Recipient;
use crate::schedule::room_before_grown;
use crate::whole_forms::{WholeForms, take_group};
use disk_trait::Disk;
use lisp_object::refusal::{DEVICE, OUTPUT};
use prevalence_store::{Store, Unlogged};
use session_words::SessionOptions;
use user_macros::MacroFunctions;

/// What became of a group.
#[derive(Clone, Copy)]
pub(crate) enum Grouped {
    /// Its forms were answered; those after the first take so many bytes.
    Answered(usize),
    /// The session has ended in it.
    Ended(Ended),
    /// Nothing was done: its forms are to be answered one by one.
    Left,
}

// Answers a form that was read, and those that stand whole after it in a piece, once they are logged together. They are left if
// the session has no groups, if a snapshot is due after the first if it writes, if the half has no room for them, if memory
// runs out, or if the first is refused and the session is strict or its recipient listens.
pub(crate) fn answer_group<D: Disk, R: MacroFunctions, W: Recipient<D, R>>(
    store: &mut Store<D, R>,
    writer: &mut W,
    wanted: SessionOptions,
    course: &mut Course,
    first: &PlacedForm,
    rest: &[u8],
) -> Grouped
    // The form was read in the world of the store, the recipient stands before it, and its places have room.
    requires form { IsFormOf R.Meaning.functions store.old.world wanted.mode first.now.read
        first.now.own.items }
    requires stands { StandsAtWhole R.Meaning.functions D.state (W.account writer.old) store.old
        wanted.mode (object_of first.now.read.datum) first.now.own.items first.now.next rest.now }
    requires some { 0 < first.now.next }
    requires forms { (course_of course.old).forms ≤ (course_of course.old).bytes }
    requires room { (course_of course.old).bytes + first.now.next + length rest.now < 2 ^ 63 }

    // What became of it and of those after it, and what the recipient was handed.
    ensures answers { (world : WorldState) → store.old.world ≡ Some world
        → (text : List ℕ) → BeginsWhole R.Meaning.functions world wanted.mode text
        (object_of first.now.read.datum) first.now.own.items first.now.next
        → drop first.now.next text ≡ rest.now
        → AnswersGroup R.Meaning.functions wanted D.state (course_of course.old) (course_of course.new)
        store.old store.new world text rest.now (W.contents writer.old) (W.contents writer.new) result }
    ensures left { result ≡ Left
        → (store.new ≡ store.old) × (writer.new ≡ writer.old) × (course.new ≡ course.old) }
    ensures hands { (count : ℕ) → result ≡ Answered count
        → HandsOn R.Meaning.functions D.state (course_of course.old).forms (course_of course.new).forms
        (W.account writer.old) (W.account writer.new) store.new }
    ensures under_way { (ended : Ended) → result ≡ HasEnded ended
        → AcknowledgesNone R.Meaning.functions D.state (W.account writer.new) store.new }

    // No more forms are counted than bytes, and no more bytes than the forms took that were answered.
    ensures within { (count : ℕ) → result ≡ Answered count → count ≤ length rest.now }
    ensures forms { (course_of course.new).forms ≤ (course_of course.new).bytes }
    ensures bytes { (count : ℕ) → result ≡ Answered count
        → (course_of course.new).bytes ≤ (course_of course.old).bytes + first.now.next + count }
    ensures most { (course_of course.new).bytes
        ≤ (course_of course.old).bytes + first.now.next + length rest.now }
    ensures first { W.first writer.new ≡ W.first writer.old }
    ensures honest { (D.state store.new.disk).honest ≡ (D.state store.old.disk).honest }
{
    let forms = course.schedule.before_due();
    if !wanted.group || forms == 0 {
        return Grouped::Left;
    }
    let bytes = room_before_grown(store, course.schedule.ratio);
    let limit = GroupLimit {
        forms,
        bytes,
        version: store.version(),
    };
    let turn = WholeForms {
        wanted,
        limit,
        first,
        rest,
    };
    let made = match take_group(store, &turn, writer.is_listening()) {
        Ok(made) => made,
        Err(cause) => {
            if matches!(cause, Unlogged::DeviceFault) {
                return Grouped::Ended(Ended::Store(DEVICE));
            }
            return Grouped::Left;
        }
    };
    let gathered = match made {
        Some(gathered) => gathered,
        None => return Grouped::Left,
    };
    store.keeps_its_world();
    // what is answered is stored: the lines come after the records
    match writer.write_lines(store, gathered.lines.as_slice(), gathered.forms) {
        Ok(()) => {
            course.schedule.pass(gathered.records as u64);
            course.pass_all(gathered.forms, gathered.bytes);
            Grouped::Answered(gathered.bytes - first.next)
        }
        Err(_) => Grouped::Ended(Ended::Store(OUTPUT)),
    }
}
