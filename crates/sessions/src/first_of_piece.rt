// What a piece begins with, answered: GET of a property from its text, and all else by its form.
ghost use Rattle.std.specs.Prelude.{◌≡◌, ◌≤◌, ◌<◌, ◌+◌, ◌^◌, ℕ, List, ◌++◌, Some, IfOk, OnOk, OnErr, IsSome, IfSome, length};
ghost use Rattle.form_reader.specs.Reader.{fed};
ghost use Rattle.plist_state.specs.State.{WorldState};
ghost use Rattle.sessions.specs.steps.Course.{course_of};
ghost use Rattle.sessions.specs.steps.PropertyLine.{HasLine};
ghost use Rattle.sessions.specs.steps.Input.{AwaitsMore, IsPending};
ghost use Rattle.sessions.specs.steps.Serve.{PassesBytes, PieceComesTo};
ghost use Rattle.sessions.specs.steps.Standing.{AcknowledgesNone, HandsOn, StandsInPiece};

use crate::course::Course;
use crate::ending::Ended;
use crate::input::{FoundLine, Pending};
use crate::open_world::open_world;
use crate::recipient::Recipient;
use crate::serving::answer_next;
use disk_trait::Disk;
use lisp_object::refusal::OUTPUT;
use prevalence_store::Store;
use session_words::SessionOptions;
use user_macros::MacroFunctions;

// Answers what a piece begins with, as `answer_next` does. Where a session has no groups, GET of a property is answered from its text.
pub(crate) fn answer_first<D: Disk, R: MacroFunctions, W: Recipient<D, R>>(
    store: &mut Store<D, R>,
    pending: &mut Pending,
    writer: &mut W,
    wanted: SessionOptions,
    course: &mut Course,
    piece: &[u8],
) -> Result<usize, Ended>
    // What is pending is of the world of the store, the recipient stands before it, and there is room to count.
    requires pending { AwaitsMore R.Meaning.functions store.old.world wanted.mode pending.old }
    requires stands { StandsInPiece R.Meaning.functions D.state (W.account writer.old) store.old
        wanted.mode pending.old piece.now }
    requires some { 0 < length piece.now }
    requires forms { (course_of course.old).forms ≤ (course_of course.old).bytes }
    requires count { (course_of course.old).bytes + fed pending.old.reader + length piece.now < 2 ^ 63 }

    // What the piece comes to, and what the recipient was handed.
    ensures answers { (w : WorldState) → store.old.world ≡ Some w → (bytes : List ℕ)
        → IsPending R.Meaning.functions w wanted.mode pending.old bytes
        → PieceComesTo R.Meaning.functions D.state wanted (course_of course.old) (course_of course.new)
        store.old store.new w wanted.mode
        (bytes ++ piece.now) (W.contents writer.old) (W.contents writer.new) pending.new piece.now result }
    ensures some { PassesBytes (fed pending.old.reader) (fed pending.new.reader)
        (length piece.now) result }
    ensures hands { OnOk result
        (HandsOn R.Meaning.functions D.state (course_of course.old).forms (course_of course.new).forms
        (W.account writer.old) (W.account writer.new) store.new) }
    ensures under_way { OnErr result
        (AcknowledgesNone R.Meaning.functions D.state (W.account writer.new) store.new) }

    // No more forms are counted than bytes; and of bytes, those that were answered and those that are pending, no more than came.
    ensures forms { (course_of course.new).forms ≤ (course_of course.new).bytes }
    ensures count { IfOk result (λ count. (course_of course.new).bytes + fed pending.new.reader
        ≤ (course_of course.old).bytes + fed pending.old.reader + count) }
    ensures most { (course_of course.new).bytes + fed pending.new.reader
        ≤ (course_of course.old).bytes + fed pending.old.reader + length piece.now }
    ensures first { W.first writer.new ≡ W.first writer.old }
    ensures honest { (D.state store.new.disk).honest ≡ (D.state store.old.disk).honest }
{
    match found_line(store, pending, wanted, piece) {
        None => answer_next(store, pending, writer, wanted, course, piece),
        Some(found) => {
            store.keeps_its_world();
            let fresh = Pending::new(store.alloc());
            match writer.write_lines(store, found.line.as_slice(), 1) {
                Ok(()) => {
                    course.pass(found.next);
                    *pending = fresh;
                    Ok(found.count)
                }
                Err(_) => Err(Ended::Store(OUTPUT)),
            }
        }
    }
}

// The line of GET of a property with which a piece begins, if the session has no groups.
fn found_line<D: Disk, R: MacroFunctions>(
    store: &Store<D, R>,
    pending: &Pending,
    wanted: SessionOptions,
    piece: &[u8],
) -> Option<FoundLine>
    requires pending { AwaitsMore R.Meaning.functions store.now.world wanted.mode pending.now }
    requires count { fed pending.now.reader + length piece.now < 2 ^ 63 }
    ensures has { (w : WorldState) → store.now.world ≡ Some w → (bytes : List ℕ)
        → IsPending R.Meaning.functions w wanted.mode pending.now bytes
        → IfSome result (HasLine R.Meaning.functions w wanted.mode bytes piece.now) }
    ensures within { IfSome result (λ f. (0 < f.count) × (f.count ≤ length piece.now)) }
    ensures places { IfSome result
        (λ f. (f.count ≤ f.next) × (f.next ≤ fed pending.now.reader + f.count)) }
{
    if wanted.group {
        return None;
    }
    pending.find_line(store.alloc(), open_world(store), wanted.mode, piece)
}
