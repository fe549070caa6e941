// A session: forms from a reader, answers to a writer.
ghost use Rattle.std.specs.Prelude.{◌≡◌, ◌≤◌, ◌<◌, ◌+◌, ◌^◌, ℕ, List, ◌++◌, None, Some, IfOk, OnOk, OnErr, IsSome, false, cond, length, take};
ghost use Rattle.std.specs.Io.{ReadsAtMost};
ghost use Rattle.std.specs.Io.KnownBytes.{ReadConsumes};
ghost use Rattle.lisp_object.specs.declared.refusal.TheConstants.{REOPEN};
ghost use Rattle.plist_state.specs.State.{WorldState};
ghost use Rattle.form_reader.specs.Reader.{fed};
ghost use Rattle.sessions.specs.Account.{Account, AreUnderWay, first_account};
ghost use Rattle.sessions.specs.Pace.{first_pace};
ghost use Rattle.sessions.specs.Serve.{ServesInput, ServesWanted};
ghost use Rattle.sessions.specs.steps.Input.{AreAllThere, AwaitsMore, IsPending, IsSoundFed, PlacesAreWithin, FeedsInput, FeedsPart, FinishesInput};
ghost use Rattle.sessions.specs.steps.Course.{course_of};
ghost use Rattle.sessions.specs.steps.Serve.{AnswersPiece, PieceComesTo, EndsAt, PassesBytes};
ghost use Rattle.sessions.specs.steps.Standing.{AcknowledgesNone, HandsOn, StandsAtEnd, StandsInPiece};

use crate::answer::{answer_fault, answer_read};
use crate::course::Course;
use crate::ending::{Ended, Ending};
use crate::first_of_piece::answer_first;
use crate::group::{Grouped, answer_group};
use crate::input::{Fed, FedPiece, Pending};
use crate::open_world::open_world;
use crate::recipient::Recipient;
use disk_trait::Disk;
use lisp_object::refusal::{INPUT, NO_MEMORY, REOPEN};
use prevalence_store::Store;
use session_words::{Mode, SessionOptions};
use std::alloc::AllocError;
use std::io;
use std::io::Read;
use user_macros::MacroFunctions;

/// The most reads of a session.
const MOST_READS: u64 = 1 << 40;

/// The most bytes of a read, but in a session with groups, whose reads are as large as a pipe.
const MOST_ALONE: usize = 4096;

/// Reads forms to the end of the input, and answers each with a line: its value, or the number and the name of its
/// refusal. A refusal of the reader ends the session, as where the next form begins is undecided.
///
/// The input is read in pieces of at most 4,096 bytes. Each form is answered as soon as the bytes that were read decide
/// it, before the next read; what is kept of the input is what the form that is open needs. The writer is flushed after
/// each line; if only that fails, the session goes on, since the line was taken.
///
/// If the half has no room for the record of a form, it takes one snapshot and tries the form once more. After every
/// `snapshot_every` forms that were logged since it began, their answers written, it takes a snapshot; never if that is
/// 0. One of these for which there is no half is passed over.
///
/// Ends with `Store` and, in this order: 61 at once after an earlier device fault; 64 if a half that holds nothing but
/// the text of the world has no room for a record; 65 if a record has no room, and there is no half for a snapshot; 60
/// if the device failed; 67 if a read failed, or after 2^40 reads; 68 if a write failed or took nothing; 90 if
/// a growth was refused. Of these nothing is written.
pub fn serve<D: Disk, R: MacroFunctions, I: Read, W: Recipient<D, R>>(
    store: &mut Store<D, R>,
    reader: &mut I,
    writer: &mut W,
    mode: Mode,
    snapshot_every: u64,
) -> Ending
    requires begins { (world : WorldState) → store.old.world ≡ Some world
        → (kept : Account D) → W.account writer.old ≡ Some kept
        → kept ≡ first_account world mode (I.remaining reader.old) store.old.disk }
    ensures reopen { store.old.world ≡ None
        → (result ≡ Ending.Store REOPEN) × (store.new ≡ store.old)
        × (reader.new ≡ reader.old) × (writer.new ≡ writer.old) }
    ensures serves { (world : WorldState) → store.old.world ≡ Some world
        → ServesInput R.Meaning.functions D.state false
        (first_pace snapshot_every 0) store.old store.new world mode
        (I.remaining reader.old) (I.remaining reader.new) (W.contents writer.old)
        (W.contents writer.new) result }
    ensures under_way { IsSome store.old.world → (kept : Account D) → W.account writer.new ≡ Some kept
        → AreUnderWay R.Meaning.functions D.state kept store.new }
    ensures first { W.first writer.new ≡ W.first writer.old }
    ensures honest { (D.state store.new.disk).honest ≡ (D.state store.old.disk).honest }
    ensures macros { store.new.macros ≡ store.old.macros }
{
    let wanted = SessionOptions {
        mode,
        snapshot_every,
        snapshot_ratio: 0,
        strict: false,
        group: false,
    };
    match serve_wanted(store, reader, writer, wanted) {
        Ended::End => Ending::End,
        // the second of them never comes, as the session is not strict
        Ended::Unreadable(number, _) | Ended::Unaccepted(number, _) => Ending::Reader(number),
        Ended::Store(number) => Ending::Store(number),
    }
}

/// Serves a session over what a reader gives, as it is wanted. A refusal of the reader is told with its place, counted in the input. If
/// the session is strict, the first form whose evaluation is refused ends it once that form is answered; what was read after it is let
/// go.
///
/// If `snapshot_ratio` is not 0, a snapshot is due also after a form that was logged, once the half in use has at least 1 MiB, and so many
/// times the bytes that it had before its first record. It changes nothing in the count of `snapshot_every`.
///
/// If it has groups, it is read in pieces of at most 65,536 bytes, and the forms that are whole in one of them are evaluated one after the other, and those that
/// write are appended to the log together, for the device calls of one; their lines are written then, before the next
/// read. What is written and what the files hold at the end is what a session without groups gives. A group ends before a
/// form that is not whole or is refused by the reader, before one that is refused if the session is strict or its recipient listens
/// (`Recipient::is_listening`), before one for whose record the half has no room, before the form after which a snapshot may be due, and once 65,536 bytes of lines are held back. Where
/// its first form cannot be in it, or memory runs out in it, that form is answered by itself.
pub fn serve_wanted<D: Disk, R: MacroFunctions, I: Read, W: Recipient<D, R>>(
    store: &mut Store<D, R>,
    reader: &mut I,
    writer: &mut W,
    wanted: SessionOptions,
) -> Ended
    requires begins { (world : WorldState) → store.old.world ≡ Some world
        → (kept : Account D) → W.account writer.old ≡ Some kept
        → kept ≡ first_account world wanted.mode (I.remaining reader.old) store.old.disk }
    ensures reopen { store.old.world ≡ None
        → (result ≡ Ended.Store REOPEN) × (store.new ≡ store.old)
        × (reader.new ≡ reader.old) × (writer.new ≡ writer.old) }
    ensures serves { (world : WorldState) → store.old.world ≡ Some world
        → ServesWanted R.Meaning.functions D.state wanted store.old store.new world
        (I.remaining reader.old) (I.remaining reader.new) (W.contents writer.old)
        (W.contents writer.new) result }
    ensures under_way { IsSome store.old.world → (kept : Account D) → W.account writer.new ≡ Some kept
        → AreUnderWay R.Meaning.functions D.state kept store.new }
    ensures first { W.first writer.new ≡ W.first writer.old }
    ensures honest { (D.state store.new.disk).honest ≡ (D.state store.old.disk).honest }
    ensures macros { store.new.macros ≡ store.old.macros }
{
    if !store.is_open() {
        return Ended::Store(REOPEN);
    }
    store.keeps_its_world();
    let mut pending = Pending::new(store.alloc());
    let mut course = Course::new(wanted);
    let mut buffer = [0u8; 65536];
    let mut reads = 0;
    'reads: while reads < MOST_READS {
        reads += 1;
        let count = match read_piece(reader, &mut buffer, wanted.group) {
            Ok(count) => count,
            Err(_) => return Ended::Store(INPUT),
        };
        if count == 0 {
            return answer_end(store, pending, writer, wanted, &mut course);
        }
        let piece = &buffer[..count];
        match answer_piece(store, &mut pending, writer, wanted, &mut course, piece) {
            Some(ended) => return ended,
            None => {}
        }
    }
    Ended::Store(INPUT)
}

// Answers what these bytes decide, with those that are pending. None if the session goes on; else it has ended so.
fn answer_piece<D: Disk, R: MacroFunctions, W: Recipient<D, R>>(
    store: &mut Store<D, R>,
    pending: &mut Pending,
    writer: &mut W,
    wanted: SessionOptions,
    course: &mut Course,
    piece: &[u8],
) -> Option<Ended>
    // What is pending is of the world of the store, the recipient stands before it, and there is room to count.
    requires pending { AwaitsMore R.Meaning.functions store.old.world wanted.mode pending.old }
    requires stands { StandsInPiece R.Meaning.functions D.state (W.account writer.old) store.old
        wanted.mode pending.old piece.now }
    requires forms { (course_of course.old).forms ≤ (course_of course.old).bytes }
    requires count { (course_of course.old).bytes + fed pending.old.reader + length piece.now < 2 ^ 63 }

    // What the piece comes to, and what the recipient was handed.
    ensures answers { (w : WorldState) → store.old.world ≡ Some w → (bytes : List ℕ)
        → IsPending R.Meaning.functions w wanted.mode pending.old bytes
        → AnswersPiece R.Meaning.functions D.state wanted (course_of course.old) (course_of course.new)
        store.old store.new w wanted.mode
        (bytes ++ piece.now) (W.contents writer.old) (W.contents writer.new) pending.new result }
    ensures hands { result ≡ None
        → HandsOn R.Meaning.functions D.state (course_of course.old).forms (course_of course.new).forms
        (W.account writer.old) (W.account writer.new) store.new }
    ensures under_way { IsSome result
        → AcknowledgesNone R.Meaning.functions D.state (W.account writer.new) store.new }

    // No more forms are counted than bytes; and of bytes, those that were answered and those that are pending, no more than came.
    ensures forms { (course_of course.new).forms ≤ (course_of course.new).bytes }
    ensures count { (course_of course.new).bytes + fed pending.new.reader
        ≤ (course_of course.old).bytes + fed pending.old.reader + length piece.now }
    ensures first { W.first writer.new ≡ W.first writer.old }
    ensures honest { (D.state store.new.disk).honest ≡ (D.state store.old.disk).honest }
{
    let mut rest = piece;
    'forms: while !rest.is_empty() {
        match answer_first(store, pending, writer, wanted, course, rest) {
            Ok(count) => rest = &rest[count..],
            Err(ended) => return Some(ended),
        }
    }
    None
}

// Feeds a piece up to the first byte that decides something, and answers the form that it ends. Gives how many bytes of the
// piece are done with, or how the session has ended.
pub(crate) fn answer_next<D: Disk, R: MacroFunctions, W: Recipient<D, R>>(
    store: &mut Store<D, R>,
    pending: &mut Pending,
    writer: &mut W,
    wanted: SessionOptions,
    course: &mut Course,
    piece: &[u8],
) -> Result<usize, Ended>
    // What is pending is of the world of the store, the recipient stands before it, and there is room to count.
    requires pending { AwaitsMore R.Meaning.functions store.old.world wanted.mode pending.old }
    requires stands { StandsInPiece R.Meaning.functions D.state (W.account writer.old) store.old
        wanted.mode pending.old piece.now }
    requires some { 0 < length piece.now }
    requires forms { (course_of course.old).forms ≤ (course_of course.old).bytes }
    requires count { (course_of course.old).bytes + fed pending.old.reader + length piece.now < 2 ^ 63 }

    // What the piece comes to, and what the recipient was handed.
    ensures answers { (w : WorldState) → store.old.world ≡ Some w → (bytes : List ℕ)
        → IsPending R.Meaning.functions w wanted.mode pending.old bytes
        → PieceComesTo R.Meaning.functions D.state wanted (course_of course.old) (course_of course.new)
        store.old store.new w wanted.mode
        (bytes ++ piece.now) (W.contents writer.old) (W.contents writer.new) pending.new piece.now result }
    ensures some { PassesBytes (fed pending.old.reader) (fed pending.new.reader)
        (length piece.now) result }
    ensures hands { OnOk result
        (HandsOn R.Meaning.functions D.state (course_of course.old).forms (course_of course.new).forms
        (W.account writer.old) (W.account writer.new) store.new) }
    ensures under_way { OnErr result
        (AcknowledgesNone R.Meaning.functions D.state (W.account writer.new) store.new) }

    // No more forms are counted than bytes; and of bytes, those that were answered and those that are pending, no more than came.
    ensures forms { (course_of course.new).forms ≤ (course_of course.new).bytes }
    ensures count { IfOk result (λ count. (course_of course.new).bytes + fed pending.new.reader
        ≤ (course_of course.old).bytes + fed pending.old.reader + count) }
    ensures most { (course_of course.new).bytes + fed pending.new.reader
        ≤ (course_of course.old).bytes + fed pending.old.reader + length piece.now }
    ensures first { W.first writer.new ≡ W.first writer.old }
    ensures honest { (D.state store.new.disk).honest ≡ (D.state store.old.disk).honest }
{
    let FedPiece { fed, count } = match feed(store, pending, wanted.mode, piece) {
        Ok(part) => part,
        Err(_) => return Err(Ended::Store(NO_MEMORY)),
    };
    match fed {
        Fed::Nothing => Ok(count),
        Fed::Refused { number, start, at } => {
            let place = course.place(start, at);
            Err(answer_fault(store, writer, wanted.mode, number).at(place))
        }
        Fed::Form { form, left } => {
            let count = before_left(count, left);
            match answer_group(store, writer, wanted, course, &form, &piece[count..]) {
                Grouped::Answered(more) => Ok(count + more),
                Grouped::Ended(ended) => Err(ended),
                Grouped::Left => match answer_read(store, writer, wanted, course, &form) {
                    Ok(()) => Ok(count),
                    Err(ended) => Err(ended),
                },
            }
        }
    }
}

// Feeds a piece up to the first byte that decides something, as the world reads.
fn feed<D: Disk, R: MacroFunctions>(
    store: &Store<D, R>,
    pending: &mut Pending,
    mode: Mode,
    piece: &[u8],
) -> Result<FedPiece, AllocError>
    requires pending { AwaitsMore R.Meaning.functions store.now.world mode pending.old }
    requires some { 0 < length piece.now }
    requires count { fed pending.old.reader + length piece.now ≤ 2 ^ 63 }
    ensures feeds { (w : WorldState) → store.now.world ≡ Some w → (bytes : List ℕ)
        → IsPending R.Meaning.functions w mode pending.old bytes
        → IfOk result (λ part. FeedsInput R.Meaning.functions w mode pending.new
        (bytes ++ take part.count piece.now) part.fed) }
    ensures part { IfOk result
        (FeedsPart piece.now (fed pending.old.reader) (fed pending.new.reader)) }
    ensures all_there { (w : WorldState) → store.now.world ≡ Some w
        → IfOk result (λ part. AreAllThere w part.fed) }
    ensures count { fed pending.new.reader ≤ fed pending.old.reader + length piece.now }
{
    let world = open_world(store);
    pending.feed(store.alloc(), world, store.macros(), mode, piece)
}

// Answers what is pending at the end of the input.
fn answer_end<D: Disk, R: MacroFunctions, W: Recipient<D, R>>(
    store: &mut Store<D, R>,
    pending: Pending,
    writer: &mut W,
    wanted: SessionOptions,
    course: &mut Course,
) -> Ended
    requires pending { AwaitsMore R.Meaning.functions store.old.world wanted.mode pending }
    requires stands { StandsAtEnd R.Meaning.functions D.state (W.account writer.old) store.old
        wanted.mode pending }
    requires forms { (course_of course.old).forms ≤ (course_of course.old).bytes }
    requires count { (course_of course.old).bytes + fed pending.reader < 2 ^ 63 }
    ensures ends { (w : WorldState) → store.old.world ≡ Some w → (bytes : List ℕ)
        → IsPending R.Meaning.functions w wanted.mode pending bytes
        → EndsAt R.Meaning.functions D.state wanted (course_of course.old) store.old store.new w wanted.mode
        bytes (W.contents writer.old) (W.contents writer.new) result }
    ensures under_way { AcknowledgesNone R.Meaning.functions D.state (W.account writer.new) store.new }
    ensures first { W.first writer.new ≡ W.first writer.old }
    ensures honest { (D.state store.new.disk).honest ≡ (D.state store.old.disk).honest }
{
    let last = match finish(store, pending, wanted.mode) {
        Ok(last) => last,
        Err(_) => return Ended::Store(NO_MEMORY),
    };
    match last {
        Fed::Nothing => Ended::End,
        Fed::Refused { number, start, at } => {
            let place = course.place(start, at);
            answer_fault(store, writer, wanted.mode, number).at(place)
        }
        Fed::Form { form, .. } => match answer_read(store, writer, wanted, course, &form) {
            Ok(()) => Ended::End,
            Err(ended) => ended,
        },
    }
}

// What is pending at the end of the input, as the world reads.
fn finish<D: Disk, R: MacroFunctions>(
    store: &Store<D, R>,
    pending: Pending,
    mode: Mode,
) -> Result<Fed, AllocError>
    requires pending { AwaitsMore R.Meaning.functions store.now.world mode pending }
    requires count { fed pending.reader ≤ 2 ^ 63 }
    ensures finishes { (w : WorldState) → store.now.world ≡ Some w → (bytes : List ℕ)
        → IsPending R.Meaning.functions w mode pending bytes
        → IfOk result (FinishesInput R.Meaning.functions w mode bytes) }
    ensures sound { IfOk result IsSoundFed }
    ensures all_there { (w : WorldState) → store.now.world ≡ Some w
        → IfOk result (AreAllThere w) }
    ensures within { IfOk result (PlacesAreWithin (fed pending.reader)) }
{
    let world = open_world(store);
    pending.finish(store.alloc(), world, store.macros(), mode)
}

// Reads a piece of the input into the front of a buffer. One for groups may take the whole of it.
fn read_piece<I: Read>(reader: &mut I, buffer: &mut [u8], group: bool) -> io::Result<usize>
    requires { 4096 ≤ length buffer.old }
    ensures bound { ReadsAtMost result buffer.new }
    ensures bytes { ReadConsumes (I.remaining reader.old) (I.remaining reader.new) result buffer.new }
    ensures same { length buffer.new ≡ length buffer.old }
{
    if group {
        reader.read(buffer)
    } else {
        reader.read(&mut buffer[..MOST_ALONE])
    }
}

// How many of these bytes a form takes. The byte that is left is read again, as the world is read that the form left.
fn before_left(count: usize, left: bool) -> usize
    requires { 0 < count }
    ensures { result + cond left 1 0 ≡ count }
{
    if left { count - 1 } else { count }
}
