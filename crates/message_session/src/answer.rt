// The answers to frames: from the store, and to the output.
ghost use Rattle.std.specs.Prelude.{◌≡◌, ℕ, ◌<◌, ◌≤◌, length, map, take, IfErr, IfOk, OnOk, Some};
ghost use Rattle.std.specs.List.{flat_map};
ghost use Rattle.message_frames.specs.Frames.{answer_bytes, sent_frame};
ghost use Rattle.message_session.specs.FrameAnswers.{AskAlike, frame_of_each_answer, frame_of_request};
ghost use Rattle.message_session.specs.Standing.{AnswersMore, FramesComeNext, RestsAt, RestsOrEnds, RestsOrStops};
ghost use Rattle.message_session.specs.Steps.{AnswersFront, AnswersFrames, RenewsForRoom, RenewsWhereDue, StopsAfter, TakesFrames, TakesWithRoom, ended_by};
ghost use Rattle.plist_state.specs.Sound.{IsSoundWorldState};
ghost use Rattle.plist_state.specs.State.{WorldState};
ghost use Rattle.messages.specs.Rounds.{told_in};

use crate::ended::MessagesEnd;
use crate::recipient::AnswerRecipient;
use client_table::{AnyRequest, Named, answer_first_asked};
use disk_trait::Disk;
use lisp_object::refusal::{LOG_FULL, NO_MEMORY, OUTPUT, SNAPSHOT_TOO_LARGE};
use message_frames::{Kind, MessageFrame, push_answer};
use messages::{Replies, Request, RequestAnswer};
use prevalence_store::{Outcome, Store};
use std::alloc::{AllocError, Global};
use user_macros::MacroFunctions;

/// The most clients that the table of a store has.
pub const MOST_CLIENTS: u64 = 16_384;

/// How far a session has come: the number of the last message, and how many messages wrote since the last snapshot.
#[derive(Clone, Copy)]
pub(crate) struct MessageCourse {
    pub(crate) last: u64,
    pub(crate) wrote: u64,
    pub(crate) snapshot_every: u64,
}

impl MessageCourse {
    /// The most frames that are answered together: as many as may write before the next snapshot.
    pub(crate) fn most(&self) -> usize
        ensures { 1 ≤ result }
    {
        if self.snapshot_every == 0 {
            return usize::MAX;
        }
        self.snapshot_every.saturating_sub(self.wrote).max(1) as usize
    }

    /// Takes a snapshot if one is due.
    fn renew_if_due<D: Disk, R: MacroFunctions>(
        &mut self,
        store: &mut Store<D, R>,
    ) -> Result<(), MessagesEnd>
        ensures renews { (w : WorldState) → store.old.world ≡ Some w
            → RenewsWhereDue R.Meaning.functions D.state store.old store.new w result }
        ensures last { self.new.last ≡ self.old.last }
        ensures macros { store.new.macros ≡ store.old.macros }
    {
        if self.snapshot_every == 0 || self.wrote < self.snapshot_every {
            return Ok(());
        }
        self.wrote = 0;
        renew(store)
    }
}

/// Does nothing. Its clause says that the world of each store is sound.
pub(crate) fn its_world_is_sound<D: Disk, R: MacroFunctions>(store: &Store<D, R>)
    ensures { (w : WorldState) → store.now.world ≡ Some w → IsSoundWorldState w }
{
    match store.world() {
        Some(world) => world.soundness(),
        None => {}
    }
}

// Takes a snapshot. One that is too large for the half is passed over.
fn renew<D: Disk, R: MacroFunctions>(store: &mut Store<D, R>) -> Result<(), MessagesEnd>
    ensures renews { (w : WorldState) → store.old.world ≡ Some w
        → RenewsWhereDue R.Meaning.functions D.state store.old store.new w result }
    ensures macros { store.new.macros ≡ store.old.macros }
{
    match store.snapshot() {
        Outcome::Refused(SNAPSHOT_TOO_LARGE) => Ok(()),
        Outcome::Refused(number) => Err(MessagesEnd::Fault(number)),
        _ => Ok(()),
    }
}

/// Takes a snapshot for what has no room, or gives the number of its refusal.
pub(crate) fn renew_for_room<D: Disk, R: MacroFunctions>(store: &mut Store<D, R>) -> Result<(), u16>
    ensures renews { (w : WorldState) → store.old.world ≡ Some w
        → RenewsForRoom R.Meaning.functions D.state store.old store.new w result }
    ensures macros { store.new.macros ≡ store.old.macros }
{
    match store.snapshot() {
        Outcome::Refused(number) => Err(number),
        _ => Ok(()),
    }
}

// Why frames were not answered together.
#[derive(Clone, Copy)]
enum Stop {
    // There was no room or no memory for them, or no snapshot for room, with this number. Fewer of them may be tried.
    Untaken(u16),
    // The session has ended.
    Ended(MessagesEnd),
}

impl Stop {
    fn ended(self) -> MessagesEnd
        ensures { result ≡ ended_by self }
    {
        match self {
            Stop::Untaken(number) => MessagesEnd::Fault(number),
            Stop::Ended(ended) => ended,
        }
    }
}

/// Answers frames: the first of them together until all are answered, or one by one where there is no room or no memory for them together.
pub(crate) fn answer_frames<D: Disk, R: MacroFunctions, O: AnswerRecipient<D, R>>(
    alloc: Global,
    store: &mut Store<D, R>,
    course: &mut MessageCourse,
    frames: &[MessageFrame<'_>],
    output: &mut O,
) -> Result<(), MessagesEnd>
    requires rests { RestsAt R.Meaning.functions D.state (O.account output.old) store.old course.old.last }
    requires next { FramesComeNext (O.account output.old) (map sent_frame frames.now) }
    ensures answers { (w : WorldState) → store.old.world ≡ Some w
        → AnswersFrames R.Meaning.functions course.old.last w D.state store.new
        (O.contents output.old) (O.contents output.new) course.new.last (map sent_frame frames.now) result }
    ensures rests { RestsOrEnds R.Meaning.functions D.state
        (O.account output.new) store.new course.new.last result }
    ensures more { OnOk result
        (AnswersMore (O.account output.old) (O.account output.new) (map sent_frame frames.now)) }
    ensures input { O.input output.new ≡ O.input output.old }
    ensures macros { store.new.macros ≡ store.old.macros }
{
    its_world_is_sound(store);
    let mut done = 0;
    'fronts: while done < frames.len() {
        its_world_is_sound(store);
        match answer_front(alloc, store, course, &frames[done..], output) {
            Ok(count) => done += count,
            Err(ended) => return Err(ended),
        }
    }
    Ok(())
}

// Answers the first of these frames, of which there are some: together, or one by one. Gives how many.
fn answer_front<D: Disk, R: MacroFunctions, O: AnswerRecipient<D, R>>(
    alloc: Global,
    store: &mut Store<D, R>,
    course: &mut MessageCourse,
    frames: &[MessageFrame<'_>],
    output: &mut O,
) -> Result<usize, MessagesEnd>
    requires rests { RestsAt R.Meaning.functions D.state (O.account output.old) store.old course.old.last }
    requires next { FramesComeNext (O.account output.old) (map sent_frame frames.now) }
    requires any { 0 < length frames.now }
    ensures answers { (w : WorldState) → store.old.world ≡ Some w
        → AnswersFront R.Meaning.functions course.old.last w D.state store.new
        (O.contents output.old) (O.contents output.new) course.new.last (map sent_frame frames.now) result }
    ensures rests { RestsOrEnds R.Meaning.functions D.state
        (O.account output.new) store.new course.new.last result }
    ensures more { IfOk result (λ count. AnswersMore (O.account output.old) (O.account output.new)
        (take count (map sent_frame frames.now))) }

    // At least one of them was answered, and at most all.
    ensures most { IfOk result (λ count. count ≤ length frames.now) }
    ensures some { IfOk result (λ count. 0 < count) }
    ensures input { O.input output.new ≡ O.input output.old }
    ensures macros { store.new.macros ≡ store.old.macros }
{
    let stop = match take_with_room(alloc, store, course, frames, output) {
        Ok(count) => return Ok(count),
        Err(stop) => stop,
    };
    match stop {
        Stop::Untaken(_) => answer_in_turn(alloc, store, course, frames, output),
        Stop::Ended(ended) => Err(ended),
    }
}

// Answers all frames, one by one. Gives how many they are.
fn answer_in_turn<D: Disk, R: MacroFunctions, O: AnswerRecipient<D, R>>(
    alloc: Global,
    store: &mut Store<D, R>,
    course: &mut MessageCourse,
    frames: &[MessageFrame<'_>],
    output: &mut O,
) -> Result<usize, MessagesEnd>
    requires rests { RestsAt R.Meaning.functions D.state (O.account output.old) store.old course.old.last }
    requires next { FramesComeNext (O.account output.old) (map sent_frame frames.now) }
    requires any { 0 < length frames.now }
    ensures answers { (w : WorldState) → store.old.world ≡ Some w
        → AnswersFront R.Meaning.functions course.old.last w D.state store.new
        (O.contents output.old) (O.contents output.new) course.new.last (map sent_frame frames.now) result }
    ensures rests { RestsOrEnds R.Meaning.functions D.state
        (O.account output.new) store.new course.new.last result }
    ensures more { IfOk result (λ count. AnswersMore (O.account output.old) (O.account output.new)
        (take count (map sent_frame frames.now))) }

    // At least one of them was answered, and at most all.
    ensures most { IfOk result (λ count. count ≤ length frames.now) }
    ensures some { IfOk result (λ count. 0 < count) }
    ensures input { O.input output.new ≡ O.input output.old }
    ensures macros { store.new.macros ≡ store.old.macros }
{
    its_world_is_sound(store);
    'frames: for i in 0..frames.len() {
        match take_with_room(alloc, store, course, &frames[i..i + 1], output) {
            Ok(_) => {}
            Err(stop) => return Err(stop.ended()),
        }
    }
    Ok(frames.len())
}

// Answers the first of these frames together; where they have no room, once more after a snapshot. Gives how many.
fn take_with_room<D: Disk, R: MacroFunctions, O: AnswerRecipient<D, R>>(
    alloc: Global,
    store: &mut Store<D, R>,
    course: &mut MessageCourse,
    frames: &[MessageFrame<'_>],
    output: &mut O,
) -> Result<usize, Stop>
    requires rests { RestsAt R.Meaning.functions D.state (O.account output.old) store.old course.old.last }
    requires next { FramesComeNext (O.account output.old) (map sent_frame frames.now) }
    requires any { 0 < length frames.now }
    ensures takes { (w : WorldState) → store.old.world ≡ Some w
        → TakesWithRoom R.Meaning.functions course.old.last w D.state store.new
        (O.contents output.old) (O.contents output.new) course.new.last (map sent_frame frames.now) result }
    ensures rests { RestsOrStops R.Meaning.functions D.state
        (O.account output.new) store.new course.new.last result }
    ensures more { IfOk result (λ count. AnswersMore (O.account output.old) (O.account output.new)
        (take count (map sent_frame frames.now))) }

    // At least one of them was answered, and at most all; or, where fewer may be tried, nothing was written.
    ensures most { IfOk result (λ count. count ≤ length frames.now) }
    ensures untouched { IfErr result (λ stop. (number : ℕ) → stop ≡ Stop.Untaken number
        → output.new ≡ output.old) }
    ensures some { IfOk result (λ count. 0 < count) }
    ensures input { O.input output.new ≡ O.input output.old }
    ensures macros { store.new.macros ≡ store.old.macros }
{
    its_world_is_sound(store);
    let stop = match take_frames(alloc, store, course, frames, output) {
        Ok(count) => return Ok(count),
        Err(stop) => stop,
    };
    let why = match stop {
        Stop::Untaken(why) => why,
        Stop::Ended(ended) => return Err(Stop::Ended(ended)),
    };
    if why != LOG_FULL {
        return Err(Stop::Untaken(why));
    }
    match renew_for_room(store) {
        Ok(()) => {}
        Err(SNAPSHOT_TOO_LARGE) => return Err(Stop::Untaken(SNAPSHOT_TOO_LARGE)),
        Err(number) => return Err(Stop::Ended(MessagesEnd::Fault(number))),
    }
    // the half that is begun holds the text of the world alone
    course.wrote = 0;
    take_frames(alloc, store, course, frames, output)
}

// Answers the first of these frames together, writes the answers, and takes a snapshot if one is due. Gives how many.
fn take_frames<D: Disk, R: MacroFunctions, O: AnswerRecipient<D, R>>(
    alloc: Global,
    store: &mut Store<D, R>,
    course: &mut MessageCourse,
    frames: &[MessageFrame<'_>],
    output: &mut O,
) -> Result<usize, Stop>
    requires rests { RestsAt R.Meaning.functions D.state (O.account output.old) store.old course.old.last }
    requires next { FramesComeNext (O.account output.old) (map sent_frame frames.now) }
    requires any { 0 < length frames.now }
    ensures takes { (w : WorldState) → store.old.world ≡ Some w
        → TakesFrames R.Meaning.functions course.old.last w D.state store.new
        (O.contents output.old) (O.contents output.new)
        course.new.last store.old (map sent_frame frames.now) result }
    ensures rests { RestsOrStops R.Meaning.functions D.state
        (O.account output.new) store.new course.new.last result }
    ensures more { IfOk result (λ count. AnswersMore (O.account output.old) (O.account output.new)
        (take count (map sent_frame frames.now))) }

    // At least one of them was answered, and at most all; or, where fewer may be tried, nothing was written.
    ensures most { IfOk result (λ count. count ≤ length frames.now) }
    ensures untouched { IfErr result (λ stop. (number : ℕ) → stop ≡ Stop.Untaken number
        → output.new ≡ output.old) }
    ensures some { IfOk result (λ count. 0 < count) }
    ensures input { O.input output.new ≡ O.input output.old }
    ensures macros { store.new.macros ≡ store.old.macros }
{
    its_world_is_sound(store);
    let Ok(asked) = asked_of(alloc, frames) else {
        return Err(Stop::Untaken(NO_MEMORY));
    };
    let replies = match answer_first_asked(store, course.last, MOST_CLIENTS, asked.as_slice()) {
        Ok(replies) => replies,
        Err(number) => return Err(stop_after(number)),
    };
    course.last = replies.last;
    course.wrote = course.wrote.saturating_add(count_written(&replies));
    let count = replies.answers.len();
    let answered = &frames[..count];
    // they are carried out, so that nothing tries them again
    let Ok(bytes) = bytes_of(alloc, answered, replies.answers.as_slice()) else {
        return Err(Stop::Ended(MessagesEnd::Fault(NO_MEMORY)));
    };
    store.keeps_its_world();
    // what is answered is stored: the answers come after the records
    match output.write_answers(store, bytes.as_slice(), answered) {
        Ok(()) => {}
        Err(_) => return Err(Stop::Ended(MessagesEnd::Fault(OUTPUT))),
    }
    match course.renew_if_due(store) {
        Ok(()) => Ok(count),
        Err(ended) => Err(Stop::Ended(ended)),
    }
}

// What comes of requests that were refused with this number.
fn stop_after(number: u16) -> Stop
    ensures { StopsAfter number result }
{
    match number {
        LOG_FULL => Stop::Untaken(number),
        NO_MEMORY => Stop::Untaken(number),
        _ => Stop::Ended(MessagesEnd::Fault(number)),
    }
}

// How many messages wrote.
fn count_written(replies: &Replies) -> u64 {
    let mut count = 0u64;
    for answer in &replies.answers {
        if answer.wrote {
            count = count.saturating_add(1);
        }
    }
    count
}

// What is asked of the store.
fn asked_of<'a>(
    alloc: Global,
    frames: &[MessageFrame<'a>],
) -> Result<Vec<AnyRequest<'a>>, AllocError>
    ensures pairs { IfOk result (λ asked. AskAlike asked.items (map sent_frame frames.now)) }
    ensures many { IfOk result (λ asked. length asked.items ≡ length frames.now) }
{
    let mut asked = Vec::with_capacity(alloc, frames.len())?;
    for frame in frames {
        asked.push(asked_by(*frame))?;
    }
    Ok(asked)
}

// What a frame asks.
fn asked_by(frame: MessageFrame<'_>) -> AnyRequest<'_>
    ensures { frame_of_request result ≡ sent_frame frame.entry }
{
    let text = frame.text;
    match frame.kind {
        Kind::Do(number) => AnyRequest::Request(Request {
            number: Some(number),
            text,
        }),
        Kind::By(number) => AnyRequest::Named(Named { number, text }),
        Kind::Ask => AnyRequest::Request(Request { number: None, text }),
    }
}

// The answers to frames as bytes.
fn bytes_of(
    alloc: Global,
    frames: &[MessageFrame<'_>],
    answers: &[RequestAnswer],
) -> Result<Vec<u8>, AllocError>
    ensures { IfOk result (λ bytes. bytes.items
        ≡ flat_map answer_bytes (frame_of_each_answer (map sent_frame frames.now) (map told_in answers.now))) }
{
    let mut bytes = Vec::new(alloc);
    let mut frames = frames;
    let mut answers = answers;
    'frames: while let [frame, more_frames @ ..] = frames {
        let [answer, more_answers @ ..] = answers else {
            return Ok(bytes);
        };
        push_answer(&mut bytes, frame.kind, answer.text.as_slice())?;
        frames = more_frames;
        answers = more_answers;
    }
    Ok(bytes)
}
