// A session of messages.
ghost use Rattle.std.specs.Prelude.{◌≡◌, ◌<◌, ◌≤◌, ℕ, List, [], length, true, IfOk, OnOk, Err, None, Some};
ghost use Rattle.lisp_object.specs.declared.refusal.TheConstants.{REOPEN};
ghost use Rattle.message_frames.specs.declared.held.Next.TheVariants as next;
ghost use Rattle.message_session.specs.Account.{MessageAccount, IsPositionToldIn};
ghost use Rattle.message_session.specs.MessageSessions.{SessionAsksToReopen, HasNoRoomToBegin, ServesMessages};
ghost use Rattle.message_session.specs.Standing.{AcknowledgesNoFrame, AnswersFirstOf, BytesComeNext, IsReadIn, RestsAt, RestsOrEnds};
ghost use Rattle.message_session.specs.Steps.{AnswersAllHeld, AnswersFramesOfInput, AnswersSomeHeld, MayBegin, TakesPiece};
ghost use Rattle.plist_state.specs.State.{WorldState};

use crate::answer::{MessageCourse, answer_frames, its_world_is_sound, renew_for_room};
use crate::ended::MessagesEnd;
use crate::recipient::AnswerRecipient;
use disk_trait::Disk;
use lisp_object::refusal::{INPUT, LOG_FULL, NO_MEMORY, OUTPUT};
use message_frames::{Held, Next, push_position};
use messages::begin_messages;
use prevalence_store::Store;
use std::alloc::Global;
use std::io::Read;
use user_macros::MacroFunctions;

/// How many bytes a text has at most: as many as a form.
const TEXT_LIMIT: usize = 1_048_576;

/// How many bytes are read at most at once.
const PIECE: usize = 65_536;

/// The most reads of a session.
const MOST_READS: u64 = 1 << 40;

/// Serves the frames of an input over a store: tells its position, and answers each frame, those together that stand whole in what was
/// read at once. A snapshot is taken after so many messages that wrote, never if that is 0, and where the half has no room.
///
/// What is written is the position, and the answer to each frame, in order (`session_bytes` of specs/FrameAnswers.antt): whole at the end of the
/// input and at bytes that are no frame. A fault has one of these causes (`IsBroken` of specs/MessageSessions.antt), and nothing is written of it:
///
/// - 67: a read failed, or there were 2^40 of them. All that came whole is answered.
/// - 68: a write failed or took nothing. The frames whose answers were to go out are stored, and a part of their answers is written.
/// - 90: there was no memory. All is answered, or the next frames are stored and none of their answers is written.
/// - 60, 64, 90, and that of a form of the store's own: the store did not take the next frames. All before them is answered. 64 is of one
///   frame alone, which has no room in a half that holds nothing but the text of the world.
/// - 60, 65, 90: it took no snapshot that was due, or for the next frames, which had no room. All is answered. 65 is of one frame alone,
///   which had no room.
/// - 61: it met a device fault before. Nothing is done.
///
/// After 60 the store has no world until it is opened again, and the next frames may be stored, all of them or none; after any other it has
/// the world of those that were carried out, and goes on.
///
/// It writes by its recipient alone: what answered messages wrote is stored before an answer goes out, with its position, and the answers
/// are those to the next frames of the input.
pub fn serve_messages<D: Disk, R: MacroFunctions, I: Read, O: AnswerRecipient<D, R>>(
    alloc: Global,
    store: &mut Store<D, R>,
    input: &mut I,
    output: &mut O,
    snapshot_every: u64,
) -> MessagesEnd
    requires begins { (kept : MessageAccount D) → O.account output.old ≡ Some kept → ⊥ }
    requires of_input { (all : List ℕ) → O.input output.old ≡ Some all → I.remaining input.old ≡ Some all }
    ensures reopen { store.old.world ≡ None
        → SessionAsksToReopen store.old store.new input.old input.new output.old output.new result }
    ensures serves { (w : WorldState) → store.old.world ≡ Some w
        → ServesMessages R.Meaning.functions D.state store.old store.new w
        (I.remaining input.old) (I.remaining input.new) (O.contents output.old)
        (O.contents output.new) result }
    ensures under_way { AcknowledgesNoFrame R.Meaning.functions D.state (O.account output.new) store.new }
    ensures input { O.input output.new ≡ O.input output.old }
    ensures macros { store.new.macros ≡ store.old.macros }
{
    let last = match begin(store) {
        Ok(last) => last,
        Err(ended) => return ended,
    };
    its_world_is_sound(store);
    let mut told = Vec::new(alloc);
    let Ok(()) = push_position(&mut told, last) else {
        return MessagesEnd::Fault(NO_MEMORY);
    };
    store.keeps_its_world();
    match output.write_position(store, told.as_slice(), last) {
        Ok(()) => {}
        Err(_) => return MessagesEnd::Fault(OUTPUT),
    }
    let course = MessageCourse {
        last,
        wrote: 0,
        snapshot_every,
    };
    serve_frames(alloc, store, input, output, course)
}

// Begins with messages. A half that is full is made anew first.
fn begin<D: Disk, R: MacroFunctions>(store: &mut Store<D, R>) -> Result<u64, MessagesEnd>
    ensures reopen { store.old.world ≡ None
        → (result ≡ Err (MessagesEnd.Fault REOPEN)) × (store.new ≡ store.old) }
    ensures begun { (w : WorldState) → store.old.world ≡ Some w
        → MayBegin R.Meaning.functions D.state store.old store.new w result }
    ensures told { IfOk result (λ position. (w : WorldState) → store.new.world ≡ Some w
        → IsPositionToldIn position w) }
    ensures macros { store.new.macros ≡ store.old.macros }
{
    match begin_messages(store) {
        Ok(position) => Ok(position),
        Err(LOG_FULL) => begin_anew(store),
        Err(number) => Err(MessagesEnd::Fault(number)),
    }
}

// Begins with messages in a half that is made anew, as there was no room.
fn begin_anew<D: Disk, R: MacroFunctions>(store: &mut Store<D, R>) -> Result<u64, MessagesEnd>
    ensures begun { (w : WorldState) → store.old.world ≡ Some w
        → HasNoRoomToBegin R.Meaning.functions D.state store.old w
        → MayBegin R.Meaning.functions D.state store.old store.new w result }
    ensures told { (before : WorldState) → store.old.world ≡ Some before
        → IfOk result (λ position. (w : WorldState) → store.new.world ≡ Some w
        → IsPositionToldIn position w) }
    ensures macros { store.new.macros ≡ store.old.macros }
{
    match renew_for_room(store) {
        Ok(()) => {}
        Err(number) => return Err(MessagesEnd::Fault(number)),
    }
    match begin_messages(store) {
        Ok(position) => Ok(position),
        Err(number) => Err(MessagesEnd::Fault(number)),
    }
}

// Serves the frames of an input, after the position was told.
fn serve_frames<D: Disk, R: MacroFunctions, I: Read, O: AnswerRecipient<D, R>>(
    alloc: Global,
    store: &mut Store<D, R>,
    input: &mut I,
    output: &mut O,
    course: MessageCourse,
) -> MessagesEnd
    requires rests { RestsAt R.Meaning.functions D.state (O.account output.old) store.old course.last }
    requires read { IsReadIn (O.account output.old) (I.remaining input.old) [] }
    ensures serves { (w : WorldState) → store.old.world ≡ Some w
        → AnswersFramesOfInput R.Meaning.functions course.last w D.state store.new
        (I.remaining input.old) (I.remaining input.new) (O.contents output.old)
        (O.contents output.new) result }
    ensures under_way { AcknowledgesNoFrame R.Meaning.functions D.state (O.account output.new) store.new }
    ensures input { O.input output.new ≡ O.input output.old }
    ensures macros { store.new.macros ≡ store.old.macros }
{
    its_world_is_sound(store);
    let Ok(mut piece) = vec![in alloc; 0u8; PIECE] else {
        return MessagesEnd::Fault(NO_MEMORY);
    };
    let mut session = Session {
        alloc,
        held: Held::new(alloc),
        course,
    };
    let mut came = 0u64;
    let mut reads = 0u64;
    'pieces: while reads < MOST_READS {
        reads += 1;
        let count = match read_piece(input, &mut session.held, piece.as_mut_slice()) {
            Ok(0) => return MessagesEnd::End,
            Ok(count) => count,
            Err(number) => return MessagesEnd::Fault(number),
        };
        came += count as u64;
        match session.answer_whole(store, output) {
            Ok(true) => {}
            Ok(false) => {
                return MessagesEnd::NoFrame(came.saturating_sub(session.held.bytes().len() as u64));
            }
            Err(ended) => return ended,
        }
    }
    MessagesEnd::Fault(INPUT)
}

// Reads a piece of the input, and holds it. Gives how many bytes came: none at the end of the input.
fn read_piece<I: Read>(input: &mut I, held: &mut Held, buffer: &mut [u8]) -> Result<usize, u16>
    requires { 0 < length buffer.old }
    ensures takes { TakesPiece (I.remaining input.old) (I.remaining input.new) held.old held.new result }
    ensures most { IfOk result (λ count. count ≤ length buffer.old) }
{
    let Ok(count) = input.read(buffer) else {
        return Err(INPUT);
    };
    match held.feed(&buffer[..count]) {
        Ok(()) => Ok(count),
        Err(_) => Err(NO_MEMORY),
    }
}

// The bytes that were read and not answered yet, and how far the session has come.
#[derive(Drop)]
struct Session {
    alloc: Global,
    held: Held,
    course: MessageCourse,
}

impl Session {
    // Answers the frames that stand whole. Tells whether more bytes may make a frame of what is left.
    fn answer_whole<D: Disk, R: MacroFunctions, O: AnswerRecipient<D, R>>(
        &mut self,
        store: &mut Store<D, R>,
        output: &mut O,
    ) -> Result<bool, MessagesEnd>
        requires rests { RestsAt R.Meaning.functions D.state
            (O.account output.old) store.old self.old.course.last }
        requires next { BytesComeNext (O.account output.old) self.old.held }
        ensures answers { (w : WorldState) → store.old.world ≡ Some w
            → AnswersAllHeld R.Meaning.functions self.old self.new w D.state store.new
            (O.contents output.old) (O.contents output.new) result }
        ensures rests { RestsOrEnds R.Meaning.functions D.state
            (O.account output.new) store.new self.new.course.last result }
        ensures more { OnOk result
            (AnswersFirstOf (O.account output.old) (O.account output.new) self.old.held self.new.held) }
        ensures input { O.input output.new ≡ O.input output.old }
        ensures macros { store.new.macros ≡ store.old.macros }
    {
        its_world_is_sound(store);
        'rounds: loop {
            match self.answer_some(store, output) {
                Ok(Next::Unread) => {}
                Ok(Next::Begun) => return Ok(true),
                Ok(Next::Malformed) => return Ok(false),
                Err(ended) => return Err(ended),
            }
        }
    }

    // Answers the frames that stand whole, as many at once as may be. Gives what comes after them.
    fn answer_some<D: Disk, R: MacroFunctions, O: AnswerRecipient<D, R>>(
        &mut self,
        store: &mut Store<D, R>,
        output: &mut O,
    ) -> Result<Next, MessagesEnd>
        requires rests { RestsAt R.Meaning.functions D.state
            (O.account output.old) store.old self.old.course.last }
        requires next { BytesComeNext (O.account output.old) self.old.held }
        ensures answers { (w : WorldState) → store.old.world ≡ Some w
            → AnswersSomeHeld R.Meaning.functions self.old self.new w D.state store.new
            (O.contents output.old) (O.contents output.new) result }
        ensures fewer { IfOk result (λ after. after ≡ next.Unread
            → length self.new.held < length self.old.held) }
        ensures rests { RestsOrEnds R.Meaning.functions D.state
            (O.account output.new) store.new self.new.course.last result }
        ensures more { OnOk result
            (AnswersFirstOf (O.account output.old) (O.account output.new) self.old.held self.new.held) }
        ensures input { O.input output.new ≡ O.input output.old }
        ensures macros { store.new.macros ≡ store.old.macros }
    {
        its_world_is_sound(store);
        let most = self.course.most();
        let Ok(whole) = self.held.frames(self.alloc, TEXT_LIMIT, most) else {
            return Err(MessagesEnd::Fault(NO_MEMORY));
        };
        let (bytes, next) = (whole.bytes, whole.next);
        let frames = whole.frames.as_slice();
        match answer_frames(self.alloc, store, &mut self.course, frames, output) {
            Ok(()) => {}
            Err(ended) => return Err(ended),
        }
        drop(whole);
        self.held.pass(bytes);
        Ok(next)
    }
}
