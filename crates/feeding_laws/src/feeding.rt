//! Frames that are fed to a store again.
ghost use Rattle.std.specs.Prelude.{◌≡◌, ℕ, List, [], ◌∷◌, ◌++◌, Option, Some};
ghost use Rattle.std.specs.List.{AllByRecursion, flat_map};
ghost use Rattle.disk_trait.specs.Disk.{Image, IsHonest};
ghost use Rattle.feeding_laws.specs.Feeding.{AreAnsweredAgain, FramesAreHanded, AccountTellsPlace, FeedsAgain, FrameHanding, HaveNoNames, IsFirstMessageAccount, account_after_frames, over, rounds_of_frames, told_position};
ghost use Rattle.message_frames.specs.Frames.{IsFrame, Sent, frame_bytes};
ghost use Rattle.message_session.specs.Account.{MessageAccount, AnswersAreStored, FramesAreUnderWay, with_frames};
ghost use Rattle.message_session.specs.MessageSessions.{ServesMessages, text_limit};
ghost use Rattle.plist_state.specs.State.{WorldState};
ghost use Rattle.prevalence_store.specs.Theorem.{Keeps};
ghost use Rattle.prevalence_store.specs.calls.Store.{StoreView};
ghost use Rattle.prevalence_store.specs.meaning.Files.{MeansWorld};
ghost use Rattle.messages.specs.Position.{position as told_in};
ghost use Rattle.store_laws.specs.Rounds.{after_rounds, place_at};
ghost use Rattle.user_macros.specs.Functions.{Functions};

use disk_trait::Disk;
use message_frames::bytes_are_one_list;
use message_session::MessagesEnd;

/// Answers were handed to the recipient of a session, one time after the other (`FramesAreHanded`), from its position on, to frames without a name.
/// Of an honest disk of which each crash would have left its first world:
///
/// - `further`: answers that are handed on last come after the others, and the account is that after all of them.
/// - `in_rounds`: the frames are rounds in a row, one for each time; the world and the last number are those after them.
/// - `while_stored`: whatever a crash leaves at any moment up to the next answers, its world has a position, as an opening tells it. All
///   frames, those that were answered, those under way and any later ones, may be fed again: the messages over the position have the
///   answers that they have among all frames, and then the last number and the world are those after all, but for the position.
/// - `while_ended`: so it is at any moment up to the end of the session.
pub fn feeding_again<D: Disk, R>()
    ensures further { (functions : Functions) (account : MessageAccount D)
        (handings : List (FrameHanding D R))
        (last : FrameHanding D R)
        → FramesAreHanded functions D.state account handings
        → AnswersAreStored functions D.state (account_after_frames functions account handings)
        last.store last.frames last.bytes
        → HaveNoNames last.frames
        → FramesAreHanded functions D.state account (handings ++ last ∷ [])
        × (account_after_frames functions account (handings ++ last ∷ [])
        ≡ with_frames functions last.frames last.store (account_after_frames functions account handings)) }
    ensures in_rounds { (functions : Functions) (account : MessageAccount D)
        (handings : List (FrameHanding D R))
        → FramesAreHanded functions D.state account handings
        → AccountTellsPlace (after_rounds functions (place_at account.last account.now)
        (rounds_of_frames handings)) (account_after_frames functions account handings) }
    ensures while_stored { (functions : Functions) (account : MessageAccount D)
        (handings : List (FrameHanding D R)) (one : FrameHanding D R)
        → (more : List Sent) (image : Image) (now : WorldState)
        → IsFirstMessageAccount account → IsHonest (D.state account.disk)
        → Keeps functions (D.state account.disk) account.now
        → FramesAreHanded functions D.state account handings
        → AnswersAreStored functions D.state
        (account_after_frames functions account handings) one.store one.frames one.bytes
        → HaveNoNames one.frames → HaveNoNames more
        → (D.state one.store.disk).left_since
        (D.state (account_after_frames functions account handings).disk).moment image
        → MeansWorld functions image now
        → FeedsAgain functions account.last account.now
        ((account_after_frames functions account handings).answered ++ (one.frames ++ more)) now }
    ensures while_ended { (functions : Functions) (account : MessageAccount D)
        (handings : List (FrameHanding D R))
        (store : StoreView D R)
        → (more : List Sent) (image : Image) (now : WorldState)
        → IsFirstMessageAccount account → IsHonest (D.state account.disk)
        → Keeps functions (D.state account.disk) account.now
        → FramesAreHanded functions D.state account handings
        → (since : FramesAreUnderWay functions D.state
        (account_after_frames functions account handings) store)
        → HaveNoNames since.frames → HaveNoNames more
        → (D.state store.disk).left_since
        (D.state (account_after_frames functions account handings).disk).moment image
        → MeansWorld functions image now
        → FeedsAgain functions account.last account.now
        ((account_after_frames functions account handings).answered ++ (since.frames ++ more)) now }
{}

/// A session over a store that has a position, whose input are the messages over it, of all these frames, and no more: where they may be fed
/// again (`FeedsAgain`) and it comes to the end of its input, it writes the answers that were given, and leaves the world after all.
pub fn fed_sessions<D: Disk, R>()
    ensures { (functions : Functions) (old new : StoreView D R) (last position : ℕ) (first now : WorldState)
        (frames : List Sent)
        → (left held written : Option (List ℕ))
        → FeedsAgain functions last first frames now → told_in now ≡ Some position
        → AllByRecursion (IsFrame text_limit) frames
        → ServesMessages functions D.state old new now (Some (flat_map frame_bytes (over position frames)))
        left held written MessagesEnd.End
        → AreAnsweredAgain functions new last first frames position held written }
{
    bytes_are_one_list();
}

/// However often a store is stopped: frames may be fed again over its world as long as those over its position before that could be, over the world
/// that it had then.
pub fn feeding_on()
    ensures { (functions : Functions) (last : ℕ) (first middle now : WorldState) (frames : List Sent)
        → FeedsAgain functions last first frames middle
        → FeedsAgain functions (told_position middle) middle (over (told_position middle) frames) now
        → FeedsAgain functions last first frames now }
{}
