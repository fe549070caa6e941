//! What a crash leaves of a store in which messages were answered.
ghost use Rattle.std.specs.Prelude.{◌≡◌, ℕ, List, Result, Some, Ok};
ghost use Rattle.disk_trait.specs.Disk.{Image, IsHonest};
ghost use Rattle.plist_state.specs.State.{WorldState};
ghost use Rattle.prevalence_store.specs.Theorem.{Keeps};
ghost use Rattle.prevalence_store.specs.calls.Store.{StoreView};
ghost use Rattle.messages.specs.declared.request.Replies.{Replies};
ghost use Rattle.messages.specs.declared.request.Request.{Request};
ghost use Rattle.prevalence_store.specs.meaning.Files.{MeansWorld};
ghost use Rattle.messages.specs.MessageAnswers.{round_after_requests, first_round};
ghost use Rattle.messages.specs.MessageCalls.{AnswersRequests, left_after};
ghost use Rattle.store_laws.specs.Messages.{IsBeforeOrAfter};
ghost use Rattle.user_macros.specs.Functions.{Functions};

use disk_trait::Disk;

/// Requests are done together, and with the position that tells so. Of an honest disk of which each crash would have left one world:
///
/// - `any_moment`: what a crash leaves at any moment of `answer_requests`, also where the device fails in it, means the world before
///   the requests, or the one after all of them, which has the number of the last message as its position.
/// - `afterwards`: once they are answered, what a crash leaves means the world after them.
pub fn each_once<D: Disk, R>()
    ensures any_moment { (functions : Functions) (old new : StoreView D R) (world now : WorldState) (last : ℕ)
        → (requests : List Request) (result : Result Replies ℕ) (image : Image)
        → old.world ≡ Some world
        → IsHonest (D.state old.disk) → Keeps functions (D.state old.disk) world
        → AnswersRequests functions D.state old new world last requests result
        → (D.state new.disk).left_since (D.state old.disk).moment image → MeansWorld functions image now
        → IsBeforeOrAfter world (round_after_requests functions (first_round last world) requests) now }
    ensures afterwards { (functions : Functions) (old new : StoreView D R) (world now : WorldState) (last : ℕ)
        → (requests : List Request) (replies : Replies) (image : Image)
        → old.world ≡ Some world
        → IsHonest (D.state old.disk) → Keeps functions (D.state old.disk) world
        → AnswersRequests functions D.state old new world last requests (Ok replies)
        → (D.state new.disk).may_leave image → MeansWorld functions image now
        → now ≡ left_after (round_after_requests functions (first_round last world) requests).wrote world
        (round_after_requests functions (first_round last world) requests).left }
{}
