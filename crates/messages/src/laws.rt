//! Why requests are refused.
ghost use Rattle.std.specs.Prelude.{ℕ, List, Err};
ghost use Rattle.messages.specs.MessageCalls.{AnswersRequests};
ghost use Rattle.messages.specs.Refusals.{AreRefusedBy};
ghost use Rattle.messages.specs.declared.request.Request.{Request};
ghost use Rattle.plist_state.specs.State.{WorldState};
ghost use Rattle.prevalence_store.specs.calls.Store.{StoreView};
ghost use Rattle.user_macros.specs.Functions.{Functions};

use disk_trait::Disk;

/// The number with which requests are refused tells why, and what stands after it: 60 a device fault, 64 that there is no room for what they wrote,
/// any other but 90 that a form of the store's own was refused. Only after 60 the store has changed. For `answer_first_requests` it speaks of
/// the front of the requests that was to be answered.
pub fn refusals_have_causes<D: Disk, R>()
    ensures { (functions : Functions) (old new : StoreView D R) (world : WorldState) (last : ℕ)
        → (requests : List Request) (number : ℕ)
        → AnswersRequests functions D.state old new world last requests (Err number)
        → AreRefusedBy functions D.state old new world last requests number }
{}
