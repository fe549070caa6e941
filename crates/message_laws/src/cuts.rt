//! Batches of requests.
ghost use Rattle.std.specs.Prelude.{◌≡◌, ℕ, List};
ghost use Rattle.message_laws.specs.Batches.{IsAlike, all_requests, at_first, in_batches};
ghost use Rattle.plist_state.specs.Sound.{IsSoundWorldState};
ghost use Rattle.plist_state.specs.State.{WorldState};
ghost use Rattle.messages.specs.declared.request.Request.{Request};
ghost use Rattle.messages.specs.MessageAnswers.{first_round, each_request};
ghost use Rattle.user_macros.specs.Functions.{Functions};

/// Requests have the same answers in whichever batches they are answered. From a sound world on, as that of each store is
/// (`World::soundness`):
///
/// - `alike`: batches that have the same requests in all have the same answers and the same last number, and leave the same world but
///   for its position: that tells the last message that wrote, or a later one of its batch.
/// - `at_once`: so each request has the answer that it has in one batch of all.
pub fn cuts_change_nothing()
    ensures alike { (functions : Functions) (world : WorldState) (last : ℕ)
        (batches others : List (List Request))
        → IsSoundWorldState world → all_requests batches ≡ all_requests others
        → IsAlike (in_batches functions (at_first last world) batches)
        (in_batches functions (at_first last world) others) }
    ensures at_once { (functions : Functions) (world : WorldState) (last : ℕ) (batches : List (List Request))
        → IsSoundWorldState world
        → (in_batches functions (at_first last world) batches).told
        ≡ (each_request functions (first_round last world) (all_requests batches)).told }
{}
