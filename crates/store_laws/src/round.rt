//! Rounds of messages, one after the other.
ghost use Rattle.std.specs.Prelude.{◌≡◌, ◌⊎◌, ℕ, List, ◌++◌, Some};
ghost use Rattle.disk_trait.specs.Disk.{Image, IsHonest};
ghost use Rattle.plist_state.specs.State.{WorldState};
ghost use Rattle.prevalence_store.specs.Theorem.{Keeps};
ghost use Rattle.prevalence_store.specs.calls.Store.{StoreView};
ghost use Rattle.messages.specs.declared.request.Request.{Request};
ghost use Rattle.prevalence_store.specs.meaning.Files.{MeansWorld};
ghost use Rattle.store_laws.specs.Rounds.{AreRoundSteps, HasComeToPlace, HasWritten, IsRoundStep, IsWorldAtPlace, IsUpToPosition, Place, Step, after_rounds, begun_in, place_at, rounds_of, store_after, store_by};
ghost use Rattle.user_macros.specs.Functions.{Functions};

use disk_trait::Disk;

/// Rounds of messages, one after the other, with snapshots and refused rounds between them. Of an honest disk of which each crash would
/// have left the first world:
///
/// - `in_between`: the store has the world after all rounds that were answered, and so has what a crash leaves. Its position is the
///   number of the last message of the last round in which a message wrote.
/// - `any_moment`: what a crash leaves at any moment of the call after them, also where the device fails in it, is the world and the
///   position after the rounds that were answered, or after these and all of the round that was under way.
/// - `none_over`: a message that wrote has no number over the position.
///
/// So an opening, which has that world (`Reopens`), tells up to which message all were carried out, each once, and none after it.
pub fn rounds<D: Disk, R>()
    ensures in_between { (functions : Functions) (old : StoreView D R) (world : WorldState) (last : ℕ)
        (steps : List (Step D R))
        → old.world ≡ Some world → IsHonest (D.state old.disk) → Keeps functions (D.state old.disk) world
        → AreRoundSteps functions D.state old (place_at last world) steps
        → HasComeToPlace functions D.state (store_after old steps)
        (after_rounds functions (place_at last world) (rounds_of steps)) }
    ensures any_moment { (functions : Functions) (old : StoreView D R) (world now : WorldState) (last : ℕ)
        (steps : List (Step D R)) (step : Step D R) (image : Image)
        → old.world ≡ Some world → IsHonest (D.state old.disk) → Keeps functions (D.state old.disk) world
        → AreRoundSteps functions D.state old (place_at last world) steps
        → IsRoundStep functions D.state (store_after old steps)
        (after_rounds functions (place_at last world) (rounds_of steps)) step
        → (D.state (store_by step).disk).left_since (D.state (store_after old steps).disk).moment image
        → MeansWorld functions image now
        → IsWorldAtPlace (after_rounds functions (place_at last world) (rounds_of steps)) now
        ⊎ IsWorldAtPlace (after_rounds functions (place_at last world) (rounds_of steps ++ begun_in step))
        now }
    ensures none_over { (functions : Functions) (first : Place) (rounds : List (List Request)) (number : ℕ)
        → HasWritten functions first rounds number
        → IsUpToPosition (after_rounds functions first rounds).position number }
{}
