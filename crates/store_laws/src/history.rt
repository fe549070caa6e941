//! Whatever happened to a store, in any order.
ghost use Rattle.std.specs.Prelude.{ℕ, List, [], ◌++◌, length, Option, None};
ghost use Rattle.disk_trait.specs.Disk.{Image, IsFresh, IsHonest};
ghost use Rattle.gate_log.specs.Layout.{LogRecord};
ghost use Rattle.plist_state.specs.State.{WorldState, initial};
ghost use Rattle.prevalence_store.specs.Theorem.{Call, Keeps, MeansSome};
ghost use Rattle.store_laws.specs.Histories.{Event, FollowsFromEvents, EventsHappened, IsCallOfStore, IsOpenedOrNot, StandsAfterEvents, StillStands, last_disk, last_left};
ghost use Rattle.user_macros.specs.Functions.{Functions};

use disk_trait::Disk;
use prevalence_store::{fresh_files, recoveries};

/// Events one after the other, from an honest disk on of which each crash would leave one world, and what follows from them. At
/// each opening the store has the world after some of the forms that were accepted in its line so far, from the first on, and
/// after all that were acknowledged; what a crash leaves in the end is such a world too.
///
/// - `of_files`: from files that mean a world.
/// - `of_fresh_files`: from a fresh disk, whose world is the initial one.
/// - `goes_on`: from wherever a history stands. What follows; and whatever it was that happened, the forms that were sure are still
///   the first of the line.
/// - `in_call`, `in_opening`: what a crash leaves at any moment within a call or an opening that comes then.
pub fn histories<D: Disk>()
    ensures of_files { (functions : Functions) (start : D) (first : WorldState) (events : List (Event D))
        → IsHonest (D.state start) → Keeps functions (D.state start) first
        → EventsHappened functions D.state start None events
        → FollowsFromEvents functions D.state first [] 0 start None events }
    ensures of_fresh_files { (functions : Functions) (start : D) (events : List (Event D))
        → IsFresh (D.state start)
        → EventsHappened functions D.state start None events
        → FollowsFromEvents functions D.state initial [] 0 start None events }
    ensures goes_on { (functions : Functions) (first : WorldState) (line : List LogRecord) (sure : ℕ)
        → (disk : D) (left : Option WorldState) (events : List (Event D))
        → StandsAfterEvents functions D.state first line sure disk left
        → EventsHappened functions D.state disk left events
        → FollowsFromEvents functions D.state first line sure disk left events
        × StillStands functions D.state first line sure (last_disk disk events) (last_left left events) }
    ensures in_call { (functions : Functions) (first : WorldState) (line : List LogRecord) (sure : ℕ)
        → (disk : D) (left : Option WorldState) (call : Call D)
        → StandsAfterEvents functions D.state first line sure disk left
        → IsCallOfStore functions D.state disk left call
        → (image : Image) → (D.state call.disk).left_since (D.state disk).moment image
        → MeansSome functions first (line ++ call.taken) (length line) image }
    ensures in_opening { (functions : Functions) (first : WorldState) (line : List LogRecord) (sure : ℕ)
        → (disk there : D) (left : Option WorldState)
        → StandsAfterEvents functions D.state first line sure disk left
        → IsOpenedOrNot functions D.state disk there
        → (image : Image) → (D.state there).left_since (D.state disk).moment image
        → MeansSome functions first line sure image }
{
    recoveries::<D>();
    fresh_files::<D>();
}
