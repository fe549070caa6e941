//! An input has one outcome.
ghost use Rattle.std.specs.Prelude.{◌≡◌, ℕ, List, [], Option, Some, true, false};
ghost use Rattle.plist_state.specs.State.{WorldState};
ghost use Rattle.sessions.specs.Serve.{ServesWanted};
ghost use Rattle.prevalence_store.specs.calls.Store.{StoreView};
ghost use Rattle.session_words.specs.declared.mode.Mode.{Mode};
ghost use Rattle.sessions.specs.declared.ending.Ended.{Ended};
ghost use Rattle.sessions.specs.declared.ending.Place.{Place};
ghost use Rattle.session_words.specs.declared.wanted.SessionOptions.{SessionOptions};
ghost use Rattle.sessions.specs.FormAnswers.{Progress};
ghost use Rattle.store_laws.specs.Outcomes.{BreaksOff, Completes, HasForms, IsByInput, StopsAtRefusal};
ghost use Rattle.user_macros.specs.Functions.{Functions};

use disk_trait::Disk;
use lisp_reading::forms_are_framed;

/// An input has one outcome in a world and a mode, whatever disk the session is over, whatever snapshots it takes, and whether it has
/// groups. It is what replicas rest on.
///
/// - `some_count`, `one_count`: it has a number of forms, and one alone; and so it is with what comes of them.
/// - `completed`: a session that came to the end of its input, or to what the reader refuses in it, wrote the answers to all its forms,
///   and left the world after them.
/// - `same`: so two such sessions wrote the same bytes, left the same world, and ended in the same way.
/// - `stopped`: a strict session that ended at a refused form wrote the lines of the forms up to the first that is refused, and left the
///   world after them.
/// - `both_stopped`: so two such sessions wrote the same bytes, and left the same world.
/// - `front`: a session that a fault ended, or the want of room or memory, wrote a front of these bytes; the forms that it took are the
///   first of these forms.
pub fn one_outcome<D: Disk, E: Disk, R, S>()
    ensures some_count { (functions : Functions) (world : WorldState) (mode : Mode) (input : List ℕ)
        → (forms : ℕ) × (far : Progress) × HasForms functions world mode input forms far }
    ensures one_count { (functions : Functions) (world : WorldState) (mode : Mode) (input : List ℕ)
        → (forms others : ℕ) (far other : Progress)
        → HasForms functions world mode input forms far
        → HasForms functions world mode input others other
        → (forms ≡ others) × (far ≡ other) }
    ensures completed { (functions : Functions) (wanted : SessionOptions) (old new : StoreView D R)
        (world : WorldState)
        → (input : List ℕ) (has held written : Option (List ℕ)) (ended : Ended)
        → ServesWanted functions D.state wanted old new world (Some input) has held written ended
        → IsByInput ended
        → (forms : ℕ) × (far : Progress)
        × Completes functions D.state old new world wanted.mode input held written ended forms far }
    ensures same { (functions : Functions) (wanted other : SessionOptions)
        → (old new : StoreView D R) (before after : StoreView E S) (world : WorldState)
        → (input : List ℕ) (has held written : Option (List ℕ)) (ended : Ended)
        → (others_has others_held others_written : Option (List ℕ)) (ending : Ended)
        → other.mode ≡ wanted.mode
        → ServesWanted functions D.state wanted old new world (Some input) has held written ended
        → IsByInput ended
        → ServesWanted functions E.state other before after world (Some input) others_has
        others_held others_written ending
        → IsByInput ending
        → (forms : ℕ) × (far : Progress)
        × Completes functions D.state old new world wanted.mode input held written ended forms far
        × Completes functions E.state before after world wanted.mode input others_held
        others_written ending forms far }
    ensures stopped { (functions : Functions) (wanted : SessionOptions) (old new : StoreView D R)
        → (world : WorldState) (input : List ℕ)
        (has held written : Option (List ℕ)) (number : ℕ) (place : Place)
        → ServesWanted functions D.state wanted old new world (Some input) has held written
        (Ended.Unaccepted number place)
        → (forms : ℕ) × (far : Progress)
        × StopsAtRefusal functions D.state old new world wanted.mode input held written forms far }
    ensures both_stopped { (functions : Functions) (wanted other : SessionOptions)
        → (old new : StoreView D R) (before after : StoreView E S) (world : WorldState)
        → (input : List ℕ) (has held written : Option (List ℕ)) (number : ℕ) (place : Place)
        → (others_has others_held others_written : Option (List ℕ)) (code : ℕ) (others_place : Place)
        → other.mode ≡ wanted.mode
        → ServesWanted functions D.state wanted old new world (Some input) has held written
        (Ended.Unaccepted number place)
        → ServesWanted functions E.state other before after world (Some input)
        others_has others_held others_written
        (Ended.Unaccepted code others_place)
        → (forms : ℕ) × (far : Progress)
        × StopsAtRefusal functions D.state old new world wanted.mode input held written forms far
        × StopsAtRefusal functions E.state before after world wanted.mode input
        others_held others_written forms far }
    ensures front { (functions : Functions) (wanted : SessionOptions) (old new : StoreView D R)
        → (world : WorldState) (input : List ℕ) (has held written : Option (List ℕ)) (number : ℕ)
        → (forms : ℕ) (far : Progress)
        → HasForms functions world wanted.mode input forms far
        → ServesWanted functions D.state wanted old new world (Some input) has
        held written (Ended.Store number)
        → BreaksOff functions D.state old new world wanted.mode input held written far forms }
{
    forms_are_framed();
}

/// A session with groups that comes to the end of its input, or to what the reader refuses in it, gives what one without groups gives
/// over the same input, from the same world on: the same bytes and the same world. So does a strict one that ends at a refused form.
pub fn groups_change_nothing<D: Disk, E: Disk, R, S>()
    ensures strict { (functions : Functions) (wanted : SessionOptions)
        → (old new : StoreView D R) (before after : StoreView E S) (world : WorldState)
        → (input : List ℕ) (has held written : Option (List ℕ)) (number : ℕ) (place : Place)
        → (others_has others_held others_written : Option (List ℕ)) (code : ℕ) (others_place : Place)
        → ServesWanted functions D.state (record wanted { group = true }) old new
        world (Some input) has held written
        (Ended.Unaccepted number place)
        → ServesWanted functions E.state (record wanted { group = false }) before after world
        (Some input) others_has others_held
        others_written (Ended.Unaccepted code others_place)
        → (forms : ℕ) × (far : Progress)
        × StopsAtRefusal functions D.state old new world wanted.mode input held written forms far
        × StopsAtRefusal functions E.state before after world wanted.mode input
        others_held others_written forms far }
    ensures completed { (functions : Functions) (wanted : SessionOptions)
        → (old new : StoreView D R) (before after : StoreView E S) (world : WorldState)
        → (input : List ℕ) (has held written : Option (List ℕ)) (ended : Ended)
        → (others_has others_held others_written : Option (List ℕ)) (ending : Ended)
        → ServesWanted functions D.state (record wanted { group = true }) old new world
        (Some input) has held written ended
        → IsByInput ended
        → ServesWanted functions E.state (record wanted { group = false }) before after world
        (Some input) others_has others_held
        others_written ending
        → IsByInput ending
        → (forms : ℕ) × (far : Progress)
        × Completes functions D.state old new world wanted.mode input held written ended forms far
        × Completes functions E.state before after world wanted.mode input others_held
        others_written ending forms far }
{
    one_outcome::<D, E, R, S>();
}
