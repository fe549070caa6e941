//! That what is answered is stored.
ghost use Rattle.std.specs.Prelude.{◌≡◌, ℕ, List, [], ◌∷◌, Some};
ghost use Rattle.disk_trait.specs.Disk.{Image, IsHonest};
ghost use Rattle.plist_state.specs.State.{WorldState};
ghost use Rattle.prevalence_store.specs.calls.Store.{StoreView};
ghost use Rattle.prevalence_store.specs.Theorem.{Reopens, Run};
ghost use Rattle.sessions.specs.Account.{Account, AreStored, call_of_stored, with_forms};
ghost use Rattle.user_macros.specs.Functions.{Functions};

use disk_trait::Disk;

/// While lines are handed to a recipient, nothing happens to the disk.
///
/// - `is_call`: what was done since lines were last handed on is a call of the store, which has acknowledged all their forms, and ends where
///   the next one begins. So what is said of calls in a row is said of a session at each moment, while it writes too.
/// - `opened`: whatever a crash then leaves, a store that is opened on it has the world after all these forms.
pub fn what_is_answered_is_stored<D: Disk, R>()
    ensures is_call { (functions : Functions) (account : Account D) (store : StoreView D R)
        → (lines : List ℕ) (forms : ℕ)
        → IsHonest (D.state account.disk)
        → (stored : AreStored functions D.state account store lines forms)
        → Run functions D.state account.disk (Some account.now)
        (call_of_stored functions D.state account store lines forms stored ∷ [])
        × ((with_forms forms store account).now ≡ stored.far.world) × IsHonest (D.state store.disk) }
    ensures opened { (functions : Functions) (account : Account D) (store : StoreView D R)
        → (lines : List ℕ) (forms : ℕ)
        → (crashed opened : D) (image : Image) (now : WorldState)
        → IsHonest (D.state account.disk)
        → (stored : AreStored functions D.state account store lines forms)
        → (D.state store.disk).may_leave image → (D.state crashed).reads ≡ image
        → Reopens functions (D.state crashed) (D.state opened) now → now ≡ stored.far.world }
{}
