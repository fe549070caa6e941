// The world of a store that is open.
ghost use Rattle.std.specs.Prelude.{◌≡◌, Some, IsSome};
ghost use Rattle.plist_state.specs.State.{WorldState};

use disk_trait::Disk;
use plist_state::World;
use prevalence_store::Store;
use user_macros::MacroFunctions;

/// The world of a store that is open, to look at.
pub(crate) fn open_world<D: Disk, R: MacroFunctions>(store: &Store<D, R>) -> &World
    requires is_open { IsSome store.now.world }
    ensures told { store.now.world ≡ Some result.now.0 }
    ensures one { (w : WorldState) → store.now.world ≡ Some w → result.now.0 ≡ w }
{
    store.world().unwrap()
}
