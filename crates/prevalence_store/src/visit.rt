// What is done in the world of a store by somebody who leaves it as it is.
ghost use Rattle.std.specs.Prelude.{◌≡◌};
ghost use Rattle.plist_state.specs.State.{WorldState};

use crate::whole_macros::WholeMacros;
use disk_trait::Disk;
use plist_state::World;
use user_macros::MacroFunctions;

/// What a guest does in the world of a store over `D` and `R`: it may evaluate there, and leaves the world as it is, its marks too.
/// `Store::visit` takes it. A visit sees neither the disk nor the log.
pub trait Visit<D: Disk, R: MacroFunctions, G> {
    /// In which worlds it may be taken.
    ghost may: { Self → WorldState → Type 0 };

    /// What it leaves of the guest, before it and after it.
    ghost leaves: { Self → G → G → Type 0 };

    /// Shows the world to the guest.
    fn visit(&self, world: &mut World, macros: &WholeMacros<R>, guest: &mut G)
        requires may { may self.now world.old.0 }
        ensures leaves { leaves self.now guest.old guest.new }
        ensures same { world.new ≡ world.old };
}
