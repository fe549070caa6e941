// The way to the world for somebody who leaves it as it is.
ghost use Rattle.std.specs.Prelude.{◌≡◌, Some, IsSome};
ghost use Rattle.plist_state.specs.State.{WorldState};

use crate::store::Store;
use crate::visit::Visit;
use crate::whole_macros::WholeMacros;
use disk_trait::Disk;
use user_macros::MacroFunctions;

impl<D: Disk, R: MacroFunctions> Store<D, R> {
    /// The macro functions, to look at.
    pub fn macros(&self) -> &WholeMacros<R>
        ensures { result.now ≡ self.now.macros }
    {
        &self.macros
    }

    /// Takes a visit of a guest to the world. The store is as it was.
    pub fn visit<G, V: Visit<D, R, G>>(&mut self, visit: &V, guest: &mut G)
        requires is_open { IsSome self.old.world }
        requires may { (world : WorldState) → self.old.world ≡ Some world → V.may visit.now world }
        ensures leaves { V.leaves visit.now guest.old guest.new }
        ensures same { self.new ≡ self.old }
    {
        visit.visit(&mut self.world, &self.macros, guest);
    }
}
