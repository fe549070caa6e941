// The disk of a store whose calls are done later.
ghost use Rattle.std.specs.Prelude.{◌≡◌, [], false, Some};
ghost use Rattle.disk_trait.specs.Disk.{IsHonest, Told, but_for_reports};
ghost use Rattle.plist_state.specs.State.{WorldState};
ghost use Rattle.prevalence_store.specs.Theorem.{Keeps, Survives};

use crate::store::Store;
use disk_trait::Disk;
use gate_log::DefersCalls;
use user_macros::MacroFunctions;

impl<D: Disk, R: MacroFunctions> Store<D, R> {
    /// The disk, to look at.
    pub fn disk(&self) -> &D
        ensures { result.now ≡ self.now.disk }
    {
        self.log.halves.disk()
    }
}

impl<D: DefersCalls, R: MacroFunctions> Store<D, R> {
    /// Tells the disk that the calls were done which it handed out as so many bytes. The store is as it was, and so is what the disk
    /// holds, but for what was reported. But for that too it is to the theorem a call that takes no form.
    pub fn report_done(&mut self, count: usize)
        ensures disk { D.reports count self.old.disk self.new.disk }
        ensures store { self.new ≡ record self.old { disk = self.new.disk } }
        ensures tells { Told false (D.state self.old.disk) (D.state self.new.disk) }
        ensures survives { (world : WorldState) → self.old.world ≡ Some world
            → IsHonest (D.state self.old.disk)
            → Keeps R.Meaning.functions (D.state self.old.disk) world
            → Survives R.Meaning.functions (but_for_reports (D.state self.old.disk)) (but_for_reports (D.state self.new.disk))
            world [] 0 self.new.world }
    {
        self.log.halves.report_done(count);
    }
}
