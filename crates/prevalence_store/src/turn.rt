// What is done between a mark of the world and the log.
ghost use Rattle.std.specs.Prelude.{◌≡◌, List, Some, IfOk, OnOk};
ghost use Rattle.std.specs.List.{AllByRecursion};
ghost use Rattle.gate_log.specs.Layout.{IsLogRecord, LogRecord};
ghost use Rattle.plist_state.specs.State.{WorldState, Worlds};
ghost use Rattle.prevalence_store.specs.meaning.Acceptance.{after};
ghost use Rattle.prevalence_store.specs.steps.Batch.{IsEmpty, IsWorldMarked, entries_in};

use crate::batch::Batch;
use crate::whole_macros::WholeMacros;
use plist_state::World;
use std::alloc::AllocError;
use user_macros::MacroFunctions;

/// What is done between a mark of the world and the log: forms are added to a batch, one after the other. `Store::together` takes it, and
/// is the only way into the log. A turn sees neither the disk nor the log, so that nothing is answered there which is not stored.
pub trait Turn<R: MacroFunctions> {
    /// What comes of it: an outcome, or a line.
    type Made: Drop;

    /// In which worlds it may be taken.
    ghost needs: { Self → WorldState → Type 0 };

    /// What was made of the world before it and after it, and of the records.
    ghost makes: { Self → WorldState → WorldState → List LogRecord → Self.Made → Type 0 };

    /// Adds the forms to a batch that has none. Where memory runs out, the marks of the world are there still.
    fn take(
        &self,
        world: &mut World,
        macros: &WholeMacros<R>,
        batch: &mut Batch,
    ) -> Result<Self::Made, AllocError>
        requires needs { needs self.now world.old.0 }
        requires none { IsEmpty batch.old }
        ensures made { IfOk result (makes self.now world.old.0 world.new.0 (entries_in batch.new)) }
        ensures again { OnOk result (after R.Meaning.functions world.old.0 (entries_in batch.new) ≡ Some world.new.0) }
        ensures fit { OnOk result (AllByRecursion IsLogRecord (entries_in batch.new)) }
        ensures marks { (worlds : Worlds) → IsWorldMarked worlds world.old.1
            → IsWorldMarked worlds world.new.1 };
}
