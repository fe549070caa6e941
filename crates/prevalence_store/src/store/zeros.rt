// Zeros behind the half in use.
ghost use Rattle.std.specs.Prelude.{◌≡◌, Err, None, Some};
ghost use Rattle.lisp_object.specs.declared.refusal.TheConstants.{REOPEN};
ghost use Rattle.plist_state.specs.State.{WorldState};
ghost use Rattle.prevalence_store.specs.calls.Zeros.{CutsZeros};

use crate::store::Store;
use disk_trait::Disk;
use gate_log::ReadError;
use lisp_object::refusal::{DAMAGED, DEVICE, NO_MEMORY, REOPEN};
use user_macros::MacroFunctions;

impl<D: Disk, R: MacroFunctions> Store<D, R> {
    /// From now on the log writes zeros behind its half where the file would end there, and none from the offset `end` on, so that most
    /// forms leave the length of the file as it is (`write_zeros_ahead` of gate_log). They mean nothing, and `cut_zeros` takes them away again.
    pub fn write_zeros_ahead(&mut self, end: u64)
        ensures { self.new ≡ self.old }
    {
        self.log.halves.write_zeros_ahead(end);
    }

    /// If zeros are written ahead, none are written from the offset `end` on, in place of the one that was said before.
    pub fn end_zeros_at(&mut self, end: u64)
        ensures { self.new ≡ self.old }
    {
        self.log.halves.end_zeros_at(end);
    }

    /// Cuts the half in use where it ends, if zeros alone stand behind it, as they are written ahead. The store is as it was, and so is what
    /// its files mean, at each moment. Nothing is done where none can have been
    /// written (`wrote`), nor where the half is kept with one sync: its zeros are the ground of the next form.
    ///
    /// # Errors
    ///
    /// 61 after an earlier device fault; 60 if the device failed; 90 if a growth was refused. After 90 the store is as it was; after 60 it has
    /// to be opened again, and then it has the world that it had.
    pub fn cut_zeros(&mut self, wrote: bool) -> Result<(), u16>
        ensures reopen { self.old.world ≡ None → (result ≡ Err REOPEN) × (self.new ≡ self.old) }
        ensures answer { (world : WorldState) → self.old.world ≡ Some world
            → CutsZeros R.Meaning.functions D.state self.old self.new world wrote result }
        ensures honest { (D.state self.new.disk).honest ≡ (D.state self.old.disk).honest }
        ensures macros { self.new.macros ≡ self.old.macros }
    {
        if !self.is_open() {
            return Err(REOPEN);
        }
        if !wrote {
            return Ok(());
        }
        match self.log.halves.cut_zeros(self.alloc) {
            Ok(()) => Ok(()),
            Err(ReadError::OutOfMemory) => Err(NO_MEMORY),
            // it reads behind the half, where no bytes are damage
            Err(ReadError::Damaged) => Err(DAMAGED),
            Err(ReadError::DeviceFault) => {
                self.log.failed = true;
                Err(DEVICE)
            }
        }
    }
}
