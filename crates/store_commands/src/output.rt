// The output of sessions, and beside it what is told of the forms that were refused.
ghost use Rattle.std.specs.Prelude.{◌≡◌, None};

use crate::recipient::SessionRecipient;
use diagnostics::{Places, RefusalTeller};
use disk_trait::Disk;
use plist_state::World;
use prevalence_store::{Mode, Store, WholeMacros};
use sessions::{OutputFault, Recipient, SessionForm};
use std::io::Write;
use user_macros::MacroFunctions;

/// The output of sessions, and what tells of forms that were refused.
#[derive(Drop)]
pub struct SessionOutput<'a, O, T> {
    /// Where the answers go.
    pub output: O,
    /// What tells of refusals.
    pub teller: RefusalTeller<'a, T>,
}

impl<D: Disk, M: MacroFunctions, O: Write, T: Write> Recipient<D, M> for SessionOutput<'_, O, T> {
    ghost use Rattle.std.specs.Prelude.{None};

    ghost contents = { λ it. O.contents it.output };

    ghost account = { λ _. None };

    ghost first = { λ _. None };

    fn write_lines(
        &mut self,
        store: &Store<D, M>,
        lines: &[u8],
        forms: usize,
    ) -> Result<(), OutputFault> {
        self.output.write_lines(store, lines, forms)
    }

    fn is_listening(&self) -> bool {
        self.teller.is_listening()
    }

    fn hear_refusal(
        &mut self,
        world: &mut World,
        macros: &WholeMacros<M>,
        number: u16,
        form: SessionForm<'_>,
    ) {
        self.teller.tell(world, macros.meaning(), number, form);
    }
}

impl<D, M, I, O, T> SessionRecipient<D, M, I> for SessionOutput<'_, O, T>
where
    D: Disk,
    M: MacroFunctions,
    I: Places,
    O: Write,
    T: Write,
{
    fn begin(&mut self, _store: &Store<D, M>, input: &I, _mode: Mode) {
        self.teller.begin(input);
    }

    fn begin_again(&mut self, _store: &Store<D, M>, input: &I, _mode: Mode) {
        self.teller.begin(input);
    }
}
