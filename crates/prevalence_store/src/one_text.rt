// A text that is to be one form, as a turn.
ghost use Rattle.std.specs.Prelude.{◌≡◌};

use crate::batch::Batch;
use crate::outcome::Outcome;
use crate::turn::Turn;
use crate::whole_macros::WholeMacros;
use plist_state::World;
use session_words::Mode;
use std::alloc::AllocError;
use user_macros::MacroFunctions;

/// A text that is to be one form, and how it is read.
#[derive(Clone, Copy)]
pub(crate) struct OneText<'a> {
    pub(crate) mode: Mode,
    pub(crate) text: &'a [u8],
}

impl<R: MacroFunctions> Turn<R> for OneText<'_> {
    ghost use Rattle.std.specs.Prelude.{[]};
    ghost use Rattle.prevalence_store.specs.calls.Execute.{IsProperOutcome, IsValueIn};
    ghost use Rattle.prevalence_store.specs.meaning.Acceptance.{accepts};
    ghost use Rattle.prevalence_store.specs.steps.Group.{IsTurn};

    type Made = Outcome;

    ghost needs = { λ turn world. Unit {0} };

    ghost makes = { λ turn world left records outcome. IsTurn turn.mode (accepts R.Meaning.functions world turn.mode turn.text.now) world left [] records outcome
        × IsProperOutcome outcome × IsValueIn left outcome };

    fn take(
        &self,
        world: &mut World,
        macros: &WholeMacros<R>,
        batch: &mut Batch,
    ) -> Result<Outcome, AllocError> {
        batch.add_text(world, macros, self.mode, self.text)
    }
}
