// Texts that are to be one form each, as a turn.
ghost use Rattle.std.specs.Prelude.{◌≡◌};

use crate::batch::Batch;
use crate::group::evaluate_all;
use crate::outcome::Outcome;
use crate::turn::Turn;
use crate::whole_macros::WholeMacros;
use plist_state::World;
use session_words::Mode;
use std::alloc::AllocError;
use user_macros::MacroFunctions;

/// Texts that are to be one form each, and how they are read.
#[derive(Clone, Copy)]
pub(crate) struct AllTexts<'a> {
    pub(crate) mode: Mode,
    pub(crate) texts: &'a [&'a [u8]],
}

impl<R: MacroFunctions> Turn<R> for AllTexts<'_> {
    ghost use Rattle.std.specs.List.{All};
    ghost use Rattle.prevalence_store.specs.calls.Execute.{IsProperOutcome};
    ghost use Rattle.prevalence_store.specs.calls.ExecuteAll.{progress_of_texts};
    ghost use Rattle.prevalence_store.specs.steps.Group.{AreTextsEvaluated};

    type Made = Vec<Outcome>;

    ghost needs = { λ turn world. Unit {0} };

    ghost makes = { λ turn world left records outcomes. AreTextsEvaluated (progress_of_texts R.Meaning.functions world turn.mode turn.texts.now) outcomes.items left records
        × All IsProperOutcome outcomes.items };

    fn take(
        &self,
        world: &mut World,
        macros: &WholeMacros<R>,
        batch: &mut Batch,
    ) -> Result<Vec<Outcome>, AllocError> {
        evaluate_all(world, macros, self.mode, self.texts, batch)
    }
}
