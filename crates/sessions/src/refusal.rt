// A refusal of which a recipient hears, as a visit to the world of a store.

use crate::recipient::{Recipient, SessionForm};
use disk_trait::Disk;
use plist_state::World;
use prevalence_store::{Visit, WholeMacros};
use user_macros::MacroFunctions;

/// The number with which the evaluation of a form was refused, and that form.
#[derive(Clone, Copy)]
pub(crate) struct RefusalVisit<'a> {
    pub(crate) number: u16,
    pub(crate) form: SessionForm<'a>,
}

impl<D: Disk, R: MacroFunctions, W: Recipient<D, R>> Visit<D, R, W> for RefusalVisit<'_> {
    ghost use Rattle.std.specs.Prelude.{◌≡◌, Err};
    ghost use Rattle.form_eval.specs.Acceptance.{accept};
    ghost use Rattle.form_eval.specs.Laws.{MayEvaluate};
    ghost use Rattle.lisp_object.specs.Datum.{object_of};

    ghost may = { λ refusal world. MayEvaluate world.packages refusal.form.read.now
        × (accept R.Meaning.functions.names world (object_of refusal.form.read.now.datum) ≡ Err refusal.number) };

    ghost leaves = { λ refusal before after. (W.contents after ≡ W.contents before)
        × (W.account after ≡ W.account before) × (W.first after ≡ W.first before) };

    fn visit(&self, world: &mut World, macros: &WholeMacros<R>, guest: &mut W) {
        guest.hear_refusal(world, macros, self.number, self.form);
    }
}
