// A form that was read, as a turn that makes the line which answers it.
ghost use Rattle.std.specs.Prelude.{◌≡◌, length, IfErr, IfOk};
ghost use Rattle.lisp_object.specs.Datum.{object_of};
ghost use Rattle.sessions.specs.steps.Answer.{IsFormLeft, TakesReply};
ghost use Rattle.sessions.specs.steps.Forms.{IsFormIn};

use crate::answer::{Reply, reply_to};
use disk_trait::Disk;
use form_eval::ReadForm;
use plist_state::World;
use prevalence_store::{Batch, Store, Turn, Unlogged, WholeMacros};
use session_words::Mode;
use std::alloc::AllocError;
use user_macros::MacroFunctions;

/// A form that was read, with its own text.
#[derive(Clone, Copy)]
pub(crate) struct OneForm<'a> {
    pub(crate) mode: Mode,
    pub(crate) form: &'a ReadForm,
    pub(crate) own: &'a [u8],
}

impl<R: MacroFunctions> Turn<R> for OneForm<'_> {
    ghost use Rattle.std.specs.Prelude.{◌≡◌, length};
    ghost use Rattle.form_eval.specs.Laws.{MayEvaluate};
    ghost use Rattle.lisp_object.specs.Datum.{object_of};
    ghost use Rattle.lisp_reading.specs.Reading.{form};
    ghost use Rattle.prevalence_store.specs.meaning.Acceptance.{read_in};
    ghost use Rattle.sessions.specs.steps.Answer.{IsReplyToForm};

    type Made = Reply;

    ghost needs = { λ turn world. (read_in R.Meaning.functions world turn.mode turn.own.now
        ≡ form (object_of turn.form.now.datum) 0 (length turn.own.now) (length turn.own.now)) × MayEvaluate world.packages turn.form.now };

    ghost makes = { λ turn world left records reply. IsReplyToForm R.Meaning.functions.names turn.mode (object_of turn.form.now.datum)
        turn.own.now world left records reply };

    fn take(
        &self,
        world: &mut World,
        macros: &WholeMacros<R>,
        batch: &mut Batch,
    ) -> Result<Reply, AllocError> {
        reply_to(world, macros, self.mode, batch, self.form, self.own)
    }
}

/// Evaluates a form that was read, makes the line that answers it, and then logs its text if it wrote. So there is room for
/// the line before there is a record. After an error that is no device fault the store is as it was.
pub(crate) fn take_reply<D: Disk, R: MacroFunctions>(
    store: &mut Store<D, R>,
    mode: Mode,
    form: &ReadForm,
    text: &[u8],
) -> Result<Reply, Unlogged>
    requires form { IsFormIn R.Meaning.functions store.old.world
        mode form.now 0 (length text.now) text.now }
    ensures takes { IfOk result (TakesReply R.Meaning.functions D.state store.old store.new
        mode text.now (object_of form.now.datum)) }
    ensures left { IfErr result (IsFormLeft R.Meaning.functions D.state store.old store.new
        mode text.now (object_of form.now.datum)) }
    ensures honest { (D.state store.new.disk).honest ≡ (D.state store.old.disk).honest }
{
    let turn = OneForm {
        mode,
        form,
        own: text,
    };
    store.together(&turn)
}
