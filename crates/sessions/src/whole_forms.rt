// A form that was read and those that stand whole after it in a piece, as a turn that makes the lines which answer them.
ghost use Rattle.std.specs.Prelude.{◌≡◌, ◌+◌, ◌<◌, ◌^◌, List, ℕ, Some, drop, length, IfOk, IfSome};
ghost use Rattle.lisp_object.specs.Datum.{object_of};
ghost use Rattle.plist_state.specs.State.{WorldState, Worlds};
ghost use Rattle.prevalence_store.specs.steps.Batch.{IsEmpty, IsWorldMarked, entries_in};
ghost use Rattle.sessions.specs.steps.Answer.{IsFormOf};
ghost use Rattle.sessions.specs.steps.Gather.{AreWholeFormsTaken, BeginsWhole, AreWithinLimit, MayBeTaken, TakesGroup};

use crate::gather::{GatheredForms, GroupLimit};
use crate::input::PlacedForm;
use crate::open_world::open_world;
use disk_trait::Disk;
use lisp_operators::either;
use plist_state::World;
use prevalence_store::{Batch, Store, Turn, Unlogged, WholeMacros};
use session_words::SessionOptions;
use std::alloc::AllocError;
use user_macros::MacroFunctions;

/// A form that was read, and a piece in which others may stand whole after it. They are taken as far as the limit goes.
#[derive(Clone, Copy)]
pub(crate) struct WholeForms<'a> {
    pub(crate) wanted: SessionOptions,
    pub(crate) limit: GroupLimit,
    pub(crate) first: &'a PlacedForm,
    pub(crate) rest: &'a [u8],
}

impl WholeForms<'_> {
    // Adds the forms to a batch that has none. There are none, and nothing is added, if the first has no room within the limit, or if
    // it is refused and the session is strict.
    fn gather<R: MacroFunctions>(
        &self,
        world: &mut World,
        macros: &WholeMacros<R>,
        batch: &mut Batch,
    ) -> Result<Option<GatheredForms>, AllocError>
        requires may { MayBeTaken R.Meaning.functions self.now world.old.0 }
        requires none { IsEmpty batch.old }
        ensures taken { IfOk result (AreWholeFormsTaken R.Meaning.functions self.now
            world.old.0 world.new.0 (entries_in batch.new)) }
        ensures marks { (worlds : Worlds) → IsWorldMarked worlds world.old.1
            → IsWorldMarked worlds world.new.1 }
    {
        let mut gathered = GatheredForms::new(batch.alloc, self.limit);
        if !gathered.add(world, macros, batch, self.wanted, self.first)? {
            return Ok(None);
        }
        let mut rest = self.rest;
        'forms: while !rest.is_empty() {
            if gathered.is_full() {
                return Ok(Some(gathered));
            }
            match gathered.add_next(world, macros, batch, self.wanted, rest)? {
                Some(count) => rest = &rest[count..],
                None => return Ok(Some(gathered)),
            }
        }
        Ok(Some(gathered))
    }
}

impl<R: MacroFunctions> Turn<R> for WholeForms<'_> {
    ghost use Rattle.sessions.specs.steps.Answer.{IsFormOf};

    type Made = Option<GatheredForms>;

    ghost needs = { λ turn world. MayBeTaken R.Meaning.functions turn world };

    ghost makes = { λ turn world left records made. AreWholeFormsTaken R.Meaning.functions turn world left records made };

    fn take(
        &self,
        world: &mut World,
        macros: &WholeMacros<R>,
        batch: &mut Batch,
    ) -> Result<Option<GatheredForms>, AllocError> {
        self.gather(world, macros, batch)
    }
}

/// Evaluates a form that was read and those that stand whole after it in a piece, and logs those that wrote together. There are
/// none if the first has no room within the limit, or if it is refused and the session is strict. If its recipient is listening, they
/// end before a form that is refused as in a strict session. Unless they were logged, or the device failed, the store is as it was.
pub(crate) fn take_group<D: Disk, R: MacroFunctions>(
    store: &mut Store<D, R>,
    turn: &WholeForms<'_>,
    listening: bool,
) -> Result<Option<GatheredForms>, Unlogged>
    requires form { IsFormOf R.Meaning.functions store.old.world turn.now.wanted.mode
        turn.now.first.now.read turn.now.first.now.own.items }
    requires begins { (world : WorldState) → store.old.world ≡ Some world
        → (text : List ℕ) × (BeginsWhole R.Meaning.functions world turn.now.wanted.mode text
        (object_of turn.now.first.now.read.datum) turn.now.first.now.own.items turn.now.first.now.next
        × (drop turn.now.first.now.next text ≡ turn.now.rest.now)) }
    requires some { 0 < turn.now.first.now.next }
    requires room { turn.now.first.now.next + length turn.now.rest.now < 2 ^ 63 }
    requires most { 0 < turn.now.limit.forms }
    ensures takes { (world : WorldState) → store.old.world ≡ Some world
        → (text : List ℕ) → BeginsWhole R.Meaning.functions world turn.now.wanted.mode text
        (object_of turn.now.first.now.read.datum) turn.now.first.now.own.items turn.now.first.now.next
        → drop turn.now.first.now.next text ≡ turn.now.rest.now
        → TakesGroup R.Meaning.functions turn.now.wanted D.state store.old store.new world text result }
    ensures counts { IfOk result (λ made. IfSome made
        (AreWithinLimit turn.now.first.now.next (length turn.now.rest.now) turn.now.limit)) }
    ensures honest { (D.state store.new.disk).honest ≡ (D.state store.old.disk).honest }
{
    open_world(store).soundness();
    let strict = either(turn.wanted.strict, listening);
    let wanted = SessionOptions {
        strict,
        ..turn.wanted
    };
    let turn = WholeForms { wanted, ..*turn };
    store.together(&turn)
}
