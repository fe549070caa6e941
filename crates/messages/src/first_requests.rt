// The first of some requests, as a turn that makes their answers.
ghost use Rattle.std.specs.Prelude.{◌≡◌, IfOk};
ghost use Rattle.plist_state.specs.State.{Worlds};
ghost use Rattle.messages.specs.Turn.{MakesReplies};
ghost use Rattle.prevalence_store.specs.steps.Batch.{IsEmpty, IsWorldMarked, entries_in};

use crate::place::PositionPlace;
use crate::request::{Replies, Request};
use crate::round::Round;
use plist_state::World;
use prevalence_store::{Batch, Turn, Unadded, WholeMacros};
use std::alloc::AllocError;
use user_macros::MacroFunctions;

/// The first of these requests, until their answers have so many bytes, or all; and the number of the last message before them.
#[derive(Clone, Copy)]
pub(crate) struct FirstRequests<'a, 'b> {
    pub(crate) last: u64,
    pub(crate) requests: &'a [Request<'b>],
    pub(crate) most: Option<usize>,
}

impl FirstRequests<'_, '_> {
    // Answers them one after the other, and adds what those that wrote need to a batch that has none, with the position. Where none
    // wrote, or a form of the store's own is refused, nothing is added, and the world is as it was.
    fn answer<R: MacroFunctions>(
        &self,
        world: &mut World,
        macros: &WholeMacros<R>,
        batch: &mut Batch,
    ) -> Result<Result<Replies, u16>, AllocError>
        requires none { IsEmpty batch.old }
        ensures made { IfOk result (MakesReplies R.Meaning.functions self.now
            world.old.0 world.new.0 (entries_in batch.new)) }
        ensures marks { (worlds : Worlds) → IsWorldMarked worlds world.old.1
            → IsWorldMarked worlds world.new.1 }
    {
        let place = PositionPlace::new(batch.alloc)?;
        let mark = world.mark_count();
        let begun = Batch::begin(batch.alloc, world)?;
        let mut round = Round::new(begun, place, self.last, world);
        match round.answer_up_to(world, macros, self.requests, self.most) {
            Ok(()) => {}
            Err(Unadded::Refused(number)) => {
                world.back_to(mark);
                return Ok(Err(number));
            }
            Err(Unadded::OutOfMemory) => return Err(AllocError),
        }
        let wrote = round.wrote;
        let (replies, records) = round.into_parts();
        if !wrote {
            world.back_to(mark);
            return Ok(Ok(replies));
        }
        *batch = records;
        Ok(Ok(replies))
    }
}

impl<R: MacroFunctions> Turn<R> for FirstRequests<'_, '_> {
    ghost use Rattle.messages.specs.Turn.{MakesReplies};

    type Made = Result<Replies, u16>;

    ghost needs = { λ turn world. Unit {0} };

    ghost makes = { λ turn world left records made. MakesReplies R.Meaning.functions turn world left records made };

    fn take(
        &self,
        world: &mut World,
        macros: &WholeMacros<R>,
        batch: &mut Batch,
    ) -> Result<Result<Replies, u16>, AllocError> {
        self.answer(world, macros, batch)
    }
}
