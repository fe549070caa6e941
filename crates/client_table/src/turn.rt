// The first of what is asked, as a turn that makes the answers.
ghost use Rattle.std.specs.Prelude.{◌≡◌, [], Some, IfErr, IfOk, OnOk};
ghost use Rattle.messages.specs.declared.request.TheConstants.{ANSWER_BYTES};
ghost use Rattle.client_table.specs.CallsByName.{KeepsAnswers, KeepsRequest, RefusesAsked, RefusesAnyOwn};
ghost use Rattle.client_table.specs.Named.{all_answered, each_asked, one_asked};
ghost use Rattle.client_table.specs.Turn.{MakesAnswers, first_asked};
ghost use Rattle.messages.specs.Rounds.{IfRefused, StaysMade, round_in};
ghost use Rattle.plist_state.specs.State.{Worlds};
ghost use Rattle.prevalence_store.specs.steps.Batch.{IsEmpty, IsWorldMarked, entries_in};

use crate::asked::AnyRequest;
use crate::table::answer_named;
use messages::{ANSWER_BYTES, Replies, Round};
use plist_state::World;
use prevalence_store::{Batch, Turn, Unadded, WholeMacros};
use std::alloc::AllocError;
use user_macros::MacroFunctions;

/// The first of what is asked, until the answers have `ANSWER_BYTES` bytes, or all; the number of the last message before them; and how many
/// clients the table has at most.
#[derive(Clone, Copy)]
pub(crate) struct FirstAsked<'a, 'b> {
    pub(crate) last: u64,
    pub(crate) most: u64,
    pub(crate) asked: &'a [AnyRequest<'b>],
}

impl FirstAsked<'_, '_> {
    // Answers them one after the other, and adds what those that wrote need to a batch that has none, with the position. Where none
    // wrote, or a form of the store's own is refused, nothing is added, and the world is as it was.
    fn answer<R: MacroFunctions>(
        &self,
        world: &mut World,
        macros: &WholeMacros<R>,
        batch: &mut Batch,
    ) -> Result<Result<Replies, u16>, AllocError>
        requires none { IsEmpty batch.old }
        ensures made { IfOk result (MakesAnswers R.Meaning.functions self.now
            world.old.0 world.new.0 (entries_in batch.new)) }
        ensures marks { (worlds : Worlds) → IsWorldMarked worlds world.old.1
            → IsWorldMarked worlds world.new.1 }
    {
        let mark = world.mark_count();
        let mut round = Round::begin(batch.alloc, world, self.last)?;
        match self.answer_up_to(&mut round, world, macros) {
            Ok(()) => {}
            Err(Unadded::Refused(number)) => {
                world.back_to(mark);
                return Ok(Err(number));
            }
            Err(Unadded::OutOfMemory) => return Err(AllocError),
        }
        let wrote = round.has_written();
        let (replies, records) = round.into_parts();
        if !wrote {
            world.back_to(mark);
            return Ok(Ok(replies));
        }
        *batch = records;
        Ok(Ok(replies))
    }

    // Answers them, and makes the number of the last message the position, if a message wrote.
    fn answer_up_to<R: MacroFunctions>(
        &self,
        round: &mut Round,
        world: &mut World,
        macros: &WholeMacros<R>,
    ) -> Result<(), Unadded>
        requires none { (round_in round.old world.old.0).told ≡ [] }
        ensures answered { OnOk result (round_in round.new world.new.0
            ≡ all_answered R.Meaning.functions self.now.most (round_in round.old world.old.0)
            (first_asked R.Meaning.functions self.now.most (Some ANSWER_BYTES)
            (round_in round.old world.old.0) self.now.asked.now)) }
        ensures kept { OnOk result (KeepsAnswers R.Meaning.functions self.now.most
            (round_in round.old world.old.0)
            (first_asked R.Meaning.functions self.now.most (Some ANSWER_BYTES)
            (round_in round.old world.old.0) self.now.asked.now)) }
        ensures made { OnOk result (StaysMade R.Meaning.functions
            (round_in round.old world.old.0) (round_in round.new world.new.0)) }
        ensures refused { IfErr result (λ cause. IfRefused cause
            (RefusesAnyOwn R.Meaning.functions self.now.most (round_in round.old world.old.0)
            (first_asked R.Meaning.functions self.now.most (Some ANSWER_BYTES)
            (round_in round.old world.old.0) self.now.asked.now))) }
        ensures marks { (worlds : Worlds) → IsWorldMarked worlds world.old.1
            → IsWorldMarked worlds world.new.1 }
    {
        match self.answer_each(round, world, macros) {
            Ok(()) => round.close(world, macros),
            Err(failure) => Err(failure),
        }
    }

    // Answers them one after the other.
    fn answer_each<R: MacroFunctions>(
        &self,
        round: &mut Round,
        world: &mut World,
        macros: &WholeMacros<R>,
    ) -> Result<(), Unadded>
        requires none { (round_in round.old world.old.0).told ≡ [] }
        ensures answered { OnOk result (round_in round.new world.new.0
            ≡ each_asked R.Meaning.functions self.now.most (round_in round.old world.old.0)
            (first_asked R.Meaning.functions self.now.most (Some ANSWER_BYTES)
            (round_in round.old world.old.0) self.now.asked.now)) }
        ensures kept { OnOk result (KeepsAnswers R.Meaning.functions self.now.most
            (round_in round.old world.old.0)
            (first_asked R.Meaning.functions self.now.most (Some ANSWER_BYTES)
            (round_in round.old world.old.0) self.now.asked.now)) }
        ensures made { OnOk result (StaysMade R.Meaning.functions
            (round_in round.old world.old.0) (round_in round.new world.new.0)) }
        ensures refused { IfErr result (λ cause. IfRefused cause
            (RefusesAnyOwn R.Meaning.functions self.now.most (round_in round.old world.old.0)
            (first_asked R.Meaning.functions self.now.most (Some ANSWER_BYTES)
            (round_in round.old world.old.0) self.now.asked.now))) }
        ensures marks { (worlds : Worlds) → IsWorldMarked worlds world.old.1
            → IsWorldMarked worlds world.new.1 }
    {
        let (most, asked) = (self.most, self.asked);
        let mut room = ANSWER_BYTES;
        for one in asked {
            match answer_one(round, world, macros, most, one) {
                Ok(()) => {}
                Err(failure) => return Err(failure),
            }
            room = room.saturating_sub(round.last_length());
            if room == 0 {
                return Ok(());
            }
        }
        Ok(())
    }
}

// Answers one more.
fn answer_one<R: MacroFunctions>(
    round: &mut Round,
    world: &mut World,
    macros: &WholeMacros<R>,
    most: u64,
    one: &AnyRequest<'_>,
) -> Result<(), Unadded>
    ensures answered { OnOk result (round_in round.new world.new.0
        ≡ one_asked R.Meaning.functions most (round_in round.old world.old.0) one.now) }
    ensures kept { OnOk result (KeepsRequest (round_in round.old world.old.0) one.now
        (round_in round.new world.new.0)) }
    ensures made { OnOk result (StaysMade R.Meaning.functions
        (round_in round.old world.old.0) (round_in round.new world.new.0)) }
    ensures refused { IfErr result (λ cause. IfRefused cause
        (RefusesAsked R.Meaning.functions most (round_in round.old world.old.0) one.now)) }
    ensures marks { (worlds : Worlds) → IsWorldMarked worlds world.old.1
        → IsWorldMarked worlds world.new.1 }
{
    match one {
        AnyRequest::Request(request) => round.answer_one(world, macros, request),
        AnyRequest::Named(named) => answer_named(round, world, macros, most, named),
    }
}

impl<R: MacroFunctions> Turn<R> for FirstAsked<'_, '_> {
    ghost use Rattle.client_table.specs.Turn.{MakesAnswers};

    type Made = Result<Replies, u16>;

    ghost needs = { λ turn world. Unit {0} };

    ghost makes = { λ turn world left records made. MakesAnswers R.Meaning.functions turn world left records made };

    fn take(
        &self,
        world: &mut World,
        macros: &WholeMacros<R>,
        batch: &mut Batch,
    ) -> Result<Result<Replies, u16>, AllocError> {
        self.answer(world, macros, batch)
    }
}
