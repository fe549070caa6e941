// The first of some requests, answered until their answers have so many bytes.
// After an error the world and the round may have changed: the marks of the world lead back.
ghost use Rattle.std.specs.Prelude.{◌≡◌, ℕ, Bool, List, [], ◌∷◌, ◌++◌, false, length, map, IfErr, OnOk};
ghost use Rattle.plist_state.specs.State.{Worlds};
ghost use Rattle.messages.specs.MessageAnswers.{round_after_requests, with_its_position, each_request};
ghost use Rattle.messages.specs.MessageCalls.{IsNotClosed, RefusesOwn};
ghost use Rattle.messages.specs.Fronts.{first_of, is_none_left, room_left};
ghost use Rattle.messages.specs.Rounds.{IfRefused, StaysMade, round_in, told_in};
ghost use Rattle.prevalence_store.specs.steps.Batch.{IsWorldMarked};

use crate::own::Own;
use crate::request::Request;
use crate::round::Round;
use plist_state::World;
use prevalence_store::{Unadded, WholeMacros};
use user_macros::MacroFunctions;

impl Round {
    /// Answers the first of these requests, until their answers have so many bytes, or all; and makes the number of the
    /// last message the position if a message wrote. After an error the world and the round may have changed: the marks
    /// of the world lead back.
    pub(crate) fn answer_up_to<R: MacroFunctions>(
        &mut self,
        world: &mut World,
        macros: &WholeMacros<R>,
        requests: &[Request<'_>],
        most: Option<usize>,
    ) -> Result<(), Unadded>
        requires none { (round_in self.old world.old.0).told ≡ [] }
        ensures answered { OnOk result (round_in self.new world.new.0
            ≡ round_after_requests R.Meaning.functions (round_in self.old world.old.0)
            (first_of R.Meaning.functions most (round_in self.old world.old.0) requests.now)) }
        ensures made { OnOk result
            (StaysMade R.Meaning.functions (round_in self.old world.old.0) (round_in self.new world.new.0)) }
        ensures refused { IfErr result (λ cause. IfRefused cause
            (RefusesOwn R.Meaning.functions (round_in self.old world.old.0)
            (first_of R.Meaning.functions most (round_in self.old world.old.0) requests.now))) }
        ensures marks { (worlds : Worlds) → IsWorldMarked worlds world.old.1
            → IsWorldMarked worlds world.new.1 }
    {
        match self.answer_each(world, macros, requests, most) {
            Ok(()) => self.close(world, macros),
            Err(failure) => Err(failure),
        }
    }

    // Answers the first of these requests, until their answers have so many bytes, or all.
    fn answer_each<R: MacroFunctions>(
        &mut self,
        world: &mut World,
        macros: &WholeMacros<R>,
        requests: &[Request<'_>],
        most: Option<usize>,
    ) -> Result<(), Unadded>
        requires none { (round_in self.old world.old.0).told ≡ [] }
        ensures answered { OnOk result (round_in self.new world.new.0
            ≡ each_request R.Meaning.functions (round_in self.old world.old.0)
            (first_of R.Meaning.functions most (round_in self.old world.old.0) requests.now)) }
        ensures made { OnOk result
            (StaysMade R.Meaning.functions (round_in self.old world.old.0) (round_in self.new world.new.0)) }
        ensures refused { IfErr result (λ cause. IfRefused cause
            (RefusesOwn R.Meaning.functions (round_in self.old world.old.0)
            (first_of R.Meaning.functions most (round_in self.old world.old.0) requests.now))) }
        ensures marks { (worlds : Worlds) → IsWorldMarked worlds world.old.1
            → IsWorldMarked worlds world.new.1 }
    {
        let mut room = most;
        for request in requests {
            match self.answer_one(world, macros, request) {
                Ok(()) => {}
                Err(failure) => return Err(failure),
            }
            room = less(room, self.last_length());
            if is_used_up(room) {
                return Ok(());
            }
        }
        Ok(())
    }

    /// How many bytes the last answer has.
    pub fn last_length(&self) -> usize
        ensures { (told : List (List ℕ × Bool)) (answer : List ℕ × Bool)
            → map told_in self.now.answers.items ≡ told ++ answer ∷ []
            → result ≡ length answer.0 }
    {
        match self.answers.as_slice().last() {
            Some(answer) => answer.text.as_slice().len(),
            None => 0,
        }
    }

    /// Makes the number of the last message the position, if a message wrote.
    #[tactic(auto, using(crate::proofs::Owned::not_closed))]
    pub fn close<R: MacroFunctions>(
        &mut self,
        world: &mut World,
        macros: &WholeMacros<R>,
    ) -> Result<(), Unadded>
        ensures closed { OnOk result (round_in self.new world.new.0
            ≡ with_its_position (round_in self.old world.old.0)) }
        ensures made { OnOk result
            (StaysMade R.Meaning.functions (round_in self.old world.old.0) (round_in self.new world.new.0)) }
        ensures refused { IfErr result (λ cause. IfRefused cause
            (IsNotClosed R.Meaning.functions (round_in self.old world.old.0))) }
        ensures marks { (worlds : Worlds) → IsWorldMarked worlds world.old.1
            → IsWorldMarked worlds world.new.1 }
    {
        if self.wrote {
            self.carry_out_own(world, macros, Own::Position(self.last))
        } else {
            Ok(())
        }
    }
}

// What is left of a room after so many bytes, if it has a bound.
fn less(room: Option<usize>, bytes: usize) -> Option<usize>
    ensures { result ≡ room_left room bytes }
{
    match room {
        Some(left) => Some(left.saturating_sub(bytes)),
        None => None,
    }
}

// Whether nothing is left of a room.
fn is_used_up(room: Option<usize>) -> bool
    ensures { result ≡ is_none_left room }
{
    match room {
        Some(left) => left == 0,
        None => false,
    }
}
