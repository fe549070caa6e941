// Steps one after the other.
ghost use Rattle.std.specs.Prelude.{◌≡◌, [], IfOk, OnErr};
ghost use Rattle.std.specs.List.{All};
ghost use Rattle.plist_state.specs.State.{WorldState};
ghost use Rattle.prevalence_store.specs.calls.Execute.{IsProperOutcome, SurvivesAs};
ghost use Rattle.prevalence_store.specs.calls.Run.{TakesStep, TakesSteps, acknowledged_in_steps, taken_in_steps};

use crate::outcome::Outcome;
use crate::step::Step;
use crate::store::Store;
use disk_trait::Disk;
use std::alloc::AllocError;
use user_macros::MacroFunctions;

impl<D: Disk, R: MacroFunctions> Store<D, R> {
    /// Takes the steps in order, and gives the outcome of each: what `execute` or `snapshot` answers in the state that the
    /// steps before it left. After a device fault it is 61.
    ///
    /// A crash at any moment leaves the world after some of the forms that were accepted, from the first on; once it has
    /// ended, at least after all those that its outcomes call accepted.
    ///
    /// # Errors
    ///
    /// If there is no room for all outcomes. It is taken first, so that nothing has been done then, and the world
    /// survives.
    pub fn run(&mut self, steps: &[Step]) -> Result<Vec<Outcome>, AllocError>
        ensures takes { IfOk result (λ outcomes. TakesSteps R.Meaning.functions D.state
            self.old self.new steps.now outcomes.items) }
        ensures survives { (world : WorldState) → IfOk result (λ outcomes.
            SurvivesAs R.Meaning.functions D.state self.old self.new world
            (taken_in_steps R.Meaning.functions world steps.now outcomes.items)
            (acknowledged_in_steps R.Meaning.functions world steps.now outcomes.items)) }
        ensures proper { IfOk result (λ outcomes. All IsProperOutcome outcomes.items) }
        ensures unchanged { OnErr result (self.new ≡ self.old) }
        ensures nothing_taken { (world : WorldState) → OnErr result
            (SurvivesAs R.Meaning.functions D.state self.old self.new world [] 0) }
        ensures honest { (D.state self.new.disk).honest ≡ (D.state self.old.disk).honest }
        ensures macros { self.new.macros ≡ self.old.macros }
    {
        let mut outcomes = Vec::with_capacity(self.alloc, steps.len())?;
        'steps: for step in steps {
            let outcome = self.step(step);
            outcomes.push_reserved(outcome);
        }
        Ok(outcomes)
    }

    // Takes one step.
    fn step(&mut self, step: &Step) -> Outcome
        ensures takes { TakesStep R.Meaning.functions D.state self.old self.new
            self.old.world step.now result }
        ensures proper { IsProperOutcome result }
        ensures honest { (D.state self.new.disk).honest ≡ (D.state self.old.disk).honest }
        ensures macros { self.new.macros ≡ self.old.macros }
    {
        match step {
            Step::Form(mode, text) => self.execute(*mode, *text),
            Step::Snapshot => self.snapshot(),
        }
    }
}
