// A step, of what is done next.
ghost use Rattle.std.specs.Prelude.{◌≡◌, List, [], false};
ghost use Rattle.lisp_object.specs.Object.{Object};
ghost use Rattle.lisp_object.specs.Datum.{object_of};
ghost use Rattle.package_table.specs.Table.{Name, Table};
ghost use Rattle.plist_state.specs.State.{WorldState};
ghost use Rattle.lisp_operators.specs.EvaluationAnswers.{IsArgument};
ghost use Rattle.lisp_operators.specs.Readtables.{AreFunctionNames};
ghost use Rattle.kept_functions.specs.Counting.{Counting, here};
ghost use Rattle.lexical_evaluation.specs.Machine.{Ways, ComesOn, comes_to, next_value, point_of};
ghost use Rattle.lexical_evaluation.specs.Ways.{ways};
ghost use Rattle.lexical_evaluation.specs.Arguments.{IsMachineOf, IsNextOf, IsLeftOf};
ghost use Rattle.lexical_evaluation.specs.declared.machine.Machine.{Machine};
ghost use Rattle.lexical_evaluation.specs.Steps.{StepsTo, IsSteppedOf};

use super::{Machine, NextStep, Stepped};
use lisp_object::Datum;
use lisp_operators::EvaluationError;
use plist_state::World;
use readtable_core::FnName;
use std::alloc::Global;

// What is done next goes on.
fn goes_on(step: Result<NextStep, EvaluationError>) -> Result<Stepped, EvaluationError>
    ensures gives { (w : Ways) (s : WorldState) (o : Counting Object) (m : Machine)
        → ComesOn w s o m step → StepsTo w s o m result }
    ensures arguments { (u : Table) (m : Machine) → IsLeftOf u m step → IsSteppedOf u m result }
{
    match step {
        Ok(next) => Ok(Stepped::GoesOn(next)),
        Err(error) => Err(error),
    }
}

impl Machine {
    /// Nothing waits, and no variable has a value.
    pub(crate) fn new(alloc: Global, left: u32, deeper: usize) -> Machine
        ensures frames { result.frames.items ≡ [] }
        ensures bindings { result.bindings.items ≡ [] }
        ensures left { result.left ≡ left }
        ensures deeper { result.deeper ≡ deeper }
        ensures wrote { result.wrote ≡ false }
    {
        Machine {
            alloc,
            frames: Vec::new(alloc),
            bindings: Vec::new(alloc),
            left,
            deeper,
            wrote: false,
        }
    }

    // A value is given to the innermost that waits.
    fn give(&mut self, world: &World, value: Datum) -> Result<Stepped, EvaluationError>
        requires machine { IsMachineOf world.now.0.packages self.old }
        requires value { IsArgument world.now.0.packages value }
        ensures gives { (names : List Name) → StepsTo (ways names) world.now.0
            (comes_to (ways names) self.old (here (object_of value) (point_of self.old world.now.0))) self.new result }
        ensures arguments { IsSteppedOf world.now.0.packages self.new result }
    {
        match self.frames.pop() {
            None => Ok(Stepped::Reached(value)),
            Some(frame) => goes_on(self.resume(frame, value)),
        }
    }

    /// What is done next. Where it is refused, or memory runs out, what was carried out before stays, and the marks are as they were.
    pub(crate) fn step(
        &mut self,
        world: &mut World,
        names: &[FnName],
        next: NextStep,
    ) -> Result<Stepped, EvaluationError>
        requires names { AreFunctionNames names.now }
        requires machine { IsMachineOf world.old.0.packages self.old }
        requires next { IsNextOf world.old.0.packages next }
        ensures gives { StepsTo (ways names.now) world.new.0
            (comes_to (ways names.now) self.old (next_value (ways names.now) world.old.0 self.old next)) self.new result }
        ensures arguments { IsSteppedOf world.new.0.packages self.new result }
        ensures marked { world.new.1 ≡ world.old.1 }
    {
        match next {
            NextStep::Evaluate(form) => goes_on(self.begin(world, form)),
            NextStep::Finish(target, values) => goes_on(self.finish(world, names, target, values)),
            NextStep::Give(value) => self.give(world, value),
        }
    }
}
