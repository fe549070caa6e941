// Functions are called.
ghost use Rattle.std.specs.Prelude.{ℕ, ◌≡◌, ◌^◌, ◌-◌, ◌<◌, min, IfOk};
ghost use Rattle.lisp_object.specs.Object.{list_of};
ghost use Rattle.lisp_object.specs.Datum.{object_of};
ghost use Rattle.package_table.specs.Table.{Table};
ghost use Rattle.plist_state.specs.State.{WorldState};
ghost use Rattle.lisp_operators.specs.EvaluationAnswers.{AreProper, objects};
ghost use Rattle.lisp_operators.specs.Members.{symbols_in};
ghost use Rattle.kept_functions.specs.Environments.{binding};
ghost use Rattle.kept_functions.specs.KeptFunctions.{stored_definition, IsProperDefinition};
ghost use Rattle.lexical_evaluation.specs.Machine.{Ways, StepsOn, KeepsOutcome, RunsBody, Spends, Enters, IsCalling, progn_in, written_in, to_come};
ghost use Rattle.lexical_evaluation.specs.Arguments.{AreArguments, HaveArguments, IsMachineOf, StepsToArguments};
ghost use Rattle.plist_state.specs.Sound.{IsValue};

use super::binding::bound_to;
use super::{Machine, NextStep};
use crate::frame::Awaiting;
use kept_functions::bounds::{CALLS_TOO_DEEP, TOO_MANY_STEPS};
use kept_functions::{Binding, StoredDefinition, variables_in, weight_of_list};
use lisp_object::Datum;
use lisp_object::refusal::{ARGUMENT_COUNT, ARGUMENT_KIND};
use lisp_operators::EvaluationError;
use lisp_operators::EvaluationError::Refused;
use std::alloc::{AllocError, Global};
use std::mem;

// Copies of forms, the next one last.
fn copied_to_come(alloc: Global, forms: &[Datum]) -> Result<Vec<Datum>, AllocError>
    ensures forms { IfOk result (λ v. to_come v.items ≡ list_of (objects forms.now)) }
    ensures proper { AreProper forms.now → IfOk result (λ v. AreProper v.items) }
{
    let mut copies = Vec::new(alloc);
    let mut index = forms.len();
    while 0 < index {
        index -= 1;
        copies.push(forms[index].copy(alloc)?)?;
    }
    Ok(copies)
}

impl Machine {
    /// So many steps are taken; 2^64-1 stands for any number from there on.
    pub(crate) fn spend(&mut self, steps: u64) -> Result<(), EvaluationError>
        ensures { (n : ℕ) → steps ≡ min n (2 ^ 64 - 1) → Spends n self.old self.new result }
    {
        if u64::from(self.left) < steps {
            return Err(Refused(TOO_MANY_STEPS));
        }
        self.left -= steps as u32;
        Ok(())
    }

    // A function begins, which sees these variables alone.
    fn enter(&mut self, made: Vec<Binding>) -> Result<(), AllocError>
        requires { 0 < self.old.deeper }
        ensures enters { IfOk result (λ _. Enters self.old self.new made.items) }
        ensures arguments { (u : Table) → IsMachineOf u self.old → HaveArguments u made.items
            → IfOk result (λ _. IsMachineOf u self.new) }
    {
        let before = mem::replace(&mut self.bindings, made);
        self.frames.push(Awaiting::Call(before, self.deeper))?;
        self.deeper -= 1;
        Ok(())
    }

    // The body of a function of the world, whose steps are taken.
    fn function_body(
        &mut self,
        definition: StoredDefinition<'_>,
        values: Vec<Datum>,
    ) -> Result<NextStep, EvaluationError>
        requires deeper { 0 < self.old.deeper }
        requires definition { IsProperDefinition definition }
        ensures gives { RunsBody self.old self.new result (stored_definition definition.entry)
            (objects values.items) }
        ensures arguments { StepsToArguments self.old self.new result
            (λ u. IsValue u (stored_definition definition.entry).body × AreArguments u values.items) }
    {
        let made = bound_to(self.alloc, definition.variables, values)?;
        let forms = copied_to_come(self.alloc, definition.body)?;
        self.enter(made)?;
        self.sequence(forms)
    }

    /// A function of the world, of these values.
    pub(crate) fn call_function(
        &mut self,
        definition: StoredDefinition<'_>,
        values: Vec<Datum>,
    ) -> Result<NextStep, EvaluationError>
        requires { IsProperDefinition definition }
        ensures gives { (w : Ways) (s : WorldState)
            → IsCalling w → KeepsOutcome w s s self.old self.new result
            (λ rules around p. rules.call (stored_definition definition.entry) (objects values.items) p) }
        ensures arguments { StepsToArguments self.old self.new result
            (λ u. IsValue u (stored_definition definition.entry).body × AreArguments u values.items) }
    {
        if self.deeper == 0 {
            return Err(Refused(CALLS_TOO_DEEP));
        }
        if definition.variables.len() != values.len() {
            return Err(Refused(ARGUMENT_COUNT));
        }
        self.spend(weight_of_list(definition.body))?;
        self.function_body(definition, values)
    }

    // The body of a function that a form writes down, whose steps are taken, the next form last.
    fn written_body(
        &mut self,
        variables: &[Datum],
        forms: Vec<Datum>,
        values: Vec<Datum>,
    ) -> Result<NextStep, EvaluationError>
        requires { AreProper variables.now }
        ensures gives { StepsOn self.old self.new result
            (λ does rules around p. progn_in rules (binding (symbols_in variables.now) (objects values.items) around) (to_come forms.items) p) }
        ensures arguments { StepsToArguments self.old self.new result
            (λ u. AreArguments u forms.items × AreArguments u values.items) }
    {
        let made = bound_to(self.alloc, variables, values)?;
        self.scope(made)?;
        self.sequence(forms)
    }

    /// A function that a form writes down, of these values, inside of the variables around it.
    pub(crate) fn call_written(
        &mut self,
        parts: Vec<Datum>,
        values: Vec<Datum>,
    ) -> Result<NextStep, EvaluationError>
        requires { AreProper parts.items }
        ensures gives { StepsOn self.old self.new result
            (λ does rules around p. written_in rules around (list_of (objects parts.items)) (objects values.items) p) }
        ensures arguments { StepsToArguments self.old self.new result
            (λ u. AreArguments u parts.items × AreArguments u values.items) }
    {
        let steps = weight_of_list(parts.as_slice());
        let mut forms = parts;
        forms.reverse();
        match forms.pop() {
            None => Err(Refused(ARGUMENT_COUNT)),
            Some(written) => match variables_in(&written) {
                None => Err(Refused(ARGUMENT_KIND)),
                Some(variables) => {
                    if variables.len() != values.len() {
                        return Err(Refused(ARGUMENT_COUNT));
                    }
                    self.spend(steps)?;
                    self.written_body(variables, forms, values)
                }
            },
        }
    }
}
