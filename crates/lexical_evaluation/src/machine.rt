//! Evaluation with a stack of its own: what is done next, and what waits.
ghost use Rattle.std.specs.Prelude.{◌≡◌, ◌<◌, [], reverse, map, length};
ghost use Rattle.lisp_object.specs.Datum.{object_of};
ghost use Rattle.lisp_operators.specs.ArgumentKinds.{is_true};
ghost use Rattle.lisp_operators.specs.EvaluationAnswers.{IsProper, objects, IsArgument};
ghost use Rattle.evaluator.specs.Value.{has_truth};
ghost use Rattle.lexical_evaluation.specs.Values.{sought_value_in, guarded_in};
ghost use Rattle.lexical_evaluation.specs.Machine.{StepsOn, progn_in, chosen_in, gathered_in, guard_in, asserted_in, sought_after, to_come};
ghost use Rattle.lexical_evaluation.specs.Arguments.{AreArguments, IsTargetOf, StepsToArguments};

use crate::frame::{Awaiting, Target};
use kept_functions::Binding;
use lisp_object::Datum;
use lisp_object::refusal::{ARGUMENT_COUNT, ASSERTION_FAILED};
use lisp_operators::EvaluationError::Refused;
use lisp_operators::{EvaluationError, kinds, values};
use std::alloc::Global;

mod applying;
mod beginning;
mod binding;
mod calling;
mod conditional;
mod deciding;
mod finishing;
mod head;
mod places;
mod resuming;
mod stepping;

/// What is done next: a form is evaluated, a value is given to what waits for it, or the values of arguments are all there.
#[derive(Drop)]
pub(crate) enum NextStep {
    Evaluate(Datum),
    Give(Datum),
    Finish(Target, Vec<Datum>),
}

/// What a step comes to: it goes on with what is done next, or the value is reached.
#[derive(Drop)]
pub(crate) enum Stepped {
    GoesOn(NextStep),
    Reached(Datum),
}

/// An evaluation that goes on: what waits for values, the variables that are seen, how many steps are left, how many calls may still
/// be in one another, and whether anything was written.
#[derive(Drop)]
pub(crate) struct Machine {
    pub alloc: Global,
    pub frames: Vec<Awaiting>,
    pub bindings: Vec<Binding>,
    pub left: u32,
    pub deeper: usize,
    pub wrote: bool,
}

impl Machine {
    /// Forms of which the last one's value is wanted, the next one last.
    pub(crate) fn sequence(&mut self, forms: Vec<Datum>) -> Result<NextStep, EvaluationError>
        ensures gives { StepsOn self.old self.new result
            (λ does rules around p. progn_in rules around (to_come forms.items) p) }
        ensures arguments { StepsToArguments self.old self.new result (λ u. AreArguments u forms.items) }
    {
        let mut forms = forms;
        match forms.pop() {
            None => Ok(NextStep::Give(values::empty_list(self.alloc)?)),
            Some(form) => {
                if forms.is_empty() {
                    return Ok(NextStep::Evaluate(form));
                }
                self.frames.push(Awaiting::Sequence(forms))?;
                Ok(NextStep::Evaluate(form))
            }
        }
    }

    /// IF: the second form or the third, the next one last.
    pub(crate) fn choose(
        &mut self,
        forms: Vec<Datum>,
        test: &Datum,
    ) -> Result<NextStep, EvaluationError>
        requires { IsProper test.now }
        ensures gives { StepsOn self.old self.new result
            (λ does rules around p. chosen_in rules around (is_true (object_of test.now)) (map object_of (reverse forms.items)) p) }
        ensures arguments { StepsToArguments self.old self.new result (λ u. AreArguments u forms.items) }
    {
        let mut forms = forms;
        let second = forms.pop();
        let chosen = if kinds::is_true(test) {
            second
        } else {
            forms.pop()
        };
        match chosen {
            Some(form) => Ok(NextStep::Evaluate(form)),
            None => Ok(NextStep::Give(values::empty_list(self.alloc)?)),
        }
    }

    /// The values of forms, the next one last, after these values.
    pub(crate) fn gather(
        &mut self,
        target: Target,
        forms: Vec<Datum>,
        values: Vec<Datum>,
    ) -> Result<NextStep, EvaluationError>
        ensures gives { StepsOn self.old self.new result
            (λ does rules around p. gathered_in rules does around target (objects values.items) (to_come forms.items) p) }
        ensures arguments { StepsToArguments self.old self.new result
            (λ u. IsTargetOf u target × AreArguments u forms.items × AreArguments u values.items) }
    {
        let mut forms = forms;
        match forms.pop() {
            None => Ok(NextStep::Finish(target, values)),
            Some(form) => {
                self.frames
                    .push(Awaiting::Arguments(target, forms, values))?;
                Ok(NextStep::Evaluate(form))
            }
        }
    }

    /// AND and OR of forms, of which there is one, the next one last.
    pub(crate) fn seek(
        &mut self,
        truth: bool,
        forms: Vec<Datum>,
    ) -> Result<NextStep, EvaluationError>
        requires { 0 < length forms.items }
        ensures gives { StepsOn self.old self.new result
            (λ does rules around p. sought_value_in rules around truth p (to_come forms.items)) }
        ensures arguments { StepsToArguments self.old self.new result (λ u. AreArguments u forms.items) }
    {
        let mut forms = forms;
        match forms.pop() {
            None => unreachable!(),
            Some(form) => {
                if forms.is_empty() {
                    return Ok(NextStep::Evaluate(form));
                }
                self.frames.push(Awaiting::Seek(truth, forms))?;
                Ok(NextStep::Evaluate(form))
            }
        }
    }

    /// AND and OR, where a form has this value.
    pub(crate) fn sought(
        &mut self,
        truth: bool,
        forms: Vec<Datum>,
        value: Datum,
    ) -> Result<NextStep, EvaluationError>
        requires { IsProper value }
        ensures gives { StepsOn self.old self.new result
            (λ does rules around p. sought_after rules around truth (object_of value) (to_come forms.items) p) }
        ensures arguments { StepsToArguments self.old self.new result
            (λ u. AreArguments u forms.items × IsArgument u value) }
    {
        if has_truth(truth, &value) {
            return Ok(NextStep::Give(value));
        }
        if forms.is_empty() {
            return Ok(NextStep::Give(value));
        }
        self.seek(truth, forms)
    }

    /// WHEN and UNLESS of forms, the next one last.
    pub(crate) fn guard(
        &mut self,
        truth: bool,
        forms: Vec<Datum>,
    ) -> Result<NextStep, EvaluationError>
        ensures gives { StepsOn self.old self.new result
            (λ does rules around p. guarded_in rules around truth p (to_come forms.items)) }
        ensures arguments { StepsToArguments self.old self.new result (λ u. AreArguments u forms.items) }
    {
        let mut forms = forms;
        match forms.pop() {
            None => Err(Refused(ARGUMENT_COUNT)),
            Some(form) => {
                self.frames.push(Awaiting::Guard(truth, forms))?;
                Ok(NextStep::Evaluate(form))
            }
        }
    }

    /// The forms of WHEN and UNLESS after the test, where its value is this.
    pub(crate) fn guarded(
        &mut self,
        truth: bool,
        forms: Vec<Datum>,
        value: &Datum,
    ) -> Result<NextStep, EvaluationError>
        requires { IsProper value.now }
        ensures gives { StepsOn self.old self.new result
            (λ does rules around p. guard_in rules around truth (object_of value.now) (to_come forms.items) p) }
        ensures arguments { StepsToArguments self.old self.new result (λ u. AreArguments u forms.items) }
    {
        if has_truth(truth, value) {
            return self.sequence(forms);
        }
        Ok(NextStep::Give(values::empty_list(self.alloc)?))
    }

    /// ASSERT, where the value of its test is this.
    pub(crate) fn assert(&mut self, value: &Datum) -> Result<NextStep, EvaluationError>
        requires { IsProper value.now }
        ensures gives { StepsOn self.old self.new result
            (λ does rules around p. asserted_in (object_of value.now) p) }
        ensures arguments { StepsToArguments self.old self.new result (λ u. Unit {0}) }
    {
        if kinds::is_true(value) {
            return Ok(NextStep::Give(values::empty_list(self.alloc)?));
        }
        Err(Refused(ASSERTION_FAILED))
    }
}

// Whether the truth of a value is this.
fn has_truth(truth: bool, value: &Datum) -> bool
    requires { IsProper value.now }
    ensures { result ≡ has_truth truth (object_of value.now) }
{
    let is_true = kinds::is_true(value);
    if truth { is_true } else { !is_true }
}
