// The operators that decide which of their forms are evaluated.
ghost use Rattle.std.specs.Prelude.{◌≡◌, ◌<◌, ◌+◌, ℕ, List, true, length};
ghost use Rattle.std.specs.List.{list_all};
ghost use Rattle.lisp_object.specs.Object.{Object};
ghost use Rattle.lisp_object.specs.Datum.{object_of};
ghost use Rattle.package_table.specs.Table.{Name};
ghost use Rattle.plist_state.specs.State.{WorldState};
ghost use Rattle.lisp_operators.specs.EvaluationAnswers.{IsProper, AreProper, objects};
ghost use Rattle.evaluator.specs.Operations.{OperationTakesCount, action_of};
ghost use Rattle.evaluator.specs.Value.{is_clause};
ghost use Rattle.kept_functions.specs.Counting.{then_on};
ghost use Rattle.lexical_evaluation.specs.Values.{action_in, sought_value_in, other_value_in, selected_in};
ghost use Rattle.lexical_evaluation.specs.Machine.{StepsOn, KeepsOutcome, to_come, asserted_in};
ghost use Rattle.lexical_evaluation.specs.Ways.{ways, parts_in, selected_of};
ghost use Rattle.lexical_evaluation.specs.Arguments.{AreArguments, StepsToArguments};

use super::{Machine, NextStep};
use crate::frame::{Awaiting, Target};
use evaluator::{Decision, Operation, clause};
use lisp_object::Datum;
use lisp_object::refusal::ARGUMENT_KIND;
use lisp_operators::EvaluationError::Refused;
use lisp_operators::{EvaluationError, values};

// Whether it is a clause of COND.
fn is_clause(form: &Datum) -> bool
    requires { IsProper form.now }
    ensures { result ≡ is_clause (object_of form.now) }
{
    clause(form).is_some()
}

// Whether each of these is one.
fn each_is_clause(forms: &[Datum]) -> bool
    requires { AreProper forms.now }
    ensures { result ≡ list_all is_clause (objects forms.now) }
{
    for form in forms {
        if !is_clause(form) {
            return false;
        }
    }
    true
}

impl Machine {
    /// An operator that decides, of its forms, the next one last.
    pub(super) fn begin_decision(
        &mut self,
        decision: Decision,
        forms: Vec<Datum>,
    ) -> Result<NextStep, EvaluationError>
        requires counted { OperationTakesCount (Operation.Decides decision) (length forms.items + 1) }
        requires forms { AreProper forms.items }
        ensures gives { (names : List Name) (head : Object) (s : WorldState)
            → KeepsOutcome (ways names) s s self.old self.new result
            (λ rules around p. action_in head p (action_of names (Operation.Decides decision)) (to_come forms.items) (parts_in rules around p (to_come forms.items))) }
        ensures arguments { StepsToArguments self.old self.new result (λ u. AreArguments u forms.items) }
    {
        match decision {
            Decision::And => self.begin_search(false, forms),
            Decision::Or => self.begin_search(true, forms),
            Decision::Cond => self.begin_clauses(forms),
            Decision::When => self.guard(true, forms),
            Decision::Unless => self.guard(false, forms),
            Decision::Prog1 => {
                let values = Vec::new(self.alloc);
                self.gather(Target::First, forms, values)
            }
            Decision::Assert => self.begin_assert(forms),
        }
    }

    // AND and OR.
    fn begin_search(&mut self, truth: bool, forms: Vec<Datum>) -> Result<NextStep, EvaluationError>
        ensures gives { StepsOn self.old self.new result
            (λ does rules around p. sought_value_in rules around truth p (to_come forms.items)) }
        ensures arguments { StepsToArguments self.old self.new result (λ u. AreArguments u forms.items) }
    {
        if !forms.is_empty() {
            return self.seek(truth, forms);
        }
        if truth {
            return Ok(NextStep::Give(values::empty_list(self.alloc)?));
        }
        Ok(NextStep::Give(values::truth(self.alloc)?))
    }

    // ASSERT: its test.
    fn begin_assert(&mut self, forms: Vec<Datum>) -> Result<NextStep, EvaluationError>
        requires { 0 < length forms.items }
        ensures gives { StepsOn self.old self.new result
            (λ does rules around p. then_on (other_value_in rules around p (to_come forms.items)) (λ x later. asserted_in x later)) }
        ensures arguments { StepsToArguments self.old self.new result (λ u. AreArguments u forms.items) }
    {
        let mut forms = forms;
        match forms.pop() {
            None => unreachable!(),
            Some(test) => {
                self.frames.push(Awaiting::Assert)?;
                Ok(NextStep::Evaluate(test))
            }
        }
    }

    // COND: its clauses are looked at first.
    fn begin_clauses(&mut self, forms: Vec<Datum>) -> Result<NextStep, EvaluationError>
        requires { AreProper forms.items }
        ensures gives { StepsOn self.old self.new result
            (λ does rules around p. selected_of (to_come forms.items) (selected_in rules around p (to_come forms.items))) }
        ensures arguments { StepsToArguments self.old self.new result (λ u. AreArguments u forms.items) }
    {
        if !each_is_clause(forms.as_slice()) {
            return Err(Refused(ARGUMENT_KIND));
        }
        self.clauses(forms)
    }
}
