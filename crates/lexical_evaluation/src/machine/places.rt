// Forms that are taken from a list, and those of a place.
ghost use Rattle.std.specs.Prelude.{◌≡◌, ◌<◌, ◌+◌, true, length, IfOk};
ghost use Rattle.lisp_object.specs.Object.{pair};
ghost use Rattle.lisp_object.specs.Datum.{object_of};
ghost use Rattle.lisp_operators.specs.EvaluationAnswers.{IsProper, AreProper, IsArgument};
ghost use Rattle.evaluator.specs.Operators.{first};
ghost use Rattle.evaluator.specs.Value.{is_clause, rest};
ghost use Rattle.evaluator.specs.ArgumentValues.{arguments_in};
ghost use Rattle.kept_functions.specs.Environments.{Environment};
ghost use Rattle.kept_functions.specs.Counting.{Point, then_on};
ghost use Rattle.lexical_evaluation.specs.Values.{LexicalRules, values_in, values_at_place_in, values_before_place_in};
ghost use Rattle.lexical_evaluation.specs.Machine.{StepsOn, finished_in, to_come};
ghost use Rattle.lexical_evaluation.specs.Ways.{may_be_place};
ghost use Rattle.lexical_evaluation.specs.Arguments.{AreArguments, StepsToArguments};
ghost use Rattle.package_table.specs.Table.{Table};

use super::{Machine, NextStep};
use crate::frame::Target;
use evaluator::{Operation, PlaceForm};
use lisp_object::Datum;
use lisp_object::refusal::ARGUMENT_COUNT;
use lisp_operators::EvaluationError;
use lisp_operators::EvaluationError::Refused;
use std::alloc::AllocError;

/// What comes after the head of a form, the next one last.
pub(super) fn arguments(items: Vec<Datum>) -> Vec<Datum>
    requires some { 0 < length items.items }
    requires proper { AreProper items.items }
    ensures forms { to_come result.items ≡ arguments_in items.items }
    ensures count { length result.items + 1 ≡ length items.items }
    ensures proper { AreProper result.items }
    ensures arguments { (u : Table) → AreArguments u items.items → AreArguments u result.items }
{
    let mut forms = items;
    forms.reverse();
    match forms.pop() {
        Some(_head) => forms,
        None => unreachable!(),
    }
}

// The subforms of a place stand before these forms; the next one last.
fn with_place(forms: Vec<Datum>, place: Datum) -> Result<Vec<Datum>, AllocError>
    requires proper { IsProper place }
    requires place { may_be_place (object_of place) ≡ true }
    ensures gives { IfOk result (λ all. (rules : LexicalRules) (around : Environment) (p : Point)
        → values_in rules around p (to_come all.items)
        ≡ values_at_place_in rules around p (pair (object_of place) (to_come forms.items))) }
    ensures arguments { (u : Table) → AreArguments u forms.items → IsArgument u place
        → IfOk result (λ all. AreArguments u all.items) }
{
    match place.into_list() {
        Ok((items, _tail)) => {
            let mut forms = forms;
            let mut subforms = arguments(items.into_vec());
            forms.append(&mut subforms)?;
            Ok(forms)
        }
        Err(_symbol) => Ok(forms),
    }
}

impl Machine {
    /// The values of the subforms of a place, and then those of the forms after it.
    pub(super) fn gather_at_place(
        &mut self,
        operation: Operation,
        place: PlaceForm,
        forms: Vec<Datum>,
    ) -> Result<NextStep, EvaluationError>
        requires some { 0 < length forms.items }
        requires proper { AreProper forms.items }
        requires place { may_be_place (first (to_come forms.items)) ≡ true }
        ensures gives { StepsOn self.old self.new result
            (λ does rules around p. then_on (values_at_place_in rules around p (to_come forms.items))
            (λ xs later. finished_in rules does around (Target.Operation operation place 0) xs later)) }
        ensures arguments { StepsToArguments self.old self.new result (λ u. AreArguments u forms.items) }
    {
        let mut others = forms;
        match others.pop() {
            None => Err(Refused(ARGUMENT_COUNT)),
            Some(form) => {
                let all = with_place(others, form)?;
                let values = Vec::new(self.alloc);
                self.gather(Target::Operation(operation, place, 0), all, values)
            }
        }
    }

    /// PUSH: the value of a form, and then those of the subforms of the place after it.
    pub(super) fn gather_before_place(
        &mut self,
        place: PlaceForm,
        forms: Vec<Datum>,
    ) -> Result<NextStep, EvaluationError>
        requires two { length forms.items ≡ 2 }
        requires proper { AreProper forms.items }
        requires place { is_clause (first (rest (to_come forms.items))) ≡ true }
        ensures gives { StepsOn self.old self.new result
            (λ does rules around p. then_on (values_before_place_in rules around p (to_come forms.items))
            (λ xs later. finished_in rules does around (Target.Operation Operation.Push place 0) xs later)) }
        ensures arguments { StepsToArguments self.old self.new result (λ u. AreArguments u forms.items) }
    {
        let mut others = forms;
        match others.pop() {
            None => Err(Refused(ARGUMENT_COUNT)),
            Some(pushed) => match others.pop() {
                None => Err(Refused(ARGUMENT_COUNT)),
                Some(form) => {
                    let mut all = with_place(others, form)?;
                    all.push(pushed)?;
                    let values = Vec::new(self.alloc);
                    self.gather(Target::Operation(Operation::Push, place, 0), all, values)
                }
            },
        }
    }
}
