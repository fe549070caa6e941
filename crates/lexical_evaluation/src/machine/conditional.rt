// COND.
ghost use Rattle.lisp_object.specs.Datum.{object_of};
ghost use Rattle.lisp_operators.specs.EvaluationAnswers.{IsProper, AreProper, IsArgument};
ghost use Rattle.lexical_evaluation.specs.Values.{selected_in};
ghost use Rattle.lexical_evaluation.specs.Machine.{StepsOn, IsHeaded, clause_in, to_come};
ghost use Rattle.lexical_evaluation.specs.Arguments.{AreArguments, StepsToArguments};

use super::{Machine, NextStep};
use crate::frame::Awaiting;
use lisp_object::Datum;
use lisp_object::refusal::ARGUMENT_KIND;
use lisp_operators::EvaluationError::Refused;
use lisp_operators::{EvaluationError, kinds, values};

// The first of what is in a list, and what is behind it, the next one last.
pub(super) fn headed(list: Datum) -> Option<(Datum, Vec<Datum>)>
    requires { IsProper list }
    ensures { IsHeaded list result }
{
    match list.into_list() {
        Ok((items, tail)) => {
            if tail.is_some() {
                return None;
            }
            let mut forms = items.into_vec();
            forms.reverse();
            match forms.pop() {
                Some(first) => Some((first, forms)),
                None => None,
            }
        }
        Err(_other) => None,
    }
}

impl Machine {
    /// COND of clauses, the next one last.
    pub(crate) fn clauses(&mut self, clauses: Vec<Datum>) -> Result<NextStep, EvaluationError>
        requires { AreProper clauses.items }
        ensures gives { StepsOn self.old self.new result
            (λ does rules around p. selected_in rules around p (to_come clauses.items)) }
        ensures arguments { StepsToArguments self.old self.new result (λ u. AreArguments u clauses.items) }
    {
        let mut others = clauses;
        match others.pop() {
            None => Ok(NextStep::Give(values::empty_list(self.alloc)?)),
            Some(clause) => match headed(clause) {
                Some((test, forms)) => {
                    self.frames.push(Awaiting::Clause(forms, others))?;
                    Ok(NextStep::Evaluate(test))
                }
                None => Err(Refused(ARGUMENT_KIND)),
            },
        }
    }

    /// COND, where the test of a clause has this value.
    pub(crate) fn clause(
        &mut self,
        forms: Vec<Datum>,
        others: Vec<Datum>,
        value: Datum,
    ) -> Result<NextStep, EvaluationError>
        requires value { IsProper value }
        requires others { AreProper others.items }
        ensures gives { StepsOn self.old self.new result
            (λ does rules around p. clause_in rules around (object_of value) (to_come forms.items) (to_come others.items) p) }
        ensures arguments { StepsToArguments self.old self.new result
            (λ u. AreArguments u forms.items × AreArguments u others.items × IsArgument u value) }
    {
        if !kinds::is_true(&value) {
            return self.clauses(others);
        }
        if forms.is_empty() {
            return Ok(NextStep::Give(value));
        }
        self.sequence(forms)
    }
}
