// A value is given to what waits for it.
ghost use Rattle.std.specs.Prelude.{◌≡◌};
ghost use Rattle.lisp_object.specs.Datum.{object_of};
ghost use Rattle.lisp_operators.specs.EvaluationAnswers.{IsProper, AreProper, IsArgument};
ghost use Rattle.lexical_evaluation.specs.Machine.{Resumes, IsProperFrame};
ghost use Rattle.lexical_evaluation.specs.Arguments.{IsFrameOf, StepsToArguments};

use super::{Machine, NextStep};
use crate::frame::Awaiting;
use kept_functions::Binding;
use lisp_object::Datum;
use lisp_operators::EvaluationError;

impl Machine {
    /// What waited, and does not any more, goes on with the value.
    pub(crate) fn resume(
        &mut self,
        frame: Awaiting,
        value: Datum,
    ) -> Result<NextStep, EvaluationError>
        requires value { IsProper value }
        requires frame { IsProperFrame frame }
        ensures gives { Resumes self.old self.new frame (object_of value) result }
        ensures arguments { StepsToArguments self.old self.new result
            (λ u. IsFrameOf u frame × IsArgument u value) }
    {
        match frame {
            Awaiting::Arguments(target, forms, values) => {
                let mut values = values;
                values.push(value)?;
                self.gather(target, forms, values)
            }
            Awaiting::Sequence(forms) => self.sequence(forms),
            Awaiting::Choice(forms) => self.choose(forms, &value),
            Awaiting::Seek(truth, forms) => self.sought(truth, forms, value),
            Awaiting::Clause(forms, others) => self.clause(forms, others, value),
            Awaiting::Guard(truth, forms) => self.guarded(truth, forms, &value),
            Awaiting::Assert => self.assert(&value),
            Awaiting::Bind(in_turn, variable, others, made, forms) => {
                self.bound(in_turn, Binding { variable, value }, others, made, forms)
            }
            Awaiting::Scope(length) => {
                self.bindings.truncate(length);
                Ok(NextStep::Give(value))
            }
            Awaiting::Call(before, deeper) => {
                self.bindings = before;
                self.deeper = deeper;
                Ok(NextStep::Give(value))
            }
        }
    }
}
