//! Whether a refusal is for want of a function.
ghost use Rattle.std.specs.Prelude.{◌≡◌};
ghost use Rattle.evaluator.specs.FormsGivenBack.{wants_function};

use lisp_object::refusal::{NO_MACRO, UNKNOWN_OPERATOR};
use lisp_operators::EvaluationError;

/// Whether a form that is refused so in the language without functions may have a value in the one with them.
pub(crate) fn wants_function(error: EvaluationError) -> bool
    ensures { result ≡ wants_function error }
{
    match error {
        EvaluationError::Refused(code) => code == UNKNOWN_OPERATOR || code == NO_MACRO,
        EvaluationError::OutOfMemory => false,
    }
}
