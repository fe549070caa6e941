//! Why a form has no value.
ghost use Rattle.std.specs.Prelude.{◌≡◌};

use package_table::PackageError;
use plist_state::ReadtableError;
use std::alloc::{AllocError, AllocFailed};

/// Why a form has no value.
#[derive(Clone, Copy, Debug, PartialEq, Eq)]
pub enum EvaluationError {
    /// The form is refused, by this number of `lisp_object::refusal`, 30 to 47.
    Refused(u16),
    /// Memory ran out.
    OutOfMemory,
}

impl From<AllocError> for EvaluationError {
    ghost use Rattle.std.specs.Prelude.{◌≡◌};
    ghost use Rattle.lisp_operators.specs.declared.error.EvaluationError.TheVariants.{OutOfMemory};

    ghost from_gives = { λ _ e. e ≡ OutOfMemory };

    fn from(_: AllocError) -> EvaluationError {
        EvaluationError::OutOfMemory
    }
}

impl<T: Drop> From<AllocFailed<T>> for EvaluationError {
    ghost use Rattle.std.specs.Prelude.{◌≡◌};
    ghost use Rattle.lisp_operators.specs.declared.error.EvaluationError.TheVariants.{OutOfMemory};

    ghost from_gives = { λ _ e. e ≡ OutOfMemory };

    fn from(_: AllocFailed<T>) -> EvaluationError {
        EvaluationError::OutOfMemory
    }
}

impl From<PackageError> for EvaluationError {
    ghost use Rattle.std.specs.Prelude.{◌≡◌};
    ghost use Rattle.lisp_operators.specs.ErrorNumbers.{of_package};

    ghost from_gives = { λ p e. e ≡ of_package p };

    fn from(error: PackageError) -> EvaluationError {
        match error {
            PackageError::OutOfMemory => EvaluationError::OutOfMemory,
            refused => EvaluationError::Refused(refused.number()),
        }
    }
}

impl From<ReadtableError> for EvaluationError {
    ghost use Rattle.std.specs.Prelude.{◌≡◌};
    ghost use Rattle.lisp_operators.specs.ErrorNumbers.{of_readtable};

    ghost from_gives = { λ r e. e ≡ of_readtable r };

    fn from(error: ReadtableError) -> EvaluationError {
        match error {
            ReadtableError::OutOfMemory => EvaluationError::OutOfMemory,
            refused => EvaluationError::Refused(refused.number()),
        }
    }
}
