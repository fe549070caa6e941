//! Why a call on readtables is refused.
ghost use Rattle.std.specs.Prelude.{◌≡◌};
ghost use Rattle.plist_state.specs.ErrorNumbers.{readtable_error_number};

use lisp_object::refusal;
use std::alloc::AllocError;

/// Why a call on readtables is refused.
#[derive(Clone, Copy, Debug, PartialEq, Eq)]
pub enum ReadtableError {
    /// No readtable has that name.
    NoReadtable,
    /// The standard readtable never changes.
    StandardReadtable,
    /// The character is no dispatching macro character.
    NotDispatching,
    /// A sub-character may not be a digit.
    DigitSubcharacter,
    /// There are 64 readtables.
    Limit,
    /// Memory ran out.
    OutOfMemory,
}

impl ReadtableError {
    /// The number of the refusal: 39, 40, 42, 43, 46 or 90.
    pub fn number(self) -> u16
        ensures { result ≡ readtable_error_number self }
    {
        match self {
            ReadtableError::NoReadtable => refusal::NO_READTABLE,
            ReadtableError::StandardReadtable => refusal::STANDARD_READTABLE,
            ReadtableError::NotDispatching => refusal::NOT_DISPATCHING,
            ReadtableError::DigitSubcharacter => refusal::DIGIT_SUBCHARACTER,
            ReadtableError::Limit => refusal::LIMIT,
            ReadtableError::OutOfMemory => refusal::NO_MEMORY,
        }
    }
}

impl From<AllocError> for ReadtableError {
    ghost use Rattle.std.specs.Prelude.{◌≡◌};
    ghost use Rattle.plist_state.specs.declared.error.ReadtableError.TheVariants.{OutOfMemory};

    ghost from_gives = { λ _ e. e ≡ OutOfMemory };

    fn from(_: AllocError) -> ReadtableError {
        ReadtableError::OutOfMemory
    }
}
