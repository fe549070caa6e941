//! Why a standard function is refused.
ghost use Rattle.std.specs.Prelude.{◌≡◌};
ghost use Rattle.std_macros.specs.Results.{std_refusal_number, finish_error_number};

use lisp_object::refusal::{
    CHARACTER_NAME, NO_MEMORY, NUMERIC_ARGUMENT, OUT_OF_PROFILE, RADIX_TOKEN, STRAY_CLOSE,
    UNINTERNED_TOKEN, VECTOR_LENGTH,
};
use std::alloc::AllocError;
use token_meaning::MeaningRefusal;

/// Why a standard function is refused (standard 2.4).
#[derive(Clone, Copy, Debug, PartialEq, Eq)]
pub enum StdRefusal {
    /// The end of a list where none is open.
    StrayClose,
    /// A rational of digits that is out of range, or whose denominator is zero.
    Rational(MeaningRefusal),
    /// No number, or one that is no base from 2 to 36.
    NumericArgument,
    /// The name of no character.
    CharacterName,
    /// A token that is no rational of digits in the base.
    RadixToken,
    /// More objects than the length of a vector, none for a length over 0, or a vector that is too large by repeating the
    /// last one.
    VectorLength,
    /// A token with no mark, or with a package marker.
    UninternedToken,
    /// A part of the syntax that is not there.
    OutOfProfile,
}

impl StdRefusal {
    /// The number of the refusal: 4 STRAY-CLOSE, 8 NUMBER-RANGE, 9 ZERO-DENOMINATOR, 15 NUMERIC-ARGUMENT,
    /// 16 CHARACTER-NAME, 17 RADIX-TOKEN, 18 VECTOR-LENGTH, 19 UNINTERNED-TOKEN, 25 OUT-OF-PROFILE.
    pub fn number(self) -> u16
        ensures { result ≡ std_refusal_number self }
    {
        match self {
            StdRefusal::StrayClose => STRAY_CLOSE,
            StdRefusal::Rational(refusal) => refusal.number(),
            StdRefusal::NumericArgument => NUMERIC_ARGUMENT,
            StdRefusal::CharacterName => CHARACTER_NAME,
            StdRefusal::RadixToken => RADIX_TOKEN,
            StdRefusal::VectorLength => VECTOR_LENGTH,
            StdRefusal::UninternedToken => UNINTERNED_TOKEN,
            StdRefusal::OutOfProfile => OUT_OF_PROFILE,
        }
    }
}

/// Why no value was given: the function is refused, or the memory for an object was.
#[derive(Clone, Copy, Debug, PartialEq, Eq)]
pub enum FinishError {
    OutOfMemory,
    Refused(StdRefusal),
}

impl FinishError {
    /// The number of the refusal, or 90 NO-MEMORY where memory was refused.
    pub fn number(self) -> u16
        ensures { result ≡ finish_error_number self }
    {
        match self {
            FinishError::OutOfMemory => NO_MEMORY,
            FinishError::Refused(refusal) => refusal.number(),
        }
    }
}

impl From<AllocError> for FinishError {
    ghost use Rattle.std_macros.specs.declared.refusal.FinishError.TheVariants.{OutOfMemory};

    ghost from_gives = { λ _ e. e ≡ OutOfMemory };

    fn from(_error: AllocError) -> FinishError {
        FinishError::OutOfMemory
    }
}
