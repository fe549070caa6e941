//! Why a token is refused, by number, and why it has no meaning.
ghost use Rattle.std.specs.Prelude.{◌≡◌};
ghost use Rattle.token_meaning.specs.Results.{scan_refusal_number, meaning_refusal_number, meaning_error_number};

use lisp_object::refusal::{
    DOTS_ONLY, END_OF_FILE, FLOAT_TOKEN, INVALID_CHARACTER, INVALID_TRAIT, NO_MEMORY, NUMBER_RANGE,
    PACKAGE_MARKERS, TOKEN_TOO_LONG, ZERO_DENOMINATOR,
};
use std::alloc::AllocError;
use token_scan::ScanRefusal;

/// The number by which a refusal of `token_scan` is answered: 1 END-OF-FILE, 2 INVALID-CHARACTER, 3 INVALID-TRAIT,
/// 24 TOKEN-TOO-LONG.
pub fn scan_refusal_number(refusal: ScanRefusal) -> u16
    ensures { result ≡ scan_refusal_number refusal }
{
    match refusal {
        ScanRefusal::EndOfFile => END_OF_FILE,
        ScanRefusal::InvalidCharacter => INVALID_CHARACTER,
        ScanRefusal::InvalidTrait => INVALID_TRAIT,
        ScanRefusal::TokenTooLong => TOKEN_TOO_LONG,
    }
}

/// Why a token has no meaning (standard 2.3).
#[derive(Clone, Copy, Debug, PartialEq, Eq)]
pub enum MeaningRefusal {
    /// Several dots alone (standard 2.3.3).
    DotsOnly,
    /// The syntax of a float, which has no value here (standard 2.3.2.2).
    FloatToken,
    /// An integer or a numerator beyond 128 bits with a sign, or a denominator beyond 128 bits, as they are written.
    NumberRange,
    /// A ratio whose denominator is zero (standard 2.3.2.1.1).
    ZeroDenominator,
    /// Package markers that fit no pattern (standard 2.3.5).
    PackageMarkers,
}

impl MeaningRefusal {
    /// The number of the refusal: 6 DOTS-ONLY, 7 FLOAT-TOKEN, 8 NUMBER-RANGE, 9 ZERO-DENOMINATOR, 10 PACKAGE-MARKERS.
    pub fn number(self) -> u16
        ensures { result ≡ meaning_refusal_number self }
    {
        match self {
            MeaningRefusal::DotsOnly => DOTS_ONLY,
            MeaningRefusal::FloatToken => FLOAT_TOKEN,
            MeaningRefusal::NumberRange => NUMBER_RANGE,
            MeaningRefusal::ZeroDenominator => ZERO_DENOMINATOR,
            MeaningRefusal::PackageMarkers => PACKAGE_MARKERS,
        }
    }
}

/// Why no meaning was given: the token has none, or the memory for a name was refused.
#[derive(Clone, Copy, Debug, PartialEq, Eq)]
pub enum MeaningError {
    OutOfMemory,
    Refused(MeaningRefusal),
}

impl MeaningError {
    /// The number of the refusal, or 90 NO-MEMORY where memory was refused.
    pub fn number(self) -> u16
        ensures { result ≡ meaning_error_number self }
    {
        match self {
            MeaningError::OutOfMemory => NO_MEMORY,
            MeaningError::Refused(refusal) => refusal.number(),
        }
    }
}

impl From<AllocError> for MeaningError {
    ghost use Rattle.token_meaning.specs.declared.refusal.MeaningError.TheVariants.{OutOfMemory};

    ghost from_gives = { λ _ e. e ≡ OutOfMemory };

    fn from(_error: AllocError) -> MeaningError {
        MeaningError::OutOfMemory
    }
}

impl From<MeaningRefusal> for MeaningError {
    ghost use Rattle.token_meaning.specs.declared.refusal.MeaningError.TheVariants.{Refused};

    ghost from_gives = { λ refusal e. e ≡ Refused refusal };

    fn from(refusal: MeaningRefusal) -> MeaningError {
        MeaningError::Refused(refusal)
    }
}
