//! Why a look was not had, or nothing is told of what was seen.
ghost use Rattle.std.specs.Prelude.{◌≡◌};
ghost use Rattle.log_look.specs.FirstRecords.{log_error_of, told_of_read};
ghost use Rattle.log_look.specs.declared.error.LogError.TheVariants as telling;
ghost use Rattle.log_look.specs.declared.error.LookError.TheVariants as looking;

use disk_trait::DeviceFault;
use gate_log::{OpenRefusal, ReadError};
use std::alloc::{AllocError, AllocFailed};
use thiserror::Error;

/// Why a look was not had.
#[derive(Clone, Copy, Debug, PartialEq, Eq, Error)]
pub enum LookError {
    /// There was no memory for the bytes.
    #[error("out of memory")]
    OutOfMemory,
    /// The device failed.
    #[error("the device failed")]
    DeviceFault,
    /// No try was had, and in one of them a half was begun anew while it was read.
    #[error("the store begins halves anew faster than they can be read")]
    Changing,
    /// In each try neither half was open, though half B is not empty.
    #[error("no half is in use")]
    Shut,
}

impl From<AllocError> for LookError {
    ghost from_gives = { λ _ e. e ≡ looking.OutOfMemory };

    fn from(_error: AllocError) -> LookError {
        LookError::OutOfMemory
    }
}

impl<T: Drop> From<AllocFailed<T>> for LookError {
    ghost from_gives = { λ _ e. e ≡ looking.OutOfMemory };

    fn from(_error: AllocFailed<T>) -> LookError {
        LookError::OutOfMemory
    }
}

impl From<DeviceFault> for LookError {
    ghost from_gives = { λ _ e. e ≡ looking.DeviceFault };

    fn from(_fault: DeviceFault) -> LookError {
        LookError::DeviceFault
    }
}

/// Why nothing is told of the records of a log.
#[derive(Clone, Copy, Debug, PartialEq, Eq, Error)]
pub enum LogError {
    /// There was no memory.
    #[error("out of memory")]
    OutOfMemory,
    /// There is no record of this number.
    #[error("the half in use has {records} records")]
    PastTheEnd {
        /// How many there are.
        records: u64,
    },
    /// The half in use is not of the generation that was given.
    #[error("the half in use has the generation {generation}")]
    OtherGeneration {
        /// The generation that it has.
        generation: u64,
    },
    /// The device failed.
    #[error("the device failed")]
    DeviceFault,
    /// The halves are damaged.
    #[error("the halves are damaged")]
    Damaged,
    /// The half in use has a version that is not known.
    #[error("the half in use has a version that is not known")]
    UnknownVersion,
    /// The half in use is kept with one sync, and the disk does not claim that its writes mix. A sight claims it, as nothing is written to it.
    #[error("the half in use is kept with one sync, and the writes of the disk may tear")]
    DoesNotMix,
}

impl From<AllocError> for LogError {
    ghost from_gives = { λ _ e. e ≡ telling.OutOfMemory };

    fn from(_error: AllocError) -> LogError {
        LogError::OutOfMemory
    }
}

impl From<OpenRefusal> for LogError {
    ghost from_gives = { λ refusal e. e ≡ log_error_of refusal };

    fn from(refusal: OpenRefusal) -> LogError {
        match refusal {
            OpenRefusal::OutOfMemory => LogError::OutOfMemory,
            OpenRefusal::DeviceFault => LogError::DeviceFault,
            OpenRefusal::Damaged => LogError::Damaged,
            OpenRefusal::UnknownVersion => LogError::UnknownVersion,
            OpenRefusal::DoesNotMix => LogError::DoesNotMix,
        }
    }
}

impl From<ReadError> for LogError {
    ghost from_gives = { λ error e. e ≡ told_of_read error };

    fn from(error: ReadError) -> LogError {
        match error {
            ReadError::OutOfMemory => LogError::OutOfMemory,
            ReadError::DeviceFault => LogError::DeviceFault,
            ReadError::Damaged => LogError::Damaged,
        }
    }
}
