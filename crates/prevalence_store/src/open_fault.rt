// Why a store is not opened.
ghost use Rattle.std.specs.Prelude.{◌≡◌};
ghost use Rattle.prevalence_store.specs.calls.Open.{fault_number};

use gate_log::{OpenRefusal, ReadError};
use lisp_object::refusal::{
    DAMAGED, DEVICE, MISSING_MACRO, NO_MEMORY, SNAPSHOT_TOO_LARGE, VERSION,
};
use snapshot_text::SnapshotError;

/// Why a store is not opened. No call gives one, but the clause of a refused opening names it as the cause of its number.
#[derive(Clone, Copy, Debug, PartialEq, Eq)]
pub enum OpenFault {
    /// There was no memory.
    OutOfMemory,
    /// The device failed.
    DeviceFault,
    /// The files mean nothing.
    Damaged,
    /// The half in use has a version that is not known.
    UnknownVersion,
    /// The half in use is kept with one sync, and the disk does not claim that its writes mix.
    DoesNotMix,
    /// The half that is to be started does not fit the limit.
    TooLarge,
    /// A macro function of the meaning is not registered.
    NotWhole,
    /// The snapshot, or a record, asks for a macro function that the meaning has not.
    UnknownFunction,
}

impl OpenFault {
    /// The number of the refusal.
    pub fn number(self) -> u16
        ensures { result ≡ fault_number self }
    {
        match self {
            OpenFault::OutOfMemory => NO_MEMORY,
            OpenFault::DeviceFault => DEVICE,
            OpenFault::Damaged => DAMAGED,
            OpenFault::UnknownVersion | OpenFault::DoesNotMix => VERSION,
            OpenFault::TooLarge => SNAPSHOT_TOO_LARGE,
            OpenFault::NotWhole | OpenFault::UnknownFunction => MISSING_MACRO,
        }
    }
}

impl From<OpenRefusal> for OpenFault {
    ghost use Rattle.prevalence_store.specs.steps.Open.{fault_of_refusal};

    ghost from_gives = { λ refusal fault. fault ≡ fault_of_refusal refusal };

    fn from(refusal: OpenRefusal) -> OpenFault {
        match refusal {
            OpenRefusal::DeviceFault => OpenFault::DeviceFault,
            OpenRefusal::Damaged => OpenFault::Damaged,
            OpenRefusal::UnknownVersion => OpenFault::UnknownVersion,
            OpenRefusal::OutOfMemory => OpenFault::OutOfMemory,
            OpenRefusal::DoesNotMix => OpenFault::DoesNotMix,
        }
    }
}

impl From<ReadError> for OpenFault {
    ghost use Rattle.prevalence_store.specs.steps.Open.{fault_of_read};

    ghost from_gives = { λ error fault. fault ≡ fault_of_read error };

    fn from(error: ReadError) -> OpenFault {
        match error {
            ReadError::OutOfMemory => OpenFault::OutOfMemory,
            ReadError::DeviceFault => OpenFault::DeviceFault,
            ReadError::Damaged => OpenFault::Damaged,
        }
    }
}

impl From<SnapshotError> for OpenFault {
    ghost use Rattle.prevalence_store.specs.steps.Open.{fault_of_snapshot};

    ghost from_gives = { λ error fault. fault ≡ fault_of_snapshot error };

    fn from(error: SnapshotError) -> OpenFault {
        match error {
            SnapshotError::OutOfMemory => OpenFault::OutOfMemory,
            SnapshotError::Damaged => OpenFault::Damaged,
            SnapshotError::MissingFunction => OpenFault::UnknownFunction,
        }
    }
}
