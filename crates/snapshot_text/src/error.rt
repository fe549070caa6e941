//! Why a text is refused as a snapshot.
ghost use Rattle.std.specs.Prelude.{◌≡◌};
ghost use Rattle.snapshot_text.specs.SnapshotRefusals.{snapshot_error_number};

use lisp_object::refusal;
use snapshot_lines::BuildError;
use std::alloc::AllocError;

/// Why a text is refused as a snapshot.
#[derive(Clone, Copy, Debug, PartialEq, Eq)]
pub enum SnapshotError {
    /// The text is that of no world.
    Damaged,
    /// A readtable names a function that is neither standard nor registered.
    MissingFunction,
    /// Memory ran out.
    OutOfMemory,
}

impl SnapshotError {
    /// The number of the refusal: 62, 63 or 90.
    pub fn number(self) -> u16
        ensures { result ≡ snapshot_error_number self }
    {
        match self {
            SnapshotError::Damaged => refusal::DAMAGED,
            SnapshotError::MissingFunction => refusal::MISSING_MACRO,
            SnapshotError::OutOfMemory => refusal::NO_MEMORY,
        }
    }
}

impl From<AllocError> for SnapshotError {
    ghost use Rattle.std.specs.Prelude.{◌≡◌};
    ghost use Rattle.snapshot_text.specs.declared.error.SnapshotError.TheVariants.{OutOfMemory};

    ghost from_gives = { λ _ e. e ≡ OutOfMemory };

    fn from(_: AllocError) -> SnapshotError {
        SnapshotError::OutOfMemory
    }
}

impl From<BuildError> for SnapshotError {
    ghost use Rattle.std.specs.Prelude.{◌≡◌};
    ghost use Rattle.snapshot_text.specs.SnapshotRefusals.{of_build};

    ghost from_gives = { λ error refusal. refusal ≡ of_build error };

    fn from(error: BuildError) -> SnapshotError {
        match error {
            BuildError::Damaged => SnapshotError::Damaged,
            BuildError::OutOfMemory => SnapshotError::OutOfMemory,
        }
    }
}
