//! Why no world is built from a text.

use package_table::PackageError;
use plist_state::ReadtableError;
use std::alloc::AllocError;

/// Why no world is built from a text.
#[derive(Clone, Copy, Debug, PartialEq, Eq)]
pub enum BuildError {
    /// The text is of no world.
    Damaged,
    /// Memory ran out.
    OutOfMemory,
}

impl From<AllocError> for BuildError {
    ghost use Rattle.std.specs.Prelude.{◌≡◌};
    ghost use Rattle.snapshot_lines.specs.declared.error.BuildError.TheVariants.{OutOfMemory};

    ghost from_gives = { λ _ e. e ≡ OutOfMemory };

    fn from(_: AllocError) -> BuildError {
        BuildError::OutOfMemory
    }
}

impl From<PackageError> for BuildError {
    ghost use Rattle.std.specs.Prelude.{◌≡◌};
    ghost use Rattle.snapshot_lines.specs.BuildRefusals.{of_packages};

    ghost from_gives = { λ error refusal. refusal ≡ of_packages error };

    fn from(error: PackageError) -> BuildError {
        match error {
            PackageError::OutOfMemory => BuildError::OutOfMemory,
            _ => BuildError::Damaged,
        }
    }
}

impl From<ReadtableError> for BuildError {
    ghost use Rattle.std.specs.Prelude.{◌≡◌};
    ghost use Rattle.snapshot_lines.specs.BuildRefusals.{of_readtables};

    ghost from_gives = { λ error refusal. refusal ≡ of_readtables error };

    fn from(error: ReadtableError) -> BuildError {
        match error {
            ReadtableError::OutOfMemory => BuildError::OutOfMemory,
            _ => BuildError::Damaged,
        }
    }
}
