//! Why a call on packages is refused.
ghost use Rattle.std.specs.Prelude.{◌≡◌};
ghost use Rattle.package_table.specs.ErrorNumbers.{package_error_number};

use lisp_object::refusal;
use std::alloc::AllocError;

/// Why a call on packages is refused.
#[derive(Clone, Copy, Debug, PartialEq, Eq)]
pub enum PackageError {
    /// A token's prefix names no package.
    NoPackage,
    /// The symbol after one package marker is not external there.
    NotExternal,
    /// A token has a new name in COMMON-LISP.
    LockedPackage,
    /// A new package has the empty name.
    EmptyName,
    /// No package has that name.
    NoSuchPackage,
    /// A package has that name already.
    PackageExists,
    /// The package may not be changed.
    PackageIsLocked,
    /// A package would find two symbols by one name.
    NameConflict,
    /// The symbol is not accessible in the package.
    NotAccessible,
    /// There are too many packages or symbols, or a name is too long.
    Limit,
    /// Memory ran out.
    OutOfMemory,
}

impl PackageError {
    /// The number of the refusal: 11 to 13, 33 to 38, 46 or 90.
    pub fn number(self) -> u16
        ensures { result ≡ package_error_number self }
    {
        match self {
            PackageError::NoPackage => refusal::NO_PACKAGE,
            PackageError::NotExternal => refusal::NOT_EXTERNAL,
            PackageError::LockedPackage => refusal::LOCKED_PACKAGE,
            PackageError::EmptyName => refusal::ARGUMENT_KIND,
            PackageError::NoSuchPackage => refusal::NO_SUCH_PACKAGE,
            PackageError::PackageExists => refusal::PACKAGE_EXISTS,
            PackageError::PackageIsLocked => refusal::PACKAGE_IS_LOCKED,
            PackageError::NameConflict => refusal::NAME_CONFLICT,
            PackageError::NotAccessible => refusal::NOT_ACCESSIBLE,
            PackageError::Limit => refusal::LIMIT,
            PackageError::OutOfMemory => refusal::NO_MEMORY,
        }
    }
}

impl From<AllocError> for PackageError {
    ghost use Rattle.std.specs.Prelude.{◌≡◌};
    ghost use Rattle.package_table.specs.declared.error.PackageError.TheVariants.{OutOfMemory};

    ghost from_gives = { λ _ e. e ≡ OutOfMemory };

    fn from(_: AllocError) -> PackageError {
        PackageError::OutOfMemory
    }
}
