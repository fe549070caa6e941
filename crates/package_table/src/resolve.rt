//! What the name in a token stands for (standard 2.3.5).
ghost use Rattle.std.specs.Prelude.{◌≡◌};
ghost use Rattle.package_table.specs.Table.{AreUsesSound};
ghost use Rattle.package_table.specs.Meaning.{numbered_of};
ghost use Rattle.package_table.specs.Resolving.{external_resolution, internal_resolution, resolution_of, AnswersLookUp};

use crate::find::{full_name, package_name};
use crate::look_ups::{external_home, package_number};
use crate::{OnePackage, PackageError};
use package_sets::PackageSets;

/// What a name stands for in a package.
#[derive(Clone, Copy, Debug, PartialEq, Eq)]
pub enum Resolved<'a> {
    /// A symbol that is there, by the name of its home.
    Found(&'a [u8]),
    /// A new symbol, by the name of the package that would be its home.
    New(&'a [u8]),
}

/// The home of the external symbol after one package marker. Refused where there is no such package, or the symbol is
/// not external in it.
pub(crate) fn resolve_external<'a>(
    sets: &'a PackageSets,
    prefix: &[u8],
    name: &[u8],
) -> Result<&'a [u8], PackageError>
    ensures { AnswersLookUp (λ h. h.now) result
        (external_resolution (numbered_of sets.now).0 prefix.now name.now) }
{
    let Some(owner) = package_name(sets, prefix) else {
        return Err(PackageError::NoPackage);
    };
    match external_home(sets, owner, name) {
        Some(home) => Ok(home),
        None => Err(PackageError::NotExternal),
    }
}

/// What the name stands for after two package markers. Refused where there is no such package, or a new symbol of it
/// would be in COMMON-LISP.
pub(crate) fn resolve_internal<'a>(
    sets: &'a PackageSets,
    prefix: &[u8],
    name: &[u8],
) -> Result<Resolved<'a>, PackageError>
    requires { AreUsesSound (numbered_of sets.now).0 }
    ensures { AnswersLookUp resolution_of result
        (internal_resolution (numbered_of sets.now).0 prefix.now name.now) }
{
    match package_number(sets, full_name(prefix)) {
        Some(number) => OnePackage::at(sets, number).resolve(name),
        None => Err(PackageError::NoPackage),
    }
}
