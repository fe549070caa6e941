//! Names of packages.
ghost use Rattle.std.specs.Prelude.{◌≡◌, option_map};
ghost use Rattle.package_table.specs.Table.{full_name, is_locked, package_named};
ghost use Rattle.package_table.specs.Meaning.{numbered_of};

use crate::look_ups::stored_name;
use crate::standardized::{CL, CL_USER, COMMON_LISP, COMMON_LISP_USER, KEYWORD};
use package_sets::PackageSets;

/// The name that a name or a nickname stands for.
pub(crate) fn full_name(name: &[u8]) -> &[u8]
    ensures { result.now ≡ full_name name.now }
{
    if name == CL {
        return COMMON_LISP;
    }
    if name == CL_USER {
        return COMMON_LISP_USER;
    }
    name
}

/// The name of the package that a name or a nickname stands for.
pub(crate) fn package_name<'a>(sets: &'a PackageSets, name: &[u8]) -> Option<&'a [u8]>
    ensures { option_map (λ p. p.now) result ≡ package_named (numbered_of sets.now).0 name.now }
{
    stored_name(sets, full_name(name))
}

/// Whether `owner` is COMMON-LISP or KEYWORD.
pub(crate) fn is_locked(owner: &[u8]) -> bool
    ensures { result ≡ is_locked owner.now }
{
    owner == COMMON_LISP || owner == KEYWORD
}
