//! How symbols are written.
//! After an error, want of memory alone, a part may be written.
ghost use Rattle.std.specs.Prelude.{◌≡◌, ◌++◌, OnOk};
ghost use Rattle.package_table.specs.Table.{IsPackage};
ghost use Rattle.canon_printer.specs.Written.{printed_uninterned};
ghost use Rattle.canon_printer.specs.Printed.{is_accessible, printed_prefix, printed_symbol};
ghost use Rattle.canon_printer.specs.Written.{AddsText};

use crate::names::write_name;
use package_table::standardized::KEYWORD;
use package_table::{Packages, Resolved};
use std::alloc::AllocError;

/// Writes a symbol, after a prefix if the current package does not find it by its name (standard 22.1.3.3.1). After an
/// error, want of memory alone, a part may be written.
pub(crate) fn write_symbol(
    text: &mut Vec<u8>,
    home: &[u8],
    name: &[u8],
    packages: &Packages,
    current: &[u8],
) -> Result<(), AllocError>
    requires { IsPackage packages.now.0 current.now }
    ensures { OnOk result (AddsText text.old text.new
        (printed_symbol packages.now.0 current.now home.now name.now)) }
{
    write_prefix(text, home, name, packages, current)?;
    write_name(text, name)
}

/// Writes a symbol that has no home (standard 22.1.3.3.1). After an error, want of memory alone, a part may be written.
pub(crate) fn write_uninterned(text: &mut Vec<u8>, name: &[u8]) -> Result<(), AllocError>
    ensures { OnOk result (AddsText text.old text.new (printed_uninterned name.now)) }
{
    text.extend_from_slice(b"#:")?;
    write_name(text, name)
}

// What comes before the name of a symbol.
fn write_prefix(
    text: &mut Vec<u8>,
    home: &[u8],
    name: &[u8],
    packages: &Packages,
    current: &[u8],
) -> Result<(), AllocError>
    requires { IsPackage packages.now.0 current.now }
    ensures { OnOk result (AddsText text.old text.new
        (printed_prefix packages.now.0 current.now home.now name.now)) }
{
    if is_accessible(home, name, packages, current) {
        return Ok(());
    }
    if home == KEYWORD {
        return text.extend_from_slice(b":");
    }
    write_name(text, home)?;
    if packages.is_symbol(home, name) && packages.is_external(home, name) {
        return text.extend_from_slice(b":");
    }
    text.extend_from_slice(b"::")
}

// Whether the current package finds this very symbol by its name.
fn is_accessible(home: &[u8], name: &[u8], packages: &Packages, current: &[u8]) -> bool
    requires { IsPackage packages.now.0 current.now }
    ensures { result ≡ is_accessible packages.now.0 current.now home.now name.now }
{
    let Ok(resolved) = packages.resolve(current, name) else {
        return false
    };
    match resolved {
        Resolved::Found(found) => found == home,
        Resolved::New(_) => false,
    }
}
