//! The forms that make the packages.
//! After an error, want of memory alone, a part may be added.
ghost use Rattle.std.specs.Prelude.{◌≡◌, ◌++◌, IfOk, OnOk};
ghost use Rattle.std.specs.List.{flat_map};
ghost use Rattle.canon_printer.specs.Written.{AddsText};
ghost use Rattle.package_table.specs.Table.{initial as initial_packages};
ghost use Rattle.package_table.specs.Readers.{names_of};
ghost use Rattle.world_forms.specs.NameTokens.{world_form_line, call_text};
ghost use Rattle.world_forms.specs.Packages.{is_first, package_line, own_line, change_line, import_line, export_form_line, use_line};
ghost use Rattle.world_forms.specs.Packages.{own_lines, shown_lines, use_package_lines, package_lines};

use crate::texts::{push_call, push_text, push_value};
use lisp_object::Bytes;
use package_table::standardized::{COMMON_LISP, COMMON_LISP_USER, KEYWORD};
use package_table::{PackageError, Packages};
use std::alloc::{AllocError, Global};

/// A list that is refused only where memory runs out: its package is there.
fn listed<T>(list: Result<T, PackageError>) -> Result<T, AllocError>
    ensures { IfOk result (λ x. list ≡ Ok x) }
{
    match list {
        Ok(list) => Ok(list),
        Err(_) => Err(AllocError),
    }
}

/// Whether a package is there from the first.
#[tactic(auto, unfolding(crate::specs::Packages::is_first))]
fn is_first(name: &[u8]) -> bool
    ensures { result ≡ is_first name.now }
{
    name == COMMON_LISP || name == COMMON_LISP_USER || name == KEYWORD
}

/// A form of an operator and texts.
fn push_form(text: &mut Vec<u8>, operator: &[u8], texts: &[&[u8]]) -> Result<(), AllocError>
    ensures { OnOk result (AddsText text.old text.new
        (world_form_line (call_text operator.now (names_of texts.now)))) }
{
    push_call(text, operator, texts)?;
    text.push(b'\n')?;
    Ok(())
}

/// A form of an operator, a symbol in a list and the name of a package: NIL alone would be the empty list.
#[tactic(auto, unfolding(crate::specs::Packages::change_line))]
fn push_change(
    text: &mut Vec<u8>,
    operator: &[u8],
    home: &[u8],
    name: &[u8],
    owner: &[u8],
) -> Result<(), AllocError>
    ensures { OnOk result (AddsText text.old text.new
        (change_line operator.now home.now name.now owner.now)) }
{
    text.push(b'(')?;
    text.extend_from_slice(operator)?;
    text.push(b' ')?;
    push_value(text, b"'(", b")", home, name)?;
    text.push(b' ')?;
    push_text(text, owner)?;
    text.extend_from_slice(b")\n")
}

/// A package, if it is not there from the first.
#[tactic(auto, unfolding(crate::specs::Packages::package_line))]
fn push_package(text: &mut Vec<u8>, owner: &[u8]) -> Result<(), AllocError>
    ensures { OnOk result (AddsText text.old text.new (package_line owner.now)) }
{
    if is_first(owner) {
        return Ok(());
    }
    push_form(text, b"MAKE-PACKAGE", &[owner])
}

/// A symbol at home in a package, if it is not there from the first.
#[tactic(auto, unfolding(crate::specs::Packages::own_line))]
fn push_own_name(
    text: &mut Vec<u8>,
    first: &Packages,
    owner: &[u8],
    name: &[u8],
) -> Result<(), AllocError>
    requires { first.now.0 ≡ initial_packages }
    ensures { OnOk result (AddsText text.old text.new (own_line owner.now name.now)) }
{
    if first.is_present(owner, name) {
        return Ok(());
    }
    push_form(text, b"INTERN", &[name, owner])
}

fn push_own_names(
    text: &mut Vec<u8>,
    first: &Packages,
    owner: &[u8],
    names: &[&[u8]],
) -> Result<(), AllocError>
    requires { first.now.0 ≡ initial_packages }
    ensures { OnOk result (AddsText text.old text.new
        (flat_map (own_line owner.now) (names_of names.now))) }
{
    for name in names {
        push_own_name(text, first, owner, name)?;
    }
    Ok(())
}

/// The symbols at home in a package that are not there from the first.
#[tactic(auto, unfolding(crate::specs::Packages::own_lines))]
fn push_own(
    alloc: Global,
    text: &mut Vec<u8>,
    packages: &Packages,
    first: &Packages,
    owner: &[u8],
) -> Result<(), AllocError>
    requires { first.now.0 ≡ initial_packages }
    ensures { OnOk result (AddsText text.old text.new (own_lines packages.now.0 owner.now)) }
{
    let names = listed(packages.own_names(alloc, owner))?;
    push_own_names(text, first, owner, names.as_slice())
}

fn push_imports(
    text: &mut Vec<u8>,
    owner: &[u8],
    imports: &[(Bytes, Bytes)],
) -> Result<(), AllocError>
    ensures { OnOk result (AddsText text.old text.new
        (flat_map (import_line owner.now) imports.now)) }
{
    for import in imports {
        let (name, home) = import;
        push_change(text, b"IMPORT", home.as_slice(), name.as_slice(), owner)?;
    }
    Ok(())
}

fn push_exports(text: &mut Vec<u8>, owner: &[u8], names: &[&[u8]]) -> Result<(), AllocError>
    ensures { OnOk result (AddsText text.old text.new
        (flat_map (export_form_line owner.now) (names_of names.now))) }
{
    for name in names {
        push_change(text, b"EXPORT", owner, name, owner)?;
    }
    Ok(())
}

/// The symbols that are present in a package from another home, and then those that are external.
#[tactic(auto, unfolding(crate::specs::Packages::shown_lines))]
fn push_shown(
    alloc: Global,
    text: &mut Vec<u8>,
    packages: &Packages,
    owner: &[u8],
) -> Result<(), AllocError>
    ensures { OnOk result (AddsText text.old text.new (shown_lines packages.now.0 owner.now)) }
{
    if owner == COMMON_LISP || owner == KEYWORD {
        return Ok(());
    }
    let imports = listed(packages.imports(alloc, owner))?;
    push_imports(text, owner, imports.as_slice())?;
    let names = listed(packages.external_names(alloc, owner))?;
    push_exports(text, owner, names.as_slice())
}

/// A package that a package uses, but for the use that is there from the first.
#[tactic(auto, unfolding(crate::specs::Packages::use_line))]
fn push_use(text: &mut Vec<u8>, owner: &[u8], used: &[u8]) -> Result<(), AllocError>
    ensures { OnOk result (AddsText text.old text.new (use_line owner.now used.now)) }
{
    if owner == COMMON_LISP_USER && used == COMMON_LISP {
        return Ok(());
    }
    push_form(text, b"USE-PACKAGE", &[used, owner])
}

fn push_used_names(text: &mut Vec<u8>, owner: &[u8], names: &[Bytes]) -> Result<(), AllocError>
    ensures { OnOk result (AddsText text.old text.new (flat_map (use_line owner.now) names.now)) }
{
    for name in names {
        push_use(text, owner, name.as_slice())?;
    }
    Ok(())
}

/// The packages that a package uses.
#[tactic(auto, unfolding(crate::specs::Packages::use_package_lines))]
fn push_uses(
    alloc: Global,
    text: &mut Vec<u8>,
    packages: &Packages,
    owner: &[u8],
) -> Result<(), AllocError>
    ensures { OnOk result (AddsText text.old text.new (use_package_lines packages.now.0 owner.now)) }
{
    let names = listed(packages.uses(alloc, owner))?;
    push_used_names(text, owner, names.as_slice())
}

fn push_each_package(text: &mut Vec<u8>, owners: &[&[u8]]) -> Result<(), AllocError>
    ensures { OnOk result (AddsText text.old text.new (flat_map package_line (names_of owners.now))) }
{
    for owner in owners {
        push_package(text, owner)?;
    }
    Ok(())
}

fn push_each_own(
    alloc: Global,
    text: &mut Vec<u8>,
    packages: &Packages,
    owners: &[&[u8]],
) -> Result<(), AllocError>
    ensures { OnOk result (AddsText text.old text.new
        (flat_map (own_lines packages.now.0) (names_of owners.now))) }
{
    let first = Packages::new(alloc)?;
    for owner in owners {
        push_own(alloc, text, packages, &first, owner)?;
    }
    Ok(())
}

fn push_each_shown(
    alloc: Global,
    text: &mut Vec<u8>,
    packages: &Packages,
    owners: &[&[u8]],
) -> Result<(), AllocError>
    ensures { OnOk result (AddsText text.old text.new
        (flat_map (shown_lines packages.now.0) (names_of owners.now))) }
{
    for owner in owners {
        push_shown(alloc, text, packages, owner)?;
    }
    Ok(())
}

fn push_each_use(
    alloc: Global,
    text: &mut Vec<u8>,
    packages: &Packages,
    owners: &[&[u8]],
) -> Result<(), AllocError>
    ensures { OnOk result (AddsText text.old text.new
        (flat_map (use_package_lines packages.now.0) (names_of owners.now))) }
{
    for owner in owners {
        push_uses(alloc, text, packages, owner)?;
    }
    Ok(())
}

/// Adds the forms that make these packages. Symbols come before uses: a name that was inherited would not be interned.
/// After an error, want of memory alone, a part may be added.
#[tactic(auto, unfolding(crate::specs::Packages::package_lines))]
pub(crate) fn push_packages(
    alloc: Global,
    text: &mut Vec<u8>,
    packages: &Packages,
) -> Result<(), AllocError>
    ensures { OnOk result (AddsText text.old text.new (package_lines packages.now.0)) }
{
    let owners = packages.package_names(alloc)?;
    push_each_package(text, owners.as_slice())?;
    push_each_own(alloc, text, packages, owners.as_slice())?;
    push_each_shown(alloc, text, packages, owners.as_slice())?;
    push_each_use(alloc, text, packages, owners.as_slice())
}
