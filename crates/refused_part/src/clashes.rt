//! Which name would be that of two symbols, where a form is refused for that.
ghost use Rattle.std.specs.Prelude.{IfSome};
ghost use Rattle.package_table.specs.Table.{IsPackage};

use crate::filling::{item_at, items_inside};
use crate::operators::name_of_symbol;
use lisp_object::Datum;
use package_table::{PackageError, Resolved};
use plist_state::World;
use std::alloc::{AllocError, Global};

const QUOTE: &[u8] = b"QUOTE";

const USE_PACKAGE: &[u8] = b"USE-PACKAGE";

const IMPORT: &[u8] = b"IMPORT";

const EXPORT: &[u8] = b"EXPORT";

/// A name, and the package that would find two symbols by it.
#[derive(Clone, Copy)]
struct Clash<'a> {
    name: &'a [u8],
    package: &'a [u8],
}

/// Adds, after a form that was refused as a package would find two symbols by one name, which name and package these are, if they are known: of
/// USE-PACKAGE, IMPORT and EXPORT with arguments that are quoted.
pub(crate) fn add_clash(
    alloc: Global,
    text: &mut Vec<u8>,
    world: &World,
    part: &Datum,
) -> Result<(), AllocError> {
    if let Some(clash) = clash_of(alloc, world, part)? {
        text.extend_from_slice(b"; another symbol has the name ")?;
        text.extend_from_slice(clash.name)?;
        text.extend_from_slice(b" in ")?;
        text.extend_from_slice(clash.package)?;
    }
    Ok(())
}

// The first clash of what a form names.
fn clash_of<'a>(
    alloc: Global,
    world: &'a World,
    part: &'a Datum,
) -> Result<Option<Clash<'a>>, AllocError> {
    let (Some(operator), Some(argument)) = (item_at(part, 0), item_at(part, 1)) else {
        return Ok(None);
    };
    let (Some(operator), Some(given)) = (name_of_symbol(operator), quoted(argument)) else {
        return Ok(None);
    };
    let Some(owner) = owner_of(world, part) else {
        return Ok(None);
    };
    if operator == USE_PACKAGE {
        clash_of_packages(alloc, world, given, owner)
    } else if operator == IMPORT {
        Ok(clash_of_symbols(world, given, owner))
    } else if operator == EXPORT {
        clash_in_users(alloc, world, given, owner)
    } else {
        Ok(None)
    }
}

// The object that a form is the quotation of; a text is one of itself.
fn quoted(form: &Datum) -> Option<&Datum> {
    if let Datum::Text(_) = form {
        return Some(form);
    }
    if name_of_symbol(item_at(form, 0)?)? == QUOTE {
        item_at(form, 1)
    } else {
        None
    }
}

// The package that a form changes: that of the second argument, or the current one.
fn owner_of<'a>(world: &'a World, part: &Datum) -> Option<&'a [u8]>
    ensures { IfSome result (λ owner. IsPackage world.now.0.packages owner.now) }
{
    world.soundness();
    match item_at(part, 2) {
        Some(argument) => world.packages().find(package_name(quoted(argument)?)?),
        None => Some(world.current_package()),
    }
}

// The name of a package, which a text or a symbol stands for.
fn package_name(named: &Datum) -> Option<&[u8]> {
    match named {
        Datum::Text(name) => Some(name.as_slice()),
        _ => name_of_symbol(named),
    }
}

// The first clash in a package that uses another one, or those of a list.
fn clash_of_packages<'a>(
    alloc: Global,
    world: &'a World,
    given: &Datum,
    owner: &'a [u8],
) -> Result<Option<Clash<'a>>, AllocError>
    requires owner { IsPackage world.now.0.packages owner.now }
{
    if let Some(name) = package_name(given) {
        return clash_of_package(alloc, world, name, owner);
    }
    for item in items_inside(given) {
        if let Some(name) = package_name(item) {
            if let Some(clash) = clash_of_package(alloc, world, name, owner)? {
                return Ok(Some(clash));
            }
        }
    }
    Ok(None)
}

// The first clash of the external names of one package.
fn clash_of_package<'a>(
    alloc: Global,
    world: &'a World,
    used: &[u8],
    owner: &'a [u8],
) -> Result<Option<Clash<'a>>, AllocError>
    requires owner { IsPackage world.now.0.packages owner.now }
{
    let Some(used) = world.packages().find(used) else {
        return Ok(None);
    };
    match world.packages().external_names(alloc, used) {
        Ok(names) => {
            for name in names.as_slice() {
                if let Ok(home) = world.packages().resolve_external(used, *name) {
                    if finds_other(world, owner, home, *name) {
                        return Ok(Some(Clash {
                            name: *name,
                            package: owner,
                        }));
                    }
                }
            }
            Ok(None)
        }
        Err(PackageError::OutOfMemory) => Err(AllocError),
        Err(_) => Ok(None),
    }
}

// The first clash of a symbol, or of those of a list, in a package that exports them.
fn clash_in_users<'a>(
    alloc: Global,
    world: &'a World,
    given: &'a Datum,
    owner: &[u8],
) -> Result<Option<Clash<'a>>, AllocError> {
    let packages = world.packages();
    let names = packages.package_names(alloc)?;
    for name in names.as_slice() {
        if packages.is_used(*name, owner) {
            if let Some(user) = packages.find(*name) {
                if let Some(clash) = clash_of_symbols(world, given, user) {
                    return Ok(Some(clash));
                }
            }
        }
    }
    Ok(None)
}

// The first clash of a symbol, or of those of a list, in a package.
fn clash_of_symbols<'a>(world: &World, given: &'a Datum, owner: &'a [u8]) -> Option<Clash<'a>>
    requires owner { IsPackage world.now.0.packages owner.now }
{
    if let Some(clash) = clash_of_symbol(world, given, owner) {
        return Some(clash);
    }
    for item in items_inside(given) {
        if let Some(clash) = clash_of_symbol(world, item, owner) {
            return Some(clash);
        }
    }
    None
}

// The clash of a symbol that a package is to have, where the package finds another one by its name.
fn clash_of_symbol<'a>(world: &World, symbol: &'a Datum, owner: &'a [u8]) -> Option<Clash<'a>>
    requires owner { IsPackage world.now.0.packages owner.now }
{
    match symbol {
        Datum::Symbol { package, name } => {
            let name = name.as_slice();
            if finds_other(world, owner, package.as_slice(), name) {
                Some(Clash {
                    name,
                    package: owner,
                })
            } else {
                None
            }
        }
        _ => None,
    }
}

// Whether a package finds another symbol by a name than the one with this home.
fn finds_other(world: &World, owner: &[u8], home: &[u8], name: &[u8]) -> bool
    requires owner { IsPackage world.now.0.packages owner.now }
{
    match world.packages().resolve(owner, name) {
        Ok(Resolved::Found(found)) => found != home,
        _ => false,
    }
}
