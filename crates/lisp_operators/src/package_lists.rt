//! The operators that take packages or symbols in lists (standard 11.2): EXPORT, IMPORT, USE-PACKAGE.
ghost use Rattle.std.specs.Prelude.{◌≡◌, true, IfOk, bytes_eq};
ghost use Rattle.std.specs.List.{list_any};
ghost use Rattle.lisp_object.specs.declared.refusal.TheConstants.{NO_SUCH_PACKAGE as NO_PACKAGE};
ghost use Rattle.package_table.specs.Table.{IsPackage, package_named, full_name, keyword};
ghost use Rattle.lisp_operators.specs.Packages.{export, import, use_package, packages_named};
ghost use Rattle.lisp_operators.specs.Members.{name_in, names_in, packages_in};
ghost use Rattle.lisp_operators.specs.EvaluationAnswers.{IsUnlockedPackageOr, FoundOr, TellsPackageChange, AreProper, IsProperValue, AreArgumentsOf, CarriesOut};

use crate::EvaluationError::Refused;
use crate::arguments::{name_or, one_and_rest};
use crate::changes::{export_all, finds_all, import_all, use_each};
use crate::packages::{full_name, package_named};
use crate::{Evaluated, EvaluationError, lists, values};
use lisp_object::Datum;
use lisp_object::refusal::{NOT_ACCESSIBLE, PACKAGE_IS_LOCKED};
use package_table::PackageError;
use package_table::standardized::KEYWORD;
use plist_state::World;
use std::alloc::Global;

// What changes of the packages give: T.
fn changed(alloc: Global, made: Result<bool, PackageError>) -> Result<Evaluated, EvaluationError>
    ensures gives { TellsPackageChange made result }
    ensures proper { IfOk result IsProperValue }
{
    match made {
        Ok(wrote) => Ok(Evaluated {
            value: values::truth(alloc)?,
            wrote,
        }),
        Err(error) => Err(EvaluationError::from(error)),
    }
}

// The package of this name or nickname, where it is not locked.
fn unlocked(alloc: Global, world: &World, name: &[u8]) -> Result<Vec<u8>, EvaluationError>
    ensures unlocked { IsUnlockedPackageOr (λ p. p.items) result
        (package_named world.now.0.packages name.now) }
    ensures there { IfOk result (λ p. IsPackage world.now.0.packages p.items) }
{
    let package = package_named(world, name)?;
    if world.packages().is_locked(package) {
        return Err(Refused(PACKAGE_IS_LOCKED));
    }
    Ok(Vec::from_slice(alloc, package)?)
}

/// EXPORT of a symbol or a list of them. Refused, in this order: a value of another kind, no such package, a locked one, a symbol
/// that it does not find, and then, symbol by symbol, a conflict of names in a package that uses it.
///
/// The symbols before one that is refused stay external: after an error the world may have changed, but for its marks, and who
/// calls it goes back to one.
pub fn export(
    alloc: Global,
    world: &mut World,
    values: &[Datum],
) -> Result<Evaluated, EvaluationError>
    requires { AreArgumentsOf world.old values.now }
    ensures gives { CarriesOut export values.now world.old.0 world.new.0 result }
    ensures proper { IfOk result IsProperValue }
    ensures marked { world.new.1 ≡ world.old.1 }
{
    let (symbols, rest) = one_and_rest(values)?;
    let symbols = lists::symbols(symbols)?;
    let package = unlocked(alloc, world, name_or(rest, world.current_package())?)?;
    let package = package.as_slice();
    if !finds_all(world.packages(), package, symbols) {
        return Err(Refused(NOT_ACCESSIBLE));
    }
    world.soundness();
    let made = export_all(world, package, symbols);
    changed(alloc, made)
}

/// IMPORT of a symbol or a list of them. Refused, in this order: a value of another kind, no such package, a locked one, and then,
/// symbol by symbol, a conflict of names.
///
/// The symbols before one that is refused stay present: after an error the world may have changed, but for its marks, and who
/// calls it goes back to one.
pub fn import(
    alloc: Global,
    world: &mut World,
    values: &[Datum],
) -> Result<Evaluated, EvaluationError>
    requires { AreArgumentsOf world.old values.now }
    ensures gives { CarriesOut import values.now world.old.0 world.new.0 result }
    ensures proper { IfOk result IsProperValue }
    ensures marked { world.new.1 ≡ world.old.1 }
{
    let (imported, rest) = one_and_rest(values)?;
    let imported = lists::symbols(imported)?;
    let package = unlocked(alloc, world, name_or(rest, world.current_package())?)?;
    world.soundness();
    let made = import_all(world, package.as_slice(), imported);
    changed(alloc, made)
}

// That each of these names or nicknames is that of a package.
fn check_packages(world: &World, names: &[Datum]) -> Result<(), EvaluationError>
    requires { AreProper names.now }
    ensures { FoundOr NO_PACKAGE (λ _. packages_in names.now) result
        (packages_named world.now.0.packages (names_in names.now)) }
{
    for name in names {
        match package_named(world, lists::name_in(name)) {
            Ok(_) => {}
            Err(error) => return Err(error),
        }
    }
    Ok(())
}

// Whether KEYWORD is one of the packages of these names.
fn has_keyword(names: &[Datum]) -> bool
    requires { AreProper names.now }
    ensures { result ≡ list_any (bytes_eq keyword) (packages_in names.now) }
{
    for name in names {
        if KEYWORD == full_name(lists::name_in(name)) {
            return true;
        }
    }
    false
}

/// USE-PACKAGE of a package or a list of them: each is there, then the user is there and not locked, and none of them is KEYWORD,
/// before any conflict.
///
/// The packages before one that is refused stay used: after an error the world may have changed, but for its marks, and who
/// calls it goes back to one.
pub fn use_package(
    alloc: Global,
    world: &mut World,
    values: &[Datum],
) -> Result<Evaluated, EvaluationError>
    requires { AreArgumentsOf world.old values.now }
    ensures gives { CarriesOut use_package values.now world.old.0 world.new.0 result }
    ensures proper { IfOk result IsProperValue }
    ensures marked { world.new.1 ≡ world.old.1 }
{
    let (used, rest) = one_and_rest(values)?;
    let used = lists::names(used)?;
    let owner = name_or(rest, world.current_package())?;
    check_packages(world, used)?;
    let package = unlocked(alloc, world, owner)?;
    if has_keyword(used) {
        return Err(Refused(PACKAGE_IS_LOCKED));
    }
    world.soundness();
    let made = use_each(world, package.as_slice(), used);
    changed(alloc, made)
}
