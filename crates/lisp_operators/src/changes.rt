//! Changes of the packages, one after the other.
ghost use Rattle.std.specs.Prelude.{◌≡◌, true, All};
ghost use Rattle.package_table.specs.Table.{IsPackage, full_name};
ghost use Rattle.std.specs.List.{list_all};
ghost use Rattle.plist_state.specs.Changes.{with_packages};
ghost use Rattle.plist_state.specs.Sound.{IsSymbol};
ghost use Rattle.lisp_operators.specs.Members.{symbol_of_member, name_in, symbols_in, packages_in};
ghost use Rattle.lisp_operators.specs.Packages.{after_exports, after_imports, after_uses, finds_symbol};
ghost use Rattle.lisp_operators.specs.EvaluationAnswers.{MakesPackages, IsProper, AreProper};

use crate::either;
use crate::lists::{name_in, symbol_in};
use crate::packages::full_name;
use lisp_object::Datum;
use package_table::{PackageError, Packages, Resolved};
use plist_state::World;

// Whether a package finds this symbol by its name.
fn finds(packages: &Packages, owner: &[u8], symbol: &Datum) -> bool
    requires owner { IsPackage packages.now.0 owner.now }
    requires symbol { IsProper symbol.now }
    ensures { result ≡ finds_symbol packages.now.0 owner.now (symbol_of_member symbol.now) }
{
    let (symbol_home, name) = symbol_in(symbol);
    match packages.resolve(owner, name) {
        Ok(resolved) => match resolved {
            Resolved::Found(home) => home == symbol_home,
            Resolved::New(_) => false,
        },
        Err(_) => false,
    }
}

/// Whether a package finds each of these symbols by its name.
pub(crate) fn finds_all(packages: &Packages, owner: &[u8], symbols: &[Datum]) -> bool
    requires owner { IsPackage packages.now.0 owner.now }
    requires symbols { AreProper symbols.now }
    ensures { result ≡ list_all (finds_symbol packages.now.0 owner.now) (symbols_in symbols.now) }
{
    for symbol in symbols {
        if !finds(packages, owner, symbol) {
            return false;
        }
    }
    true
}

/// EXPORT of these symbols, one after the other, and whether the packages changed. After an error a part of them may be
/// external: who calls it goes back to a mark.
pub(crate) fn export_all(
    world: &mut World,
    owner: &[u8],
    symbols: &[Datum],
) -> Result<bool, PackageError>
    requires { AreProper symbols.now }
    ensures gives { MakesPackages result world.new.0.packages
        (after_exports world.old.0.packages owner.now (symbols_in symbols.now)) }
    ensures rest { world.new ≡ (with_packages world.old.0 world.new.0.packages, world.old.1) }
{
    let mut wrote = false;
    for symbol in symbols {
        let (home, name) = symbol_in(symbol);
        match world.export(owner, home, name) {
            Ok(changed) => wrote = either(wrote, changed),
            Err(error) => return Err(error),
        }
    }
    Ok(wrote)
}

/// IMPORT of these symbols, which are there, one after the other, and whether the packages changed. After an error a
/// part of them may be imported: who calls it goes back to a mark.
pub(crate) fn import_all(
    world: &mut World,
    owner: &[u8],
    symbols: &[Datum],
) -> Result<bool, PackageError>
    requires proper { AreProper symbols.now }
    requires there { All (λ d. IsSymbol world.old.0.packages (symbol_of_member d)) symbols.now }
    ensures gives { MakesPackages result world.new.0.packages
        (after_imports world.old.0.packages owner.now (symbols_in symbols.now)) }
    ensures rest { world.new ≡ (with_packages world.old.0 world.new.0.packages, world.old.1) }
{
    let mut wrote = false;
    for symbol in symbols {
        let (home, name) = symbol_in(symbol);
        match world.import(owner, home, name) {
            Ok(changed) => wrote = either(wrote, changed),
            Err(error) => return Err(error),
        }
    }
    Ok(wrote)
}

/// USE-PACKAGE of the packages of these names, one after the other, and whether the packages changed. After an error a
/// part of them may be used: who calls it goes back to a mark.
pub(crate) fn use_each(
    world: &mut World,
    owner: &[u8],
    used: &[Datum],
) -> Result<bool, PackageError>
    requires { AreProper used.now }
    ensures gives { MakesPackages result world.new.0.packages
        (after_uses world.old.0.packages owner.now (packages_in used.now)) }
    ensures rest { world.new ≡ (with_packages world.old.0 world.new.0.packages, world.old.1) }
{
    let mut wrote = false;
    for package in used {
        match world.use_package(owner, full_name(name_in(package))) {
            Ok(changed) => wrote = either(wrote, changed),
            Err(error) => return Err(error),
        }
    }
    Ok(wrote)
}
