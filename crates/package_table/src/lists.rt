//! Lists of names, each sorted by its bytes when it is asked for.
ghost use Rattle.std.specs.Prelude.{◌≡◌, ◌<◌, map, length, get_or, position, bytes_eq, Some, IfOk, IfErr, MatchResult};
ghost use Rattle.std.specs.List.{AllByRecursion};
ghost use Rattle.package_sets.specs.KeptSets.{name_at, pair_at, positions_of};
ghost use Rattle.package_table.specs.Table.{IsPackage, AreSoundPackages};
ghost use Rattle.package_table.specs.Readers.{home_at, names_of, package_names, used_names, own_names, external_names, imports, ListRefused};
ghost use Rattle.package_table.specs.Meaning.{numbered_of, shown_positions, shown_symbol, symbol_name};
ghost use Rattle.package_table.specs.Adds.{HasFixedNumbers};

use crate::PackageError;
use crate::conflicts::{shown_positions, shown_symbol};
use crate::look_ups::{home_name, number_in, symbol_name};
use lisp_object::{Bytes, Items};
use package_sets::PackageSets;
use std::alloc::{AllocError, Global};

// Copies of these names.
fn copies(alloc: Global, names: &[&[u8]]) -> Result<Items<Bytes>, AllocError>
    ensures { IfOk result (λ copies. copies ≡ names_of names.now) }
{
    let mut copies = Items::new(alloc);
    for name in names {
        copies.push(Bytes::from_slice(alloc, name)?)?;
    }
    Ok(copies)
}

// The names of symbols.
fn names_in<'a>(
    sets: &'a PackageSets,
    alloc: Global,
    symbols: &[u32],
) -> Result<Vec<&'a [u8]>, AllocError>
    requires { AllByRecursion (λ s. s < length sets.now.symbols) symbols.now }
    ensures { IfOk result (λ names. names_of names.items ≡ map (symbol_name sets.now) symbols.now) }
{
    let mut names = Vec::with_capacity(alloc, symbols.len())?;
    for symbol in symbols {
        names.push(symbol_name(sets, *symbol))?;
    }
    Ok(names)
}

// The names of the external symbols of a package.
fn shown_names(sets: &PackageSets, alloc: Global, owner: u32) -> Result<Vec<&[u8]>, AllocError>
    ensures { let k = sets.now in IfOk result
        (λ names. names_of names.items
        ≡ map (λ x. symbol_name k (shown_symbol k owner x)) (shown_positions k owner)) }
{
    sets.goodness();
    let positions = shown_positions(sets, owner);
    let mut names = Vec::with_capacity(alloc, positions.len())?;
    for position in positions {
        names.push(symbol_name(sets, shown_symbol(sets, owner, *position)))?;
    }
    Ok(names)
}

// The names of what a package imports.
fn imported_names(sets: &PackageSets, alloc: Global, owner: u32) -> Result<Vec<&[u8]>, AllocError>
    ensures { let k = sets.now in IfOk result
        (λ names. names_of names.items
        ≡ map (λ x. symbol_name k (get_or k.imported x 0)) (positions_of owner k.imports)) }
{
    sets.goodness();
    let positions = sets.imports_of(owner);
    let mut names = Vec::with_capacity(alloc, positions.len())?;
    for position in positions {
        names.push(symbol_name(sets, sets.imported_at(*position)))?;
    }
    Ok(names)
}

// The names of what a package uses.
fn used_packages(sets: &PackageSets, alloc: Global, owner: u32) -> Result<Vec<&[u8]>, AllocError>
    ensures { let k = sets.now in IfOk result
        (λ names. names_of names.items
        ≡ map (λ x. name_at k.packages (pair_at k.uses x).1) (positions_of owner k.uses)) }
{
    sets.goodness();
    let positions = sets.uses_of(owner);
    let mut names = Vec::with_capacity(alloc, positions.len())?;
    for position in positions {
        names.push(sets.package(sets.use_at(*position).second))?;
    }
    Ok(names)
}

// The names of the packages, as they are kept.
fn all_packages(sets: &PackageSets, alloc: Global) -> Result<Vec<&[u8]>, AllocError>
    ensures { IfOk result (λ names. names_of names.items ≡ sets.now.packages) }
{
    let mut names = Vec::with_capacity(alloc, sets.package_count() as usize)?;
    for number in 0..sets.package_count() {
        names.push(sets.package(number))?;
    }
    Ok(names)
}

// The number of the package of this name, of which a list is given.
fn listed(sets: &PackageSets, owner: &[u8]) -> Result<u32, PackageError>
    ensures number { IfOk result (λ p. position (bytes_eq owner.now) sets.now.packages ≡ Some p) }
    ensures there { IfOk result (λ _. IsPackage (numbered_of sets.now).0 owner.now) }
    ensures refused { IfErr result (ListRefused (numbered_of sets.now).0 owner.now) }
{
    sets.goodness();
    match sets.find_package(owner) {
        Some(number) => Ok(number),
        None => Err(PackageError::NoSuchPackage),
    }
}

/// The names of the packages.
pub(crate) fn package_names(sets: &PackageSets, alloc: Global) -> Result<Vec<&[u8]>, AllocError>
    ensures { IfOk result (λ names. names_of names.items ≡ package_names (numbered_of sets.now).0) }
{
    sets.goodness();
    let mut names = all_packages(sets, alloc)?;
    names.sort_unstable();
    Ok(names)
}

/// The names of the packages, on their own memory.
pub(crate) fn names(sets: &PackageSets, alloc: Global) -> Result<Items<Bytes>, AllocError>
    ensures { IfOk result (λ names. names ≡ package_names (numbered_of sets.now).0) }
{
    let names = package_names(sets, alloc)?;
    copies(alloc, names.as_slice())
}

/// The names of the packages that `owner` uses. `NoSuchPackage` where there is no such package.
pub(crate) fn uses(
    sets: &PackageSets,
    alloc: Global,
    owner: &[u8],
) -> Result<Items<Bytes>, PackageError>
    requires sound { AreSoundPackages (numbered_of sets.now).0 }
    requires placed { HasFixedNumbers sets.now }
    ensures list { IfOk result (λ names. names ≡ used_names (numbered_of sets.now).0 owner.now) }
    ensures there { IfOk result (λ _. IsPackage (numbered_of sets.now).0 owner.now) }
    ensures refused { IfErr result (ListRefused (numbered_of sets.now).0 owner.now) }
{
    sets.goodness();
    let number = listed(sets, owner)?;
    let mut names = used_packages(sets, alloc, number)?;
    names.sort_unstable();
    Ok(copies(alloc, names.as_slice())?)
}

/// The names at home in `owner`, as they are kept. `NoSuchPackage` where there is no such package.
pub(crate) fn own_names<'a>(
    sets: &'a PackageSets,
    alloc: Global,
    owner: &[u8],
) -> Result<Vec<&'a [u8]>, PackageError>
    requires sound { AreSoundPackages (numbered_of sets.now).0 }
    requires placed { HasFixedNumbers sets.now }
    ensures list { IfOk result
        (λ names. names_of names.items ≡ own_names (numbered_of sets.now).0 owner.now) }
    ensures there { IfOk result (λ _. IsPackage (numbered_of sets.now).0 owner.now) }
    ensures refused { IfErr result (ListRefused (numbered_of sets.now).0 owner.now) }
{
    sets.goodness();
    let number = listed(sets, owner)?;
    let mut names = names_in(sets, alloc, sets.own(number))?;
    names.sort_unstable();
    Ok(names)
}

/// The names external in `owner`, as they are kept. Looks at them alone. `NoSuchPackage` where there is no such
/// package.
pub(crate) fn external_names<'a>(
    sets: &'a PackageSets,
    alloc: Global,
    owner: &[u8],
) -> Result<Vec<&'a [u8]>, PackageError>
    requires sound { AreSoundPackages (numbered_of sets.now).0 }
    requires placed { HasFixedNumbers sets.now }
    ensures list { IfOk result
        (λ names. names_of names.items ≡ external_names (numbered_of sets.now).0 owner.now) }
    ensures there { IfOk result (λ _. IsPackage (numbered_of sets.now).0 owner.now) }
    ensures refused { IfErr result (ListRefused (numbered_of sets.now).0 owner.now) }
{
    sets.goodness();
    let number = listed(sets, owner)?;
    let mut names = shown_names(sets, alloc, number)?;
    names.sort_unstable();
    Ok(names)
}

/// The names at home in `owner`. `NoSuchPackage` where there is no such package.
pub(crate) fn own(
    sets: &PackageSets,
    alloc: Global,
    owner: &[u8],
) -> Result<Items<Bytes>, PackageError>
    requires sound { AreSoundPackages (numbered_of sets.now).0 }
    requires placed { HasFixedNumbers sets.now }
    ensures list { IfOk result (λ names. names ≡ own_names (numbered_of sets.now).0 owner.now) }
    ensures there { IfOk result (λ _. IsPackage (numbered_of sets.now).0 owner.now) }
    ensures refused { IfErr result (ListRefused (numbered_of sets.now).0 owner.now) }
{
    let names = own_names(sets, alloc, owner)?;
    Ok(copies(alloc, names.as_slice())?)
}

/// The names external in `owner`. Looks at them alone. `NoSuchPackage` where there is no such package.
pub(crate) fn externals(
    sets: &PackageSets,
    alloc: Global,
    owner: &[u8],
) -> Result<Items<Bytes>, PackageError>
    requires sound { AreSoundPackages (numbered_of sets.now).0 }
    requires placed { HasFixedNumbers sets.now }
    ensures list { IfOk result
        (λ names. names ≡ external_names (numbered_of sets.now).0 owner.now) }
    ensures there { IfOk result (λ _. IsPackage (numbered_of sets.now).0 owner.now) }
    ensures refused { IfErr result (ListRefused (numbered_of sets.now).0 owner.now) }
{
    let names = external_names(sets, alloc, owner)?;
    Ok(copies(alloc, names.as_slice())?)
}

// The name of the home of the symbol that is present in `owner` by this name, and nothing
// if there is none.
fn home_at<'a>(sets: &'a PackageSets, owner: &[u8], name: &[u8]) -> &'a [u8]
    ensures { result.now ≡ home_at (numbered_of sets.now).0 owner.now name.now }
{
    sets.goodness();
    let Some(owner) = sets.find_package(owner) else {
        return b"";
    };
    let Some(name) = sets.find_name(name) else {
        return b"";
    };
    match number_in(sets, owner, name) {
        Some(symbol) => home_name(sets, symbol),
        None => b"",
    }
}

// These names, each with the name of the home of the symbol that the package has by it.
fn with_homes(
    sets: &PackageSets,
    alloc: Global,
    owner: &[u8],
    names: &[&[u8]],
) -> Result<Items<(Bytes, Bytes)>, AllocError>
    ensures { IfOk result (λ pairs. pairs
        ≡ map (λ n. (n, home_at (numbered_of sets.now).0 owner.now n)) (names_of names.now)) }
{
    let mut pairs = Items::new(alloc);
    for name in names {
        let home = Bytes::from_slice(alloc, home_at(sets, owner, name))?;
        pairs.push((Bytes::from_slice(alloc, name)?, home))?;
    }
    Ok(pairs)
}

/// The names present in `owner` with another home, each with that home. `NoSuchPackage` where there is no such package.
pub(crate) fn imports(
    sets: &PackageSets,
    alloc: Global,
    owner: &[u8],
) -> Result<Items<(Bytes, Bytes)>, PackageError>
    requires sound { AreSoundPackages (numbered_of sets.now).0 }
    requires placed { HasFixedNumbers sets.now }
    ensures list { IfOk result (λ names. names ≡ imports (numbered_of sets.now).0 owner.now) }
    ensures there { IfOk result (λ _. IsPackage (numbered_of sets.now).0 owner.now) }
    ensures refused { IfErr result (ListRefused (numbered_of sets.now).0 owner.now) }
{
    sets.goodness();
    let number = listed(sets, owner)?;
    let mut names = imported_names(sets, alloc, number)?;
    names.sort_unstable();
    Ok(with_homes(sets, alloc, owner, names.as_slice())?)
}
