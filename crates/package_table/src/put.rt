//! Single changes. Each adds to what is kept, so that what was kept before is still to be had by a cut.
ghost use Rattle.std.specs.Prelude.{◌≡◌, ◌<◌, ◌+◌, false, true, length, bytes_eq, Some, None, IfOk, OnOk, OnErr};
ghost use Rattle.std.specs.FinMap as finite;
ghost use Rattle.package_sets.specs.KeptSets.{name_at, pair_at, pair_eq};
ghost use Rattle.package_sets.specs.Consistent.{IsGood};
ghost use Rattle.package_sets.specs.Changes.{with_external_number, with_import};
ghost use Rattle.package_table.specs.Table.{common_lisp, entry_at, is_locked, keyword, with_entry, with_new_package, with_used, AreUsesSound, IsPackage, IsPresent};
ghost use Rattle.package_table.specs.Lookup.{home_by_name, is_external, is_used};
ghost use Rattle.package_table.specs.Changes.{finds_this};
ghost use Rattle.package_table.specs.Meaning.{number_in, numbered_of};
ghost use Rattle.package_table.specs.Adds.{Adds, AddsNoSymbol, HasFixedNumbers};

use crate::look_ups::{found_number, number_in};
use package_sets::PackageSets;
use std::alloc::AllocError;

/// Adds a package of this name, which has no symbols and uses nothing. After an error, want of memory alone, the
/// packages are as they were.
pub(crate) fn put_package(sets: &mut PackageSets, name: &[u8]) -> Result<(), AllocError>
    requires { finite.get (numbered_of sets.old).0 name.now ≡ None }
    ensures ok { OnOk result
        ((numbered_of sets.new).0 ≡ with_new_package (numbered_of sets.old).0 name.now) }
    ensures adds { IfOk result (λ _. AddsNoSymbol sets.old sets.new) }
    ensures err { OnErr result (sets.new ≡ sets.old) }
{
    sets.goodness();
    sets.make(name)?;
    sets.goodness();
    Ok(())
}

/// Makes a new symbol of the package of a number, which is not COMMON-LISP, present there. After an error, want of
/// memory alone, the packages are as they were.
pub(crate) fn put_new(sets: &mut PackageSets, owner: u32, name: &[u8]) -> Result<(), AllocError>
    requires package { owner < length sets.old.packages }
    requires fresh { let p = name_at sets.old.packages owner in
        home_by_name (numbered_of sets.old).0 p name.now ≡ None }
    requires unlocked { bytes_eq (name_at sets.old.packages owner) common_lisp ≡ false }
    requires placed { HasFixedNumbers sets.old }
    ensures ok { let p = name_at sets.old.packages owner in OnOk result
        ((numbered_of sets.new).0 ≡ with_entry (numbered_of sets.old).0 p name.now
        (record { home = p; external = bytes_eq p keyword })) }
    ensures adds { IfOk result (λ _. Adds sets.old sets.new) }
    ensures count { IfOk result (λ _. length sets.new.symbols ≡ length sets.old.symbols + 1) }
    ensures err { OnErr result (sets.new ≡ sets.old) }
{
    sets.goodness();
    sets.intern(owner, name)?;
    sets.goodness();
    Ok(())
}

/// Makes the symbol of this home and name present in `owner`, which exists, is not locked and has none by that name.
/// After an error, want of memory alone, the packages are as they were.
pub(crate) fn put_import(
    sets: &mut PackageSets,
    owner: &[u8],
    home: &[u8],
    name: &[u8],
) -> Result<(), AllocError>
    requires package { IsPackage (numbered_of sets.old).0 owner.now }
    requires symbol { IsPresent (numbered_of sets.old).0 home.now name.now home.now }
    requires fresh { entry_at (numbered_of sets.old).0 owner.now name.now ≡ None }
    requires unlocked { is_locked owner.now ≡ false }
    requires placed { HasFixedNumbers sets.old }
    ensures ok { OnOk result ((numbered_of sets.new).0
        ≡ with_entry (numbered_of sets.old).0 owner.now name.now
        (record { home = home.now; external = false })) }
    ensures adds { IfOk result (λ _. AddsNoSymbol sets.old sets.new) }
    ensures err { OnErr result (sets.new ≡ sets.old) }
{
    sets.goodness();
    let Some(owner) = sets.find_package(owner) else {
        unreachable!()
    };
    let Some(home) = sets.find_package(home) else {
        unreachable!()
    };
    let Some(name) = sets.find_name(name) else {
        unreachable!()
    };
    let Some(symbol) = sets.find_symbol(home, name) else {
        unreachable!()
    };
    sets.import(owner, symbol)?;
    sets.goodness();
    Ok(())
}

// Makes a package import a symbol, which is external there then.
fn import_and_show(sets: &mut PackageSets, owner: u32, symbol: u32) -> Result<(), AllocError>
    requires owner { owner < length sets.old.packages }
    requires symbol { symbol < length sets.old.symbols }
    requires fresh { number_in sets.old owner (pair_at sets.old.symbols symbol).1 ≡ None }
    requires placed { HasFixedNumbers sets.old }
    ensures good { IfOk result (λ _. IsGood (with_import sets.old owner symbol)) }
    ensures ok { OnOk result
        (sets.new ≡ with_external_number (with_import sets.old owner symbol) owner symbol) }
    ensures err { OnErr result (sets.new ≡ sets.old) }
{
    sets.goodness();
    let sizes = sets.sizes();
    sets.import(owner, symbol)?;
    sets.goodness();
    if let Err(_) = sets.show(owner, symbol) {
        sets.cut(sizes);
        return Err(AllocError);
    }
    Ok(())
}

/// Makes the symbol of this home, which `owner` finds by this name, external there. `owner` is not locked. After an
/// error, want of memory alone, the packages are as they were.
pub(crate) fn put_external(
    sets: &mut PackageSets,
    owner: &[u8],
    home: &[u8],
    name: &[u8],
) -> Result<(), AllocError>
    requires package { IsPackage (numbered_of sets.old).0 owner.now }
    requires joined { AreUsesSound (numbered_of sets.old).0 }
    requires finds { finds_this (numbered_of sets.old).0 owner.now home.now name.now ≡ true }
    requires hidden { is_external (numbered_of sets.old).0 owner.now name.now ≡ false }
    requires placed { HasFixedNumbers sets.old }
    ensures ok { OnOk result ((numbered_of sets.new).0
        ≡ with_entry (numbered_of sets.old).0 owner.now name.now
        (record { home = home.now; external = true })) }
    ensures adds { IfOk result (λ _. AddsNoSymbol sets.old sets.new) }
    ensures err { OnErr result (sets.new ≡ sets.old) }
{
    sets.goodness();
    let Some(owner) = sets.find_package(owner) else {
        unreachable!()
    };
    let Some(name) = sets.find_name(name) else {
        unreachable!()
    };
    let Some(symbol) = found_number(sets, owner, name) else {
        unreachable!()
    };
    if number_in(sets, owner, name).is_some() {
        sets.show(owner, symbol)?;
        sets.goodness();
        return Ok(());
    }
    import_and_show(sets, owner, symbol)?;
    sets.goodness();
    Ok(())
}

/// Makes the package `owner`, which exists, use another, which it does not use yet. After an error, want of memory
/// alone, the packages are as they were.
pub(crate) fn put_use(sets: &mut PackageSets, owner: &[u8], used: &[u8]) -> Result<(), AllocError>
    requires package { IsPackage (numbered_of sets.old).0 owner.now }
    requires other { IsPackage (numbered_of sets.old).0 used.now }
    requires apart { bytes_eq owner.now used.now ≡ false }
    requires unused { is_used (numbered_of sets.old).0 owner.now used.now ≡ false }
    ensures ok { OnOk result
        ((numbered_of sets.new).0 ≡ with_used (numbered_of sets.old).0 owner.now used.now) }
    ensures adds { IfOk result (λ _. AddsNoSymbol sets.old sets.new) }
    ensures err { OnErr result (sets.new ≡ sets.old) }
{
    sets.goodness();
    let Some(owner) = sets.find_package(owner) else {
        unreachable!()
    };
    let Some(used) = sets.find_package(used) else {
        unreachable!()
    };
    sets.use_package(owner, used)?;
    sets.goodness();
    Ok(())
}
