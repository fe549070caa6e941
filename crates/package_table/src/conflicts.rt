//! Whether a package finds another symbol than a given one by its name.
ghost use Rattle.std.specs.Prelude.{◌≡◌, ◌<◌, ◌&&◌, false, nat_lt, length};
ghost use Rattle.std.specs.FinMap as finite;
ghost use Rattle.package_sets.specs.KeptSets.{name_at};
ghost use Rattle.package_table.specs.Table.{AreUsesSound, IsPackage, AreSoundPackages};
ghost use Rattle.package_table.specs.Changes.{finds_this, finds_other, user_finds_other, finds_other_than_shown};
ghost use Rattle.package_table.specs.Meaning.{finds_another, numbered_of, package_of_number, shown_positions, shown_symbol};
ghost use Rattle.package_table.specs.Adds.{HasFixedNumbers};

use crate::limits::LOCKED_PACKAGES;
use crate::look_ups::{found_number, home_name, home_of};
use package_sets::PackageSets;

/// Whether `owner` finds the symbol of this home and name.
pub(crate) fn finds_this(sets: &PackageSets, owner: &[u8], home: &[u8], name: &[u8]) -> bool
    requires { AreUsesSound (numbered_of sets.now).0 }
    ensures { result ≡ finds_this (numbered_of sets.now).0 owner.now home.now name.now }
{
    match home_of(sets, owner, name) {
        Some(other) => other == home,
        None => false,
    }
}

/// Whether `owner` finds another symbol than that of this home by its name.
pub(crate) fn finds_other(sets: &PackageSets, owner: &[u8], home: &[u8], name: &[u8]) -> bool
    requires { AreUsesSound (numbered_of sets.now).0 }
    ensures { result ≡ finds_other (numbered_of sets.now).0 owner.now home.now name.now }
{
    match home_of(sets, owner, name) {
        Some(other) => other != home,
        None => false,
    }
}

// Whether the package `user` uses `owner` and finds another symbol than that of this home by a name.
fn finds_as_user(sets: &PackageSets, user: u32, owner: u32, home: &[u8], name: u32) -> bool
    requires user { user < length sets.now.packages }
    requires owner { owner < length sets.now.packages }
    requires name { name < length sets.now.names }
    requires joined { AreUsesSound (numbered_of sets.now).0 }
    ensures { let k = sets.now in let at = name_at k.packages in
        result ≡ (finite.contains_key (package_of_number k user).uses (at owner)
        && finds_other (numbered_of k).0 (at user) home.now (name_at k.names name)) }
{
    sets.goodness();
    if !sets.is_used(user, owner) {
        return false;
    }
    match found_number(sets, user, name) {
        Some(symbol) => home_name(sets, symbol) != home,
        None => false,
    }
}

/// Whether a package that uses `owner` finds another symbol than that of this home by its name. Only those that use it
/// look the name up.
pub(crate) fn user_finds_other(sets: &PackageSets, owner: &[u8], home: &[u8], name: &[u8]) -> bool
    requires { AreSoundPackages (numbered_of sets.now).0 }
    ensures { result ≡ user_finds_other (numbered_of sets.now).0 owner.now home.now name.now }
{
    sets.goodness();
    let Some(owner) = sets.find_package(owner) else {
        return false;
    };
    let Some(name) = sets.find_name(name) else {
        return false;
    };
    for user in 0..sets.package_count() {
        if finds_as_user(sets, user, owner, home, name) {
            return true;
        }
    }
    false
}

// Whether a package finds another symbol by the name of this one.
fn finds_another(sets: &PackageSets, owner: u32, symbol: u32) -> bool
    requires owner { owner < length sets.now.packages }
    requires symbol { symbol < length sets.now.symbols }
    requires joined { AreUsesSound (numbered_of sets.now).0 }
    ensures { result ≡ finds_another sets.now owner symbol }
{
    sets.goodness();
    match found_number(sets, owner, sets.symbol(symbol).second) {
        Some(other) => home_name(sets, other) != home_name(sets, symbol),
        None => false,
    }
}

/// Where the external symbols of a package are: at home in it, if it is locked, and else among what is external.
pub(crate) fn shown_positions(sets: &PackageSets, owner: u32) -> &[u32]
    ensures { result.now ≡ shown_positions sets.now owner }
{
    if owner < LOCKED_PACKAGES {
        sets.own(owner)
    } else {
        sets.externals_of(owner)
    }
}

/// The symbol of such a place.
pub(crate) fn shown_symbol(sets: &PackageSets, owner: u32, position: u32) -> u32
    requires { nat_lt owner 2 ≡ false → position < length sets.now.externals }
    ensures { result ≡ shown_symbol sets.now owner position }
{
    if owner < LOCKED_PACKAGES {
        position
    } else {
        sets.external_at(position).second
    }
}

/// Whether `owner` finds another symbol by the name of one that is external in `used`. Looks at the external symbols
/// alone.
pub(crate) fn finds_other_than_shown(sets: &PackageSets, owner: &[u8], used: &[u8]) -> bool
    requires owner { IsPackage (numbered_of sets.now).0 owner.now }
    requires used { IsPackage (numbered_of sets.now).0 used.now }
    requires sound { AreSoundPackages (numbered_of sets.now).0 }
    requires placed { HasFixedNumbers sets.now }
    ensures { result ≡ finds_other_than_shown (numbered_of sets.now).0 owner.now used.now }
{
    sets.goodness();
    let Some(owner) = sets.find_package(owner) else {
        unreachable!()
    };
    let Some(used) = sets.find_package(used) else {
        unreachable!()
    };
    for position in shown_positions(sets, used) {
        if finds_another(sets, owner, shown_symbol(sets, used, *position)) {
            return true;
        }
    }
    false
}
