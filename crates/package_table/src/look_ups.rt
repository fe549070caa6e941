//! Look-ups, by numbers and by names. They take no memory.
ghost use Rattle.std.specs.Prelude.{◌≡◌, ◌<◌, ◌↔◌, ◌&&◌, IfSome, nat_lt, length, position, if◌then◌else◌, is_some, option_map, Some, None};
ghost use Rattle.std.specs.FinMap as finite;
ghost use Rattle.package_sets.specs.KeptSets.{name_at, pair_at, pair_eq, positions_of};
ghost use Rattle.package_table.specs.Table.{AreUsesSound, Name};
ghost use Rattle.package_table.specs.Lookup.{external_home, home_by_name, is_present, is_symbol, is_used};
ghost use Rattle.package_table.specs.Changes.{is_full_of_packages};
ghost use Rattle.package_table.specs.Numbers.{names_of_symbol, number_of, IsFoundNumber};
ghost use Rattle.package_table.specs.Meaning.{first_shown, found_number, home_in, is_shown_in, number_in, numbered_of, shown_number, symbol_name};

use crate::limits::{LOCKED_PACKAGES, MAX_PACKAGES};
use package_sets::{Inherited, PackageSets};

// So many used packages are looked at one after the other.
const FEW_USES: usize = 4;

/// The number of the symbol that a package has by a name: the one at home in it, and else the one that it imports.
#[inline(always)]
pub(crate) fn number_in(sets: &PackageSets, owner: u32, name: u32) -> Option<u32>
    ensures { result ≡ number_in sets.now owner name }
{
    match sets.find_symbol(owner, name) {
        Some(number) => Some(number),
        None => sets.find_import(owner, name),
    }
}

/// Whether a symbol that is present in a package is external there.
pub(crate) fn is_shown_in(sets: &PackageSets, owner: u32, symbol: u32) -> bool
    ensures { result ≡ is_shown_in sets.now owner symbol }
{
    owner < LOCKED_PACKAGES || sets.is_external(owner, symbol)
}

/// The number of the symbol that is external in a package by a name.
pub(crate) fn shown_number(sets: &PackageSets, owner: u32, name: u32) -> Option<u32>
    ensures { result ≡ shown_number sets.now owner name }
{
    let number = number_in(sets, owner, name)?;
    if is_shown_in(sets, owner, number) {
        Some(number)
    } else {
        None
    }
}

// The number of the symbol that one of the used packages has external by a name.
fn inherited_number(sets: &PackageSets, owner: u32, name: u32) -> Option<u32>
    ensures { result ≡ first_shown sets.now name (positions_of owner sets.now.uses) }
{
    for position in sets.uses_of(owner) {
        let used = sets.use_at(*position).second;
        let number = shown_number(sets, used, name);
        if number.is_some() {
            return number;
        }
    }
    None
}

// Whether a package uses another in which a symbol is present by a name.
fn has_used(sets: &PackageSets, owner: u32, used: u32, name: u32) -> bool
    ensures { result ≡ (is_some (position (pair_eq (owner, used)) sets.now.uses)
        && is_some (number_in sets.now used name)) }
{
    sets.is_used(owner, used) && number_in(sets, used, name).is_some()
}

// The same number, looked for where a symbol of this name is external: in few packages, however many are used.
fn inherited_by_name(sets: &PackageSets, owner: u32, name: u32) -> Option<u32>
    requires owner { owner < length sets.now.packages }
    requires name { name < length sets.now.names }
    requires joined { AreUsesSound (numbered_of sets.now).0 }
    ensures { result ≡ first_shown sets.now name (positions_of owner sets.now.uses) }
{
    sets.goodness();
    match sets.find_inherited(owner, name) {
        Inherited::External(place) => {
            let used = sets.external_at(place).first;
            if let Some(number) = shown_number(sets, used, name) {
                return Some(number);
            }
        }
        Inherited::Nothing => {
            // what COMMON-LISP and KEYWORD have external is not among it
            if !has_used(sets, owner, 0, name) && !has_used(sets, owner, 1, name) {
                return None;
            }
        }
        Inherited::Unknown => {}
    }
    inherited_number(sets, owner, name)
}

/// The number of the symbol that a package finds by a name.
#[inline(always)]
pub(crate) fn found_number(sets: &PackageSets, owner: u32, name: u32) -> Option<u32>
    requires owner { owner < length sets.now.packages }
    requires name { name < length sets.now.names }
    requires joined { AreUsesSound (numbered_of sets.now).0 }
    ensures { result ≡ found_number sets.now owner name }
{
    let number = number_in(sets, owner, name);
    if number.is_some() {
        return number;
    }
    if sets.uses_of(owner).len() <= FEW_USES {
        return inherited_number(sets, owner, name);
    }
    inherited_by_name(sets, owner, name)
}

/// The name of a symbol.
pub(crate) fn symbol_name(sets: &PackageSets, symbol: u32) -> &[u8]
    requires { symbol < length sets.now.symbols }
    ensures { result.now ≡ symbol_name sets.now symbol }
{
    sets.goodness();
    sets.name(sets.symbol(symbol).second)
}

/// The name of a symbol's home.
pub(crate) fn home_name(sets: &PackageSets, symbol: u32) -> &[u8]
    requires { symbol < length sets.now.symbols }
    ensures { result.now ≡ home_in sets.now symbol }
{
    sets.goodness();
    sets.package(sets.symbol(symbol).first)
}

/// The name of the package of this name, if there is one, as it is kept.
pub(crate) fn stored_name<'a>(sets: &'a PackageSets, owner: &[u8]) -> Option<&'a [u8]>
    ensures { option_map (λ p. p.now) result
        ≡ (if finite.contains_key (numbered_of sets.now).0 owner.now then Some owner.now
        else None) }
{
    sets.goodness();
    match sets.find_package(owner) {
        Some(number) => Some(sets.package(number)),
        None => None,
    }
}

/// The number of the package of this name.
pub(crate) fn package_number(sets: &PackageSets, owner: &[u8]) -> Option<u32>
    ensures there { is_some result ≡ finite.contains_key (numbered_of sets.now).0 owner.now }
    ensures named { IfSome result (λ p.
        (p < length sets.now.packages) × (name_at sets.now.packages p ≡ owner.now)) }
{
    sets.goodness();
    sets.find_package(owner)
}

/// Whether a package has this name.
pub(crate) fn has_package(sets: &PackageSets, owner: &[u8]) -> bool
    ensures { result ≡ finite.contains_key (numbered_of sets.now).0 owner.now }
{
    sets.goodness();
    sets.find_package(owner).is_some()
}

/// Whether there are as many packages as there may be.
pub(crate) fn is_full_of_packages(sets: &PackageSets) -> bool
    ensures { result ≡ is_full_of_packages (numbered_of sets.now).0 }
{
    sets.goodness();
    sets.package_count() as usize >= MAX_PACKAGES
}

/// Whether a symbol is present in `owner` by this name.
pub(crate) fn is_present(sets: &PackageSets, owner: &[u8], name: &[u8]) -> bool
    ensures { result ≡ is_present (numbered_of sets.now).0 owner.now name.now }
{
    sets.goodness();
    let Some(owner) = sets.find_package(owner) else {
        return false;
    };
    let Some(name) = sets.find_name(name) else {
        return false;
    };
    number_in(sets, owner, name).is_some()
}

/// The number of the symbol of this home and name, if there is one.
pub(crate) fn number_of(sets: &PackageSets, home: &[u8], name: &[u8]) -> Option<u32>
    ensures { result ≡ number_of (numbered_of sets.now) home.now name.now }
{
    sets.goodness();
    let Some(home) = sets.find_package(home) else {
        return None;
    };
    let Some(name) = sets.find_name(name) else {
        return None;
    };
    sets.find_symbol(home, name)
}

/// The home and the name of the symbol of this number.
pub(crate) fn symbol_of(sets: &PackageSets, number: u32) -> Option<(&[u8], &[u8])>
    ensures symbol { (h n : Name) → (option_map names_of_symbol result ≡ Some (h, n))
        ↔ (number_of (numbered_of sets.now) h n ≡ Some number) }
    ensures there { is_some result ≡ nat_lt number (length sets.now.symbols) }
{
    sets.goodness();
    if number >= sets.symbol_count() {
        return None;
    }
    Some((home_name(sets, number), symbol_name(sets, number)))
}

/// Whether there is a symbol of this home and name.
pub(crate) fn is_symbol(sets: &PackageSets, home: &[u8], name: &[u8]) -> bool
    ensures { result ≡ is_symbol (numbered_of sets.now).0 home.now name.now }
{
    sets.goodness();
    let Some(home) = sets.find_package(home) else {
        return false;
    };
    let Some(name) = sets.find_name(name) else {
        return false;
    };
    sets.find_symbol(home, name).is_some()
}

/// Whether `owner` uses `used`.
pub(crate) fn is_used(sets: &PackageSets, owner: &[u8], used: &[u8]) -> bool
    ensures { result ≡ is_used (numbered_of sets.now).0 owner.now used.now }
{
    sets.goodness();
    let Some(owner) = sets.find_package(owner) else {
        return false;
    };
    let Some(used) = sets.find_package(used) else {
        return false;
    };
    sets.is_used(owner, used)
}

/// The home of the symbol that is external in a package by this name.
pub(crate) fn external_home<'a>(
    sets: &'a PackageSets,
    owner: &[u8],
    name: &[u8],
) -> Option<&'a [u8]>
    ensures { option_map (λ h. h.now) result
        ≡ external_home (numbered_of sets.now).0 owner.now name.now }
{
    sets.goodness();
    let Some(owner) = sets.find_package(owner) else {
        return None;
    };
    let Some(name) = sets.find_name(name) else {
        return None;
    };
    match shown_number(sets, owner, name) {
        Some(symbol) => Some(home_name(sets, symbol)),
        None => None,
    }
}

/// The home of the symbol that the package of a number finds by this name.
pub(crate) fn found_home<'a>(sets: &'a PackageSets, owner: u32, name: &[u8]) -> Option<&'a [u8]>
    requires package { owner < length sets.now.packages }
    requires joined { AreUsesSound (numbered_of sets.now).0 }
    ensures { option_map (λ h. h.now) result
        ≡ home_by_name (numbered_of sets.now).0 (name_at sets.now.packages owner) name.now }
{
    sets.goodness();
    let Some(name) = sets.find_name(name) else {
        return None;
    };
    match found_number(sets, owner, name) {
        Some(symbol) => Some(home_name(sets, symbol)),
        None => None,
    }
}

/// The number of the symbol that the package of a name finds by this name. That None comes only where it finds none is
/// said by no clause.
#[inline(always)]
pub(crate) fn found_by_names(sets: &PackageSets, owner: &[u8], name: &[u8]) -> Option<u32>
    requires { AreUsesSound (numbered_of sets.now).0 }
    ensures { IfSome result (IsFoundNumber (numbered_of sets.now) owner.now name.now) }
{
    sets.goodness();
    let Some(owner) = sets.find_package(owner) else {
        return None;
    };
    let Some(name) = sets.find_name(name) else {
        return None;
    };
    found_number(sets, owner, name)
}

/// The home of the symbol that a package finds by this name.
pub(crate) fn home_of<'a>(sets: &'a PackageSets, owner: &[u8], name: &[u8]) -> Option<&'a [u8]>
    requires { AreUsesSound (numbered_of sets.now).0 }
    ensures { option_map (λ h. h.now) result ≡ home_by_name (numbered_of sets.now).0 owner.now name.now }
{
    match package_number(sets, owner) {
        Some(number) => found_home(sets, number, name),
        None => None,
    }
}
