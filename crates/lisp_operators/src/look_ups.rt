//! The operators that look symbols and packages up (standard 11.2). They change nothing, and make no symbol.
ghost use Rattle.std.specs.Prelude.{◌≡◌, true, if◌then◌else◌, [], ◌∷◌, ◌++◌, map, filter, is_some, All, IfOk, OnOk};
ghost use Rattle.std.specs.List.{list_all};
ghost use Rattle.lisp_object.specs.Object.{text, symbol};
ghost use Rattle.lisp_object.specs.Datum.{object_of, is_proper};
ghost use Rattle.package_table.specs.Table.{IsPackage};
ghost use Rattle.package_table.specs.Lookup.{home_by_name};
ghost use Rattle.package_table.specs.Readers.{names_of};
ghost use Rattle.plist_state.specs.Changes.{property};
ghost use Rattle.plist_state.specs.Views.{symbol_named};
ghost use Rattle.lisp_operators.specs.ArgumentKinds.{a_symbol};
ghost use Rattle.lisp_operators.specs.LookUps.{look_up_named, least_of_look_up, most_of_look_up, looked_up, symbol_or_nil, find_symbol, list_all_packages, names_with, symbols_with};
ghost use Rattle.lisp_operators.specs.EvaluationAnswers.{IsOfKind, IsProper, IsAscii, IsProperValue, AreArgumentsOf, CarriesOut, objects};

use crate::EvaluationError::Refused;
use crate::arguments::{name_or, one_and_rest};
use crate::packages::package_named;
use crate::{Evaluated, EvaluationError, kinds, values};
use lisp_object::Datum;
use lisp_object::refusal::ARGUMENT_KIND;
use package_table::Resolved;
use plist_state::{BorrowedSymbol, World};
use std::alloc::{AllocError, Global};

/// An operator that looks symbols and packages up.
#[derive(Clone, Copy, Debug, PartialEq, Eq)]
pub enum LookUp {
    FindSymbol,
    ListAllPackages,
    SymbolsWith,
}

impl LookUp {
    /// The operator of this name.
    pub fn named(name: &[u8]) -> Option<LookUp>
        ensures { result ≡ look_up_named name.now }
    {
        if name == b"FIND-SYMBOL".as_slice() {
            Some(LookUp::FindSymbol)
        } else if name == b"LIST-ALL-PACKAGES".as_slice() {
            Some(LookUp::ListAllPackages)
        } else if name == b"SYMBOLS-WITH".as_slice() {
            Some(LookUp::SymbolsWith)
        } else {
            None
        }
    }

    /// How many arguments it takes at least.
    pub fn least(self) -> usize
        ensures { result ≡ least_of_look_up self }
    {
        match self {
            LookUp::FindSymbol | LookUp::SymbolsWith => 1,
            LookUp::ListAllPackages => 0,
        }
    }

    /// How many it takes at most.
    pub fn most(self) -> usize
        ensures { result ≡ most_of_look_up self }
    {
        match self {
            LookUp::FindSymbol | LookUp::SymbolsWith => 2,
            LookUp::ListAllPackages => 0,
        }
    }
}

/// What an operator that looks up gives. It changes nothing. Each refusal is told by the function of the operator.
pub fn look_up(
    alloc: Global,
    world: &World,
    operator: LookUp,
    values: &[Datum],
) -> Result<Evaluated, EvaluationError>
    requires { AreArgumentsOf world.now values.now }
    ensures gives { CarriesOut (looked_up operator) values.now world.now.0 world.now.0 result }
    ensures proper { IfOk result IsProperValue }
{
    match operator {
        LookUp::FindSymbol => find_symbol(alloc, world, values),
        LookUp::ListAllPackages => list_all_packages(alloc, world, values),
        LookUp::SymbolsWith => symbols_with(alloc, world, values),
    }
}

// The symbol that a package finds by this name, or NIL.
fn found(alloc: Global, world: &World, owner: &[u8], name: &[u8]) -> Result<Datum, AllocError>
    requires owner { IsPackage world.now.0.packages owner.now }
    requires name { IsAscii name.now }
    ensures value { IfOk result (λ d. object_of d
        ≡ symbol_or_nil name.now (home_by_name world.now.0.packages owner.now name.now)) }
    ensures proper { IfOk result IsProper }
{
    world.soundness();
    match world.packages().resolve(owner, name) {
        Ok(resolved) => match resolved {
            Resolved::Found(home) => values::symbol(alloc, home, name),
            Resolved::New(_) => values::empty_list(alloc),
        },
        Err(_) => values::empty_list(alloc),
    }
}

// FIND-SYMBOL: the symbol that a package finds by a name, or NIL.
fn find_symbol(alloc: Global, world: &World, values: &[Datum]) -> Result<Evaluated, EvaluationError>
    requires { AreArgumentsOf world.now values.now }
    ensures gives { CarriesOut find_symbol values.now world.now.0 world.now.0 result }
    ensures proper { IfOk result IsProperValue }
{
    let (name, rest) = one_and_rest(values)?;
    let name = kinds::text(name)?;
    let package = package_named(world, name_or(rest, world.current_package())?)?;
    Ok(Evaluated {
        value: found(alloc, world, package, name)?,
        wrote: false,
    })
}

// The texts of these characters.
fn texts(alloc: Global, names: &[&[u8]]) -> Result<Vec<Datum>, AllocError>
    requires { All IsAscii (names_of names.now) }
    ensures value { IfOk result (λ v. objects v.items ≡ map text (names_of names.now)) }
    ensures proper { IfOk result (λ v. list_all is_proper v.items ≡ true) }
{
    let mut texts = Vec::with_capacity(alloc, names.len())?;
    for name in names {
        texts.push(values::text(alloc, name)?)?;
    }
    Ok(texts)
}

// LIST-ALL-PACKAGES: the names of the packages as texts, in the order of their bytes.
fn list_all_packages(
    alloc: Global,
    world: &World,
    values: &[Datum],
) -> Result<Evaluated, EvaluationError>
    requires { AreArgumentsOf world.now values.now }
    ensures gives { CarriesOut list_all_packages values.now world.now.0 world.now.0 result }
    ensures proper { IfOk result IsProperValue }
{
    if !values.is_empty() {
        return Err(Refused(ARGUMENT_KIND));
    }
    world.soundness();
    let names = world.packages().package_names(alloc)?;
    values::list(alloc, texts(alloc, names.as_slice())?)
}

// The indicator that an argument is.
fn indicator(datum: &Datum) -> Result<BorrowedSymbol<'_>, EvaluationError>
    requires { IsProper datum.now }
    ensures { IsOfKind symbol_named result (a_symbol (object_of datum.now)) }
{
    let (home, name) = kinds::symbol(datum)?;
    Ok(BorrowedSymbol { home, name })
}

// Adds the symbol of this home and name, if it has a property of this indicator.
fn push_owner(
    alloc: Global,
    world: &World,
    home: &[u8],
    name: &[u8],
    indicator: BorrowedSymbol<'_>,
    owners: &mut Vec<Datum>,
) -> Result<(), AllocError>
    requires { list_all is_proper owners.old.items ≡ true }
    ensures value { OnOk result (objects owners.new.items
        ≡ (if is_some (property world.now.0 (home.now, name.now) (symbol_named indicator.entry))
        then objects owners.old.items ++ symbol home.now name.now ∷ []
        else objects owners.old.items)) }
    ensures proper { OnOk result (list_all is_proper owners.new.items ≡ true) }
{
    world.soundness();
    let symbol = BorrowedSymbol { home, name };
    if world.get_at(symbol, indicator).is_some() {
        owners.push(values::symbol(alloc, home, name)?)?;
    }
    Ok(())
}

// The symbols of this home and these names that have a property of this indicator.
fn owners_among(
    alloc: Global,
    world: &World,
    home: &[u8],
    names: &[&[u8]],
    indicator: BorrowedSymbol<'_>,
) -> Result<Vec<Datum>, AllocError>
    ensures value { IfOk result (λ v. objects v.items ≡ map (symbol home.now)
        (filter (λ n. is_some (property world.now.0 (home.now, n) (symbol_named indicator.entry))) (names_of names.now))) }
    ensures proper { IfOk result (λ v. list_all is_proper v.items ≡ true) }
{
    let mut owners = Vec::new(alloc);
    for name in names {
        push_owner(alloc, world, home, name, indicator, &mut owners)?;
    }
    Ok(owners)
}

// The symbols at home in a package that have a property of this indicator, in the order of their names.
fn owners(
    alloc: Global,
    world: &World,
    home: &[u8],
    indicator: BorrowedSymbol<'_>,
) -> Result<Vec<Datum>, AllocError>
    requires { IsPackage world.now.0.packages home.now }
    ensures value { IfOk result (λ v. objects v.items
        ≡ map (symbol home.now) (names_with world.now.0 (symbol_named indicator.entry) home.now)) }
    ensures proper { IfOk result (λ v. list_all is_proper v.items ≡ true) }
{
    let Ok(names) = world.packages().own_names(alloc, home) else {
        return Err(AllocError);
    };
    owners_among(alloc, world, home, names.as_slice(), indicator)
}

// SYMBOLS-WITH: the symbols at home in a package that have a property of an indicator, in the order of their names. It looks at
// each symbol of the package once.
fn symbols_with(
    alloc: Global,
    world: &World,
    values: &[Datum],
) -> Result<Evaluated, EvaluationError>
    requires { AreArgumentsOf world.now values.now }
    ensures gives { CarriesOut symbols_with values.now world.now.0 world.now.0 result }
    ensures proper { IfOk result IsProperValue }
{
    let (given, rest) = one_and_rest(values)?;
    let indicator = indicator(given)?;
    let package = package_named(world, name_or(rest, world.current_package())?)?;
    values::list(alloc, owners(alloc, world, package, indicator)?)
}
