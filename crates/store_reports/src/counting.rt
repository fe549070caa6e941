//! How many properties of a world are shown.
//! Where memory runs out, a part of what is to be added may be there.
ghost use Rattle.std.specs.List.{count_by, sum_by};
ghost use Rattle.std.specs.Prelude.{◌≡◌, ◌+◌, ◌++◌, IfErr, IfOk, MatchResult, OnOk, min};
ghost use Rattle.package_table.specs.Readers.{names_of, own_names};
ghost use Rattle.plist_state.specs.Readers.{borrowed_symbols};
ghost use Rattle.store_reports.specs.PropertyCounts.{count_text, shown_properties, shown_symbols, taken_properties, IsCountText, IsNoCount, printed_properties, printed_symbols, sum_at_home};
ghost use Rattle.store_reports.specs.Figures.{told_number};
ghost use Rattle.store_reports.specs.ShownProperties.{is_wanted_name};
ghost use Rattle.store_reports.specs.declared.showing.ShowError.TheVariants as showing;

use crate::homes::AskedSymbol;
use crate::json::push_number_member;
use crate::numbers::{Notation, push_number};
use crate::selection::Selection;
use crate::showing::{ShowError, has_wanted, symbol_text};
use plist_state::{PropertyList, World};
use std::alloc::{AllocError, Global};

// How many properties are shown, and of how many symbols, as far as a number of 64 bits tells it.
#[derive(Clone, Copy)]
struct Tally {
    properties: u64,
    symbols: u64,
}

impl Tally {
    // Of this and of another one.
    fn and(self, other: Tally) -> Tally
        ensures properties { result.properties ≡ told_number (self.properties + other.properties) }
        ensures symbols { result.symbols ≡ told_number (self.symbols + other.symbols) }
    {
        Tally {
            properties: self.properties.saturating_add(other.properties),
            symbols: self.symbols.saturating_add(other.symbols),
        }
    }
}

/// How many properties of a world are asked for, and of how many symbols: of those with such a property, or of the symbol that is
/// asked for.
///
/// # Errors
///
/// As those of `show`, where it would show nothing.
pub fn count(
    alloc: Global,
    world: &World,
    selection: &Selection<'_>,
    notation: Notation,
) -> Result<Vec<u8>, ShowError>
    ensures counted { IfOk result (λ text. IsCountText selection.now world.now.0 notation text.items) }
    ensures refused { IfErr result (IsNoCount selection.now world.now.0) }
{
    if !has_wanted(world, selection) {
        return Err(ShowError::NoPackage);
    }
    let tally = tally_of(alloc, world, selection)?;
    if tally.symbols > 0 {
        return told(alloc, notation, tally);
    }
    if selection.symbol.is_some() {
        return Err(ShowError::NoSymbol);
    }
    if selection.indicator.is_some() {
        return Err(ShowError::NoIndicator);
    }
    told(alloc, notation, tally)
}

// Of the symbol that is asked for, or of all properties that are.
fn tally_of(alloc: Global, world: &World, selection: &Selection<'_>) -> Result<Tally, AllocError>
    ensures properties { IfOk result (λ tally.
        tally.properties ≡ told_number (shown_properties selection.now world.now.0)) }
    ensures symbols { IfOk result (λ tally.
        tally.symbols ≡ told_number (shown_symbols selection.now world.now.0)) }
{
    match selection.symbol {
        Some(symbol) => {
            let homes = world.packages().package_names(alloc)?;
            tally_homes(
                alloc,
                world,
                &AskedSymbol { selection, symbol },
                homes.as_slice(),
            )
        }
        None => {
            let owners = world.owners(alloc)?;
            Ok(tally_owners(world, selection, owners.as_slice()))
        }
    }
}

// Of these symbols, as far as they have properties that are asked for.
fn tally_owners(world: &World, selection: &Selection<'_>, owners: &[(&[u8], &[u8])]) -> Tally
    ensures properties { result.properties
        ≡ told_number (sum_by (taken_properties selection.now world.now.0) (borrowed_symbols owners.now)) }
    ensures symbols { result.symbols
        ≡ told_number (sum_by (λ x. min (taken_properties selection.now world.now.0 x) 1) (borrowed_symbols owners.now)) }
{
    let mut tally = Tally {
        properties: 0,
        symbols: 0,
    };
    for owner in owners {
        let (home, name) = *owner;
        let properties = taken_properties(world, selection, home, name);
        let symbols = properties.min(1);
        tally = tally.and(Tally {
            properties,
            symbols,
        });
    }
    tally
}

// How many properties of a symbol are asked for.
#[tactic(auto, unfolding(crate::specs::PropertyCounts::taken_properties))]
fn taken_properties(world: &World, selection: &Selection<'_>, home: &[u8], name: &[u8]) -> u64
    ensures { result ≡ taken_properties selection.now world.now.0 (home.now, name.now) }
{
    if selection.takes_symbol(home, name) {
        taken_of(selection, &world.plist_of(home, name))
    } else {
        0
    }
}

// How many of these properties are.
fn taken_of(selection: &Selection<'_>, properties: &PropertyList<'_>) -> u64
    ensures { result ≡ count_by (λ p. is_wanted_name selection.now.indicator p.0.1) properties.now }
{
    let mut count = 0;
    for index in 0..properties.len() {
        if selection.takes_indicator(properties.at(index).name) {
            count += 1;
        }
    }
    count
}

// Of the symbol that is asked for, where it is at home in one of these packages.
fn tally_homes(
    alloc: Global,
    world: &World,
    asked: &AskedSymbol<'_>,
    homes: &[&[u8]],
) -> Result<Tally, AllocError>
    ensures properties { IfOk result (λ tally. tally.properties ≡ told_number (sum_by
        (sum_at_home world.now.0 (printed_properties asked.now.selection.now world.now.0 asked.now.symbol.now))
        (names_of homes.now))) }
    ensures symbols { IfOk result (λ tally. tally.symbols ≡ told_number (sum_by
        (sum_at_home world.now.0 (printed_symbols asked.now.selection.now world.now.0 asked.now.symbol.now))
        (names_of homes.now))) }
{
    let mut tally = Tally {
        properties: 0,
        symbols: 0,
    };
    for home in homes {
        let here = tally_home(alloc, world, asked, home)?;
        tally = tally.and(here);
    }
    Ok(tally)
}

// The same in this package.
#[tactic(auto, unfolding(crate::specs::PropertyCounts::sum_at_home))]
fn tally_home(
    alloc: Global,
    world: &World,
    asked: &AskedSymbol<'_>,
    home: &[u8],
) -> Result<Tally, AllocError>
    ensures properties { IfOk result (λ tally. tally.properties ≡ told_number
        (sum_at_home world.now.0 (printed_properties asked.now.selection.now world.now.0 asked.now.symbol.now) home.now)) }
    ensures symbols { IfOk result (λ tally. tally.symbols ≡ told_number
        (sum_at_home world.now.0 (printed_symbols asked.now.selection.now world.now.0 asked.now.symbol.now) home.now)) }
{
    let Ok(names) = world.packages().own_names(alloc, home) else {
        return Err(AllocError);
    };
    tally_named(alloc, world, asked, home, names.as_slice())
}

// The same among these names of it.
fn tally_named(
    alloc: Global,
    world: &World,
    asked: &AskedSymbol<'_>,
    home: &[u8],
    names: &[&[u8]],
) -> Result<Tally, AllocError>
    ensures properties { IfOk result (λ tally. tally.properties ≡ told_number (sum_by (λ name.
        printed_properties asked.now.selection.now world.now.0 asked.now.symbol.now (home.now, name)) (names_of names.now))) }
    ensures symbols { IfOk result (λ tally. tally.symbols ≡ told_number (sum_by (λ name.
        printed_symbols asked.now.selection.now world.now.0 asked.now.symbol.now (home.now, name)) (names_of names.now))) }
{
    let mut tally = Tally {
        properties: 0,
        symbols: 0,
    };
    for name in names {
        let here = tally_symbol(alloc, world, asked, home, name)?;
        tally = tally.and(here);
    }
    Ok(tally)
}

// Of the symbol of this home and this name, if it is the one that is asked for.
#[tactic(auto, unfolding(crate::specs::PropertyCounts::printed_properties, crate::specs::PropertyCounts::printed_symbols, crate::specs::PropertyCounts::is_printed_so))]
fn tally_symbol(
    alloc: Global,
    world: &World,
    asked: &AskedSymbol<'_>,
    home: &[u8],
    name: &[u8],
) -> Result<Tally, AllocError>
    ensures properties { IfOk result (λ tally. tally.properties
        ≡ printed_properties asked.now.selection.now world.now.0 asked.now.symbol.now (home.now, name.now)) }
    ensures symbols { IfOk result (λ tally. tally.symbols
        ≡ printed_symbols asked.now.selection.now world.now.0 asked.now.symbol.now (home.now, name.now)) }
{
    if asked.selection.takes_symbol(home, name) {
        let text = symbol_text(alloc, world.packages(), home, name)?;
        if asked.is_for(text.as_slice(), name) {
            let properties = taken_properties(world, asked.selection, home, name);
            return Ok(Tally {
                properties,
                symbols: 1,
            });
        }
    }
    Ok(Tally {
        properties: 0,
        symbols: 0,
    })
}

// The two numbers, as a line or as an object.
fn told(alloc: Global, notation: Notation, tally: Tally) -> Result<Vec<u8>, ShowError>
    ensures { MatchResult result (λ text. text.items ≡ count_text notation tally.properties tally.symbols)
        (λ error. error ≡ showing.OutOfMemory) }
{
    let mut text = Vec::new(alloc);
    match notation {
        Notation::Lines => push_line(alloc, &mut text, tally)?,
        Notation::Json => push_object(alloc, &mut text, tally)?,
    }
    Ok(text)
}

fn push_line(alloc: Global, text: &mut Vec<u8>, tally: Tally) -> Result<(), AllocError>
    ensures { OnOk result (text.new.items
        ≡ text.old.items ++ count_text Notation.Lines tally.properties tally.symbols) }
{
    text.extend_from_slice(b"properties ")?;
    push_number(alloc, text, tally.properties)?;
    text.extend_from_slice(b" symbols ")?;
    push_number(alloc, text, tally.symbols)?;
    text.push(b'\n')?;
    Ok(())
}

fn push_object(alloc: Global, text: &mut Vec<u8>, tally: Tally) -> Result<(), AllocError>
    ensures { OnOk result (text.new.items
        ≡ text.old.items ++ count_text Notation.Json tally.properties tally.symbols) }
{
    text.push(b'{')?;
    push_number_member(alloc, text, b"properties", tally.properties)?;
    text.push(b',')?;
    push_number_member(alloc, text, b"symbols", tally.symbols)?;
    text.extend_from_slice(b"}\n")?;
    Ok(())
}
