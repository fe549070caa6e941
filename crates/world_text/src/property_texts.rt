//! The property lists of a snapshot: each as data, and all as text.
//! After an error, want of memory alone, a part may be added.
ghost use Rattle.std.specs.Prelude.{◌≡◌, ◌++◌, ◌&&◌, true, IfOk, OnOk};
ghost use Rattle.std.specs.List.{list_all, flat_map};
ghost use Rattle.lisp_object.specs.Datum.{object_of, is_proper};
ghost use Rattle.lisp_object.specs.Ascii.{is_ascii};
ghost use Rattle.world_text.specs.Snapshot.{symbol_object, plist_object, properties_object};
ghost use Rattle.world_text.specs.ObjectTexts.{later_text, object_text, row_of};

use crate::printing::push_printed;
use lisp_object::{Bytes, Datum};
use plist_state::{PropertyList, World};
use std::alloc::{AllocError, Global};

// The symbol of this home and name as a datum.
fn symbol_datum(alloc: Global, home: &[u8], name: &[u8]) -> Result<Datum, AllocError>
    ensures { IfOk result (λ d. d ≡ Datum.Symbol home.now name.now) }
{
    let package = Bytes::from_slice(alloc, home)?;
    let name = Bytes::from_slice(alloc, name)?;
    Ok(Datum::Symbol { package, name })
}

// A symbol, and its indicators and values in turn.
fn plist_datum(
    alloc: Global,
    home: &[u8],
    name: &[u8],
    properties: &PropertyList<'_>,
) -> Result<Datum, AllocError>
    ensures object { IfOk result
        (λ d. object_of d ≡ plist_object (home.now, name.now) properties.now) }
    ensures proper { list_all is_ascii home.now && list_all is_ascii name.now ≡ true
        → list_all (λ p. list_all is_ascii p.0.0 && list_all is_ascii p.0.1) properties.now ≡ true
        → IfOk result (λ d. is_proper d ≡ true) }
{
    let mut items = Vec::new(alloc);
    items.push(symbol_datum(alloc, home, name)?)?;
    for index in 0..properties.len() {
        let property = properties.at(index);
        items.push(symbol_datum(alloc, property.home, property.name)?)?;
        items.push(property.value.copy(alloc)?)?;
    }
    Datum::list(alloc, items, None)
}

// A symbol and its property list.
fn row_of(alloc: Global, world: &World, home: &[u8], name: &[u8]) -> Result<Datum, AllocError>
    ensures object { IfOk result (λ d. object_of d ≡ row_of world.now.0 (home.now, name.now)) }
    ensures proper { list_all is_ascii home.now && list_all is_ascii name.now ≡ true
        → IfOk result (λ d. is_proper d ≡ true) }
{
    world.soundness();
    plist_datum(alloc, home, name, &world.plist_of(home, name))
}

// Adds the printed row of a symbol.
fn push_row(
    alloc: Global,
    text: &mut Vec<u8>,
    world: &World,
    symbol: &(&[u8], &[u8]),
) -> Result<(), AllocError>
    requires { list_all is_ascii symbol.now.0.now && list_all is_ascii symbol.now.1.now ≡ true }
    ensures { OnOk result (text.new.items
        ≡ text.old.items ++ object_text world.now.0.packages
        (row_of world.now.0 (symbol.now.0.now, symbol.now.1.now))) }
{
    let (home, name) = symbol;
    let row = row_of(alloc, world, home, name)?;
    push_printed(alloc, text, row, world.packages())
}

// Adds the printed rows of these symbols, each after a space.
fn push_others(
    alloc: Global,
    text: &mut Vec<u8>,
    world: &World,
    symbols: &[(&[u8], &[u8])],
) -> Result<(), AllocError>
    requires { list_all (λ s. list_all is_ascii s.0.now && list_all is_ascii s.1.now) symbols.now
        ≡ true }
    ensures { OnOk result (text.new.items
        ≡ text.old.items ++ flat_map (λ s. later_text world.now.0.packages
        (row_of world.now.0 (s.0.now, s.1.now))) symbols.now) }
{
    for symbol in symbols {
        text.push(b' ')?;
        push_row(alloc, text, world, symbol)?;
    }
    Ok(())
}

/// Adds the printed list of the rows of all symbols that have properties. One row is in memory at a time.
pub(crate) fn push_properties(
    alloc: Global,
    text: &mut Vec<u8>,
    world: &World,
) -> Result<(), AllocError>
    ensures { OnOk result (text.new.items
        ≡ text.old.items ++ object_text world.now.0.packages (properties_object world.now.0)) }
{
    world.soundness();
    let symbols = world.owners(alloc)?;
    let [first, others @ ..] = symbols.as_slice() else {
        return push_printed(alloc, text, Datum::nil(alloc)?, world.packages());
    };
    text.push(b'(')?;
    push_row(alloc, text, world, first)?;
    push_others(alloc, text, world, others)?;
    text.push(b')')?;
    Ok(())
}
