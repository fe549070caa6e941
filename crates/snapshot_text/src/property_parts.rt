//! The property lists of a world, made from the rows of the second object of a snapshot.
//! After an error the world may have a part of it: it is new, and is let go then.
ghost use Rattle.std.specs.Prelude.{◌≡◌, ◌∷◌, [], true, map};
ghost use Rattle.std.specs.List.{list_all, flat_map};
ghost use Rattle.lisp_object.specs.Datum.{object_of, is_proper};
ghost use Rattle.plist_state.specs.Properties as properties;
ghost use Rattle.plist_state.specs.Properties.{Plist, with_list};
ghost use Rattle.plist_state.specs.Changes.{plist, with_property};
ghost use Rattle.plist_state.specs.Views.{symbol_of};
ghost use Rattle.plist_state.specs.Sound.{IsSymbol, IsValue, IsPlist};
ghost use Rattle.world_text.specs.Snapshot.{symbol_object, plist_object};
ghost use Rattle.snapshot_text.specs.BuiltWorlds.{with_properties, with_each};
ghost use Rattle.snapshot_lines.specs.PartAnswers.{IsOfMade, OrNoMemory};

use crate::known::{is_there, is_value};
use crate::parts::items_in;
use lisp_object::Datum;
use plist_state::{Symbol, World};
use snapshot_lines::BuildError;
use std::alloc::Global;

// An interned symbol.
fn symbol_in(alloc: Global, datum: &Datum) -> Result<Symbol, BuildError>
    ensures { is_proper datum.now ≡ true → (x : properties.Symbol)
        → object_of datum.now ≡ symbol_object x → IsOfMade result (λ symbol. symbol_of symbol ≡ x) }
{
    match datum {
        Datum::Symbol { package, name } => {
            Ok(Symbol::from_bytes(alloc, package.as_slice(), name.as_slice())?)
        }
        _ => Err(BuildError::Damaged),
    }
}

// Sets a property of a symbol, where both symbols are there and the value may be stored.
fn put_one(
    alloc: Global,
    world: &mut World,
    symbol: &Symbol,
    indicator: &Datum,
    value: &Datum,
) -> Result<(), BuildError>
    ensures { is_proper indicator.now ≡ true → is_proper value.now ≡ true → (i : properties.Symbol)
        → object_of indicator.now ≡ symbol_object i
        → IsSymbol world.old.0.packages (symbol_of symbol.now) → IsSymbol world.old.0.packages i
        → IsValue world.old.0.packages (object_of value.now)
        → OrNoMemory (world.new.0 ≡ with_property world.old.0 (symbol_of symbol.now) i
        (object_of value.now)) result }
{
    let indicator = symbol_in(alloc, indicator)?;
    let value = value.copy(alloc)?;
    let packages = world.packages();
    if !is_there(packages, symbol)
        || !is_there(packages, &indicator)
        || !is_value(packages, &value)
    {
        return Err(BuildError::Damaged);
    }
    world.put(symbol, indicator, value)?;
    Ok(())
}

// Sets properties of a symbol: its indicators and values in turn.
fn put_each(
    alloc: Global,
    world: &mut World,
    symbol: &Symbol,
    properties: &[Datum],
) -> Result<(), BuildError>
    ensures { list_all is_proper properties.now ≡ true → (ps : Plist)
        → map object_of properties.now ≡ flat_map (λ p. symbol_object p.0 ∷ p.1 ∷ []) ps
        → IsSymbol world.old.0.packages (symbol_of symbol.now) → IsPlist world.old.0.packages ps
        → OrNoMemory (world.new.0 ≡ with_each world.old.0 (symbol_of symbol.now) ps) result }
{
    let mut rest = properties;
    while let [indicator, value, later @ ..] = rest {
        put_one(alloc, world, symbol, indicator, value)?;
        rest = later;
    }
    if !rest.is_empty() {
        return Err(BuildError::Damaged);
    }
    Ok(())
}

/// Sets the properties of a symbol that has none: its row is the symbol, and its indicators and values in turn.
/// `Damaged` where it is no such row; who calls it throws the world away then.
pub(crate) fn put_row(alloc: Global, world: &mut World, row: &Datum) -> Result<(), BuildError>
    ensures { is_proper row.now ≡ true → (x : properties.Symbol) (ps : Plist)
        → object_of row.now ≡ plist_object x ps → IsSymbol world.old.0.packages x
        → IsPlist world.old.0.packages ps → plist world.old.0 x ≡ []
        → OrNoMemory (world.new.0 ≡ with_properties world.old.0
        (with_list world.old.0.properties x ps)) result }
{
    let [symbol, properties @ ..] = items_in(row)? else {
        return Err(BuildError::Damaged);
    };
    let symbol = symbol_in(alloc, symbol)?;
    put_each(alloc, world, &symbol, properties)
}
