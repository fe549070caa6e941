//! The operators that change a place which GET names, with a default or without (standard 12.2, 14.2).
ghost use Rattle.std.specs.Prelude.{◌≡◌, ◌<◌, true, length, unwrap_or, All, IfErr, IfOk};
ghost use Rattle.std.specs.List.{list_all};
ghost use Rattle.std.specs.Option.{option_map_or};
ghost use Rattle.lisp_object.specs.Object.{pair, pairs, nil};
ghost use Rattle.lisp_object.specs.Datum.{object_of, is_proper};
ghost use Rattle.package_table.specs.Table.{Table, AreSoundPackages};
ghost use Rattle.plist_state.specs.Changes.{property};
ghost use Rattle.plist_state.specs.Views.{symbol_of};
ghost use Rattle.lisp_operators.specs.ArgumentKinds.{an_integer};
ghost use Rattle.lisp_operators.specs.PropertyPlaces.{change_named, most_of_change, with_default, place_changed, if_stepped, take_step, parted, pop, Pops, IsParted};
ghost use Rattle.lisp_operators.specs.declared.error.EvaluationError.TheVariants.{OutOfMemory};
ghost use Rattle.lisp_operators.specs.EvaluationAnswers.{IsArgument, IsOfKind, IsProper, IsProperValue, AreArgumentsOf, CarriesOut, objects};
ghost use Rattle.plist_state.specs.Sound.{IsSymbol};

use crate::EvaluationError::Refused;
use crate::owned_arguments::{three, three_and_rest};
use crate::properties::{amount, property_key};
use crate::{Evaluated, EvaluationError, kinds, values};
use lisp_object::Datum;
use lisp_object::refusal::{ARGUMENT_KIND, INTEGER_RANGE};
use plist_state::{Symbol, World};
use std::alloc::{AllocError, Global};

/// What INCF and DECF make of the integer that a place has.
#[derive(Clone, Copy, Debug, PartialEq, Eq)]
pub enum Direction {
    /// INCF: an amount more.
    Increment,
    /// DECF: an amount less.
    Decrement,
}

/// An operator that changes a place which GET names.
#[derive(Clone, Copy, Debug, PartialEq, Eq)]
pub enum PlaceChange {
    /// INCF and DECF.
    Stepped(Direction),
    /// POP.
    Popped,
}

impl PlaceChange {
    /// The operator of this name.
    pub fn named(name: &[u8]) -> Option<PlaceChange>
        ensures { result ≡ change_named name.now }
    {
        if name == b"INCF".as_slice() {
            Some(PlaceChange::Stepped(Direction::Increment))
        } else if name == b"DECF".as_slice() {
            Some(PlaceChange::Stepped(Direction::Decrement))
        } else if name == b"POP".as_slice() {
            Some(PlaceChange::Popped)
        } else {
            None
        }
    }

    /// How many arguments it takes at most, the place among them.
    pub fn most(self) -> usize
        ensures { result ≡ most_of_change self }
    {
        match self {
            PlaceChange::Stepped(_) => 2,
            PlaceChange::Popped => 1,
        }
    }
}

// The values of the subforms of a place and of the forms after it, with NIL for a default that it has not.
fn with_default(
    alloc: Global,
    mut values: Vec<Datum>,
    has_default: bool,
) -> Result<Vec<Datum>, AllocError>
    ensures value { IfOk result (λ v. objects v.items ≡ with_default has_default (objects values.items)) }
    ensures arguments { (u : Table) → AreSoundPackages u → All (IsArgument u) values.items
        → IfOk result (λ v. All (IsArgument u) v.items) }
{
    if !has_default && values.len() >= 2 {
        values.insert(2, values::empty_list(alloc)?)?;
    }
    Ok(values)
}

/// What an operator does with a place, of the values of the place's subforms and of the forms after it. After an error
/// the world is as it was.
pub fn change(
    alloc: Global,
    world: &mut World,
    operator: PlaceChange,
    has_default: bool,
    values: Vec<Datum>,
) -> Result<Evaluated, EvaluationError>
    requires { AreArgumentsOf world.old values.items }
    ensures gives { CarriesOut (place_changed operator has_default) values.items
        world.old.0 world.new.0 result }
    ensures proper { IfOk result IsProperValue }
    ensures unchanged { IfErr result (λ _. world.new ≡ world.old) }
    ensures marked { world.new.1 ≡ world.old.1 }
{
    world.soundness();
    let values = with_default(alloc, values, has_default)?;
    match operator {
        PlaceChange::Stepped(way) => take_step(world, way, values),
        PlaceChange::Popped => pop(alloc, world, values),
    }
}

// The integer that comes of another one and an amount, where it has at most 128 bits.
fn stepped(way: Direction, number: i128, amount: i128) -> Option<i128>
    ensures { result ≡ if_stepped way number amount }
{
    match way {
        Direction::Increment => number.checked_add(amount),
        Direction::Decrement => number.checked_sub(amount),
    }
}

// The integer that a place has.
fn integer_at(
    world: &World,
    symbol: &Symbol,
    indicator: &Symbol,
    default: &Datum,
) -> Result<i128, EvaluationError>
    requires { IsProper default.now }
    ensures { let place = property world.now.0 (symbol_of symbol.now) (symbol_of indicator.now) in
        IsOfKind (λ n. n) result (an_integer (unwrap_or place (object_of default.now))) }
{
    match world.get(symbol, indicator) {
        Some(value) => kinds::integer(value),
        None => kinds::integer(default),
    }
}

// INCF and DECF, by an integer or by 1: the sum or the difference.
fn take_step(
    world: &mut World,
    way: Direction,
    values: Vec<Datum>,
) -> Result<Evaluated, EvaluationError>
    requires { AreArgumentsOf world.old values.items }
    ensures gives { CarriesOut (take_step way) values.items world.old.0 world.new.0 result }
    ensures proper { IfOk result IsProperValue }
    ensures unchanged { IfErr result (λ _. world.new ≡ world.old) }
    ensures marked { world.new.1 ≡ world.old.1 }
{
    let (symbol, indicator, default, rest) = three_and_rest(values)?;
    let amount = amount(rest.as_slice())?;
    let (symbol, indicator) = property_key(symbol, indicator)?;
    let number = integer_at(world, &symbol, &indicator, &default)?;
    let Some(number) = stepped(way, number, amount) else {
        return Err(Refused(INTEGER_RANGE));
    };
    world.put(&symbol, indicator, Datum::Integer(number))?;
    Ok(Evaluated {
        value: Datum::Integer(number),
        wrote: true,
    })
}

// The value that a place has.
fn value_at(
    alloc: Global,
    world: &World,
    symbol: &Symbol,
    indicator: &Symbol,
    default: Datum,
) -> Result<Datum, AllocError>
    requires { IsProper default }
    ensures value { let place = property world.now.0 (symbol_of symbol.now) (symbol_of indicator.now) in
        IfOk result (λ d. object_of d ≡ unwrap_or place (object_of default)) }
    ensures proper { IfOk result IsProper }
{
    match world.get(symbol, indicator) {
        Some(value) => value.copy(alloc),
        None => Ok(default),
    }
}

// The first of these items, and the list of those after it, which ends in the tail.
fn shortened(
    alloc: Global,
    mut items: Vec<Datum>,
    tail: Option<Datum>,
) -> Result<(Datum, Datum), EvaluationError>
    requires some { 0 < length items.items }
    requires items { list_all is_proper items.items ≡ true }
    requires tail { option_map_or is_proper tail true ≡ true }
    ensures value { IfOk result (λ p. pair (object_of p.0) (object_of p.1)
        ≡ pairs (objects items.items) (option_map_or object_of tail nil)) }
    ensures proper { IfOk result (λ p. IsProper p.0 × IsProper p.1) }
    ensures memory { IfErr result (λ e. e ≡ OutOfMemory) }
{
    let first = items.remove(0);
    let rest = Datum::list(alloc, items, tail)?;
    Ok((first, rest))
}

// The first item of a list, and what comes after it. Of NIL both are NIL.
fn parted(alloc: Global, list: Datum) -> Result<(Datum, Datum), EvaluationError>
    requires { IsProper list }
    ensures value { IsParted result (parted (object_of list)) }
    ensures proper { IfOk result (λ p. IsProper p.0 × IsProper p.1) }
{
    match list.into_list() {
        Ok((items, tail)) => {
            let items = items.into_vec();
            match tail {
                Some(end) => shortened(alloc, items, Some(end.into_inner())),
                None => shortened(alloc, items, None),
            }
        }
        Err(other) => {
            if !other.is_nil() {
                return Err(Refused(ARGUMENT_KIND));
            }
            let rest = values::empty_list(alloc)?;
            Ok((other, rest))
        }
    }
}

// POP where the property is no list with an item. Where there is none, the default stands for it.
fn pop_other(
    alloc: Global,
    world: &mut World,
    symbol: &Symbol,
    indicator: Symbol,
    default: Datum,
) -> Result<Evaluated, EvaluationError>
    requires symbol { IsSymbol world.old.0.packages (symbol_of symbol.now) }
    requires indicator { IsSymbol world.old.0.packages (symbol_of indicator) }
    requires default { IsArgument world.old.0.packages default }
    ensures gives { Pops world.old.0 (symbol_of symbol.now) (symbol_of indicator)
        (object_of default) world.new.0 result }
    ensures proper { IfOk result IsProperValue }
    ensures unchanged { IfErr result (λ _. world.new ≡ world.old) }
    ensures marked { world.new.1 ≡ world.old.1 }
{
    let list = value_at(alloc, world, symbol, &indicator, default)?;
    let (value, rest) = parted(alloc, list)?;
    world.soundness();
    world.put(symbol, indicator, rest)?;
    Ok(Evaluated { value, wrote: true })
}

// POP of a place. The list that is there is not copied.
fn pop_at(
    alloc: Global,
    world: &mut World,
    symbol: &Symbol,
    indicator: Symbol,
    default: Datum,
) -> Result<Evaluated, EvaluationError>
    requires symbol { IsSymbol world.old.0.packages (symbol_of symbol.now) }
    requires indicator { IsSymbol world.old.0.packages (symbol_of indicator) }
    requires default { IsArgument world.old.0.packages default }
    ensures gives { Pops world.old.0 (symbol_of symbol.now) (symbol_of indicator)
        (object_of default) world.new.0 result }
    ensures proper { IfOk result IsProperValue }
    ensures unchanged { IfErr result (λ _. world.new ≡ world.old) }
    ensures marked { world.new.1 ≡ world.old.1 }
{
    match world.pop(symbol, &indicator)? {
        Some(value) => Ok(Evaluated { value, wrote: true }),
        None => pop_other(alloc, world, symbol, indicator, default),
    }
}

// POP: the first item of the list that a place has, of which the rest stays.
fn pop(alloc: Global, world: &mut World, values: Vec<Datum>) -> Result<Evaluated, EvaluationError>
    requires { AreArgumentsOf world.old values.items }
    ensures gives { CarriesOut pop values.items world.old.0 world.new.0 result }
    ensures proper { IfOk result IsProperValue }
    ensures unchanged { IfErr result (λ _. world.new ≡ world.old) }
    ensures marked { world.new.1 ≡ world.old.1 }
{
    let (symbol, indicator, default) = three(values)?;
    let (symbol, indicator) = property_key(symbol, indicator)?;
    pop_at(alloc, world, &symbol, indicator, default)
}
