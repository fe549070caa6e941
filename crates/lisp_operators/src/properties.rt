//! The operators on property lists (standard 10.2, 14.2), of the values of their arguments.
ghost use Rattle.std.specs.Prelude.{◌≡◌, true, [], option_map, All, IfErr, IfOk, IfSome};
ghost use Rattle.std.specs.List.{list_all};
ghost use Rattle.lisp_object.specs.Object.{IsSound, pair};
ghost use Rattle.lisp_object.specs.Datum.{object_of, is_proper};
ghost use Rattle.plist_state.specs.Changes.{property};
ghost use Rattle.plist_state.specs.PushedLists.{holds_pair};
ghost use Rattle.plist_state.specs.Views.{symbol_of};
ghost use Rattle.plist_state.specs.Sound.{IsSymbol};
ghost use Rattle.lisp_operators.specs.ArgumentKinds.{a_symbol};
ghost use Rattle.lisp_operators.specs.Properties.{get, set, remove, in_turn, symbol_plist, amount, increment, push};
ghost use Rattle.lisp_operators.specs.EvaluationAnswers.{IsOfKind, IsPropertyKey, object_of_symbol, or_nil, IsProper, AreProper, IsProperValue, AreArgumentsOf, CarriesOut, IsArgument, StoresProperty, objects};

use crate::EvaluationError::Refused;
use crate::arguments::given_or_nil;
use crate::owned_arguments::{one, three, two, two_and_rest};
use crate::values::LARGEST_SIZE;
use crate::{Evaluated, EvaluationError, kinds, values};
use lisp_object::Datum;
use lisp_object::refusal::{ARGUMENT_KIND, INTEGER_RANGE, LIMIT, VALUE_TOO_DEEP};
use plist_state::{PropertyList, Symbol, World};
use std::alloc::{AllocError, Global};

// The symbol that an argument is.
fn symbol(datum: Datum) -> Result<Symbol, EvaluationError>
    requires { IsProper datum }
    ensures { IsOfKind symbol_of result (a_symbol (object_of datum)) }
{
    match datum.into_symbol() {
        Ok((home, name)) => Ok(Symbol { home, name }),
        Err(_other) => Err(Refused(ARGUMENT_KIND)),
    }
}

/// The symbol and the indicator of a property. Refused as `ARGUMENT_KIND` where one of the two is no interned symbol.
pub(crate) fn property_key(
    key: Datum,
    indicator: Datum,
) -> Result<(Symbol, Symbol), EvaluationError>
    requires symbol { IsProper key }
    requires indicator { IsProper indicator }
    ensures { IsPropertyKey result (a_symbol (object_of key)) (a_symbol (object_of indicator)) }
{
    Ok((symbol(key)?, symbol(indicator)?))
}

/// GET: the value of a property, or what is given where there is no such property. Refused as `ARGUMENT_KIND` where an
/// argument is missing, or the first two are no symbols.
pub fn get(alloc: Global, world: &World, values: Vec<Datum>) -> Result<Evaluated, EvaluationError>
    requires { AreArgumentsOf world.now values.items }
    ensures gives { CarriesOut get values.items world.now.0 world.now.0 result }
    ensures proper { IfOk result IsProperValue }
{
    let (symbol, indicator, rest) = two_and_rest(values)?;
    let (symbol, indicator) = property_key(symbol, indicator)?;
    let value = match world.get(&symbol, &indicator) {
        Some(value) => value.copy(alloc)?,
        None => given_or_nil(alloc, rest.as_slice())?,
    };
    Ok(Evaluated {
        value,
        wrote: false,
    })
}

// A value becomes that of a property.
fn store(
    alloc: Global,
    world: &mut World,
    symbol: &Symbol,
    indicator: Symbol,
    value: Datum,
) -> Result<Evaluated, EvaluationError>
    requires symbol { IsSymbol world.old.0.packages (symbol_of symbol.now) }
    requires indicator { IsSymbol world.old.0.packages (symbol_of indicator) }
    requires value { IsArgument world.old.0.packages value }
    ensures gives { StoresProperty world.old.0 (symbol_of symbol.now) (symbol_of indicator)
        (object_of value) world.new.0 result }
    ensures proper { IfOk result IsProperValue }
    ensures unchanged { IfErr result (λ _. world.new ≡ world.old) }
    ensures marked { world.new.1 ≡ world.old.1 }
{
    let stored = value.copy(alloc)?;
    world.put(symbol, indicator, stored)?;
    Ok(Evaluated { value, wrote: true })
}

/// SETF of a property: the new value. Refused as `ARGUMENT_KIND` where there are not three arguments, or the first two
/// are no symbols. After an error the world is as it was.
pub fn set(
    alloc: Global,
    world: &mut World,
    values: Vec<Datum>,
) -> Result<Evaluated, EvaluationError>
    requires { AreArgumentsOf world.old values.items }
    ensures gives { CarriesOut set values.items world.old.0 world.new.0 result }
    ensures proper { IfOk result IsProperValue }
    ensures unchanged { IfErr result (λ _. world.new ≡ world.old) }
    ensures marked { world.new.1 ≡ world.old.1 }
{
    let (symbol, indicator, value) = three(values)?;
    let (symbol, indicator) = property_key(symbol, indicator)?;
    store(alloc, world, &symbol, indicator, value)
}

/// REMPROP: T if the symbol had the property, which is gone then; else NIL, and nothing is written.
/// After an error the world may have changed, but for its marks: who calls it goes back to one.
pub fn remove(
    alloc: Global,
    world: &mut World,
    values: Vec<Datum>,
) -> Result<Evaluated, EvaluationError>
    requires { AreArgumentsOf world.old values.items }
    ensures gives { CarriesOut remove values.items world.old.0 world.new.0 result }
    ensures proper { IfOk result IsProperValue }
    ensures marked { world.new.1 ≡ world.old.1 }
{
    let (symbol, indicator) = two(values)?;
    let (symbol, indicator) = property_key(symbol, indicator)?;
    if world.get(&symbol, &indicator).is_none() {
        return Ok(Evaluated {
            value: values::empty_list(alloc)?,
            wrote: false,
        });
    }
    let _had = world.remove(&symbol, &indicator)?;
    Ok(Evaluated {
        value: values::truth(alloc)?,
        wrote: true,
    })
}

// Indicators and values in turn.
fn in_turn(alloc: Global, row: &PropertyList<'_>) -> Result<Vec<Datum>, AllocError>
    requires { All (λ p. IsSound (object_of_symbol p.0)) row.now }
    ensures value { IfOk result (λ v. objects v.items ≡ in_turn row.now) }
    ensures proper { IfOk result (λ v. list_all is_proper v.items ≡ true) }
{
    let mut values = Vec::new(alloc);
    for index in 0..row.len() {
        let property = row.at(index);
        values.push(values::symbol(alloc, property.home, property.name)?)?;
        values.push(property.value.copy(alloc)?)?;
    }
    Ok(values)
}

/// SYMBOL-PLIST: the indicators and the values of a symbol in turn. Refused as `ARGUMENT_KIND` where the one argument
/// is no symbol.
pub fn symbol_plist(
    alloc: Global,
    world: &World,
    values: Vec<Datum>,
) -> Result<Evaluated, EvaluationError>
    requires { AreArgumentsOf world.now values.items }
    ensures gives { CarriesOut symbol_plist values.items world.now.0 world.now.0 result }
    ensures proper { IfOk result IsProperValue }
{
    let symbol = symbol(one(values)?)?;
    world.soundness();
    let row = world.plist(&symbol);
    values::list(alloc, in_turn(alloc, &row)?)
}

/// By how much INCF adds: 1 where it is not given. Refused as `ARGUMENT_KIND` where it is no integer.
pub(crate) fn amount(rest: &[Datum]) -> Result<i128, EvaluationError>
    requires { AreProper rest.now }
    ensures { IsOfKind (λ n. n) result (amount (objects rest.now)) }
{
    match rest {
        [given, ..] => kinds::integer(given),
        [] => Ok(1),
    }
}

/// INCF of a property, by an integer or by 1: the sum. Refused as `ARGUMENT_KIND` where there is no such property, or
/// it or the amount is no integer; as `INTEGER_RANGE` where the sum has over 128 bits. After an error the world is as
/// it was.
pub fn increment(
    alloc: Global,
    world: &mut World,
    values: Vec<Datum>,
) -> Result<Evaluated, EvaluationError>
    requires { AreArgumentsOf world.old values.items }
    ensures gives { CarriesOut increment values.items world.old.0 world.new.0 result }
    ensures proper { IfOk result IsProperValue }
    ensures unchanged { IfErr result (λ _. world.new ≡ world.old) }
    ensures marked { world.new.1 ≡ world.old.1 }
{
    let (symbol, indicator, rest) = two_and_rest(values)?;
    let amount = amount(rest.as_slice())?;
    let (symbol, indicator) = property_key(symbol, indicator)?;
    let Some(value) = world.get(&symbol, &indicator) else {
        return Err(Refused(ARGUMENT_KIND));
    };
    let Some(sum) = kinds::integer(value)?.checked_add(amount) else {
        return Err(Refused(INTEGER_RANGE));
    };
    world.put(&symbol, indicator, Datum::Integer(sum))?;
    Ok(Evaluated {
        value: Datum::Integer(sum),
        wrote: true,
    })
}

// Whether a property is a list with an item.
fn has_list(world: &World, symbol: &Symbol, indicator: &Symbol) -> bool
    ensures { result ≡ holds_pair (property world.now.0 (symbol_of symbol.now) (symbol_of indicator.now)) }
{
    match world.get(symbol, indicator) {
        Some(value) => kinds::is_pair(value),
        None => false,
    }
}

/// The pair of a value and a property, or NIL where there is none.
pub(crate) fn pushed(alloc: Global, value: &Datum, old: Option<&Datum>) -> Result<Datum, AllocError>
    requires value { IsProper value.now }
    requires old { IfSome old (λ d. is_proper d.now ≡ true) }
    ensures value { IfOk result (λ d. object_of d
        ≡ pair (object_of value.now) (or_nil (option_map (λ d. object_of d.now) old.entry))) }
    ensures proper { IfOk result IsProper }
{
    let old = match old {
        Some(old) => old.copy(alloc)?,
        None => values::empty_list(alloc)?,
    };
    let mut items = Vec::new(alloc);
    items.push(value.copy(alloc)?)?;
    Datum::list(alloc, items, Some(old))
}

/// PUSH of a value to a property: the pair of the two. Refused as `ARGUMENT_KIND` where there are not three arguments,
/// or the last two are no symbols; as `VALUE_TOO_DEEP` or `LIMIT` where the pair is too deep or too large. After an
/// error the world is as it was.
pub fn push(
    alloc: Global,
    world: &mut World,
    values: Vec<Datum>,
) -> Result<Evaluated, EvaluationError>
    requires { AreArgumentsOf world.old values.items }
    ensures gives { CarriesOut push values.items world.old.0 world.new.0 result }
    ensures proper { IfOk result IsProperValue }
    ensures unchanged { IfErr result (λ _. world.new ≡ world.old) }
    ensures marked { world.new.1 ≡ world.old.1 }
{
    let (first, symbol, indicator) = three(values)?;
    let (symbol, indicator) = property_key(symbol, indicator)?;
    let value = pushed(alloc, &first, world.get(&symbol, &indicator))?;
    if values::is_too_deep(&value) {
        return Err(Refused(VALUE_TOO_DEEP));
    }
    let size = value.size();
    if size > LARGEST_SIZE {
        return Err(Refused(LIMIT));
    }
    world.soundness();
    if !has_list(world, &symbol, &indicator) {
        return store(alloc, world, &symbol, indicator, value);
    }
    // The list that is there is moved, and the answer is its only copy.
    world.push(&symbol, &indicator, first, size)?;
    Ok(Evaluated { value, wrote: true })
}
