//! GET, where it is only asked whether its value is true; SETF and PUSH of a property, where their values are not asked for. The
//! property that GET finds, the value of SETF, and a list to which PUSH adds, are not copied.
ghost use Rattle.std.specs.Prelude.{◌≡◌, Some, IfErr};
ghost use Rattle.lisp_object.specs.Datum.{object_of};
ghost use Rattle.plist_state.specs.Changes.{property};
ghost use Rattle.plist_state.specs.PushedLists.{pair_size};
ghost use Rattle.plist_state.specs.Views.{symbol_of};
ghost use Rattle.plist_state.specs.Sound.{IsSymbol};
ghost use Rattle.lisp_operators.specs.Properties.{get, set, push};
ghost use Rattle.lisp_operators.specs.Effects.{IsTruth, Leaves, pushes};
ghost use Rattle.lisp_operators.specs.EvaluationAnswers.{AreArgumentsOf, IsArgument, objects};

use crate::EvaluationError::Refused;
use crate::arguments::is_given;
use crate::owned_arguments::{three, two_and_rest};
use crate::properties::{property_key, pushed};
use crate::sizes::size_before;
use crate::values::LARGEST_SIZE;
use crate::{EvaluationError, kinds, values};
use lisp_object::Datum;
use lisp_object::refusal::{LIMIT, VALUE_TOO_DEEP};
use plist_state::{Symbol, World};
use std::alloc::Global;

/// GET. Gives whether the value is true. Refused as `ARGUMENT_KIND` where an argument is missing, or the first two are
/// no symbols.
pub fn get(world: &World, values: Vec<Datum>) -> Result<bool, EvaluationError>
    requires { AreArgumentsOf world.now values.items }
    ensures { IsTruth result world.now.0 (get (objects values.items) world.now.0) }
{
    let (symbol, indicator, rest) = two_and_rest(values)?;
    let (symbol, indicator) = property_key(symbol, indicator)?;
    match world.get(&symbol, &indicator) {
        Some(value) => Ok(kinds::is_true(value)),
        None => Ok(is_given(rest.as_slice())),
    }
}

/// SETF of a property. Gives whether anything was written. Refused as `ARGUMENT_KIND` where there are not three
/// arguments, or the first two are no symbols. After an error the world is as it was.
pub fn set(world: &mut World, values: Vec<Datum>) -> Result<bool, EvaluationError>
    requires { AreArgumentsOf world.old values.items }
    ensures gives { Leaves result world.new.0 (set (objects values.items) world.old.0) }
    ensures unchanged { IfErr result (λ _. world.new ≡ world.old) }
    ensures marked { world.new.1 ≡ world.old.1 }
{
    let (symbol, indicator, value) = three(values)?;
    let (symbol, indicator) = property_key(symbol, indicator)?;
    world.put(&symbol, indicator, value)?;
    Ok(true)
}

// PUSH of a value before the list that a property is, which has this size. The list is not looked at.
fn put_before(
    world: &mut World,
    symbol: &Symbol,
    indicator: &Symbol,
    value: Datum,
    list: u64,
) -> Result<bool, EvaluationError>
    requires symbol { IsSymbol world.old.0.packages (symbol_of symbol.now) }
    requires indicator { IsSymbol world.old.0.packages (symbol_of indicator.now) }
    requires list { pair_size
        (property world.old.0 (symbol_of symbol.now) (symbol_of indicator.now)) ≡ Some list }
    requires value { IsArgument world.old.0.packages value }
    ensures gives { Leaves result world.new.0
        (pushes world.old.0 (symbol_of symbol.now) (symbol_of indicator.now) (object_of value)) }
    ensures unchanged { IfErr result (λ _. world.new ≡ world.old) }
    ensures marked { world.new.1 ≡ world.old.1 }
{
    world.soundness();
    if values::is_too_deep_within(&value) {
        return Err(Refused(VALUE_TOO_DEEP));
    }
    let size = size_before(&value, list);
    if size > LARGEST_SIZE {
        return Err(Refused(LIMIT));
    }
    world.push(symbol, indicator, value, size)?;
    Ok(true)
}

// PUSH of a value to a property that is no list with an item, or is not there.
fn put_pair(
    alloc: Global,
    world: &mut World,
    symbol: &Symbol,
    indicator: Symbol,
    value: &Datum,
) -> Result<bool, EvaluationError>
    requires symbol { IsSymbol world.old.0.packages (symbol_of symbol.now) }
    requires indicator { IsSymbol world.old.0.packages (symbol_of indicator) }
    requires value { IsArgument world.old.0.packages value.now }
    ensures gives { Leaves result world.new.0
        (pushes world.old.0 (symbol_of symbol.now) (symbol_of indicator) (object_of value.now)) }
    ensures unchanged { IfErr result (λ _. world.new ≡ world.old) }
    ensures marked { world.new.1 ≡ world.old.1 }
{
    let old = world.get(symbol, &indicator);
    let value = pushed(alloc, value, old)?;
    if values::is_too_deep(&value) {
        return Err(Refused(VALUE_TOO_DEEP));
    }
    if values::is_too_large(&value) {
        return Err(Refused(LIMIT));
    }
    world.soundness();
    world.put(symbol, indicator, value)?;
    Ok(true)
}

/// PUSH of a value to a property. Gives whether anything was written. A list that was there is not copied. Refused as
/// `ARGUMENT_KIND` where there are not three arguments, or the last two are no symbols; as `VALUE_TOO_DEEP` or `LIMIT`
/// where the new list is too deep or too large. After an error the world is as it was.
pub fn push(alloc: Global, world: &mut World, values: Vec<Datum>) -> Result<bool, EvaluationError>
    requires { AreArgumentsOf world.old values.items }
    ensures gives { Leaves result world.new.0 (push (objects values.items) world.old.0) }
    ensures unchanged { IfErr result (λ _. world.new ≡ world.old) }
    ensures marked { world.new.1 ≡ world.old.1 }
{
    let (value, symbol, indicator) = three(values)?;
    let (symbol, indicator) = property_key(symbol, indicator)?;
    match world.list_size(&symbol, &indicator) {
        Some(list) => put_before(world, &symbol, &indicator, value, list),
        None => put_pair(alloc, world, &symbol, indicator, &value),
    }
}
