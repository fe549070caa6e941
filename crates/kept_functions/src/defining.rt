//! DEFUN and DEFINE-READER: a definition is the value of a property.
ghost use Rattle.std.specs.Prelude.{◌≡◌, [], ◌∷◌, Some, None, if◌then◌else◌, bytes_eq, is_some, IfOk};
ghost use Rattle.lisp_object.specs.Object.{text, pair};
ghost use Rattle.lisp_object.specs.Datum.{object_of};
ghost use Rattle.lisp_operators.specs.EvaluationAnswers.{Answers, done, IsProper, IsProperValue, IsArgument, IsAscii};
ghost use Rattle.lisp_operators.specs.Packages.{intern};
ghost use Rattle.evaluator.specs.Operators.{pazturrok};
ghost use Rattle.kept_functions.specs.Definitions.{own_indicator, kept_beside, a_definable, definition_of, defun_value};
ghost use Rattle.kept_functions.specs.ReaderFunctions.{own_reader_name, reader_definition_of, reader_defined};

use crate::definition::{FUNCTION_INDICATOR, PAZTURROK, definition_of, is_definable};
use crate::reader_definition::{READER_INDICATOR, is_lisp_name, reader_definition_of};
use lisp_object::Datum;
use lisp_object::refusal::{ARGUMENT_KIND, NAME_CONFLICT};
use lisp_operators::EvaluationError::Refused;
use lisp_operators::{Evaluated, EvaluationError, either, kinds, packages, properties, values};
use package_table::standardized::KEYWORD;
use plist_state::World;
use std::alloc::{AllocError, Global};

fn is_name(name: &[u8], wanted: &[u8]) -> bool
    ensures { result ≡ bytes_eq name.now wanted.now }
{
    name == wanted
}

// Whether it is the symbol of PAZTURROK that has this name.
#[tactic(auto, using(crate::proofs::Keeping::indicator_by_parts))]
fn is_indicator(datum: &Datum, name: &[u8]) -> bool
    requires { IsProper datum.now }
    ensures { own_indicator (pazturrok, name.now) (object_of datum.now)
        ≡ (if result then Some (pazturrok, name.now) else None) }
{
    match kinds::symbol(datum) {
        Ok((home, own)) => is_name(home, PAZTURROK) && is_name(own, name),
        Err(_) => false,
    }
}

// Whether it may name a function of the world.
#[tactic(auto, using(crate::proofs::Keeping::definable_by_parts))]
fn names_function(datum: &Datum) -> bool
    requires { IsProper datum.now }
    ensures { result ≡ is_some (a_definable (object_of datum.now)) }
{
    match kinds::symbol(datum) {
        Ok((home, _)) => is_definable(home),
        Err(_) => false,
    }
}

// Whether it may name a macro function of the world.
#[tactic(auto, using(crate::proofs::Keeping::reader_name_by_parts))]
fn names_reader(datum: &Datum) -> bool
    requires { IsProper datum.now }
    ensures { result ≡ is_some (own_reader_name (object_of datum.now)) }
{
    match kinds::symbol(datum) {
        Ok((home, name)) => is_name(home, KEYWORD) && is_lisp_name(name),
        Err(_) => false,
    }
}

// Whether it is a definition.
fn is_definition(datum: &Datum) -> bool
    requires { IsProper datum.now }
    ensures { result ≡ is_some (definition_of (object_of datum.now)) }
{
    definition_of(datum).is_some()
}

// Whether it is the definition of a macro function.
fn is_reader_definition(datum: &Datum) -> bool
    requires { IsProper datum.now }
    ensures { result ≡ is_some (reader_definition_of (object_of datum.now)) }
{
    reader_definition_of(datum).is_some()
}

// INTERN of this name in PAZTURROK.
fn interned(alloc: Global, world: &mut World, name: &[u8]) -> Result<Evaluated, EvaluationError>
    requires { IsAscii name.now }
    ensures gives { Answers done result world.new.0
        (intern (text name.now ∷ text pazturrok ∷ []) world.old.0) }
    ensures proper { IfOk result IsProperValue }
    ensures marked { world.new.1 ≡ world.old.1 }
{
    let mut names = Vec::new(alloc);
    names.push(values::text(alloc, name)?)?;
    names.push(values::text(alloc, PAZTURROK)?)?;
    packages::intern(alloc, world, names.as_slice())
}

// The arguments of SETF of a property of this name.
fn values_to_set(
    alloc: Global,
    name: &Datum,
    indicator: Datum,
    definition: Datum,
) -> Result<Vec<Datum>, AllocError>
    ensures { IfOk result (λ values. values.items ≡ name.now ∷ indicator ∷ definition ∷ []) }
{
    let mut values = Vec::new(alloc);
    values.push(name.copy(alloc)?)?;
    values.push(indicator)?;
    values.push(definition)?;
    Ok(values)
}

// A definition is put beside an indicator of PAZTURROK, which is interned there. The value is the name. Where it is refused, or
// memory runs out, the indicator may be interned.
fn keep(
    alloc: Global,
    world: &mut World,
    indicator: &[u8],
    name: Datum,
    definition: Datum,
) -> Result<Evaluated, EvaluationError>
    requires indicator { IsAscii indicator.now }
    requires name { IsArgument world.old.0.packages name }
    requires definition { IsArgument world.old.0.packages definition }
    ensures gives { Answers done result world.new.0
        (kept_beside (pazturrok, indicator.now) (object_of name) (object_of definition) world.old.0) }
    ensures proper { IfOk result IsProperValue }
    ensures marked { world.new.1 ≡ world.old.1 }
{
    world.soundness();
    let interned = interned(alloc, world, indicator)?;
    if !is_indicator(&interned.value, indicator) {
        return Err(Refused(NAME_CONFLICT));
    }
    let values = values_to_set(alloc, &name, interned.value, definition)?;
    let stored = properties::set(alloc, world, values)?;
    Ok(Evaluated {
        value: name,
        wrote: either(interned.wrote, stored.wrote),
    })
}

/// DEFUN: the list of the variables and the forms becomes the definition of the name, which is the value. What may name no function, or
/// is no definition, is refused with 33, and where PAZTURROK has another symbol by the name of the indicator it is 37. Where it is
/// refused, or memory runs out, what was written before stays, and the marks are as they were.
pub fn define(
    alloc: Global,
    world: &mut World,
    name: Datum,
    definition: Datum,
) -> Result<Evaluated, EvaluationError>
    requires name { IsArgument world.old.0.packages name }
    requires definition { IsArgument world.old.0.packages definition }
    ensures gives { Answers done result world.new.0
        (defun_value (object_of name) (object_of definition) world.old.0) }
    ensures proper { IfOk result IsProperValue }
    ensures marked { world.new.1 ≡ world.old.1 }
{
    if !names_function(&name) {
        return Err(Refused(ARGUMENT_KIND));
    }
    if !is_definition(&definition) {
        return Err(Refused(ARGUMENT_KIND));
    }
    keep(alloc, world, FUNCTION_INDICATOR, name, definition)
}

/// DEFINE-READER: the same of a macro function, whose definition begins with the way in which it gathers.
pub fn define_reader(
    alloc: Global,
    world: &mut World,
    name: Datum,
    definition: Datum,
) -> Result<Evaluated, EvaluationError>
    requires name { IsArgument world.old.0.packages name }
    requires definition { IsArgument world.old.0.packages definition }
    ensures gives { Answers done result world.new.0
        (reader_defined (pair (object_of name) (object_of definition)) world.old.0) }
    ensures proper { IfOk result IsProperValue }
    ensures marked { world.new.1 ≡ world.old.1 }
{
    if !names_reader(&name) {
        return Err(Refused(ARGUMENT_KIND));
    }
    if !is_reader_definition(&definition) {
        return Err(Refused(ARGUMENT_KIND));
    }
    keep(alloc, world, READER_INDICATOR, name, definition)
}
