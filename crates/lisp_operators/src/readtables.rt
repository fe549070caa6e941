//! The operators on readtables (standard 23.2), of the values of their arguments.
ghost use Rattle.std.specs.Prelude.{◌≡◌, true, false, IfOk, Result};
ghost use Rattle.std.specs.FinMap as finite;
ghost use Rattle.lisp_object.specs.Datum.{object_of};
ghost use Rattle.readtable_core.specs.Names.{is_among};
ghost use Rattle.plist_state.specs.State.{WorldState};
ghost use Rattle.plist_state.specs.declared.error.ReadtableError.{ReadtableError};
ghost use Rattle.plist_state.specs.Changes.{writable, AnswersReadtables as Tells};
ghost use Rattle.lisp_operators.specs.Properties.{t};
ghost use Rattle.lisp_operators.specs.Readtables.{value_after, name_or_nil, is_function, readtable_case, set_case, copy_readtable, enter_readtable, set_syntax, set_macro, get_macro, make_dispatch, set_dispatch, get_dispatch};
ghost use Rattle.lisp_operators.specs.Readtables.{AreFunctionNames};
ghost use Rattle.lisp_operators.specs.EvaluationAnswers.{IsReadtableOr, IsFunctionOr, IsWritableOr, Answers, done, IsProper, IsProperValue, AreArgumentsOf, CarriesOut};

use crate::EvaluationError::Refused;
use crate::arguments::{
    after_first, is_given, keyword_or, one, one_and_rest, source_or, three_and_rest, two,
    two_and_rest,
};
use crate::{Evaluated, EvaluationError, kinds, values};
use lisp_object::Datum;
use lisp_object::refusal::{
    DIGIT_SUBCHARACTER, NO_MACRO, NO_READTABLE, NOT_DISPATCHING, STANDARD_READTABLE,
};
use plist_state::{ReadtableError, STANDARD, World};
use readtable_core::{FnName, Readtable};
use std::alloc::{AllocError, Global};

// The readtable of this name.
fn readtable<'a>(world: &'a World, name: &[u8]) -> Result<&'a Readtable, EvaluationError>
    ensures { IsReadtableOr (λ t. t.now) result (finite.get world.now.0.readtables name.now) }
{
    world.readtable(name).ok_or(Refused(NO_READTABLE))
}

// The readtable of this name, which may be changed.
fn writable<'a>(world: &'a World, name: &[u8]) -> Result<&'a Readtable, EvaluationError>
    ensures { IsWritableOr (λ t. t.now) result (writable world.now.0.readtables name.now) }
{
    let table = readtable(world, name)?;
    if name == STANDARD {
        return Err(Refused(STANDARD_READTABLE));
    }
    Ok(table)
}

// A function that a readtable may name: of the standard readtable, or of these names.
#[tactic(auto, using(crate::proofs::SoundReadtables::no_function))]
fn function_named(names: &[FnName], name: &[u8]) -> Result<FnName, EvaluationError>
    requires { AreFunctionNames names.now }
    ensures { IsFunctionOr result name.now (is_function names.now name.now) }
{
    match FnName::new(name) {
        Some(function) if is_function(names, function) => Ok(function),
        _ => Err(Refused(NO_MACRO)),
    }
}

// Whether a readtable may name it.
fn is_function(names: &[FnName], function: FnName) -> bool
    ensures { result ≡ is_function names.now function }
{
    if function.is_dispatch() {
        return false;
    }
    if function.is_standard() {
        return true;
    }
    is_among(names, function)
}

fn is_among(names: &[FnName], function: FnName) -> bool
    ensures { result ≡ is_among names.now function }
{
    names.iter().any(|name| *name == function)
}

// What a change of the readtables gives: T.
fn changed(alloc: Global, made: Result<(), ReadtableError>) -> Result<Evaluated, EvaluationError>
    ensures gives { (s later : WorldState) (said : Result WorldState ReadtableError)
        → Tells (λ _. later) made said → Answers done result later (value_after s t said) }
    ensures proper { IfOk result IsProperValue }
{
    match made {
        Ok(()) => Ok(Evaluated {
            value: values::truth(alloc)?,
            wrote: true,
        }),
        Err(error) => Err(EvaluationError::from(error)),
    }
}

/// READTABLE-CASE: the case of a readtable.
pub fn readtable_case(
    alloc: Global,
    world: &World,
    values: &[Datum],
) -> Result<Evaluated, EvaluationError>
    requires { AreArgumentsOf world.now values.now }
    ensures gives { CarriesOut readtable_case values.now world.now.0 world.now.0 result }
    ensures proper { IfOk result IsProperValue }
{
    let table = readtable(world, kinds::keyword(one(values)?)?)?;
    Ok(Evaluated {
        value: values::keyword(alloc, table.case().name())?,
        wrote: false,
    })
}

/// SETF of a readtable's case: the case. Refused where there is no such readtable, or it is the standard one.
/// After an error the world may have changed, but for its marks: who calls it goes back to one.
pub fn set_case(
    alloc: Global,
    world: &mut World,
    values: &[Datum],
) -> Result<Evaluated, EvaluationError>
    requires { AreArgumentsOf world.old values.now }
    ensures gives { CarriesOut set_case values.now world.old.0 world.new.0 result }
    ensures proper { IfOk result IsProperValue }
    ensures marked { world.new.1 ≡ world.old.1 }
{
    let (name, letters) = two(values)?;
    world.set_case(kinds::keyword(name)?, kinds::case(letters)?)?;
    Ok(Evaluated {
        value: letters.copy(alloc)?,
        wrote: true,
    })
}

/// COPY-READTABLE: the name of the copy, which takes the place of a readtable of that name. None takes that of the standard one.
/// After an error the world may have changed, but for its marks: who calls it goes back to one.
pub fn copy_readtable(
    alloc: Global,
    world: &mut World,
    values: &[Datum],
) -> Result<Evaluated, EvaluationError>
    requires { AreArgumentsOf world.old values.now }
    ensures gives { CarriesOut copy_readtable values.now world.old.0 world.new.0 result }
    ensures proper { IfOk result IsProperValue }
    ensures marked { world.new.1 ≡ world.old.1 }
{
    let (source, copy) = two(values)?;
    world.copy_readtable(kinds::source(source)?, kinds::keyword(copy)?)?;
    Ok(Evaluated {
        value: copy.copy(alloc)?,
        wrote: true,
    })
}

/// IN-READTABLE: the name of the readtable that becomes current. Refused where there is none of that name.
/// After an error the world may have changed, but for its marks: who calls it goes back to one.
pub fn enter_readtable(
    alloc: Global,
    world: &mut World,
    values: &[Datum],
) -> Result<Evaluated, EvaluationError>
    requires { AreArgumentsOf world.old values.now }
    ensures gives { CarriesOut enter_readtable values.now world.old.0 world.new.0 result }
    ensures proper { IfOk result IsProperValue }
    ensures marked { world.new.1 ≡ world.old.1 }
{
    let name = one(values)?;
    world.set_current_readtable(kinds::keyword(name)?)?;
    Ok(Evaluated {
        value: name.copy(alloc)?,
        wrote: true,
    })
}

/// SET-SYNTAX-FROM-CHAR, to the current readtable and from the standard one where no other are given. That both are there is
/// looked at first, and then that the first is not the standard one.
/// After an error the world may have changed, but for its marks: who calls it goes back to one.
pub fn set_syntax(
    alloc: Global,
    world: &mut World,
    values: &[Datum],
) -> Result<Evaluated, EvaluationError>
    requires { AreArgumentsOf world.old values.now }
    ensures gives { CarriesOut set_syntax values.now world.old.0 world.new.0 result }
    ensures proper { IfOk result IsProperValue }
    ensures marked { world.new.1 ≡ world.old.1 }
{
    let (to, from, rest) = two_and_rest(values)?;
    let to = kinds::character(to)?;
    let from = kinds::character(from)?;
    let name = keyword_or(rest, world.current_readtable())?;
    let source = source_or(after_first(rest), STANDARD)?;
    readtable(world, source)?;
    writable(world, name)?;
    let name = Vec::from_slice(alloc, name)?;
    let made = world.set_syntax_from_char(name.as_slice(), to, source, from);
    changed(alloc, made)
}

/// SET-MACRO-CHARACTER, in the current readtable where no other is given. Refused, in this order: a value of
/// another kind, no such readtable, the standard one, a function that is neither standard nor of the program (`names`).
/// After an error the world may have changed, but for its marks: who calls it goes back to one.
pub fn set_macro(
    alloc: Global,
    world: &mut World,
    names: &[FnName],
    values: &[Datum],
) -> Result<Evaluated, EvaluationError>
    requires names { AreFunctionNames names.now }
    requires values { AreArgumentsOf world.old values.now }
    ensures gives { CarriesOut (set_macro names.now) values.now world.old.0 world.new.0 result }
    ensures proper { IfOk result IsProperValue }
    ensures marked { world.new.1 ≡ world.old.1 }
{
    let (character, function, rest) = two_and_rest(values)?;
    let c = kinds::character(character)?;
    let function = kinds::keyword(function)?;
    let name = keyword_or(after_first(rest), world.current_readtable())?;
    writable(world, name)?;
    let function = function_named(names, function)?;
    let name = Vec::from_slice(alloc, name)?;
    let made = world.set_macro(name.as_slice(), c, function, is_given(rest));
    changed(alloc, made)
}

// The name of a function as a keyword, or NIL where there is none.
fn name_or_nil(alloc: Global, name: Option<FnName>) -> Result<Datum, AllocError>
    ensures value { IfOk result (λ d. object_of d ≡ name_or_nil name) }
    ensures proper { IfOk result IsProper }
{
    match name {
        Some(name) => values::keyword(alloc, name.as_bytes()),
        None => values::empty_list(alloc),
    }
}

/// GET-MACRO-CHARACTER: the name of the function of a character, or NIL.
pub fn get_macro(
    alloc: Global,
    world: &World,
    values: &[Datum],
) -> Result<Evaluated, EvaluationError>
    requires { AreArgumentsOf world.now values.now }
    ensures gives { CarriesOut get_macro values.now world.now.0 world.now.0 result }
    ensures proper { IfOk result IsProperValue }
{
    let (character, rest) = one_and_rest(values)?;
    let c = kinds::character(character)?;
    let table = readtable(world, source_or(rest, world.current_readtable())?)?;
    Ok(Evaluated {
        value: name_or_nil(alloc, table.macro_of(c))?,
        wrote: false,
    })
}

/// MAKE-DISPATCH-MACRO-CHARACTER, in the current readtable where no other is given. Refused, in this order: a value of another kind,
/// no such readtable, the standard one.
/// After an error the world may have changed, but for its marks: who calls it goes back to one.
pub fn make_dispatch(
    alloc: Global,
    world: &mut World,
    values: &[Datum],
) -> Result<Evaluated, EvaluationError>
    requires { AreArgumentsOf world.old values.now }
    ensures gives { CarriesOut make_dispatch values.now world.old.0 world.new.0 result }
    ensures proper { IfOk result IsProperValue }
    ensures marked { world.new.1 ≡ world.old.1 }
{
    let (character, rest) = one_and_rest(values)?;
    let c = kinds::character(character)?;
    let name = keyword_or(after_first(rest), world.current_readtable())?;
    writable(world, name)?;
    let name = Vec::from_slice(alloc, name)?;
    let made = world.make_dispatch(name.as_slice(), c, is_given(rest));
    changed(alloc, made)
}

/// SET-DISPATCH-MACRO-CHARACTER, in the current readtable where no other is given. Refused, in this order: a value of
/// another kind, no such readtable, the standard one, a function that is neither standard nor of the program (`names`),
/// a character that dispatches nothing, a sub-character that is a digit.
/// After an error the world may have changed, but for its marks: who calls it goes back to one.
pub fn set_dispatch(
    alloc: Global,
    world: &mut World,
    names: &[FnName],
    values: &[Datum],
) -> Result<Evaluated, EvaluationError>
    requires names { AreFunctionNames names.now }
    requires values { AreArgumentsOf world.old values.now }
    ensures gives { CarriesOut (set_dispatch names.now) values.now world.old.0 world.new.0 result }
    ensures proper { IfOk result IsProperValue }
    ensures marked { world.new.1 ≡ world.old.1 }
{
    let (character, sub, function, rest) = three_and_rest(values)?;
    let c = kinds::character(character)?;
    let d = kinds::character(sub)?;
    let function = kinds::keyword(function)?;
    let name = keyword_or(rest, world.current_readtable())?;
    let table = writable(world, name)?;
    let function = function_named(names, function)?;
    if !table.is_dispatching(c) {
        return Err(Refused(NOT_DISPATCHING));
    }
    if d.is_ascii_digit() {
        return Err(Refused(DIGIT_SUBCHARACTER));
    }
    let name = Vec::from_slice(alloc, name)?;
    let made = world.set_dispatch(name.as_slice(), c, d, function);
    changed(alloc, made)
}

/// GET-DISPATCH-MACRO-CHARACTER: the name of the function of a sub-character, or NIL.
pub fn get_dispatch(
    alloc: Global,
    world: &World,
    values: &[Datum],
) -> Result<Evaluated, EvaluationError>
    requires { AreArgumentsOf world.now values.now }
    ensures gives { CarriesOut get_dispatch values.now world.now.0 world.now.0 result }
    ensures proper { IfOk result IsProperValue }
{
    let (character, sub, rest) = two_and_rest(values)?;
    let c = kinds::character(character)?;
    let d = kinds::character(sub)?;
    let table = readtable(world, source_or(rest, world.current_readtable())?)?;
    if !table.is_dispatching(c) {
        return Err(Refused(NOT_DISPATCHING));
    }
    Ok(Evaluated {
        value: name_or_nil(alloc, table.dispatch_of(c, d))?,
        wrote: false,
    })
}
