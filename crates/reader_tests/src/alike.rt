//! Closures that are registered, and functions with no closure, answer alike.
ghost use Rattle.std.specs.Prelude.{IfOk, IsTrue};
ghost use Rattle.readtable_core.specs.Names.{is_among};
ghost use Rattle.user_macros.specs.Sound.{IsSoundCall};
ghost use Rattle.reader_tests.specs.Trial.{trial_names};

use crate::trial::{Trial, name_of, respond};
use fixed_macros::Fixed;
use lisp_object::{Bytes, Datum, Items};
use readtable_core::{FnName, Readtable};
use std::alloc::{AllocError, Global};
use std::test::Fail;
use user_macros::example::{Notes, note};
use user_macros::{
    Answer, Call, Cause, Gathered, MacroFn, MacroFunctions, Macros, RegistryRefusal,
};

// A call in which two objects were gathered.
#[tactic(auto, using(lisp_object::proofs::Properness::proper_laws))]
fn call_of_two(alloc: Global) -> Result<Call, AllocError>
    ensures { IfOk result IsSoundCall }
{
    let mut items = Items::new(alloc);
    items.push(Datum::Integer(1))?;
    items.push(Datum::Char(65))?;
    Ok(Call {
        character: b'[',
        sub: None,
        number: None,
        gathered: Gathered::Many(items),
    })
}

// A call in which characters were gathered.
fn call_of_text(alloc: Global) -> Result<Call, AllocError>
    ensures { IfOk result IsSoundCall }
{
    Ok(Call {
        character: b'!',
        sub: None,
        number: Some(7),
        gathered: Gathered::Text(Bytes::from_slice(alloc, b"abc")?),
    })
}

// Whether a closure that is registered under the name, and the function with no closure, gather and answer alike.
fn are_alike(alloc: Global, name: FnName) -> Result<bool, Fail>
    requires known { IsTrue (is_among trial_names name) }
{
    let fixed = Fixed::new(alloc, Trial::new());
    let mut macros = Macros::new(alloc, Trial::new());
    let function: MacroFn = Box::new(
        alloc,
        move |call: Call| -> Result<Answer, AllocError>
            requires { IsSoundCall call }
        { respond(alloc, &call) },
    )?;
    if let Err(refusal) = macros.register(name, function) {
        return Err(refusal.cause.into());
    }
    if macros.gather_of(name).is_none() || macros.gather_of(name) != fixed.gather_of(name) {
        return Ok(false);
    }
    if macros.call(name, call_of_two(alloc)?)? != fixed.call(name, call_of_two(alloc)?)? {
        return Ok(false);
    }
    Ok(macros.call(name, call_of_text(alloc)?)? == fixed.call(name, call_of_text(alloc)?)?)
}

#[test]
fn both_answer_alike(rt: HostRuntime) -> Result<(), Fail> {
    let alloc = rt.alloc();
    assert!(rt; are_alike(alloc, name_of(b"NONE"))?);
    assert!(rt; are_alike(alloc, name_of(b"UNTIL"))?);
    assert!(rt; are_alike(alloc, name_of(b"TEXT"))?);
    Ok(())
}

#[test]
fn both_cover_alike(rt: HostRuntime) -> Result<(), Fail> {
    let alloc = rt.alloc();
    let name = FnName::new(b"NOTE").unwrap();
    let function: MacroFn = Box::new(alloc, move |_call: Call| note(alloc))?;
    let mut macros = Macros::new(alloc, Notes::new());
    if let Err(refusal) = macros.register(name, function) {
        return Err(refusal.cause.into());
    }
    let fixed = Fixed::new(alloc, Notes::new());
    assert!(rt; macros.is_whole() && fixed.is_whole());
    let mut table = Readtable::standard(alloc)?;
    table.set_macro(b'[', name, false);
    assert!(rt; macros.covers(&table) && fixed.covers(&table));
    table.set_macro(b']', FnName::new(b"OTHER").unwrap(), false);
    assert!(rt; !macros.covers(&table) && !fixed.covers(&table));
    Ok(())
}

// Under a reserved name, an unknown one and one that is taken a function is refused, and given back.
#[test]
fn what_is_refused_is_given_back(rt: HostRuntime) -> Result<(), Fail> {
    let alloc = rt.alloc();
    let name = FnName::new(b"NOTE").unwrap();
    let function: MacroFn = Box::new(alloc, move |_call: Call| note(alloc))?;
    let mut macros = Macros::new(alloc, Notes::new());
    let Err(refusal) = macros.register(FnName::new(b"STD-LIST").unwrap(), function) else {
        return Err(Fail::from("a reserved name"));
    };
    assert!(rt; refusal.cause == Cause::Reserved);
    let RegistryRefusal { cause: _, function } = refusal;
    let Err(refusal) = macros.register(FnName::new(b"FOO").unwrap(), function) else {
        return Err(Fail::from("an unknown name"));
    };
    assert!(rt; refusal.cause == Cause::Unknown);
    let RegistryRefusal { cause: _, function } = refusal;
    if let Err(refusal) = macros.register(name, function) {
        return Err(refusal.cause.into());
    }
    let again: MacroFn = Box::new(alloc, move |_call: Call| note(alloc))?;
    let Err(refusal) = macros.register(name, again) else {
        return Err(Fail::from("a taken name"));
    };
    assert!(rt; refusal.cause == Cause::Taken);
    let RegistryRefusal { cause: _, function } = refusal;
    assert!(rt; function(call_of_text(alloc)?)? == Answer::Nothing);
    Ok(())
}
