//! A function is defined and called, and a call of a function that is not there is refused, for tests.
ghost use Rattle.std.specs.Prelude.{◌≡◌, ◌∷◌, [], true, IfOk};
ghost use Rattle.lisp_object.specs.Object.{list_of, symbol};
ghost use Rattle.lisp_object.specs.Ascii.{is_ascii};
ghost use Rattle.lisp_object.specs.Datum.{object_of, is_proper};
ghost use Rattle.std.specs.List.{list_all};
ghost use Rattle.package_table.specs.Table.{IsPresent};
ghost use Rattle.form_eval.specs.Laws.{MayEvaluate};

use form_eval::{EvaluationError, ReadForm};
use kept_functions::PAZTURROK;
use lisp_object::refusal::UNKNOWN_OPERATOR;
use lisp_object::{Bytes, Datum, Items};
use package_table::standardized::{COMMON_LISP, COMMON_LISP_USER};
use plist_state::World;
use std::alloc::{AllocError, Global};
use std::test::Fail;
use user_macros::NoFunctions;

// The symbol of this home and name. Where it is not there, memory is said to have run out.
#[tactic(auto, using(lisp_object::proofs::Objects::object_laws, lisp_object::proofs::Properness::proper_laws))]
fn symbol(alloc: Global, world: &World, home: &[u8], name: &[u8]) -> Result<Datum, AllocError>
    requires home { list_all is_ascii home.now ≡ true }
    requires name { list_all is_ascii name.now ≡ true }
    ensures object { IfOk result (λ d. object_of d ≡ symbol home.now name.now) }
    ensures proper { IfOk result (λ d. is_proper d ≡ true) }
    ensures present { IfOk result (λ _. IsPresent world.now.0.packages home.now name.now home.now) }
{
    if !world.packages().is_symbol(home, name) {
        return Err(AllocError);
    }
    Ok(Datum::Symbol {
        package: Bytes::from_slice(alloc, home)?,
        name: Bytes::from_slice(alloc, name)?,
    })
}

// A list of one item.
#[tactic(auto, using(lisp_object::proofs::Objects::object_laws, lisp_object::proofs::Properness::proper_laws))]
fn list_of_one(alloc: Global, item: Datum) -> Result<Datum, AllocError>
    requires { is_proper item ≡ true }
    ensures object { IfOk result (λ d. object_of d ≡ list_of (object_of item ∷ [])) }
    ensures proper { IfOk result (λ d. is_proper d ≡ true) }
{
    let mut items = Items::new(alloc);
    items.push(item)?;
    Ok(Datum::List { items, tail: None })
}

// A list of two items.
#[tactic(auto, using(lisp_object::proofs::Objects::object_laws, lisp_object::proofs::Properness::proper_laws))]
fn list_of_two(alloc: Global, first: Datum, second: Datum) -> Result<Datum, AllocError>
    requires first { is_proper first ≡ true }
    requires second { is_proper second ≡ true }
    ensures object { IfOk result (λ d. object_of d ≡ list_of (object_of first ∷ object_of second ∷ [])) }
    ensures proper { IfOk result (λ d. is_proper d ≡ true) }
{
    let mut items = Items::new(alloc);
    items.push(first)?;
    items.push(second)?;
    Ok(Datum::List { items, tail: None })
}

// A list of four items.
#[tactic(auto, using(lisp_object::proofs::Objects::object_laws, lisp_object::proofs::Properness::proper_laws))]
fn list_of_four(
    alloc: Global,
    head: Datum,
    name: Datum,
    variables: Datum,
    form: Datum,
) -> Result<Datum, AllocError>
    requires head { is_proper head ≡ true }
    requires name { is_proper name ≡ true }
    requires variables { is_proper variables ≡ true }
    requires form { is_proper form ≡ true }
    ensures object { IfOk result (λ d. object_of d
        ≡ list_of (object_of head ∷ object_of name ∷ object_of variables ∷ object_of form ∷ [])) }
    ensures proper { IfOk result (λ d. is_proper d ≡ true) }
{
    let mut items = Items::new(alloc);
    items.push(head)?;
    items.push(name)?;
    items.push(variables)?;
    items.push(form)?;
    Ok(Datum::List { items, tail: None })
}

// `(DEFUN F (LIST) LIST)`
fn definition(alloc: Global, world: &World) -> Result<ReadForm, AllocError>
    ensures { IfOk result (λ form. MayEvaluate world.now.0.packages form) }
{
    world.soundness();
    let head = symbol(alloc, world, PAZTURROK, b"DEFUN")?;
    let name = symbol(alloc, world, COMMON_LISP_USER, b"F")?;
    let variable = symbol(alloc, world, COMMON_LISP, b"LIST")?;
    let variables = list_of_one(alloc, variable)?;
    let form = symbol(alloc, world, COMMON_LISP, b"LIST")?;
    let datum = list_of_four(alloc, head, name, variables, form)?;
    Ok(ReadForm {
        datum,
        known: false,
    })
}

// `(F #\A)`
fn call(alloc: Global, world: &World) -> Result<ReadForm, AllocError>
    ensures { IfOk result (λ form. MayEvaluate world.now.0.packages form) }
{
    world.soundness();
    let name = symbol(alloc, world, COMMON_LISP_USER, b"F")?;
    let datum = list_of_two(alloc, name, Datum::Char(b'A'))?;
    Ok(ReadForm {
        datum,
        known: false,
    })
}

// The first world, with the package of the operators, DEFUN there, and the symbol F.
fn world_with_name(alloc: Global) -> Result<World, AllocError> {
    let mut world = World::new(alloc)?;
    let Ok(()) = world.make(PAZTURROK) else {
        return Err(AllocError);
    };
    let Ok(_) = world.intern(PAZTURROK, b"DEFUN") else {
        return Err(AllocError);
    };
    match world.intern(COMMON_LISP_USER, b"F") {
        Ok(_) => Ok(world),
        Err(_) => Err(AllocError),
    }
}

// Whether a call is refused where there is no function.
fn is_refused(alloc: Global, world: &mut World) -> Result<bool, AllocError> {
    let form = call(alloc, world)?;
    match crate::accept(alloc, world, &NoFunctions, &form) {
        Ok(_) => Ok(false),
        Err(error) => Ok(matches!(error, EvaluationError::Refused(UNKNOWN_OPERATOR))),
    }
}

// Whether a definition writes.
fn is_defined(alloc: Global, world: &mut World) -> Result<bool, AllocError> {
    let form = definition(alloc, world)?;
    match crate::apply(alloc, world, &NoFunctions, form) {
        Ok(wrote) => Ok(wrote),
        Err(_) => Err(AllocError),
    }
}

// Whether the value of a call is its argument, and nothing is written.
fn is_called(alloc: Global, world: &mut World) -> Result<bool, AllocError> {
    let form = call(alloc, world)?;
    match crate::accept(alloc, world, &NoFunctions, &form) {
        Ok(evaluated) => Ok(!evaluated.wrote && matches!(&evaluated.value, Datum::Char(b'A'))),
        Err(_) => Err(AllocError),
    }
}

// Whether a question with a call is answered with its argument, and writes nothing.
fn is_answered(alloc: Global, world: &mut World) -> Result<bool, AllocError> {
    let form = call(alloc, world)?;
    match crate::question(alloc, world, &NoFunctions, &form) {
        Ok(evaluated) => Ok(!evaluated.wrote && matches!(&evaluated.value, Datum::Char(b'A'))),
        Err(_) => Err(AllocError),
    }
}

/// Whether a call of a function that is not there is refused, and has a value once the function is defined.
fn calls_what_is_defined(alloc: Global) -> Result<bool, AllocError> {
    let mut world = world_with_name(alloc)?;
    Ok(
        is_refused(alloc, &mut world)?
            && is_defined(alloc, &mut world)?
            && is_called(alloc, &mut world)?
            && is_answered(alloc, &mut world)?,
    )
}

#[test]
fn a_function_is_defined_and_called(rt: HostRuntime) -> Result<(), Fail> {
    assert!(rt; calls_what_is_defined(rt.alloc())?);
    Ok(())
}
