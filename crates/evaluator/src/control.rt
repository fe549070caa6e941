//! The operators of control (standard 5.3), and the values of atoms.
ghost use Rattle.std.specs.Prelude.{ℕ, ◌≡◌, ◌≤◌, ◌||◌, ◌&&◌, List, Option, Some, true, bytes_eq, length, IfOk};
ghost use Rattle.lisp_object.specs.Object.{Object, nil};
ghost use Rattle.lisp_object.specs.Datum.{object_of};
ghost use Rattle.package_table.specs.Table.{Name, common_lisp};
ghost use Rattle.plist_state.specs.State.{WorldState};
ghost use Rattle.lisp_operators.specs.ArgumentKinds.{a_symbol};
ghost use Rattle.lisp_operators.specs.Evaluation.{Evaluation, gives, also};
ghost use Rattle.evaluator.specs.Operators.{first};
ghost use Rattle.evaluator.specs.Value.{symbol_value};
ghost use Rattle.evaluator.specs.ArgumentValues.{arguments_in, Evaluates, HasValue};
ghost use Rattle.lisp_operators.specs.EvaluationAnswers.{Answers, done, IsProper, AreProper, IsProperValue};

use lisp_object::Datum;
use lisp_object::refusal::NOT_A_FORM;
use lisp_operators::EvaluationError::Refused;
use lisp_operators::{Evaluated, EvaluationError, either, kinds, values};
use package_table::standardized::{COMMON_LISP, KEYWORD};
use plist_state::World;
use std::alloc::Global;

/// What was evaluated, where something was evaluated before it. What was refused stays refused.
pub(crate) fn after(
    wrote: bool,
    evaluated: Result<Evaluated, EvaluationError>,
) -> Result<Evaluated, EvaluationError>
    ensures gives { (s : WorldState) (o : Evaluation Object)
        → Answers done evaluated s o → Answers done result s (also wrote o) }
    ensures proper { IfOk evaluated IsProperValue → IfOk result IsProperValue }
{
    match evaluated {
        Ok(evaluated) => Ok(Evaluated {
            value: evaluated.value,
            wrote: either(wrote, evaluated.wrote),
        }),
        Err(error) => Err(error),
    }
}

/// An object that is its own value. It fails only where there is no memory for a copy.
pub(crate) fn itself(alloc: Global, form: &Datum) -> Result<Evaluated, EvaluationError>
    requires { IsProper form.now }
    ensures gives { HasValue (object_of form.now) result }
    ensures proper { IfOk result IsProperValue }
{
    Ok(Evaluated {
        value: form.copy(alloc)?,
        wrote: false,
    })
}

/// QUOTE: the argument as it is written.
pub(crate) fn quoted(alloc: Global, items: &[Datum]) -> Result<Evaluated, EvaluationError>
    requires counted { 2 ≤ length items.now }
    requires proper { AreProper items.now }
    ensures gives { HasValue (first (arguments_in items.now)) result }
    ensures proper { IfOk result IsProperValue }
{
    itself(alloc, &items[1])
}

/// PROGN of no forms: NIL.
pub(crate) fn nothing(alloc: Global) -> Result<Evaluated, EvaluationError>
    ensures gives { HasValue nil result }
    ensures proper { IfOk result IsProperValue }
{
    Ok(Evaluated {
        value: values::empty_list(alloc)?,
        wrote: false,
    })
}

// Whether it is the symbol of COMMON-LISP with this name.
fn is_standard_name(home: &[u8], own: &[u8], name: &[u8]) -> bool
    ensures { result ≡ (bytes_eq home.now common_lisp && bytes_eq own.now name.now) }
{
    home == COMMON_LISP && own == name
}

/// The value of a symbol: itself, or that of a variable. Refused as `NOT_A_FORM` where it is no symbol, or the symbol
/// has no value.
pub fn symbol_value(
    alloc: Global,
    world: &World,
    form: &Datum,
) -> Result<Evaluated, EvaluationError>
    requires { IsProper form.now }
    ensures gives { (home name : List ℕ) → a_symbol (object_of form.now) ≡ Some (home, name)
        → Answers done result world.now.0 (symbol_value home name world.now.0) }
    ensures proper { IfOk result IsProperValue }
{
    let Ok((home, name)) = kinds::symbol(form) else {
        return Err(Refused(NOT_A_FORM));
    };
    if home == KEYWORD
        || is_standard_name(home, name, b"T")
        || is_standard_name(home, name, b"NIL")
    {
        return itself(alloc, form);
    }
    world.soundness();
    if is_standard_name(home, name, b"*PACKAGE*") {
        return Ok(Evaluated {
            value: values::text(alloc, world.current_package())?,
            wrote: false,
        });
    }
    if is_standard_name(home, name, b"*READTABLE*") {
        return Ok(Evaluated {
            value: values::keyword(alloc, world.current_readtable())?,
            wrote: false,
        });
    }
    if is_standard_name(home, name, b"*READ-BASE*") {
        return Ok(Evaluated {
            value: Datum::Integer(i128::from(world.read_base())),
            wrote: false,
        });
    }
    Err(Refused(NOT_A_FORM))
}

/// The value of an object that is no list. Refused as `NOT_A_FORM` where it is a symbol without a value, or one of no
/// package.
pub(crate) fn atom(alloc: Global, world: &World, form: &Datum) -> Result<Evaluated, EvaluationError>
    requires proper { IsProper form.now }
    requires atom { (items : List Datum) (tail : Option Datum) → form.now ≡ Datum.List items tail → ⊥ }
    ensures gives { (names : List Name)
        → Evaluates names (object_of form.now) world.now.0 world.now.0 result }
    ensures proper { IfOk result IsProperValue }
{
    match form {
        Datum::Symbol { .. } => symbol_value(alloc, world, form),
        Datum::Uninterned(_) => Err(Refused(NOT_A_FORM)),
        Datum::List { .. } => unreachable!(),
        Datum::Integer(_) => itself(alloc, form),
        Datum::Rational(_) => itself(alloc, form),
        Datum::Char(_) => itself(alloc, form),
        Datum::Text(_) => itself(alloc, form),
        Datum::Vector(_) => itself(alloc, form),
    }
}
