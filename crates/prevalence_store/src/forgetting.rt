// FORGET-NAMES: the names go that nothing needs.
ghost use Rattle.std.specs.Prelude.{◌≡◌, ◌∷◌, ◌++◌, ◌&&◌, [], true, bytes_eq, codes, nat_lt, pos, IfErr, IfOk, OnErr, OnOk};
ghost use Rattle.evaluator.specs.Operators.{pazturrok};
ghost use Rattle.lisp_object.specs.Datum.{is_proper, object_of};
ghost use Rattle.lisp_object.specs.Object.{integer};
ghost use Rattle.package_table.specs.Table.{Table};
ghost use Rattle.lisp_operators.specs.EvaluationAnswers.{Answers, IsArgument, done};
ghost use Rattle.forgotten_names.specs.WorldsWithoutNames.{without_unneeded_symbols};
ghost use Rattle.prevalence_store.specs.meaning.Forgetting.{counting, forgettable_count, forgetting, held_symbols, is_forget_names, is_forgetting};

use crate::whole_macros::WholeMacros;
use forgotten_names::forget;
use form_eval::{Evaluated, EvaluationError};
use lisp_object::{Bytes, Datum};
use plist_state::World;
use std::alloc::{AllocError, Global};
use user_macros::MacroFunctions;

/// Whether a form is FORGET-NAMES without arguments.
pub(crate) fn is_forgetting(form: &Datum) -> bool
    requires { is_proper form.now ≡ true }
    ensures { result ≡ is_forgetting (object_of form.now) }
{
    match form {
        Datum::List { items, tail } => {
            if tail.is_some() {
                return false;
            }
            let items = items.as_slice();
            if items.len() != 1 {
                return false;
            }
            is_forget_names(&items[0])
        }
        Datum::Integer(_) => false,
        Datum::Rational(_) => false,
        Datum::Char(_) => false,
        Datum::Text(_) => false,
        Datum::Symbol { .. } => false,
        Datum::Uninterned(_) => false,
        Datum::Vector(_) => false,
    }
}

// Whether it is the symbol FORGET-NAMES of PAZTURROK.
fn is_forget_names(head: &Datum) -> bool
    requires { is_proper head.now ≡ true }
    ensures { result ≡ is_forget_names (object_of head.now) }
{
    match head {
        Datum::Symbol { package, name } => is_its_name(package, name),
        Datum::List { .. } => false,
        Datum::Integer(_) => false,
        Datum::Rational(_) => false,
        Datum::Char(_) => false,
        Datum::Text(_) => false,
        Datum::Uninterned(_) => false,
        Datum::Vector(_) => false,
    }
}

// Whether a symbol of this home and name is FORGET-NAMES of PAZTURROK.
fn is_its_name(home: &Bytes, name: &Bytes) -> bool
    ensures { result ≡ (bytes_eq home.now pazturrok && bytes_eq name.now (codes "FORGET-NAMES")) }
{
    home.as_slice() == b"PAZTURROK".as_slice() && name.as_slice() == b"FORGET-NAMES".as_slice()
}

/// Takes the names away that nothing needs, and gives how many they are. The world keeps one mark more, of itself as it was.
///
/// # Errors
/// `OutOfMemory`. The world is then as it was, its marks too.
pub(crate) fn forget_names<R: MacroFunctions>(
    alloc: Global,
    world: &mut World,
    macros: &WholeMacros<R>,
) -> Result<Evaluated, EvaluationError>
    ensures gives { Answers done result world.new.0 (forgetting world.old.0) }
    ensures value { IfOk result (λ e. IsArgument world.new.0.packages e.value) }
    ensures marked { IfOk result (λ _. world.new.1 ≡ world.old.1 ++ world.old.0 ∷ []) }
    ensures unchanged { IfErr result (λ _. world.new ≡ world.old) }
{
    let count = count_forgettable(alloc, world)?;
    leave_out(alloc, world, macros, count)?;
    Ok(told(count))
}

/// The same as a question: it gives how many there are, and tells whether any would go. The world stays, and keeps one mark more.
///
/// # Errors
/// `OutOfMemory`. The world is then as it was, its marks too.
pub(crate) fn count_names(alloc: Global, world: &mut World) -> Result<Evaluated, EvaluationError>
    ensures gives { Answers done result world.new.0 (counting world.old.0) }
    ensures value { IfOk result (λ e. IsArgument world.new.0.packages e.value) }
    ensures marked { IfOk result (λ _. world.new.1 ≡ world.old.1 ++ world.old.0 ∷ []) }
    ensures unchanged { IfErr result (λ _. world.new ≡ world.old) }
{
    let count = count_forgettable(alloc, world)?;
    world.mark()?;
    Ok(told(count))
}

// How many symbols nothing needs.
fn count_forgettable(alloc: Global, world: &World) -> Result<usize, AllocError>
    ensures { IfOk result (λ n. n ≡ forgettable_count world.now.0) }
{
    let held: [(&[u8], &[u8]); 1] = [(b"COMMON-LISP-USER", b"position")];
    forgotten_names::forgettable_count(alloc, world, &held)
}

// Leaves so many names out, which are all that nothing needs. Where there are none, the world is made no second time.
fn leave_out<R: MacroFunctions>(
    alloc: Global,
    world: &mut World,
    macros: &WholeMacros<R>,
    count: usize,
) -> Result<(), AllocError>
    requires count { count ≡ forgettable_count world.old.0 }
    ensures left { OnOk result (world.new.0 ≡ without_unneeded_symbols held_symbols world.old.0) }
    ensures marked { OnOk result (world.new.1 ≡ world.old.1 ++ world.old.0 ∷ []) }
    ensures unchanged { OnErr result (world.new ≡ world.old) }
{
    if count == 0 {
        world.mark()?;
        return Ok(());
    }
    let held: [(&[u8], &[u8]); 1] = [(b"COMMON-LISP-USER", b"position")];
    let other = forget(alloc, world, &held, &macros.functions, macros.seed)?;
    world.put_in_place(other)
}

// This number as a value, and whether any name is counted.
fn told(count: usize) -> Evaluated
    ensures value { object_of result.value ≡ integer (pos count) }
    ensures argument { (packages : Table) → IsArgument packages result.value }
    ensures wrote { result.wrote ≡ nat_lt 0 count }
{
    Evaluated {
        value: Datum::Integer(count as i128),
        wrote: count > 0,
    }
}
