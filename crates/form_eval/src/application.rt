//! A form as one transaction, where its value is not asked for.
ghost use Rattle.std.specs.Prelude.{◌≡◌, ◌∷◌, ◌++◌, [], IfOk, IfErr};
ghost use Rattle.lisp_object.specs.Datum.{object_of};
ghost use Rattle.form_eval.specs.Acceptance.{accept};
ghost use Rattle.evaluator.specs.FormsGivenBack.{GivesBack, without_form};
ghost use Rattle.lisp_operators.specs.Effects.{Leaves};
ghost use Rattle.lisp_operators.specs.Readtables.{AreFunctionNames};
ghost use Rattle.form_eval.specs.Laws.{MayEvaluate};

use crate::read_form::ReadForm;
use crate::transaction::{are_names, intern_symbols};
use lisp_object::Datum;
use lisp_operators::{EvaluationError, either};
use plist_state::World;
use readtable_core::FnName;
use std::alloc::Global;
use user_macros::Meaning;

/// Does what `accept` does, where the value is not asked for. Gives whether anything in the world was written. Asks for what
/// `accept` asks for. Where the whole form is SETF or PUSH of a property, neither the value nor a list that is there is copied; nor
/// is a literal, which is moved out of the form.
///
/// # Errors
/// Those of `accept`. The world is then as it was, its marks too.
pub fn apply<M: Meaning>(
    alloc: Global,
    world: &mut World,
    macros: &M,
    form: ReadForm,
) -> Result<bool, EvaluationError>
    requires form { MayEvaluate world.old.0.packages form }
    ensures gives { Leaves result world.new.0
        (accept M.functions.names world.old.0 (object_of form.datum)) }
    ensures marked { IfOk result (λ _. world.new.1 ≡ world.old.1 ++ world.old.0 ∷ []) }
    ensures unchanged { IfErr result (λ _. world.new ≡ world.old) }
{
    match apply_keeping(alloc, world, macros, form) {
        Ok(wrote) => Ok(wrote),
        Err((error, _form)) => Err(error),
    }
}

/// Does what `apply` does. A form that is refused for want of an operator or a macro function comes back beside the refusal.
///
/// # Errors
/// Those of `accept`. The world is then as it was, its marks too.
pub fn apply_keeping<M: Meaning>(
    alloc: Global,
    world: &mut World,
    macros: &M,
    form: ReadForm,
) -> Result<bool, (EvaluationError, Option<Datum>)>
    requires form { MayEvaluate world.old.0.packages form }
    ensures gives { Leaves (without_form result) world.new.0
        (accept M.functions.names world.old.0 (object_of form.datum)) }
    ensures kept { IfErr result (GivesBack form.datum) }
    ensures marked { IfOk result (λ _. world.new.1 ≡ world.old.1 ++ world.old.0 ∷ []) }
    ensures unchanged { IfErr result (λ _. world.new ≡ world.old) }
{
    let names = macros.names();
    are_names(names);
    perform(alloc, world, names, form)
}

// A form as a transaction, whose value is not asked for.
fn perform(
    alloc: Global,
    world: &mut World,
    names: &[FnName],
    form: ReadForm,
) -> Result<bool, (EvaluationError, Option<Datum>)>
    requires names { AreFunctionNames names.now }
    requires form { MayEvaluate world.old.0.packages form }
    ensures gives { Leaves (without_form result) world.new.0
        (accept names.now world.old.0 (object_of form.datum)) }
    ensures kept { IfErr result (GivesBack form.datum) }
    ensures marked { IfOk result (λ _. world.new.1 ≡ world.old.1 ++ world.old.0 ∷ []) }
    ensures unchanged { IfErr result (λ _. world.new ≡ world.old) }
{
    let mark = match world.mark() {
        Ok(mark) => mark,
        Err(_) => return Err((EvaluationError::OutOfMemory, None)),
    };
    match run(alloc, world, names, form) {
        Ok(wrote) => Ok(wrote),
        Err(refused) => {
            world.back_to(mark);
            Err(refused)
        }
    }
}

// Interns the symbols of a form, and does what it says. Where it is refused, or memory runs out, the world is as that left it.
fn run(
    alloc: Global,
    world: &mut World,
    names: &[FnName],
    form: ReadForm,
) -> Result<bool, (EvaluationError, Option<Datum>)>
    requires names { AreFunctionNames names.now }
    requires form { MayEvaluate world.old.0.packages form }
    ensures gives { Leaves (without_form result) world.new.0
        (accept names.now world.old.0 (object_of form.datum)) }
    ensures kept { IfErr result (GivesBack form.datum) }
    ensures marked { world.new.1 ≡ world.old.1 }
{
    world.soundness();
    let interned = match intern_symbols(alloc, world, &form) {
        Ok(interned) => interned,
        Err(error) => return Err((EvaluationError::from(error), None)),
    };
    match evaluator::apply(alloc, world, names, form.datum) {
        Ok(wrote) => Ok(either(interned, wrote)),
        Err(refused) => Err(refused),
    }
}
