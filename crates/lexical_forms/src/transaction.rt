//! A form as one transaction.
ghost use Rattle.std.specs.Prelude.{◌≡◌, ◌∷◌, ◌++◌, [], IfOk, IfErr};
ghost use Rattle.lisp_object.specs.Datum.{object_of};
ghost use Rattle.lisp_operators.specs.EvaluationAnswers.{Answers, done, IsArgument};
ghost use Rattle.lisp_operators.specs.Readtables.{AreFunctionNames};
ghost use Rattle.form_eval.specs.Laws.{MayEvaluate};
ghost use Rattle.lexical_forms.specs.WithFunctions.{accept_lexically, accept_with_functions};

use crate::attempt::attempt;
use crate::wanting::wants_function;
use form_eval::{ReadForm, are_names};
use lisp_operators::{Evaluated, EvaluationError, either};
use plist_state::World;
use readtable_core::FnName;
use std::alloc::Global;
use user_macros::Meaning;

/// Accepts a form: as `form_eval::accept` does, and where this is refused for want of an operator or a macro function, in the language
/// with functions. Gives its value, and whether anything in the world was written. Asks for what `form_eval::accept` asks for. The world
/// keeps one mark more, of itself as it was before the form.
///
/// # Errors
/// Those of `form_eval::accept`, 48 where calls are too deep in one another, and 49 where the form takes too many steps. The world is then
/// as it was, its marks too.
pub fn accept<M: Meaning>(
    alloc: Global,
    world: &mut World,
    macros: &M,
    form: &ReadForm,
) -> Result<Evaluated, EvaluationError>
    requires form { MayEvaluate world.old.0.packages form.now }
    ensures gives { Answers done result world.new.0
        (accept_with_functions M.functions.names world.old.0 (object_of form.now.datum)) }
    ensures value { IfOk result (λ e. IsArgument world.new.0.packages e.value) }
    ensures marked { IfOk result (λ _. world.new.1 ≡ world.old.1 ++ world.old.0 ∷ []) }
    ensures unchanged { IfErr result (λ _. world.new ≡ world.old) }
{
    match form_eval::accept(alloc, world, macros, form) {
        Ok(evaluated) => Ok(evaluated),
        Err(error) => {
            if !wants_function(error) {
                return Err(error);
            }
            let names = macros.names();
            are_names(names);
            let datum = form.datum.copy(alloc)?;
            let known = form.known;
            accept_again(alloc, world, names, ReadForm { datum, known })
        }
    }
}

/// A form as a transaction in the language with functions.
pub(crate) fn accept_again(
    alloc: Global,
    world: &mut World,
    names: &[FnName],
    form: ReadForm,
) -> Result<Evaluated, EvaluationError>
    requires names { AreFunctionNames names.now }
    requires form { MayEvaluate world.old.0.packages form }
    ensures gives { Answers done result world.new.0
        (accept_lexically names.now world.old.0 (object_of form.datum)) }
    ensures value { IfOk result (λ e. IsArgument world.new.0.packages e.value) }
    ensures marked { IfOk result (λ _. world.new.1 ≡ world.old.1 ++ world.old.0 ∷ []) }
    ensures unchanged { IfErr result (λ _. world.new ≡ world.old) }
{
    match attempt(alloc, world, names, form) {
        Ok((interned, evaluated)) => Ok(Evaluated {
            value: evaluated.value,
            wrote: either(interned, evaluated.wrote),
        }),
        Err(error) => Err(error),
    }
}
