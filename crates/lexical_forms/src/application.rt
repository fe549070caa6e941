//! A form as one transaction, where its value is not asked for.
ghost use Rattle.std.specs.Prelude.{◌≡◌, ◌∷◌, ◌++◌, [], IfOk, IfErr};
ghost use Rattle.lisp_object.specs.Datum.{object_of};
ghost use Rattle.lisp_operators.specs.Effects.{Leaves};
ghost use Rattle.form_eval.specs.Laws.{MayEvaluate};
ghost use Rattle.lexical_forms.specs.WithFunctions.{accept_with_functions};

use crate::transaction::accept_again;
use crate::wanting::wants_function;
use form_eval::{ReadForm, apply_keeping, are_names};
use lisp_operators::EvaluationError;
use plist_state::World;
use std::alloc::Global;
use user_macros::Meaning;

/// Does what `accept` does, where the value is not asked for. Gives whether anything in the world was written. Asks for what
/// `accept` asks for. A literal that SETF of a property puts there is moved out of the form.
///
/// # Errors
/// Those of `accept`. The world is then as it was, its marks too.
pub fn apply<M: Meaning>(
    alloc: Global,
    world: &mut World,
    macros: &M,
    form: ReadForm,
) -> Result<bool, EvaluationError>
    requires form { MayEvaluate world.old.0.packages form }
    ensures gives { Leaves result world.new.0
        (accept_with_functions M.functions.names world.old.0 (object_of form.datum)) }
    ensures marked { IfOk result (λ _. world.new.1 ≡ world.old.1 ++ world.old.0 ∷ []) }
    ensures unchanged { IfErr result (λ _. world.new ≡ world.old) }
{
    let known = form.known;
    match apply_keeping(alloc, world, macros, form) {
        Ok(wrote) => Ok(wrote),
        Err(refused) => {
            let (error, back) = refused;
            match back {
                None => Err(error),
                Some(datum) => {
                    if !wants_function(error) {
                        return Err(error);
                    }
                    let names = macros.names();
                    are_names(names);
                    match accept_again(alloc, world, names, ReadForm { datum, known }) {
                        Ok(evaluated) => Ok(evaluated.wrote),
                        Err(error) => Err(error),
                    }
                }
            }
        }
    }
}
