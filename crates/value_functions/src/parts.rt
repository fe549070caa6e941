//! Lists by their items and what ends them.
ghost use Rattle.std.specs.Prelude.{◌≡◌, IfOk, IfSome};
ghost use Rattle.lisp_object.specs.Object.{pairs};
ghost use Rattle.lisp_object.specs.Datum.{object_of};
ghost use Rattle.lisp_operators.specs.EvaluationAnswers.{IsProper, AreProper, objects};
ghost use Rattle.value_functions.specs.Lists.{past_end};
ghost use Rattle.value_functions.specs.Parts.{end_of, IsListEnd, HasParts};
ghost use Rattle.value_functions.specs.FunctionAnswers.{AnswersValue, if_within};

use lisp_object::Datum;
use lisp_object::refusal::{ARGUMENT_KIND, LIMIT, VALUE_TOO_DEEP};
use lisp_operators::EvaluationError;
use lisp_operators::EvaluationError::Refused;
use std::alloc::{AllocError, Global};

/// The items of a list, and what ends it where that is not NIL; nothing where it is no list.
pub(crate) fn list_parts(datum: &Datum) -> Option<(&[Datum], Option<&Datum>)>
    requires { IsProper datum.now }
    ensures value { HasParts (object_of datum.now) result }
    ensures items { IfSome result (λ p. AreProper p.0.now) }
    ensures end { IfSome result (λ p. IsListEnd p.1) }
{
    match datum {
        Datum::List { items, tail } => match tail {
            Some(tail) => Some((items.as_slice(), Some(tail.get()))),
            None => Some((items.as_slice(), None)),
        },
        _ => {
            if !datum.is_nil() {
                return None;
            }
            Some((&[], None))
        }
    }
}

/// What is given at the end of a list, whose tail is `end`: NIL where it ends in NIL, and else it is refused as
/// `ARGUMENT_KIND`.
pub(crate) fn past_end(alloc: Global, end: Option<&Datum>) -> Result<Datum, EvaluationError>
    requires { IsListEnd end }
    ensures value { AnswersValue result (past_end (end_of end.entry)) }
    ensures proper { IfOk result IsProper }
{
    match end {
        Some(_) => Err(Refused(ARGUMENT_KIND)),
        None => Ok(Datum::nil(alloc)?),
    }
}

/// Copies of these data. It fails only for want of memory.
pub(crate) fn copied(alloc: Global, items: &[Datum]) -> Result<Vec<Datum>, AllocError>
    ensures { IfOk result (λ v. v.items ≡ items.now) }
{
    let mut copies = Vec::with_capacity(alloc, items.len())?;
    for item in items {
        copies.push(item.copy(alloc)?)?;
    }
    Ok(copies)
}

/// The list of copies of these items, which ends in this.
pub(crate) fn copied_list(
    alloc: Global,
    items: &[Datum],
    end: Option<&Datum>,
) -> Result<Datum, AllocError>
    requires items { AreProper items.now }
    requires end { IsListEnd end }
    ensures value { IfOk result (λ d. object_of d ≡ pairs (objects items.now) (end_of end.entry)) }
    ensures proper { IfOk result IsProper }
{
    let copies = copied(alloc, items)?;
    match end {
        Some(end) => Datum::list(alloc, copies, Some(end.copy(alloc)?)),
        None => Datum::list(alloc, copies, None),
    }
}

/// A value that was built, if it is not too deep and not too large. Else it is refused: as `VALUE_TOO_DEEP` first, then
/// as `LIMIT`.
#[tactic(auto, using(lisp_operators::proofs::Shapes::depth_test, lisp_operators::proofs::Shapes::size_test))]
pub(crate) fn within(value: Datum) -> Result<Datum, EvaluationError>
    requires { IsProper value }
    ensures value { AnswersValue result (if_within (object_of value)) }
    ensures proper { IfOk result IsProper }
{
    if value.depth() > 100 {
        return Err(Refused(VALUE_TOO_DEEP));
    }
    if value.size() > 1_000_000 {
        return Err(Refused(LIMIT));
    }
    Ok(value)
}
