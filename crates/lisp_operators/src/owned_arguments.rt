//! The arguments of an operator, for it to keep: so many of them. Takes no memory.
ghost use Rattle.std.specs.Prelude.{◌<◌, [], ◌∷◌, All};
ghost use Rattle.lisp_operators.specs.EvaluationAnswers.{IsArgument, AreExactly, AreAtLeast, WhereArguments};

use crate::EvaluationError;
use crate::EvaluationError::Refused;
use lisp_object::Datum;
use lisp_object::refusal::ARGUMENT_KIND;

// The first argument, and those after it.
fn first(mut values: Vec<Datum>) -> Result<(Datum, Vec<Datum>), EvaluationError>
    ensures value { AreAtLeast 1 (λ p. p.0 ∷ p.1.items) values.items result }
    ensures arguments { WhereArguments values.items result
        (λ u p. IsArgument u p.0 × All (IsArgument u) p.1.items) }
{
    if values.is_empty() {
        return Err(Refused(ARGUMENT_KIND));
    }
    let head = values.remove(0);
    Ok((head, values))
}

/// The one argument. Refused as `ARGUMENT_KIND` where there is none, or more than one.
pub(crate) fn one(values: Vec<Datum>) -> Result<Datum, EvaluationError>
    ensures value { AreExactly 1 (λ x. x ∷ []) values.items result }
    ensures arguments { WhereArguments values.items result (λ u x. IsArgument u x) }
{
    let (head, rest) = first(values)?;
    if !rest.is_empty() {
        return Err(Refused(ARGUMENT_KIND));
    }
    Ok(head)
}

/// The first two arguments, and those after them. Refused as `ARGUMENT_KIND` where there are fewer.
pub(crate) fn two_and_rest(
    values: Vec<Datum>,
) -> Result<(Datum, Datum, Vec<Datum>), EvaluationError>
    ensures value { AreAtLeast 2 (λ p. p.0 ∷ p.1 ∷ p.2.items) values.items result }
    ensures arguments { WhereArguments values.items result
        (λ u p. IsArgument u p.0 × IsArgument u p.1 × All (IsArgument u) p.2.items) }
{
    let (head, rest) = first(values)?;
    let (second, rest) = first(rest)?;
    Ok((head, second, rest))
}

/// The two arguments. Refused as `ARGUMENT_KIND` where there are not two.
pub(crate) fn two(values: Vec<Datum>) -> Result<(Datum, Datum), EvaluationError>
    ensures value { AreExactly 2 (λ p. p.0 ∷ p.1 ∷ []) values.items result }
    ensures arguments { WhereArguments values.items result
        (λ u p. IsArgument u p.0 × IsArgument u p.1) }
{
    let (head, rest) = first(values)?;
    Ok((head, one(rest)?))
}

/// The three arguments. Refused as `ARGUMENT_KIND` where there are not three.
pub(crate) fn three(values: Vec<Datum>) -> Result<(Datum, Datum, Datum), EvaluationError>
    ensures value { AreExactly 3 (λ p. p.0 ∷ p.1 ∷ p.2 ∷ []) values.items result }
    ensures arguments { WhereArguments values.items result
        (λ u p. IsArgument u p.0 × IsArgument u p.1 × IsArgument u p.2) }
{
    let (head, rest) = first(values)?;
    let (second, third) = two(rest)?;
    Ok((head, second, third))
}

/// The first three arguments, and those after them. Refused as `ARGUMENT_KIND` where there are fewer.
pub(crate) fn three_and_rest(
    values: Vec<Datum>,
) -> Result<(Datum, Datum, Datum, Vec<Datum>), EvaluationError>
    ensures value { AreAtLeast 3 (λ p. p.0 ∷ p.1 ∷ p.2 ∷ p.3.items) values.items result }
    ensures arguments { WhereArguments values.items result
        (λ u p. IsArgument u p.0 × IsArgument u p.1 × IsArgument u p.2 × All (IsArgument u) p.3.items) }
{
    let (head, rest) = first(values)?;
    let (second, third, rest) = two_and_rest(rest)?;
    Ok((head, second, third, rest))
}
