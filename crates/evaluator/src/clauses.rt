//! The clauses of COND (standard 5.3).
ghost use Rattle.std.specs.Prelude.{◌≡◌, ◌≤◌, length};
ghost use Rattle.lisp_operators.specs.EvaluationAnswers.{IsProper, AreProper};
ghost use Rattle.evaluator.specs.Value.{are_clauses};
ghost use Rattle.evaluator.specs.ArgumentValues.{arguments_in, IsClause};

use lisp_object::Datum;

/// What is in a clause of COND: a list with a test, and then forms.
pub fn clause(form: &Datum) -> Option<&[Datum]>
    requires { IsProper form.now }
    ensures { IsClause form.now result }
{
    match form {
        Datum::List { items, tail } => {
            if tail.is_some() {
                return None;
            }
            Some(items.as_slice())
        }
        Datum::Integer(_) => None,
        Datum::Rational(_) => None,
        Datum::Char(_) => None,
        Datum::Text(_) => None,
        Datum::Symbol { .. } => None,
        Datum::Uninterned(_) => None,
        Datum::Vector(_) => None,
    }
}

/// Whether all arguments of a form are clauses of COND.
pub fn are_clauses(items: &[Datum]) -> bool
    requires counted { 1 ≤ length items.now }
    requires proper { AreProper items.now }
    ensures { result ≡ are_clauses (arguments_in items.now) }
{
    for i in 1..items.len() {
        if clause(&items[i]).is_none() {
            return false;
        }
    }
    true
}
