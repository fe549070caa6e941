//! T and NIL.
ghost use Rattle.std.specs.Prelude.{◌≡◌, IfOk};
ghost use Rattle.lisp_object.specs.Datum.{object_of};
ghost use Rattle.lisp_operators.specs.EvaluationAnswers.{IsProper};
ghost use Rattle.value_functions.specs.FunctionAnswers.{truth_value};

use lisp_object::{Bytes, Datum};
use package_table::standardized::COMMON_LISP;
use std::alloc::{AllocError, Global};

/// T for true, and NIL for false.
pub(crate) fn truth_value(alloc: Global, is: bool) -> Result<Datum, AllocError>
    ensures value { IfOk result (λ d. object_of d ≡ truth_value is) }
    ensures proper { IfOk result IsProper }
{
    if !is {
        return Datum::nil(alloc);
    }
    Ok(Datum::Symbol {
        package: Bytes::from_slice(alloc, COMMON_LISP)?,
        name: Bytes::from_slice(alloc, b"T")?,
    })
}
