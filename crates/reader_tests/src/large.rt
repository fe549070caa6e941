//! Answers past a limit: a list too deep, a name too long, a vector too large.
ghost use Rattle.std.specs.Prelude.{◌≡◌, IfOk};
ghost use Rattle.lisp_object.specs.Object.{list_of, vector};
ghost use Rattle.user_macros.specs.Calls.{answer_of, value};
ghost use Rattle.reader_tests.specs.Large.{long_symbol, nested, ones};

use crate::trial::symbol;
use lisp_object::{Datum, Items};
use std::alloc::{AllocError, Global};
use user_macros::Answer;

/// 101 lists in one another.
pub fn too_deep(alloc: Global) -> Result<Answer, AllocError>
    ensures { IfOk result (λ a. answer_of a ≡ value (nested 101)) }
{
    let mut datum = Datum::nil(alloc)?;
    for _ in 0..101usize {
        datum = Datum::list(alloc, vec![in alloc; datum]?, None)?;
    }
    Ok(Answer::One(datum))
}

/// A vector of 1,000,000 integers.
pub fn too_large(alloc: Global) -> Result<Answer, AllocError>
    ensures { IfOk result (λ a. answer_of a ≡ value (vector (list_of (ones 1000000)))) }
{
    let mut items = Items::new(alloc);
    for _ in 0..1_000_000usize {
        items.push(Datum::Integer(1))?;
    }
    Ok(Answer::One(Datum::Vector(items)))
}

/// A symbol of COMMON-LISP-USER whose name has 4,097 letters.
pub fn too_long(alloc: Global) -> Result<Answer, AllocError>
    ensures { IfOk result (λ a. answer_of a ≡ value long_symbol) }
{
    symbol(alloc, b"COMMON-LISP-USER", &[b'A'; 4_097])
}
