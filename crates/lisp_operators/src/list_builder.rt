//! LIST, a value at a time: the values are held while they may be one list.
ghost use Rattle.std.specs.Prelude.{◌<◌, ◌++◌, [], ◌∷◌, List, IfOk};
ghost use Rattle.lisp_object.specs.Object.{Object, object_depth};
ghost use Rattle.lisp_object.specs.Datum.{object_of};
ghost use Rattle.lisp_operators.specs.declared.list_builder.ListBuilder.TheVariants.{Within};
ghost use Rattle.lisp_operators.specs.ListBuilder.{HoldsList, AnswersList};
ghost use Rattle.lisp_operators.specs.EvaluationAnswers.{IsProper};

use crate::EvaluationError::Refused;
use crate::sizes::size_of;
use crate::values::{LARGEST_SIZE, is_too_deep_within};
use crate::{Evaluated, EvaluationError};
use lisp_object::Datum;
use lisp_object::refusal::{LIMIT, VALUE_TOO_DEEP};
use std::alloc::{AllocError, Global};

/// The values of LIST so far, or why no list begins with them. Of those that are too deep or too large together none is held.
#[derive(Debug, Drop)]
pub enum ListBuilder {
    /// These values, and their sizes together.
    Within { values: Vec<Datum>, size: u64 },
    /// One of them has too many levels.
    TooDeep,
    /// None has too many levels, and they are too large together.
    TooLarge,
}

impl ListBuilder {
    /// Before the first value.
    pub fn new(alloc: Global) -> ListBuilder
        ensures { HoldsList [] result }
    {
        ListBuilder::Within {
            values: Vec::new(alloc),
            size: 0,
        }
    }

    /// With one value more. Where that has too many levels, or all are too large together, none is held from then on. Only memory
    /// may run out.
    pub fn with(self, value: Datum) -> Result<ListBuilder, AllocError>
        requires { IsProper value }
        ensures { (xs : List Object) → HoldsList xs self
            → IfOk result (HoldsList (xs ++ object_of value ∷ [])) }
    {
        if is_too_deep_within(&value) {
            return Ok(ListBuilder::TooDeep);
        }
        match self {
            ListBuilder::Within { values, size } => extended(values, size, value),
            ListBuilder::TooDeep => Ok(ListBuilder::TooDeep),
            ListBuilder::TooLarge => Ok(ListBuilder::TooLarge),
        }
    }

    /// The list of the values so far. Refused with `VALUE_TOO_DEEP` if one of them has too many levels, and else with `LIMIT` if they are
    /// too large together.
    pub fn list(self, alloc: Global) -> Result<Evaluated, EvaluationError>
        ensures { (xs : List Object) → HoldsList xs self → AnswersList xs result }
    {
        match self {
            ListBuilder::Within { values, .. } => Ok(Evaluated {
                value: Datum::list(alloc, values, None)?,
                wrote: false,
            }),
            ListBuilder::TooDeep => Err(Refused(VALUE_TOO_DEEP)),
            ListBuilder::TooLarge => Err(Refused(LIMIT)),
        }
    }
}

// These values of this size, and one more that has not too many levels.
fn extended(mut values: Vec<Datum>, size: u64, value: Datum) -> Result<ListBuilder, AllocError>
    requires value { IsProper value }
    requires depth { object_depth (object_of value) < 100 }
    ensures { (xs : List Object) → HoldsList xs (Within values size)
        → IfOk result (HoldsList (xs ++ object_of value ∷ [])) }
{
    let size = size.saturating_add(size_of(&value));
    if size >= LARGEST_SIZE {
        return Ok(ListBuilder::TooLarge);
    }
    values.push(value)?;
    Ok(ListBuilder::Within { values, size })
}
