//! The values of forms that were evaluated one after the other.
ghost use Rattle.std.specs.Prelude.{◌≡◌, [], ◌∷◌, ◌++◌, ◌||◌, false, IfOk};

use lisp_object::Datum;
use lisp_operators::{Evaluated, either};
use std::alloc::{AllocError, Global};

/// The values of forms, and whether these forms wrote anything.
#[derive(Debug, Drop)]
pub(crate) struct Values {
    pub values: Vec<Datum>,
    pub wrote: bool,
}

impl Values {
    /// No values.
    pub(crate) fn none(alloc: Global) -> Values
        ensures values { result.values.items ≡ [] }
        ensures wrote { result.wrote ≡ false }
    {
        Values {
            values: Vec::new(alloc),
            wrote: false,
        }
    }

    /// The one value.
    pub(crate) fn one(alloc: Global, evaluated: Evaluated) -> Result<Values, AllocError>
        ensures { IfOk result (λ v.
            (v.values.items ≡ evaluated.value ∷ []) × (v.wrote ≡ evaluated.wrote)) }
    {
        let mut values = Vec::new(alloc);
        values.push(evaluated.value)?;
        Ok(Values {
            values,
            wrote: evaluated.wrote,
        })
    }

    /// These, and one more.
    pub(crate) fn with(self, evaluated: Evaluated) -> Result<Values, AllocError>
        ensures { IfOk result (λ v.
            (v.values.items ≡ self.values.items ++ evaluated.value ∷ [])
            × (v.wrote ≡ (self.wrote || evaluated.wrote))) }
    {
        let Values { mut values, wrote } = self;
        values.push(evaluated.value)?;
        Ok(Values {
            values,
            wrote: either(wrote, evaluated.wrote),
        })
    }
}
