//! What a form gives.
ghost use Rattle.std.specs.Prelude.{◌≡◌, ◌||◌};

use lisp_object::Datum;

/// The value of a form, and whether the form wrote anything.
#[derive(Debug, Drop)]
pub struct Evaluated {
    /// The value.
    pub value: Datum,
    /// Whether anything in the world was written.
    pub wrote: bool,
}

/// Whether one of the two holds.
pub fn either(a: bool, b: bool) -> bool
    ensures { result ≡ (a || b) }
{
    a || b
}
