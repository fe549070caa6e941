//! A form that was read.

use lisp_object::Datum;

/// A form that was read.
#[derive(Drop)]
pub struct ReadForm {
    /// What was read.
    pub datum: Datum,
    /// Whether each of its symbols is known to be there, so that none is looked up.
    pub known: bool,
}
