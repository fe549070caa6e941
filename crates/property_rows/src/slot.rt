//! The slots of rows.
use lisp_object::Datum;

/// A property, or what is left where one was.
#[derive(Drop)]
pub(crate) struct Slot {
    pub(crate) indicator: u32,
    /// Twice the number of slots that are gone in the tree before it, and one more where it is gone itself.
    pub(crate) gone: u32,
    pub(crate) order: u64,
    pub(crate) value: Datum,
}
