//! Properties: indicators with values beside them.
use lisp_object::Datum;

/// A property, as it is kept: the number of its indicator, and the value beside it. Its order is greater than that of each
/// property before it that was in the row when it came.
#[derive(Drop)]
pub struct NumberedProperty {
    pub indicator: u32,
    pub order: u64,
    pub value: Datum,
}
