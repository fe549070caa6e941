//! Properties: indicators with values beside them.
use lisp_object::Datum;

/// A property, as a world has it: the home and the name of its indicator, and the value beside it (standard 10.1).
#[derive(Clone, Copy, Debug)]
pub struct Property<'a> {
    pub home: &'a [u8],
    pub name: &'a [u8],
    pub value: &'a Datum,
}
