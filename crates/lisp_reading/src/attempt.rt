//! What an attempt at an object comes to.
use crate::held_objects::HeldObject;

/// What an attempt at an object comes to. The tests say whether its last part is a token: then one whitespace character that
/// ended it is discarded with it.
#[derive(Drop)]
pub enum Found {
    /// Only discarded text.
    Nothing(bool),
    /// An object.
    One(bool, HeldObject),
    /// A token of one dot.
    LoneDot,
    /// The end of the input.
    TheEnd,
}
