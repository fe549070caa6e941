//! Why bytes begin with no whole word.

/// What bytes are that begin with no whole frame, or with no whole part of one.
#[derive(Clone, Copy, Debug, PartialEq, Eq)]
pub enum NotWhole {
    /// The beginning of one.
    Begun,
    /// None, however they go on.
    Malformed,
}
