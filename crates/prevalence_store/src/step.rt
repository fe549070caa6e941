// The steps of a run.

use session_words::Mode;

/// A step of `Store::run`.
#[derive(Clone, Copy, Debug, PartialEq, Eq)]
pub enum Step<'a> {
    /// `execute` of this text.
    Form(Mode, &'a [u8]),
    /// `snapshot`.
    Snapshot,
}
