// What a session is asked to do.
use crate::mode::Mode;

/// What a session is asked to do.
#[derive(Clone, Copy, Debug, PartialEq, Eq)]
pub struct SessionOptions {
    /// How its forms are read.
    pub mode: Mode,
    /// After so many forms that were logged it takes a snapshot; never if this is 0.
    pub snapshot_every: u64,
    /// After a form that was logged it takes a snapshot if the half in use then has at least 1 MiB, and so many times the bytes that it
    /// had before its first record, which are 16 and its snapshot's text; never if this is 0.
    pub snapshot_ratio: u64,
    /// Whether the first form whose evaluation is refused ends the session.
    pub strict: bool,
    /// Whether the forms that are whole in the bytes that were read are logged together, and answered then.
    pub group: bool,
}
