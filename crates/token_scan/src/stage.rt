//! Where the next byte of a token is.
use crate::ScanRefusal;

/// Where the next byte of a token is: outside or inside multiple escapes, after a single escape there, or after a refusal,
/// which stays.
#[derive(Clone, Copy, Debug, PartialEq, Eq)]
pub enum Stage {
    Outside,
    Inside,
    EscapedOutside,
    EscapedInside,
    Refused(ScanRefusal),
}
