//! Why a token is refused.

/// Why a token is refused (standard 2.2). A crate above gives each its number.
#[derive(Clone, Copy, Debug, PartialEq, Eq)]
pub enum ScanRefusal {
    /// The input ends after a single escape or between multiple escapes.
    EndOfFile,
    /// A byte over 127, or a character whose syntax type is invalid and that is not escaped.
    InvalidCharacter,
    /// A character outside bars, not escaped, that has the trait invalid.
    InvalidTrait,
    /// More characters than a token may have.
    TokenTooLong,
}
