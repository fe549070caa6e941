//! Why a function is not set at a sub-character.

/// Why a function is not set at a sub-character (standard 2.4.8, 23.2).
#[derive(Clone, Copy, Debug, PartialEq, Eq)]
pub enum DispatchRefusal {
    /// The character is not a dispatching macro character.
    NotDispatching,
    /// The sub-character is a digit, which is part of the numeric argument.
    DigitSubcharacter,
}
