//! The operators of PAZTURROK that decide which of their forms are evaluated, or which value is theirs.

/// An operator that decides which of its forms are evaluated (standard 5.3), or which value is its own.
#[derive(Clone, Copy, Debug, PartialEq, Eq)]
pub enum Decision {
    And,
    Or,
    Cond,
    When,
    Unless,
    Prog1,
    Assert,
}
