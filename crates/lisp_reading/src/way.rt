//! Calls of macro functions, and the ways in which they gather.
use readtable_core::FnName;
use std_macros::Standard;

/// The function that a macro character or a sub-character calls.
#[derive(Clone, Copy)]
pub enum Function {
    /// One of the standard readtable.
    Standard(Standard),
    /// One of a user, by its name.
    User(FnName),
}

/// What a function gathers after its character.
#[derive(Clone, Copy)]
pub enum Way {
    /// Nothing.
    Nothing,
    /// One object.
    Next,
    /// Objects to a closing parenthesis, where after one of them a dot and a last object may come.
    List,
    /// Objects to this character.
    Until(u8),
    /// Characters to this one, which is looked for first; a single escape is dropped, and the character after it kept.
    Text(u8),
    /// Characters to a newline, which is taken, or to the end of the input.
    Line(Keep),
    /// Characters to the matching bar and sharpsign, which are dropped.
    Block,
    /// A token.
    Token,
    /// A token whose first character is taken as an escaped one.
    EscapedToken,
}

/// Whether the characters of a line are gathered.
#[derive(Clone, Copy)]
pub enum Keep {
    Kept,
    Dropped,
}
