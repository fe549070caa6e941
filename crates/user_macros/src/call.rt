//! What a macro function is given, and what it answers.
use lisp_object::{Bytes, Datum, Items};

/// What a macro function gathers after its macro character before it is called.
#[derive(Clone, Copy, Debug, PartialEq, Eq)]
pub enum Gather {
    /// Nothing.
    Nothing,
    /// One object.
    Next,
    /// Objects up to this character.
    Until(u8),
    /// Characters up to this character. A single escape is dropped, and the character after it is kept.
    Text(u8),
    /// The same, up to the character that called the function.
    TextSame,
    /// Characters up to a newline, which is taken and dropped, or to the end of the input.
    Line,
    /// A token, perhaps empty: its characters without bars and escapes, their case kept.
    Token,
}

/// What was gathered.
#[derive(PartialEq, Eq, Debug, Drop)]
pub enum Gathered {
    /// Nothing was asked for.
    Nothing,
    /// One object.
    One(Datum),
    /// Objects, in order.
    Many(Items<Datum>),
    /// Characters: a text, a line or a token.
    Text(Bytes),
}

/// One call of a macro function.
#[derive(PartialEq, Eq, Debug, Drop)]
pub struct Call {
    /// The macro character, which is a dispatching one where there is a sub-character.
    pub character: u8,
    /// The sub-character, in upper case.
    pub sub: Option<u8>,
    /// The numeric argument, at most 999,999.
    pub number: Option<u32>,
    /// What was gathered.
    pub gathered: Gathered,
}

/// What a macro function answers.
#[derive(PartialEq, Eq, Debug, Drop)]
pub enum Answer {
    /// One object.
    One(Datum),
    /// No object: the reader goes on as if nothing had been there.
    Nothing,
    /// A refusal by a number of the function's own.
    Refused(u16),
}
