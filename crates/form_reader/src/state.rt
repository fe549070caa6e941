//! Where a reader is in its innermost call, and what a byte brings.

use crate::token::BegunScan;
use lisp_reading::{Found, HeldCharacter, HeldNumber, HeldText, Invoked};
use token_scan::TokenScan;

/// Where a reader is in its innermost call.
#[derive(Drop)]
pub enum State {
    /// Where an object may begin.
    Object,
    /// In a token that is an object.
    Token(BegunScan),
    /// In the token of a call.
    CallToken(Invoked, TokenScan),
    /// In a text.
    Text(OpenText),
    /// After an escape in a text.
    Escaped(OpenText),
    /// In a line.
    Line(Invoked, HeldText),
    /// In a block: how many blocks are open inside it, and the byte before, if it may begin a pair.
    Block(Invoked, (usize, u8)),
    /// After this dispatching character, in the number.
    Number(HeldCharacter, HeldNumber),
}

/// The text of a call, up to its terminator, as far as it is gathered.
#[derive(Drop)]
pub struct OpenText {
    pub call: Invoked,
    pub terminator: u8,
    pub text: HeldText,
}

/// What a call or a byte brings, also after the open calls took what was found.
#[derive(Drop)]
pub enum Event {
    /// More bytes are gathered.
    Open(State),
    /// The attempt comes to this: the innermost, or the outermost after the open calls took what was found.
    Gives(Found),
    /// The number of a refusal, and its offset.
    Refused(u16, usize),
}

/// What a byte brings: after it where it is taken, before it where it ended a token.
#[derive(Drop)]
pub enum Moved {
    After(Event),
    Before(Event),
}
