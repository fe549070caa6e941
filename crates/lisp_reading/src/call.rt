//! The call that invoked a function.
ghost use Rattle.std.specs.Prelude.{◌≡◌, ◌<◌, ◌≤◌, Some, None, IfSome};
ghost use Rattle.lisp_reading.specs.InvokedCalls.{caller, keep_of};

use crate::way::{Function, Keep};
use std::marker::Model;

/// The call that invoked a function: the function, the macro character, the sub-character in upper case and the number.
#[derive(Drop)]
pub struct Invoked {
    function: Function,
    character: u8,
    sub: Option<u8>,
    number: Option<u32>,
}

impl Model for Invoked {
    ghost use Rattle.std.specs.Prelude.{◌<◌, ◌≤◌, IfSome};
    ghost use Rattle.lisp_reading.specs.InvokedCalls.{InvokedCall};

    ghost Value = { InvokedCall };

    ghost view = { λ i. record { function = i.function; character = i.character; sub = i.sub; number = i.number } };

    ghost invariant = { λ i. (i.character < 128) × IfSome i.sub (λ s. s < 128) × IfSome i.number (λ n. n ≤ 999999) };
}

impl Invoked {
    /// A call of a macro character.
    pub fn of_macro(function: Function, character: u8) -> Invoked
        requires { character < 128 }
        ensures { result
            ≡ record { function = function; character = character; sub = None; number = None } }
    {
        Invoked {
            function,
            character,
            sub: None,
            number: None,
        }
    }

    /// A call of a sub-character, which is in upper case.
    pub fn of_sub(function: Function, character: u8, sub: u8, number: Option<u32>) -> Invoked
        requires character { character < 128 }
        requires sub { sub < 128 }
        requires number { IfSome number (λ n. n ≤ 999999) }
        ensures { result
            ≡ record { function = function; character = character; sub = Some sub; number = number } }
    {
        Invoked {
            function,
            character,
            sub: Some(sub),
            number,
        }
    }

    /// The function.
    pub fn function(&self) -> Function
        ensures { result ≡ self.now.function }
    {
        self.function
    }

    /// The macro character.
    pub fn character(&self) -> u8
        ensures value { result ≡ self.now.character }
        ensures character { result < 128 }
    {
        self.character
    }

    /// The sub-character.
    pub fn sub(&self) -> Option<u8>
        ensures value { result ≡ self.now.sub }
        ensures character { IfSome result (λ s. s < 128) }
    {
        self.sub
    }

    /// The number.
    pub fn number(&self) -> Option<u32>
        ensures value { result ≡ self.now.number }
        ensures most { IfSome result (λ n. n ≤ 999999) }
    {
        self.number
    }

    /// What its function does with the characters of a line: a function of a user is given them.
    pub fn keep(&self) -> Keep
        ensures { result ≡ keep_of self.now.function }
    {
        match self.function {
            Function::Standard(_) => Keep::Dropped,
            Function::User(_) => Keep::Kept,
        }
    }

    /// The caller: the sub-character where there is one, else the macro character.
    pub fn caller(&self) -> u8
        ensures { result ≡ caller self.now }
    {
        match self.sub {
            Some(sub) => sub,
            None => self.character,
        }
    }
}
