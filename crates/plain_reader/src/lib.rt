//! Plain forms, read by recursion.
//!
//! A plain form is a list that is written with parentheses, quotes, tokens and texts without escapes, and whitespace, under the
//! standard functions of these characters. `read_plain` gives the form that a text begins with, if it is one, and else says
//! nothing: so whoever calls it needs a reader of all forms beside it. What it gives is what `lisp_reading` defines, whatever
//! the functions of users are, and whatever follows the text.
//!
//! `read_setf` gives what `(SETF (GET 'S 'I) literal)` says, the names as they stand in the text and the literal, so that whoever
//! replays such a text can carry it out without a datum of it. `read_get` gives the names of `(GET 'S 'I)`.
//!
//! - specs/Coming.antt: how reading goes on at the front of a text; specs/Plain.antt: what each call takes from it;
//!   specs/Tokens.antt: tokens without escapes; specs/Written.antt: GET and SETF by the names that stand in a text
//!
//! - `plain`: `PlainForm`, `read_plain`, `ReadSetf`, `read_setf`, `ReadGet`, `read_get`
//! - `property_forms`: where a text begins with GET of a property, or with SETF of one
//! - `literals`: what SETF puts there; `literal`: `Literal`
//! - `context`: what reading is handed
//! - `objects`: lists, quoted objects, texts
//! - `tokens`: where a token ends, and what it means; `words`: names and integers that are seen from their bytes
#![tactic(auto)]

mod context;
mod literal;
mod literals;
mod objects;
mod plain;
mod property_forms;
mod tokens;
mod words;

pub use literal::Literal;
pub use plain::{PlainForm, ReadGet, ReadSetf, read_get, read_plain, read_setf};
