//! A form as one transaction: its symbols are interned, and it is evaluated; where it is refused, nothing of it stays.
//!
//! `specs/` says what a form as a transaction means: `accept` interns its symbols, from left to right, and gives its value (the
//! crate `evaluator`). `laws` proves what holds of every form. The function `accept` does with a `World` exactly what the
//! definition says, and leaves the world as it was where a form is refused.
//!
//! - `read_form`: a form that was read, and whether its symbols are known to be there
//! - `transaction`: `accept`; `application`: `apply`, which does the same and gives no value, and `apply_keeping`, which gives back a form
//!   that is refused for want of a function
//! - `asking`: `question`, the same form as a question, which tells whether its evaluation alone wrote
//! - `symbols`: the symbols of a datum; `interning`: they are interned in their homes
//!
//! # Laws for the crates above
//!
//! - proofs/Accepted.antt: what holds of a form as one transaction: it is silent, sound, covered, or refused under
//!   a number of evaluation.
//! - proofs/KnownSymbols.antt: symbols that are there are interned by changing nothing.
//! - proofs/SoundSymbols.antt: a form whose symbols were interned may be evaluated.
//! - proofs/Applied.antt: what a form comes to as one transaction, from what its evaluation comes to.
#![tactic(auto)]

mod application;
mod asking;
mod interning;
pub mod laws;
mod read_form;
mod symbols;
mod transaction;

pub use application::{apply, apply_keeping};
pub use asking::question;
pub use lisp_operators::{Evaluated, EvaluationError};
pub use read_form::ReadForm;
pub use transaction::{accept, are_names, intern_symbols};
