//! A form as one transaction, or as a question, where functions of the world are known.
//!
//! `specs/` says what such a form means: it is what it is without functions (the crate `form_eval`); where it is refused there for want
//! of an operator or a macro function, it is carried out once more from its beginning in the language with functions (the crate
//! `lexical_evaluation`). Where it is refused, nothing of it stays.
//!
//! - `transaction`: `accept`; `application`: `apply`, which does the same and gives no value; `asking`: `question`
//! - `attempt`: a form in the language with functions, marked, and taken back where it is refused
//! - `wanting`: whether a refusal is for want of a function; `laws`: what holds of every form
//! - `callers`: a caller of each of these laws, and of those of `lexical_evaluation`, for tests
//! - `trials`: a function is defined and called, for tests
//!
//! # Laws for the crates above
//!
//! - proofs/Accepted.antt: what holds of a form as one transaction: it is silent, covered, or refused under a number of evaluation.
#![tactic(auto)]

mod application;
mod asking;
mod attempt;
#[cfg(test)]
mod callers;
pub mod laws;
mod transaction;
#[cfg(test)]
mod trials;
mod wanting;

pub use application::apply;
pub use asking::question;
pub use transaction::accept;
