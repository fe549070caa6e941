//! The laws of messages over many calls, above the clauses of `answer_requests`. Each is the contract of a function that does nothing:
//! who calls it has the law in his own proof.
//!
//! - `cuts_change_nothing` (module `cuts`): in which batches requests are answered changes no answer, and of the world its position alone
//!   (`specs/Batches.antt`)
//!
//! Lemmas that crates above use: `Together`, of batches beside one round of all their requests. `Tidy` and `TidyForms` say that
//! no form leaves a property list which is empty, so that a property which is not there is taken out without a trace. `KeptOperators` and
//! `KeptForms`: what holds of each change of property lists and packages holds of each form (`accepted_keeps`).
#![tactic(auto)]

mod cuts;

pub use cuts::cuts_change_nothing;
