//! What goes out of a session, and what is stored by then: `serve_recorded` (module `ledger`) serves a session whose output is behind a
//! ledger, which is its only way there. So it is known what went out, one time after the other, and that the forms of it were stored
//! before (`specs/OutgoingLines.antt`).
//!
//! `what_went_out_is_there` (module `law`): from the moment on at which lines went out for the k-th time, a crash leaves the world after
//! all forms of at least k times, and of no time a part.
//!
//! The ledger takes no memory and no time: what it notes is for proofs alone (module `proof_log`).
#![tactic(auto)]

mod law;
mod ledger;
mod proof_log;

pub use law::what_went_out_is_there;
pub use ledger::serve_recorded;
