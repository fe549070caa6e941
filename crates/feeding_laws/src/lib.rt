//! Who feeds a store again has nothing done twice, and gets the answers that were given. Laws above the clauses of a session of messages. Each
//! is the contract of a function that does nothing: who calls it has the law in his own proof.
//!
//! All are in the module `feeding`.
//!
//! - `feeding_again`: frames whose answers were handed to the recipient of a session are rounds in a row; and whenever the session is stopped,
//!   an opening tells a position so that the messages over it, fed again, have the answers that they had, and leave the world after all
//!   (`specs/Feeding.antt`)
//! - `fed_sessions`: so does a session over them
//! - `feeding_on`: and however often it is stopped
#![tactic(auto)]

mod feeding;

pub use feeding::{fed_sessions, feeding_again, feeding_on};
