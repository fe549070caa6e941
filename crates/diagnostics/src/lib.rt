//! What is told of an input and of a fault, in one line or two: where a refusal came, in lines and columns, and the number, the name
//! and the cause of a fault.
//!
//! - `Places` is an input that tells the line and the column after so many of its bytes; `Lines` is one over any reader (module `places`).
//!   What it gave is a `History`, which tells them while the input is read.
//! - `write_refusal` writes the line on the refusal that ended a session, and `write_refused_form` that on a form which was refused in one
//!   that goes on (module `refusal`).
//! - `RefusalTeller` writes that line, with the part of the form for which it was refused, of as many forms as somebody asks for (module
//!   `teller`; `parts`: where the part stands), and `write_unread` one on what could not be read (module `unread`).
//! - `write_fault` and `write_fault_with_cause` write that of a fault, and `write_text` and `write_out` a text, whole or a part of it
//!   from its front (module `fault`). None of them takes memory.
//!
//! # Laws for the crates above
//!
//! - proofs/Fronts.antt: a text that was written to its end or in part was written from its front.
#![tactic(auto)]

mod fault;
mod parts;
mod places;
mod refusal;
mod teller;
mod unread;

pub use fault::{Unwritten, write_fault, write_fault_with_cause, write_out, write_text};
pub use places::{History, Lines, Places, Spot};
pub use refusal::{Refusal, Spots, write_refusal, write_refused_form};
pub use teller::{Reasons, RefusalTeller};
pub use unread::write_unread;
