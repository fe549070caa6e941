//! Which forms of a text cannot be read. Nothing is evaluated, so that each form is read under the same readtable, in the same packages.
//!
//! - `check` goes through a text form by form (module `checking`). After a refusal it goes on with the next line, as a terminal does.
//! - `begin`: what a text begins with, and where that begins.
//! - specs/Checking.antt: what is found, form by form.
#![tactic(auto)]

mod begin;
mod checking;

pub use begin::Under;
pub use checking::{Checked, Unreadable, check};
