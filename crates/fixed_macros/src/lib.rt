//! Macro functions that are no closures: one method answers the calls of all names of a meaning.
//!
//! `Macros` of user_macros takes boxed closures, one by one. Here nothing is registered, all functions are there from the first,
//! and no box is made; so the value may go to another thread, and across the border of a C library. Both say the same clauses,
//! those of `MacroFunctions`: what a call gives is the definition.
//!
//! - `answering`: the trait `Answering`, a meaning with the code of its functions
//! - `fixed`: `Fixed`
//! - `example`: one function, from its meaning to its call
#![tactic(auto)]

mod answering;
pub mod example;
mod fixed;

pub use answering::Answering;
pub use fixed::Fixed;
