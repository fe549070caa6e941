//! The six macro functions of the program: SQUARE, CLOSE, NOTE, SKIP, UNIT and SCALE.
//!
//! - `SixFunctions` (module `meaning`) is what they mean: what each gathers of a text, and what it answers.
//! - `macro_functions` has those that compute an object. Of the others CLOSE refuses as 1, and NOTE and SKIP give nothing.
//! - `answering`: all six with no closure, for `Fixed` of fixed_macros.
#![tactic(auto)]

mod answering;
pub mod macro_functions;
mod meaning;

pub use meaning::SixFunctions;
