//! More macro functions and more operators keep old forms and old files: laws of a program that knows what an earlier one knew, and
//! more. Each is the contract of a function that does nothing: who calls it has the law in his own proof.
//!
//! What is asked of the two stands in specs/Among.antt. `AreAmong`: each name of the fewer functions is one of the more, and means the
//! same there. `AreRulesAmong`: each operator of the fewer is the same one among the more.
//!
//! - `forms`: a form that is read, accepted or replayed with fewer functions is so with more, with the same outcome, in any world
//!   (`forms_stay_accepted`)
//! - `files`: what files mean with fewer functions they mean with more, also what a crash leaves of them (`files_keep_their_world`). A
//!   store that is opened with more on files that meant a world with fewer has this world (`more_functions_open`)
//! - `operators`: the same of forms, records and files by rules with fewer operators and with more. So files mean what they meant
//!   before the package PAZTURROK had operators, and before it had those that decide, look up and change places
//!   (`more_operators_change_nothing`)
//! - `programs`: both together, for a program of today that has more operators and more functions than an earlier one; also of files of
//!   version 1 (`newer_programs_keep_files`). A store that such a program opens has the world that its files meant to the earlier one
//!   (`newer_programs_open`)
//!
//! What was refused is not kept: a form that names a function which the fewer are without is refused there, and accepted with more. So
//! is one whose operator the fewer are without.
//!
//! Of the lemmas in `proofs` crates above use `reading_widens` of `Reading`, `none_are_among` and `earlier_among` of `Keeping`.
#![tactic(auto)]

mod files;
mod forms;
mod operators;
mod programs;

pub use files::{files_keep_their_world, more_functions_open};
pub use forms::forms_stay_accepted;
pub use operators::more_operators_change_nothing;
pub use programs::{newer_programs_keep_files, newer_programs_open};
