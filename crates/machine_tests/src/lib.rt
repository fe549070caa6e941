//! The program on a machine whose disks are honest, and a machine in memory on which it is stopped at each call of its disk.
//!
//! - `run_on_machine` (module `programs`) runs the program. Its clause says what is there at each moment of `run`, once lines went out.
//! - `the_system_is_honest` (module `system`): the system is such a machine, by the calls that it makes; `run_on_system` runs the program there.
//! - `what_was_answered_is_found` (module `laws`): a program that is started on what a crash left finds all that was answered.
//! - `machine`: a machine in memory with one folder, whose disk outlives the program that opened it; `stops`: programs that are stopped
//!   there, and what the next one finds; `wrong_calls`: the same over a device, one of whose calls goes wrong;
//!   `on_files`: the program on files of the system
//! - `folders`: a folder that is opened for a store that exists; `in_a_row`: sessions in a row over one store
//!
//! It is a crate of its own, as the program and its command line take much memory to prove.
#![tactic(auto)]

#[cfg(test)]
mod folders;
#[cfg(test)]
mod in_a_row;
mod laws;
#[cfg(test)]
mod machine;
#[cfg(test)]
mod on_files;
mod programs;
#[cfg(test)]
mod stops;
mod system;
#[cfg(test)]
mod wrong_calls;

pub use laws::what_was_answered_is_found;
pub use programs::run_on_machine;
pub use system::{run_on_system, the_system_is_honest};
