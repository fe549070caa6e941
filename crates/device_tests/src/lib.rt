//! Tests of a disk over a device in memory: each of its calls goes wrong in turn (module `faults`), while a row of calls of the disk is made
//! (module `script`).
#![tactic(auto)]

mod faults;
mod script;
