//! Tests of the crates that read, through their public calls: what a run of the program cannot show. What it can is in
//! `checks/sessions`.
//!
//! They are a crate of their own, so that the libraries are not proved again for the sake of their tests.
//!
//! - `readtables`: readtable_core; `packages`: package_table
//! - `trial`: functions in each way of gathering, whose answers are at a limit or past it (`large`)
//! - `calls`: form_reader, where a text calls them
//! - `alike`: user_macros and fixed_macros beside one another
//! - `reading`: form_reader, a byte at a time; `plain`: plain_reader, SETF of a property
#![tactic(auto)]

#[cfg(test)]
mod alike;
#[cfg(test)]
mod calls;
#[cfg(test)]
mod large;
#[cfg(test)]
mod packages;
#[cfg(test)]
mod plain;
#[cfg(test)]
mod reading;
#[cfg(test)]
mod readtables;
#[cfg(test)]
mod trial;
