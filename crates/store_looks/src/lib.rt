//! The commands that look, and change nothing.
//!
//! - `look` looks into the store of a folder: `show`, `info`, `log`, `backup`, `dump --at N`, and `verify --json` (modules `looks`,
//!   `showing`, `figures` and `verifying`, over `log_look` and `store_reports`; `unlooked` says why nothing is told).
//! - `Seeds`: what gives the seed of a look; a look that has none ends with 67 (module `seeds`). `Measures`: what measures files (module
//!   `measures`). A look gets to the system by these, by `Folders` and by `Places` of store_reports, and in no other way.
//! - `check` tells which forms of a file cannot be read (module `checking`, over `form_check`), each by a line or an object (module
//!   `unreadable`).
//!
//! `dump`, `verify` and `export` with `--existing` only look too: they are `program` of `store_commands` over a `Looking`.
#![tactic(auto)]

mod checking;
mod figures;
mod looks;
mod measures;
mod seeds;
mod showing;
mod unlooked;
mod unreadable;
mod verifying;

pub use checking::check;
pub use looks::look;
pub use measures::Measures;
pub use seeds::Seeds;
