//! The words of the command line, and what they ask for: `run DIR [--rescue] [--strict] [--group] [--snapshot-every N]
//! [--snapshot-ratio R] [--quiet] [--one-sync]`, `snapshot DIR [--one-sync]`, `upgrade DIR [--one-sync]`, `export DIR [--data]`, `dump DIR` and
//! `verify DIR`, each with `--existing`.
//!
//! `way_of` (module `way`) tells how what they ask for is carried out, and who has them, and `syncs_asked` with how many syncs the
//! halves are to be kept that it begins. `asked_in` (modules `words` and `task_lines`) finds one of these
//! commands, its folder and its options, or the error of `clap`. So do `messages_in` (module `messages`) for `run DIR --messages`,
//! `looked_in` (modules `looks` and `look_lines`) for the commands that only look into a store, and `checked_in` (module `check`) for the
//! one that looks into a file. `help` has the texts of the help, `tips` the tip for a command that there is not, and `rules` what the
//! command lines are made of.
//!
//! # Laws for the crates above
//!
//! - proofs/CommandLineLaws.antt, proofs/FoundWords.antt: what clap makes of the words, and from its getters to
//!   what they ask for.
//!
//! proofs/WordSteps.antt goes over the words of a command one after the other: a flag, or an option with its number, takes the walk of
//! clap from the rows that were found to those with its own. proofs/CommandSteps.antt has each command's words so. A new option is a step
//! more there, and clap's parser is never evaluated over whole lines.
#![tactic(auto)]

mod check;
mod help;
mod look_lines;
mod looks;
mod messages;
mod rules;
mod task_lines;
mod tips;
mod way;
mod words;

pub use check::{Check, checked_in};
pub use looks::{InfoPart, Look, Looked, RecordPlace, Records, Shown, looked_in};
pub use messages::{Messages, messages_in};
pub use way::{CommandWay, Syncs, asks_for_quiet, syncs_asked, way_of};
pub use words::{Asked, Report, Task, asked_in};
