//! The command `run DIR --messages`: a session of messages over the store in a folder.
//!
//! `run_messages` does it, and `serve_on` once there is a disk, to any recipient of answers (module `command`). `command_words` has its words
//! (`messages_in`).
#![tactic(auto)]

mod command;

pub use command::{run_messages, serve_on};
