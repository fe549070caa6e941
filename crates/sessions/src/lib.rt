//! Sessions of forms over a store of prevalence_store: forms from a reader, and a line to each.
//!
//! # What it promises the crate above
//!
//! - `serve` is told by one relation (`Serves` of specs/Serve.antt): how many forms were taken and answered, in which mode, what of the
//!   lines was written, what the log holds then (`IsAfter`), and a case for each ending with its cause.
//! - `serve_wanted` is `serve` with the place of a refusal, counted in the input (`IsPlace`), and where what is refused begins
//!   (`IsRefusedFrom`), and with an end at the first form that is refused if that is wanted (`ServesWanted`). If groups are wanted, the
//!   forms under way at a fault may be some in place of one; all else is as without them, by the same relation.
//! - *Before an answer* (`Recipient`): all that a session writes goes out by `write_lines` of its recipient, which does not touch the
//!   disk. It asks for one that keeps account that these are the lines of the next forms of this session, and that what was done since lines were
//!   last handed on survives as a call that has acknowledged them all (`AreStored` of specs/Account.antt). So what is said of calls in a row is said
//!   of a session at each moment (`what_is_answered_is_stored`); after its last line `under_way` of `serve_wanted` says it.
//!
//! Of every disk: a session returns; it ends with 60 exactly if the device's count of failures rose, and after an earlier device fault with 61
//! at once.
//!
//! Forms are turns (`Turn`) of the store: this crate sees neither the disk nor the log. A line is made in the turn of its form, before its
//! record is logged, and is written after.
//!
//! # Modules
//!
//! - `serving`: the calls, which read pieces of the input, and look at each byte up to the first one that decides something
//! - `input`: what a session has read and not answered yet; with `input/plain`, a form that stands whole and plain in a piece, and with
//!   `input/property_line`, the line of GET of a property there; `first_of_piece` answers what a piece begins with, by either
//! - `answer`: the answer to a form, and to a refusal of the reader; `one_form`, that form as a turn
//! - `gather`: forms that stand whole after one another, with their lines; `whole_forms`, these as a turn; `group`, the answers to them
//! - `schedule`: when a session takes snapshots, and how; `course`: how far it has come; `ending`: how it ends, and where
//! - `recipient`: who gets the lines of a session, and hears of refusals if it listens; `refusal`, such a refusal as a visit to the world;
//!   `output`: the line of an answer and of a refusal
//! - `open_world`: the world of a store that is open
//! - `laws`: that what is answered is stored
//!
//! # Laws for the crates above
//!
//! - proofs/StreamLemmas.antt: known bytes of readers and writers (`appended`, `piece_written`).
//! - proofs/NewHalves.antt: a half that was begun takes what one of its version takes with the text of the world alone (`text_alone`).
#![tactic(auto)]

mod answer;
mod course;
mod ending;
mod first_of_piece;
mod gather;
mod group;
mod input;
mod laws;
mod one_form;
mod open_world;
mod output;
mod recipient;
mod refusal;
mod schedule;
mod serving;
mod whole_forms;

pub use ending::{Ended, Ending, Place};
pub use laws::what_is_answered_is_stored;
pub use recipient::{OutputFault, Recipient, SessionForm};
pub use schedule::write_zeros_ahead;
pub use serving::{serve, serve_wanted};
pub use session_words::{Mode, SessionOptions};
