//! The streams of the program.
//!
//! - `Uninterrupted`: a stream on which a signal ends no session (module `uninterrupted`).
//! - `TypedLines`: an input at a terminal that tells of each line which the terminal has cut (module `typed_lines`).
//! - `wish_of`: what a line at a terminal asks for that is no form of a store, and `Prompts`, a writer that may know what the pages say (module
//!   `typed_words`).
//! - `ShownText`: a writer of text that lets no control character through to a terminal (module `shown`).
//! - `Refusals`: an output that lets the refusals among answers through, and counts; `write_counts` writes the line on the counts (module
//!   `refusals`, over `answer_text`, which tells where an answer ends).
//! - `Pipe`: an output that takes note of why it takes no more, and `BesidePipe`, a writer that tells nothing any more once the reader has gone
//!   (module `pipe`).
//! - `Progress`: an input that tells how much of it was read, and `Cleared`, a writer that takes this line away first (module `progress`).
#![tactic(auto)]

mod answer_text;
mod pipe;
mod progress;
mod refusals;
mod shown;
mod typed_lines;
mod typed_words;
mod uninterrupted;

pub use pipe::{BesidePipe, Pipe, has_lost_reader};
pub use progress::{Cleared, Progress};
pub use refusals::{Counts, Refusals, write_counts};
pub use shown::ShownText;
pub use typed_lines::TypedLines;
pub use typed_words::{Prompts, Wish, wish_of};
pub use uninterrupted::Uninterrupted;
