//! Tokens: where a token ends, and the marks of its characters.
//!
//! A reader feeds a token byte by byte, each byte with the syntax type that it has in the readtable in force.
//! `specs/Tokens.antt` says what a token is, as steps 8 and 9 of the reader algorithm do (standard 2.2), on a whole
//! text: the marks, the offset after the token and the rest of the text, or the first fault and its offset. `TokenScan`
//! gives the same, whatever follows: `token_from` of `specs/ByteByByte.antt` says what a token under way gives if a text
//! follows, and each call of `feed` and `finish` is one equation on it. `token_laws` says what holds of every token:
//! the text splits into the bytes that spell the marks (`Spells` of `specs/Spelling.antt`) and the rest.
//!
//! - `mark`: `Mark`, `Marks`, `characters`
//! - `refusal`: `ScanRefusal`, which has no number: `token_meaning` gives it
//! - `scan`: `TokenScan`, `FedByte`
//! - `stage`: where the next byte of a token is
//! - `laws`: `token_laws`, `escaped_token_laws`
//!
//! # For proofs above
//!
//! These lemmas keep their names:
//!
//! - `proofs/Spelled.antt`: `spelled_gives` (the bytes that spell marks give them; build a `Spells`, and never unfold
//!   `outside`), `escaped_gives`; `plain_counts`, `quoted_counts`, `bar_counts`
//! - `proofs/Steps.antt`: what a token gives at one byte, by its syntax type (`outside_plain`, `inside_between` ..)
//! - `proofs/Split.antt`: `splits`, `escaped_token_splits`, and their word `SplitsBy`
//! - `proofs/Standing.antt`: `token_stands`, `escaped_token_stands`; `bytes_typed`, `typed_again`
//! - `proofs/Forwards.antt`: `forwards`, `begun_has_mark`
//!
//! Rows on literal texts open `outside`, and `standard` of readtable_core.
#![tactic(auto)]

mod laws;
mod mark;
mod refusal;
mod scan;
mod stage;

pub use laws::{escaped_token_laws, token_laws};
pub use mark::{Mark, Marks, characters};
pub use refusal::ScanRefusal;
pub use scan::{FedByte, TokenScan};
