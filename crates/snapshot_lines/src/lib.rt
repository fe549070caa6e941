//! The objects in the text of a snapshot, read one at a time.
//!
//! Each is read under the limits of a snapshot, the standard readtable, base 10 and COMMON-LISP-USER, whatever the world reads
//! under (`line_setting` of specs/Lines.antt). `object_at` gives the object that begins at an offset, and its end; `next_object`
//! that of a line, and where the next line begins (`IsNext`). snapshot_text makes the world of them.
//!
//! The line of packages has as many texts as the world has symbols. They are no objects here: `texts_in` and its like give where
//! each is written, and `text_of` and `name_of` what it is (specs/QuotedTexts.antt).
//!
//! - `lines`: `object_at`, `next_object`; `source`: what they read from; `texts`: texts and lists of them; `error`: why no world is
//!   built
//!
//! # Lemmas for the crates above
//!
//! - proofs/NextLine.antt: where a part of a text begins, and what stands after it.
//! - proofs/Quoted.antt: what comes next in a list, and what a text between quotes is.
#![tactic(auto)]

mod error;
mod lines;
mod source;
mod texts;

pub use error::BuildError;
pub use lines::{next_object, object_at};
pub use source::Source;
pub use texts::{
    Coming, after_byte, coming_item, name_of, pairs_in, text_of, texts_in, written_text,
};
