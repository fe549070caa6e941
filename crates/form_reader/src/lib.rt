//! The reader: which object a text begins with (standard 2.2).
//!
//! What that is, `lisp_reading` defines, and has the laws of it. `FormReader` takes a text one byte at a time, and `read_one` a
//! whole text. `step`, `finish` and `read_one` answer what the definition gives, out of memory aside: a form, with its object
//! and its offsets; that the text is empty; or a refusal, with its number and its offset. What `step` answers is so whatever
//! bytes follow.
//!
//! - specs/Stack.antt, specs/State.antt: what open calls stand for, and where a reader is in the innermost; specs/Token.antt,
//!   specs/Gather.antt, specs/Call.antt, specs/Dispatch.antt, specs/Value.antt: what one byte, and what is found, are to them
//! - specs/Step.antt, specs/EndOfText.antt: what one byte, and the end of the text, are to the outcome; specs/Reader.antt: what a
//!   reader is after, and what it answers
//!
//! - `reader`: `FormReader`, `Advance`, `ReadOutcome`; `reader/feed`: bytes at once; `reader/whole`: `read_one`, which asks
//!   `plain_reader` first
//! - `context`: what reading is handed; `state`: where a reader is in the innermost call; `stack`: open calls
//! - `step`: one byte, wherever a reader is in a form; `step/object`: one where an object may begin
//! - `token`: one byte of a token, and what it comes to; `gather`: one of a text, a line, a block or a number
//! - `dispatch`: macro characters and sub-characters, and how a call begins; `call`: what a call gives where it ends;
//!   `call/answer`: which data may be answered; `call/same`: whether a datum is like the one before it
//! - `value`: what open calls make of what is found
//! - `end_of_text`: the end of the text
//! - `laws`: `texts_begin_between_forms`, `what_is_decided_is_answered`, `wider_limits`; the other laws of reading are of
//!   `lisp_reading`
//!
//! # Laws for the crates above
//!
//! - proofs/Begun.antt: where what is open began.
//! - proofs/Objects.antt: what a byte is where an object may begin, and tokens that are objects.
//! - proofs/Stacks.antt: what open calls make of what is given in the innermost.
#![tactic(auto)]

mod call;
mod context;
mod dispatch;
mod end_of_text;
mod gather;
mod laws;
mod reader;
mod stack;
mod state;
mod step;
mod token;
mod value;

pub use laws::{texts_begin_between_forms, what_is_decided_is_answered, wider_limits};
pub use lisp_reading::{
    Limits, empty_texts_are_discarded, forms_are_decided, forms_are_framed,
    forms_are_within_the_limit, forms_fit, only_registered_names_matter,
    only_what_is_found_matters, reading_goes_on, refusals_are_decided, refusals_are_of_reading,
    spaced_forms_are_framed,
};
pub use reader::{Advance, FormReader, ReadOutcome, read_one};
