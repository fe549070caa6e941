//! Messages with numbers, and questions, over a store of prevalence_store.
//!
//! A message has a number, and is carried out once: the number of the last one that wrote is a property of the world, the position
//! (specs/Position.antt), and is logged together with what the messages need. A question is evaluated, and nothing of it is left.
//!
//! - `begin_messages` gives the position, and makes it 0 in a store that has none (`BeginsMessages` of specs/MessageCalls.antt); `position` tells it.
//! - `answer_requests` answers messages and questions one after the other (specs/MessageAnswers.antt), and logs what they need together, each
//!   answer with its cause (`AnswersRequests`). `answer_first_requests` answers the first of them (`AnswersFirst` of specs/Fronts.antt).
//! - `refusals_have_causes` is a law: the number with which they are refused tells why (specs/Refusals.antt).
//!
//! Requests are a turn (`FirstRequests`) of the store: this crate sees neither the disk nor the log.
//!
//! # Modules
//!
//! - `calls`: the calls over a store; `laws`
//! - `request`: what is asked, and what is answered; `texts`: answers as bytes
//! - `place`: the property that is the position; `own`: the store's own forms, by which it is changed
//! - `round`: requests that are answered one after the other, and logged together; `front`: until their answers have so many bytes;
//!   `first_requests`: as a turn
//! - `more`: what a crate above needs to answer requests of its own in a round (`Round`): forms that are no messages
//! - `ask`: a question
//!
//! # Laws for the crates above
//!
//! - proofs/Positions.antt: the position as a property (`position_put`, `position_out`). proofs/Shapes.antt: lists of two or three data
//!   (`of_two`, `of_three`). proofs/Making.antt: the records of a round (`form_made`).
//! - proofs/Fronts.antt: requests that are answered one after the other (`one_answer`); proofs/Owned.antt: which number is that of a device
//!   fault (`no_device`).
//! - proofs/Settling.antt: what became of a round as a turn, whatever was asked (`records_again`, `answered_logged`, `left_by`), and what is
//!   left of requests that are not answered (`unchanged_or_failed`).
#![tactic(auto)]

mod ask;
mod calls;
mod first_requests;
mod front;
mod laws;
mod more;
mod own;
mod place;
mod request;
mod round;
mod texts;

pub use calls::{answer_first_requests, answer_requests, begin_messages, position};
pub use laws::refusals_have_causes;
pub use place::number_of;
pub use request::{
    ANSWER_BYTES, NO_POSITION, OLD_NUMBER, QUESTION_WRITES, Replies, Request, RequestAnswer,
};
pub use round::Round;
pub use texts::{text_of_number, text_of_refusal};
