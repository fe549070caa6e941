//! A session of messages: frames come in, each is answered, and what they write is logged before that.
//!
//! `serve_messages` (module `serve`) serves the frames of an input over a store, to an output. It promises what is written: the position,
//! and the answer to each frame (specs/FrameAnswers.antt), as far as the session came, and why a fault ended it (specs/MessageSessions.antt). How a session
//! ended is `MessagesEnd`.
//!
//! - `serve`: messages are begun, and the input is read to its end. What came is held (`Held` of message_frames) until it is whole frames
//! - `answer`: frames are handed to the store together, which answers the first of them (`answer_first_asked` of client_table), and
//!   their answers are written, until all are. A half that is full gets a snapshot; what has no room then, or no memory, is tried one by one
//!
//! - `ended`: how a session ends
//! - `recipient`: who gets the answers (`AnswerRecipient`). It asks for them that what their messages wrote is stored by then, with the
//!   position, and that they are the next ones of the input (`AreStored` of specs/Account.antt): so this is said of each moment of a session
//!
//! Its proofs rest on `Together` of message_laws: a batch is answered as in one round of all frames. Crates above cite `Rounds` and `Pieces`: frames that are
//! answered after others.
#![tactic(auto)]

mod answer;
mod ended;
mod recipient;
mod serve;

pub use answer::MOST_CLIENTS;
pub use ended::MessagesEnd;
pub use recipient::AnswerRecipient;
pub use serve::serve_messages;
