//! Messages and questions in frames, and the answers to them.
//!
//! A frame is a head line with the length of a text, the text, and a newline: `do NUMBER LENGTH` begins a message, `by NUMBER LENGTH` one
//! whose text begins with the name of its client, `ask LENGTH` a question. A number is written in one way, in digits without a leading zero, and one space stands between words.
//!
//! - specs/Words.antt: what bytes begin with, of words that are each written in one way; specs/Frames.antt: frames, answers and
//!   positions as bytes; specs/WholeFrames.antt: what stands whole in bytes.
//!
//! - `frame`: `MessageFrame`, and `first_frame`, which reads one at the front of bytes; over `number`, and `words`: why bytes begin
//!   with no whole word
//! - `held`: `Held`, the bytes of frames that come in pieces
//! - `answer`: what is written
//! - `laws`: bytes are frames in one way, so it makes no difference in which pieces they came; and answers are read back
#![tactic(auto)]

mod answer;
mod frame;
mod held;
mod laws;
mod number;
mod words;

pub use answer::{push_answer, push_position};
pub use frame::{Kind, MessageFrame, first_frame};
pub use held::{Held, Next, Whole};
pub use laws::{answers_are_read_back, bytes_are_one_list};
pub use words::NotWhole;
