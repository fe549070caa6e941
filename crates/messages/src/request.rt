// What is asked of a store that carries out messages, and what it answers.

/// The number of a refusal: the number of a message is not over the one before it.
pub const OLD_NUMBER: u16 = 50;

/// The number of a refusal: a question would write.
pub const QUESTION_WRITES: u16 = 51;

/// The number of a refusal: the property that is to be the position is no number of 64 bits, or its name stands for another symbol.
pub const NO_POSITION: u16 = 52;

/// How many bytes of answers end a batch of which the first requests are answered.
pub const ANSWER_BYTES: usize = 65_536;

/// A message with its number, or a question.
#[derive(Clone, Copy, Debug)]
pub struct Request<'a> {
    /// The number of a message; a question has none.
    pub number: Option<u64>,
    /// The text, which is to be one form.
    pub text: &'a [u8],
}

/// What is answered to a request.
#[derive(Debug, Drop)]
pub struct RequestAnswer {
    /// The line that a session writes, without its newline.
    pub text: Vec<u8>,
    /// Whether it was a message that wrote.
    pub wrote: bool,
}

/// What is answered to requests.
#[derive(Debug, Drop)]
pub struct Replies {
    /// The answers, in order.
    pub answers: Vec<RequestAnswer>,
    /// The number of the last message.
    pub last: u64,
}
