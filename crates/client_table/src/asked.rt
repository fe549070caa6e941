// What is asked of a store with a table of clients.
use messages::Request;

/// The number of a refusal: what stands where the entry of a client does is no entry, or the answer of a message is not in the entry after it.
pub const NO_ENTRY: u16 = 48;

/// The number of a refusal: the message was carried out, and its answer is not kept.
pub const NOT_KEPT: u16 = 49;

/// The number of a refusal: the client is one too many.
pub const NO_ROOM: u16 = 54;

/// The number of a refusal: the message of this number had another text.
pub const OTHER_TEXT: u16 = 55;

/// The number of a refusal: the text of a message begins with no name.
pub const NO_FRAME: u16 = 56;

/// The most bytes of a form and its answer that are kept.
pub const KEPT_BYTES: usize = 65_536;

/// A message with a name.
#[derive(Clone, Copy, Debug)]
pub struct Named<'a> {
    /// Its number among those of its client.
    pub number: u64,
    /// The name of the client, a space and the form; or the name alone, of a client that goes.
    pub text: &'a [u8],
}

/// What is asked of a store with a table of clients.
#[derive(Clone, Copy, Debug)]
pub enum AnyRequest<'a> {
    /// A message with a number, or a question.
    Request(Request<'a>),
    /// A message with a name.
    Named(Named<'a>),
}
