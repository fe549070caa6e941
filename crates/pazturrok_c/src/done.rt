// What C hands over and gets back, beside bytes.

/// How a call ended.
#[repr(C)]
#[derive(Clone, Copy, Drop)]
pub struct CallResult {
    /// The number of the refusal, or 0.
    pub number: u16,
    /// How many bytes the answer has; what does not fit the buffer is left out of it.
    pub answer: usize,
    /// How many bytes of orders there are. They are to be carried out before anything else is asked.
    pub orders: usize,
}

/// What a store tells of its half in use.
#[repr(C)]
#[derive(Clone, Copy, Drop)]
pub struct HalfReport {
    /// The generation of the half in use.
    pub generation: u64,
    /// How many records it has.
    pub records: u64,
    /// Its version.
    pub version: u16,
}

/// Where the text of a request ends among those of all, and its number.
#[repr(C)]
#[derive(Clone, Copy, Drop)]
pub struct RequestHead {
    /// The number of a message. Of a question it is nothing.
    pub number: u64,
    /// Where the text ends.
    pub end: u64,
    /// Whether it is a question.
    pub is_question: bool,
}

/// What an opening is told.
#[repr(C)]
#[derive(Clone, Copy, Drop)]
pub struct Setting {
    /// How many bytes a half may take.
    pub limit: u64,
    /// The first of the words by which names are hashed.
    pub seed_first: u64,
    /// The second of them.
    pub seed_second: u64,
}
