//! How much a form may have.
ghost use Rattle.std.specs.Prelude.{◌≡◌};

/// How many bytes the text of a form may have, how many characters a token, and how many calls that read objects may be open.
#[derive(Clone, Copy, Debug, PartialEq, Eq)]
pub struct Limits {
    pub text: usize,
    pub token: usize,
    pub nesting: u32,
}

impl Limits {
    /// The limits of a form: 1,048,576 bytes, tokens of 4,096 characters, 100 open calls.
    pub fn form() -> Limits
        ensures { result ≡ record { text = 1048576; token = 4096; nesting = 100 } }
    {
        Limits {
            text: 1_048_576,
            token: 4_096,
            nesting: 100,
        }
    }

    /// The limits of the text of a snapshot: 4,294,967,295 bytes, tokens of 8,192 characters, 104 open calls.
    pub fn snapshot() -> Limits
        ensures { result ≡ record { text = 4294967295; token = 8192; nesting = 104 } }
    {
        Limits {
            text: 4_294_967_295,
            token: 8_192,
            nesting: 104,
        }
    }
}
