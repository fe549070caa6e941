// What an input gave, as the standard readtable reads it.
ghost use Rattle.std.specs.Prelude.{◌≡◌, ◌==◌};
ghost use Rattle.readtable_core.specs.Characters.{standard_syntax, syntax_number};
ghost use Rattle.readtable_core.specs.declared.characters.Syntax.TheVariants.{Whitespace};

/// What an input gave so far: whitespace and comments, with what they leave open, or text that is neither.
#[derive(Clone, Copy, Debug, PartialEq, Eq)]
pub(crate) enum Given {
    /// Nothing else, and none is open.
    Nothing,
    /// The last comment goes on to the end of the line.
    LineComment,
    /// The last character is a sharp sign, which may begin a comment.
    Sharp,
    /// The last comment goes on to its bar and sharp sign. So many comments are around it.
    BlockComment { around: u64, last: u8 },
    /// Text.
    Text,
}

impl Given {
    /// With these bytes more.
    pub(crate) fn after_all(self, bytes: &[u8]) -> Given {
        if self == Given::Text {
            return self;
        }
        let mut given = self;
        for byte in bytes {
            given = given.after(*byte);
        }
        given
    }

    // What was given, after one byte more.
    fn after(self, byte: u8) -> Given {
        match (self, byte) {
            (Given::Nothing, b';') => Given::LineComment,
            (Given::Nothing, b'#') => Given::Sharp,
            (Given::Nothing, byte) if is_blank(byte) => Given::Nothing,
            (Given::LineComment, b'\n') => Given::Nothing,
            (Given::LineComment, _) => Given::LineComment,
            (Given::Sharp, b'|') => Given::BlockComment { around: 0, last: 0 },
            (Given::BlockComment { around, last }, byte) => in_block(around, last, byte),
            _ => Given::Text,
        }
    }

    /// Whether it is text, or what the standard readtable waits for the end of.
    pub(crate) fn is_text(self) -> bool {
        match self {
            Given::Nothing | Given::LineComment => false,
            _ => true,
        }
    }
}

// After a byte within a comment that ends with a bar and a sharp sign.
fn in_block(around: u64, last: u8, byte: u8) -> Given {
    match (last, byte) {
        (b'|', b'#') if around == 0 => Given::Nothing,
        (b'|', b'#') => Given::BlockComment {
            around: around - 1,
            last: 0,
        },
        (b'#', b'|') => Given::BlockComment {
            around: around.saturating_add(1),
            last: 0,
        },
        _ => Given::BlockComment { around, last: byte },
    }
}

/// Whether the standard readtable has this character as whitespace.
pub(crate) fn is_blank(c: u8) -> bool
    ensures { result ≡ syntax_number (standard_syntax c) == syntax_number Whitespace }
{
    match c {
        b'\t' | b'\n' | 12 | b'\r' | b' ' | 127 => true,
        _ => false,
    }
}
