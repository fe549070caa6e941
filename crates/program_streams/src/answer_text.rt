//! Where an answer ends, byte by byte.
ghost use Rattle.std.specs.Prelude.{◌≡◌};
ghost use Rattle.program_streams.specs.AnswerText.{place_after_byte, at_mark, at_start, in_name, in_refusal, in_text, in_value};

/// Where a text of answers has come to.
#[derive(Clone, Copy, Debug, PartialEq, Eq)]
pub enum At {
    /// Before an answer.
    Start,
    /// After the exclamation mark that an answer began with.
    Mark,
    /// In a refusal.
    Refusal,
    /// In a value.
    Value,
    /// After a backslash there.
    ValueEscape,
    /// In a text of a value, between quotation marks.
    Text,
    /// After a backslash there.
    TextEscape,
    /// In a name of a value, between bars.
    Name,
    /// After a backslash there.
    NameEscape,
}

impl At {
    /// After one byte more.
    pub(crate) fn after(self, byte: u8) -> At
        ensures { result ≡ place_after_byte self byte }
    {
        match self {
            At::Start => at_start(byte),
            At::Mark => at_mark(byte),
            At::Refusal => in_refusal(byte),
            At::Value => in_value(byte),
            At::ValueEscape => At::Value,
            At::Text => in_text(byte),
            At::TextEscape => At::Text,
            At::Name => in_name(byte),
            At::NameEscape => At::Name,
        }
    }
}

// The first byte of an answer.
fn at_start(byte: u8) -> At
    ensures { result ≡ at_start byte }
{
    if byte == b'!' {
        At::Mark
    } else {
        in_value(byte)
    }
}

// The byte after an exclamation mark: the symbol of this name is printed without a space after it.
fn at_mark(byte: u8) -> At
    ensures { result ≡ at_mark byte }
{
    if byte == b' ' {
        At::Refusal
    } else {
        in_value(byte)
    }
}

fn in_refusal(byte: u8) -> At
    ensures { result ≡ in_refusal byte }
{
    if byte == b'\n' {
        At::Start
    } else {
        At::Refusal
    }
}

fn in_value(byte: u8) -> At
    ensures { result ≡ in_value byte }
{
    match byte {
        b'\n' => At::Start,
        b'"' => At::Text,
        b'|' => At::Name,
        b'\\' => At::ValueEscape,
        _ => At::Value,
    }
}

fn in_text(byte: u8) -> At
    ensures { result ≡ in_text byte }
{
    match byte {
        b'"' => At::Value,
        b'\\' => At::TextEscape,
        _ => At::Text,
    }
}

fn in_name(byte: u8) -> At
    ensures { result ≡ in_name byte }
{
    match byte {
        b'|' => At::Value,
        b'\\' => At::NameEscape,
        _ => At::Name,
    }
}
