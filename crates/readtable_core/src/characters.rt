//! Syntax types and constituent traits of characters.
ghost use Rattle.std.specs.Prelude.{◌≡◌, is_some, nat_le, IfSome};
ghost use Rattle.readtable_core.specs.Characters.{standard_syntax, syntax_number, traits, is_invalid_trait};

/// The syntax type of a character in a readtable (standard 2.1.4).
#[derive(Clone, Copy, Debug, PartialEq, Eq)]
pub enum Syntax {
    Whitespace,
    Constituent,
    TerminatingMacro,
    NonTerminatingMacro,
    SingleEscape,
    MultipleEscape,
    Invalid,
}

impl Syntax {
    /// The number by which files name this type: 0 to 6, in the order of the variants.
    pub fn number(self) -> u8
        ensures { result ≡ syntax_number self }
    {
        self as u8
    }

    /// The type with this number, or `None` where it is over 6.
    pub fn from_number(number: u8) -> Option<Syntax>
        ensures variant { is_some result ≡ nat_le number 6 }
        ensures some { IfSome result (λ syntax. syntax_number syntax ≡ number) }
    {
        match number {
            0 => Some(Syntax::Whitespace),
            1 => Some(Syntax::Constituent),
            2 => Some(Syntax::TerminatingMacro),
            3 => Some(Syntax::NonTerminatingMacro),
            4 => Some(Syntax::SingleEscape),
            5 => Some(Syntax::MultipleEscape),
            6 => Some(Syntax::Invalid),
            _ => None,
        }
    }
}

/// The constituent traits of a character (standard 2.1.4.2), of which each character has one kind. `Digit` and `Letter`
/// are the alphadigits.
#[derive(Clone, Copy, Debug, PartialEq, Eq)]
pub enum Traits {
    Invalid,
    PackageMarker,
    PlusSign,
    MinusSign,
    RatioMarker,
    Dot,
    Digit,
    Letter,
    Alphabetic,
}

impl Traits {
    /// Whether an unescaped character with this trait is refused in a token.
    pub fn is_invalid(self) -> bool
        ensures { result ≡ is_invalid_trait self }
    {
        matches!(self, Traits::Invalid)
    }
}

/// The traits of the character `c` (standard 2.1.4.2), the same in every readtable. A byte over 127 is no character, and
/// has the trait invalid.
pub fn traits_of(c: u8) -> Traits
    ensures { result ≡ traits c }
{
    match c {
        0..=32 | 127..=255 => Traits::Invalid,
        b':' => Traits::PackageMarker,
        b'+' => Traits::PlusSign,
        b'-' => Traits::MinusSign,
        b'/' => Traits::RatioMarker,
        b'.' => Traits::Dot,
        b'0'..=b'9' => Traits::Digit,
        b'A'..=b'Z' | b'a'..=b'z' => Traits::Letter,
        _ => Traits::Alphabetic,
    }
}

/// The syntax type of `c` in the standard readtable (standard 2.1.4).
pub(crate) fn standard_syntax_of(c: u8) -> Syntax
    ensures { result ≡ standard_syntax c }
{
    match c {
        b'\t' | b'\n' | 12 | b'\r' | b' ' | 127 => Syntax::Whitespace,
        b'"' | b'\'' | b'(' | b')' | b',' | b';' | b'`' => Syntax::TerminatingMacro,
        b'#' => Syntax::NonTerminatingMacro,
        b'\\' => Syntax::SingleEscape,
        b'|' => Syntax::MultipleEscape,
        8 | b'!'..=b'~' => Syntax::Constituent,
        _ => Syntax::Invalid,
    }
}
