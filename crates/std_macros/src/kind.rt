//! The standard functions, by their names, and the ways in which they gather.
ghost use Rattle.std.specs.Prelude.{◌≡◌, is_some, IfSome};
ghost use Rattle.readtable_core.specs.Names.{is_standard, same_name};
ghost use Rattle.std_macros.specs.Kinds.{name_of_standard, macro_kinds, dispatch_kinds, kinds, kind_among, way_of_standard, radix_of};

use readtable_core::FnName;
use readtable_core::standard_names::{
    STD_BINARY, STD_BLOCK, STD_CHAR, STD_CLOSE, STD_COMMENT, STD_FUNCTION, STD_HEX, STD_LIST,
    STD_OCTAL, STD_OUT, STD_QUOTE, STD_RADIX, STD_STRING, STD_UNINTERNED, STD_VECTOR,
};

/// A function of the standard readtable, which any character may be given.
#[derive(Clone, Copy, Debug, PartialEq, Eq)]
pub enum Standard {
    /// A list (standard 2.4.1).
    List,
    /// The end of a list, out of place (standard 2.4.2).
    Close,
    /// A quoted object (standard 2.4.3).
    Quote,
    /// A comment (standard 2.4.4).
    Comment,
    /// A text (standard 2.4.5).
    String,
    /// What is outside the profile.
    Out,
    /// A character (standard 2.4.8.1).
    Char,
    /// The name of a function (standard 2.4.8.2).
    Function,
    /// A vector (standard 2.4.8.3).
    Vector,
    /// An uninterned symbol (standard 2.4.8.5).
    Uninterned,
    /// A block comment (standard 2.4.8.19).
    Block,
    /// A rational in base 2 (standard 2.4.8.7).
    Binary,
    /// A rational in base 8 (standard 2.4.8.8).
    Octal,
    /// A rational in base 16 (standard 2.4.8.9).
    Hex,
    /// A rational in the base that is the number of the call (standard 2.4.8.10).
    Radix,
}

/// What a standard function gathers.
#[derive(Clone, Copy, Debug, PartialEq, Eq)]
pub enum StdGather {
    /// Nothing.
    Nothing,
    /// One object.
    One,
    /// Objects to a closing parenthesis, where after one of them a dot and a last object may come.
    List,
    /// Objects to a closing parenthesis.
    Many,
    /// Characters to the one that invoked the function, which is looked for first; a single escape is dropped, and the
    /// character after it kept.
    Text,
    /// Characters to a newline, which is taken, or to the end of the input. They are dropped.
    Line,
    /// Characters to the matching bar and sharpsign, in nested pairs taken from the left. They are dropped.
    Block,
    /// A token.
    Token,
    /// A token whose first character is taken as an escaped one, whatever its syntax type.
    EscapedToken,
}

/// The standard function of this name; None where it is none. STD-DISPATCH is none. Takes no memory.
pub fn standard_of(name: FnName) -> Option<Standard>
    ensures variant { is_some result ≡ is_standard name }
    ensures some { IfSome result (λ kind. name_of_standard kind ≡ name) }
{
    known(name.as_bytes())
}

fn known(name: &[u8]) -> Option<Standard>
    ensures { result ≡ kind_among kinds name.now }
{
    match kind_of_macro_character(name) {
        Some(kind) => Some(kind),
        None => kind_of_sub_character(name),
    }
}

fn kind_of_macro_character(name: &[u8]) -> Option<Standard>
    ensures { result ≡ kind_among macro_kinds name.now }
{
    if is_name(name, STD_LIST) {
        Some(Standard::List)
    } else if is_name(name, STD_CLOSE) {
        Some(Standard::Close)
    } else if is_name(name, STD_QUOTE) {
        Some(Standard::Quote)
    } else if is_name(name, STD_COMMENT) {
        Some(Standard::Comment)
    } else if is_name(name, STD_STRING) {
        Some(Standard::String)
    } else if is_name(name, STD_OUT) {
        Some(Standard::Out)
    } else {
        None
    }
}

fn kind_of_sub_character(name: &[u8]) -> Option<Standard>
    ensures { result ≡ kind_among dispatch_kinds name.now }
{
    if is_name(name, STD_CHAR) {
        Some(Standard::Char)
    } else if is_name(name, STD_FUNCTION) {
        Some(Standard::Function)
    } else if is_name(name, STD_VECTOR) {
        Some(Standard::Vector)
    } else if is_name(name, STD_UNINTERNED) {
        Some(Standard::Uninterned)
    } else if is_name(name, STD_BLOCK) {
        Some(Standard::Block)
    } else if is_name(name, STD_BINARY) {
        Some(Standard::Binary)
    } else if is_name(name, STD_OCTAL) {
        Some(Standard::Octal)
    } else if is_name(name, STD_HEX) {
        Some(Standard::Hex)
    } else if is_name(name, STD_RADIX) {
        Some(Standard::Radix)
    } else {
        None
    }
}

fn is_name(name: &[u8], wanted: &[u8]) -> bool
    ensures { result ≡ same_name wanted.now name.now }
{
    wanted == name
}

/// The way in which the function gathers. Takes no memory.
pub fn way(kind: Standard) -> StdGather
    ensures { result ≡ way_of_standard kind }
{
    match kind {
        Standard::List => StdGather::List,
        Standard::Quote | Standard::Function => StdGather::One,
        Standard::Vector => StdGather::Many,
        Standard::String => StdGather::Text,
        Standard::Comment => StdGather::Line,
        Standard::Block => StdGather::Block,
        Standard::Char => StdGather::EscapedToken,
        Standard::Uninterned
        | Standard::Binary
        | Standard::Octal
        | Standard::Hex
        | Standard::Radix => StdGather::Token,
        Standard::Close | Standard::Out => StdGather::Nothing,
    }
}

/// The base that a call of `Radix` with this number reads in: 2 to 36. Where it is None the call is refused as 15
/// NUMERIC-ARGUMENT before its token is read. Takes no memory.
pub fn radix_of(number: Option<u32>) -> Option<u8>
    ensures { result ≡ radix_of number }
{
    match number {
        Some(base) if 2 <= base && base <= 36 => Some(base as u8),
        _ => None,
    }
}
