//! The names of the functions of the standard readtable. Code, contracts and the crates above cite them here.

/// Reads a list (standard 2.4.1).
pub const STD_LIST: &[u8] = b"STD-LIST";
/// Ends a list (standard 2.4.2).
pub const STD_CLOSE: &[u8] = b"STD-CLOSE";
/// Quotes an object (standard 2.4.3).
pub const STD_QUOTE: &[u8] = b"STD-QUOTE";
/// Passes over a comment (standard 2.4.4).
pub const STD_COMMENT: &[u8] = b"STD-COMMENT";
/// Reads a text (standard 2.4.5).
pub const STD_STRING: &[u8] = b"STD-STRING";
/// Refuses what is outside the profile.
pub const STD_OUT: &[u8] = b"STD-OUT";
/// Reads a character (standard 2.4.8.1).
pub const STD_CHAR: &[u8] = b"STD-CHAR";
/// Names a function (standard 2.4.8.2).
pub const STD_FUNCTION: &[u8] = b"STD-FUNCTION";
/// Reads a vector (standard 2.4.8.3).
pub const STD_VECTOR: &[u8] = b"STD-VECTOR";
/// Reads an uninterned symbol (standard 2.4.8.5).
pub const STD_UNINTERNED: &[u8] = b"STD-UNINTERNED";
/// Passes over a block comment (standard 2.4.8.19).
pub const STD_BLOCK: &[u8] = b"STD-BLOCK";
/// Reads a rational in base 2 (standard 2.4.8.7).
pub const STD_BINARY: &[u8] = b"STD-BINARY";
/// Reads a rational in base 8 (standard 2.4.8.8).
pub const STD_OCTAL: &[u8] = b"STD-OCTAL";
/// Reads a rational in base 16 (standard 2.4.8.9).
pub const STD_HEX: &[u8] = b"STD-HEX";
/// Reads a rational in a base that is given (standard 2.4.8.10).
pub const STD_RADIX: &[u8] = b"STD-RADIX";

/// Stands at each dispatching macro character and nowhere else, and cannot be set (standard 2.1.4.4).
pub const STD_DISPATCH: &[u8] = b"STD-DISPATCH";

/// The functions of the standard readtable, which any character may be given. STD-DISPATCH is none of them.
pub const STANDARD_NAMES: [&[u8]; 15] = [
    STD_LIST,
    STD_CLOSE,
    STD_QUOTE,
    STD_COMMENT,
    STD_STRING,
    STD_OUT,
    STD_CHAR,
    STD_FUNCTION,
    STD_VECTOR,
    STD_UNINTERNED,
    STD_BLOCK,
    STD_BINARY,
    STD_OCTAL,
    STD_HEX,
    STD_RADIX,
];
