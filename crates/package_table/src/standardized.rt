//! The names of the standardized packages (standard 11.1.2), which are the first.

/// The package of the symbols that the language defines.
pub const COMMON_LISP: &[u8] = b"COMMON-LISP";

/// The package that is current at first.
pub const COMMON_LISP_USER: &[u8] = b"COMMON-LISP-USER";

/// The package of the keywords.
pub const KEYWORD: &[u8] = b"KEYWORD";

/// The nickname of COMMON-LISP.
pub const CL: &[u8] = b"CL";

/// The nickname of COMMON-LISP-USER.
pub const CL_USER: &[u8] = b"CL-USER";
