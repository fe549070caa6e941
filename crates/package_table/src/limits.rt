//! How many packages and symbols there may be, and how long their names.

/// The greatest number of packages, the first three included.
pub const MAX_PACKAGES: usize = 1_000;

/// The greatest number of symbols, each counted in its home, the first 53 included.
pub const MAX_SYMBOLS: u64 = 1_000_000;

/// The greatest length of a package's name, in bytes.
pub const MAX_PACKAGE_NAME: usize = 256;

/// The greatest length of a symbol's name, in bytes.
pub const MAX_SYMBOL_NAME: usize = 4_096;

// COMMON-LISP and KEYWORD have the numbers below this one.
pub(crate) const LOCKED_PACKAGES: u32 = 2;
