//! How far calls go, and the refusals of what goes further.

/// How many calls of a form may be in one another.
pub const MOST_CALLS: usize = 10_000;

/// How many steps a form may take.
pub const MOST_STEPS: u64 = 6_000_000;

/// How many calls of a macro function may be in one another.
pub const MOST_READER_CALLS: usize = 1_000;

/// How many steps a call of a macro function may take.
pub const MOST_READER_STEPS: u64 = 10_000;

/// How many steps an operator takes that may look at a whole package, beside the weight of its value.
pub const PACKAGE_STEPS: u64 = 100_000;

/// More calls in one another than there may be.
pub const CALLS_TOO_DEEP: u16 = 48;

/// More steps than a form may take.
pub const TOO_MANY_STEPS: u16 = 49;
