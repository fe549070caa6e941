//! What a world is read from.

use readtable_core::Readtable;
use std::alloc::Global;

/// The bytes of a snapshot, the standard readtable, under which they are read, and the functions of users.
#[derive(Drop)]
pub struct Source<'a, R> {
    pub alloc: Global,
    pub table: &'a Readtable,
    pub macros: &'a R,
    pub bytes: &'a [u8],
}
