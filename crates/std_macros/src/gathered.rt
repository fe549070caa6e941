//! What a standard function is handed, and what it gives.
use lisp_object::{Bytes, Datum, Items};
use token_scan::Marks;

/// What was gathered for a standard function.
#[derive(Drop)]
pub enum StdGathered {
    /// Nothing, or characters that are dropped.
    Nothing,
    /// One object.
    One(Datum),
    /// Objects.
    Many(Items<Datum>),
    /// Objects, and the one after a dot.
    Dotted { items: Items<Datum>, tail: Datum },
    /// Characters.
    Text(Bytes),
    /// The marks of a token.
    Marks(Marks),
}

/// What a standard function gives.
#[derive(Debug, PartialEq, Eq, Drop)]
pub enum Finished {
    /// An object.
    One(Datum),
    /// No value: what was gathered is discarded.
    Nothing,
}
