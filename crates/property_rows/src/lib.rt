//! Rows of properties: lists from which a property is taken out, and to which it comes back, without those after it being moved.
//!
//! - `row`: `Row`, which is seen as the list of its properties; `property`: what it holds, an indicator by its number and a value
//! - `slots`: the slots of a row, of which some are gone; `slot`: a slot, with the count of those that are gone before it
//! - `tree`: how these counts make a tree, by which a property is found at its index
#![tactic(auto)]

mod property;
mod row;
mod slot;
mod slots;
mod tree;

pub use crate::property::NumberedProperty;
pub use crate::row::Row;
