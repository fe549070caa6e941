//! Snapshots as text.
//!
//! The text of a world is three printed objects: its packages, its property lists and its readtables (`snapshot` of
//! world_text, whose `write` gives it). There are two versions of it, and `read` is told which one the bytes are of
//! (`snapshot_in`). It gives a world whose text the bytes are, with no function missing, or says why not: what it refuses is the
//! text of no sound state, or of one that names a missing function, but where memory runs out (specs/NamedFunctions.antt). The law
//! `one_text_one_state` of world_text says that no other sound state has that text.
//!
//! - `reader`: `read`, and `read_with_seed`, which hashes the names of the world by a seed; `property_lines`: the line of
//!   property lists, of which one row is in memory at a time; snapshot_lines reads the objects
//! - `package_parts` (over `own_parts`): the packages, made from their line, of which each text stays where it is written;
//!   `property_parts`, `table_parts`: the rest of a world, made from data by its own calls; `parts`: texts, lists and numbers in
//!   data; `known`: which data may be stored
//! - `error`: `SnapshotError`
//!
//! # Lemmas for the crates above
//!
//! - proofs/PackageRows.antt: the line of packages, part by part.
//! - proofs/PackageLists.antt, proofs/OwnNames.antt: what the lists of packages and of their names say.
//! - proofs/PartFinds.antt, proofs/PartMakes.antt, proofs/PartSteps.antt: packages that are a part of others, while they are made.
//! - proofs/PartCounts.antt: a part has no more packages and symbols.
//! - proofs/PartSame.antt, proofs/AllPackages.antt: where all is made, the packages are the same.
//! - proofs/PropertyParts.antt: property lists, made one after the other.
//! - proofs/Begins.antt, proofs/KeysSoFar.antt: packages that are begun, and keys of which no two are one.
//! - proofs/EntryParts.antt, proofs/MacroParts.antt, proofs/ReadtableParts.antt, proofs/TableParts.antt, proofs/NamedTables.antt:
//!   readtables, made entry by entry and one after the other.
//! - proofs/Filling.antt, proofs/ReadRows.antt: lists that are made place by place, and data that are read item by item.
#![tactic(auto)]

mod error;
mod known;
mod own_parts;
mod package_parts;
mod parts;
mod property_lines;
mod property_parts;
mod reader;
mod table_parts;

pub use error::SnapshotError;
pub use reader::{read, read_with_seed};
pub use world_text::{
    one_text_one_state, printed_objects_read_back, snapshot_lines_are_read, write, write_in,
};
