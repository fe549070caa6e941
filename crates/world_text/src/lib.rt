//! The text of a world: what it is, how it is written, and that it is read back.
//!
//! The text is three printed objects: the packages, the property lists and the readtables (`snapshot` of
//! specs/Snapshot.antt), and `write` gives exactly this text. That is versions 2 and 3. The text of version 1, in which halves were
//! written before, has no base for numbers, and so it is that of the worlds that read in base 10; `write_in` gives the text of
//! either. The law `one_text_one_state` says that a text of a version is that of one sound state, and
//! `snapshot_lines_are_read` that each of its lines is read. `printed_objects_read_back` is the law of any object: its
//! printed text is read, under the standard readtable and in the same packages, as the same object. What it asks of the tokens in
//! the text, specs/PrintedTokens.antt says. snapshot_text reads the text.
//!
//! - `writer`: `write`, `write_in`, and `write_kept`, which leaves out names that a test does not keep; `name_test`: `NameTest`;
//!   `package_rows`, `property_texts`: packages and property lists as text, `table_rows`: readtables as data; `texts`: lists of texts;
//!   `printing`: data printed at the end of a text
//! - `laws`: `printed_objects_read_back`, `one_text_one_state`, `snapshot_lines_are_read`
//!
//! # Laws for the crates above
//!
//! - proofs/Whole.antt, proofs/Spelling.antt, proofs/PlainObjects.antt: each object is read back from its printed
//!   text.
//! - proofs/Atoms.antt, proofs/Begun.antt, proofs/Lists.antt, proofs/Sizes.antt: tokens, and how objects and lists are read, for
//!   objects that stand in a text of another kind.
//! - proofs/LinesRead.antt, proofs/WithinLimits.antt: the lines of a sound state are read, and are within the
//!   limits of a snapshot.
//! - proofs/OneLine.antt, proofs/SameText.antt, proofs/SamePackages.antt, proofs/RowsByKey.antt: a text is that of
//!   one sound state.
//! - proofs/PlainLines.antt: the first line and the third are of texts, numbers and NIL, which are printed alike with all packages.
//! - proofs/RowsWritten.antt: lists that are written item by item, and the images of what passes a test.
//! - proofs/PackageEntries.antt: the lists of the names of a package say what is at each name.
//! - proofs/Versions.antt: the third object of a state, by version.
//! - proofs/Ascii.antt: the names of sound packages are of characters.
//! - proofs/Characters.antt, proofs/Marked.antt: what holds of each of the 128 characters, and the marks of an atom that is one
//!   token.
#![tactic(auto)]

mod laws;
mod name_test;
mod package_rows;
mod printing;
mod property_texts;
mod table_rows;
mod texts;
mod writer;

pub use laws::{one_text_one_state, printed_objects_read_back, snapshot_lines_are_read};
pub use name_test::NameTest;
pub use table_rows::table_named;
pub use writer::{write, write_in, write_kept};
