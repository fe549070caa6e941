//! The printer: the one text of an object, for the standard readtable (standard 22.1.3).
//!
//! - `print` gives the text of a proper datum with some packages, in a package that is one of them: exactly `printed` of
//!   specs/Printed.antt, for the object that the datum is. The only error is out of memory.
//! - `printed_symbols_are_found` is a law: what is written for a symbol that is present in its home means this symbol again.
//!
//! # Words for the crates above
//!
//! - specs/Printed.antt: `printed`, a recursion on the object (`written` of specs/Written.antt), which leaves open what comes
//!   before the name of a symbol; `printed_prefix` says that, by what the current package finds (`is_accessible`,
//!   `has_home`).
//! - specs/Names.antt: how a name is written, as it is or between bars (`printed_name`, `is_plain`, `escaped`).
//! - specs/Symbols.antt: `HasAllSymbols`, that each symbol of an object is present in its home.
//!
//! # Laws for the crates above
//!
//! Each is public, and keeps its name.
//!
//! - proofs/Lists.antt: a list is written by its items (`written_rest_pairs`, `written_list`, `written_vector`) and by what
//!   ends it (`written_rest_dotted`).
//! - proofs/Resolved.antt: the parts of `printed_symbols_are_found` (`accessible_resolved`, `external_resolved`,
//!   `internal_resolved`), with `is_home`, `home_there`, `found_home`, `nil_present`.
//!
//! # Modules
//!
//! - `printer`: `print`, lists and vectors
//! - `symbols`: symbols, and what comes before their names
//! - `names`: names, with or without bars
//! - `atoms`: numbers, characters and texts
//! - `laws`: the law
#![tactic(auto)]

mod atoms;
mod laws;
mod names;
mod printer;
mod symbols;

pub use laws::printed_symbols_are_found;
pub use printer::print;
