//! Readtables: what each of the 128 characters does when a reader meets it.
//!
//! A readtable gives each character a syntax type and, at macro characters, the name of the function that is called
//! there; a dispatching macro character also has a table from sub-characters to names (standard 2.1.1, 2.1.4, 23.2).
//! Contracts see a readtable as the value `Table` of `specs/Tables.antt`: a case and a list of 128 entries. The traits of
//! a character (standard 2.1.4.2) belong to the character, and no readtable changes them.
//!
//! - `characters`: `Syntax`, `Traits`, `traits_of`
//! - `names`: `FnName`, the name of a reader macro function
//! - `standard_names`: the names of the functions of the standard readtable
//! - `entry`: `CharacterSlot`, what is at one character
//! - `table`: `Case`, `Readtable` and the calls that read or change it
//! - `refusal`: `DispatchRefusal`
//! - `standard_table`: the functions of the standard readtable, character by character
//!
//! Journals keep entries: `entry` copies one, and `put_entry` puts one back and takes no memory; an old entry put back gives
//! the old readtable. Snapshots write the entries that differ from the standard ones (`same_entry`), by numbers
//! (`Syntax::number`, `Syntax::from_number`) and names (`Case::name`, `Case::from_name`). What
//! a readtable names is `functions_of` of `specs/NamedFunctions.antt`; a caller goes through `entries`, as `covers` of user_macros.
//!
//! Crates above cite these lemmas, and they keep their names:
//!
//! - of `proofs/Standard.antt`: `standard_at`, `standard_syntax_at`, `standard_function_at`, `standard_dispatch_at` and
//!   `standard_sub_function_at`, what the standard readtable has at a character and at a sub-character of `#`;
//! - of `proofs/Sound.antt`: `standard_sound`; `kept`, which says that a readtable with one more sound entry is sound;
//!   `macro_sound`, `dispatching_sound` and `function_sound`, which say that the entries of the changes are; and
//!   `upper_is`, by which std's upper case is the one of the definitions;
//! - of `proofs/PutBack.antt`: `put_back`, by which an old entry, put back after any other, gives the old readtable;
//! - of `proofs/Named.antt`: `same_is` and `same_itself`, by which `same_entry` is equality; `same_number` and
//!   `number_known`, by which a syntax type is told by its number, which is read; `same_case` and `case_known`, by which a case
//!   is told by its name, which is read; `all_functions`, `all_named` and `passes`, which take a test of all named functions apart;
//!   `named_at`, `named_function` and `named_sub_function`, what such a test says at a character; `named_after`,
//!   `named_with_function` and `named_by_dispatching`, what a change leaves of it; and
//!   `standard_named`, by which the standard readtable names standard functions and STD-DISPATCH alone.
#![tactic(auto)]

mod characters;
mod entry;
mod names;
mod refusal;
pub mod standard_names;
mod standard_table;
mod table;

pub use characters::{Syntax, Traits, traits_of};
pub use entry::CharacterSlot;
pub use names::FnName;
pub use refusal::DispatchRefusal;
pub use table::{Case, Readtable};
