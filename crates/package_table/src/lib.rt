//! Packages: which names a package finds, and which symbols they stand for (standard 11.1).
//!
//! Contracts see `Packages` as a finite map from the names of the packages to their contents (`Table` of
//! `specs/Table.antt`): the symbols that are present, each by its name with its home and whether it is external, and
//! the packages that are used. `Finds` says which symbol a package finds by a name, `found` (specs/Lookup.antt)
//! computes it, and `look_up_laws` says that the two agree. A call that is refused changes nothing, no call loses
//! anything (`Grows` of specs/Growth.antt), and `OutOfMemory` comes only if a call would not be refused.
//!
//! - `packages`: `Packages`, and its calls
//! - `queries`: what callers ask of them
//! - `look_ups`, `conflicts`, `lists`: what is at a name, whether a package finds another symbol by one, and lists of
//!   names
//! - `standardized`, `limits`, `initial`: the names of the first packages, how much there may be, and the first
//!   packages
//! - `find`, `resolve`: names of packages, and what the name in a token stands for; `one_package`: the same in a package
//!   that was found before; they take no memory
//! - `make`, `intern`, `export`, `import`, `use_package`: the calls that write, over `put` (single changes).
//!   `specs/Changes.antt` says what each makes of a table, or why it refuses, and whether it changes it.
//! - `marks`: `mark`, `back_to` and `settle`. The value of `Packages` has the marked tables beside the table of now:
//!   calls that write leave them alone.
//! - `laws`: `look_up_laws`
//! - `error`: `PackageError`
//!
//! The packages are kept by numbers, in lists that only grow (crate `package_sets`). `specs/Meaning.antt` says which
//! table such lists mean: `numbered_of`. No call takes anything away, so that a mark is how long the lists were, and
//! going back cuts them.
//!
//! Each symbol has a number (`specs/Numbers.antt`, `specs/Numbering.antt`), which `number_of` gives: its place in the
//! list. The numbers are beside the table (`Beside`): tables with the same symbols are equal whatever their numbers. A
//! symbol keeps its number over each call that writes (`KeepsNumbers`), and has the one of the mark after going back.
//!
//! # Laws for the crates above
//!
//! Their definitions are those of specs/Table.antt, Lookup, Resolving, Readers, Changes, Growth, Numbers, Numbering,
//! Symbols, Limits and Errors, and `as_map` of specs/KeptTrees.antt. These lemmas keep their names:
//!
//! - proofs/Found.antt: look-ups (`found_is`, `found_finds`, `found_none`, `finds_none`, `present_found`,
//!   `external_shows`, `shows_external`, `used_shows`, `external_entry`).
//! - proofs/Keeping.antt: symbols at home (`present_at_home`, `present_once`, `new_home`).
//! - proofs/Asked.antt: conflicts (`users_other`, `shown_other`).
//! - proofs/KeptChanges.antt, proofs/KeptSound.antt: each change leaves a sound table (`kept_make`, `kept_intern`,
//!   `kept_import`, `kept_export`, `exported_again`, `kept_use`), and what is used is there (`used_is_package`, `no_entry`).
//! - proofs/Growing.antt: growth (`grows_same`, `grows_both`, `finds_grown`).
//! - proofs/Frames.antt: names (`equal_names`, `unequal_names`, `equal_itself`, `name_cases` and their like), and one
//!   change of a table (`entry_new`, `entry_other`, `package_with_entry`, `uses_with_entry`, `entry_with_used`,
//!   `uses_still`, `entry_with_new` and their like).
//! - proofs/Counting.antt: symbols that are counted (`at_home`, `weight`, `symbols_new`, `len_with_new`).
//! - proofs/First.antt, proofs/FirstNames.antt: the first packages (`sound`, `first_count`, `lisp_is_package`,
//!   `user_is_package`, `lisp_present`, `nil_present`).
//! - proofs/Undoing.antt: lists that grow and shrink at their end, as journals do (`IsLast`, `at_last`, `no_more`,
//!   `take_seam`, `get_seam`, `on_ok`).
//! - proofs/Names.antt: the order of names (`name_total`, `name_exact`, `same_tied`, `tied_same`), and options
//!   (`same_some`, `none_some`).
//! - proofs/Numbered.antt: numbers (`number_some`, `number_there`, `number_apart`, `number_kept`, `number_none`,
//!   `at_symbol`, `keeps_same`, `keeps_both`).
//! - proofs/Seen.antt: a tree by names, read as a finite map (`as_map-insert`, `as_map-remove`, `keys-read`,
//!   `entries-as_map` and their like).
//! - proofs/Puts.antt: an entry that is put in place of another (`insert_twice`).
#![tactic(auto)]

mod conflicts;
mod error;
mod export;
mod find;
mod import;
mod initial;
mod intern;
mod laws;
pub mod limits;
mod lists;
mod look_ups;
mod make;
mod marks;
mod one_package;
mod packages;
mod put;
mod queries;
mod resolve;
pub mod standardized;
mod use_package;

pub use error::PackageError;
pub use intern::Interned;
pub use laws::look_up_laws;
pub use one_package::OnePackage;
pub use package_sets::Seed;
pub use packages::Packages;
pub use resolve::Resolved;
