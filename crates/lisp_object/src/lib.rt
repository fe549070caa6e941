//! Lisp objects as data.
//!
//! `Datum` is an object as a tree: numbers, characters, texts, symbols, lists and vectors. Its fields are `Ratio` (in
//! lowest terms always), `Bytes`, `Items` and `Boxed`, which contracts see as what they hold, so that `≡` on data is
//! equality of the trees. `object_of` (specs/Datum.antt) says which object (specs/Object.antt) a datum is: atoms, pairs and
//! vectors, where a list is nested pairs that end in NIL.
//!
//! - `Datum::nil`, `Datum::list` and `Ratio::reduce` make data: the object is the stated one, and proper where the parts are.
//! - `copy` gives an equal datum. `depth`, `size`, `is_proper`, `is_nil` and `is_list` say what a datum is; where
//!   `is_proper` is true, the object is a sound one (`IsSound`): numbers, ratios and characters in their ranges, and a proper
//!   list in each vector.
//! - `refusal` has the numbers that calls refuse with, and their names.
//!
//! # Modules
//!
//! - `datum`: `Datum`, and the functions that make one; `list`: lists of items; `ratio`: `Ratio`, in lowest terms
//! - `copy`, `depth`, `size`, `proper`: what is asked of data, each in a file of its name
//! - `bytes`, `items`, `boxed`: the fields of a datum, each seen as what it holds; `short_bytes`: few bytes, in the value itself
//!
//! # Words for the crates above
//!
//! - specs/Object.antt: `Object`, `nil`, `pairs`, `list_of`; `object_is_list`, `is_proper_list`; `IsSound`; `AllAtoms P` and
//!   `AllSymbols P`, that P holds of each atom of an object, or of the home and the name of each of its symbols;
//!   `object_depth`, `object_size`.
//! - specs/Datum.antt: `object_of`, `is_proper`, `is_list`, `depth`, `size`. specs/Ascii.antt: `is_ascii`.
//! - specs/Lowest.antt: `IsLowest`. specs/Quotient.antt: `gcd`, `quotient`. specs/Refusal.antt: `names`, `name_of`.
//! - specs/ObjectCode.antt: `object_code`, for a struct that has objects in the value of its model.
//!
//! # Laws for the crates above
//!
//! Each is public, and keeps its name.
//!
//! - proofs/Objects.antt: `object_laws`, `depth_laws`, `size_laws`, the equations at each variant, and the lemmas in them
//!   (`object_of-List`, `fold-Symbol` ..). proofs/Properness.antt: `proper_laws` (`is_proper-List` ..), `is_list-List`,
//!   `is_list-dotted`, `is_list-Symbol`. A crate names these sets in its `using(..)`.
//! - proofs/ProperLists.antt: what a proper list has in it (`items_of_proper`, `tail_of_proper`, `end_of_proper`,
//!   `proper_list_items`, `proper_list_tail`, `proper_vector_items`), and which objects are lists and proper lists
//!   (`list_object`, `no_list_object`, `proper_list_object`, `pairs_proper`, `proper_pairs`, `no_proper_list`,
//!   `proper_list_is`, `nil_symbol`).
//! - proofs/Lists.antt: lists that are joined (`pairs-append`, `object_of-joined`), what is no list (`is_list-other`), and
//!   that proper items make a proper list (`proper_items`).
//! - proofs/Atoms.antt: `atoms_weaker`, `symbols_weaker`, `atoms_pairs`, `pairs_atoms`,
//!   `atoms_List`, `atoms_Vector`: for a function that goes through a datum.
//! - proofs/Sound.antt: `all_below` and `all_ascii` (the bytes of a name are below 128 exactly where they pass the test),
//!   `sound_nil`, `sound_pairs`.
//! - proofs/Restored.antt: which datum is an object of each kind (`from_integer` and so on), and that no two proper data are
//!   one object (`same_datum`).
//! - proofs/ByKind.antt: what holds of each kind of datum and its object holds of every proper datum (`by_kind`).
//! - proofs/Depths.antt: `depth_object`. proofs/Sizes.antt: `size_object`. proofs/Quotients.antt: `gcd_from_IsGcd`, `lowest`,
//!   `lowest_stays`.
//! - proofs/Tree.antt: a `BTreeMap` read as a finite map, by what is read of its keys (`got_at`, `as_map-insert`,
//!   `as_map-set_at`, `as_map-remove_at`, `insert_same`). proofs/TreeEntries.antt: its entries in their order
//!   (`entries-as_map`, `entries_in_order`, `keys-as_set`), sets, and copies entry by entry (`copied_next`,
//!   `copied_next_key`).
#![tactic(auto)]

mod boxed;
mod bytes;
mod copy;
mod datum;
mod depth;
mod items;
mod list;
mod proper;
mod ratio;
pub mod refusal;
mod short_bytes;
mod size;

pub use boxed::Boxed;
pub use bytes::Bytes;
pub use datum::Datum;
pub use items::Items;
pub use ratio::Ratio;
