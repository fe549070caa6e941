//! What is kept of the packages, by numbers. Each thing is in a list that only grows, and its position there is its
//! number.
//!
//! Contracts see `PackageSets` as a `Kept` (specs/KeptSets.antt): the names of symbols, the packages, the symbols, and
//! what is imported, external and used, each a list. `IsGood` (specs/Consistent.antt) holds of it always: nothing is in a
//! list twice, and each number is that of something that is there. specs/Changes.antt says what each call adds. After
//! a call that fails nothing has changed. To go back to an earlier state is to cut each list to the length that it had
//! (`cut`): `sizes` says how long they are, in 24 bytes.
//!
//! - `sets`: `PackageSets`, a copy of them, their lengths and going back; `look_ups` and `changes`: their calls
//! - `names`: `Names`, each once, `name`: one of them, and `hints`: guesses where one is
//! - `pairs`: `Pairs` of numbers, each once, and the positions of those with the same first, and `pair`: one of them
//! - `chains`: `Chains`, symbols or external symbols by their names: for each name the last that has it, and for each of them
//!   the one before. `find_inherited` goes along them, and so does `find` of `symbols`: `Symbols`, which are pairs
//! - `seed`: `Seed`, with which both are hashed: names come from clients, who must not know where they fall
//!
//! # Laws for the crates above
//!
//! Their definitions are all in specs/KeptSets.antt, specs/Consistent.antt, specs/Changes.antt and specs/InheritedNames.antt.
//!
//! - proofs/Cut.antt: going back (`cut_itself`, `cut_cut`, and `cut_package` and its like), and that lengths are at most
//!   those of now (`up_to_itself`, `up_to_package` and its like).
//! - proofs/Places.antt: places in lists (`all_at`, `none_any`, `any_none`, `any_some`, `none_is_length`).
//! - proofs/Growing.antt: `pair_equiv`, that the test of two pairs is an equivalence.
#![tactic(auto)]

mod chains;
mod changes;
mod hints;
mod look_ups;
mod name;
mod names;
mod pair;
mod pairs;
mod seed;
mod sets;
mod sizes;
mod symbols;

pub use look_ups::Inherited;
pub use names::Names;
pub use pair::Pair;
pub use pairs::Pairs;
pub use seed::Seed;
pub use sets::PackageSets;
pub use sizes::Sizes;
pub use symbols::Symbols;
