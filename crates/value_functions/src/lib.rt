//! The functions whose value depends on their arguments alone, each of the list of the values of its arguments.
//!
//! `specs/` says which names they have, how many arguments each takes, and what each gives: a value, or the number of its
//! refusal. `apply` answers that, or that memory ran out. Which form is a call of which function, the crate `evaluator` says:
//! it looks at the number of the arguments, and gathers those of a function that takes any number of them as LIST does.
//!
//! - `ValueFunction` (module `functions`): the functions, by their names
//! - `apply` (module `calls`): the value of a function
//! - `equals`: whether two objects are the same (standard 5.3)
//! - `predicates`: what an object is (standard 4.2, 5.3)
//! - `comparisons`: how numbers are to one another (standard 12.2)
//! - `extremes`: the least or the greatest of numbers (standard 12.2)
//! - `sums`: sums, differences and products of integers (standard 12.2)
//! - `divisions`: division of integers, rounded down (standard 12.2)
//! - `texts`: the functions on texts and the names of symbols (standard 16.2, 10.2)
//! - `lists`: the functions on pairs and lists (standard 14.2)
//! - `sequences`: the functions on lists, vectors and texts (standard 15.2, 17.3)
//! - `builders`: what is built of any number of objects (standard 14.2, 15.2)
//! - `items`: the items of lists, and copies of them
//! - `kinds`: what an argument is, where it is of a kind; `parts`: lists by their parts, and values that are built; `truth`: T and NIL
//!
//! # Lemmas for the crates above
//!
//! - proofs/Values.antt: of values that may be stored, a call gives what may be stored
//! - proofs/RefusalNumbers.antt: a refusal has a number of evaluation
#![tactic(auto)]

mod builders;
mod calls;
mod comparisons;
mod divisions;
mod equals;
mod extremes;
mod functions;
mod items;
mod kinds;
mod lists;
mod parts;
mod predicates;
mod sequences;
mod sums;
mod texts;
mod truth;

pub use calls::apply;
pub use functions::{
    Arithmetic, Building, Comparison, Division, Equality, Extreme, OnLists, OnSequences, OnTexts,
    Predicate, ValueFunction,
};
