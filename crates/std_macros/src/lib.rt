//! The functions of the standard readtable: what each gathers, and the value that it gives.
//!
//! A reader calls the function at a macro character by its name. `standard_of` says which standard function the name is,
//! `way` in which way it gathers, and `finish` what it gives for what was gathered: an object, nothing, or a refusal
//! (standard 2.4). `specs/Values.antt` has the value of each function.
//!
//! - `kind`: `Standard`, `standard_of`, `StdGather`, `way`, `radix_of`
//! - `gathered`: `StdGathered`, `Finished`
//! - `refusal`: `StdRefusal`, `FinishError`
//! - `values`: `finish`; of `characters` the names of characters, of `vectors` vectors with a length
//!
//! Nothing of the macro functions of users is needed here. Crates above cite `known_is` of `proofs/Names.antt`, by which a
//! name has a standard function exactly where it is a standard one, and it keeps its name.
#![tactic(auto)]

mod characters;
mod gathered;
mod kind;
mod refusal;
mod values;
mod vectors;

pub use gathered::{Finished, StdGathered};
pub use kind::{Standard, StdGather, radix_of, standard_of, way};
pub use refusal::{FinishError, StdRefusal};
pub use values::finish;
pub use vectors::LARGEST_REPEATED_VECTOR;
