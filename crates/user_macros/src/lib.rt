//! Macro functions of users: stored closures, each under a name that a readtable may have at a character.
//!
//! A program says what its functions mean by a type that implements `Meaning`: their names, the way in which each gathers,
//! and what each answers, as a definition. It makes the functions as boxed closures and registers them in `Macros`. The
//! registry keeps beside each that it may be called on every sound call, and takes none that could answer anything but its
//! definition. So what a macro call gives is the definition (`MacroFunctions::call`), and no function can count, remember
//! or answer by chance.
//!
//! - `call`: `Gather`, `Gathered`, `Call`, `Answer`
//! - `meaning`: the trait `Meaning`
//! - `no_functions`: the meaning of a program that has none
//! - `functions`: the trait `MacroFunctions`, in which the crates above are generic
//! - `registry`: `Macros`, `MacroFn`, `RegistryRefusal`, `Cause`
//! - `stored`: a stored function and its fact
//! - `example`: one function, from its meaning to its call
//!
//! Crates above cite these lemmas of `proofs/Covered.antt`, and they keep their names: `standard_covered`, by which the
//! standard readtable is covered whatever is registered; `whole_registers`, by which each name of a whole meaning is
//! registered; `registered_by_cover`, by which a covered function that is no standard one is registered; and `weaker`, by
//! which a readtable whose functions pass a test has functions that pass a weaker one. Of `proofs/Found.antt` they cite
//! `each_in_all`, `each_but_one` and `second_counts`, for a loop that tests each element of a list.
#![tactic(auto)]

mod call;
pub mod example;
mod functions;
mod meaning;
mod no_functions;
mod registry;
mod stored;

pub use call::{Answer, Call, Gather, Gathered};
pub use functions::MacroFunctions;
pub use meaning::Meaning;
pub use no_functions::NoFunctions;
pub use registry::{Cause, Macros, RegistryRefusal};
pub use stored::MacroFn;
