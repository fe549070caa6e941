//! The value of a form that has local variables, or that calls functions which are kept in the world.
//!
//! `specs/` says what such a form means: `value_with_functions` of specs/Calls.antt. The machine has a stack of its own, so how
//! deep calls are in one another does not depend on that of the processor. MAPCAR and its like are not there yet.
//!
//! - `machine`: what is done next, over what waits for values (`frame`). `machine::beginning` takes a form apart, by what is at its
//!   `head`: `deciding` the operators that decide, `places` those that change a place, `applying` those that bind, take a function or
//!   define one. `binding` LET and LET*, `conditional` COND, `calling` functions, `resuming` a value that comes, `finishing` what is
//!   done with the values of arguments, `stepping` one step of these
//! - `calls`: the value of a form (`evaluate`), one step after the other
//! - `laws`: what holds of the language with functions, beside the one without them
//!
//! # Laws for the crates above
//!
//! - proofs/Outcomes.antt: what has a value, or is refused for another reason than want of a function, is as it was.
//! - proofs/Relating.antt, Lasting: one induction over the value of a form, for a relation between the state before it and the state after
//!   it (`value_related`).
//! - proofs/LastingLaws.antt: a form that does not write leaves the state as it was, no form leaves other readtables than those that are
//!   covered, and it is refused under a number of evaluation.
//! - proofs/Agreeing.antt: the two languages agree.
#![tactic(auto)]

mod calls;
mod frame;
pub mod laws;
mod machine;

pub use calls::evaluate;
