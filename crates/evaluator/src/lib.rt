//! The value of a form.
//!
//! `specs/` says what a form means: `value` gives what an object evaluates to in a state of the world, or the number of its
//! refusal, and whether anything was written. `laws` proves what holds of every form. The function `evaluate` does with a
//! `World` exactly what the definition says. Where the form is refused, or memory runs out, what was carried out before stays,
//! and no clause says more of the world then but that its marks are as they were: the crate `form_eval` takes it back.
//!
//! - `calls`: the value of a form (`evaluate`), and what a form does, where its value is not asked for (`apply`, which
//!   gives back a form that is refused for want of a function)
//! - `evaluation`: the value of a form, by recursion on it; `wanted`: what is asked of a value, and what stands for it. Of PROGN
//!   all values but the last are not made. Of IF's test it is only asked whether it is true, and of a value behind those that are
//!   too large for a LIST whether it is too deep
//! - `evaluation::deciding`: the operators that decide which of their forms are evaluated; `decision`: which these are; `clauses`:
//!   those of COND
//! - `direct`: GET of two quoted symbols, and SETF of such a property to a literal, from the form as it stands; `apply` moves the
//!   literal. `trimmed`: a datum that is to be kept
//! - `operation`: what is at its head; `place`: the places of SETF, INCF, DECF, PUSH and POP; `control`: the operators of control,
//!   and atoms; `perform`, `effects`: what an operator makes of the values of its arguments; `computed`: a function of values
//!   alone; `values`: these values
//!
//! # Laws for the crates above
//!
//! - proofs/Forms.antt, proofs/Heads.antt, proofs/Places.antt and proofs/Steps.antt: a form by what is at its head, and by the items of
//!   its list.
//! - proofs/SilentForms.antt: a form that does not write leaves the state as it was.
//! - proofs/SoundForms.antt: a form that is evaluated in a sound state leaves a sound one.
//! - proofs/KeepingForms.antt: a relation that holds of each change holds of a form.
//! - proofs/NumberedForms.antt: a form is refused under a number of evaluation.
//! - proofs/FunctionLaws.antt: what these laws ask of an operator, for the functions of values alone.
//! - proofs/Widening.antt: of two evaluations the second gives what the first gives: one induction for all laws of this kind.
//! - proofs/EarlierOperators.antt: the operators that earlier programs had are among those there are.
//! - proofs/Decisions.antt: AND, OR, COND, WHEN and UNLESS have the values of the forms that the standard gives for them.
//! - proofs/WithoutBase.antt: what a form gives where `*READ-BASE*` is no variable.
//! - proofs/QuotedKeys.antt: GET and SETF of a property that two quoted symbols name.
//! - proofs/Induction.antt: one induction over the value of a form, in which what holds of each step holds of it (`every_value`).
#![tactic(auto)]

mod calls;
mod clauses;
mod computed;
mod control;
mod decision;
mod direct;
mod effects;
mod evaluation;
pub mod laws;
mod operation;
mod perform;
mod place;
pub mod trimmed;
mod values;
mod wanted;

pub use calls::{apply, evaluate};
pub use clauses::{are_clauses, clause};
pub use computed::computed_of_list;
pub use control::symbol_value;
pub use decision::Decision;
pub use operation::Operation;
pub use perform::carry_out;
pub use place::{PlaceForm, check_place, is_standard};
