//! The operators on property lists, packages, readtables and the read base, each of the list of the values of its arguments.
//!
//! `specs/` says what each gives in a state of the world: a value, the state after it and whether anything was written, or the
//! number of its refusal. Each function does with a `World` what its definition says, or answers that memory ran out (`Answers`
//! of specs/EvaluationAnswers.antt). After a refusal or out of memory the world may have changed, but for its marks. Which form is a call
//! of which operator, the crate `evaluator` says.
//!
//! - `properties`, `places`, `packages`, `package_lists`, `look_ups`, `readtables`, `read_base`: the operators of each family;
//!   `effects`: GET, where its truth alone is asked for, and SETF and PUSH of a property, where their values are not
//! - `error`, `evaluated`: what an operator gives, `EvaluationError` and `Evaluated`
//! - `arguments`, `owned_arguments`, `kinds`, `lists`, `values`: so many arguments, what each stands for, lists of them, and
//!   values that are built; `list_builder`: a list that is built of one value after the other, by the sizes of its items
//!   (`sizes`); `changes`: changes of the packages, one after the other
//!
//! # Laws for the crates above
//!
//! - proofs/Keeping.antt, proofs/KeepingOperators.antt: a relation between the state before and after, through
//!   outcomes and operators.
//! - proofs/Silence.antt, proofs/SilentOperators.antt: what does not write leaves the state as it was.
//! - proofs/Numbered.antt, proofs/NumberedOperators.antt: refusals have a number of evaluation.
//! - proofs/Good.antt, proofs/Storable.antt, proofs/SoundPackages.antt, proofs/SoundProperties.antt,
//!   proofs/SoundReadtables.antt, proofs/SoundBase.antt: each operator leaves a sound state, and a value that may
//!   be stored.
//! - proofs/Covering.antt: readtables name no other functions than those that may be named.
//! - proofs/ListBuilding.antt: the depth and the size of a list with one value more.
//! - proofs/SameBase.antt: no operator but SETF of `*READ-BASE*` changes the base.
//! - proofs/PackageSteps.antt, proofs/Unmoved.antt: changes of the packages one after the other, and those that
//!   change nothing.
//! - proofs/LookUpLaws.antt, proofs/PlaceLaws.antt: the same laws of the operators that look up, and of those that change a place.
//! - proofs/PropertyRows.antt, proofs/Shapes.antt: what the operators on property lists build, and objects by the
//!   data that stand for them.
#![tactic(auto)]

mod arguments;
mod changes;
pub mod effects;
mod error;
mod evaluated;
pub mod kinds;
mod list_builder;
mod lists;
pub mod look_ups;
mod owned_arguments;
pub mod package_lists;
pub mod packages;
pub mod places;
pub mod properties;
pub mod read_base;
pub mod readtables;
mod sizes;
pub mod values;

pub use error::EvaluationError;
pub use evaluated::{Evaluated, either};
pub use list_builder::ListBuilder;
