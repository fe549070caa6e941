//! What reading is (standard 2.2 to 2.4): which object a text begins with.
//!
//! Reading is defined as a plan: a tree that says of each next byte whether it is taken and what is done then. `run` of
//! specs/Plans.antt says what a plan gives on a text, and alone knows offsets and the limit of the text. The definition is
//! `reads` of specs/Reading.antt, which says of a text that it begins with a form (its object, its start, its end, and where
//! the next form begins), that it is empty, or that it is refused, with a number and an offset. It rests on a `Setting`
//! (specs/Setting.antt): the limits, the readtable, the base of numbers, the packages and the current one, and what the
//! registered functions of users gather and answer.
//!
//! - specs/Plans.antt: plans, and what they give; specs/Gathering.antt: texts, lines, blocks and numbers
//! - specs/InvokedCalls.antt: calls; specs/Naming.antt: what a token means in packages; specs/Answering.antt: what a function of a
//!   user may answer
//! - specs/Reading.antt: objects, calls and forms; specs/Deciding.antt: where the attempt begins that decides a text
//! - specs/DiscardedText.antt, specs/Fitting.antt, specs/SamePackages.antt: words of the laws
//!
//! What holds of each reading is on functions that do nothing: `forms_are_framed` says that a form is read again from its own
//! bytes alone, and `spaced_forms_are_framed` the same with the whitespace character that is discarded with it, whatever
//! follows; `forms_are_decided` that a form which ends before a byte is the same whatever follows the text; and
//! `reading_goes_on` gives the equations of reading step by step, with no number of turns in them.
//!
//! - `limits`: `Limits`
//! - `way`, `ways`, `call`: functions and how they gather, and their calls
//! - `held_objects`, `attempt`: what is held while calls are open, and what an attempt at an object comes to
//! - `token_resolution`: what a token means where packages are known
//! - `laws`: `forms_are_framed`, `spaced_forms_are_framed`, `forms_are_within_the_limit`, `forms_are_decided`,
//!   `refusals_are_decided`, `refusals_are_of_reading`, `empty_texts_are_discarded`, `forms_fit`,
//!   `only_what_is_found_matters`, `only_registered_names_matter`, `a_text_is_decided`, `reading_goes_on`
//!
//! # Laws for the crates above
//!
//! - proofs/Framing.antt, proofs/Forms.antt: a form is read again, alone, from its own bytes.
//! - proofs/Following.antt, proofs/Refusals.antt: what ends before a byte is the same whatever follows.
//! - proofs/Bounded.antt, proofs/Offsets.antt: what is read ends within the limit of the text, and is its front.
//! - proofs/Widening.antt, proofs/LargerLimits.antt: what is read under limits is read under larger ones.
//! - proofs/Steps.antt, proofs/Turns.antt: one plan after another, and that the number of turns is always enough.
//! - proofs/Fed.antt: what one byte is inside a text, a line, a block or a number.
//! - proofs/Fittings.antt, proofs/Homes.antt: the symbols of a form fit sound packages; homes are ASCII.
//! - proofs/Numbers.antt: a text is refused under a number of reading alone.
//! - proofs/Registered.antt: of the registered functions, reading asks only for the names.
//! - proofs/Deciding.antt: where the attempt begins that decides a text.
#![tactic(auto)]

mod attempt;
mod call;
mod held_objects;
mod laws;
mod limits;
mod token_resolution;
mod way;
mod ways;

pub use attempt::Found;
pub use call::Invoked;
pub use held_objects::{HeldCharacter, HeldNumber, HeldObject, HeldObjects, HeldText};
pub use laws::{
    a_text_is_decided, empty_texts_are_discarded, forms_are_decided, forms_are_framed,
    forms_are_within_the_limit, forms_fit, only_registered_names_matter,
    only_what_is_found_matters, reading_goes_on, refusals_are_decided, refusals_are_of_reading,
    spaced_forms_are_framed,
};
pub use limits::Limits;
pub use token_resolution::{ResolutionError, ResolvedToken, tell};
pub use way::{Function, Keep, Way};
pub use ways::{function_of, is_baseless, standard_way, user_way};
