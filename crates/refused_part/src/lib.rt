//! The part of a form for which the form was refused.
//!
//! A form is refused with one number, wherever in it that comes from: in `(LIST (FOO 1))` it is the form `(FOO 1)`. `specs/` says which part
//! that is, for every operator alike: with anything else that is refused in its place the form has the refusal of that, and with the
//! part and then such a thing in its place the form has the number that it has. `refused_part` finds it by trials, after each of which the world is
//! as it was.
//!
//! - `part`: `refused_part`, which goes inwards from the form
//! - `trials`: whether a part is evaluated, and refused; `placed`: a part with its place; `trial`: whether a form is refused with a number
//! - `filling`: a form with another part in its place; `marks`: what is put there
//! - `text`: `refused_text`, what is told of it; `quotes`: the text of a part; `ways`: how it is accepted; `clashes`: which name two symbols would
//!   have; `operators`: the names of operators, and which PAZTURROK has; `near`: which of them is near to another name
#![tactic(auto)]

mod clashes;
mod filling;
mod marks;
mod near;
mod operators;
mod part;
mod placed;
mod quotes;
mod text;
mod trial;
mod trials;
mod ways;

pub use part::refused_part;
pub use text::refused_text;
