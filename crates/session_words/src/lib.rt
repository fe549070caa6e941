//! What a session and an export are asked to do: what the words of a command line come to. It stands below the store, so that
//! who reads such words needs no store.
//!
//! - `mode`: how the text of a form is read, and the byte of that in a record, by `kind_of` and `mode_of` of specs/Kinds.antt
//! - `wanted`: what a session is asked to do
//! - `content`: what of a world is exported
#![tactic(auto)]

mod content;
mod mode;
mod wanted;

pub use content::Content;
pub use mode::Mode;
pub use wanted::SessionOptions;
