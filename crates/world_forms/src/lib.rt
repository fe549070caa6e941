//! The forms that make a world: given one after the other to a new store, they leave a world with the same text.
//!
//! They are read under the standard readtable, in base 10, in COMMON-LISP-USER. First come the packages, with their symbols, imports,
//! external symbols and uses; then the properties, the readtables, and at last what is current. Without the readtables they are
//! Common Lisp, but for what packages of another Lisp are called. Which text they are is said by `forms` of specs/Forms.antt, and which
//! properties no form can set by `left_out_lines` of specs/Properties.antt. That the forms make the world, tests say.
//!
//! - `export`: `all_forms`, `Export`; `packages`, `properties`, `readtables`: their forms; `texts`: names, texts and characters in a form
#![tactic(auto)]

mod export;
mod packages;
mod properties;
mod readtables;
mod texts;

pub use export::{Export, all_forms};
pub use session_words::Content;
