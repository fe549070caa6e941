//! What is read of the texts of the forms that the store's own code writes, and what these forms do. It has definitions and lemmas alone,
//! for crates above that write such forms: export_laws, whole_export and client_table.
//!
//! - `Objects` of specs: the forms as objects
//! - `PartsRead` and `Symbols` of proofs: what is read of the parts of a form
//! - `There`: the symbols of a form are there; `One`: what a form that sets a property does
#![tactic(auto)]
