//! Functions that are kept in the world, and what evaluation with them counts.
//!
//! A definition is the value of a property: `DEFINITION` of PAZTURROK beside the symbol of a function, and `READER-DEFINITION`
//! beside the keyword of a macro function. `specs/` says which objects are definitions, which function a symbol names in a state
//! of the world, and what a point of an evaluation is that counts its steps. The crate `lexical_evaluation` evaluates with them.
//!
//! - `definition`: variables, the definition that a datum is, and the function of a symbol
//! - `reader_definition`: the macro function of a name
//! - `defining`: DEFUN and DEFINE-READER
//! - `environment`: variables that have values
//! - `local_operator`: the operators that bind variables, take functions or define them, by their names
//! - `weights`: how many steps data are
//! - `bounds`: how far calls go, and the refusals of what goes further
#![tactic(auto)]

pub mod bounds;
mod defining;
mod definition;
mod environment;
mod local_operator;
mod reader_definition;
mod weights;

pub use defining::{define, define_reader};
pub use definition::{
    FUNCTION_INDICATOR, PAZTURROK, StoredDefinition, definition_in, definition_of, function_in,
    is_definable, is_variable, proper_items, symbol_in, variables_in,
};
pub use environment::{Binding, bound_in};
pub use local_operator::{LocalOperator, Sweep};
pub use reader_definition::{
    READER_INDICATOR, StoredReader, is_lisp_name, reader_definition_in, reader_definition_of,
    reader_in,
};
pub use weights::{weight, weight_of_list};
