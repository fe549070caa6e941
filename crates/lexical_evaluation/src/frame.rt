//! What waits for a value.
use evaluator::{Operation, PlaceForm};
use kept_functions::Binding;
use lisp_object::Datum;
use plist_state::Symbol;

/// What is done with the values of arguments, once all of them are there.
#[derive(Debug, Drop)]
pub(crate) enum Target {
    /// An operator, which takes so many steps beside the weight of its value.
    Operation(Operation, PlaceForm, u64),
    /// The function that this names.
    Function(Datum),
    /// The function that the first value names, of the others.
    NamedByFirst,
    /// A function that is written down: its variables, and then forms.
    Written(Vec<Datum>),
    /// PROG1: the first value.
    First,
    /// IN-PACKAGE, of its argument as it is written.
    Enter,
    /// The value of a symbol that no form binds.
    Global,
    /// DEFUN and DEFINE-READER, of their arguments as they are written.
    Define,
    DefineReader,
}

/// What waits for a value. Forms to come are in a vector with the next one last.
#[derive(Debug, Drop)]
pub(crate) enum Awaiting {
    /// Arguments: what is done with them, the forms to come, and the values so far.
    Arguments(Target, Vec<Datum>, Vec<Datum>),
    /// Forms of which the last one's value is wanted.
    Sequence(Vec<Datum>),
    /// IF: the second and the third form.
    Choice(Vec<Datum>),
    /// AND and OR: the truth that is sought, and the forms to come.
    Seek(bool, Vec<Datum>),
    /// COND: the forms of the clause, and the other clauses.
    Clause(Vec<Datum>, Vec<Datum>),
    /// WHEN and UNLESS.
    Guard(bool, Vec<Datum>),
    /// ASSERT.
    Assert,
    /// LET, and LET* where it is in turn: the variable whose value is awaited, the bindings to come, the variables that have values
    /// and are not seen yet, and the forms behind.
    Bind(bool, Symbol, Vec<Datum>, Vec<Binding>, Vec<Datum>),
    /// The variables after so many end with the value.
    Scope(usize),
    /// A function ends with the value: the variables of its caller, and how many calls may be in one another there.
    Call(Vec<Binding>, usize),
}
