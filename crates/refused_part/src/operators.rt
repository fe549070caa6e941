//! The names of operators, and which of them PAZTURROK has, which a store knows once its package is made.
ghost use Rattle.std.specs.Prelude.{◌≤◌};

use crate::near::first_near;
use lisp_object::Datum;
use lisp_operators::look_ups::LookUp;
use lisp_operators::places::PlaceChange;
use std::alloc::{AllocError, Global};
use value_functions::ValueFunction;

/// The package of the operators that COMMON-LISP does not have.
pub(crate) const PAZTURROK: &[u8] = b"PAZTURROK";

/// The operator that is a form of its own, and stands in no other one.
const FORGET_NAMES: &[u8] = b"FORGET-NAMES";

/// An operator of COMMON-LISP and of PAZTURROK.
const INCF: &[u8] = b"INCF";

const DECF: &[u8] = b"DECF";

/// Those of PAZTURROK that decide which of their arguments are evaluated.
const DECIDING: [&[u8]; 7] = [
    b"AND", b"OR", b"COND", b"WHEN", b"UNLESS", b"PROG1", b"ASSERT",
];

/// Those that may have been meant: of two that are as near to a name the first.
const KNOWN: [&[u8]; 76] = [
    b"SETF",
    b"GET",
    b"LIST",
    b"QUOTE",
    b"PROGN",
    b"IF",
    b"REMPROP",
    b"SYMBOL-PLIST",
    INCF,
    b"PUSH",
    b"MAKE-PACKAGE",
    b"IN-PACKAGE",
    b"USE-PACKAGE",
    b"EXPORT",
    b"IMPORT",
    b"INTERN",
    b"COPY-READTABLE",
    b"IN-READTABLE",
    b"READTABLE-CASE",
    b"SET-SYNTAX-FROM-CHAR",
    b"SET-MACRO-CHARACTER",
    b"GET-MACRO-CHARACTER",
    b"MAKE-DISPATCH-MACRO-CHARACTER",
    b"SET-DISPATCH-MACRO-CHARACTER",
    b"GET-DISPATCH-MACRO-CHARACTER",
    b"AND",
    b"OR",
    b"COND",
    b"WHEN",
    b"UNLESS",
    b"PROG1",
    b"ASSERT",
    b"EQUAL",
    b"EQL",
    b"NOT",
    b"CONSP",
    b"SYMBOLP",
    b"STRINGP",
    b"INTEGERP",
    b"CHARACTERP",
    b"VECTORP",
    b"=",
    b"/=",
    b"<",
    b"<=",
    b">",
    b">=",
    b"+",
    b"-",
    b"*",
    b"FLOOR",
    b"MOD",
    b"MIN",
    b"MAX",
    b"STRING=",
    b"STRING<",
    b"SYMBOL-NAME",
    b"CONS",
    b"CAR",
    b"CDR",
    b"NTH",
    b"MEMBER",
    b"ASSOC",
    b"ADJOIN",
    b"LENGTH",
    b"REVERSE",
    b"REMOVE",
    b"APPEND",
    b"VECTOR",
    b"SVREF",
    DECF,
    b"POP",
    b"FIND-SYMBOL",
    b"LIST-ALL-PACKAGES",
    b"SYMBOLS-WITH",
    FORGET_NAMES,
];

/// A longer name is near to none.
const LONGEST: usize = 40;

/// The name of a symbol.
pub(crate) fn name_of_symbol(datum: &Datum) -> Option<&[u8]> {
    match datum {
        Datum::Symbol { name, .. } => Some(name.as_slice()),
        _ => None,
    }
}

/// Whether it is a symbol of PAZTURROK.
pub(crate) fn is_in_pazturrok(datum: &Datum) -> bool {
    match datum {
        Datum::Symbol { package, .. } => package.as_slice() == PAZTURROK,
        _ => false,
    }
}

/// Whether it is the name of an operator that adds to a property.
pub(crate) fn is_counting(datum: &Datum) -> bool {
    match name_of_symbol(datum) {
        Some(name) => name == INCF || name == DECF,
        None => false,
    }
}

/// A printed name without its bars, if it is that of an operator: `+` is printed with bars, and written without them.
pub(crate) fn without_bars(printed: &[u8]) -> &[u8] {
    match printed {
        [b'|', name @ .., b'|'] if is_of_pazturrok(name) => name,
        _ => printed,
    }
}

/// Whether it is the name of one of PAZTURROK, which COMMON-LISP does not have.
pub(crate) fn is_of_pazturrok(name: &[u8]) -> bool {
    if name == FORGET_NAMES || DECIDING.iter().any(|deciding| *deciding == name) {
        return true;
    }
    ValueFunction::named(name).is_some()
        || LookUp::named(name).is_some()
        || (PlaceChange::named(name).is_some() && name != INCF)
}

/// The operator that may have been meant by a name, whose letters may be small: the one to which the fewest edits lead.
pub(crate) fn meant_by(alloc: Global, name: &[u8]) -> Result<Option<&'static [u8]>, AllocError> {
    if name.len() > LONGEST {
        return Ok(None);
    }
    let mut capitals = Vec::new(alloc);
    for byte in name {
        capitals.push(byte.to_ascii_uppercase())?;
    }
    for edits in 0..most_edits(name) + 1 {
        if let Some(known) = first_near(alloc, &KNOWN, capitals.as_slice(), edits)? {
            return Ok(Some(known));
        }
    }
    Ok(None)
}

// By so many edits a name may be near to another one: of a short name many others are one edit away.
fn most_edits(name: &[u8]) -> usize
    ensures { result ≤ 2 }
{
    match name.len() {
        0 | 1 => 0,
        2..=6 => 1,
        _ => 2,
    }
}
