//! Reads a text of one's own, under the standard readtable and in COMMON-LISP-USER, and prints the object that it begins with.
use canon_printer::print;
use form_reader::{Limits, ReadOutcome, read_one};
use package_table::Packages;
use package_table::standardized::COMMON_LISP_USER;
use readtable_core::Readtable;
use std::alloc::{AllocError, Global};
use thiserror::Error;
use user_macros::{Macros, NoFunctions};

/// Why nothing was printed.
#[derive(Debug, Drop, Error)]
pub enum ReadingError {
    #[error("the text is refused with number {number} at {at}")]
    Refused { number: u16, at: usize },
    #[error("the text has no object")]
    Empty,
    #[error("out of memory")]
    Memory(#[from] AllocError),
}

/// The object that a text begins with, as it is printed. Reading interns no symbol: one that the packages do not have is printed
/// after its home.
pub fn read_and_print(alloc: Global, text: &[u8]) -> Result<Vec<u8>, ReadingError> {
    let readtable = Readtable::standard(alloc)?;
    let packages = Packages::new(alloc)?;
    packages.soundness();
    let macros = Macros::new(alloc, NoFunctions);
    let current = COMMON_LISP_USER;
    let limits = Limits::form();
    match read_one(
        alloc, limits, &readtable, 10, &packages, current, &macros, text,
    )? {
        ReadOutcome::Form { datum, .. } => Ok(print(alloc, &datum, &packages, current)?),
        ReadOutcome::Empty => Err(ReadingError::Empty),
        ReadOutcome::Refused { code, at } => Err(ReadingError::Refused { number: code, at }),
    }
}
