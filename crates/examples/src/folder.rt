//! A store over a folder of the file system.
ghost use Rattle.std.specs.Prelude.{◌<◌, ◌-◌, ◌^◌};

use disk_trait::{Disk, HostDisk};
use lisp_object::Datum;
use prevalence_store::{Mode, Outcome, Store};
use std::alloc::{AllocError, Global};
use std::fs::File;
use std::rt::Files;
use thiserror::Error;
use user_macros::{MacroFunctions, Macros, NoFunctions};

/// How many bytes each of the two files of the store may have.
pub const HALF_LIMIT: u64 = 1 << 20;

/// One more than the number that the store has, or 1.
const COUNT: &[u8] = b"(IF (GET 'N 'VALUE) (INCF (GET 'N 'VALUE)) (SETF (GET 'N 'VALUE) 1))";

/// Why there is no number.
#[derive(Debug, Drop, Error)]
pub enum StoreError {
    #[error("the folder cannot be used")]
    Device,
    #[error("refused with number {0}")]
    Refused(u16),
    #[error("the answer is no integer")]
    NoInteger,
    #[error("out of memory")]
    Memory(#[from] AllocError),
}

/// Counts one more in the store of a folder, which is made where it is missing. Once there is an answer, the number is on the disk.
pub fn next_number<R: Files<File = File> + AllocGlobal>(
    rt: &R,
    folder: &str,
) -> Result<i128, StoreError> {
    let Ok(disk) = HostDisk::open(rt, folder) else {
        return Err(StoreError::Device);
    };
    next_on(rt.alloc(), disk, Macros::new(rt.alloc(), NoFunctions))
}

/// Counts one more in the store of any disk, with any macro functions: what holds a store is generic in both.
fn next_on<D: Disk + Drop, M: MacroFunctions + Drop>(
    alloc: Global,
    disk: D,
    macros: M,
) -> Result<i128, StoreError>
    requires room { (D.state disk).failures < 2 ^ 64 - 1 }
    requires answers { M.answers macros }
{
    let mut store = match Store::open(alloc, disk, macros, HALF_LIMIT) {
        Ok(store) => store,
        Err(unopened) => return Err(StoreError::Refused(unopened.number)),
    };
    let outcome = store.execute(Mode::Current, COUNT);
    let _closed = store.close();
    match &outcome {
        Outcome::Accepted(Datum::Integer(number)) => Ok(*number),
        Outcome::Refused(number) => Err(StoreError::Refused(*number)),
        _ => Err(StoreError::NoInteger),
    }
}
