//! A whole text.
ghost use Rattle.std.specs.Prelude.{◌≡◌, ◌<◌, ◌≤◌, true, Ok, IfOk};
ghost use Rattle.std.specs.List.{list_all};
ghost use Rattle.package_table.specs.Table.{IsPackage};
ghost use Rattle.lisp_reading.specs.Setting.{setting_of};
ghost use Rattle.form_reader.specs.declared.reader.ReadOutcome.TheVariants.{Empty as ReadEmpty};
ghost use Rattle.lisp_reading.specs.Reading.{is_whitespace, reads};
ghost use Rattle.form_reader.specs.Reader.{IsOutcome};

use crate::reader::{Advance, FormReader, ReadOutcome};
use lisp_reading::Limits;
use package_table::Packages;
use plain_reader::read_plain;
use readtable_core::Readtable;
use std::alloc::{AllocError, Global};
use user_macros::MacroFunctions;

/// What the text `bytes` begins with, where numbers are in `base`, which is 2 to 36. A text of whitespace alone needs no
/// memory.
pub fn read_one<R: MacroFunctions>(
    alloc: Global,
    limits: Limits,
    readtable: &Readtable,
    base: u8,
    packages: &Packages,
    current: &[u8],
    macros: &R,
    bytes: &[u8],
) -> Result<ReadOutcome, AllocError>
    requires answers { R.answers macros.now }
    requires lowest_base { 2 ≤ base }
    requires highest_base { base ≤ 36 }
    requires current { IsPackage packages.now.0 current.now }
    ensures outcome { IfOk result (λ outcome. IsOutcome outcome (reads
        (setting_of limits readtable.now base packages.now.0 current.now
        (R.functions macros.now))
        bytes.now)) }
    ensures blank { 0 < limits.text → list_all (is_whitespace readtable.now) bytes.now ≡ true
        → result ≡ Ok ReadEmpty }
{
    // Most forms are plain, and need no reader of bytes.
    if let Some(plain) = read_plain(alloc, limits, readtable, base, packages, current, bytes)? {
        return Ok(ReadOutcome::Form {
            datum: plain.datum,
            start: 0,
            end: plain.end,
            next: plain.end,
        });
    }
    let mut reader = FormReader::new(alloc, limits);
    if bytes.is_empty() {
        return reader.finish(readtable, base, packages, current, macros);
    }
    let (_, advance) = reader.feed(bytes, readtable, base, packages, current, macros)?;
    match advance {
        Advance::More => reader.finish(readtable, base, packages, current, macros),
        Advance::Form {
            datum,
            start,
            end,
            next,
        } => Ok(ReadOutcome::Form {
            datum,
            start,
            end,
            next,
        }),
        Advance::Refused { code, at } => Ok(ReadOutcome::Refused { code, at }),
    }
}
