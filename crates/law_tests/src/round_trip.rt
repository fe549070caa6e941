//! An object that is printed and read again.
ghost use Rattle.std.specs.Prelude.{◌≡◌, ◌≤◌, ◌<◌, ◌+◌, [], IfOk, IsTrue, length, true};
ghost use Rattle.canon_printer.specs.Printed.{printed};
ghost use Rattle.canon_printer.specs.Symbols.{HasAllSymbols};
ghost use Rattle.form_reader.specs.Reader.{IsOutcome};
ghost use Rattle.lisp_object.specs.Datum.{is_proper, object_of};
ghost use Rattle.lisp_object.specs.Object.{IsSound, object_depth};
ghost use Rattle.lisp_reading.specs.Reading.{form, space_at};
ghost use Rattle.package_table.specs.Table.{IsPackage};
ghost use Rattle.readtable_core.specs.Tables.{standard};
ghost use Rattle.world_text.specs.PrintedTokens.{AreTokensWithin, ends_with_token};

use canon_printer::{print, printed_symbols_are_found};
use form_reader::{Limits, ReadOutcome, read_one};
use lisp_object::Datum;
use package_table::Packages;
use package_table::standardized::COMMON_LISP;
use readtable_core::Readtable;
use std::alloc::{AllocError, Global};
use std::test::Fail;
use user_macros::{MacroFunctions, Macros, NoFunctions};
use world_text::printed_objects_read_back;

/// Prints an object and reads the text under the standard readtable: if it is within the limits, it is the same object, from the first byte to
/// the last.
fn read_printed<R: MacroFunctions>(
    alloc: Global,
    limits: Limits,
    datum: &Datum,
    packages: &Packages,
    current: &[u8],
    macros: &R,
) -> Result<ReadOutcome, AllocError>
    requires answers { R.answers macros.now }
    requires proper { is_proper datum.now ≡ true }
    requires current { IsPackage packages.now.0 current.now }
    ensures { IfOk result (λ outcome. IsSound (object_of datum.now)
        → HasAllSymbols packages.now.0 (object_of datum.now) → object_depth (object_of datum.now) ≤ limits.nesting
        → length (printed packages.now.0 current.now (object_of datum.now)) ≤ limits.text
        → 0 < limits.token → AreTokensWithin packages.now.0 current.now limits.token (object_of datum.now)
        → IsOutcome outcome (form (object_of datum.now) 0
        (length (printed packages.now.0 current.now (object_of datum.now)))
        (length (printed packages.now.0 current.now (object_of datum.now))
        + space_at standard (ends_with_token (object_of datum.now)) []))) }
{
    printed_objects_read_back();
    packages.soundness();
    let table = Readtable::standard(alloc)?;
    let text = print(alloc, datum, packages, current)?;
    let outcome = read_one(
        alloc,
        limits,
        &table,
        10,
        packages,
        current,
        macros,
        text.as_slice(),
    )?;
    Ok(outcome)
}

/// Whether NIL is a symbol of COMMON-LISP: it is so of all packages.
fn has_nil(packages: &Packages) -> bool
    ensures { IsTrue result }
{
    printed_symbols_are_found();
    packages.soundness();
    packages.is_symbol(COMMON_LISP, b"NIL")
}

/// Whether an integer is read again in the first packages.
fn is_read_again(alloc: Global, number: i128) -> Result<bool, AllocError> {
    let packages = Packages::new(alloc)?;
    let macros = Macros::new(alloc, NoFunctions);
    let Some(current) = packages.find(b"COMMON-LISP-USER") else {
        return Ok(false);
    };
    let datum = Datum::Integer(number);
    let outcome = read_printed(alloc, Limits::form(), &datum, &packages, current, &macros)?;
    match &outcome {
        ReadOutcome::Form {
            datum: Datum::Integer(again),
            ..
        } => Ok(*again == number),
        _ => Ok(false),
    }
}

#[test]
fn nil_is_a_symbol(rt: HostRuntime) -> Result<(), Fail> {
    let packages = Packages::new(rt.alloc())?;
    assert!(rt; has_nil(&packages));
    Ok(())
}

#[test]
fn integers_are_read_again(rt: HostRuntime) -> Result<(), Fail> {
    for number in [0, -17, 340_282_366_920_938] {
        assert!(rt; is_read_again(rt.alloc(), number)?);
    }
    Ok(())
}
