//! What a reader answers a byte at a time, and the limits. What texts are read as is in `checks/sessions`, how the program takes them
//! in pieces in `checks/pieces`.
ghost use Rattle.std.specs.Prelude.{◌≤◌};
ghost use Rattle.package_table.specs.Table.{IsPackage};

use form_reader::{Advance, FormReader, Limits, ReadOutcome};
use package_table::Packages;
use readtable_core::Readtable;
use std::alloc::{AllocError, Global};
use std::test::Fail;
use user_macros::{MacroFunctions, Macros, NoFunctions};

#[test]
fn limits(rt: HostRuntime) {
    let rows = [
        (Limits::form(), 1_048_576, 4_096, 100),
        (Limits::snapshot(), 4_294_967_295, 8_192, 104),
    ];
    for (limits, text, token, nesting) in rows {
        assert_eq!(rt; limits.text, text);
        assert_eq!(rt; limits.token, token);
        assert_eq!(rt; limits.nesting, nesting);
    }
}

// What is answered to a byte, or to the end of a text.
#[derive(Clone, Copy, PartialEq, Eq)]
enum Told {
    // no form yet, or none at all
    Nothing,
    // the start and the end of a form, and where the next begins
    Form(usize, usize, usize),
    // the number and the offset of a refusal
    Refused(u16, usize),
}

fn told_at_step(step: &Advance) -> Told {
    match step {
        Advance::More => Told::Nothing,
        Advance::Form {
            start,
            end,
            next,
            ..
        } => Told::Form(*start, *end, *next),
        Advance::Refused { code, at } => Told::Refused(*code, *at),
    }
}

fn told_at_end(outcome: &ReadOutcome) -> Told {
    match outcome {
        ReadOutcome::Empty => Told::Nothing,
        ReadOutcome::Form {
            start,
            end,
            next,
            ..
        } => Told::Form(*start, *end, *next),
        ReadOutcome::Refused { code, at } => Told::Refused(*code, *at),
    }
}

// What a reader answers to the last byte of the text, and then to its end.
fn answers_to<R: MacroFunctions>(
    alloc: Global,
    readtable: &Readtable,
    base: u8,
    packages: &Packages,
    current: &[u8],
    macros: &R,
    text: &[u8],
) -> Result<(Told, Told), AllocError>
    requires answers { R.answers macros.now }
    requires lowest_base { 2 ≤ base }
    requires highest_base { base ≤ 36 }
    requires current { IsPackage packages.now.0 current.now }
{
    let mut reader = FormReader::new(alloc, Limits::form());
    let mut last = Told::Nothing;
    for byte in text {
        last = told_at_step(&reader.step(*byte, readtable, base, packages, current, macros)?);
    }
    let outcome = reader.finish(readtable, base, packages, current, macros)?;
    Ok((last, told_at_end(&outcome)))
}

// The same in the first packages and the standard readtable.
fn last_answers(alloc: Global, base: u8, text: &[u8]) -> Result<(Told, Told), AllocError>
    requires lowest_base { 2 ≤ base }
    requires highest_base { base ≤ 36 }
{
    let table = Readtable::standard(alloc)?;
    let packages = Packages::new(alloc)?;
    let macros = Macros::new(alloc, NoFunctions);
    let Some(current) = packages.find(b"COMMON-LISP-USER") else {
        return Ok((Told::Nothing, Told::Nothing));
    };
    answers_to(alloc, &table, base, &packages, current, &macros, text)
}

// Answers to bytes before the next one comes, in two bases; and to what is refused, again.
#[test]
fn answers_byte_by_byte(rt: HostRuntime) -> Result<(), Fail> {
    let refused = Told::Refused(2, 1);
    let rows: [(u8, &[u8], (Told, Told)); 5] = [
        (10, b"'A(", (Told::Form(0, 2, 2), Told::Nothing)),
        (36, b"'1e", (Told::Nothing, Told::Form(0, 3, 3))),
        (16, b"'1/0 ", (Told::Refused(9, 4), Told::Refused(9, 4))),
        (10, b"A\xC3", (refused, refused)),
        (10, b"A\xC3B", (refused, refused)),
    ];
    for (base, text, wanted) in rows {
        assert!(rt;
            base >= 2 && base <= 36 && last_answers(rt.alloc(), base, text)? == wanted,
            "{text:?}"
        );
    }
    Ok(())
}
