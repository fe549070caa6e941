//! What `read_setf` of plain_reader takes from a text, and of which texts it says nothing. What a replay makes of it is in
//! `checks/replays`.
ghost use Rattle.std.specs.Prelude.{◌≤◌};

use form_reader::Limits;
use lisp_object::Datum;
use package_table::Packages;
use plain_reader::{ReadSetf, read_setf};
use readtable_core::{Case, FnName, Readtable};
use std::alloc::{AllocError, Global};
use std::test::Fail;

// The names, the literal, where it is an integer, and whether it is quoted; where the form ends, and whether each symbol of the
// literal is there.
#[derive(Clone, Copy)]
struct Told {
    symbol: &'static [u8],
    indicator: &'static [u8],
    integer: Option<i128>,
    is_quoted: bool,
    end: usize,
    known: bool,
}

// What is told of `(SETF (GET 'A 'B) 7)`.
const SEVEN: Told = Told {
    symbol: b"A",
    indicator: b"B",
    integer: Some(7),
    is_quoted: false,
    end: 20,
    known: true,
};

fn integer_of(datum: &Datum) -> Option<i128> {
    match datum {
        Datum::Integer(number) => Some(*number),
        _ => None,
    }
}

fn is_told(read: &ReadSetf<'_>, wanted: &Told) -> bool {
    read.symbol == wanted.symbol
        && read.indicator == wanted.indicator
        && integer_of(&read.literal.datum) == wanted.integer
        && read.literal.is_quoted == wanted.is_quoted
        && read.end == wanted.end
        && read.known == wanted.known
}

// Whether this is told of a text in the first packages, or nothing.
fn tells(
    alloc: Global,
    limits: Limits,
    readtable: &Readtable,
    base: u8,
    text: &[u8],
    wanted: Option<Told>,
) -> Result<bool, AllocError>
    requires lowest_base { 2 ≤ base }
    requires highest_base { base ≤ 36 }
{
    let packages = Packages::new(alloc)?;
    let Some(current) = packages.find(b"COMMON-LISP-USER") else {
        return Ok(false);
    };
    match read_setf(alloc, limits, readtable, base, &packages, current, text)? {
        None => Ok(wanted.is_none()),
        Some(read) => match wanted {
            None => Ok(false),
            Some(wanted) => Ok(is_told(&read, &wanted)),
        },
    }
}

// What the names are is not looked at; what follows the form is no matter.
const TAKEN: &[(&[u8], Told)] = &[
    (b"(SETF (GET 'A 'B) 7)", SEVEN),
    (b"(SETF (GET 'A 'B) 7)) \xff", SEVEN),
    (
        b"(SETF\t(GET\n'A 'B) '7)",
        Told {
            symbol: b"A",
            indicator: b"B",
            integer: Some(7),
            is_quoted: true,
            end: 21,
            known: true,
        },
    ),
    (
        b"(SETF (GET '<= 'A-1) '(NEW))",
        Told {
            symbol: b"<=",
            indicator: b"A-1",
            integer: None,
            is_quoted: true,
            end: 28,
            known: false,
        },
    ),
];

// Other operators, names and literals; more whitespace, and less of the form.
const LEFT: &[&[u8]] = &[
    b"",
    b"(GET 'A 'B)",
    b"(setf (GET 'A 'B) 7)",
    b"(CL:SETF (GET 'A 'B) 7)",
    b"(SETF (GETS 'A 'B) 7)",
    b"(SETF (GET 'a 'B) 7)",
    b"(SETF (GET ':A 'B) 7)",
    b"(SETF (GET '1A 'B) 7)",
    b"(SETF (GET '|A| 'B) 7)",
    b"(SETF (GET A 'B) 7)",
    b"(SETF (GET 'A 'B 1) 7)",
    b"(SETF  (GET 'A 'B) 7)",
    b" (SETF (GET 'A 'B) 7)",
    b"(SETF (GET 'A 'B) C)",
    b"(SETF (GET 'A 'B) NIL)",
    b"(SETF (GET 'A 'B) (GET 'A 'B))",
    b"(SETF (GET 'A 'B) #:C)",
    b"(SETF (GET 'A 'B) 1.5)",
    b"(SETF (GET 'A 'B) 7 8)",
    b"(SETF (GET 'A 'B) 7",
    b"(SETF (GET 'A 'B) 7]",
    b"(SETF (GET 'A \xff'B) 7)",
];

#[test]
fn texts_of_setf(rt: HostRuntime) -> Result<(), Fail> {
    let alloc = rt.alloc();
    let table = Readtable::standard(alloc)?;
    for (text, wanted) in TAKEN {
        assert!(rt;
            tells(alloc, Limits::form(), &table, 10, text, Some(*wanted))?,
            "{text:?}"
        );
    }
    for text in LEFT {
        assert!(rt;
            tells(alloc, Limits::form(), &table, 10, text, None)?,
            "{text:?}"
        );
    }
    Ok(())
}

// Under other limits, in another base, and under readtables that were changed.
#[test]
fn settings_of_setf(rt: HostRuntime) -> Result<(), Fail> {
    let alloc = rt.alloc();
    let text = b"(SETF (GET 'A 'B) 7)";
    let standard = Readtable::standard(alloc)?;
    for (letters, nesting, wanted) in [
        (20, 3, Some(SEVEN)),
        (19, 3, None),
        (20, 2, None),
        (20, 1_001, None),
    ] {
        let limits = Limits {
            text: letters,
            token: 4,
            nesting,
        };
        assert!(rt;
            tells(alloc, limits, &standard, 10, text, wanted)?,
            "{letters} {nesting}"
        );
    }
    assert!(rt; tells(alloc, Limits::form(), &standard, 16, text, None)?);
    let mut table = standard.copy(alloc)?;
    table.set_case(Case::Preserve);
    assert!(rt; tells(alloc, Limits::form(), &table, 10, text, None)?);
    for c in [b'(', b'\''] {
        let mut table = standard.copy(alloc)?;
        table.set_macro(c, FnName::new(b"STD-COMMENT").unwrap(), false);
        assert!(rt;
            tells(alloc, Limits::form(), &table, 10, text, None)?,
            "{c}"
        );
    }
    Ok(())
}

// Whether nothing is told of a text in the package of this name.
fn is_left_in(alloc: Global, packages: &Packages, name: &[u8]) -> Result<bool, AllocError> {
    let table = Readtable::standard(alloc)?;
    let Some(current) = packages.find(name) else {
        return Ok(false);
    };
    let text = b"(SETF (GET 'A 'B) 7)";
    let read = read_setf(alloc, Limits::form(), &table, 10, packages, current, text)?;
    Ok(read.is_none())
}

// In COMMON-LISP, which finds both operators; in a package that finds neither, and then has its own.
#[test]
fn packages_of_setf(rt: HostRuntime) -> Result<(), Fail> {
    let alloc = rt.alloc();
    let mut packages = Packages::new(alloc)?;
    assert!(rt; !is_left_in(alloc, &packages, b"COMMON-LISP")?);
    assert!(rt; packages.make(b"P").is_ok() && is_left_in(alloc, &packages, b"P")?);
    assert!(rt; packages.intern(b"P", b"SETF").is_ok() && is_left_in(alloc, &packages, b"P")?);
    assert!(rt; packages.intern(b"P", b"GET").is_ok() && is_left_in(alloc, &packages, b"P")?);
    Ok(())
}
