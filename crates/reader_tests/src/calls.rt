//! Texts that call functions of a user: in each way of gathering, and what may be answered.
ghost use Rattle.std.specs.Prelude.{IsFalse};
ghost use Rattle.readtable_core.specs.Names.{is_dispatch_name};

use crate::trial::Trial;
use fixed_macros::Fixed;
use form_reader::{Limits, ReadOutcome, read_one};
use lisp_object::Datum;
use package_table::Packages;
use readtable_core::{FnName, Readtable};
use std::alloc::{AllocError, Global};
use std::test::Fail;
use user_macros::MacroFunctions;

// What a text begins with.
#[derive(Clone, Copy, Debug, PartialEq, Eq)]
enum Seen {
    // nothing, up to the end
    Nothing,
    // an integer, and where the next form begins
    Integer(i128, usize),
    // another object, and where the next form begins
    Form(usize),
    // a refusal, and its place
    Refused(u16, usize),
}

fn seen_in(outcome: &ReadOutcome) -> Seen {
    match outcome {
        ReadOutcome::Empty => Seen::Nothing,
        ReadOutcome::Form {
            datum: Datum::Integer(number),
            next,
            ..
        } => Seen::Integer(*number, *next),
        ReadOutcome::Form { next, .. } => Seen::Form(*next),
        ReadOutcome::Refused { code, at } => Seen::Refused(*code, *at),
    }
}

// A readtable with the function of this name at `!`, and at `#!`.
fn table_with(alloc: Global, name: FnName) -> Result<Readtable, AllocError>
    requires { IsFalse (is_dispatch_name name) }
{
    let mut table = Readtable::standard(alloc)?;
    table.set_macro(b'!', name, false);
    let _ = table.set_dispatch(b'#', b'!', name);
    Ok(table)
}

// What the text begins with under this readtable.
fn read_under<R: MacroFunctions>(
    alloc: Global,
    table: &Readtable,
    macros: &R,
    text: &[u8],
) -> Result<Seen, AllocError>
    requires { R.answers macros.now }
{
    let packages = Packages::new(alloc)?;
    let Some(current) = packages.find(b"COMMON-LISP-USER") else {
        return Ok(Seen::Nothing);
    };
    let limits = Limits::form();
    let outcome = read_one(alloc, limits, table, 10, &packages, current, macros, text)?;
    Ok(seen_in(&outcome))
}

// What a text begins with, where this function is called.
fn read_with(alloc: Global, name: FnName, text: &[u8]) -> Result<Seen, AllocError>
    requires { IsFalse (is_dispatch_name name) }
{
    let table = table_with(alloc, name)?;
    let macros = Fixed::new(alloc, Trial::new());
    read_under(alloc, &table, &macros, text)
}

// Whether a text begins so, where the function of this name is called.
fn is_read(alloc: Global, name: &[u8], text: &[u8], wanted: Seen) -> Result<bool, AllocError> {
    match FnName::new(name) {
        Some(name) if !name.is_dispatch() => Ok(read_with(alloc, name, text)? == wanted),
        _ => Ok(false),
    }
}

type Row = (&'static [u8], &'static [u8], Seen);

// How much is gathered, at a character and at a sub-character.
const GATHERED: &[Row] = &[
    (b"NONE", b"!A", Seen::Integer(0, 1)),
    (b"NONE", b"#!A", Seen::Integer(0, 2)),
    (b"NEXT", b"! (A B) ", Seen::Integer(1, 7)),
    (b"NEXT", b"#! (A B) ", Seen::Integer(1, 8)),
    (b"UNTIL", b"!A (B) #|x|# C ]", Seen::Integer(3, 16)),
    (b"UNTIL", b"#!A (B) #|x|# C ]", Seen::Integer(3, 17)),
    (b"TEXT", b"!a\\}b c} ", Seen::Integer(5, 8)),
    (b"TEXT", b"#!a\\}b c} ", Seen::Integer(5, 9)),
    (b"SAME", b"!a\\!b! ", Seen::Integer(3, 6)),
    (b"SAME", b"#!a\\!b! ", Seen::Integer(3, 7)),
    (b"LINE", b"!a b\nc", Seen::Integer(3, 5)),
    (b"LINE", b"#!a b\nc", Seen::Integer(3, 6)),
    (b"LINE", b"!a b", Seen::Integer(3, 4)),
    (b"LINE", b"#!a b", Seen::Integer(3, 5)),
    (b"TOKEN", b"!a|b c|d e", Seen::Integer(5, 9)),
    (b"TOKEN", b"#!a|b c|d e", Seen::Integer(5, 10)),
    (b"TOKEN", b"! a", Seen::Integer(0, 2)),
    (b"TOKEN", b"#! a", Seen::Integer(0, 3)),
];

// What is answered: refusals, no object, objects that are none or past a limit, symbols that are not there.
const ANSWERED: &[Row] = &[
    (b"NONE", b" (#1!A)", Seen::Refused(20, 5)),
    (b"NONE", b"#1!", Seen::Refused(20, 3)),
    (b"NONE", b"#2!", Seen::Refused(20, 3)),
    (b"TOKEN", b"#3!a b ", Seen::Form(7)),
    (b"TOKEN", b" #3!a", Seen::Nothing),
    (b"NONE", b"#4!", Seen::Refused(21, 3)),
    (b"NONE", b"#5!", Seen::Refused(21, 3)),
    (b"NONE", b"#8!", Seen::Refused(21, 3)),
    (b"NONE", b"#9!", Seen::Refused(21, 3)),
    (b"NONE", b"#11!", Seen::Refused(21, 4)),
    (b"NONE", b"(#12!)", Seen::Refused(21, 5)),
    (b"NONE", b"#12!", Seen::Refused(21, 4)),
    (b"NONE", b"'#13! ", Seen::Form(5)),
    (b"NONE", b"#14!", Seen::Refused(21, 4)),
    (b"NONE", b"#15!", Seen::Refused(21, 4)),
];

// The same of vectors with a million objects.
const LARGE: &[Row] = &[
    (b"NONE", b"#10!", Seen::Refused(21, 4)),
    (b"NEXT", b"#6!#999997(1)", Seen::Form(13)),
    (b"NEXT", b"#6!#999998(1)", Seen::Refused(21, 13)),
];

#[test]
fn calls_and_answers(rt: HostRuntime) -> Result<(), Fail> {
    let alloc = rt.alloc();
    for (name, text, wanted) in GATHERED {
        assert!(rt; is_read(alloc, name, text, *wanted)?, "{text:?}");
    }
    for (name, text, wanted) in ANSWERED {
        assert!(rt; is_read(alloc, name, text, *wanted)?, "{text:?}");
    }
    Ok(())
}

#[test]
fn large_vectors(rt: HostRuntime) -> Result<(), Fail> {
    for (name, text, wanted) in LARGE {
        assert!(rt; is_read(rt.alloc(), name, text, *wanted)?, "{text:?}");
    }
    Ok(())
}

// The text `front`, the one in the middle so many times, and `back`, so many times if it is a bracket.
fn repeated(
    alloc: Global,
    front: &[u8],
    middle: u8,
    count: usize,
    back: &[u8],
) -> Result<Vec<u8>, AllocError> {
    let mut text = Vec::from_slice(alloc, front)?;
    text.resize(text.len().saturating_add(count), middle)?;
    text.extend_from_slice(back)?;
    Ok(text)
}

// An object in so many lists, after this.
fn within_lists(alloc: Global, front: &[u8], depth: usize) -> Result<Vec<u8>, AllocError> {
    let opened = repeated(alloc, front, b'(', depth, b"A")?;
    repeated(alloc, opened.as_slice(), b')', depth, b"")
}

#[test]
fn answers_at_a_limit(rt: HostRuntime) -> Result<(), Fail> {
    let alloc = rt.alloc();
    // two lists more are answered, and the quote is one
    let rows: [(&[u8], usize, Seen); 4] = [
        (b"#6!", 98, Seen::Form(200)),
        (b"#6!", 99, Seen::Refused(21, 202)),
        (b"'#6!", 97, Seen::Form(199)),
        (b"'#6!", 98, Seen::Refused(21, 201)),
    ];
    for (front, depth, wanted) in rows {
        let text = within_lists(alloc, front, depth)?;
        assert!(rt;
            is_read(alloc, b"NEXT", text.as_slice(), wanted)?,
            "{depth}"
        );
    }
    for (count, wanted) in [
        (4_096, Seen::Form(4_100)),
        (4_097, Seen::Refused(21, 4_101)),
    ] {
        let text = repeated(alloc, b"#7!", b'A', count, b"}")?;
        assert!(rt;
            is_read(alloc, b"TEXT", text.as_slice(), wanted)?,
            "{count}"
        );
    }
    Ok(())
}
