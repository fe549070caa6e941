//! Changes of a readtable, and a copy of it. What readtables do is in `checks/sessions`.
use readtable_core::{Case, FnName, Readtable};
use std::alloc::{AllocError, Global};
use std::test::Fail;

// A readtable with INVERT, in which `!` dispatches and has SQUARE at `S`, and `%` has what `!` has.
fn changed(alloc: Global, standard: &Readtable) -> Result<Readtable, AllocError> {
    let mut table = standard.copy(alloc)?;
    table.set_case(Case::Invert);
    table.make_dispatch(b'!', true)?;
    let _ = table.set_dispatch(b'!', b's', FnName::new(b"SQUARE").unwrap());
    table.set_syntax_from_char(b'$', b'"', standard)?;
    table.copy_syntax(b'%', b'!')?;
    Ok(table)
}

// Whether the copy has the table's entries, which are those of the standard but at `!`, `$` and `%`.
fn has_changed(copy: &Readtable, table: &Readtable, standard: &Readtable) -> bool {
    for c in 0..=255 {
        let is_changed = c == b'!' || c == b'$' || c == b'%';
        if !copy.same_entry(table, c) || copy.same_entry(standard, c) == is_changed {
            return false;
        }
    }
    true
}

// Whether a readtable has what was changed.
fn has_functions(table: &Readtable) -> bool {
    table.case() == Case::Invert
        && table.dispatch_of(b'%', b'S') == FnName::new(b"SQUARE")
        && table.macro_of(b'$') == FnName::new(b"STD-STRING")
}

#[test]
fn changes_are_copied(rt: HostRuntime) -> Result<(), Fail> {
    let standard = Readtable::standard(rt.alloc())?;
    let table = changed(rt.alloc(), &standard)?;
    let copy = table.copy(rt.alloc())?;
    assert!(rt; has_changed(&copy, &table, &standard) && has_functions(&copy));
    Ok(())
}

#[test]
fn names_of_cases(rt: HostRuntime) {
    let cases: [(&[u8], Case); 4] = [
        (b"UPCASE", Case::Upcase),
        (b"DOWNCASE", Case::Downcase),
        (b"PRESERVE", Case::Preserve),
        (b"INVERT", Case::Invert),
    ];
    for (name, letters) in cases {
        assert!(rt; Case::from_name(name) == Some(letters) && letters.name() == name);
    }
}
