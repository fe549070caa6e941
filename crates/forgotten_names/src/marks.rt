//! Symbols that are marked, by their numbers.
//! After an error, want of memory alone, some more may be marked.
ghost use Rattle.std.specs.Prelude.{ℕ, ◌≡◌, ◌<◌, ◌^◌, ◌||◌, ◌==◌, false, [], ◌∷◌, length, slice_index_or, OnOk};
ghost use Rattle.std.specs.List.{flat_map};
ghost use Rattle.std.specs.Option.{option_map_or};
ghost use Rattle.lisp_object.specs.Object.{nil};
ghost use Rattle.lisp_object.specs.Datum.{object_of};
ghost use Rattle.package_table.specs.Numbers.{table_now};
ghost use Rattle.package_table.specs.Symbols.{symbols};
ghost use Rattle.plist_state.specs.Readers.{borrowed_symbols};
ghost use Rattle.forgotten_names.specs.Marks.{AddsMarks, is_marked};

use lisp_object::{Boxed, Datum, Items};
use package_table::Packages;
use package_table::standardized::COMMON_LISP;
use std::alloc::AllocError;

// Makes the list so long that it has this place.
fn reach(marks: &mut Vec<bool>, place: usize) -> Result<(), AllocError>
    requires { place < 2 ^ 32 }
    ensures there { OnOk result (place < length marks.new.items) }
    ensures same { OnOk result ((i : ℕ) → slice_index_or marks.new.items i false
        ≡ slice_index_or marks.old.items i false) }
{
    if marks.len() <= place {
        marks.resize(place + 1, false)?;
    }
    Ok(())
}

// Marks a place.
fn set_mark(marks: &mut Vec<bool>, place: u32) -> Result<(), AllocError>
    ensures { OnOk result ((i : ℕ) → slice_index_or marks.new.items i false
        ≡ (i == place || slice_index_or marks.old.items i false)) }
{
    reach(marks, place as usize)?;
    marks[place as usize] = true;
    Ok(())
}

/// Marks a symbol, if it is there. After an error, want of memory alone, it is not marked.
pub(crate) fn mark(
    packages: &Packages,
    marks: &mut Vec<bool>,
    home: &[u8],
    name: &[u8],
) -> Result<(), AllocError>
    ensures { OnOk result (AddsMarks (table_now packages.now) marks.old.items marks.new.items
        ((home.now, name.now) ∷ [])) }
{
    packages.numbering();
    match packages.number_of(home, name) {
        Some(number) => set_mark(marks, number),
        None => Ok(()),
    }
}

/// Whether a symbol is marked.
pub(crate) fn is_marked(packages: &Packages, marks: &[bool], home: &[u8], name: &[u8]) -> bool
    ensures { result ≡ is_marked (table_now packages.now) marks.now (home.now, name.now) }
{
    match packages.number_of(home, name) {
        Some(number) => match marks.get(number as usize) {
            Some(mark) => *mark,
            None => false,
        },
        None => false,
    }
}

/// Marks the symbols of a datum. The NIL that ends a list is one of them. After an error, want of memory alone, a part
/// of them may be marked.
#[cycle(marking)]
pub(crate) fn mark_datum(
    packages: &Packages,
    marks: &mut Vec<bool>,
    datum: &Datum,
) -> Result<(), AllocError>
    ensures { OnOk result (AddsMarks (table_now packages.now) marks.old.items marks.new.items
        (symbols (object_of datum.now))) }
{
    match datum {
        Datum::Symbol { package, name } => {
            mark(packages, marks, package.as_slice(), name.as_slice())
        }
        Datum::List { items, tail } => {
            mark_items(packages, marks, items)?;
            mark_end(packages, marks, tail)
        }
        Datum::Vector(items) => {
            mark_items(packages, marks, items)?;
            mark_nil(packages, marks)
        }
        Datum::Integer(_) => Ok(()),
        Datum::Rational(_) => Ok(()),
        Datum::Char(_) => Ok(()),
        Datum::Text(_) => Ok(()),
        Datum::Uninterned(_) => Ok(()),
    }
}

// Those of some data.
#[cycle(marking)]
fn mark_items(
    packages: &Packages,
    marks: &mut Vec<bool>,
    items: &Items<Datum>,
) -> Result<(), AllocError>
    ensures { OnOk result (AddsMarks (table_now packages.now) marks.old.items marks.new.items
        (flat_map (λ d. symbols (object_of d)) items.now)) }
{
    let items = items.as_slice();
    for item in items {
        mark_datum(packages, marks, item)?;
    }
    Ok(())
}

// Those of what ends a list.
#[cycle(marking)]
fn mark_end(
    packages: &Packages,
    marks: &mut Vec<bool>,
    tail: &Option<Boxed<Datum>>,
) -> Result<(), AllocError>
    ensures { OnOk result (AddsMarks (table_now packages.now) marks.old.items marks.new.items
        (symbols (option_map_or object_of tail.now nil))) }
{
    match tail {
        None => mark_nil(packages, marks),
        Some(tail) => mark_datum(packages, marks, tail.get()),
    }
}

// NIL.
fn mark_nil(packages: &Packages, marks: &mut Vec<bool>) -> Result<(), AllocError>
    ensures { OnOk result (AddsMarks (table_now packages.now) marks.old.items marks.new.items
        (symbols nil)) }
{
    mark(packages, marks, COMMON_LISP, b"NIL")
}

/// Marks these symbols. After an error, want of memory alone, a part of them may be marked.
#[tactic(auto, using(crate::proofs::Marking::marked_none, crate::proofs::Marking::marked_next))]
pub(crate) fn mark_all(
    packages: &Packages,
    marks: &mut Vec<bool>,
    symbols: &[(&[u8], &[u8])],
) -> Result<(), AllocError>
    ensures { OnOk result (AddsMarks (table_now packages.now) marks.old.items marks.new.items
        (borrowed_symbols symbols.now)) }
{
    for symbol in symbols {
        mark(packages, marks, symbol.0, symbol.1)?;
    }
    Ok(())
}
