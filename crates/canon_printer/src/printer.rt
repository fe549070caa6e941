//! How objects are written in a package.
//! After an error, want of memory alone, a part may be written.
ghost use Rattle.std.specs.Prelude.{◌≡◌, ◌==◌, true, not, ◌&&◌, [], ◌++◌, map, if◌then◌else◌, codes, IfOk, OnOk};
ghost use Rattle.std.specs.List.{list_all};
ghost use Rattle.std.specs.Option.{option_map_or};
ghost use Rattle.lisp_object.specs.Object.{nil};
ghost use Rattle.lisp_object.specs.Datum.{object_of, is_proper, is_list};
ghost use Rattle.package_table.specs.Table.{IsPackage};
ghost use Rattle.canon_printer.specs.Written.{written_rest, written_items};
ghost use Rattle.canon_printer.specs.Printed.{printed, printed_prefix};
ghost use Rattle.canon_printer.specs.Written.{AddsText};

use crate::atoms::{write_character, write_integer, write_ratio, write_text};
use crate::symbols::{write_symbol, write_uninterned};
use lisp_object::{Boxed, Datum, Items};
use package_table::Packages;
use std::alloc::{AllocError, Global};

/// The text of an object with these packages, in the current one (standard 22.1.3), for the standard readtable.
///
/// Asks for a proper datum, and that `current` is the name of a package. The time is that of the text, with two look-ups at
/// most for each symbol; the stack takes a call for each level of nesting.
///
/// # Errors
/// Out of memory.
pub fn print(
    alloc: Global,
    datum: &Datum,
    packages: &Packages,
    current: &[u8],
) -> Result<Vec<u8>, AllocError>
    requires proper { is_proper datum.now ≡ true }
    requires known { IsPackage packages.now.0 current.now }
    ensures { IfOk result (λ text. text.items
        ≡ printed packages.now.0 current.now (object_of datum.now)) }
{
    let mut text = Vec::new(alloc);
    write(&mut text, datum, packages, current)?;
    Ok(text)
}

#[cycle(writing)]
#[tactic(auto, using(crate::proofs::Lists::written_list_datum, crate::proofs::Lists::written_vector_datum))]
fn write(
    text: &mut Vec<u8>,
    datum: &Datum,
    packages: &Packages,
    current: &[u8],
) -> Result<(), AllocError>
    requires proper { is_proper datum.now ≡ true }
    requires known { IsPackage packages.now.0 current.now }
    ensures { OnOk result (AddsText text.old text.new
        (printed packages.now.0 current.now (object_of datum.now))) }
{
    match datum {
        Datum::Integer(n) => write_integer(text, *n),
        Datum::Rational(ratio) => write_ratio(text, *ratio),
        Datum::Char(c) => write_character(text, *c),
        Datum::Text(bytes) => write_text(text, bytes.as_slice()),
        Datum::Symbol { package, name } => write_symbol(
            text,
            package.as_slice(),
            name.as_slice(),
            packages,
            current,
        ),
        Datum::Uninterned(name) => write_uninterned(text, name.as_slice()),
        Datum::List { items, tail } => {
            text.push(b'(')?;
            write_items(text, items, packages, current)?;
            write_tail(text, tail, packages, current)
        }
        Datum::Vector(items) => {
            text.extend_from_slice(b"#(")?;
            write_items(text, items, packages, current)?;
            text.push(b')')?;
            Ok(())
        }
    }
}

// The items, with a space between them.
#[cycle(writing)]
fn write_items(
    text: &mut Vec<u8>,
    items: &Items<Datum>,
    packages: &Packages,
    current: &[u8],
) -> Result<(), AllocError>
    requires proper { list_all is_proper items.now ≡ true }
    requires known { IsPackage packages.now.0 current.now }
    ensures { OnOk result (AddsText text.old text.new
        (written_items (printed_prefix packages.now.0 current.now) (map object_of items.now))) }
{
    let items = items.as_slice();
    for (i, item) in items.iter().enumerate() {
        write_space(text, i)?;
        write(text, item, packages, current)?;
    }
    Ok(())
}

// What is written after a list's last item.
#[cycle(writing)]
#[tactic(auto, using(crate::proofs::Lists::written_tail))]
fn write_tail(
    text: &mut Vec<u8>,
    tail: &Option<Boxed<Datum>>,
    packages: &Packages,
    current: &[u8],
) -> Result<(), AllocError>
    requires proper { option_map_or (λ d. is_proper d && not (is_list d)) tail.now true ≡ true }
    requires known { IsPackage packages.now.0 current.now }
    ensures { OnOk result (AddsText text.old text.new
        (written_rest (printed_prefix packages.now.0 current.now)
        (option_map_or object_of tail.now nil))) }
{
    match tail {
        None => {
            text.push(b')')?;
            Ok(())
        }
        Some(tail) => {
            text.extend_from_slice(b" . ")?;
            write(text, tail.get(), packages, current)?;
            text.push(b')')?;
            Ok(())
        }
    }
}

// A space, but before the first of some items.
fn write_space(text: &mut Vec<u8>, index: usize) -> Result<(), AllocError>
    ensures { OnOk result (AddsText text.old text.new (if index == 0 then [] else codes " ")) }
{
    if index > 0 {
        text.push(b' ')?;
    }
    Ok(())
}
