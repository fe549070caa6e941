//! The interned symbols of a datum.
//! After an error, want of memory alone, some may be added.
ghost use Rattle.std.specs.Prelude.{◌≡◌, ◌++◌, OnOk, IfOk};
ghost use Rattle.std.specs.List.{flat_map};
ghost use Rattle.std.specs.Option.{option_map_or};
ghost use Rattle.lisp_object.specs.Object.{nil};
ghost use Rattle.lisp_object.specs.Datum.{object_of};
ghost use Rattle.plist_state.specs.Readers.{borrowed_symbols};
ghost use Rattle.package_table.specs.Symbols.{symbols};

use lisp_object::{Boxed, Datum, Items};
use package_table::standardized::COMMON_LISP;
use std::alloc::{AllocError, Global};

/// The interned symbols of a datum, from left to right, each by its home and its name. The NIL that ends a list is one of
/// them. Nothing of them is copied.
pub(crate) fn symbols_of<'a>(
    alloc: Global,
    datum: &'a Datum,
) -> Result<Vec<(&'a [u8], &'a [u8])>, AllocError>
    ensures { IfOk result (λ found. borrowed_symbols found.items ≡ symbols (object_of datum.now)) }
{
    let mut found = Vec::new(alloc);
    add(&mut found, datum)?;
    Ok(found)
}

// These, and those of a datum.
#[cycle(adding)]
#[tactic(auto, using(crate::proofs::Collected::symbols_list, crate::proofs::Collected::symbols_vector))]
fn add<'a>(found: &mut Vec<(&'a [u8], &'a [u8])>, datum: &'a Datum) -> Result<(), AllocError>
    ensures { OnOk result (borrowed_symbols found.new.items
        ≡ borrowed_symbols found.old.items ++ symbols (object_of datum.now)) }
{
    match datum {
        Datum::Symbol { package, name } => {
            found.push((package.as_slice(), name.as_slice()))?;
            Ok(())
        }
        Datum::List { items, tail } => {
            add_all(found, items)?;
            add_end(found, tail)
        }
        Datum::Vector(items) => {
            add_all(found, items)?;
            add_nil(found)
        }
        Datum::Integer(_) => Ok(()),
        Datum::Rational(_) => Ok(()),
        Datum::Char(_) => Ok(()),
        Datum::Text(_) => Ok(()),
        Datum::Uninterned(_) => Ok(()),
    }
}

// These, and those of some data.
#[cycle(adding)]
fn add_all<'a>(
    found: &mut Vec<(&'a [u8], &'a [u8])>,
    items: &'a Items<Datum>,
) -> Result<(), AllocError>
    ensures { OnOk result (borrowed_symbols found.new.items
        ≡ borrowed_symbols found.old.items ++ flat_map (λ d. symbols (object_of d)) items.now) }
{
    let items = items.as_slice();
    for item in items {
        add(found, item)?;
    }
    Ok(())
}

// These, and those of what ends a list.
#[cycle(adding)]
fn add_end<'a>(
    found: &mut Vec<(&'a [u8], &'a [u8])>,
    tail: &'a Option<Boxed<Datum>>,
) -> Result<(), AllocError>
    ensures { OnOk result (borrowed_symbols found.new.items
        ≡ borrowed_symbols found.old.items ++ symbols (option_map_or object_of tail.now nil)) }
{
    match tail {
        None => add_nil(found),
        Some(tail) => add(found, tail.get()),
    }
}

// These, and NIL.
fn add_nil<'a>(found: &mut Vec<(&'a [u8], &'a [u8])>) -> Result<(), AllocError>
    ensures { OnOk result (borrowed_symbols found.new.items
        ≡ borrowed_symbols found.old.items ++ symbols nil) }
{
    found.push((COMMON_LISP, b"NIL"))?;
    Ok(())
}
