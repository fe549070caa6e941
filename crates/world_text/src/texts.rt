//! Lists of texts, as data and as text.
//! After an error, want of memory alone, a part may be added.
ghost use Rattle.std.specs.Prelude.{◌≡◌, ◌&&◌, true, [], ◌∷◌, ◌++◌, map, IfOk, OnOk};
ghost use Rattle.std.specs.List.{list_all, flat_map};
ghost use Rattle.lisp_object.specs.Object as object;
ghost use Rattle.lisp_object.specs.Object.{list_of};
ghost use Rattle.lisp_object.specs.Datum.{object_of, is_proper};
ghost use Rattle.lisp_object.specs.Ascii.{is_ascii};
ghost use Rattle.world_text.specs.Snapshot.{texts, imported_name};
ghost use Rattle.world_text.specs.ObjectTexts.{later_text, object_text};

use crate::printing::push_printed;
use lisp_object::{Bytes, Datum};
use package_table::Packages;
use std::alloc::{AllocError, Global};

// A text with these bytes.
pub(crate) fn text_of(alloc: Global, bytes: &[u8]) -> Result<Datum, AllocError>
    ensures value { IfOk result (λ d. d ≡ Datum.Text bytes.now) }
    ensures proper { list_all is_ascii bytes.now ≡ true → IfOk result (λ d. is_proper d ≡ true) }
{
    Ok(Datum::Text(Bytes::from_slice(alloc, bytes)?))
}

// A list of three.
pub(crate) fn list_of_three(
    alloc: Global,
    a: Datum,
    b: Datum,
    c: Datum,
) -> Result<Datum, AllocError>
    ensures object { IfOk result (λ d. object_of d
        ≡ list_of (object_of a ∷ object_of b ∷ object_of c ∷ [])) }
    ensures proper { is_proper a && (is_proper b && is_proper c) ≡ true
        → IfOk result (λ d. is_proper d ≡ true) }
{
    let mut items = Vec::new(alloc);
    items.push(a)?;
    items.push(b)?;
    items.push(c)?;
    Datum::list(alloc, items, None)
}

// A list of these names, as texts.
pub(crate) fn texts_of(alloc: Global, names: &[Bytes]) -> Result<Datum, AllocError>
    ensures object { IfOk result (λ d. object_of d ≡ texts names.now) }
    ensures proper { list_all (λ name. list_all is_ascii name) names.now ≡ true
        → IfOk result (λ d. is_proper d ≡ true) }
{
    let mut items = Vec::new(alloc);
    for name in names {
        items.push(Datum::Text(name.clone()?))?;
    }
    Datum::list(alloc, items, None)
}

// A name and a home, as texts.
fn import_of(alloc: Global, name: &Bytes, home: &Bytes) -> Result<Datum, AllocError>
    ensures object { IfOk result (λ d. object_of d ≡ imported_name (name.now, home.now)) }
    ensures proper { list_all is_ascii name.now && list_all is_ascii home.now ≡ true
        → IfOk result (λ d. is_proper d ≡ true) }
{
    let mut items = Vec::new(alloc);
    items.push(Datum::Text(name.clone()?))?;
    items.push(Datum::Text(home.clone()?))?;
    Datum::list(alloc, items, None)
}

// A list of names, each with its home.
pub(crate) fn imports_of(alloc: Global, imports: &[(Bytes, Bytes)]) -> Result<Datum, AllocError>
    ensures object { IfOk result (λ d. object_of d ≡ list_of (map imported_name imports.now)) }
    ensures proper { list_all (λ r. list_all is_ascii r.0 && list_all is_ascii r.1) imports.now
        ≡ true
        → IfOk result (λ d. is_proper d ≡ true) }
{
    let mut items = Vec::new(alloc);
    for (name, home) in imports {
        items.push(import_of(alloc, name, home)?)?;
    }
    Datum::list(alloc, items, None)
}

// Adds a text, as it is printed. After an error, want of memory alone, a part may be added.
pub(crate) fn push_text(
    alloc: Global,
    text: &mut Vec<u8>,
    packages: &Packages,
    name: &[u8],
) -> Result<(), AllocError>
    requires { list_all is_ascii name.now ≡ true }
    ensures { OnOk result (text.new.items
        ≡ text.old.items ++ object_text packages.now.0 (object.text name.now)) }
{
    let datum = text_of(alloc, name)?;
    push_printed(alloc, text, datum, packages)
}

// Adds texts, each after a space.
fn push_later(
    alloc: Global,
    text: &mut Vec<u8>,
    packages: &Packages,
    names: &[&[u8]],
) -> Result<(), AllocError>
    requires { list_all (λ n. list_all is_ascii n.now) names.now ≡ true }
    ensures { OnOk result (text.new.items
        ≡ text.old.items ++ flat_map (λ n. later_text packages.now.0
        (object.text n.now)) names.now) }
{
    for name in names {
        text.push(b' ')?;
        push_text(alloc, text, packages, name)?;
    }
    Ok(())
}

// Adds a list of texts, after a space. One of them is in memory at a time.
pub(crate) fn push_texts(
    alloc: Global,
    text: &mut Vec<u8>,
    packages: &Packages,
    names: &[&[u8]],
) -> Result<(), AllocError>
    requires { list_all (λ n. list_all is_ascii n.now) names.now ≡ true }
    ensures { OnOk result (text.new.items
        ≡ text.old.items ++ later_text packages.now.0 (texts (map (λ n. n.now) names.now))) }
{
    text.push(b' ')?;
    let [first, others @ ..] = names else {
        return push_printed(alloc, text, Datum::nil(alloc)?, packages);
    };
    text.push(b'(')?;
    push_text(alloc, text, packages, first)?;
    push_later(alloc, text, packages, others)?;
    text.push(b')')?;
    Ok(())
}
