//! The packages of a snapshot, as text.
//! After an error, want of memory alone, a part may be added.
ghost use Rattle.std.specs.Prelude.{◌≡◌, [], ◌∷◌, ◌++◌, true, not, map, filter, bytes_eq, IfOk, OnOk};
ghost use Rattle.std.specs.List.{list_all, flat_map};
ghost use Rattle.lisp_object.specs.Object.{list_of};
ghost use Rattle.lisp_object.specs.Datum.{object_of, is_proper};
ghost use Rattle.lisp_object.specs.Ascii.{is_ascii};
ghost use Rattle.package_table.specs.Table.{IsPackage, common_lisp, initial as initial_packages};
ghost use Rattle.package_table.specs.Lookup.{is_present};
ghost use Rattle.world_text.specs.KeptNames.{kept_names};
ghost use Rattle.world_text.specs.Snapshot.{texts, imported_name, shown_names, package_with, packages_with};
ghost use Rattle.package_table.specs.Readers.{used_names, own_names, imports};
ghost use Rattle.world_text.specs.ObjectTexts.{later_text, object_text};

use crate::name_test::NameTest;
use crate::printing::push_printed;
use crate::texts::{imports_of, push_text, push_texts, texts_of};
use lisp_object::{Bytes, Datum};
use package_table::standardized::{COMMON_LISP, KEYWORD};
use package_table::{PackageError, Packages};
use std::alloc::{AllocError, Global};

// A list that is refused only where memory runs out.
fn listed<T>(list: Result<T, PackageError>) -> Result<T, AllocError>
    ensures { IfOk result (λ x. list ≡ Ok x) }
{
    match list {
        Ok(list) => Ok(list),
        Err(_) => Err(AllocError),
    }
}

// The names at home in a package.
fn own<'a>(alloc: Global, packages: &'a Packages, owner: &[u8]) -> Result<Vec<&'a [u8]>, AllocError>
    ensures { IfOk result (λ names. map (λ n. n.now) names.items
        ≡ own_names packages.now.0 owner.now) }
{
    listed(packages.own_names(alloc, owner))
}

// Leaves the names that are not at home in the package from the first. There may be a million of them, so that no second list is made.
fn leave_made(names: &mut Vec<&[u8]>, first: &Packages, owner: &[u8])
    ensures { map (λ n. n.now) names.new.items
        ≡ filter (λ n. not (is_present first.now.0 owner.now n))
        (map (λ n. n.now) names.old.items) }
{
    names.retain(|name| !first.is_present(owner, name));
}

// Leaves the names that a test keeps.
fn leave_kept<T: NameTest>(names: &mut Vec<&[u8]>, test: &T, owner: &[u8])
    ensures { map (λ n. n.now) names.new.items
        ≡ filter (T.keeps test.now owner.now) (map (λ n. n.now) names.old.items) }
{
    names.retain(|name| test.is_kept(owner, name));
}

// The names but COMMON-LISP.
fn but_common_lisp<'a>(alloc: Global, names: &'a [Bytes]) -> Result<Vec<&'a Bytes>, AllocError>
    ensures { IfOk result (λ others. map (λ n. n.now) others.items
        ≡ filter (λ n. not (bytes_eq n common_lisp)) names.now) }
{
    let mut others = Vec::new(alloc);
    for name in names {
        if name.as_slice() != COMMON_LISP {
            others.push(name)?;
        }
    }
    Ok(others)
}

// The names external in a package, but for KEYWORD.
fn shown<'a>(
    alloc: Global,
    packages: &'a Packages,
    owner: &[u8],
) -> Result<Vec<&'a [u8]>, AllocError>
    ensures { IfOk result (λ names. map (λ n. n.now) names.items
        ≡ shown_names packages.now.0 owner.now) }
{
    if owner == KEYWORD {
        Ok(Vec::new(alloc))
    } else {
        listed(packages.external_names(alloc, owner))
    }
}

// The packages that a package uses.
#[tactic(auto, using(crate::proofs::Ascii::used_names_ascii))]
fn used_of(alloc: Global, packages: &Packages, owner: &[u8]) -> Result<Datum, AllocError>
    ensures object { IfOk result (λ d. object_of d ≡ texts (used_names packages.now.0 owner.now)) }
    ensures proper { IfOk result (λ d. is_proper d ≡ true) }
    ensures there { IfOk result (λ _. IsPackage packages.now.0 owner.now) }
{
    packages.soundness();
    let names = listed(packages.uses(alloc, owner))?;
    texts_of(alloc, names.as_slice())
}

// Adds the names made at home in a package that a test keeps, after a space.
fn push_own<T: NameTest>(
    alloc: Global,
    text: &mut Vec<u8>,
    packages: &Packages,
    first: &Packages,
    test: &T,
    owner: &[u8],
) -> Result<(), AllocError>
    requires { first.now.0 ≡ initial_packages }
    ensures { OnOk result (text.new.items
        ≡ text.old.items ++ later_text packages.now.0
        (texts (kept_names (T.keeps test.now) packages.now.0 owner.now))) }
{
    packages.soundness();
    let mut names = own(alloc, packages, owner)?;
    leave_made(&mut names, first, owner);
    leave_kept(&mut names, test, owner);
    push_texts(alloc, text, packages, names.as_slice())?;
    Ok(())
}

// Adds the names external in a package, after a space.
fn push_shown(
    alloc: Global,
    text: &mut Vec<u8>,
    packages: &Packages,
    owner: &[u8],
) -> Result<(), AllocError>
    ensures { OnOk result (text.new.items
        ≡ text.old.items ++ later_text packages.now.0
        (texts (shown_names packages.now.0 owner.now))) }
{
    packages.soundness();
    let names = shown(alloc, packages, owner)?;
    push_texts(alloc, text, packages, names.as_slice())?;
    Ok(())
}

// The names that are present in a package from other homes.
fn imported_of(alloc: Global, packages: &Packages, owner: &[u8]) -> Result<Datum, AllocError>
    ensures object { IfOk result (λ d. object_of d
        ≡ list_of (map imported_name (imports packages.now.0 owner.now))) }
    ensures proper { IfOk result (λ d. is_proper d ≡ true) }
{
    packages.soundness();
    let rows = listed(packages.imports(alloc, owner))?;
    imports_of(alloc, rows.as_slice())
}

// Adds an object, after a space.
fn push_after_space(
    alloc: Global,
    text: &mut Vec<u8>,
    packages: &Packages,
    datum: Datum,
) -> Result<(), AllocError>
    requires { is_proper datum ≡ true }
    ensures { OnOk result (text.new.items
        ≡ text.old.items ++ later_text packages.now.0 (object_of datum)) }
{
    text.push(b' ')?;
    push_printed(alloc, text, datum, packages)
}

// Adds the lists of a package, each after a space: the packages that it uses, its own names, its external ones and its imports.
fn push_lists<T: NameTest>(
    alloc: Global,
    text: &mut Vec<u8>,
    packages: &Packages,
    first: &Packages,
    test: &T,
    owner: &[u8],
) -> Result<(), AllocError>
    requires { first.now.0 ≡ initial_packages }
    ensures { let t = packages.now.0 in let p = owner.now in OnOk result (text.new.items
        ≡ text.old.items ++ flat_map (λ x. later_text t x) (texts (used_names t p)
        ∷ texts (kept_names (T.keeps test.now) t p) ∷ texts (shown_names t p)
        ∷ list_of (map imported_name (imports t p)) ∷ [])) }
{
    let used = used_of(alloc, packages, owner)?;
    push_after_space(alloc, text, packages, used)?;
    push_own(alloc, text, packages, first, test, owner)?;
    push_shown(alloc, text, packages, owner)?;
    let imported = imported_of(alloc, packages, owner)?;
    push_after_space(alloc, text, packages, imported)?;
    Ok(())
}

// Adds a package: its name and its lists.
fn push_package<T: NameTest>(
    alloc: Global,
    text: &mut Vec<u8>,
    packages: &Packages,
    first: &Packages,
    test: &T,
    owner: &Bytes,
) -> Result<(), AllocError>
    requires first { first.now.0 ≡ initial_packages }
    requires name { list_all is_ascii owner.now ≡ true }
    ensures { let t = packages.now.0 in OnOk result (text.new.items
        ≡ text.old.items ++ object_text t (package_with t owner.now
        (kept_names (T.keeps test.now) t owner.now))) }
{
    text.push(b'(')?;
    push_text(alloc, text, packages, owner.as_slice())?;
    push_lists(alloc, text, packages, first, test, owner.as_slice())?;
    text.push(b')')?;
    Ok(())
}

// Adds the packages of these names, each after a space.
fn push_later<T: NameTest>(
    alloc: Global,
    text: &mut Vec<u8>,
    packages: &Packages,
    first: &Packages,
    test: &T,
    names: &[&Bytes],
) -> Result<(), AllocError>
    requires first { first.now.0 ≡ initial_packages }
    requires names { list_all (λ n. list_all is_ascii n.now) names.now ≡ true }
    ensures { let t = packages.now.0 in OnOk result (text.new.items
        ≡ text.old.items ++ flat_map (λ n. later_text t (package_with t n.now
        (kept_names (T.keeps test.now) t n.now))) names.now) }
{
    for name in names {
        text.push(b' ')?;
        push_package(alloc, text, packages, first, test, name)?;
    }
    Ok(())
}

// Adds the printed list of all packages but COMMON-LISP, beside those that are there from the first. One list of names is in
// memory at a time.
fn push_beside<T: NameTest>(
    alloc: Global,
    text: &mut Vec<u8>,
    packages: &Packages,
    first: &Packages,
    test: &T,
) -> Result<(), AllocError>
    requires { first.now.0 ≡ initial_packages }
    ensures { let t = packages.now.0 in OnOk result (text.new.items
        ≡ text.old.items ++ object_text t (packages_with t (kept_names (T.keeps test.now) t))) }
{
    packages.soundness();
    let names = packages.names(alloc)?;
    let others = but_common_lisp(alloc, names.as_slice())?;
    let [one, later @ ..] = others.as_slice() else {
        return push_printed(alloc, text, Datum::nil(alloc)?, packages);
    };
    text.push(b'(')?;
    push_package(alloc, text, packages, first, test, one)?;
    push_later(alloc, text, packages, first, test, later)?;
    text.push(b')')?;
    Ok(())
}

/// Adds the printed list of all packages but COMMON-LISP, with the names that a test keeps. After an error, want of
/// memory alone, a part may be added.
pub(crate) fn push_packages<T: NameTest>(
    alloc: Global,
    text: &mut Vec<u8>,
    packages: &Packages,
    test: &T,
) -> Result<(), AllocError>
    ensures { let t = packages.now.0 in OnOk result (text.new.items
        ≡ text.old.items ++ object_text t (packages_with t (kept_names (T.keeps test.now) t))) }
{
    let first = Packages::new(alloc)?;
    push_beside(alloc, text, packages, &first, test)
}
