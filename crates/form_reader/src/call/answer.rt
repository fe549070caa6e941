//! Which data a function of a user may answer.
ghost use Rattle.std.specs.Prelude.{◌≡◌, ◌&&◌, ◌+◌, ◌≤◌, nat_le, length, All, IsTrue, IfSome, unwrap_or, option_map};
ghost use Rattle.std.specs.List.{list_all, sum_by};
ghost use Rattle.lisp_object.specs.Ascii.{is_ascii};
ghost use Rattle.lisp_object.specs.Object.{nil, is_nil, IsSound, object_depth};
ghost use Rattle.lisp_object.specs.Datum.{object_of, is_proper, size};
ghost use Rattle.lisp_reading.specs.Answering.{is_known, is_home, may_be_answered};
ghost use Rattle.form_reader.specs.Fits.{Fits, FitsEnd, end_size};
ghost use Rattle.package_table.specs.Table.{IsPackage};
ghost use Rattle.package_table.specs.Resolving.{resolution};
ghost use Rattle.std.specs.FinMap as finite;

use crate::call::same::is_same;
use lisp_object::{Boxed, Bytes, Datum, Items};
use package_table::{Packages, Resolved};

// The most bytes in the name of a symbol that is answered.
const LONGEST_NAME: usize = 4096;

// The largest size of what is answered.
const LARGEST_ANSWER: u64 = 1_000_000;

// The largest size of what is compared with what stands before it, and how many levels of lists it may have.
const LARGEST_COMPARED: u64 = 4_096;

const LEVELS_COMPARED: u64 = 16;

/// Whether a datum may be answered that may have this depth: it is proper, its size is at most 1,000,000, and each symbol in
/// it may be answered. It looks at each part once, and takes no memory.
pub(crate) fn may_be_answered(packages: &Packages, room: u64, datum: &Datum) -> bool
    ensures value { result ≡ (is_proper datum.now && (may_be_answered packages.now.0 (object_of datum.now)
        && nat_le (object_depth (object_of datum.now)) room)) }
    ensures sound { IsTrue result → IsSound (object_of datum.now) }
{
    let mut left = LARGEST_ANSWER;
    fits(packages, room, &mut left, datum)
}

/// Whether a datum fits, where so many parts are left.
#[cycle(fitting)]
fn fits(packages: &Packages, room: u64, left: &mut u64, datum: &Datum) -> bool
    ensures fits { IsTrue result → Fits packages.now.0 room datum.now
        × (left.new + size datum.now ≡ left.old) }
    ensures others { Fits packages.now.0 room datum.now → size datum.now ≤ left.old → IsTrue result }
    ensures sound { IsTrue result → IsSound (object_of datum.now) }
{
    match datum {
        Datum::Integer(n) => {
            let _in_range = *n;
            atom_fits(left, true)
        }
        Datum::Rational(ratio) => {
            let _in_lowest_terms = (ratio.numerator(), ratio.denominator());
            atom_fits(left, true)
        }
        Datum::Char(c) => atom_fits(left, *c < 128),
        Datum::Text(bytes) => atom_fits(left, bytes.is_ascii()),
        Datum::Symbol { package, name } => atom_fits(left, symbol_fits(packages, package, name)),
        Datum::Uninterned(name) => atom_fits(left, name_fits(name)),
        Datum::List { items, tail } => list_fits(packages, room, left, items, tail),
        Datum::Vector(items) => vector_fits(packages, room, left, items),
    }
}

/// One part less is left; whether it fits.
#[inline(always)]
fn atom_fits(left: &mut u64, fits: bool) -> bool
    ensures fits { IsTrue result → IsTrue fits × (left.new + 1 ≡ left.old) }
    ensures others { IsTrue fits → 1 ≤ left.old → IsTrue result }
{
    if *left == 0 {
        return false;
    }
    *left -= 1;
    fits
}

fn symbol_fits(packages: &Packages, home: &Bytes, name: &Bytes) -> bool
    ensures { result ≡ ((list_all is_ascii home.now && list_all is_ascii name.now)
        && is_known packages.now.0 home.now name.now) }
{
    home.is_ascii() && name.is_ascii() && is_known(packages, home.as_slice(), name.as_slice())
}

fn name_fits(name: &Bytes) -> bool
    ensures { result ≡ (list_all is_ascii name.now && nat_le (length name.now) 4096) }
{
    name.is_ascii() && name.as_slice().len() <= LONGEST_NAME
}

#[cycle(fitting)]
fn list_fits(
    packages: &Packages,
    room: u64,
    left: &mut u64,
    items: &Items<Datum>,
    tail: &Option<Boxed<Datum>>,
) -> bool
    ensures fits { IsTrue result → Fits packages.now.0 room (Datum.List items.now tail.now)
        × (left.new + size (Datum.List items.now tail.now) ≡ left.old) }
    ensures others { Fits packages.now.0 room (Datum.List items.now tail.now)
        → size (Datum.List items.now tail.now) ≤ left.old → IsTrue result }
    ensures sound { IsTrue result → IsSound (object_of (Datum.List items.now tail.now)) }
{
    if room == 0 || items.is_empty() {
        return false;
    }
    if !atom_fits(left, true) || !all_fit(packages, room - 1, left, items) {
        return false;
    }
    end_fits(packages, room - 1, left, tail)
}

#[cycle(fitting)]
fn vector_fits(packages: &Packages, room: u64, left: &mut u64, items: &Items<Datum>) -> bool
    ensures fits { IsTrue result → Fits packages.now.0 room (Datum.Vector items.now)
        × (left.new + size (Datum.Vector items.now) ≡ left.old) }
    ensures others { Fits packages.now.0 room (Datum.Vector items.now)
        → size (Datum.Vector items.now) ≤ left.old → IsTrue result }
    ensures sound { IsTrue result → IsSound (object_of (Datum.Vector items.now)) }
{
    if room == 0 || !atom_fits(left, true) {
        return false;
    }
    all_fit(packages, room - 1, left, items)
}

#[cycle(fitting)]
fn all_fit(packages: &Packages, room: u64, left: &mut u64, items: &Items<Datum>) -> bool
    ensures fits { IsTrue result → All (Fits packages.now.0 room) items.now
        × (left.new + sum_by size items.now ≡ left.old) }
    ensures others { All (Fits packages.now.0 room) items.now
        → sum_by size items.now ≤ left.old → IsTrue result }
    ensures sound { IsTrue result → All (λ d. IsSound (object_of d)) items.now }
{
    let items = items.as_slice();
    let mut last = None;
    for item in items {
        let before = *left;
        if !next_fits(packages, room, left, last, item) {
            return false;
        }
        last = Some((item, before - *left));
    }
    true
}

/// Whether a datum fits that comes after `last`, which does and has that size, where so many parts are left.
#[cycle(fitting)]
fn next_fits(
    packages: &Packages,
    room: u64,
    left: &mut u64,
    last: Option<(&Datum, u64)>,
    datum: &Datum,
) -> bool
    requires { IfSome last (λ l. Fits packages.now.0 room l.0.now × (size l.0.now ≡ l.1)
        × IsSound (object_of l.0.now)) }
    ensures fits { IsTrue result → Fits packages.now.0 room datum.now
        × (left.new + size datum.now ≡ left.old) }
    ensures others { Fits packages.now.0 room datum.now → size datum.now ≤ left.old → IsTrue result }
    ensures sound { IsTrue result → IsSound (object_of datum.now) }
{
    // What a vector repeats is looked at once, if it is small: it is compared in place of that.
    if let Some((last, size)) = last {
        if size <= LARGEST_COMPARED && is_same(LEVELS_COMPARED, last, datum) {
            return parts_fit(left, size);
        }
    }
    fits(packages, room, left, datum)
}

/// So many parts less are left; whether they fit.
#[inline(always)]
fn parts_fit(left: &mut u64, parts: u64) -> bool
    ensures fits { IsTrue result → left.new + parts ≡ left.old }
    ensures others { parts ≤ left.old → IsTrue result }
{
    if *left < parts {
        return false;
    }
    *left -= parts;
    true
}

#[cycle(fitting)]
fn end_fits(packages: &Packages, room: u64, left: &mut u64, tail: &Option<Boxed<Datum>>) -> bool
    ensures fits { IsTrue result → FitsEnd packages.now.0 room tail.now
        × (left.new + end_size tail.now ≡ left.old) }
    ensures others { FitsEnd packages.now.0 room tail.now
        → end_size tail.now ≤ left.old → IsTrue result }
    ensures sound { IsTrue result → IsSound (unwrap_or (option_map object_of tail.now) nil) }
{
    match tail {
        None => true,
        Some(tail) => {
            let tail = tail.get();
            if tail.is_list() {
                return false;
            }
            fits(packages, room, left, tail)
        }
    }
}

/// Whether a symbol of this home and name may be answered.
fn is_known(packages: &Packages, home: &[u8], name: &[u8]) -> bool
    ensures { result ≡ is_known packages.now.0 home.now name.now }
{
    is_nil(home, name) || (name.len() <= LONGEST_NAME && has_home(packages, home, name))
}

fn is_nil(home: &[u8], name: &[u8]) -> bool
    ensures { result ≡ is_nil home.now name.now }
{
    home == b"COMMON-LISP".as_slice() && name == b"NIL".as_slice()
}

fn has_home(packages: &Packages, home: &[u8], name: &[u8]) -> bool
    ensures { result ≡ (finite.contains_key packages.now.0 home.now
        && is_home home.now (resolution packages.now.0 home.now name.now)) }
{
    if !is_package(packages, home) {
        return false;
    }
    is_home(packages, home, name)
}

/// Whether a package has this name, which is no nickname.
#[tactic(auto, using(lisp_reading::proofs::Homes::named_so, lisp_reading::proofs::Homes::none_named))]
fn is_package(packages: &Packages, name: &[u8]) -> bool
    ensures { result ≡ finite.contains_key packages.now.0 name.now }
{
    packages.soundness();
    match packages.find(name) {
        Some(found) => found == name,
        None => false,
    }
}

/// Whether the package of this name finds no symbol of another home by the name, and may have a new one.
fn is_home(packages: &Packages, home: &[u8], name: &[u8]) -> bool
    requires { IsPackage packages.now.0 home.now }
    ensures { result ≡ is_home home.now (resolution packages.now.0 home.now name.now) }
{
    match packages.resolve(home, name) {
        Ok(Resolved::Found(found)) => found == home,
        Ok(Resolved::New(found)) => found == home,
        Err(_) => false,
    }
}
