//! How what was refused is accepted.

use crate::filling::{item_at, items_inside};
use crate::operators::{PAZTURROK, is_counting, is_in_pazturrok, name_of_symbol};
use lisp_object::Datum;
use lisp_object::refusal::{ARGUMENT_COUNT, ARGUMENT_KIND, LIMIT};
use package_table::{PackageError, Resolved};
use plist_state::World;
use std::alloc::{AllocError, Global};

/// What is told of an operator in a package that finds none.
pub(crate) const WITHOUT_COMMON_LISP: &[u8] =
    b": this package does not use COMMON-LISP; (COMMON-LISP:IN-PACKAGE \"CL-USER\") leads back";

/// What is told of the operator that is a form of its own.
pub(crate) const ALONE: &[u8] = b": it is a form of its own, and stands in no other one";

/// Whether the current package is this one, or uses it.
pub(crate) fn uses(world: &World, package: &[u8]) -> bool {
    let current = world.current_package();
    current == package || world.packages().is_used(current, package)
}

/// Adds how an operator of PAZTURROK becomes known, or under which name it is. After an error, want of memory alone, a
/// part may be added.
pub(crate) fn add_way_to_own(
    alloc: Global,
    text: &mut Vec<u8>,
    world: &World,
    name: &[u8],
) -> Result<(), AllocError> {
    let is_there = world.packages().has_package(PAZTURROK);
    match (is_there, has_other(world, name)) {
        (false, false) => text.extend_from_slice(b"run DIR --operators makes it known"),
        (false, true) => {
            text.extend_from_slice(b"run DIR --operators makes it known as ")?;
            add_other_name(text, name)
        }
        (true, true) => add_other_name(text, name),
        (true, false) => add_way_in(alloc, text, world, name),
    }
}

// Adds how the current package gets a name of PAZTURROK: with all external ones, if it is one of these, and the plain name of none is there already.
fn add_way_in(
    alloc: Global,
    text: &mut Vec<u8>,
    world: &World,
    name: &[u8],
) -> Result<(), AllocError> {
    if world.packages().is_external(PAZTURROK, name) && !has_any_other(alloc, world)? {
        text.extend_from_slice(b"(USE-PACKAGE \"PAZTURROK\")")?;
    } else {
        text.extend_from_slice(b"(IMPORT '")?;
        add_own_name(text, name)?;
        text.push(b')')?;
    }
    text.extend_from_slice(b" makes it known in this package")
}

// Adds the name of an operator whose plain name another symbol has.
fn add_other_name(text: &mut Vec<u8>, name: &[u8]) -> Result<(), AllocError> {
    add_own_name(text, name)?;
    text.extend_from_slice(b", as another symbol has the plain name here")
}

// Adds the name of an operator with its package.
fn add_own_name(text: &mut Vec<u8>, name: &[u8]) -> Result<(), AllocError> {
    text.extend_from_slice(PAZTURROK)?;
    text.extend_from_slice(b"::")?;
    text.extend_from_slice(name)
}

// Whether the current package finds another symbol by the name of an external one of PAZTURROK.
fn has_any_other(alloc: Global, world: &World) -> Result<bool, AllocError> {
    match world.packages().external_names(alloc, PAZTURROK) {
        Ok(names) => {
            for name in names.as_slice() {
                if has_other(world, *name) {
                    return Ok(true);
                }
            }
            Ok(false)
        }
        Err(PackageError::OutOfMemory) => Err(AllocError),
        Err(_) => Ok(false),
    }
}

// Whether the current package finds a symbol of this name that is not of PAZTURROK.
fn has_other(world: &World, name: &[u8]) -> bool {
    world.soundness();
    match world.packages().resolve(world.current_package(), name) {
        Ok(Resolved::Found(home)) => home != PAZTURROK,
        _ => false,
    }
}

/// What is told after a part that was refused with a number, beside its text.
pub(crate) fn way_on(world: &World, part: &Datum, number: u16) -> &'static [u8] {
    if number == LIMIT {
        return limit_of(world, part);
    }
    way_to_count(part, number, world.packages().has_package(PAZTURROK))
}

// Which limit it is that is met.
fn limit_of(world: &World, part: &Datum) -> &'static [u8] {
    let packages = world.packages();
    if packages.is_full_of_symbols() {
        return b"; the store has 1,000,000 symbols, the most that it may have: PAZTURROK::FORGET-NAMES lets go what nothing needs";
    }
    if packages.is_full_of_packages() && has_operator(part, b"MAKE-PACKAGE") {
        return b"; the store has 1,000 packages, the most that it may have";
    }
    if has_operator(part, b"COPY-READTABLE") {
        return b"; a store has at most 64 readtables (docs/use/limits.md)";
    }
    b"; a name or a list is longer than it may be (docs/use/limits.md)"
}

// Whether a form begins with a symbol of this name.
fn has_operator(part: &Datum, name: &[u8]) -> bool {
    let Some(operator) = item_at(part, 0) else {
        return false;
    };
    match name_of_symbol(operator) {
        Some(known) => known == name,
        None => false,
    }
}

// Whether what a form adds is a constant, and no integer.
fn adds_no_integer(part: &Datum) -> bool {
    match item_at(part, 2) {
        Some(added) => match added {
            Datum::Rational(_) | Datum::Char(_) => true,
            Datum::Text(_) | Datum::Vector(_) => true,
            _ => false,
        },
        None => false,
    }
}

// What is told after a form that adds to a property, where it was refused with a number: with a default the property may be missing.
fn way_to_count(part: &Datum, number: u16, has_own: bool) -> &'static [u8] {
    let (Some(operator), Some(place)) = (item_at(part, 0), item_at(part, 1)) else {
        return b"";
    };
    if !is_counting(operator) || items_inside(place).is_empty() {
        return b"";
    }
    if number == ARGUMENT_KIND && adds_no_integer(part) {
        return b"; what is added has to be an integer";
    }
    match (number, is_in_pazturrok(operator), has_own) {
        (ARGUMENT_KIND, true, _) => b"; (GET s i 0) is 0 where there is no property",
        (ARGUMENT_KIND, false, true) => {
            b"; where there is no property, SETF it first, or PAZTURROK::INCF takes a default: (GET s i 0)"
        }
        (ARGUMENT_KIND, false, false) => {
            b"; where there is no property, SETF it first: (SETF (GET s i) 0)"
        }
        (ARGUMENT_COUNT, false, true) => b"; PAZTURROK::INCF takes a default: (GET s i 0)",
        (ARGUMENT_COUNT, false, false) => {
            b"; run DIR --operators makes PAZTURROK::INCF known, which takes a default"
        }
        _ => b"",
    }
}
