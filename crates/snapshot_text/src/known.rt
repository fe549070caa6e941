//! Which data may be stored.
ghost use Rattle.std.specs.Prelude.{◌≡◌, ◌↔◌, true, All, IsTrue, unwrap_or, option_map};
ghost use Rattle.lisp_object.specs.Object.{nil, AllAtoms};
ghost use Rattle.lisp_object.specs.Datum.{object_of, is_proper};
ghost use Rattle.package_table.specs.Table.{AreSoundPackages};
ghost use Rattle.plist_state.specs.Sound.{IsSymbolStorable, IsSymbol, IsValue};
ghost use Rattle.plist_state.specs.Views.{symbol_of};

use lisp_object::{Boxed, Datum, Items};
use package_table::Packages;
use plist_state::Symbol;

// The greatest depth of a value.
const DEEPEST: u64 = 100;

// The most bytes in the name of an uninterned symbol.
const LONGEST_NAME: usize = 4096;

// Whether a symbol is there.
pub(crate) fn is_there(packages: &Packages, symbol: &Symbol) -> bool
    ensures { IsTrue result ↔ IsSymbol packages.now.0 (symbol_of symbol.now) }
{
    packages.is_symbol(symbol.home(), symbol.name())
}

// Whether a datum may be stored: it is proper, of depth at most 100, and its symbols are there.
pub(crate) fn is_value(packages: &Packages, datum: &Datum) -> bool
    ensures proper { IsTrue result → is_proper datum.now ≡ true }
    ensures value { IsTrue result → IsValue packages.now.0 (object_of datum.now) }
    ensures all { is_proper datum.now ≡ true → IsValue packages.now.0 (object_of datum.now)
        → IsTrue result }
{
    packages.soundness();
    datum.is_proper() && datum.depth() <= DEEPEST && are_known(packages, datum)
}

// Whether each symbol of a datum is there.
#[cycle(known)]
fn are_known(packages: &Packages, datum: &Datum) -> bool
    requires { AreSoundPackages packages.now.0 }
    ensures { IsTrue result ↔ AllAtoms (IsSymbolStorable packages.now.0) (object_of datum.now) }
{
    match datum {
        Datum::Symbol { package, name } => packages.is_symbol(package.as_slice(), name.as_slice()),
        Datum::Uninterned(name) => name.as_slice().len() <= LONGEST_NAME,
        Datum::List { items, tail } => {
            if !each_known(packages, items) {
                return false;
            }
            end_known(packages, tail)
        }
        Datum::Vector(items) => each_known(packages, items),
        _ => true,
    }
}

#[cycle(known)]
fn each_known(packages: &Packages, items: &Items<Datum>) -> bool
    requires { AreSoundPackages packages.now.0 }
    ensures { IsTrue result ↔ All (λ d. AllAtoms (IsSymbolStorable packages.now.0) (object_of d)) items.now }
{
    let items = items.as_slice();
    for item in items {
        if !are_known(packages, item) {
            return false;
        }
    }
    true
}

#[cycle(known)]
fn end_known(packages: &Packages, tail: &Option<Boxed<Datum>>) -> bool
    requires { AreSoundPackages packages.now.0 }
    ensures { IsTrue result ↔ AllAtoms (IsSymbolStorable packages.now.0)
        (unwrap_or (option_map object_of tail.now) nil) }
{
    match tail {
        None => true,
        Some(tail) => are_known(packages, tail.get()),
    }
}
