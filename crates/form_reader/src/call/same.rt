//! Whether a datum is one more like the one before it.
ghost use Rattle.std.specs.Prelude.{◌≡◌, IsTrue, None};

use lisp_object::{Bytes, Datum};

/// Whether two data are the same integer or symbol, or lists or vectors of the same, with so many levels of these at most.
#[cycle(comparing)]
pub(crate) fn is_same(levels: u64, one: &Datum, other: &Datum) -> bool
    ensures { IsTrue result → one.now ≡ other.now }
{
    match one {
        Datum::Integer(number) => is_integer(other, *number),
        Datum::Symbol { package, name } => is_symbol(other, package, name),
        Datum::List { items, tail: None } => match other {
            Datum::List {
                items: others,
                tail: None,
            } => { levels > 0 && are_same(levels - 1, items.as_slice(), others.as_slice()) }
            _ => false,
        },
        Datum::Vector(items) => match other {
            Datum::Vector(others) => {
                levels > 0 && are_same(levels - 1, items.as_slice(), others.as_slice())
            }
            _ => false,
        },
        _ => false,
    }
}

#[cycle(comparing)]
fn are_same(levels: u64, ones: &[Datum], others: &[Datum]) -> bool
    ensures { IsTrue result → ones.now ≡ others.now }
{
    let mut rest = others;
    for one in ones {
        match rest {
            [] => return false,
            [other, more @ ..] => {
                if !is_same(levels, one, other) {
                    return false;
                }
                rest = more;
            }
        }
    }
    rest.is_empty()
}

fn is_integer(datum: &Datum, number: i128) -> bool
    ensures { IsTrue result → Datum.Integer number ≡ datum.now }
{
    match datum {
        Datum::Integer(other) => number == *other,
        _ => false,
    }
}

fn is_symbol(datum: &Datum, home: &Bytes, name: &Bytes) -> bool
    ensures { IsTrue result → Datum.Symbol home.now name.now ≡ datum.now }
{
    match datum {
        Datum::Symbol {
            package: other_home,
            name: other_name,
        } => home == other_home && name == other_name,
        _ => false,
    }
}
