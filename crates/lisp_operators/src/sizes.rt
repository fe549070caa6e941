//! How large lists are. Where most items are atoms it costs less than `Datum::size`, which calls itself for each.
ghost use Rattle.std.specs.Prelude.{◌≡◌, ◌-◌, ◌^◌, min, sum, map, Option, Some};
ghost use Rattle.lisp_object.specs.Object.{Object, object_size};
ghost use Rattle.lisp_object.specs.Datum.{object_of, size};
ghost use Rattle.plist_state.specs.PushedLists.{pair_size, pushed_list};
ghost use Rattle.lisp_operators.specs.EvaluationAnswers.{IsProper};

use lisp_object::Datum;

// The size of an item. That of an atom is known by what it is.
#[inline(always)]
fn item_size(item: &Datum) -> u64
    ensures { result ≡ min (size item.now) (2 ^ 64 - 1) }
{
    match item {
        Datum::List { .. } => item.size(),
        Datum::Vector(_) => item.size(),
        _ => 1,
    }
}

// The sizes of these items together. More than 2^64-1 counts as that.
fn sizes(items: &[Datum]) -> u64
    ensures { result ≡ min (sum (map size items.now)) (2 ^ 64 - 1) }
{
    let mut total = 0u64;
    for item in items {
        total = total.saturating_add(item_size(item));
    }
    total
}

/// The size of an object. More than 2^64-1 counts as that.
pub(crate) fn size_of(datum: &Datum) -> u64
    requires { IsProper datum.now }
    ensures { result ≡ min (object_size (object_of datum.now)) (2 ^ 64 - 1) }
{
    match datum {
        Datum::List { items, tail } => {
            if tail.is_some() {
                return datum.size();
            }
            sizes(items.as_slice()).saturating_add(1)
        }
        _ => datum.size(),
    }
}

/// The size of a list of this size with an item more in front.
#[tactic(auto, using(crate::proofs::Pushes::before_size))]
pub(crate) fn size_before(first: &Datum, list: u64) -> u64
    requires { IsProper first.now }
    ensures { (old : Option Object) → pair_size old ≡ Some list
        → pair_size (Some (pushed_list (object_of first.now) old)) ≡ Some result }
{
    size_of(first).saturating_add(list)
}
