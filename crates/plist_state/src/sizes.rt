//! The sizes of long lists that items were put before, so that one item more costs itself alone.
ghost use Rattle.std.specs.Prelude.{◌≡◌, Some, true, IfSome};
ghost use Rattle.lisp_object.specs.Datum.{object_of, is_proper};
ghost use Rattle.plist_state.specs.Lists.{NumberedLists, value_in};
ghost use Rattle.plist_state.specs.PushedLists.{pair_size};
ghost use Rattle.plist_state.specs.Sizes.{size_key, AreSizes, AreOtherSizes};

use lisp_object::Datum;
use std::collections::BTreeMap;

/// The sizes that are noted, by the numbers of the symbol and of the indicator.
pub(crate) type ListSizes = BTreeMap<u64, u64>;

// From this size on the size of a list is noted. A shorter one is counted at each PUSH, and takes no memory here.
const LONG: u64 = 64;

// One key of both numbers.
fn key(number: u32, indicator: u32) -> u64
    ensures { result ≡ size_key number indicator }
{
    u64::from(number) * 4_294_967_296 + u64::from(indicator)
}

/// The size that is noted of a property; None where none is, whatever the property.
pub(crate) fn noted(sizes: &ListSizes, number: u32, indicator: u32) -> Option<u64>
    ensures { (m : NumberedLists) → AreSizes m sizes.now.entries
        → IfSome result (λ size. pair_size (value_in m number indicator) ≡ Some size) }
{
    match sizes.get(&key(number, indicator)) {
        Some(size) => Some(*size),
        None => None,
    }
}

/// The size of a value that is a list with an item.
pub(crate) fn counted(value: &Datum) -> Option<u64>
    requires { is_proper value.now ≡ true }
    ensures { result ≡ pair_size (Some (object_of value.now)) }
{
    match value {
        Datum::List { .. } => Some(value.size()),
        _ => None,
    }
}

/// Forgets the size of a property, which changes.
pub(crate) fn forget(sizes: &mut ListSizes, number: u32, indicator: u32)
    ensures { (m : NumberedLists) → AreOtherSizes m number indicator sizes.old.entries
        → AreSizes m sizes.new.entries }
{
    let _size = sizes.remove(&key(number, indicator));
}

/// Notes the size of a property that is a list, if it is a long one. Where there is no memory for it, no size is noted.
pub(crate) fn note(sizes: &mut ListSizes, number: u32, indicator: u32, size: u64)
    ensures { (m : NumberedLists) → AreOtherSizes m number indicator sizes.old.entries
        → pair_size (value_in m number indicator) ≡ Some size → AreSizes m sizes.new.entries }
{
    if size < LONG {
        forget(sizes, number, indicator);
        return;
    }
    if let Err(_) = sizes.insert(key(number, indicator), size) {
        forget(sizes, number, indicator);
    }
}
