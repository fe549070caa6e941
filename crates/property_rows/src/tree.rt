//! Trees over slots: a slot in the middle, and before it and after it a tree of half the size. Each slot counts how many are
//! gone in the tree before it.
ghost use Rattle.std.specs.Prelude.{◌≡◌, ◌+◌, ◌*◌, ◌<◌, ◌≤◌, true, false, not, [], ◌∷◌, ◌++◌, map, length, take, slice_index_or, slice_set};
ghost use Rattle.property_rows.specs.declared.slot.Slot.{Slot as Kept};
ghost use Rattle.property_rows.specs.Slots.{IsTree, IsTreeSize, gone_in, slot_at, is_gone, property_in, slot_shown, blank, most_slots};

use crate::slot::Slot;

/// The size of a whole tree with room for so many slots.
pub(crate) fn tree_of(count: usize) -> usize
    requires { count ≤ most_slots }
    ensures whole { IsTreeSize result }
    ensures room { count ≤ result }
{
    let mut size = 0;
    while size < count {
        size = 2 * size + 1;
    }
    size
}

/// How many of the slots of a tree of this size are gone.
pub(crate) fn count_gone(slots: &[Slot], size: usize) -> usize
    requires { IsTree size slots.now }
    ensures { result ≡ gone_in slots.now }
{
    if size == 0 {
        return 0;
    }
    let half = size / 2;
    if slots.len() <= half {
        return count_gone(slots, half);
    }
    let gone = slots[half].gone as usize;
    gone / 2 + gone % 2 + count_gone(&slots[half + 1..], half)
}

/// The slot of the property at an index, and the one after the last where there are not so many.
pub(crate) fn slot_of(slots: &[Slot], size: usize, index: usize) -> usize
    requires { IsTree size slots.now }
    ensures { result ≡ slot_at slots.now index }
{
    if size == 0 {
        return 0;
    }
    let half = size / 2;
    if slots.len() <= half {
        return slot_of(slots, half, index);
    }
    let gone = slots[half].gone as usize;
    let before = half - gone / 2;
    if index < before {
        return slot_of(&slots[..half], half, index);
    }
    if index == before && gone % 2 == 0 {
        return half;
    }
    half + 1 + slot_of(&slots[half + 1..], half, index - before - (1 - gone % 2))
}

/// How many of the slots before a place are gone.
pub(crate) fn gone_before(slots: &[Slot], size: usize, place: usize) -> usize
    requires tree { IsTree size slots.now }
    requires place { place ≤ length slots.now }
    ensures { result ≡ gone_in (take place slots.now) }
{
    if size == 0 {
        return 0;
    }
    let half = size / 2;
    if slots.len() <= half {
        return gone_before(slots, half, place);
    }
    if place <= half {
        return gone_before(&slots[..half], half, place);
    }
    let gone = slots[half].gone as usize;
    gone / 2 + gone % 2 + gone_before(&slots[half + 1..], half, place - half - 1)
}

/// How many of the slots in the tree before the next one are gone.
pub(crate) fn gone_before_next(slots: &[Slot], size: usize) -> usize
    requires tree { IsTree size slots.now }
    requires room { length slots.now < size }
    ensures few { result ≤ length slots.now }
    ensures next { (s : Kept) → s.gone ≡ 2 * result → IsTree size (slots.now ++ s ∷ []) }
{
    let half = size / 2;
    if slots.len() < half {
        return gone_before_next(slots, half);
    }
    if slots.len() == half {
        return count_gone(slots, half);
    }
    gone_before_next(&slots[half + 1..], half)
}

// A count that is more by so many, where a slot leaves, or less.
fn changed(count: u32, by: u32, leaves: bool) -> u32
    requires more { leaves ≡ true → count + by < 4294967296 }
    requires less { leaves ≡ false → by ≤ count }
    ensures more { leaves ≡ true → result ≡ count + by }
    ensures less { leaves ≡ false → result + by ≡ count }
{
    if leaves { count + by } else { count - by }
}

/// The slot at a place is gone from now on, where it leaves, or is there again.
pub(crate) fn turn(slots: &mut [Slot], size: usize, place: usize, leaves: bool)
    requires tree { IsTree size slots.old }
    requires place { place < length slots.old }
    requires few { length slots.old ≤ most_slots }
    requires here { is_gone (slice_index_or slots.old place blank) ≡ not leaves }
    ensures tree { IsTree size slots.new }
    ensures shown { map slot_shown slots.new
        ≡ slice_set (map slot_shown slots.old) place (leaves, property_in (slice_index_or slots.old place blank)) }
{
    let half = size / 2;
    if slots.len() <= half {
        turn(slots, half, place, leaves);
        return;
    }
    let (front, rest) = slots.split_at_mut(half);
    let Some((here, back)) = rest.split_first_mut() else {
        unreachable!()
    };
    if place < half {
        here.gone = changed(here.gone, 2, leaves);
        turn(front, half, place, leaves);
    } else if place == half {
        here.gone = changed(here.gone, 1, leaves);
    } else {
        turn(back, half, place - half - 1, leaves);
    }
}
