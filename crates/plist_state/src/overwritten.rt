//! Values that need not be noted: as earlier changes are undone, each is overwritten, or its property is taken away.
ghost use Rattle.std.specs.Prelude.{◌≡◌, ◌<◌, ◌≤◌, ◌-◌, ◌^◌, None, true, length};
ghost use Rattle.plist_state.specs.Journal.{marks_of};
ghost use Rattle.plist_state.specs.KeptRows.{IsProperChange};
ghost use Rattle.plist_state.specs.OverwrittenValues.{before_change, before_note, before_notes, IsPlaceOverwritten, OverwriteLeadsBackAs};

use crate::note::{Note, PropertyChange};
use lisp_object::Datum;
use property_rows::NumberedProperty;

/// Where a property is: its index, and the length of the list that it is in.
#[derive(Clone, Copy)]
pub(crate) struct PropertyPlace {
    pub(crate) index: usize,
    pub(crate) length: usize,
}

impl PropertyChange {
    // Where the property at a place was before this change; none where its value is overwritten as this is undone.
    fn place_before(&self, place: PropertyPlace) -> Option<PropertyPlace>
        requires index { place.index < place.length }
        requires length { place.length < 2 ^ 64 - 1 }
        ensures { result ≡ before_change self.now place }
    {
        match self {
            PropertyChange::Set { index, .. } => {
                if *index == place.index {
                    return None;
                }
                Some(place)
            }
            PropertyChange::Pushed { .. } => Some(place),
            PropertyChange::Popped { .. } => Some(place),
            PropertyChange::Added => {
                if place.index + 1 == place.length {
                    return None;
                }
                Some(PropertyPlace {
                    index: place.index,
                    length: place.length - 1,
                })
            }
            PropertyChange::Removed { index, .. } => Some(PropertyPlace {
                index: if *index <= place.index {
                    place.index + 1
                } else {
                    place.index
                },
                length: place.length + 1,
            }),
        }
    }
}

impl Note {
    // Where the property at a place in the list of the symbol of a number was before this, as `PropertyChange::place_before` says.
    fn place_before(&self, number: u32, place: PropertyPlace) -> Option<PropertyPlace>
        requires index { place.index < place.length }
        requires length { place.length < 2 ^ 64 - 1 }
        ensures { result ≡ before_note number self.now place }
    {
        match self {
            Note::Property {
                number: changed,
                change,
            } => {
                if *changed != number {
                    return Some(place);
                }
                change.place_before(place)
            }
            _ => Some(place),
        }
    }
}

// Whether a value is overwritten as these notes are undone.
fn overwrites(notes: &[Note], number: u32, place: PropertyPlace) -> bool
    ensures { result ≡ true → before_notes number notes.now place ≡ None }
{
    let mut place = place;
    let mut left = notes.len();
    while left > 0 {
        if place.index >= place.length || place.length == usize::MAX {
            return false;
        }
        left -= 1;
        let Some(before) = notes[left].place_before(number, place) else {
            return true;
        };
        place = before;
    }
    false
}

// So many of the newest notes are looked at, and so many more for each part of the value, as large values are dear to keep.
const NEWEST: usize = 64;

const NEWEST_A_PART: u64 = 8;

// The notes that are looked at begin here.
fn first_looked_at(notes: &[Note], value: &Datum) -> usize
    ensures { result ≤ length notes.now }
{
    if notes.len() <= NEWEST {
        return 0;
    }
    let more = value.size().saturating_mul(NEWEST_A_PART);
    (notes.len() - NEWEST).saturating_sub(more as usize)
}

/// Whether the value that a property has, or had, need not be kept for the marks: what it has at the newest mark does not depend on
/// it. Only the newest notes are looked at, more of them the larger the value is.
pub(crate) fn is_overwritten(
    marks: &[Vec<Note>],
    number: u32,
    place: PropertyPlace,
    value: &Datum,
) -> bool
    ensures { result ≡ true → IsPlaceOverwritten (marks_of marks.now) number place }
{
    let Some(notes) = marks.last() else {
        return false;
    };
    if place.index >= place.length {
        return false;
    }
    let first = first_looked_at(notes.as_slice(), value);
    overwrites(&notes.as_slice()[first..], number, place)
}

/// A change as it is noted, where the list had so many properties before it: the value of a property that was taken out is not
/// kept if what there is at the newest mark does not depend on it. An integer stands for it.
pub(crate) fn as_noted(
    marks: &[Vec<Note>],
    number: u32,
    count: usize,
    change: PropertyChange,
) -> PropertyChange
    requires { IsProperChange change }
    ensures proper { IsProperChange result }
    ensures back { OverwriteLeadsBackAs (marks_of marks.now) number count change result }
{
    match change {
        PropertyChange::Removed { index, property } => {
            let place = PropertyPlace {
                index,
                length: count,
            };
            if !is_overwritten(marks, number, place, &property.value) {
                return PropertyChange::Removed { index, property };
            }
            let property = NumberedProperty {
                indicator: property.indicator,
                order: property.order,
                value: Datum::Integer(0),
            };
            PropertyChange::Removed { index, property }
        }
        change => change,
    }
}
