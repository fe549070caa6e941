//! Changes, each with what it overwrote.
ghost use Rattle.std.specs.Prelude.{◌≡◌};
ghost use Rattle.plist_state.specs.Undoing.{restores};
ghost use Rattle.plist_state.specs.ShortenedLists.{shortened_symbol};

use lisp_object::Datum;
use property_rows::NumberedProperty;
use readtable_core::{Case, CharacterSlot, Readtable};

/// What has changed in a property list.
#[derive(Drop)]
pub(crate) enum PropertyChange {
    /// The value at an index was set; before, this one was there.
    Set {
        index: usize,
        value: Datum,
    },
    /// A property was added at the end.
    Added,
    /// An item was put before the list at an index. Without it the list is there again, and NIL, which is kept here, where
    /// that was the only item.
    Pushed {
        index: usize,
        empty: Datum,
    },
    /// These items were taken off the front of the list at an index, which has more. With them before it the list is there
    /// again: they have room for what it has.
    Popped {
        index: usize,
        items: Vec<Datum>,
    },
    /// This property was taken out, which stood at an index.
    Removed {
        index: usize,
        property: NumberedProperty,
    },
}

/// What has changed in a readtable.
#[derive(Drop)]
pub(crate) enum TableChange {
    /// It was written over; before, it was this one.
    Over(Readtable),
    /// The case was set; before, it was this one.
    Letters(Case),
    /// What is at a character was set; before, this was there.
    Character { c: u8, entry: CharacterSlot },
}

/// One change of what a world keeps besides its packages.
#[derive(Drop)]
pub(crate) enum Note {
    /// The property list of the symbol of this number changed.
    Property { number: u32, change: PropertyChange },
    /// A readtable was made.
    Made(Vec<u8>),
    /// The readtable of this name changed.
    Changed { name: Vec<u8>, change: TableChange },
    /// Another package became current; before, it was this one.
    InPackage(Vec<u8>),
    /// Another readtable became current; before, it was this one.
    InReadtable(Vec<u8>),
    /// Numbers are read in another base; before, it was this one.
    InBase(u8),
}

impl Note {
    /// The number of the symbol of whose list this took a property out.
    pub(crate) fn shortens(&self) -> Option<u32>
        ensures { result ≡ shortened_symbol self.now }
    {
        match self {
            Note::Property { number, change } => match change {
                PropertyChange::Removed { .. } => Some(*number),
                _ => None,
            },
            _ => None,
        }
    }

    /// Whether the readtable of this name is gone, or an earlier one, where this is undone, whatever was made of it since.
    pub(crate) fn restores(&self, name: &[u8]) -> bool
        ensures { result ≡ restores name.now self.now }
    {
        match self {
            Note::Made(made) => made.as_slice() == name,
            Note::Changed {
                name: changed,
                change: TableChange::Over(_),
            } => changed.as_slice() == name,
            _ => false,
        }
    }
}
