//! Going back: changes are undone, the last first. No call fails: memory is taken at most for an index, and where there is none
//! for it, the list has no index from then on.
ghost use Rattle.std.specs.Prelude.{◌≡◌, ◌<◌, length, take, Some};
ghost use Rattle.std.specs.List.{slice_get};
ghost use Rattle.plist_state.specs.Views.{rest_of};
ghost use Rattle.plist_state.specs.RowIndexes.{AreRowIndexes};
ghost use Rattle.plist_state.specs.KeptRows.{IsProperRows, IsWider};
ghost use Rattle.plist_state.specs.Undoing.{rest_before, all_undone, rests_at};
ghost use Rattle.plist_state.specs.Journal.{marks_of, CanBeUndone, IsJournal, FitsRows, LeadsBack};

use crate::note::Note;
use crate::stored::Stored;
use crate::{rows, tables};

fn undo(stored: &mut Stored, note: Note)
    requires note { CanBeUndone note }
    requires values { IsProperRows stored.old.properties.items }
    requires indexed { AreRowIndexes stored.old.properties.items stored.old.indexes.entries }
    requires room { FitsRows stored.old.properties.items (rest_before note (rest_of stored.old)) }
    ensures after { rest_of stored.new ≡ rest_before note (rest_of stored.old) }
    ensures wider { IsWider stored.old.properties.items stored.new.properties.items }
    ensures indexed { AreRowIndexes stored.new.properties.items stored.new.indexes.entries }
{
    match note {
        Note::Property { number, change } => {
            rows::take_back(&mut stored.properties, &mut stored.indexes, number, change);
        }
        Note::Made(name) => tables::remove(&mut stored.readtables, name.as_slice()),
        Note::Changed { name, change } => {
            tables::take_back(&mut stored.readtables, name.as_slice(), change);
        }
        Note::InPackage(name) => stored.current_package = name,
        Note::InReadtable(name) => stored.current_readtable = name,
        Note::InBase(base) => stored.read_base = base,
    }
}

fn undo_all(stored: &mut Stored, notes: Vec<Note>)
    requires leads { LeadsBack notes.items (rest_of stored.old) stored.old.properties.items }
    requires values { IsProperRows stored.old.properties.items }
    requires indexed { AreRowIndexes stored.old.properties.items stored.old.indexes.entries }
    ensures after { rest_of stored.new ≡ all_undone notes.items (rest_of stored.old) }
    ensures wider { IsWider stored.old.properties.items stored.new.properties.items }
    ensures indexed { AreRowIndexes stored.new.properties.items stored.new.indexes.entries }
{
    let mut notes = notes;
    while let Some(note) = notes.pop() {
        undo(stored, note);
    }
}

/// What was stored at this mark is there again, with the earlier marks alone.
pub(crate) fn undo_to(stored: &mut Stored, marks: &mut Vec<Vec<Note>>, mark: usize)
    requires mark { mark < length marks.old.items }
    requires journal { IsJournal (marks_of marks.old.items) (rest_of stored.old)
        stored.old.properties.items }
    requires values { IsProperRows stored.old.properties.items }
    requires indexed { AreRowIndexes stored.old.properties.items stored.old.indexes.entries }

    // The state is that of the mark, and the marks before it stay.
    ensures past { rests_at (marks_of marks.new.items) (rest_of stored.new)
        ≡ take mark (rests_at (marks_of marks.old.items) (rest_of stored.old)) }
    ensures now { slice_get (rests_at (marks_of marks.old.items) (rest_of stored.old)) mark
        ≡ Some (rest_of stored.new) }
    ensures count { length marks.new.items ≡ mark }

    // The notes that are left lead back from what is stored; no row has less room, and each index fits its row.
    ensures journal { IsJournal (marks_of marks.new.items) (rest_of stored.new)
        stored.new.properties.items }
    ensures wider { IsWider stored.old.properties.items stored.new.properties.items }
    ensures indexed { AreRowIndexes stored.new.properties.items stored.new.indexes.entries }
{
    loop {
        let Some(newest) = marks.pop() else {
            unreachable!()
        };
        undo_all(stored, newest);
        if marks.len() == mark {
            return;
        }
    }
}
