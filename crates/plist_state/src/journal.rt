//! The journal: what was changed since each mark, so that it can be undone.
ghost use Rattle.std.specs.Prelude.{◌≡◌, true, OnOk, IfOk, IsTrue};
ghost use Rattle.std.specs.List.{list_any};
ghost use Rattle.std.specs.FinMap as finite;
ghost use Rattle.readtable_core.specs.Tables.{Table};
ghost use Rattle.plist_state.specs.State.{Readtables};
ghost use Rattle.plist_state.specs.Views.{NumberedRest};
ghost use Rattle.plist_state.specs.Undoing.{rest_before, restores};
ghost use Rattle.plist_state.specs.Journal.{marks_of, has_room, CanBeUndone, ContinuesJournal, ContinuesTables};

use crate::note::Note;
use std::alloc::{AllocError, Global};

// So many of the newest notes are looked at: there are no more readtables.
const NEWEST: usize = 64;

/// Makes room for one note more under the newest mark, if there is one.
pub(crate) fn reserve_note(marks: &mut Vec<Vec<Note>>) -> Result<(), AllocError>
    ensures same { marks_of marks.new.items ≡ marks_of marks.old.items }
    ensures room { OnOk result (has_room marks.new.items) }
{
    match marks.last_mut() {
        Some(newest) => newest.reserve(1),
        None => Ok(()),
    }
}

/// Makes room for one note more, as `reserve_note` does, and gives a copy of the name that it is about.
pub(crate) fn reserve_named(
    alloc: Global,
    marks: &mut Vec<Vec<Note>>,
    name: &[u8],
) -> Result<Vec<u8>, AllocError>
    ensures name { IfOk result (λ noted. noted.items ≡ name.now) }
    ensures same { marks_of marks.new.items ≡ marks_of marks.old.items }
    ensures room { OnOk result (has_room marks.new.items) }
{
    let noted = Vec::from_slice(alloc, name)?;
    reserve_note(marks)?;
    Ok(noted)
}

/// Notes a change under the newest mark, if there is one.
pub(crate) fn push_note(marks: &mut Vec<Vec<Note>>, note: Note)
    requires { has_room marks.old.items }
    ensures { (t u : NumberedRest) → CanBeUndone note → rest_before note u ≡ t
        → ContinuesJournal (marks_of marks.old.items) t (marks_of marks.new.items) u }
{
    if let Some(newest) = marks.last_mut() {
        newest.push_reserved(note);
    }
}

// Whether one of these notes restores the readtable of this name.
fn is_restored(notes: &[Note], name: &[u8]) -> bool
    ensures { result ≡ list_any (restores name.now) notes.now }
{
    notes.iter().any(|note| note.restores(name))
}

/// Whether a note under the newest mark restores the readtable of this name, so that a change of it needs no other. Only the
/// newest notes are looked at.
pub(crate) fn is_noted(marks: &[Vec<Note>], name: &[u8]) -> bool
    ensures { result ≡ true → (m : Readtables) (t : Table) → IsTrue (finite.contains_key m name.now)
        → ContinuesTables (marks_of marks.now) m (marks_of marks.now) (finite.insert m name.now t) }
{
    let Some(notes) = marks.last() else {
        return false;
    };
    let first = notes.len().saturating_sub(NEWEST);
    is_restored(&notes.as_slice()[first..], name)
}
