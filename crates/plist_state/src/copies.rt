//! Readtables that are copied, new or written over. What is made is noted.
ghost use Rattle.std.specs.Prelude.{◌≡◌, ◌≢◌, Ok, Err, IfOk, IfErr, MatchResult, OnOk, IsOk};
ghost use Rattle.std.specs.Option.{option_map_or};
ghost use Rattle.std.specs.FinMap as finite;
ghost use Rattle.plist_state.specs.declared.error.ReadtableError.TheVariants.{OutOfMemory};
ghost use Rattle.plist_state.specs.declared.note.TableChange.TheVariants.{Over};
ghost use Rattle.plist_state.specs.declared.note.Note.TheVariants.{Made, Changed};
ghost use Rattle.plist_state.specs.Changes.{with_copy, AnswersReadtables};
ghost use Rattle.plist_state.specs.Views.{readtables_of};
ghost use Rattle.plist_state.specs.Journal.{marks_of, ContinuesTables};

use crate::ReadtableError;
use crate::journal::{is_noted, push_note, reserve_named};
use crate::note::{Note, TableChange};
use crate::tables::{MAX_READTABLES, STANDARD, table};
use readtable_core::Readtable;
use std::alloc::Global;
use std::collections::BTreeMap;

/// Makes a readtable that is a copy of another, or writes it over. After an error the readtables are as they were.
pub(crate) fn copy(
    alloc: Global,
    tables: &mut BTreeMap<Vec<u8>, Readtable>,
    marks: &mut Vec<Vec<Note>>,
    from: &[u8],
    to: &[u8],
) -> Result<(), ReadtableError>
    ensures gives { AnswersReadtables (λ _. readtables_of tables.new) result
        (with_copy (readtables_of tables.old) from.now to.now) }
    ensures unchanged { IfErr result (λ _. readtables_of tables.new ≡ readtables_of tables.old) }
    ensures marked { ContinuesTables (marks_of marks.old.items) (readtables_of tables.old)
        (marks_of marks.new.items) (readtables_of tables.new) }
{
    check_copy(tables, from, to)?;
    let copied = match table(tables, from) {
        Some(other) => other.copy(alloc)?,
        None => unreachable!(),
    };
    let noted = reserve_named(alloc, marks, to)?;
    let to = Vec::from_slice(alloc, to)?;
    let is_noted = is_noted(marks.as_slice(), noted.as_slice());
    let before = put_table(tables, to, copied)?;
    if is_noted && before.is_some() {
        return Ok(());
    }
    push_note(marks, was_table(noted, before));
    Ok(())
}

// Puts a readtable at a name, and gives what was there.
fn put_table(
    tables: &mut BTreeMap<Vec<u8>, Readtable>,
    name: Vec<u8>,
    table: Readtable,
) -> Result<Option<Readtable>, ReadtableError>
    ensures ok { OnOk result
        (readtables_of tables.new ≡ finite.insert (readtables_of tables.old) name.items table) }
    ensures before { IfOk result
        (λ before. before ≡ finite.get (readtables_of tables.old) name.items) }
    ensures err { IfErr result
        (λ e. (e ≡ OutOfMemory) × (readtables_of tables.new ≡ readtables_of tables.old)) }
{
    match tables.insert(name, table) {
        Ok(before) => Ok(before),
        Err(_) => Err(ReadtableError::OutOfMemory),
    }
}

// The note that this was the readtable of this name, or that there was none.
fn was_table(name: Vec<u8>, before: Option<Readtable>) -> Note
    ensures { result ≡ option_map_or (λ t. Changed name (Over t)) before (Made name) }
{
    match before {
        Some(table) => Note::Changed {
            name,
            change: TableChange::Over(table),
        },
        None => Note::Made(name),
    }
}

// The first reason to refuse a copy.
fn check_copy(
    tables: &BTreeMap<Vec<u8>, Readtable>,
    from: &[u8],
    to: &[u8],
) -> Result<(), ReadtableError>
    ensures { let m = readtables_of tables.now in
        MatchResult result (λ _. IsOk (with_copy m from.now to.now))
        (λ e. (with_copy m from.now to.now ≡ Err e) × (e ≢ OutOfMemory)) }
{
    if table(tables, from).is_none() {
        return Err(ReadtableError::NoReadtable);
    }
    if to == STANDARD {
        return Err(ReadtableError::StandardReadtable);
    }
    if table(tables, to).is_none() && count(tables) >= MAX_READTABLES {
        return Err(ReadtableError::Limit);
    }
    Ok(())
}

// The number of readtables.
fn count(tables: &BTreeMap<Vec<u8>, Readtable>) -> usize
    ensures { result ≡ finite.len (readtables_of tables.now) }
{
    tables.len()
}
