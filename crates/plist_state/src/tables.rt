//! Readtables by their names: look-ups, single changes, and how each is taken back. A change that is made is noted.
ghost use Rattle.std.specs.Prelude.{◌≡◌, ◌≢◌, ◌<◌, Ok, Err, Some, None, IsTrue, IsFalse, IfOk, IfErr, MatchResult, OnOk, IsOk};
ghost use Rattle.std.specs.Option.{option_map};
ghost use Rattle.std.specs.FinMap as finite;
ghost use Rattle.readtable_core.specs.Names.{is_dispatch_name};
ghost use Rattle.readtable_core.specs.Tables.{Table, entry_at};
ghost use Rattle.readtable_core.specs.Changes.{with_character_entry, dispatch_refusal};
ghost use Rattle.plist_state.specs.declared.error.ReadtableError.TheVariants.{OutOfMemory};
ghost use Rattle.plist_state.specs.Changes.{writable, with_case, with_macro, with_dispatching, with_dispatch, with_syntax, readtable_error_of, AnswersReadtables};
ghost use Rattle.plist_state.specs.Views.{readtables_of};
ghost use Rattle.plist_state.specs.Undoing.{table_before, tables_before};
ghost use Rattle.plist_state.specs.Journal.{marks_of, has_room, IsTableChange, IsEntryNote, ContinuesTables};

use crate::ReadtableError;
use crate::journal::{push_note, reserve_named};
use crate::note::{Note, TableChange};
use readtable_core::{Case, CharacterSlot, FnName, Readtable};
use std::alloc::{AllocError, Global};
use std::collections::BTreeMap;

/// The name of the standard readtable.
pub const STANDARD: &[u8] = b"STANDARD";

/// The name of the readtable that is current first.
pub const USER: &[u8] = b"USER";

/// The most readtables.
pub const MAX_READTABLES: usize = 64;

/// The readtable of this name.
pub(crate) fn table<'a>(
    tables: &'a BTreeMap<Vec<u8>, Readtable>,
    name: &[u8],
) -> Option<&'a Readtable>
    ensures { option_map (λ t. t.now) result ≡ finite.get (readtables_of tables.now) name.now }
{
    tables.get(name)
}

// That the readtable of this name is there and is not the standard one.
fn check_writable(tables: &BTreeMap<Vec<u8>, Readtable>, name: &[u8]) -> Result<(), ReadtableError>
    ensures { let said = writable (readtables_of tables.now) name.now in
        MatchResult result (λ _. IsOk said) (λ e. (said ≡ Err e) × (e ≢ OutOfMemory)) }
{
    if table(tables, name).is_none() {
        return Err(ReadtableError::NoReadtable);
    }
    if name == STANDARD {
        return Err(ReadtableError::StandardReadtable);
    }
    Ok(())
}

// That the sub-character of the readtable of this name, which is there, may have a function.
fn check_dispatch(
    tables: &BTreeMap<Vec<u8>, Readtable>,
    name: &[u8],
    c: u8,
    sub: u8,
) -> Result<(), ReadtableError>
    requires { IsTrue (finite.contains_key (readtables_of tables.now) name.now) }
    ensures { (t : Table) → finite.get (readtables_of tables.now) name.now ≡ Some t
        → MatchResult result (λ _. dispatch_refusal t c sub ≡ None)
        (λ e. (option_map readtable_error_of (dispatch_refusal t c sub) ≡ Some e) × (e ≢ OutOfMemory)) }
{
    let Some(table) = table(tables, name) else {
        unreachable!()
    };
    if !table.is_dispatching(c) {
        return Err(ReadtableError::NotDispatching);
    }
    if sub.is_ascii_digit() {
        return Err(ReadtableError::DigitSubcharacter);
    }
    Ok(())
}

// A copy of what is at a character of the readtable of this name, which is there.
fn copy_entry(
    alloc: Global,
    tables: &BTreeMap<Vec<u8>, Readtable>,
    name: &[u8],
    c: u8,
) -> Result<CharacterSlot, AllocError>
    requires character { c < 128 }
    requires there { IsTrue (finite.contains_key (readtables_of tables.now) name.now) }
    ensures { (t : Table) → finite.get (readtables_of tables.now) name.now ≡ Some t
        → IfOk result (λ entry. entry ≡ entry_at t c) }
{
    let Some(table) = table(tables, name) else {
        unreachable!()
    };
    table.entry(alloc, c)
}

// The note of what is at a character of the readtable of this name, which is there. The newest mark has room for it.
fn entry_note(
    alloc: Global,
    tables: &BTreeMap<Vec<u8>, Readtable>,
    marks: &mut Vec<Vec<Note>>,
    name: &[u8],
    c: u8,
) -> Result<Note, AllocError>
    requires character { c < 128 }
    requires there { IsTrue (finite.contains_key (readtables_of tables.now) name.now) }
    ensures note { IfOk result (IsEntryNote (readtables_of tables.now) name.now c) }
    ensures same { marks_of marks.new.items ≡ marks_of marks.old.items }
    ensures room { OnOk result (has_room marks.new.items) }
{
    let entry = copy_entry(alloc, tables, name, c)?;
    let noted = reserve_named(alloc, marks, name)?;
    let change = TableChange::Character { c, entry };
    Ok(Note::Changed {
        name: noted,
        change,
    })
}

/// Sets the case of a readtable. After an error the readtables are as they were.
pub(crate) fn set_case(
    alloc: Global,
    tables: &mut BTreeMap<Vec<u8>, Readtable>,
    marks: &mut Vec<Vec<Note>>,
    name: &[u8],
    letters: Case,
) -> Result<(), ReadtableError>
    ensures gives { AnswersReadtables (λ _. readtables_of tables.new) result
        (with_case (readtables_of tables.old) name.now letters) }
    ensures unchanged { IfErr result (λ _. readtables_of tables.new ≡ readtables_of tables.old) }
    ensures marked { ContinuesTables (marks_of marks.old.items) (readtables_of tables.old)
        (marks_of marks.new.items) (readtables_of tables.new) }
{
    check_writable(tables, name)?;
    let noted = reserve_named(alloc, marks, name)?;
    let Some(table) = tables.get_mut(name) else {
        unreachable!()
    };
    let change = TableChange::Letters(table.case());
    table.set_case(letters);
    push_note(
        marks,
        Note::Changed {
            name: noted,
            change,
        },
    );
    Ok(())
}

/// Makes a character of a readtable a macro character. After an error the readtables are as they were.
pub(crate) fn set_macro(
    alloc: Global,
    tables: &mut BTreeMap<Vec<u8>, Readtable>,
    marks: &mut Vec<Vec<Note>>,
    name: &[u8],
    c: u8,
    function: FnName,
    non_terminating: bool,
) -> Result<(), ReadtableError>
    requires character { c < 128 }
    requires name { IsFalse (is_dispatch_name function) }
    ensures gives { AnswersReadtables (λ _. readtables_of tables.new) result
        (with_macro (readtables_of tables.old) name.now c function non_terminating) }
    ensures unchanged { IfErr result (λ _. readtables_of tables.new ≡ readtables_of tables.old) }
    ensures marked { ContinuesTables (marks_of marks.old.items) (readtables_of tables.old)
        (marks_of marks.new.items) (readtables_of tables.new) }
{
    check_writable(tables, name)?;
    let note = entry_note(alloc, tables, marks, name, c)?;
    let Some(table) = tables.get_mut(name) else {
        unreachable!()
    };
    table.set_macro(c, function, non_terminating);
    push_note(marks, note);
    Ok(())
}

/// Makes a character of a readtable a dispatching macro character. After an error the readtables are as they were.
pub(crate) fn make_dispatch(
    alloc: Global,
    tables: &mut BTreeMap<Vec<u8>, Readtable>,
    marks: &mut Vec<Vec<Note>>,
    name: &[u8],
    c: u8,
    non_terminating: bool,
) -> Result<(), ReadtableError>
    requires { c < 128 }
    ensures gives { AnswersReadtables (λ _. readtables_of tables.new) result
        (with_dispatching (readtables_of tables.old) name.now c non_terminating) }
    ensures unchanged { IfErr result (λ _. readtables_of tables.new ≡ readtables_of tables.old) }
    ensures marked { ContinuesTables (marks_of marks.old.items) (readtables_of tables.old)
        (marks_of marks.new.items) (readtables_of tables.new) }
{
    check_writable(tables, name)?;
    let note = entry_note(alloc, tables, marks, name, c)?;
    let Some(table) = tables.get_mut(name) else {
        unreachable!()
    };
    if let Err(_) = table.make_dispatch(c, non_terminating) {
        return Err(ReadtableError::OutOfMemory);
    }
    push_note(marks, note);
    Ok(())
}

/// Sets the function of a sub-character in a readtable. After an error the readtables are as they were.
pub(crate) fn set_dispatch(
    alloc: Global,
    tables: &mut BTreeMap<Vec<u8>, Readtable>,
    marks: &mut Vec<Vec<Note>>,
    name: &[u8],
    c: u8,
    sub: u8,
    function: FnName,
) -> Result<(), ReadtableError>
    requires character { c < 128 }
    requires sub_character { sub < 128 }
    requires name { IsFalse (is_dispatch_name function) }
    ensures gives { AnswersReadtables (λ _. readtables_of tables.new) result
        (with_dispatch (readtables_of tables.old) name.now c sub function) }
    ensures unchanged { IfErr result (λ _. readtables_of tables.new ≡ readtables_of tables.old) }
    ensures marked { ContinuesTables (marks_of marks.old.items) (readtables_of tables.old)
        (marks_of marks.new.items) (readtables_of tables.new) }
{
    check_writable(tables, name)?;
    check_dispatch(tables, name, c, sub)?;
    let note = entry_note(alloc, tables, marks, name, c)?;
    let Some(table) = tables.get_mut(name) else {
        unreachable!()
    };
    if let Err(_) = table.set_dispatch(c, sub, function) {
        unreachable!()
    }
    push_note(marks, note);
    Ok(())
}

// Puts an entry into the readtable of this name, which is there, and gives the old one.
fn put_entry(
    tables: &mut BTreeMap<Vec<u8>, Readtable>,
    name: &[u8],
    c: u8,
    entry: CharacterSlot,
) -> CharacterSlot
    requires character { c < 128 }
    requires there { IsTrue (finite.contains_key (readtables_of tables.old) name.now) }
    ensures after { let m = readtables_of tables.old in (t : Table)
        → finite.get m name.now ≡ Some t
        → readtables_of tables.new ≡ finite.insert m name.now (with_character_entry t c entry) }
    ensures before { (t : Table) → finite.get (readtables_of tables.old) name.now ≡ Some t
        → result ≡ entry_at t c }
{
    let Some(table) = tables.get_mut(name) else {
        unreachable!()
    };
    table.put_entry(c, entry)
}

/// Gives a character of a readtable the syntax that one has in another. After an error the readtables are as they were.
pub(crate) fn set_syntax(
    alloc: Global,
    tables: &mut BTreeMap<Vec<u8>, Readtable>,
    marks: &mut Vec<Vec<Note>>,
    to: &[u8],
    c: u8,
    from: &[u8],
    d: u8,
) -> Result<(), ReadtableError>
    requires to { c < 128 }
    requires from { d < 128 }
    ensures gives { AnswersReadtables (λ _. readtables_of tables.new) result
        (with_syntax (readtables_of tables.old) to.now c from.now d) }
    ensures unchanged { IfErr result (λ _. readtables_of tables.new ≡ readtables_of tables.old) }
    ensures marked { ContinuesTables (marks_of marks.old.items) (readtables_of tables.old)
        (marks_of marks.new.items) (readtables_of tables.new) }
{
    if table(tables, from).is_none() {
        return Err(ReadtableError::NoReadtable);
    }
    check_writable(tables, to)?;
    let entry = copy_entry(alloc, tables, from, d)?;
    let noted = reserve_named(alloc, marks, to)?;
    let before = put_entry(tables, to, c, entry);
    let change = TableChange::Character { c, entry: before };
    push_note(
        marks,
        Note::Changed {
            name: noted,
            change,
        },
    );
    Ok(())
}

// Takes a change of a readtable back.
fn revert(table: &mut Readtable, change: TableChange)
    requires { IsTableChange change }
    ensures { table.new ≡ table_before change table.old }
{
    match change {
        TableChange::Over(before) => *table = before,
        TableChange::Letters(letters) => table.set_case(letters),
        TableChange::Character { c, entry } => {
            let _ = table.put_entry(c, entry);
        }
    }
}

/// Takes a change of the readtable of this name back. Takes no memory.
pub(crate) fn take_back(tables: &mut BTreeMap<Vec<u8>, Readtable>, name: &[u8], change: TableChange)
    requires { IsTableChange change }
    ensures { readtables_of tables.new
        ≡ tables_before (readtables_of tables.old) name.now change }
{
    if let Some(table) = tables.get_mut(name) {
        revert(table, change);
    }
}

/// Takes the readtable of this name out. Takes no memory.
pub(crate) fn remove(tables: &mut BTreeMap<Vec<u8>, Readtable>, name: &[u8])
    ensures { readtables_of tables.new ≡ finite.remove (readtables_of tables.old) name.now }
{
    let _count = tables.len();
    tables.remove(name);
}
