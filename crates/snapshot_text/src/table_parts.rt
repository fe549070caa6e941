//! The readtables of a world, made from the third object of a snapshot.
//! After an error the world may have a part of it: it is new, and is let go then.
ghost use Rattle.std.specs.Prelude.{◌≡◌, ◌<◌, ◌≤◌, ℕ, List, [], ◌∷◌, Some, true, unwrap_or, IsTrue, IsFalse};
ghost use Rattle.lisp_object.specs.Object.{text, list_of};
ghost use Rattle.lisp_object.specs.Datum.{object_of, is_proper};
ghost use Rattle.readtable_core.specs.declared.table.Case.{Case};
ghost use Rattle.readtable_core.specs.Cases.{case_name};
ghost use Rattle.readtable_core.specs.Names.{is_function_name, is_dispatch_name};
ghost use Rattle.readtable_core.specs.Tables as readtable;
ghost use Rattle.readtable_core.specs.Tables.{CharacterEntry, entry_at};
ghost use Rattle.readtable_core.specs.Sound.{is_dispatching};
ghost use Rattle.readtable_core.specs.Changes.{macro_syntax, with_character_entry, with_dispatch_function};
ghost use Rattle.package_table.specs.Table.{Name, keyword};
ghost use Rattle.plist_state.specs.State.{WorldState, first_base};
ghost use Rattle.plist_state.specs.Changes.{with_base};
ghost use Rattle.plist_state.specs.Sound.{IsSymbol, HasKeywordFunctions, IsSoundWorldState as IsSoundState};
ghost use Rattle.world_text.specs.Snapshot.{number, dispatch_objects, entry_object, entry_objects, readtable_object, readtables_object, tables_object, tables_object_1, tables_object_in};
ghost use Rattle.snapshot_text.specs.BuiltWorlds.{with_table, built_with_properties, built_with_readtables, CanBeMade, IsWritable, IsSubFunction, IsNamedEntry};
ghost use Rattle.snapshot_lines.specs.PartAnswers.{OrNoMemory, SucceedsWith};

use crate::parts::{character_in, items_in, text_in};
use lisp_object::Datum;
use package_table::standardized::KEYWORD;
use plist_state::{STANDARD, World};
use readtable_core::{Case, FnName, Syntax};
use snapshot_lines::BuildError;

// A function that may be set: it is named by a keyword, and is not STD-DISPATCH.
fn may_be_set(world: &World, function: FnName) -> bool
    ensures other { IsTrue result → IsFalse (is_dispatch_name function) }
    ensures keyword { IsTrue result → IsSymbol world.now.0.packages (keyword, function) }
    ensures all { IsFalse (is_dispatch_name function)
        → IsSymbol world.now.0.packages (keyword, function) → IsTrue result }
{
    !function.is_dispatch() && world.packages().is_symbol(KEYWORD, function.as_bytes())
}

// The name of a function.
fn function_in(datum: &Datum) -> Result<FnName, BuildError>
    ensures { is_proper datum.now ≡ true → (f : List ℕ) → object_of datum.now ≡ text f
        → IsTrue (is_function_name f) → SucceedsWith result (λ function. function ≡ f) }
{
    FnName::new(text_in(datum)?.as_slice()).ok_or(BuildError::Damaged)
}

// Sets the function of a sub-character, which are given as a pair.
fn put_sub_character(world: &mut World, table: &[u8], c: u8, pair: &Datum) -> Result<(), BuildError>
    requires { c < 128 }
    ensures { is_proper pair.now ≡ true → (t : readtable.Table) (sub : ℕ) (f : List ℕ)
        → object_of pair.now ≡ list_of (number sub ∷ text f ∷ [])
        → IsSubFunction world.old.0.packages sub f → IsWritable world.old.0.readtables table.now t
        → is_dispatching (entry_at t c) ≡ true
        → OrNoMemory (world.new.0 ≡ with_table world.old.0 table.now
        (with_character_entry t c (with_dispatch_function (entry_at t c) sub f))) result }
{
    let [sub, function] = items_in(pair)? else {
        return Err(BuildError::Damaged);
    };
    let sub = character_in(sub)?;
    let function = function_in(function)?;
    if !may_be_set(world, function) {
        return Err(BuildError::Damaged);
    }
    world.set_dispatch(table, c, sub, function)?;
    Ok(())
}

// Makes `c` a macro character with this function, which dispatches to these where it is STD-DISPATCH.
fn put_macro(
    world: &mut World,
    table: &[u8],
    c: u8,
    function: &Datum,
    non_terminating: bool,
    dispatch: &Datum,
) -> Result<(), BuildError>
    requires { c < 128 }
    ensures { is_proper function.now ≡ true → is_proper dispatch.now ≡ true
        → (t : readtable.Table) (e : CharacterEntry)
        → object_of function.now ≡ text (unwrap_or e.function [])
        → object_of dispatch.now ≡ list_of (dispatch_objects e)
        → e.syntax ≡ macro_syntax non_terminating → IsNamedEntry world.old.0.packages e
        → IsWritable world.old.0.readtables table.now t
        → OrNoMemory (world.new.0 ≡ with_table world.old.0 table.now (with_character_entry t c e)) result }
{
    let function = function_in(function)?;
    if !function.is_dispatch() {
        if !may_be_set(world, function) {
            return Err(BuildError::Damaged);
        }
        world.set_macro(table, c, function, non_terminating)?;
        return Ok(());
    }
    world.make_dispatch(table, c, non_terminating)?;
    for pair in items_in(dispatch)? {
        put_sub_character(world, table, c, pair)?;
    }
    Ok(())
}

// Gives `c` the entry that a character has in the standard readtable.
fn put_standard(world: &mut World, table: &[u8], c: u8, from: u8) -> Result<(), BuildError>
    requires c { c < 128 }
    requires from { from < 128 }
    ensures { (t : readtable.Table) → IsWritable world.old.0.readtables table.now t
        → OrNoMemory (world.new.0 ≡ with_table world.old.0 table.now
        (with_character_entry t c (entry_at readtable.standard from))) result }
{
    world.set_syntax_from_char(table, c, STANDARD, from)?;
    Ok(())
}

// Sets the entry of a character: its syntax type and, at a macro character, its function and its dispatch table.
fn put_typed(
    world: &mut World,
    table: &[u8],
    c: u8,
    syntax: Syntax,
    function: &Datum,
    dispatch: &Datum,
) -> Result<(), BuildError>
    requires { c < 128 }
    ensures { is_proper function.now ≡ true → is_proper dispatch.now ≡ true
        → (t : readtable.Table) (e : CharacterEntry)
        → object_of function.now ≡ text (unwrap_or e.function [])
        → object_of dispatch.now ≡ list_of (dispatch_objects e) → e.syntax ≡ syntax
        → IsNamedEntry world.old.0.packages e → IsWritable world.old.0.readtables table.now t
        → OrNoMemory (world.new.0 ≡ with_table world.old.0 table.now (with_character_entry t c e)) result }
{
    match syntax {
        Syntax::Whitespace => put_standard(world, table, c, b' '),
        Syntax::Constituent => put_standard(world, table, c, b'A'),
        Syntax::TerminatingMacro => put_macro(world, table, c, function, false, dispatch),
        Syntax::NonTerminatingMacro => put_macro(world, table, c, function, true, dispatch),
        Syntax::SingleEscape => put_standard(world, table, c, b'\\'),
        Syntax::MultipleEscape => put_standard(world, table, c, b'|'),
        Syntax::Invalid => put_standard(world, table, c, 0),
    }
}

// Sets the entry of a character: its code, its syntax type, its function and its dispatch table.
fn put_entry(world: &mut World, table: &[u8], entry: &Datum) -> Result<(), BuildError>
    ensures { is_proper entry.now ≡ true → (t : readtable.Table) (c : ℕ) (e : CharacterEntry)
        → object_of entry.now ≡ entry_object c e → c < 128 → IsNamedEntry world.old.0.packages e
        → IsWritable world.old.0.readtables table.now t
        → OrNoMemory (world.new.0 ≡ with_table world.old.0 table.now (with_character_entry t c e)) result }
{
    let [c, syntax, function, dispatch] = items_in(entry)? else {
        return Err(BuildError::Damaged);
    };
    let c = character_in(c)?;
    let Some(syntax) = Syntax::from_number(character_in(syntax)?) else {
        return Err(BuildError::Damaged);
    };
    put_typed(world, table, c, syntax, function, dispatch)
}

// Makes a readtable of this case, with the entries of the standard one.
fn make_readtable(world: &mut World, name: &[u8], letters: &Datum) -> Result<(), BuildError>
    ensures { is_proper letters.now ≡ true → (k : Case) → object_of letters.now ≡ text (case_name k)
        → IsSymbol world.old.0.packages (keyword, name.now)
        → CanBeMade world.old.0.readtables name.now
        → OrNoMemory (world.new.0 ≡ with_table world.old.0 name.now
        (record readtable.standard { letters = k })) result }
{
    let Some(letters) = Case::from_name(text_in(letters)?.as_slice()) else {
        return Err(BuildError::Damaged);
    };
    if !world.packages().is_symbol(KEYWORD, name) {
        return Err(BuildError::Damaged);
    }
    world.copy_readtable(STANDARD, name)?;
    world.set_case(name, letters)?;
    Ok(())
}

// Sets the entries that are not as in the standard readtable.
fn put_entries(world: &mut World, name: &[u8], entries: &Datum) -> Result<(), BuildError>
    ensures { is_proper entries.now ≡ true → (t : readtable.Table)
        → object_of entries.now ≡ list_of (entry_objects t) → HasKeywordFunctions world.old.0.packages t
        → IsWritable world.old.0.readtables name.now
        (record readtable.standard { letters = t.letters })
        → OrNoMemory (world.new.0 ≡ with_table world.old.0 name.now t) result }
{
    for entry in items_in(entries)? {
        put_entry(world, name, entry)?;
    }
    Ok(())
}

// Makes a readtable: its name, its case, and the entries that are not as in the standard one.
fn put_readtable(world: &mut World, row: &Datum) -> Result<(), BuildError>
    ensures { is_proper row.now ≡ true → (name : Name) (t : readtable.Table)
        → object_of row.now ≡ readtable_object name t → HasKeywordFunctions world.old.0.packages t
        → IsSymbol world.old.0.packages (keyword, name) → CanBeMade world.old.0.readtables name
        → OrNoMemory (world.new.0 ≡ with_table world.old.0 name t) result }
{
    let [name, letters, entries] = items_in(row)? else {
        return Err(BuildError::Damaged);
    };
    let name = text_in(name)?.as_slice();
    make_readtable(world, name, letters)?;
    put_entries(world, name, entries)
}

// Makes the readtables of the third object of a snapshot.
fn put_readtables(world: &mut World, readtables: &Datum) -> Result<(), BuildError>
    ensures { (s : WorldState) → IsSoundState s → is_proper readtables.now ≡ true
        → object_of readtables.now ≡ readtables_object s → world.old.0 ≡ built_with_properties s
        → OrNoMemory (world.new.0 ≡ built_with_readtables s) result }
{
    for row in items_in(readtables)? {
        put_readtable(world, row)?;
    }
    Ok(())
}

// Sets what is current, in a world that has its packages and readtables. It reads in base 10.
fn put_current(world: &mut World, home: &Datum, table: &Datum) -> Result<(), BuildError>
    ensures { (s : WorldState) → IsSoundState s → is_proper home.now ≡ true
        → object_of home.now ≡ text s.current_package → is_proper table.now ≡ true
        → object_of table.now ≡ text s.current_readtable → world.old.0 ≡ built_with_readtables s
        → OrNoMemory (world.new.0 ≡ with_base s first_base) result }
{
    world.set_current_package(text_in(home)?.as_slice())?;
    world.set_current_readtable(text_in(table)?.as_slice())?;
    Ok(())
}

// Sets the base in which numbers are read.
fn put_base(world: &mut World, base: &Datum) -> Result<(), BuildError>
    ensures { is_proper base.now ≡ true → (n : ℕ) → object_of base.now ≡ number n → 2 ≤ n → n ≤ 36
        → OrNoMemory (world.new.0 ≡ with_base world.old.0 n) result }
{
    let base = character_in(base)?;
    if base < 2 || base > 36 {
        return Err(BuildError::Damaged);
    }
    world.set_read_base(base)?;
    Ok(())
}

// Makes the readtables of the third object of version 1, and what is current.
fn put_tables_1(world: &mut World, tables: &Datum) -> Result<(), BuildError>
    ensures { (s : WorldState) → IsSoundState s → is_proper tables.now ≡ true
        → object_of tables.now ≡ tables_object_1 s → s.read_base ≡ first_base
        → world.old.0 ≡ built_with_properties s → OrNoMemory (world.new.0 ≡ s) result }
{
    let [package, readtable, readtables] = items_in(tables)? else {
        return Err(BuildError::Damaged);
    };
    put_readtables(world, readtables)?;
    put_current(world, package, readtable)?;
    Ok(())
}

// The same of versions 2 and 3, which have the base too.
fn put_tables_2(world: &mut World, tables: &Datum) -> Result<(), BuildError>
    ensures { (s : WorldState) → IsSoundState s → is_proper tables.now ≡ true
        → object_of tables.now ≡ tables_object s → world.old.0 ≡ built_with_properties s
        → OrNoMemory (world.new.0 ≡ s) result }
{
    let [package, readtable, base, readtables] = items_in(tables)? else {
        return Err(BuildError::Damaged);
    };
    put_readtables(world, readtables)?;
    put_current(world, package, readtable)?;
    put_base(world, base)?;
    Ok(())
}

/// Makes the readtables of the third object of a snapshot of this version, what is current, and the base of numbers, in
/// a world that has its packages. After an error a part of them may be made: who calls it throws the world away.
pub(crate) fn put_tables(world: &mut World, version: u16, tables: &Datum) -> Result<(), BuildError>
    ensures { (s : WorldState) → IsSoundState s → is_proper tables.now ≡ true
        → tables_object_in version s ≡ Some (object_of tables.now)
        → world.old.0 ≡ built_with_properties s → OrNoMemory (world.new.0 ≡ s) result }
{
    if version == 1 {
        put_tables_1(world, tables)
    } else {
        put_tables_2(world, tables)
    }
}
