//! What is at one character of a readtable.
ghost use Rattle.std.specs.Prelude.{◌≡◌, ◌<◌, length, replicate, map, None, IfOk, OnErr, IsTrue, IsFalse};
ghost use Rattle.std.specs.List.{range_with_len};
ghost use Rattle.readtable_core.specs.Characters.{upper_case, is_digit};
ghost use Rattle.readtable_core.specs.Names.{is_dispatch_name};
ghost use Rattle.readtable_core.specs.Tables.{standard_entry, standard_function, standard_sub_function};
ghost use Rattle.readtable_core.specs.Sound.{IsCharacterEntry, is_dispatching};
ghost use Rattle.readtable_core.specs.Changes.{with_dispatch_function, macro_entry, dispatching_entry, macro_syntax};
ghost use Rattle.readtable_core.specs.NamedFunctions.{same_entry};

use crate::characters::standard_syntax_of;
use crate::names::named;
use crate::standard_names::STD_DISPATCH;
use crate::standard_table::{standard_dispatch, standard_function_of};
use crate::{FnName, Syntax};
use std::alloc::{AllocError, Global};
use std::marker::Model;

/// The entry of one character in a readtable: its syntax type, its function where it is a macro character, and its
/// dispatch table where it is a dispatching one. Contracts see it as a `CharacterEntry`.
#[derive(Drop)]
pub struct CharacterSlot {
    syntax: Syntax,
    function: Option<FnName>,
    // a place for each sub-character from 0 to 127 where the character is dispatching, and none elsewhere
    dispatch: Vec<Option<FnName>>,
}

impl Model for CharacterSlot {
    ghost use Rattle.readtable_core.specs.Tables.{CharacterEntry};

    ghost Value = { CharacterEntry };

    ghost use Rattle.readtable_core.specs.Entries.{character_entry, IsKeptEntry};

    ghost view = { character_entry };

    ghost invariant = { IsKeptEntry };
}

impl CharacterSlot {
    /// The syntax type (standard 2.1.4). Takes no memory.
    pub fn syntax(&self) -> Syntax
        ensures { result ≡ self.now.syntax }
    {
        self.syntax
    }

    /// The function of a macro character, and `None` at each other one. Takes no memory.
    pub fn function(&self) -> Option<FnName>
        ensures { result ≡ self.now.function }
    {
        self.function
    }

    /// The functions of the sub-characters 0 to 127 of a dispatching macro character, and nothing at each other one. Takes
    /// no memory.
    pub fn dispatch(&self) -> &[Option<FnName>]
        ensures { result.now ≡ self.now.dispatch }
    {
        self.dispatch.as_slice()
    }

    /// What holds of every entry. For proofs: it does nothing.
    pub fn soundness(&self)
        ensures { IsCharacterEntry self.now }
    {
        let _ = &self.dispatch;
    }

    // The same entry, dispatch table and all.
    pub(crate) fn copy(&self, alloc: Global) -> Result<CharacterSlot, AllocError>
        ensures value { IfOk result (λ entry. entry ≡ self.now) }
        ensures memory { OnErr result (IsTrue (is_dispatching self.now)) }
    {
        let dispatch = if self.dispatch.is_empty() {
            Vec::new(alloc)
        } else {
            self.dispatch.iter().copied().collect(alloc)?
        };
        Ok(CharacterSlot {
            syntax: self.syntax,
            function: self.function,
            dispatch,
        })
    }

    // Whether the other entry is the same.
    pub(crate) fn is_same(&self, other: &CharacterSlot) -> bool
        ensures { result ≡ same_entry self.now other.now }
    {
        self.syntax.number() == other.syntax.number()
            && self.function == other.function
            && self.dispatch() == other.dispatch()
    }

    // Puts `name` at the sub-character `sub`, which is taken in upper case.
    pub(crate) fn set_function(&mut self, sub: u8, name: FnName)
        requires sub_character { sub < 128 }
        requires digit { IsFalse (is_digit sub) }
        requires name { IsFalse (is_dispatch_name name) }
        requires dispatching { IsTrue (is_dispatching self.old) }
        ensures { self.new ≡ with_dispatch_function self.old sub name }
    {
        let _ = name.as_bytes();
        self.dispatch[usize::from(sub.to_ascii_uppercase())] = Some(name);
    }
}

/// A macro character with a function and no dispatch table.
pub(crate) fn macro_character(alloc: Global, name: FnName, non_terminating: bool) -> CharacterSlot
    requires { IsFalse (is_dispatch_name name) }
    ensures { result ≡ macro_entry name non_terminating }
{
    let _ = name.as_bytes();
    CharacterSlot {
        syntax: macro_syntax_of(non_terminating),
        function: Some(name),
        dispatch: Vec::new(alloc),
    }
}

/// A dispatching macro character with no function at any sub-character.
pub(crate) fn dispatching_character(
    alloc: Global,
    non_terminating: bool,
) -> Result<CharacterSlot, AllocError>
    ensures { IfOk result (λ entry. entry ≡ dispatching_entry non_terminating) }
{
    let dispatch = empty_dispatch(alloc)?;
    Ok(CharacterSlot {
        syntax: macro_syntax_of(non_terminating),
        function: Some(named(STD_DISPATCH)),
        dispatch,
    })
}

/// The entry of `c` in the standard readtable.
pub(crate) fn standard_character(alloc: Global, c: u8) -> Result<CharacterSlot, AllocError>
    ensures { IfOk result (λ entry. entry ≡ standard_entry c) }
{
    let dispatch = if c == b'#' {
        standard_dispatch(alloc)?
    } else {
        Vec::new(alloc)
    };
    Ok(CharacterSlot {
        syntax: standard_syntax_of(c),
        function: standard_function_of(c),
        dispatch,
    })
}

fn empty_dispatch(alloc: Global) -> Result<Vec<Option<FnName>>, AllocError>
    ensures { IfOk result (λ dispatch. dispatch.items ≡ replicate 128 None) }
{
    let mut dispatch = Vec::with_capacity(alloc, 128)?;
    for _sub in 0..128u8 {
        dispatch.push(None)?;
    }
    Ok(dispatch)
}

fn macro_syntax_of(non_terminating: bool) -> Syntax
    ensures { result ≡ macro_syntax non_terminating }
{
    if non_terminating {
        Syntax::NonTerminatingMacro
    } else {
        Syntax::TerminatingMacro
    }
}
