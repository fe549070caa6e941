//! Readtables: the calls that read one, and those that change one.
ghost use Rattle.std.specs.Prelude.{◌≡◌, ◌≢◌, ◌<◌, ◌↔◌, length, Some, None, is_some, IfOk, IfErr, IfSome, OnOk, OnErr, IsTrue, IsFalse, is_ok};
ghost use Rattle.readtable_core.specs.Tables.{standard, entry_at, dispatch_at};
ghost use Rattle.readtable_core.specs.Characters.{is_digit};
ghost use Rattle.readtable_core.specs.Names.{is_among, is_dispatch_name};
ghost use Rattle.readtable_core.specs.Cases.{case_name, case_names};
ghost use Rattle.readtable_core.specs.NamedFunctions.{same_entry};
ghost use Rattle.readtable_core.specs.Sound.{IsReadtable, is_dispatching};
ghost use Rattle.readtable_core.specs.Changes.{put_if, with_character_entry, macro_entry, dispatching_entry, with_dispatch_function, dispatch_refusal};

use crate::entry::{dispatching_character, macro_character, standard_character};
use crate::{CharacterSlot, DispatchRefusal, FnName, Syntax};
use std::alloc::{AllocError, Global};
use std::marker::Model;
use std::mem;

// The names of the keywords for the cases.
const UPCASE: &[u8] = b"UPCASE";

const DOWNCASE: &[u8] = b"DOWNCASE";

const PRESERVE: &[u8] = b"PRESERVE";

const INVERT: &[u8] = b"INVERT";

/// What becomes of the letters of a token that were not escaped (standard 23.1.2).
#[derive(Clone, Copy, Debug, PartialEq, Eq)]
pub enum Case {
    Upcase,
    Downcase,
    Preserve,
    Invert,
}

impl Case {
    /// The name of the keyword for this case.
    pub fn name(self) -> &'static [u8]
        ensures { result.now ≡ case_name self }
    {
        match self {
            Case::Upcase => UPCASE,
            Case::Downcase => DOWNCASE,
            Case::Preserve => PRESERVE,
            Case::Invert => INVERT,
        }
    }

    /// The case whose keyword has this name, or `None` where there is none.
    pub fn from_name(name: &[u8]) -> Option<Case>
        ensures variant { is_some result ≡ is_among case_names name.now }
        ensures some { IfSome result (λ letters. case_name letters ≡ name.now) }
    {
        match name {
            UPCASE => Some(Case::Upcase),
            DOWNCASE => Some(Case::Downcase),
            PRESERVE => Some(Case::Preserve),
            INVERT => Some(Case::Invert),
            _ => None,
        }
    }
}

/// A readtable (standard 2.1.1). Contracts see it as a `Table`: a case, and the entries of the characters 0 to 127.
#[derive(Drop)]
pub struct Readtable {
    alloc: Global,
    letters: Case,
    entries: Vec<CharacterSlot>,
}

impl Model for Readtable {
    ghost use Rattle.readtable_core.specs.Tables.{Table};

    ghost Value = { Table };

    ghost use Rattle.readtable_core.specs.Views.{table_inside, IsTable};

    ghost view = { table_inside };

    ghost invariant = { IsTable };
}

impl Readtable {
    /// The standard readtable (standard 2.1.1.2), whose case is `Upcase`. It keeps `alloc` for later changes.
    pub fn standard(alloc: Global) -> Result<Readtable, AllocError>
        ensures { IfOk result (λ table. table ≡ standard) }
    {
        let mut entries = Vec::with_capacity(alloc, 128)?;
        for c in 0..128 {
            entries.push(standard_character(alloc, c)?)?;
        }
        Ok(Readtable {
            alloc,
            letters: Case::Upcase,
            entries,
        })
    }

    /// The same readtable, on its own memory (standard 23.2).
    pub fn copy(&self, alloc: Global) -> Result<Readtable, AllocError>
        ensures { IfOk result (λ table. table ≡ self.now) }
    {
        let mut entries = Vec::with_capacity(alloc, 128)?;
        for entry in &self.entries {
            entries.push(entry.copy(alloc)?)?;
        }
        Ok(Readtable {
            alloc,
            letters: self.letters,
            entries,
        })
    }

    /// What holds of every readtable: it has 128 entries; a function is exactly at macro characters; places for
    /// sub-characters are exactly at dispatching ones, none filled at a lower-case letter or a digit, none with
    /// STD-DISPATCH; names are names of functions. For proofs: it does nothing.
    pub fn soundness(&self)
        ensures { IsReadtable self.now }
    {
        let _ = &self.entries;
    }

    /// The syntax type of `c` (standard 2.1.4). A byte over 127 is invalid. Takes no memory.
    pub fn syntax(&self, c: u8) -> Syntax
        ensures { result ≡ (entry_at self.now c).syntax }
    {
        match self.entries.get(usize::from(c)) {
            Some(entry) => entry.syntax(),
            None => Syntax::Invalid,
        }
    }

    /// The function at `c`: each macro character has one, and no other character. At a dispatching macro character it is
    /// STD-DISPATCH. Takes no memory.
    pub fn macro_of(&self, c: u8) -> Option<FnName>
        ensures { result ≡ (entry_at self.now c).function }
    {
        match self.entries.get(usize::from(c)) {
            Some(entry) => entry.function(),
            None => None,
        }
    }

    /// Whether `c` is a dispatching macro character (standard 2.1.4.4). Takes no memory.
    pub fn is_dispatching(&self, c: u8) -> bool
        ensures { result ≡ is_dispatching (entry_at self.now c) }
    {
        match self.macro_of(c) {
            Some(name) => name.is_dispatch(),
            None => false,
        }
    }

    /// The function at the sub-character `sub` of the dispatching macro character `c`; `sub` is taken in upper case
    /// (standard 2.4.8). `None` where there is none. Takes no memory.
    pub fn dispatch_of(&self, c: u8, sub: u8) -> Option<FnName>
        ensures { result ≡ dispatch_at self.now c sub }
    {
        let entry = self.entries.get(usize::from(c))?;
        let function = entry.dispatch().get(usize::from(sub.to_ascii_uppercase()))?;
        *function
    }

    /// The entries of the characters 0 to 127, in order: all that the readtable names is in them. Takes no memory.
    pub fn entries(&self) -> &[CharacterSlot]
        ensures { result.now ≡ self.now.entries }
    {
        self.entries.as_slice()
    }

    /// A copy of the entry of `c`, which is below 128. Out of memory only where it has a dispatch table.
    pub fn entry(&self, alloc: Global, c: u8) -> Result<CharacterSlot, AllocError>
        requires { c < 128 }
        ensures value { IfOk result (λ entry. entry ≡ entry_at self.now c) }
        ensures memory { OnErr result (IsTrue (is_dispatching (entry_at self.now c))) }
    {
        self.entries[usize::from(c)].copy(alloc)
    }

    /// Puts `entry` in place of the entry of `c`, which is below 128, and answers the old one; that one put back gives the
    /// old readtable. Takes no memory.
    pub fn put_entry(&mut self, c: u8, entry: CharacterSlot) -> CharacterSlot
        requires { c < 128 }
        ensures old { result ≡ entry_at self.old c }
        ensures after { self.new ≡ with_character_entry self.old c entry }
        ensures back { with_character_entry self.new c result ≡ self.old }
    {
        entry.soundness();
        mem::replace(&mut self.entries[usize::from(c)], entry)
    }

    /// Whether `c` has the same entry in `other`: type, function and the whole dispatch table. Takes no memory.
    pub fn same_entry(&self, other: &Readtable, c: u8) -> bool
        ensures value { result ≡ same_entry (entry_at self.now c) (entry_at other.now c) }
        ensures equal { IsTrue result ↔ (entry_at self.now c ≡ entry_at other.now c) }
    {
        match self.entries.get(usize::from(c)) {
            Some(entry) => match other.entries.get(usize::from(c)) {
                Some(there) => entry.is_same(there),
                None => false,
            },
            None => true,
        }
    }

    /// What becomes of the letters of a token. Takes no memory.
    pub fn case(&self) -> Case
        ensures { result ≡ self.now.letters }
    {
        self.letters
    }

    /// Sets what becomes of the letters of a token. Takes no memory.
    pub fn set_case(&mut self, letters: Case)
        ensures { self.new ≡ record self.old { letters = letters } }
    {
        self.letters = letters;
    }

    /// Gives `to` the syntax type, the function and the whole dispatch table that `from` has in `from_table` (standard
    /// 23.2, SET-SYNTAX-FROM-CHAR). The traits of `to` stay. Both are below 128. Out of memory only where there is a
    /// dispatch table to copy, and then nothing has changed.
    pub fn set_syntax_from_char(
        &mut self,
        to: u8,
        from: u8,
        from_table: &Readtable,
    ) -> Result<(), AllocError>
        requires to { to < 128 }
        requires from { from < 128 }
        ensures after { self.new ≡ put_if (is_ok result) self.old to (entry_at from_table.now from) }
        ensures memory { OnErr result (IsTrue (is_dispatching (entry_at from_table.now from))) }
    {
        let entry = from_table.entry(self.alloc, from)?;
        let _ = self.put_entry(to, entry);
        Ok(())
    }

    /// Gives `to` the syntax type, the function and the whole dispatch table that `from` has in this readtable itself
    /// (standard 23.2, SET-SYNTAX-FROM-CHAR). The traits of `to` stay. Both are below 128. Out of memory only where there is
    /// a dispatch table to copy to another character, and then nothing has changed.
    pub fn copy_syntax(&mut self, to: u8, from: u8) -> Result<(), AllocError>
        requires to { to < 128 }
        requires from { from < 128 }
        ensures after { self.new ≡ put_if (is_ok result) self.old to (entry_at self.old from) }
        ensures memory { OnErr result (IsTrue (is_dispatching (entry_at self.old from)) × (to ≢ from)) }
    {
        if to == from {
            return Ok(());
        }
        let entry = self.entry(self.alloc, from)?;
        let _ = self.put_entry(to, entry);
        Ok(())
    }

    /// Makes `c` a macro character with the function `name` and no dispatch table (standard 23.2, SET-MACRO-CHARACTER).
    /// `c` is below 128, and `name` is not STD-DISPATCH. Takes no memory.
    pub fn set_macro(&mut self, c: u8, name: FnName, non_terminating: bool)
        requires character { c < 128 }
        requires name { IsFalse (is_dispatch_name name) }
        ensures { self.new ≡ with_character_entry self.old c (macro_entry name non_terminating) }
    {
        let _ = self.put_entry(c, macro_character(self.alloc, name, non_terminating));
    }

    /// Makes `c` a dispatching macro character with an empty dispatch table (standard 23.2,
    /// MAKE-DISPATCH-MACRO-CHARACTER). `c` is below 128. After out of memory nothing has changed.
    pub fn make_dispatch(&mut self, c: u8, non_terminating: bool) -> Result<(), AllocError>
        requires { c < 128 }
        ensures { self.new ≡ put_if (is_ok result) self.old c (dispatching_entry non_terminating) }
    {
        let entry = dispatching_character(self.alloc, non_terminating)?;
        let _ = self.put_entry(c, entry);
        Ok(())
    }

    /// Gives the sub-character `sub` of the dispatching macro character `c` the function `name` (standard 23.2,
    /// SET-DISPATCH-MACRO-CHARACTER); `sub` is taken in upper case. Refused where `c` is not dispatching, then where `sub`
    /// is a digit; then nothing has changed. Both are below 128, and `name` is not STD-DISPATCH. Takes no memory.
    pub fn set_dispatch(&mut self, c: u8, sub: u8, name: FnName) -> Result<(), DispatchRefusal>
        requires character { c < 128 }
        requires sub_character { sub < 128 }
        requires name { IsFalse (is_dispatch_name name) }
        ensures accepted { OnOk result (dispatch_refusal self.old c sub ≡ None) }
        ensures refused { IfErr result (λ refusal. dispatch_refusal self.old c sub ≡ Some refusal) }
        ensures after { self.new
            ≡ put_if (is_ok result) self.old c (with_dispatch_function (entry_at self.old c) sub name) }
    {
        if !self.is_dispatching(c) {
            return Err(DispatchRefusal::NotDispatching);
        }
        if sub.is_ascii_digit() {
            return Err(DispatchRefusal::DigitSubcharacter);
        }
        self.put_function(c, sub, name);
        Ok(())
    }

    fn put_function(&mut self, c: u8, sub: u8, name: FnName)
        requires character { c < 128 }
        requires sub_character { sub < 128 }
        requires digit { IsFalse (is_digit sub) }
        requires name { IsFalse (is_dispatch_name name) }
        requires dispatching { IsTrue (is_dispatching (entry_at self.old c)) }
        ensures { self.new
            ≡ with_character_entry self.old c (with_dispatch_function (entry_at self.old c) sub name) }
    {
        let entry = &mut self.entries[usize::from(c)];
        entry.set_function(sub, name);
        entry.soundness();
    }
}
