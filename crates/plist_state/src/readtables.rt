//! The calls that change readtables, and the current one. Each names its readtable.
ghost use Rattle.std.specs.Prelude.{◌≡◌, ◌<◌, IfErr, IsFalse};
ghost use Rattle.readtable_core.specs.Names.{is_dispatch_name};
ghost use Rattle.package_table.specs.Table.{keyword};
ghost use Rattle.plist_state.specs.Changes.{with_case, with_macro, with_dispatching, with_dispatch, with_syntax, with_copy, state_with_readtables, after_in_readtable, AnswersReadtables};
ghost use Rattle.plist_state.specs.Sound.{IsSymbol};

use crate::copies::copy;
use crate::journal::{push_note, reserve_named};
use crate::note::Note;
use crate::{ReadtableError, World, tables};
use readtable_core::{Case, FnName};
use std::mem;

impl World {
    /// Makes a readtable current.
    ///
    /// # Errors
    /// `NoReadtable` where there is none of that name; `OutOfMemory` where memory runs out. Nothing has changed then.
    pub fn set_current_readtable(&mut self, name: &[u8]) -> Result<(), ReadtableError>
        ensures gives { AnswersReadtables (λ _. self.new.0) result (after_in_readtable self.old.0 name.now) }
        ensures marked { self.new.1 ≡ self.old.1 }
        ensures unchanged { IfErr result (λ _. self.new ≡ self.old) }
    {
        if self.readtable(name).is_none() {
            return Err(ReadtableError::NoReadtable);
        }
        let name = reserve_named(self.alloc, &mut self.marks, name)?;
        let before = mem::replace(&mut self.stored.current_readtable, name);
        push_note(&mut self.marks, Note::InReadtable(before));
        Ok(())
    }

    /// Sets the case of a readtable (standard 23.2, `readtable-case`).
    ///
    /// # Errors
    /// `NoReadtable` where there is none of that name; `StandardReadtable` for the standard one; `OutOfMemory` where
    /// memory runs out. Nothing has changed then.
    pub fn set_case(&mut self, name: &[u8], letters: Case) -> Result<(), ReadtableError>
        ensures gives { AnswersReadtables (λ _. self.new.0) result
            (state_with_readtables self.old.0 (with_case self.old.0.readtables name.now letters)) }
        ensures marked { self.new.1 ≡ self.old.1 }
        ensures unchanged { IfErr result (λ _. self.new ≡ self.old) }
    {
        tables::set_case(
            self.alloc,
            &mut self.stored.readtables,
            &mut self.marks,
            name,
            letters,
        )
    }

    /// Makes `c` a macro character of a readtable (standard 23.2, `set-macro-character`), as `Readtable::set_macro` does.
    /// `c` is below 128, and the function is named by a keyword and is not STD-DISPATCH.
    ///
    /// # Errors
    /// `NoReadtable` where there is no readtable of that name; `StandardReadtable` for the standard one; `OutOfMemory`
    /// where memory runs out. Nothing has changed then.
    pub fn set_macro(
        &mut self,
        name: &[u8],
        c: u8,
        function: FnName,
        non_terminating: bool,
    ) -> Result<(), ReadtableError>
        requires character { c < 128 }
        requires other { IsFalse (is_dispatch_name function) }
        requires keyword { IsSymbol self.old.0.packages (keyword, function) }
        ensures gives { AnswersReadtables (λ _. self.new.0) result
            (state_with_readtables self.old.0 (with_macro self.old.0.readtables name.now c function non_terminating)) }
        ensures marked { self.new.1 ≡ self.old.1 }
        ensures unchanged { IfErr result (λ _. self.new ≡ self.old) }
    {
        let _ = function.as_bytes();
        tables::set_macro(
            self.alloc,
            &mut self.stored.readtables,
            &mut self.marks,
            name,
            c,
            function,
            non_terminating,
        )
    }

    /// Makes `c` a dispatching macro character of a readtable (standard 23.2, `make-dispatch-macro-character`), as
    /// `Readtable::make_dispatch` does. `c` is below 128.
    ///
    /// # Errors
    /// `NoReadtable` where there is no readtable of that name; `StandardReadtable` for the standard one; `OutOfMemory`
    /// where memory runs out. Nothing has changed then.
    pub fn make_dispatch(
        &mut self,
        name: &[u8],
        c: u8,
        non_terminating: bool,
    ) -> Result<(), ReadtableError>
        requires { c < 128 }
        ensures gives { AnswersReadtables (λ _. self.new.0) result
            (state_with_readtables self.old.0 (with_dispatching self.old.0.readtables name.now c non_terminating)) }
        ensures marked { self.new.1 ≡ self.old.1 }
        ensures unchanged { IfErr result (λ _. self.new ≡ self.old) }
    {
        tables::make_dispatch(
            self.alloc,
            &mut self.stored.readtables,
            &mut self.marks,
            name,
            c,
            non_terminating,
        )
    }

    /// Sets the function of the sub-character `sub`, which is taken in upper case, of the dispatching macro character `c`
    /// (standard 23.2, `set-dispatch-macro-character`), as `Readtable::set_dispatch` does. Both are below 128, and the
    /// function is named by a keyword and is not STD-DISPATCH.
    ///
    /// # Errors
    /// `NoReadtable` where there is no readtable of that name; `StandardReadtable` for the standard one; `NotDispatching`
    /// where `c` is not dispatching; `DigitSubcharacter` where `sub` is a digit; `OutOfMemory` where memory runs out.
    /// Nothing has changed then.
    pub fn set_dispatch(
        &mut self,
        name: &[u8],
        c: u8,
        sub: u8,
        function: FnName,
    ) -> Result<(), ReadtableError>
        requires character { c < 128 }
        requires sub_character { sub < 128 }
        requires other { IsFalse (is_dispatch_name function) }
        requires keyword { IsSymbol self.old.0.packages (keyword, function) }
        ensures gives { AnswersReadtables (λ _. self.new.0) result
            (state_with_readtables self.old.0 (with_dispatch self.old.0.readtables name.now c sub function)) }
        ensures marked { self.new.1 ≡ self.old.1 }
        ensures unchanged { IfErr result (λ _. self.new ≡ self.old) }
    {
        let _ = function.as_bytes();
        tables::set_dispatch(
            self.alloc,
            &mut self.stored.readtables,
            &mut self.marks,
            name,
            c,
            sub,
            function,
        )
    }

    /// Gives the character `c` of the readtable `to` the syntax type, the function and the dispatch table that `d` has in the
    /// readtable `from` (standard 23.2, `set-syntax-from-char`). Both are below 128.
    ///
    /// # Errors
    /// `NoReadtable` where there is no readtable of one of the two names; `StandardReadtable` where `to` is the standard one;
    /// `OutOfMemory` where memory runs out. Nothing has changed then.
    pub fn set_syntax_from_char(
        &mut self,
        to: &[u8],
        c: u8,
        from: &[u8],
        d: u8,
    ) -> Result<(), ReadtableError>
        requires to { c < 128 }
        requires from { d < 128 }
        ensures gives { AnswersReadtables (λ _. self.new.0) result
            (state_with_readtables self.old.0 (with_syntax self.old.0.readtables to.now c from.now d)) }
        ensures marked { self.new.1 ≡ self.old.1 }
        ensures unchanged { IfErr result (λ _. self.new ≡ self.old) }
    {
        tables::set_syntax(
            self.alloc,
            &mut self.stored.readtables,
            &mut self.marks,
            to,
            c,
            from,
            d,
        )
    }

    /// Makes the readtable `to`, which is named by a keyword, a copy of the readtable `from`, new or written over (standard
    /// 23.2, `copy-readtable`).
    ///
    /// # Errors
    /// `NoReadtable` where there is no readtable `from`; `StandardReadtable` where `to` is the standard one; `Limit` where
    /// `to` is new and there are 64; `OutOfMemory` where memory runs out. Nothing has changed then.
    pub fn copy_readtable(&mut self, from: &[u8], to: &[u8]) -> Result<(), ReadtableError>
        requires { IsSymbol self.old.0.packages (keyword, to.now) }
        ensures gives { AnswersReadtables (λ _. self.new.0) result
            (state_with_readtables self.old.0 (with_copy self.old.0.readtables from.now to.now)) }
        ensures marked { self.new.1 ≡ self.old.1 }
        ensures unchanged { IfErr result (λ _. self.new ≡ self.old) }
    {
        copy(
            self.alloc,
            &mut self.stored.readtables,
            &mut self.marks,
            from,
            to,
        )
    }
}
