//! The calls that change properties.
ghost use Rattle.std.specs.Prelude.{◌≡◌, true, Some, is_some, option_map, IfOk, IfSome, OnOk, OnErr};
ghost use Rattle.lisp_object.specs.Datum.{object_of, is_proper};
ghost use Rattle.plist_state.specs.Changes.{property, with_property, without_property};
ghost use Rattle.plist_state.specs.PushedLists.{holds_pair, pair_size, pushed_list, with_pushed};
ghost use Rattle.plist_state.specs.PoppedLists.{first_item, with_popped};
ghost use Rattle.plist_state.specs.Views.{symbol_of, symbol_named};
ghost use Rattle.plist_state.specs.Sound.{IsSymbol, IsValue};

use crate::first_items::first_of;
use crate::numbers::number;
use crate::{BorrowedSymbol, Symbol, World, sizes, stored};
use lisp_object::Datum;
use std::alloc::AllocError;

impl World {
    /// Sets the value beside an indicator of a symbol, in its place or, where the indicator is new, last (standard 10.2,
    /// `get`). Both symbols are there, and the value is proper, of depth at most 100, and has only symbols that are there.
    /// After out of memory nothing has changed.
    pub fn put(
        &mut self,
        symbol: &Symbol,
        indicator: Symbol,
        value: Datum,
    ) -> Result<(), AllocError>
        requires symbol { IsSymbol self.old.0.packages (symbol_of symbol.now) }
        requires indicator { IsSymbol self.old.0.packages (symbol_of indicator) }
        requires proper { is_proper value ≡ true }
        requires value { IsValue self.old.0.packages (object_of value) }
        ensures ok { OnOk result (self.new
            ≡ (with_property self.old.0 (symbol_of symbol.now) (symbol_of indicator) (object_of value), self.old.1)) }
        ensures err { OnErr result (self.new ≡ self.old) }
    {
        self.put_at(symbol.borrowed(), indicator.borrowed(), value)
    }

    /// The same of symbols by borrow: no name is copied.
    pub fn put_at(
        &mut self,
        symbol: BorrowedSymbol<'_>,
        indicator: BorrowedSymbol<'_>,
        value: Datum,
    ) -> Result<(), AllocError>
        requires symbol { IsSymbol self.old.0.packages (symbol_named symbol) }
        requires indicator { IsSymbol self.old.0.packages (symbol_named indicator) }
        requires proper { is_proper value ≡ true }
        requires value { IsValue self.old.0.packages (object_of value) }
        ensures ok { OnOk result (self.new
            ≡ (with_property self.old.0 (symbol_named symbol.entry) (symbol_named indicator.entry) (object_of value), self.old.1)) }
        ensures err { OnErr result (self.new ≡ self.old) }
    {
        self.packages.numbering();
        let owner = number(&self.packages, symbol);
        let indicator = number(&self.packages, indicator);
        sizes::forget(&mut self.sizes, owner, indicator);
        stored::put(
            self.alloc,
            &mut self.stored,
            &mut self.marks,
            owner,
            indicator,
            value,
        )
    }

    /// Puts a value before the one beside an indicator of a symbol, which is a list with an item (standard 14.2, `push`). The
    /// list is not copied. Both symbols are there, the value is proper, and the list that is made may be stored and has this
    /// size. After out of memory nothing has changed.
    pub fn push(
        &mut self,
        symbol: &Symbol,
        indicator: &Symbol,
        first: Datum,
        size: u64,
    ) -> Result<(), AllocError>
        requires symbol { IsSymbol self.old.0.packages (symbol_of symbol.now) }
        requires indicator { IsSymbol self.old.0.packages (symbol_of indicator.now) }
        requires list { holds_pair
            (property self.old.0 (symbol_of symbol.now) (symbol_of indicator.now)) ≡ true }
        requires proper { is_proper first ≡ true }
        requires value { let old = property self.old.0 (symbol_of symbol.now) (symbol_of indicator.now) in
            IsValue self.old.0.packages (pushed_list (object_of first) old) }
        requires size { let old = property self.old.0 (symbol_of symbol.now) (symbol_of indicator.now) in
            pair_size (Some (pushed_list (object_of first) old)) ≡ Some size }
        ensures ok { OnOk result (self.new
            ≡ (with_pushed self.old.0 (symbol_of symbol.now) (symbol_of indicator.now) (object_of first), self.old.1)) }
        ensures err { OnErr result (self.new ≡ self.old) }
    {
        self.packages.numbering();
        let owner = number(&self.packages, symbol.borrowed());
        let indicator = number(&self.packages, indicator.borrowed());
        stored::push(
            self.alloc,
            &mut self.stored,
            &mut self.marks,
            owner,
            indicator,
            first,
        )?;
        sizes::note(&mut self.sizes, owner, indicator, size);
        Ok(())
    }

    // Takes the first item off the list that is beside an indicator of a symbol.
    fn take_first(&mut self, symbol: &Symbol, indicator: &Symbol) -> Result<(), AllocError>
        requires symbol { IsSymbol self.old.0.packages (symbol_of symbol.now) }
        requires indicator { IsSymbol self.old.0.packages (symbol_of indicator.now) }
        requires list { holds_pair
            (property self.old.0 (symbol_of symbol.now) (symbol_of indicator.now)) ≡ true }
        ensures ok { OnOk result (self.new
            ≡ (with_popped self.old.0 (symbol_of symbol.now) (symbol_of indicator.now), self.old.1)) }
        ensures err { OnErr result (self.new ≡ self.old) }
    {
        self.packages.numbering();
        let owner = number(&self.packages, symbol.borrowed());
        let indicator = number(&self.packages, indicator.borrowed());
        sizes::forget(&mut self.sizes, owner, indicator);
        stored::pop(
            self.alloc,
            &mut self.stored,
            &mut self.marks,
            owner,
            indicator,
        )
    }

    /// Takes the first item off the list that is beside an indicator of a symbol (standard 14.2, `pop`), and gives it. The
    /// rest is not copied. Where that was the only item, what ends the list is the value: NIL, or the object after the dot.
    /// `None` where there is no such property, or its value is no list with an item: then nothing has changed. Both
    /// symbols are there. After out of memory nothing has changed.
    pub fn pop(&mut self, symbol: &Symbol, indicator: &Symbol) -> Result<Option<Datum>, AllocError>
        requires symbol { IsSymbol self.old.0.packages (symbol_of symbol.now) }
        requires indicator { IsSymbol self.old.0.packages (symbol_of indicator.now) }
        ensures first { IfOk result (λ first. option_map object_of first
            ≡ first_item (property self.old.0 (symbol_of symbol.now) (symbol_of indicator.now))) }
        ensures proper { IfOk result (λ first. IfSome first (λ d. is_proper d ≡ true)) }
        ensures ok { OnOk result (self.new
            ≡ (with_popped self.old.0 (symbol_of symbol.now) (symbol_of indicator.now), self.old.1)) }
        ensures err { OnErr result (self.new ≡ self.old) }
    {
        let alloc = self.alloc;
        let Some(value) = self.get(symbol, indicator) else {
            return Ok(None);
        };
        let Some(first) = first_of(alloc, value)? else {
            return Ok(None);
        };
        self.take_first(symbol, indicator)?;
        Ok(Some(first))
    }

    /// Removes the property of an indicator from the list of a symbol, and answers whether it was there (standard 10.2,
    /// `remprop`). The symbol is there. Takes no memory where the property is absent. After out of memory nothing has
    /// changed.
    pub fn remove(&mut self, symbol: &Symbol, indicator: &Symbol) -> Result<bool, AllocError>
        requires { IsSymbol self.old.0.packages (symbol_of symbol.now) }
        ensures ok { OnOk result (self.new
            ≡ (without_property self.old.0 (symbol_of symbol.now) (symbol_of indicator.now), self.old.1)) }
        ensures had { IfOk result (λ had. had
            ≡ is_some (property self.old.0 (symbol_of symbol.now) (symbol_of indicator.now))) }
        ensures absent { OnErr result
            (is_some (property self.old.0 (symbol_of symbol.now) (symbol_of indicator.now)) ≡ true) }
        ensures err { OnErr result (self.new ≡ self.old) }
    {
        self.packages.numbering();
        let owner = number(&self.packages, symbol.borrowed());
        let Some(indicator) = self.packages.number_of(indicator.home(), indicator.name()) else {
            return Ok(false);
        };
        sizes::forget(&mut self.sizes, owner, indicator);
        stored::remove(&mut self.stored, &mut self.marks, owner, indicator)
    }
}
