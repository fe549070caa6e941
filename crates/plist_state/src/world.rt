//! The world, and what is asked of it.
ghost use Rattle.std.specs.Prelude.{◌≡◌, [], true, IfOk, IfSome};
ghost use Rattle.std.specs.Option.{option_map};
ghost use Rattle.std.specs.FinMap as finite;
ghost use Rattle.lisp_object.specs.Datum.{object_of, is_proper};
ghost use Rattle.plist_state.specs.Changes.{plist, property};
ghost use Rattle.plist_state.specs.MarkedWorlds.{worlds_in, CanBePutBack};
ghost use Rattle.plist_state.specs.PushedLists.{pair_size};
ghost use Rattle.plist_state.specs.Views.{symbol_of, symbol_named};
ghost use Rattle.plist_state.specs.Sound.{IsSoundWorld};
ghost use Rattle.plist_state.specs.State.{initial};

use crate::note::Note;
use crate::replaced::Replaced;
use crate::sizes::ListSizes;
use crate::stored::{Stored, first_stored};
use crate::{BorrowedSymbol, PropertyList, Symbol, rows, sizes, tables};
use lisp_object::Datum;
use package_table::{Packages, Seed};
use readtable_core::Readtable;
use std::alloc::{AllocError, Global};
use std::collections::BTreeMap;
use std::marker::Model;

/// A world: packages, the property lists of symbols, readtables by name, the current package and the current readtable.
/// Contracts see its state, and after it the list of the states that were marked.
pub struct World {
    pub(crate) alloc: Global,
    pub(crate) packages: Packages,
    pub(crate) stored: Stored,
    // What changed in the rest since each mark, up to the next one. The packages have marks of their own, as many.
    pub(crate) marks: Vec<Vec<Note>>,
    // How large long lists are that items were put before.
    pub(crate) sizes: ListSizes,
    // What was replaced while there are marks that lead back to it, the first first, and how many marks that are.
    pub(crate) earlier: Vec<Replaced>,
    pub(crate) earlier_marks: usize,
    // Memory of notes that were let go, for those of the next mark.
    pub(crate) spare: Vec<Note>,
}

// A call, so that a crate above does not see what is kept at each exit of a function that owns a world.
impl Drop for World {
    fn drop(self) {
        let World {
            alloc: _,
            packages: _,
            stored: _,
            marks: _,
            sizes: _,
            earlier: _,
            earlier_marks: _,
            spare: _,
        } = self;
    }
}

impl Model for World {
    ghost use Rattle.plist_state.specs.State.{Worlds};
    ghost use Rattle.plist_state.specs.Codes.{worlds_code};

    ghost Value = { Worlds };

    ghost coded = { worlds_code };

    ghost use Rattle.plist_state.specs.MarkedWorlds.{worlds_of, HasKeptWorld};

    ghost view = { worlds_of };

    ghost invariant = { HasKeptWorld };
}

impl World {
    /// The first world: the first packages, no properties, the readtables `STANDARD` and `USER`, which are both the standard
    /// one, and COMMON-LISP-USER and `USER` current. It keeps `alloc` for later changes.
    pub fn new(alloc: Global) -> Result<World, AllocError>
        ensures { IfOk result (λ world. world ≡ (initial, [])) }
    {
        World::with_seed(alloc, Seed::fixed())
    }

    /// The first world, as `new` makes it, where names are hashed by this seed (`Packages::with_seed`).
    pub fn with_seed(alloc: Global, seed: Seed) -> Result<World, AllocError>
        ensures { IfOk result (λ world. world ≡ (initial, [])) }
    {
        let packages = Packages::with_seed(alloc, seed)?;
        packages.soundness();
        Ok(World {
            alloc,
            packages,
            stored: first_stored(alloc)?,
            marks: Vec::new(alloc),
            sizes: BTreeMap::new(alloc),
            earlier: Vec::new(alloc),
            earlier_marks: 0,
            spare: Vec::new(alloc),
        })
    }

    // What it keeps, where no state is marked.
    pub(crate) fn into_parts(self) -> Replaced
        requires { self.1 ≡ [] }
        ensures kept { CanBePutBack result }
        ensures same { worlds_in result ≡ self }
    {
        let World {
            packages,
            stored,
            marks,
            sizes,
            alloc: _,
            earlier: _,
            earlier_marks: _,
            spare: _,
        } = self;
        Replaced {
            packages,
            stored,
            marks,
            sizes,
        }
    }

    /// What holds of every world. For proofs: it does nothing.
    pub fn soundness(&self)
        ensures { IsSoundWorld self.now }
    {
        let _ = &self.stored;
    }

    /// The packages. Takes no memory.
    pub fn packages(&self) -> &Packages
        ensures { result.now.0 ≡ self.now.0.packages }
    {
        &self.packages
    }

    /// The readtable of this name. Takes no memory.
    pub fn readtable(&self, name: &[u8]) -> Option<&Readtable>
        ensures { option_map (λ t. t.now) result ≡ finite.get self.now.0.readtables name.now }
    {
        tables::table(&self.stored.readtables, name)
    }

    /// The name of the current package (standard 11.1.2.2, `*package*`). Takes no memory.
    pub fn current_package(&self) -> &[u8]
        ensures { result.now ≡ self.now.0.current_package }
    {
        self.stored.current_package.as_slice()
    }

    /// The name of the current readtable (standard 23.1.1). Takes no memory.
    pub fn current_readtable(&self) -> &[u8]
        ensures { result.now ≡ self.now.0.current_readtable }
    {
        self.stored.current_readtable.as_slice()
    }

    /// The value beside an indicator in the property list of a symbol (standard 10.2, `get`). Takes no memory.
    pub fn get(&self, symbol: &Symbol, indicator: &Symbol) -> Option<&Datum>
        ensures value { option_map (λ d. object_of d.now) result
            ≡ property self.now.0 (symbol_of symbol.now) (symbol_of indicator.now) }
        ensures proper { IfSome result (λ d. is_proper d.now ≡ true) }
    {
        self.get_at(symbol.borrowed(), indicator.borrowed())
    }

    /// The same of symbols by borrow: no name is copied. Takes no memory.
    pub fn get_at(
        &self,
        symbol: BorrowedSymbol<'_>,
        indicator: BorrowedSymbol<'_>,
    ) -> Option<&Datum>
        ensures value { option_map (λ d. object_of d.now) result
            ≡ property self.now.0 (symbol_named symbol.entry) (symbol_named indicator.entry) }
        ensures proper { IfSome result (λ d. is_proper d.now ≡ true) }
    {
        self.packages.numbering();
        let Some(owner) = self.packages.number_of(symbol.home, symbol.name) else {
            return None;
        };
        let Some(indicator) = self.packages.number_of(indicator.home, indicator.name) else {
            return None;
        };
        let stored = &self.stored;
        rows::value(&stored.properties, &stored.indexes, owner, indicator)
    }

    /// How large the value beside an indicator of a symbol is, where it is a list with an item: it and its parts, as
    /// `Datum::size` counts them. A long list that an item was put before is not looked at. Takes no memory.
    pub fn list_size(&self, symbol: &Symbol, indicator: &Symbol) -> Option<u64>
        ensures { result
            ≡ pair_size (property self.now.0 (symbol_of symbol.now) (symbol_of indicator.now)) }
    {
        self.packages.numbering();
        let Some(owner) = self.packages.number_of(symbol.home(), symbol.name()) else {
            return None;
        };
        let Some(indicator) = self.packages.number_of(indicator.home(), indicator.name()) else {
            return None;
        };
        if let Some(size) = sizes::noted(&self.sizes, owner, indicator) {
            return Some(size);
        }
        let stored = &self.stored;
        match rows::value(&stored.properties, &stored.indexes, owner, indicator) {
            Some(value) => sizes::counted(value),
            None => None,
        }
    }

    /// The property list of a symbol (standard 10.2, `symbol-plist`). Takes no memory.
    pub fn plist(&self, symbol: &Symbol) -> PropertyList<'_>
        ensures { result ≡ plist self.now.0 (symbol_of symbol.now) }
    {
        self.plist_of(symbol.home(), symbol.name())
    }

    /// The same of the symbol of this home and name. Takes no memory.
    pub fn plist_of(&self, home: &[u8], name: &[u8]) -> PropertyList<'_>
        ensures { result ≡ plist self.now.0 (home.now, name.now) }
    {
        match self.packages.number_of(home, name) {
            Some(number) => {
                PropertyList::new(&self.packages, rows::row(&self.stored.properties, number))
            }
            None => PropertyList::new(&self.packages, None),
        }
    }
}
