//! Symbols, or external symbols, by their names: for each name the last that has it, and for each of them the one before it.
ghost use Rattle.std.specs.Prelude.{◌≡◌, ◌<◌, ◌++◌, ◌∷◌, [], ℕ, nat_eq, length, take, get_or, if◌then◌else◌, IfOk, OnOk};
ghost use Rattle.std.specs.List.{AllByRecursion};
ghost use Rattle.std.specs.Vec.{vec_len, vec_capacity};
ghost use Rattle.package_sets.specs.SymbolChains.{external_name, second_of, AreChainsOfNames};

use crate::{Pairs, Symbols};
use std::alloc::{AllocError, Global};

/// Places, each kept as one more than it, and 0 for none.
pub(crate) struct Chains {
    // For each name the last place that has it.
    lasts: Vec<u32>,
    // For each place the one before it with the same name.
    befores: Vec<u32>,
}

// Dropping is a call, so that a function that owns chains does not see both lists at each exit.
impl Drop for Chains {
    fn drop(self) {
        let Chains {
            lasts: _,
            befores: _,
        } = self;
    }
}

impl Chains {
    /// No places.
    pub(crate) fn new(alloc: Global) -> Chains
        ensures { (names : ℕ → ℕ) → AreChainsOfNames names 0 result }
    {
        Chains {
            lasts: Vec::new(alloc),
            befores: Vec::new(alloc),
        }
    }

    /// The same places, on their own memory.
    pub(crate) fn copy(&self, alloc: Global) -> Result<Chains, AllocError>
        ensures lasts { IfOk result (λ chains. chains.lasts.items ≡ self.now.lasts.items) }
        ensures befores { IfOk result (λ chains. chains.befores.items ≡ self.now.befores.items) }
    {
        let lasts = Vec::from_slice(alloc, self.lasts.as_slice())?;
        let befores = Vec::from_slice(alloc, self.befores.as_slice())?;
        Ok(Chains { lasts, befores })
    }

    /// The last place that has a name, as it is kept.
    pub(crate) fn last(&self, name: u32) -> u32
        ensures { result ≡ get_or self.now.lasts.items name 0 }
    {
        match self.lasts.get(name as usize) {
            Some(last) => *last,
            None => 0,
        }
    }

    /// The place before another with the same name, as it is kept.
    pub(crate) fn before(&self, place: u32) -> u32
        requires { place < length self.now.befores.items }
        ensures { result ≡ get_or self.now.befores.items place 0 }
    {
        self.befores[place as usize]
    }

    /// Makes room for one place more, which has this name.
    pub(crate) fn reserve(&mut self, name: u32) -> Result<(), AllocError>
        ensures there { OnOk result (name < length self.new.lasts.items) }
        ensures room { OnOk result (vec_len self.new.befores < vec_capacity self.new.befores) }
        ensures lasts { (j : ℕ) → get_or self.new.lasts.items j 0 ≡ get_or self.old.lasts.items j 0 }
        ensures befores { self.new.befores.items ≡ self.old.befores.items }
    {
        while self.lasts.len() <= name as usize {
            self.lasts.push(0)?;
        }
        self.befores.reserve(1)?;
        Ok(())
    }

    /// Adds a place of this name, kept as `number`. There is room.
    pub(crate) fn push_reserved(&mut self, name: u32, number: u32)
        requires there { name < length self.old.lasts.items }
        requires room { vec_len self.old.befores < vec_capacity self.old.befores }
        ensures lasts { (j : ℕ) → get_or self.new.lasts.items j 0
            ≡ (if nat_eq name j then number else get_or self.old.lasts.items j 0) }
        ensures befores { self.new.befores.items
            ≡ self.old.befores.items ++ get_or self.old.lasts.items name 0 ∷ [] }
    {
        let name = name as usize;
        self.befores.push_reserved(self.lasts[name]);
        self.lasts[name] = number;
    }

    // Takes the last place away, which has this name.
    fn pop(&mut self, name: u32)
        requires there { name < length self.old.lasts.items }
        requires some { 0 < length self.old.befores.items }
        ensures befores { self.old.befores.items ≡ self.new.befores.items
            ++ get_or self.old.befores.items (length self.new.befores.items) 0 ∷ [] }
        ensures lasts { (j : ℕ) → get_or self.new.lasts.items j 0
            ≡ (if nat_eq name j then get_or self.old.befores.items (length self.new.befores.items) 0
            else get_or self.old.lasts.items j 0) }
    {
        let before = self.befores.take_last();
        self.lasts[name as usize] = before;
    }

    /// Keeps the first `len` places of what is named by the second numbers of pairs. Takes no memory, and time in proportion to
    /// what goes.
    pub(crate) fn truncate_seconds(&mut self, pairs: &Pairs, len: u32)
        requires { AreChainsOfNames (second_of pairs.now) (length pairs.now) self.old }
        ensures { AreChainsOfNames (second_of pairs.now) (length (take len pairs.now)) self.new }
    {
        let mut kept = pairs.len();
        while kept > len {
            kept = kept - 1;
            self.pop(pairs.at(kept).second);
        }
    }

    /// Keeps the first `len` places of what is external. Takes no memory, and time in proportion to what goes.
    pub(crate) fn truncate(&mut self, symbols: &Symbols, externals: &Pairs, len: u32)
        requires within { AllByRecursion (λ e. e.1 < length symbols.now) externals.now }
        requires chained { AreChainsOfNames (external_name symbols.now externals.now)
            (length externals.now) self.old }
        ensures { AreChainsOfNames (external_name symbols.now externals.now)
            (length (take len externals.now)) self.new }
    {
        let mut kept = externals.len();
        while kept > len {
            kept = kept - 1;
            let external = externals.at(kept);
            self.pop(symbols.at(external.second).second);
        }
    }
}
