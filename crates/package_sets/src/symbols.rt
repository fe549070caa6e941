//! Symbols: pairs of a home and a name, each once, which are looked for among those of the name first.
ghost use Rattle.std.specs.Prelude.{◌≡◌, ◌<◌, ◌++◌, ◌∷◌, [], length, take, position, None, IfOk, OnOk, OnErr};
ghost use Rattle.package_sets.specs.KeptSets.{pair_at, pair_eq, positions_of};
ghost use Rattle.package_sets.specs.Consistent.{AreDistinctPairs};
ghost use Rattle.package_sets.specs.Groups.{pair_of};

use crate::chains::Chains;
use crate::{Pair, Pairs, Seed};
use std::alloc::{AllocError, Global};
use std::marker::Model;

// So many symbols of a name are looked at one after the other, before the pair is hashed. Most names have one symbol.
const FEW_OF_A_NAME: u32 = 4;

/// Symbols, each by the numbers of its home and of its name, and fewer than 2^32. Contracts see the list of them: the position
/// of a symbol is its number.
pub struct Symbols {
    pairs: Pairs,
    // Where they are, by their names.
    chains: Chains,
}

// Dropping is a call, so that a function that owns symbols does not see their lists at each exit.
impl Drop for Symbols {
    fn drop(self) {
        let Symbols {
            pairs: _,
            chains: _,
        } = self;
    }
}

impl Model for Symbols {
    ghost use Rattle.std.specs.Prelude.{ℕ, List, length};
    ghost use Rattle.package_sets.specs.KeptSets.{pairs_code};

    ghost Value = { List (ℕ × ℕ) };

    ghost coded = { pairs_code };

    ghost use Rattle.package_sets.specs.SymbolChains.{second_of, AreChainsOfNames};

    ghost view = { λ a. a.pairs };

    ghost invariant = { λ a. AreChainsOfNames (second_of a.pairs) (length a.pairs) a.chains };
}

impl Symbols {
    /// No symbols.
    pub fn new(alloc: Global, seed: Seed) -> Symbols
        ensures { result ≡ [] }
    {
        Symbols {
            pairs: Pairs::new(alloc, seed),
            chains: Chains::new(alloc),
        }
    }

    /// The same symbols with the same numbers, on their own memory.
    pub fn copy(&self, alloc: Global) -> Result<Symbols, AllocError>
        ensures { IfOk result (λ symbols. symbols ≡ self.now) }
    {
        let chains = self.chains.copy(alloc)?;
        let pairs = self.pairs.copy()?;
        Ok(Symbols { pairs, chains })
    }

    /// How many symbols there are.
    pub fn len(&self) -> u32
        ensures { result ≡ length self.now }
    {
        self.pairs.len()
    }

    /// No two symbols are one. For proofs: it does nothing.
    pub fn distinctness(&self)
        ensures { AreDistinctPairs self.now }
    {
        self.pairs.distinctness()
    }

    /// The number of a symbol. Takes no memory.
    pub fn find(&self, home: u32, name: u32) -> Option<u32>
        ensures { result ≡ position (pair_eq (home, name)) self.now }
    {
        self.pairs.distinctness();
        let mut last = self.chains.last(name);
        for _ in 0..FEW_OF_A_NAME {
            if last == 0 {
                return None;
            }
            let place = last - 1;
            if self.pairs.at(place).first == home {
                return Some(place);
            }
            last = self.chains.before(place);
        }
        self.pairs.find(home, name)
    }

    /// The symbol of a number. Takes no memory.
    pub fn at(&self, number: u32) -> Pair
        requires { number < length self.now }
        ensures { pair_of result ≡ pair_at self.now number }
    {
        self.pairs.at(number)
    }

    /// The numbers of the symbols of a home, rising. Takes no memory.
    pub fn of(&self, home: u32) -> &[u32]
        ensures { result.now ≡ positions_of home self.now }
    {
        self.pairs.of(home)
    }

    /// Adds a symbol that is not there. After a failure nothing has changed.
    pub fn push(&mut self, alloc: Global, home: u32, name: u32) -> Result<(), AllocError>
        requires { position (pair_eq (home, name)) self.old ≡ None }
        ensures ok { OnOk result (self.new ≡ self.old ++ (home, name) ∷ []) }
        ensures err { OnErr result (self.new ≡ self.old) }
    {
        self.chains.reserve(name)?;
        self.pairs.push(alloc, home, name)?;
        self.chains.push_reserved(name, self.pairs.len());
        Ok(())
    }

    /// Keeps the first `len` symbols. Takes no memory, and time in proportion to what goes.
    pub fn truncate(&mut self, len: u32)
        ensures { self.new ≡ take len self.old }
    {
        self.chains.truncate_seconds(&self.pairs, len);
        self.pairs.truncate(len);
    }
}
