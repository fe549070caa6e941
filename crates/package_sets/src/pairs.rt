//! Each pair once, numbered by its position, and the positions of the pairs of each first number.
ghost use Rattle.std.specs.Prelude.{◌≡◌, ◌-◌, ◌<◌, ◌++◌, ◌∷◌, [], length, take, position, None, IfOk, OnOk, OnErr};
ghost use Rattle.package_sets.specs.KeptSets.{pair_at, pair_eq, positions_of};
ghost use Rattle.package_sets.specs.Consistent.{AreDistinctPairs};
ghost use Rattle.package_sets.specs.Groups.{pair_of, HaveSameGroups, IsInGroup};

use crate::{Pair, Seed};
use indexmap::IndexSet;
use std::alloc::{AllocError, Global};
use std::marker::Model;

/// Pairs of numbers, each once, and fewer than 2^32. Contracts see the list of them: the position of a pair is its
/// number.
#[derive(Drop)]
pub struct Pairs {
    set: IndexSet<Pair, Seed>,
    // For each first number the positions of its pairs.
    groups: Vec<Vec<u32>>,
}

impl Model for Pairs {
    ghost use Rattle.std.specs.Prelude.{ℕ, List};
    ghost use Rattle.package_sets.specs.KeptSets.{pairs_code};

    ghost Value = { List (ℕ × ℕ) };

    ghost coded = { pairs_code };

    ghost use Rattle.package_sets.specs.Groups.{pairs_of, AreSoundPairs};

    ghost view = { pairs_of };

    ghost invariant = { AreSoundPairs };
}

// Puts a position last into the group of `first`.
fn note(
    alloc: Global,
    groups: &mut Vec<Vec<u32>>,
    first: usize,
    position: u32,
) -> Result<(), AllocError>
    ensures ok { OnOk result (IsInGroup first position groups.old.items groups.new.items) }
    ensures err { OnErr result (HaveSameGroups groups.old.items groups.new.items) }
{
    while groups.len() <= first {
        groups.push(Vec::new(alloc))?;
    }
    let group = &mut groups[first];
    group.push(position)?;
    Ok(())
}

// The same groups, on their own memory.
fn copy_groups(groups: &Vec<Vec<u32>>) -> Result<Vec<Vec<u32>>, AllocError>
    ensures { IfOk result (λ copied. HaveSameGroups groups.now.items copied.items) }
{
    groups.clone()
}

impl Pairs {
    /// No pairs.
    pub fn new(alloc: Global, seed: Seed) -> Pairs
        ensures { result ≡ [] }
    {
        Pairs {
            set: IndexSet::with_hasher(alloc, seed),
            groups: Vec::new(alloc),
        }
    }

    /// The same pairs with the same numbers, on their own memory.
    pub fn copy(&self) -> Result<Pairs, AllocError>
        ensures { IfOk result (λ pairs. pairs ≡ self.now) }
    {
        let set = self.set.clone()?;
        let groups = copy_groups(&self.groups)?;
        Ok(Pairs { set, groups })
    }

    /// How many pairs there are.
    pub fn len(&self) -> u32
        ensures { result ≡ length self.now }
    {
        self.set.len() as u32
    }

    /// No two pairs are one. For proofs: it does nothing.
    pub fn distinctness(&self)
        ensures { AreDistinctPairs self.now }
    {
        let _len = self.set.len();
    }

    /// The number of a pair. Takes no memory.
    pub fn find(&self, first: u32, second: u32) -> Option<u32>
        ensures { result ≡ position (pair_eq (first, second)) self.now }
    {
        match self.set.get_index_of(&Pair { first, second }) {
            Some(number) => Some(number as u32),
            None => None,
        }
    }

    /// The pair of a number. Takes no memory.
    pub fn at(&self, number: u32) -> Pair
        requires { number < length self.now }
        ensures { pair_of result ≡ pair_at self.now number }
    {
        self.set[number as usize]
    }

    /// The numbers of the pairs that begin with `first`, rising. Takes no memory.
    pub fn of(&self, first: u32) -> &[u32]
        ensures { result.now ≡ positions_of first self.now }
    {
        match self.groups.get(first as usize) {
            Some(group) => group.as_slice(),
            None => &[],
        }
    }

    /// Adds a pair that is not there. After a failure nothing has changed.
    pub fn push(&mut self, alloc: Global, first: u32, second: u32) -> Result<(), AllocError>
        requires { position (pair_eq (first, second)) self.old ≡ None }
        ensures ok { OnOk result (self.new ≡ self.old ++ (first, second) ∷ []) }
        ensures err { OnErr result (self.new ≡ self.old) }
    {
        let len = self.set.len();
        if len >= u32::MAX as usize {
            return Err(AllocError);
        }
        self.set.reserve(1)?;
        note(alloc, &mut self.groups, first as usize, len as u32)?;
        if let Err(_) = self.set.insert_full(Pair { first, second }) {
            unreachable!()
        }
        Ok(())
    }

    // Takes the last pair away.
    fn pop(&mut self)
        requires { 0 < length self.old }
        ensures { self.new ≡ take (length self.old - 1) self.old }
    {
        if let Some(last) = self.set.pop() {
            let group = &mut self.groups[last.first as usize];
            let _position = group.pop();
        }
    }

    /// Keeps the first `len` pairs. Takes no memory, and time in proportion to what goes.
    pub fn truncate(&mut self, len: u32)
        ensures { self.new ≡ take len self.old }
    {
        while self.len() > len {
            self.pop();
        }
    }
}
