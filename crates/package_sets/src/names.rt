//! Each name once, numbered by its position.
ghost use Rattle.std.specs.Prelude.{◌≡◌, ◌<◌, ◌++◌, ◌∷◌, [], length, take, position, bytes_eq, None, IfOk, IfSome, OnOk, OnErr};
ghost use Rattle.package_sets.specs.KeptSets.{name_at};
ghost use Rattle.package_sets.specs.Consistent.{AreDistinctNames};
ghost use Rattle.package_sets.specs.Changes.{number_among, with_name};

use crate::Seed;
use crate::hints::Hints;
use crate::name::{KeptName, SoughtName};
use indexmap::IndexSet;
use lisp_object::Bytes;
use std::alloc::{AllocError, Global};
use std::marker::Model;

/// Names, each once, and fewer than 2^32. Contracts see the list of them: the position of a name is its number.
#[derive(Drop)]
pub struct Names {
    set: IndexSet<KeptName, Seed>,
    // Where a name may be, so that most are found without being hashed.
    hints: Hints,
}

impl Model for Names {
    ghost use Rattle.std.specs.Prelude.{◌<◌, ◌^◌, List, map, length};
    ghost use Rattle.std.specs.Coded.{coded_list};
    ghost use Rattle.package_sets.specs.KeptSets.{Name, name_code};

    ghost Value = { List Name };

    ghost coded = { coded_list name_code };

    ghost view = { λ a. map (λ k. k.bytes) a.set.keys };

    ghost invariant = { λ a. length a.set.keys < 2 ^ 32 };
}

// Notes where a name is that was added last, among all of them. Where there is no memory for it, it is found by its hash.
fn note(
    alloc: Global,
    set: &IndexSet<KeptName, Seed>,
    hints: &mut Hints,
    name: &[u8],
    number: u32,
) {
    if hints.is_narrow(number) {
        widen(alloc, set, hints);
    }
    hints.note(name, number);
}

// Makes room for more guesses.
fn widen(alloc: Global, set: &IndexSet<KeptName, Seed>, hints: &mut Hints) {
    let Ok(mut wider) = hints.wider(alloc) else {
        return;
    };
    let mut number: u32 = 0;
    for name in set.iter() {
        wider.note(name.bytes.as_slice(), number);
        number = number.wrapping_add(1);
    }
    *hints = wider;
}

impl Names {
    /// No names.
    pub fn new(alloc: Global, seed: Seed) -> Names
        ensures { result ≡ [] }
    {
        Names {
            set: IndexSet::with_hasher(alloc, seed),
            hints: Hints::new(alloc),
        }
    }

    /// The same names with the same numbers, on their own memory.
    pub fn copy(&self) -> Result<Names, AllocError>
        ensures { IfOk result (λ names. names ≡ self.now) }
    {
        let set = self.set.clone()?;
        let hints = self.hints.copy()?;
        Ok(Names { set, hints })
    }

    /// How many names there are.
    pub fn len(&self) -> u32
        ensures { result ≡ length self.now }
    {
        self.set.len() as u32
    }

    /// No two names are one. For proofs: it does nothing.
    pub fn distinctness(&self)
        ensures { AreDistinctNames self.now }
    {
        let _len = self.set.len();
    }

    /// The number of a name. Takes no memory.
    pub fn find(&self, name: &[u8]) -> Option<u32>
        ensures { result ≡ position (bytes_eq name.now) self.now }
    {
        match self.guessed(name) {
            Some(number) => Some(number),
            None => self.sought(name),
        }
    }

    /// The number of a name. The first names, `front` of them, are compared with it before, the last of these first.
    pub fn find_from_front(&self, front: u32, name: &[u8]) -> Option<u32>
        ensures { result ≡ position (bytes_eq name.now) self.now }
    {
        self.distinctness();
        let mut number = self.len().min(front);
        while number > 0 {
            number -= 1;
            if name == self.at(number) {
                return Some(number);
            }
        }
        self.find(name)
    }

    // The number of a name, where the guess at it is right. None says nothing of the name: it is looked up then.
    #[inline(always)]
    fn guessed(&self, name: &[u8]) -> Option<u32>
        ensures { IfSome result (λ n. position (bytes_eq name.now) self.now ≡ Some n) }
    {
        self.distinctness();
        let Some(number) = self.hints.guess(name) else {
            return None;
        };
        if number < self.len() && name == self.at(number) {
            Some(number)
        } else {
            None
        }
    }

    // The number of a name, by its hash.
    #[inline(never)]
    fn sought(&self, name: &[u8]) -> Option<u32>
        ensures { result ≡ position (bytes_eq name.now) self.now }
    {
        match self.set.get_index_of(SoughtName { bytes: name }) {
            Some(number) => Some(number as u32),
            None => None,
        }
    }

    /// The name of a number. Takes no memory.
    pub fn at(&self, number: u32) -> &[u8]
        requires { number < length self.now }
        ensures { result.now ≡ name_at self.now number }
    {
        self.set[number as usize].bytes.as_slice()
    }

    /// Adds a name that is not there. After a failure nothing has changed.
    pub fn push(&mut self, alloc: Global, name: &[u8]) -> Result<(), AllocError>
        requires { position (bytes_eq name.now) self.old ≡ None }
        ensures ok { OnOk result (self.new ≡ self.old ++ name.now ∷ []) }
        ensures err { OnErr result (self.new ≡ self.old) }
    {
        if self.set.len() >= u32::MAX as usize {
            return Err(AllocError);
        }
        let number = self.set.len() as u32;
        let bytes = Bytes::from_slice(alloc, name)?;
        if let Err(_) = self.set.insert_full(KeptName { bytes }) {
            return Err(AllocError);
        }
        note(alloc, &self.set, &mut self.hints, name, number);
        Ok(())
    }

    /// The number of a name, which is added if it is not there. After a failure nothing has changed.
    pub fn intern(&mut self, alloc: Global, name: &[u8]) -> Result<u32, AllocError>
        ensures ok { OnOk result (self.new ≡ with_name self.old name.now) }
        ensures number { IfOk result (λ n. n ≡ number_among self.old name.now) }
        ensures err { OnErr result (self.new ≡ self.old) }
    {
        if self.set.len() >= u32::MAX as usize {
            return Err(AllocError);
        }
        let bytes = Bytes::from_slice(alloc, name)?;
        let Ok(added) = self.set.insert_full(KeptName { bytes }) else {
            return Err(AllocError);
        };
        note(alloc, &self.set, &mut self.hints, name, added.0 as u32);
        Ok(added.0 as u32)
    }

    /// Keeps the first `len` names. Takes no memory, and time in proportion to what goes.
    pub fn truncate(&mut self, len: u32)
        ensures { self.new ≡ take len self.old }
    {
        self.set.truncate(len as usize);
    }
}
