//! The macro functions of a meaning, all of them.
ghost use Rattle.std.specs.Prelude.{◌≡◌, refl, true};
ghost use Rattle.std.specs.List.{list_all};
ghost use Rattle.std.specs.Option.{option_map_or};
ghost use Rattle.readtable_core.specs.Names.{is_among};
ghost use Rattle.readtable_core.specs.NamedFunctions.{functions_at};
ghost use Rattle.user_macros.specs.Registry.{is_covered};

use crate::Answering;
use readtable_core::{CharacterSlot, FnName, Readtable};
use std::alloc::{AllocError, Global};
use user_macros::{Answer, Call, Gather, MacroFunctions};

/// The macro functions of a meaning, all of them.
#[derive(Drop)]
pub struct Fixed<M> {
    alloc: Global,
    meaning: M,
}

impl<M: Answering> Fixed<M> {
    /// All of them. It keeps `alloc` for what they answer.
    pub fn new(alloc: Global, meaning: M) -> Fixed<M>
        ensures meant { ⟦<Fixed<M> as MacroFunctions>⟧.meant result ≡ meaning }
        ensures all { ⟦<Fixed<M> as MacroFunctions>⟧.functions result ≡ M.functions }
        ensures answers { ⟦<Fixed<M> as MacroFunctions>⟧.answers result }
    {
        Fixed { alloc, meaning }
    }

    fn has(&self, name: FnName) -> bool
        ensures { result ≡ is_among M.functions.names name }
    {
        self.meaning.gather(name).is_some()
    }

    fn covers_entry(&self, entry: &CharacterSlot) -> bool
        ensures { result ≡ list_all (is_covered M.functions.names) (functions_at entry.now) }
    {
        self.covers_function(entry.function()) && self.covers_each(entry.dispatch())
    }

    fn covers_each(&self, functions: &[Option<FnName>]) -> bool
        ensures { result ≡ list_all
            (λ f. option_map_or (is_covered M.functions.names) f true) functions.now }
    {
        for function in functions {
            if !self.covers_function(*function) {
                return false;
            }
        }
        true
    }

    fn covers_function(&self, function: Option<FnName>) -> bool
        ensures { result ≡ option_map_or (is_covered M.functions.names) function true }
    {
        match function {
            Some(name) => name.is_standard() || name.is_dispatch() || self.has(name),
            None => true,
        }
    }
}

impl<M: Answering> MacroFunctions for Fixed<M> {
    type Meaning = M;

    ghost functions = { λ m. M.functions };

    ghost meant = { λ m. m.meaning };

    ghost answers = { λ m. Unit {0} };

    ghost as_meant = { λ m. refl };

    ghost known = { λ m answers name is. is };

    fn meaning(&self) -> &M {
        &self.meaning
    }

    fn gather_of(&self, name: FnName) -> Option<Gather> {
        self.meaning.gather(name)
    }

    fn call(&self, name: FnName, call: Call) -> Result<Answer, AllocError> {
        self.meaning.answer(self.alloc, name, call)
    }

    fn is_whole(&self) -> bool {
        for name in self.meaning.names() {
            if !self.has(*name) {
                return false;
            }
        }
        true
    }

    fn covers(&self, readtable: &Readtable) -> bool {
        for entry in readtable.entries() {
            if !self.covers_entry(entry) {
                return false;
            }
        }
        true
    }
}
