//! The registry of macro functions.
ghost use Rattle.std.specs.Prelude.{ℕ, ◌≡◌, ◌++◌, [], ◌∷◌, List, map, All, Contains, Ok, None, true, refl, unwrap_or, is_ok, is_some, IfOk, IfErr, IfSome, OnOk, IsTrue, if◌then◌else◌};
ghost use Rattle.std.specs.List.{list_all};
ghost use Rattle.std.specs.Option.{option_map_or};
ghost use Rattle.readtable_core.specs.Names.{is_among, is_reserved};
ghost use Rattle.readtable_core.specs.NamedFunctions.{functions_at};
ghost use Rattle.user_macros.specs.Calls.{call_of, answer_of};
ghost use Rattle.user_macros.specs.Sound.{IsSoundCall};
ghost use Rattle.user_macros.specs.Registry.{refusal, is_covered};
ghost use Rattle.user_macros.specs.Functions.{named_among};
ghost use Rattle.user_macros.specs.Known.{known_among};

use crate::stored::StoredFunction;
use crate::{Answer, Call, Gather, MacroFn, MacroFunctions, Meaning};
use readtable_core::{CharacterSlot, FnName, Readtable};
use std::alloc::{AllocError, Global};

/// Why a function is not registered.
#[derive(Clone, Copy, Debug, PartialEq, Eq)]
pub enum Cause {
    /// The name begins with `STD-`, and is kept for the standard readtable.
    Reserved,
    /// The meaning has no function of this name.
    Unknown,
    /// A function is registered under this name.
    Taken,
    /// There is no memory for one more.
    OutOfMemory,
}

/// A function that was not registered, and why.
#[derive(Drop)]
pub struct RegistryRefusal {
    pub cause: Cause,
    pub function: MacroFn,
}

/// The registered macro functions of a program whose meaning is `M`.
#[derive(Drop)]
pub struct Macros<M: Meaning> {
    meaning: M,
    stored: Vec<StoredFunction>,
}

impl<M: Meaning> Macros<M> {
    /// A registry with no function. It keeps `alloc` for later functions.
    pub fn new(alloc: Global, meaning: M) -> Macros<M>
        ensures meant { ⟦<Macros<M> as MacroFunctions>⟧.meant result ≡ meaning }
        ensures registered { (⟦<Macros<M> as MacroFunctions>⟧.functions result).names ≡ [] }
        ensures answers { ⟦<Macros<M> as MacroFunctions>⟧.answers result }
    {
        Macros {
            meaning,
            stored: Vec::new(alloc),
        }
    }

    /// Registers a function, which may be called on every sound call and then answers what `M` says of the name, or out of
    /// memory. Refused as reserved, as unknown, as taken or as out of memory, in this order; then the function comes
    /// back, and nothing has changed.
    pub fn register(&mut self, name: FnName, function: MacroFn) -> Result<(), RegistryRefusal>
        requires answers { ⟦<Macros<M> as MacroFunctions>⟧.answers self.old }
        requires callable { (call : _) → IsSoundCall call → MacroFn.pre function call }
        requires as_meant { (call : _) (a : _) → IsSoundCall call
            → MacroFn.post function call (Ok a) → answer_of a ≡ M.functions.answer name (call_of call) }

        // What was registered answers as before, and the new name stands last if it was accepted.
        ensures answers { ⟦<Macros<M> as MacroFunctions>⟧.answers self.new }
        ensures meant { ⟦<Macros<M> as MacroFunctions>⟧.meant self.new
            ≡ ⟦<Macros<M> as MacroFunctions>⟧.meant self.old }
        ensures registered { (⟦<Macros<M> as MacroFunctions>⟧.functions self.new).names
            ≡ (if is_ok result then (⟦<Macros<M> as MacroFunctions>⟧.functions self.old).names ++ name ∷ []
            else (⟦<Macros<M> as MacroFunctions>⟧.functions self.old).names) }

        // It is refused with its cause, and the function comes back.
        ensures accepted { OnOk result
            (refusal M.functions.names (⟦<Macros<M> as MacroFunctions>⟧.functions self.old).names name ≡ None) }
        ensures cause { IfErr result (λ r. r.cause
            ≡ unwrap_or (refusal M.functions.names (⟦<Macros<M> as MacroFunctions>⟧.functions self.old).names name) Cause.OutOfMemory) }
        ensures given_back { IfErr result (λ r. r.function ≡ function) }
    {
        if name.as_bytes().starts_with(b"STD-") {
            return Err(RegistryRefusal {
                cause: Cause::Reserved,
                function,
            });
        }
        if !self.meaning.names().contains(&name) {
            return Err(RegistryRefusal {
                cause: Cause::Unknown,
                function,
            });
        }
        if self.find(name).is_some() {
            return Err(RegistryRefusal {
                cause: Cause::Taken,
                function,
            });
        }
        match self.stored.push(StoredFunction { name, function }) {
            Ok(()) => Ok(()),
            Err(refused) => Err(RegistryRefusal {
                cause: Cause::OutOfMemory,
                function: refused.value.function,
            }),
        }
    }

    fn find(&self, name: FnName) -> Option<&StoredFunction>
        ensures found { is_some result
            ≡ is_among (map (λ s. s.name) self.now.stored.items) name }
        ensures named { IfSome result (λ s. s.now.name ≡ name) }
        ensures stored { IfSome result (λ s. Contains self.now.stored.items s.now) }
    {
        for stored in &self.stored {
            if stored.name == name {
                return Some(stored);
            }
        }
        None
    }

    fn covers_entry(&self, entry: &CharacterSlot) -> bool
        ensures { let names = map (λ s. s.name) self.now.stored.items in
            result ≡ list_all (is_covered names) (functions_at entry.now) }
    {
        self.covers_function(entry.function()) && self.covers_each(entry.dispatch())
    }

    fn covers_each(&self, functions: &[Option<FnName>]) -> bool
        ensures { let names = map (λ s. s.name) self.now.stored.items in
            result ≡ list_all (λ f. option_map_or (is_covered names) f true) functions.now }
    {
        for function in functions {
            if !self.covers_function(*function) {
                return false;
            }
        }
        true
    }

    fn covers_function(&self, function: Option<FnName>) -> bool
        ensures { let names = map (λ s. s.name) self.now.stored.items in
            result ≡ option_map_or (is_covered names) function true }
    {
        match function {
            Some(name) => { name.is_standard() || name.is_dispatch() || self.find(name).is_some() }
            None => true,
        }
    }
}

impl<M: Meaning> MacroFunctions for Macros<M> {
    type Meaning = M;

    ghost functions = { λ m. named_among (map (λ s. s.name) m.stored.items) M.functions };

    ghost meant = { λ m. m.meaning };

    ghost answers = { λ m. All (λ s. IsTrue (is_among M.functions.names s.name)) m.stored.items
        × All (λ s. (call : _) (a : _) → IsSoundCall call → MacroFn.post s.function call (Ok a)
        → answer_of a ≡ M.functions.answer s.name (call_of call)) m.stored.items };

    ghost as_meant = { λ m. refl };

    ghost known = { λ m answers name is. known_among (λ s. s.name) M.functions.names m.stored.items name answers.0 is };

    fn meaning(&self) -> &M {
        &self.meaning
    }

    fn gather_of(&self, name: FnName) -> Option<Gather> {
        match self.find(name) {
            Some(stored) => self.meaning.gather(stored.name),
            None => None,
        }
    }

    fn call(&self, name: FnName, call: Call) -> Result<Answer, AllocError> {
        let stored = self.find(name).unwrap();
        (stored.function)(call)
    }

    fn is_whole(&self) -> bool {
        for name in self.meaning.names() {
            if self.find(*name).is_none() {
                return false;
            }
        }
        true
    }

    fn covers(&self, readtable: &Readtable) -> bool {
        for entry in readtable.entries() {
            if !self.covers_entry(entry) {
                return false;
            }
        }
        true
    }
}
