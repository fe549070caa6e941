//! Interned symbols, owned and borrowed.
ghost use Rattle.std.specs.Prelude.{◌≡◌, IfOk};
ghost use Rattle.plist_state.specs.Views.{symbol_of, symbol_named};

use lisp_object::Bytes;
use std::alloc::{AllocError, Global};

/// An interned symbol: the name of its home package, and its own name, of bytes below 128. Symbols are compared by
/// their homes and then by their names.
#[derive(Debug, PartialEq, Eq, Drop)]
pub struct Symbol {
    pub home: Bytes,
    pub name: Bytes,
}

impl Symbol {
    /// The symbol of this home and name, of which it takes copies.
    pub fn from_bytes(alloc: Global, home: &[u8], name: &[u8]) -> Result<Symbol, AllocError>
        ensures { IfOk result (λ s. symbol_of s ≡ (home.now, name.now)) }
    {
        let home = Bytes::from_slice(alloc, home)?;
        let name = Bytes::from_slice(alloc, name)?;
        Ok(Symbol { home, name })
    }

    /// The same symbol, by borrow.
    pub fn borrowed(&self) -> BorrowedSymbol<'_>
        ensures { symbol_named result ≡ symbol_of self.now }
    {
        BorrowedSymbol {
            home: self.home(),
            name: self.name(),
        }
    }

    /// The name of its home package.
    pub fn home(&self) -> &[u8]
        ensures { result.now ≡ (symbol_of self.now).0 }
    {
        self.home.as_slice()
    }

    /// Its name.
    pub fn name(&self) -> &[u8]
        ensures { result.now ≡ (symbol_of self.now).1 }
    {
        self.name.as_slice()
    }
}

/// An interned symbol by the name of its home package and its own name, where they stand.
#[derive(Clone, Copy, Debug)]
pub struct BorrowedSymbol<'a> {
    pub home: &'a [u8],
    pub name: &'a [u8],
}
