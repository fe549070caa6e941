//! What is added. After a call that fails nothing has changed.
ghost use Rattle.std.specs.Prelude.{◌≡◌, ◌<◌, length, position, bytes_eq, None, IfOk, OnOk, OnErr};
ghost use Rattle.package_sets.specs.KeptSets.{pair_at, pair_eq};
ghost use Rattle.package_sets.specs.Changes.{symbol_named, with_external_number, with_import, with_package, with_symbol, with_use};

use crate::PackageSets;
use std::alloc::AllocError;

impl PackageSets {
    /// Adds the package of a name that no package has, and gives its number.
    pub fn make(&mut self, name: &[u8]) -> Result<u32, AllocError>
        requires { position (bytes_eq name.now) self.old.packages ≡ None }
        ensures ok { OnOk result (self.new ≡ with_package self.old name.now) }
        ensures number { IfOk result (λ p. p ≡ length self.old.packages) }
        ensures err { OnErr result (self.new ≡ self.old) }
    {
        let number = self.packages.len();
        self.packages.push(self.alloc, name)?;
        Ok(number)
    }

    /// Adds the symbol of a home and a name that no symbol has, and gives its number. A name that is new is added too.
    pub fn intern(&mut self, home: u32, name: &[u8]) -> Result<u32, AllocError>
        requires home { home < length self.old.packages }
        requires absent { symbol_named self.old home name.now ≡ None }
        ensures ok { OnOk result (self.new ≡ with_symbol self.old home name.now) }
        ensures number { IfOk result (λ s. s ≡ length self.old.symbols) }
        ensures err { OnErr result (self.new ≡ self.old) }
    {
        let names = self.names.len();
        let number = self.symbols.len();
        let name = self.names.intern(self.alloc, name)?;
        if let Err(_) = self.symbols.push(self.alloc, home, name) {
            self.names.truncate(names);
            return Err(AllocError);
        }
        Ok(number)
    }

    /// Makes a package import a symbol. It imports none by that name.
    pub fn import(&mut self, owner: u32, symbol: u32) -> Result<(), AllocError>
        requires owner { owner < length self.old.packages }
        requires symbol { symbol < length self.old.symbols }
        requires absent { let name = (pair_at self.old.symbols symbol).1 in
            position (pair_eq (owner, name)) self.old.imports ≡ None }
        ensures ok { OnOk result (self.new ≡ with_import self.old owner symbol) }
        ensures err { OnErr result (self.new ≡ self.old) }
    {
        let name = self.symbols.at(symbol).second;
        self.imported.reserve(1)?;
        self.imports.push(self.alloc, owner, name)?;
        self.imported.push_reserved(symbol);
        Ok(())
    }

    /// Makes a symbol external in a package in which it is not external yet.
    pub fn show(&mut self, owner: u32, symbol: u32) -> Result<(), AllocError>
        requires owner { owner < length self.old.packages }
        requires symbol { symbol < length self.old.symbols }
        requires absent { position (pair_eq (owner, symbol)) self.old.externals ≡ None }
        ensures ok { OnOk result (self.new ≡ with_external_number self.old owner symbol) }
        ensures err { OnErr result (self.new ≡ self.old) }
    {
        let name = self.symbols.at(symbol).second;
        self.chains.reserve(name)?;
        self.externals.push(self.alloc, owner, symbol)?;
        self.chains.push_reserved(name, self.externals.len());
        Ok(())
    }

    /// Makes a package use another, which it does not.
    pub fn use_package(&mut self, owner: u32, used: u32) -> Result<(), AllocError>
        requires owner { owner < length self.old.packages }
        requires used { used < length self.old.packages }
        requires apart { owner ≡ used → ⊥ }
        requires absent { position (pair_eq (owner, used)) self.old.uses ≡ None }
        ensures ok { OnOk result (self.new ≡ with_use self.old owner used) }
        ensures err { OnErr result (self.new ≡ self.old) }
    {
        self.uses.push(self.alloc, owner, used)?;
        Ok(())
    }
}
