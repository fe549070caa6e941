//! What is kept of the packages.
ghost use Rattle.std.specs.Prelude.{◌≡◌, length, IfOk};
ghost use Rattle.package_sets.specs.KeptSets.{cut, nothing, sizes_of};
ghost use Rattle.package_sets.specs.Consistent.{IsGood};
ghost use Rattle.package_sets.specs.SymbolChains.{external_name, AreChainsOfNames};

use crate::chains::Chains;
use crate::{Names, Pairs, Seed, Sizes, Symbols};
use std::alloc::{AllocError, Global};
use std::marker::Model;

/// What is kept of the packages. Contracts see it as a `Kept`.
pub struct PackageSets {
    pub(crate) alloc: Global,
    pub(crate) names: Names,
    pub(crate) packages: Names,
    pub(crate) symbols: Symbols,
    pub(crate) imports: Pairs,
    // For each import the number of the symbol.
    pub(crate) imported: Vec<u32>,
    pub(crate) externals: Pairs,
    // Where what is external is, by its name.
    pub(crate) chains: Chains,
    pub(crate) uses: Pairs,
}

// Dropping is a call, so that a crate above does not see each of these lists at each exit of a function that owns packages.
impl Drop for PackageSets {
    fn drop(self) {
        let PackageSets {
            alloc: _,
            names: _,
            packages: _,
            symbols: _,
            imports: _,
            imported: _,
            externals: _,
            chains: _,
            uses: _,
        } = self;
    }
}

impl Model for PackageSets {
    ghost use Rattle.package_sets.specs.KeptSets.{Kept, kept_code};

    ghost Value = { Kept };

    ghost coded = { kept_code };

    ghost use Rattle.package_sets.specs.Views.{kept_of, HasKeptSets};

    ghost view = { kept_of };

    ghost invariant = { HasKeptSets };
}

impl PackageSets {
    /// No packages. They keep `alloc` for later changes, and hash by `seed`.
    pub fn new(alloc: Global, seed: Seed) -> PackageSets
        ensures { result ≡ nothing }
    {
        PackageSets {
            alloc,
            names: Names::new(alloc, seed),
            packages: Names::new(alloc, seed),
            symbols: Symbols::new(alloc, seed),
            imports: Pairs::new(alloc, seed),
            imported: Vec::new(alloc),
            externals: Pairs::new(alloc, seed),
            chains: Chains::new(alloc),
            uses: Pairs::new(alloc, seed),
        }
    }

    /// The same with the same numbers and the same seed, on its own memory.
    pub fn copy(&self, alloc: Global) -> Result<PackageSets, AllocError>
        ensures { IfOk result (λ sets. sets ≡ self.now) }
    {
        let imported = Vec::from_slice(alloc, self.imported.as_slice())?;
        let chains = self.chains.copy(alloc)?;
        self.copy_with(alloc, imported, chains)
    }

    // The same, where these two are copied.
    fn copy_with(
        &self,
        alloc: Global,
        imported: Vec<u32>,
        chains: Chains,
    ) -> Result<PackageSets, AllocError>
        requires imported { imported.items ≡ self.now.imported }
        requires chained { AreChainsOfNames (external_name self.now.symbols self.now.externals)
            (length self.now.externals) chains }
        ensures { IfOk result (λ sets. sets ≡ self.now) }
    {
        let names = self.names.copy()?;
        let packages = self.packages.copy()?;
        let symbols = self.symbols.copy(alloc)?;
        let imports = self.imports.copy()?;
        let externals = self.externals.copy()?;
        let uses = self.uses.copy()?;
        Ok(PackageSets {
            alloc,
            names,
            packages,
            symbols,
            imports,
            imported,
            externals,
            chains,
            uses,
        })
    }

    /// What holds of all that is kept. For proofs: it does nothing.
    pub fn goodness(&self)
        ensures { IsGood self.now }
    {
        let _ = &self.names;
    }

    /// How long the lists are, so that they can be cut to it later.
    pub fn sizes(&self) -> Sizes
        ensures { result ≡ sizes_of self.now }
    {
        Sizes {
            names: self.names.len(),
            packages: self.packages.len(),
            symbols: self.symbols.len(),
            imports: self.imports.len(),
            externals: self.externals.len(),
            uses: self.uses.len(),
        }
    }

    /// Keeps what there was when the lists had these lengths. Takes no memory, and time in proportion to what goes.
    pub fn cut(&mut self, sizes: Sizes)
        requires { IsGood (cut sizes self.old) }
        ensures { self.new ≡ cut sizes self.old }
    {
        self.chains
            .truncate(&self.symbols, &self.externals, sizes.externals);
        self.names.truncate(sizes.names);
        self.packages.truncate(sizes.packages);
        self.symbols.truncate(sizes.symbols);
        self.imports.truncate(sizes.imports);
        self.imported.truncate(sizes.imports as usize);
        self.externals.truncate(sizes.externals);
        self.uses.truncate(sizes.uses);
    }
}
