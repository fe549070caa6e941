//! The packages, and the calls on them.
ghost use Rattle.std.specs.Prelude.{◌≡◌, [], IfOk, IfErr, IfSome, option_map};
ghost use Rattle.package_table.specs.Table.{initial, is_locked, package_named, symbol_count, IsPackage, AreSoundPackages};
ghost use Rattle.package_table.specs.Numbers.{table_now, without_marks};
ghost use Rattle.package_table.specs.Numbering.{AreSymbolsNumbered};
ghost use Rattle.package_table.specs.Resolving.{resolution, external_resolution, internal_resolution, resolution_of, AnswersLookUp};
ghost use Rattle.package_table.specs.Readers.{names_of, package_names, used_names, own_names, external_names, imports, ListRefused};

use crate::find::{is_locked, package_name};
use crate::initial::first_packages;
use crate::look_ups::package_number;
use crate::resolve::{resolve_external, resolve_internal};
use crate::{OnePackage, PackageError, Resolved, lists};
use lisp_object::{Bytes, Items};
use package_sets::{PackageSets, Seed, Sizes};
use std::alloc::{AllocError, Global};
use std::marker::Model;

/// Packages (standard 11.1). Contracts see them as a `Table`, and beside it the numbers of its symbols and the tables
/// that were marked.
pub struct Packages {
    pub(crate) alloc: Global,
    pub(crate) sets: PackageSets,
    // How much was kept at each mark.
    pub(crate) marks: Vec<Sizes>,
}

// A call, so that a crate above does not see what is kept at each exit of a function that owns packages.
impl Drop for Packages {
    fn drop(self) {
        let Packages {
            alloc: _,
            sets: _,
            marks: _,
        } = self;
    }
}

impl Model for Packages {
    ghost use Rattle.package_table.specs.Numbers.{Tables, tables_code};

    ghost Value = { Tables };

    ghost coded = { tables_code };

    ghost use Rattle.package_table.specs.Views.{tables_of, HasKeptTable};

    ghost view = { tables_of };

    ghost invariant = { HasKeptTable };
}

impl Packages {
    /// The first packages: COMMON-LISP, COMMON-LISP-USER, which uses it, and KEYWORD. They keep `alloc` for later
    /// changes.
    pub fn new(alloc: Global) -> Result<Packages, AllocError>
        ensures table { IfOk result (λ packages. packages.0 ≡ initial) }
        ensures marked { IfOk result (λ packages. packages.1.marked ≡ []) }
    {
        Packages::with_seed(alloc, Seed::fixed())
    }

    /// The first packages, as `new` makes them, with names hashed by this seed: who does not know it cannot choose
    /// names that fall together.
    pub fn with_seed(alloc: Global, seed: Seed) -> Result<Packages, AllocError>
        ensures table { IfOk result (λ packages. packages.0 ≡ initial) }
        ensures marked { IfOk result (λ packages. packages.1.marked ≡ []) }
    {
        let sets = first_packages(alloc, seed)?;
        sets.goodness();
        Ok(Packages {
            alloc,
            sets,
            marks: Vec::new(alloc),
        })
    }

    /// The same packages with the same numbers and the same seed, on their own memory, and nothing marked.
    pub fn copy(&self, alloc: Global) -> Result<Packages, AllocError>
        ensures { IfOk result (λ packages. packages ≡ without_marks self.now) }
    {
        Ok(Packages {
            alloc,
            sets: self.sets.copy(alloc)?,
            marks: Vec::new(alloc),
        })
    }

    /// What holds of all packages: no package finds two symbols by one name, and so on. For proofs: it does nothing.
    pub fn soundness(&self)
        ensures { AreSoundPackages self.now.0 }
    {
        self.sets.goodness();
    }

    /// Each symbol has a number, which is below how many there are, and two symbols have two. For proofs: it does
    /// nothing.
    pub fn numbering(&self)
        ensures { AreSymbolsNumbered (table_now self.now) (symbol_count self.now.0) }
    {
        self.sets.goodness();
    }

    /// The names of the packages, sorted by their bytes.
    pub fn names(&self, alloc: Global) -> Result<Items<Bytes>, AllocError>
        ensures { IfOk result (λ names. names ≡ package_names self.now.0) }
    {
        lists::names(&self.sets, alloc)
    }

    /// The same names in the same order, as the packages have them: no name is copied.
    pub fn package_names(&self, alloc: Global) -> Result<Vec<&[u8]>, AllocError>
        ensures { IfOk result (λ names. names_of names.items ≡ package_names self.now.0) }
    {
        lists::package_names(&self.sets, alloc)
    }

    /// The names of the packages that `owner` uses, sorted by their bytes.
    ///
    /// # Errors
    /// `NoSuchPackage` if no package has the name `owner`; `OutOfMemory` if memory runs out.
    pub fn uses(&self, alloc: Global, owner: &[u8]) -> Result<Items<Bytes>, PackageError>
        ensures list { IfOk result (λ names. names ≡ used_names self.now.0 owner.now) }
        ensures there { IfOk result (λ _. IsPackage self.now.0 owner.now) }
        ensures refused { IfErr result (ListRefused self.now.0 owner.now) }
    {
        lists::uses(&self.sets, alloc, owner)
    }

    /// The names of the symbols at home in `owner`, sorted by their bytes.
    ///
    /// # Errors
    /// `NoSuchPackage` if no package has the name `owner`; `OutOfMemory` if memory runs out.
    pub fn own(&self, alloc: Global, owner: &[u8]) -> Result<Items<Bytes>, PackageError>
        ensures list { IfOk result (λ names. names ≡ own_names self.now.0 owner.now) }
        ensures there { IfOk result (λ _. IsPackage self.now.0 owner.now) }
        ensures refused { IfErr result (ListRefused self.now.0 owner.now) }
    {
        lists::own(&self.sets, alloc, owner)
    }

    /// The same names in the same order, as the packages have them: no name is copied.
    ///
    /// # Errors
    /// `NoSuchPackage` if no package has the name `owner`; `OutOfMemory` if memory runs out.
    pub fn own_names(&self, alloc: Global, owner: &[u8]) -> Result<Vec<&[u8]>, PackageError>
        ensures list { IfOk result
            (λ names. names_of names.items ≡ own_names self.now.0 owner.now) }
        ensures there { IfOk result (λ _. IsPackage self.now.0 owner.now) }
        ensures refused { IfErr result (ListRefused self.now.0 owner.now) }
    {
        lists::own_names(&self.sets, alloc, owner)
    }

    /// The names that are external in `owner`, sorted by their bytes.
    ///
    /// # Errors
    /// `NoSuchPackage` if no package has the name `owner`; `OutOfMemory` if memory runs out.
    pub fn externals(&self, alloc: Global, owner: &[u8]) -> Result<Items<Bytes>, PackageError>
        ensures list { IfOk result (λ names. names ≡ external_names self.now.0 owner.now) }
        ensures there { IfOk result (λ _. IsPackage self.now.0 owner.now) }
        ensures refused { IfErr result (ListRefused self.now.0 owner.now) }
    {
        lists::externals(&self.sets, alloc, owner)
    }

    /// The same names in the same order, as the packages have them: no name is copied.
    ///
    /// # Errors
    /// `NoSuchPackage` if no package has the name `owner`; `OutOfMemory` if memory runs out.
    pub fn external_names(&self, alloc: Global, owner: &[u8]) -> Result<Vec<&[u8]>, PackageError>
        ensures list { IfOk result
            (λ names. names_of names.items ≡ external_names self.now.0 owner.now) }
        ensures there { IfOk result (λ _. IsPackage self.now.0 owner.now) }
        ensures refused { IfErr result (ListRefused self.now.0 owner.now) }
    {
        lists::external_names(&self.sets, alloc, owner)
    }

    /// The names that are present in `owner` with another home, each with the name of that home, sorted by their bytes.
    ///
    /// # Errors
    /// `NoSuchPackage` if no package has the name `owner`; `OutOfMemory` if memory runs out.
    pub fn imports(
        &self,
        alloc: Global,
        owner: &[u8],
    ) -> Result<Items<(Bytes, Bytes)>, PackageError>
        ensures list { IfOk result (λ names. names ≡ imports self.now.0 owner.now) }
        ensures there { IfOk result (λ _. IsPackage self.now.0 owner.now) }
        ensures refused { IfErr result (ListRefused self.now.0 owner.now) }
    {
        lists::imports(&self.sets, alloc, owner)
    }

    /// The name of the package that has `name` as its name or nickname: CL stands for COMMON-LISP, and CL-USER for
    /// COMMON-LISP-USER. Takes no memory.
    pub fn find(&self, name: &[u8]) -> Option<&[u8]>
        ensures named { option_map (λ p. p.now) result ≡ package_named self.now.0 name.now }
        ensures there { IfSome result (λ p. IsPackage self.now.0 p.now) }
    {
        package_name(&self.sets, name)
    }

    /// Whether the package of this name is locked: COMMON-LISP, to which no name is added, and KEYWORD. Takes no
    /// memory.
    pub fn is_locked(&self, owner: &[u8]) -> bool
        ensures { result ≡ is_locked owner.now }
    {
        is_locked(owner)
    }

    /// The package of this name, which exists: names are resolved in it without seeking it again. Takes no memory.
    pub fn package(&self, owner: &[u8]) -> OnePackage<'_>
        requires { IsPackage self.now.0 owner.now }
        ensures { result ≡ (self.now.0, owner.now) }
    {
        match package_number(&self.sets, owner) {
            Some(number) => OnePackage::at(&self.sets, number),
            None => unreachable!(),
        }
    }

    /// What `name` stands for in the package `current`, which exists (standard 2.3.5): the symbol that it finds, or a
    /// new one. Takes no memory.
    ///
    /// # Errors
    /// `LockedPackage` for a new name in COMMON-LISP.
    pub fn resolve(&self, current: &[u8], name: &[u8]) -> Result<Resolved<'_>, PackageError>
        requires { IsPackage self.now.0 current.now }
        ensures { AnswersLookUp resolution_of result (resolution self.now.0 current.now name.now) }
    {
        self.package(current).resolve(name)
    }

    /// The home of the external symbol `name` of the package that `prefix` names, by name or nickname (standard 2.3.5).
    /// Takes no memory.
    ///
    /// # Errors
    /// `NoPackage` if `prefix` names no package, then `NotExternal` if `name` is not external there.
    pub fn resolve_external(&self, prefix: &[u8], name: &[u8]) -> Result<&[u8], PackageError>
        ensures { AnswersLookUp (λ h. h.now) result (external_resolution self.now.0 prefix.now name.now) }
    {
        resolve_external(&self.sets, prefix, name)
    }

    /// What `name` stands for in the package that `prefix` names, by name or nickname (standard 2.3.5): the symbol
    /// that it finds, or a new one. Takes no memory.
    ///
    /// # Errors
    /// `NoPackage` if `prefix` names no package, then `LockedPackage` for a new name in COMMON-LISP.
    pub fn resolve_internal(&self, prefix: &[u8], name: &[u8]) -> Result<Resolved<'_>, PackageError>
        ensures { AnswersLookUp resolution_of result
            (internal_resolution self.now.0 prefix.now name.now) }
    {
        resolve_internal(&self.sets, prefix, name)
    }
}
