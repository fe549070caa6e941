//! The calls that change packages, and the current one. Each is the call of package_table.
ghost use Rattle.std.specs.Prelude.{◌≡◌, ◌<◌, All, Some, IfErr, IfOk};
ghost use Rattle.package_table.specs.Table.{IsPresent};
ghost use Rattle.package_table.specs.Lookup.{home_by_name};
ghost use Rattle.package_table.specs.Changes.{after_make, after_intern, after_export, after_import, after_use, intern_changes, export_changes, import_changes, use_changes, AnswersPackages};
ghost use Rattle.package_table.specs.Growth.{Grows, TellsOfChange, IsSameBut};
ghost use Rattle.plist_state.specs.Changes.{with_packages, after_in_package};
ghost use Rattle.plist_state.specs.PackageCalls.{ChangesPackages};

use crate::World;
use crate::journal::{push_note, reserve_named};
use crate::note::Note;
use package_table::{Interned, PackageError};
use std::mem;

impl World {
    /// Adds a package (standard 11.2, `make-package`), as `Packages::make` does.
    ///
    /// # Errors
    /// Those of `Packages::make`. Nothing has changed then.
    pub fn make(&mut self, name: &[u8]) -> Result<(), PackageError>
        requires { All (λ b. b < 128) name.now }
        ensures gives { AnswersPackages (λ _. self.new.0.packages) result
            (after_make self.old.0.packages name.now) }
        ensures rest { self.new ≡ (with_packages self.old.0 self.new.0.packages, self.old.1) }
        ensures grows { Grows self.old.0.packages self.new.0.packages }
        ensures unchanged { IfErr result (λ _. self.new ≡ self.old) }
    {
        let result = self.packages.make(name);
        self.packages.soundness();
        self.packages.numbering();
        result
    }

    /// The symbol that a package finds by a name, or the new one that is made (standard 11.2, `intern`), as
    /// `Packages::intern` gives it.
    ///
    /// # Errors
    /// Those of `Packages::intern`. Nothing has changed then.
    pub fn intern(&mut self, owner: &[u8], name: &[u8]) -> Result<Interned, PackageError>
        requires { All (λ b. b < 128) name.now }
        ensures gives { AnswersPackages (λ interned. (interned.home, self.new.0.packages)) result
            (after_intern self.old.0.packages owner.now name.now) }
        ensures is_new { IfOk result
            (λ interned. interned.is_new ≡ intern_changes self.old.0.packages owner.now name.now) }
        ensures exactly { IfOk result
            (λ interned. TellsOfChange interned.is_new self.old.0.packages self.new.0.packages) }
        ensures finds { IfOk result
            (λ interned. home_by_name self.new.0.packages owner.now name.now ≡ Some interned.home) }

        // No other name finds another symbol, and nothing but the packages changes; after an error nothing has changed.
        ensures others { IsSameBut self.old.0.packages self.new.0.packages owner.now name.now }
        ensures rest { self.new ≡ (with_packages self.old.0 self.new.0.packages, self.old.1) }
        ensures grows { Grows self.old.0.packages self.new.0.packages }
        ensures unchanged { IfErr result (λ _. self.new ≡ self.old) }
    {
        let result = self.packages.intern(owner, name);
        self.packages.soundness();
        self.packages.numbering();
        result
    }

    /// Makes a symbol external in a package (standard 11.2, `export`), as `Packages::export` does, and gives whether the
    /// packages changed.
    ///
    /// # Errors
    /// Those of `Packages::export`. Nothing has changed then.
    pub fn export(&mut self, owner: &[u8], home: &[u8], name: &[u8]) -> Result<bool, PackageError>
        ensures { ChangesPackages self.old self.new result
            (after_export self.old.0.packages owner.now home.now name.now)
            (export_changes self.old.0.packages owner.now name.now) }
    {
        let result = self.packages.export(owner, home, name);
        self.packages.soundness();
        self.packages.numbering();
        result
    }

    /// Makes a symbol present in a package (standard 11.2, `import`), as `Packages::import` does, and gives whether the
    /// packages changed. The symbol is there.
    ///
    /// # Errors
    /// Those of `Packages::import`. Nothing has changed then.
    pub fn import(&mut self, owner: &[u8], home: &[u8], name: &[u8]) -> Result<bool, PackageError>
        requires { IsPresent self.old.0.packages home.now name.now home.now }
        ensures { ChangesPackages self.old self.new result
            (after_import self.old.0.packages owner.now home.now name.now)
            (import_changes self.old.0.packages owner.now name.now) }
    {
        let result = self.packages.import(owner, home, name);
        self.packages.soundness();
        self.packages.numbering();
        result
    }

    /// Makes a package use another (standard 11.2, `use-package`), as `Packages::use_package` does, and gives whether the
    /// packages changed.
    ///
    /// # Errors
    /// Those of `Packages::use_package`. Nothing has changed then.
    pub fn use_package(&mut self, owner: &[u8], used: &[u8]) -> Result<bool, PackageError>
        ensures { ChangesPackages self.old self.new result
            (after_use self.old.0.packages owner.now used.now)
            (use_changes self.old.0.packages owner.now used.now) }
    {
        let result = self.packages.use_package(owner, used);
        self.packages.soundness();
        self.packages.numbering();
        result
    }

    /// Makes a package current (standard 11.2, `in-package`). It is named by its name, not by a nickname.
    ///
    /// # Errors
    /// `NoSuchPackage` where no package has that name; `OutOfMemory` where memory runs out. Nothing has changed then.
    pub fn set_current_package(&mut self, name: &[u8]) -> Result<(), PackageError>
        ensures gives { AnswersPackages (λ _. self.new.0) result (after_in_package self.old.0 name.now) }
        ensures marked { self.new.1 ≡ self.old.1 }
        ensures unchanged { IfErr result (λ _. self.new ≡ self.old) }
    {
        if !self.packages.has_package(name) {
            return Err(PackageError::NoSuchPackage);
        }
        let name = reserve_named(self.alloc, &mut self.marks, name)?;
        let before = mem::replace(&mut self.stored.current_package, name);
        push_note(&mut self.marks, Note::InPackage(before));
        Ok(())
    }
}
