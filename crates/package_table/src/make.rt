//! `make`: a new package.
ghost use Rattle.std.specs.Prelude.{◌≡◌, ◌<◌, All, IfErr, IfOk};
ghost use Rattle.package_table.specs.Table.{AreSoundPackages, with_new_package};
ghost use Rattle.package_table.specs.Changes.{after_make, AnswersPackages};
ghost use Rattle.package_table.specs.Growth.{Grows};
ghost use Rattle.package_table.specs.Numbers.{table_now};
ghost use Rattle.package_table.specs.Numbering.{KeepsNumbers};
ghost use Rattle.package_table.specs.Meaning.{numbered_of};
ghost use Rattle.package_table.specs.Adds.{AddsNoSymbol, HasFixedNumbers};

use crate::find::package_name;
use crate::limits::MAX_PACKAGE_NAME;
use crate::look_ups::is_full_of_packages;
use crate::put::put_package;
use crate::{PackageError, Packages};
use package_sets::PackageSets;

// The first reason to refuse a new package of this name.
fn make_refusal(sets: &PackageSets, name: &[u8]) -> Result<(), PackageError>
    ensures { let t = (numbered_of sets.now).0 in
        AnswersPackages (λ _. with_new_package t name.now) result (after_make t name.now) }
{
    if name.is_empty() {
        return Err(PackageError::EmptyName);
    }
    if package_name(sets, name).is_some() {
        return Err(PackageError::PackageExists);
    }
    if is_full_of_packages(sets) || name.len() > MAX_PACKAGE_NAME {
        return Err(PackageError::Limit);
    }
    Ok(())
}

fn make_package(sets: &mut PackageSets, name: &[u8]) -> Result<(), PackageError>
    requires { AreSoundPackages (numbered_of sets.old).0 }
    ensures gives { AnswersPackages (λ _. (numbered_of sets.new).0) result
        (after_make (numbered_of sets.old).0 name.now) }
    ensures unchanged { IfErr result (λ _. sets.new ≡ sets.old) }
    ensures adds { IfOk result (λ _. AddsNoSymbol sets.old sets.new) }
{
    make_refusal(sets, name)?;
    put_package(sets, name)?;
    Ok(())
}

impl Packages {
    /// Adds a package of this name, which has no symbols and uses nothing (standard 11.2, `make-package`).
    ///
    /// # Errors
    /// `EmptyName` for the empty name; `PackageExists` if a package has `name` as its name or nickname; `Limit`
    /// if there are 1,000 packages or the name is longer than 256 bytes; `OutOfMemory` if memory runs out.
    /// Nothing is changed then.
    pub fn make(&mut self, name: &[u8]) -> Result<(), PackageError>
        requires { All (λ b. b < 128) name.now }
        ensures gives { AnswersPackages (λ _. self.new.0) result (after_make self.old.0 name.now) }
        ensures grows { Grows self.old.0 self.new.0 }
        ensures unchanged { IfErr result (λ _. self.new ≡ self.old) }
        ensures numbers { KeepsNumbers (table_now self.old) (table_now self.new) }
        ensures marked { self.new.1.marked ≡ self.old.1.marked }
    {
        make_package(&mut self.sets, name)
    }
}
