//! `export`: a symbol becomes external.
ghost use Rattle.std.specs.Prelude.{◌≡◌, IfErr, IfOk};
ghost use Rattle.package_table.specs.Table.{AreSoundPackages};
ghost use Rattle.package_table.specs.Changes.{after_export, export_changes, with_external, AnswersPackages, RunsOutOnlyIf, TellsChange, Yields};
ghost use Rattle.package_table.specs.Growth.{Grows, TellsOfChange};
ghost use Rattle.package_table.specs.Numbers.{table_now};
ghost use Rattle.package_table.specs.Numbering.{KeepsNumbers};
ghost use Rattle.package_table.specs.Meaning.{numbered_of};
ghost use Rattle.package_table.specs.Adds.{AddsNoSymbol, HasFixedNumbers};

use crate::conflicts::{finds_this, user_finds_other};
use crate::find::is_locked;
use crate::look_ups::{external_home, has_package};
use crate::put::put_external;
use crate::{PackageError, Packages};
use package_sets::PackageSets;

// The first reason to refuse that this symbol becomes external in `owner`, and else
// whether it is not external yet.
fn export_refusal(
    sets: &PackageSets,
    owner: &[u8],
    home: &[u8],
    name: &[u8],
) -> Result<bool, PackageError>
    requires { AreSoundPackages (numbered_of sets.now).0 }
    ensures gives { let t = (numbered_of sets.now).0 in
        AnswersPackages (λ _. with_external t owner.now home.now name.now) result
        (after_export t owner.now home.now name.now) }
    ensures changes { TellsChange
        (export_changes (numbered_of sets.now).0 owner.now name.now) result }
{
    if !has_package(sets, owner) {
        return Err(PackageError::NoSuchPackage);
    }
    if is_locked(owner) {
        return Err(PackageError::PackageIsLocked);
    }
    if !finds_this(sets, owner, home, name) {
        return Err(PackageError::NotAccessible);
    }
    if user_finds_other(sets, owner, home, name) {
        return Err(PackageError::NameConflict);
    }
    Ok(external_home(sets, owner, name).is_none())
}

fn export_symbol(
    sets: &mut PackageSets,
    owner: &[u8],
    home: &[u8],
    name: &[u8],
) -> Result<bool, PackageError>
    requires sound { AreSoundPackages (numbered_of sets.old).0 }
    requires placed { HasFixedNumbers sets.old }
    ensures gives { AnswersPackages (λ _. (numbered_of sets.new).0) result
        (after_export (numbered_of sets.old).0 owner.now home.now name.now) }
    ensures changed { TellsChange
        (export_changes (numbered_of sets.old).0 owner.now name.now) result }
    ensures unchanged { IfErr result (λ _. sets.new ≡ sets.old) }
    ensures adds { IfOk result (λ _. AddsNoSymbol sets.old sets.new) }
{
    sets.goodness();
    if !export_refusal(sets, owner, home, name)? {
        return Ok(false);
    }
    put_external(sets, owner, home, name)?;
    Ok(true)
}

impl Packages {
    /// Makes the symbol of this home and name external in `owner` (standard 11.2, `export`). One that `owner` inherits
    /// is imported first. Gives whether the packages changed: not if it was external there.
    ///
    /// # Errors
    /// `NoSuchPackage` if no package has the name `owner`; `PackageIsLocked` for COMMON-LISP and KEYWORD;
    /// `NotAccessible` if `owner` does not find this symbol by its name; `NameConflict` if a package that uses
    /// `owner` finds another symbol by that name; `OutOfMemory` if memory runs out. Nothing is changed then.
    pub fn export(&mut self, owner: &[u8], home: &[u8], name: &[u8]) -> Result<bool, PackageError>
        ensures gives { AnswersPackages (λ _. self.new.0) result
            (after_export self.old.0 owner.now home.now name.now) }
        ensures changed { Yields result (export_changes self.old.0 owner.now name.now) }
        ensures exactly { IfOk result (λ changed. TellsOfChange changed self.old.0 self.new.0) }
        ensures grows { Grows self.old.0 self.new.0 }
        ensures memory { IfErr result
            (RunsOutOnlyIf (export_changes self.old.0 owner.now name.now)) }
        ensures unchanged { IfErr result (λ _. self.new ≡ self.old) }
        ensures numbers { KeepsNumbers (table_now self.old) (table_now self.new) }
        ensures marked { self.new.1.marked ≡ self.old.1.marked }
    {
        export_symbol(&mut self.sets, owner, home, name)
    }
}
