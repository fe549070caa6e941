//! `import`: a symbol becomes present.
ghost use Rattle.std.specs.Prelude.{◌≡◌, IfErr, IfOk};
ghost use Rattle.package_table.specs.Table.{AreUsesSound, IsPresent};
ghost use Rattle.package_table.specs.Changes.{after_import, import_changes, with_present, AnswersPackages, RunsOutOnlyIf, TellsChange, Yields};
ghost use Rattle.package_table.specs.Growth.{Grows, TellsOfChange};
ghost use Rattle.package_table.specs.Numbers.{table_now};
ghost use Rattle.package_table.specs.Numbering.{KeepsNumbers};
ghost use Rattle.package_table.specs.Meaning.{numbered_of};
ghost use Rattle.package_table.specs.Adds.{AddsNoSymbol, HasFixedNumbers};

use crate::conflicts::finds_other;
use crate::find::is_locked;
use crate::look_ups::{has_package, is_present};
use crate::put::put_import;
use crate::{PackageError, Packages};
use package_sets::PackageSets;

// The first reason to refuse that this symbol becomes present in `owner`, and else
// whether it is not present yet.
fn import_refusal(
    sets: &PackageSets,
    owner: &[u8],
    home: &[u8],
    name: &[u8],
) -> Result<bool, PackageError>
    requires { AreUsesSound (numbered_of sets.now).0 }
    ensures gives { let t = (numbered_of sets.now).0 in
        AnswersPackages (λ _. with_present t owner.now home.now name.now) result
        (after_import t owner.now home.now name.now) }
    ensures changes { TellsChange
        (import_changes (numbered_of sets.now).0 owner.now name.now) result }
{
    if !has_package(sets, owner) {
        return Err(PackageError::NoSuchPackage);
    }
    if is_locked(owner) {
        return Err(PackageError::PackageIsLocked);
    }
    if finds_other(sets, owner, home, name) {
        return Err(PackageError::NameConflict);
    }
    Ok(!is_present(sets, owner, name))
}

fn import_symbol(
    sets: &mut PackageSets,
    owner: &[u8],
    home: &[u8],
    name: &[u8],
) -> Result<bool, PackageError>
    requires symbol { IsPresent (numbered_of sets.old).0 home.now name.now home.now }
    requires joined { AreUsesSound (numbered_of sets.old).0 }
    requires placed { HasFixedNumbers sets.old }
    ensures gives { AnswersPackages (λ _. (numbered_of sets.new).0) result
        (after_import (numbered_of sets.old).0 owner.now home.now name.now) }
    ensures changed { TellsChange
        (import_changes (numbered_of sets.old).0 owner.now name.now) result }
    ensures unchanged { IfErr result (λ _. sets.new ≡ sets.old) }
    ensures adds { IfOk result (λ _. AddsNoSymbol sets.old sets.new) }
{
    sets.goodness();
    if !import_refusal(sets, owner, home, name)? {
        return Ok(false);
    }
    put_import(sets, owner, home, name)?;
    Ok(true)
}

impl Packages {
    /// Makes the symbol of this home and name present in `owner` (standard 11.2, `import`). One that `owner` inherits
    /// becomes present; one that is present stays as it is, external or not. Gives whether the packages changed.
    /// Whether there is such a symbol, `is_symbol` tells.
    ///
    /// # Errors
    /// `NoSuchPackage` if no package has the name `owner`; `PackageIsLocked` for COMMON-LISP and KEYWORD;
    /// `NameConflict` if `owner` finds another symbol by that name; `OutOfMemory` if memory runs out. Nothing is
    /// changed then.
    pub fn import(&mut self, owner: &[u8], home: &[u8], name: &[u8]) -> Result<bool, PackageError>
        requires { IsPresent self.old.0 home.now name.now home.now }
        ensures gives { AnswersPackages (λ _. self.new.0) result
            (after_import self.old.0 owner.now home.now name.now) }
        ensures changed { Yields result (import_changes self.old.0 owner.now name.now) }
        ensures exactly { IfOk result (λ changed. TellsOfChange changed self.old.0 self.new.0) }

        // Nothing goes, each symbol keeps its number, and after an error nothing has changed.
        ensures grows { Grows self.old.0 self.new.0 }
        ensures memory { IfErr result
            (RunsOutOnlyIf (import_changes self.old.0 owner.now name.now)) }
        ensures unchanged { IfErr result (λ _. self.new ≡ self.old) }
        ensures numbers { KeepsNumbers (table_now self.old) (table_now self.new) }
        ensures marked { self.new.1.marked ≡ self.old.1.marked }
    {
        import_symbol(&mut self.sets, owner, home, name)
    }
}
