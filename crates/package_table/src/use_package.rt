//! `use_package`: a package uses another.
ghost use Rattle.std.specs.Prelude.{◌≡◌, if◌then◌else◌, IfErr, IfOk};
ghost use Rattle.package_table.specs.Table.{with_used, AreSoundPackages};
ghost use Rattle.package_table.specs.Changes.{after_use, use_changes, AnswersPackages, RunsOutOnlyIf, TellsChange, Yields};
ghost use Rattle.package_table.specs.Growth.{Grows, TellsOfChange};
ghost use Rattle.package_table.specs.Numbers.{table_now};
ghost use Rattle.package_table.specs.Numbering.{KeepsNumbers};
ghost use Rattle.package_table.specs.Meaning.{numbered_of};
ghost use Rattle.package_table.specs.Adds.{AddsNoSymbol, HasFixedNumbers};

use crate::conflicts::finds_other_than_shown;
use crate::find::is_locked;
use crate::look_ups::{has_package, is_used};
use crate::put::put_use;
use crate::standardized::KEYWORD;
use crate::{PackageError, Packages};
use package_sets::PackageSets;

// The first reason to refuse that `owner` uses `used`, and else whether it does not use it yet.
fn use_refusal(sets: &PackageSets, owner: &[u8], used: &[u8]) -> Result<bool, PackageError>
    requires sound { AreSoundPackages (numbered_of sets.now).0 }
    requires placed { HasFixedNumbers sets.now }
    ensures gives { let t = (numbered_of sets.now).0 in
        AnswersPackages (λ changes. if changes then with_used t owner.now used.now else t) result
        (after_use t owner.now used.now) }
    ensures changes { TellsChange (use_changes (numbered_of sets.now).0 owner.now used.now) result }
{
    if !has_package(sets, owner) || !has_package(sets, used) {
        return Err(PackageError::NoSuchPackage);
    }
    if is_locked(owner) || used == KEYWORD {
        return Err(PackageError::PackageIsLocked);
    }
    if owner == used || is_used(sets, owner, used) {
        return Ok(false);
    }
    if finds_other_than_shown(sets, owner, used) {
        return Err(PackageError::NameConflict);
    }
    Ok(true)
}

fn use_other(sets: &mut PackageSets, owner: &[u8], used: &[u8]) -> Result<bool, PackageError>
    requires sound { AreSoundPackages (numbered_of sets.old).0 }
    requires placed { HasFixedNumbers sets.old }
    ensures gives { AnswersPackages (λ _. (numbered_of sets.new).0) result
        (after_use (numbered_of sets.old).0 owner.now used.now) }
    ensures changed { TellsChange (use_changes (numbered_of sets.old).0 owner.now used.now) result }
    ensures unchanged { IfErr result (λ _. sets.new ≡ sets.old) }
    ensures adds { IfOk result (λ _. AddsNoSymbol sets.old sets.new) }
{
    sets.goodness();
    if !use_refusal(sets, owner, used)? {
        return Ok(false);
    }
    put_use(sets, owner, used)?;
    Ok(true)
}

impl Packages {
    /// Makes `owner` use `used`, so that it finds its external symbols (standard 11.2, `use-package`). A package that
    /// is used already, and `owner` itself, are passed over. Gives whether the packages changed.
    ///
    /// # Errors
    /// `NoSuchPackage` if one of the two names names no package; `PackageIsLocked` if `owner` is COMMON-LISP or
    /// KEYWORD, or `used` is KEYWORD; `NameConflict` if `owner` finds another symbol by the name of one that is
    /// external in `used`; `OutOfMemory` if memory runs out. Nothing is changed then.
    pub fn use_package(&mut self, owner: &[u8], used: &[u8]) -> Result<bool, PackageError>
        ensures gives { AnswersPackages (λ _. self.new.0) result (after_use self.old.0 owner.now used.now) }
        ensures changed { Yields result (use_changes self.old.0 owner.now used.now) }
        ensures exactly { IfOk result (λ changed. TellsOfChange changed self.old.0 self.new.0) }
        ensures grows { Grows self.old.0 self.new.0 }
        ensures memory { IfErr result (RunsOutOnlyIf (use_changes self.old.0 owner.now used.now)) }
        ensures unchanged { IfErr result (λ _. self.new ≡ self.old) }
        ensures numbers { KeepsNumbers (table_now self.old) (table_now self.new) }
        ensures marked { self.new.1.marked ≡ self.old.1.marked }
    {
        use_other(&mut self.sets, owner, used)
    }
}
