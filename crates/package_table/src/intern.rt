//! `intern`: the symbol of a name in a package, new if there is none.
ghost use Rattle.std.specs.Prelude.{◌≡◌, ◌<◌, All, Some, IfErr, IfOk, length};
ghost use Rattle.package_sets.specs.KeptSets.{name_at};
ghost use Rattle.package_table.specs.Table.{AreUsesSound, IsPackage, symbol_count};
ghost use Rattle.package_table.specs.Lookup.{home_by_name};
ghost use Rattle.package_table.specs.Changes.{after_intern, intern_changes, AnswersPackages};
ghost use Rattle.package_table.specs.Growth.{Grows, IsSameBut, TellsOfChange};
ghost use Rattle.package_table.specs.Numbers.{table_now};
ghost use Rattle.package_table.specs.Numbering.{KeepsNumbers};
ghost use Rattle.package_table.specs.Meaning.{numbered_of};
ghost use Rattle.package_table.specs.Adds.{Adds, HasFixedNumbers};

use crate::limits::{MAX_SYMBOL_NAME, MAX_SYMBOLS};
use crate::look_ups::{found_home, package_number};
use crate::put::put_new;
use crate::standardized::COMMON_LISP;
use crate::{PackageError, Packages};
use lisp_object::Bytes;
use package_sets::PackageSets;
use std::alloc::Global;

/// The symbol that `intern` gives: the name of its home, and whether it was made.
#[derive(Debug, Drop)]
pub struct Interned {
    pub home: Bytes,
    pub is_new: bool,
}

// In the package of a number.
fn intern_in(
    alloc: Global,
    sets: &mut PackageSets,
    owner: u32,
    name: &[u8],
) -> Result<Interned, PackageError>
    requires owner { owner < length sets.old.packages }
    requires package { IsPackage (numbered_of sets.old).0 (name_at sets.old.packages owner) }
    requires counted { length sets.old.symbols ≡ symbol_count (numbered_of sets.old).0 }
    requires joined { AreUsesSound (numbered_of sets.old).0 }
    requires placed { HasFixedNumbers sets.old }

    // It gives what the definition says; numbers are only added, and after an error nothing has changed.
    ensures gives { AnswersPackages (λ interned. (interned.home, (numbered_of sets.new).0)) result
        (after_intern (numbered_of sets.old).0 (name_at sets.old.packages owner) name.now) }
    ensures is_new { let p = name_at sets.old.packages owner in IfOk result
        (λ interned. interned.is_new ≡ intern_changes (numbered_of sets.old).0 p name.now) }
    ensures unchanged { IfErr result (λ _. sets.new ≡ sets.old) }
    ensures adds { IfOk result (λ _. Adds sets.old sets.new) }
    ensures counted { length sets.new.symbols ≡ symbol_count (numbered_of sets.new).0 }
{
    sets.goodness();
    if let Some(home) = found_home(sets, owner, name) {
        let home = Bytes::from_slice(alloc, home)?;
        return Ok(Interned {
            home,
            is_new: false,
        });
    }
    if sets.package(owner) == COMMON_LISP {
        return Err(PackageError::PackageIsLocked);
    }
    if name.len() > MAX_SYMBOL_NAME || sets.symbol_count() as u64 >= MAX_SYMBOLS {
        return Err(PackageError::Limit);
    }
    let home = Bytes::from_slice(alloc, sets.package(owner))?;
    put_new(sets, owner, name)?;
    Ok(Interned { home, is_new: true })
}

fn intern_symbol(
    alloc: Global,
    sets: &mut PackageSets,
    owner: &[u8],
    name: &[u8],
) -> Result<Interned, PackageError>
    requires counted { length sets.old.symbols ≡ symbol_count (numbered_of sets.old).0 }
    requires joined { AreUsesSound (numbered_of sets.old).0 }
    requires placed { HasFixedNumbers sets.old }
    ensures gives { AnswersPackages (λ interned. (interned.home, (numbered_of sets.new).0)) result
        (after_intern (numbered_of sets.old).0 owner.now name.now) }
    ensures is_new { IfOk result
        (λ interned. interned.is_new ≡ intern_changes (numbered_of sets.old).0 owner.now name.now) }
    ensures unchanged { IfErr result (λ _. sets.new ≡ sets.old) }
    ensures adds { IfOk result (λ _. Adds sets.old sets.new) }
    ensures counted { length sets.new.symbols ≡ symbol_count (numbered_of sets.new).0 }
{
    match package_number(sets, owner) {
        Some(number) => intern_in(alloc, sets, number, name),
        None => Err(PackageError::NoSuchPackage),
    }
}

impl Packages {
    /// The symbol that `owner` finds by `name`, or the new symbol that is made, whose home is `owner` (standard 11.2,
    /// `intern`). A new symbol of KEYWORD is external. No other name finds another symbol than before.
    ///
    /// # Errors
    /// `NoSuchPackage` if no package has the name `owner`; for a new name, `PackageIsLocked` in COMMON-LISP, and
    /// `Limit` if it is longer than 4,096 bytes or there are 1,000,000 symbols; `OutOfMemory` if memory runs
    /// out. Nothing is changed then.
    pub fn intern(&mut self, owner: &[u8], name: &[u8]) -> Result<Interned, PackageError>
        requires { All (λ b. b < 128) name.now }
        ensures gives { AnswersPackages (λ interned. (interned.home, self.new.0)) result
            (after_intern self.old.0 owner.now name.now) }
        ensures is_new { IfOk result
            (λ interned. interned.is_new ≡ intern_changes self.old.0 owner.now name.now) }
        ensures exactly { IfOk result (λ interned. TellsOfChange interned.is_new self.old.0 self.new.0) }
        ensures finds { IfOk result
            (λ interned. home_by_name self.new.0 owner.now name.now ≡ Some interned.home) }

        // No other name finds another symbol, nothing goes, and each symbol keeps its number; after an error nothing has changed.
        ensures others { IsSameBut self.old.0 self.new.0 owner.now name.now }
        ensures grows { Grows self.old.0 self.new.0 }
        ensures unchanged { IfErr result (λ _. self.new ≡ self.old) }
        ensures numbers { KeepsNumbers (table_now self.old) (table_now self.new) }
        ensures marked { self.new.1.marked ≡ self.old.1.marked }
    {
        intern_symbol(self.alloc, &mut self.sets, owner, name)
    }
}
