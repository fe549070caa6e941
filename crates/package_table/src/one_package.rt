//! One package of several, which is sought once.
ghost use Rattle.std.specs.Prelude.{◌≡◌, ◌<◌, length};
ghost use Rattle.package_sets.specs.KeptSets.{name_at};
ghost use Rattle.package_table.specs.Table.{AreUsesSound};
ghost use Rattle.package_table.specs.Meaning.{numbered_of};
ghost use Rattle.package_table.specs.Resolving.{resolution, resolution_of, AnswersLookUp};

use crate::look_ups::found_home;
use crate::standardized::COMMON_LISP;
use crate::{PackageError, Resolved};
use package_sets::PackageSets;
use std::marker::Model;

/// One of some packages, by its number, so that it is not sought again for each name. Contracts see the packages and its
/// name.
#[derive(Drop)]
pub struct OnePackage<'a> {
    sets: &'a PackageSets,
    number: u32,
}

impl<'a> Model for OnePackage<'a> {
    ghost use Rattle.std.specs.Prelude.{◌<◌, length};
    ghost use Rattle.std.specs.Coded.{coded×};
    ghost use Rattle.package_sets.specs.KeptSets.{name_at};
    ghost use Rattle.package_table.specs.Table.{Name, Table, name_code, table_code, AreUsesSound};
    ghost use Rattle.package_table.specs.Meaning.{numbered_of};

    ghost Value = { Table × Name };

    ghost coded = { coded× table_code name_code };

    ghost view = { λ p. ((numbered_of p.sets.now).0, name_at p.sets.now.packages p.number) };

    ghost invariant = { λ p.
        (p.number < length p.sets.now.packages) × AreUsesSound (numbered_of p.sets.now).0 };
}

impl<'a> OnePackage<'a> {
    /// The package of this number.
    pub(crate) fn at(sets: &'a PackageSets, number: u32) -> OnePackage<'a>
        requires package { number < length sets.now.packages }
        requires joined { AreUsesSound (numbered_of sets.now).0 }
        ensures { result ≡ ((numbered_of sets.now).0, name_at sets.now.packages number) }
    {
        OnePackage { sets, number }
    }

    /// What `name` stands for in this package (standard 2.3.5): the symbol that it finds, or a new one. Takes no memory.
    ///
    /// # Errors
    /// `LockedPackage` for a new name in COMMON-LISP.
    #[inline]
    pub fn resolve(&self, name: &[u8]) -> Result<Resolved<'a>, PackageError>
        ensures { AnswersLookUp resolution_of result (resolution self.now.0 self.now.1 name.now) }
    {
        if let Some(home) = found_home(self.sets, self.number, name) {
            return Ok(Resolved::Found(home));
        }
        let owner = self.sets.package(self.number);
        if owner == COMMON_LISP {
            return Err(PackageError::LockedPackage);
        }
        Ok(Resolved::New(owner))
    }
}
