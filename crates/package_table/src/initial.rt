//! The first packages.
ghost use Rattle.std.specs.Prelude.{◌≡◌, ◌<◌, ◌+◌, [], ◌∷◌, length, bytes_eq, Some, IfOk};
ghost use Rattle.std.specs.List.{IsDistinct};
ghost use Rattle.std.specs.FinMap as finite;
ghost use Rattle.package_sets.specs.KeptSets.{name_at};
ghost use Rattle.package_table.specs.Table.{common_lisp, common_lisp_user, empty_package, initial, keyword, package_of_names};
ghost use Rattle.package_table.specs.Readers.{names_of};
ghost use Rattle.package_table.specs.Meaning.{numbered_of};
ghost use Rattle.package_table.specs.Adds.{HasNothing, HasFixedNumbers};

use crate::standardized::{COMMON_LISP, COMMON_LISP_USER, KEYWORD};
use package_sets::{PackageSets, Seed};
use std::alloc::{AllocError, Global};

const COMMON_LISP_NAMES: [&[u8]; 31] = [
    b"*PACKAGE*",
    b"*READ-BASE*",
    b"*READTABLE*",
    b"COPY-READTABLE",
    b"EXPORT",
    b"FUNCTION",
    b"GET",
    b"GET-DISPATCH-MACRO-CHARACTER",
    b"GET-MACRO-CHARACTER",
    b"IF",
    b"IMPORT",
    b"IN-PACKAGE",
    b"IN-READTABLE",
    b"INCF",
    b"INTERN",
    b"LIST",
    b"MAKE-DISPATCH-MACRO-CHARACTER",
    b"MAKE-PACKAGE",
    b"NIL",
    b"PROGN",
    b"PUSH",
    b"QUOTE",
    b"READTABLE-CASE",
    b"REMPROP",
    b"SET-DISPATCH-MACRO-CHARACTER",
    b"SET-MACRO-CHARACTER",
    b"SET-SYNTAX-FROM-CHAR",
    b"SETF",
    b"SYMBOL-PLIST",
    b"T",
    b"USE-PACKAGE",
];

const KEYWORD_NAMES: [&[u8]; 22] = [
    b"DOWNCASE",
    b"INVERT",
    b"PRESERVE",
    b"STANDARD",
    b"STD-BINARY",
    b"STD-BLOCK",
    b"STD-CHAR",
    b"STD-CLOSE",
    b"STD-COMMENT",
    b"STD-DISPATCH",
    b"STD-FUNCTION",
    b"STD-HEX",
    b"STD-LIST",
    b"STD-OCTAL",
    b"STD-OUT",
    b"STD-QUOTE",
    b"STD-RADIX",
    b"STD-STRING",
    b"STD-UNINTERNED",
    b"STD-VECTOR",
    b"UPCASE",
    b"USER",
];

// The three packages, which have no symbols and use nothing.
fn three_packages(alloc: Global, seed: Seed) -> Result<PackageSets, AllocError>
    ensures packages { IfOk result
        (λ sets. sets.packages ≡ common_lisp ∷ keyword ∷ common_lisp_user ∷ []) }
    ensures nothing { IfOk result HasNothing }
{
    let mut sets = PackageSets::new(alloc, seed);
    sets.make(COMMON_LISP)?;
    sets.make(KEYWORD)?;
    sets.make(COMMON_LISP_USER)?;
    Ok(sets)
}

// Makes symbols of these names, all at home in a package that is locked and has none yet.
fn add_names(sets: &mut PackageSets, owner: u32, names: &[&[u8]]) -> Result<(), AllocError>
    requires owner { owner < length sets.old.packages }
    requires locked { owner < 2 }
    requires fresh { finite.get (numbered_of sets.old).0 (name_at sets.old.packages owner)
        ≡ Some empty_package }
    requires distinct { IsDistinct bytes_eq (names_of names.now) }
    ensures table { let p = name_at sets.old.packages owner in IfOk result
        (λ _. (numbered_of sets.new).0
        ≡ finite.insert (numbered_of sets.old).0 p (package_of_names p (names_of names.now))) }

    // One symbol more for each name; packages, imports, external symbols and uses are as they were.
    ensures packages { IfOk result (λ _. sets.new.packages ≡ sets.old.packages) }
    ensures imports { IfOk result (λ _. sets.new.imports ≡ sets.old.imports) }
    ensures externals { IfOk result (λ _. sets.new.externals ≡ sets.old.externals) }
    ensures uses { IfOk result (λ _. sets.new.uses ≡ sets.old.uses) }
    ensures count { IfOk result
        (λ _. length sets.new.symbols ≡ length sets.old.symbols + length names.now) }
{
    for name in names {
        sets.goodness();
        sets.intern(owner, name)?;
    }
    sets.goodness();
    Ok(())
}

/// The first packages.
pub(crate) fn first_packages(alloc: Global, seed: Seed) -> Result<PackageSets, AllocError>
    ensures table { IfOk result (λ sets. (numbered_of sets).0 ≡ initial) }
    ensures placed { IfOk result HasFixedNumbers }
    ensures count { IfOk result (λ sets. length sets.symbols ≡ 53) }
{
    let mut sets = three_packages(alloc, seed)?;
    sets.goodness();
    add_names(&mut sets, 0, &COMMON_LISP_NAMES)?;
    sets.goodness();
    add_names(&mut sets, 1, &KEYWORD_NAMES)?;
    sets.goodness();
    sets.use_package(2, 0)?;
    Ok(sets)
}
