//! The packages of a world, made from the first line of a snapshot. No text of the line is copied but one at a time.
//! After an error the world may have a part of it: it is new, and is let go then.
ghost use Rattle.std.specs.Prelude.{◌≡◌, ◌≢◌, ◌<◌, ◌++◌, ℕ, List, [], ◌∷◌, All, length, map, IfOk};
ghost use Rattle.package_table.specs.Table.{Name, Table, common_lisp, keyword, IsPackage, IsPresent, IsExternal, AreSoundPackages, Uses};
ghost use Rattle.package_table.specs.Growth.{Grows};
ghost use Rattle.plist_state.specs.Changes.{with_packages};
ghost use Rattle.world_text.specs.Snapshot.{package_object, packages_object};
ghost use Rattle.world_text.specs.ObjectTexts.{object_text};
ghost use Rattle.snapshot_lines.specs.QuotedTexts.{unescaped, unescaped_pair, quoted_texts};
ghost use Rattle.snapshot_lines.specs.PartAnswers.{IsOfMade, OrNoMemory};
ghost use Rattle.snapshot_text.specs.Part.{IsPartOf};
ghost use Rattle.snapshot_text.specs.Phases.{IsImport, HasImport, HasOwn, HasSymbols, HasExternals, HasUses, HasItsPackages, IsRowOf, AreRowsOf, InEachPackage};

use crate::own_parts::make_own;
use plist_state::World;
use snapshot_lines::{
    BuildError, Coming, after_byte, coming_item, name_of, pairs_in, text_of, texts_in, written_text,
};
use std::alloc::{AllocError, Global};

// A package as a snapshot has it: each text as it is written.
#[derive(Drop)]
struct PackageParts<'a> {
    name: &'a [u8],
    used: Vec<&'a [u8]>,
    own: Vec<&'a [u8]>,
    shown: Vec<&'a [u8]>,
    imported: Vec<(&'a [u8], &'a [u8])>,
}

// The texts of the list that begins after a space, and what stands after it.
fn later_texts(alloc: Global, bytes: &[u8]) -> Result<(Vec<&[u8]>, &[u8]), BuildError>
    ensures texts { (names : List Name) (after : List ℕ)
        → bytes.now ≡ 32 ∷ (quoted_texts names ++ after)
        → IsOfMade result (λ read. (map (λ b. unescaped b.now) read.0.items ≡ names)
        × (read.1.now ≡ after)) }
    ensures shorter { IfOk result (λ read. length read.1.now < length bytes.now) }
{
    texts_in(alloc, after_byte(bytes, b' ')?)
}

// The package whose row begins here, and what stands after it.
fn package_parts(alloc: Global, bytes: &[u8]) -> Result<(PackageParts<'_>, &[u8]), BuildError>
    ensures row { (s : Table) (p : Name) (after : List ℕ) → AreSoundPackages s
        → bytes.now ≡ object_text s (package_object s p) ++ after
        → IsOfMade result (λ read. IsRowOf s p read.0 × (read.1.now ≡ after)) }
    ensures shorter { IfOk result (λ read. length read.1.now < length bytes.now) }
{
    let (name, rest) = written_text(after_byte(bytes, b'(')?)?;
    let (used, rest) = later_texts(alloc, rest)?;
    let (own, rest) = later_texts(alloc, rest)?;
    let (shown, rest) = later_texts(alloc, rest)?;
    let (imported, rest) = pairs_in(alloc, after_byte(rest, b' ')?)?;
    let after = after_byte(rest, b')')?;
    let parts = PackageParts {
        name,
        used,
        own,
        shown,
        imported,
    };
    Ok((parts, after))
}

fn push_parts<'a>(
    rows: &mut Vec<PackageParts<'a>>,
    parts: PackageParts<'a>,
) -> Result<(), AllocError>
    ensures { IfOk result (λ _. rows.new.items ≡ rows.old.items ++ parts.entry ∷ []) }
{
    rows.push(parts)?;
    Ok(())
}

// The rows of all packages, of which the list begins here, and what stands after it.
fn rows_in(alloc: Global, bytes: &[u8]) -> Result<(Vec<PackageParts<'_>>, &[u8]), BuildError>
    ensures { (s : Table) (after : List ℕ) → AreSoundPackages s
        → bytes.now ≡ object_text s (packages_object s) ++ after
        → IsOfMade result (λ read. AreRowsOf s read.0.items × (read.1.now ≡ after)) }
{
    let mut rows = Vec::new(alloc);
    let mut rest = bytes;
    'rows: loop {
        match coming_item(rest)? {
            Coming::End(after) => return Ok((rows, after)),
            Coming::Item(item) => {
                let (parts, after) = package_parts(alloc, item)?;
                push_parts(&mut rows, parts)?;
                rest = after;
            }
        }
    }
}

// Imports a symbol, which is given by its name and its home.
fn import_symbol(
    world: &mut World,
    owner: &[u8],
    name: &[u8],
    home: &[u8],
) -> Result<(), BuildError>
    ensures made { (s : Table) (p : Name) → HasItsPackages world.old.0.packages s → owner.now ≡ p
        → p ≢ common_lisp → IsPresent s p name.now home.now → home.now ≢ p
        → OrNoMemory (IsPartOf world.new.0.packages s
        × IsPresent world.new.0.packages p name.now home.now) result }
    ensures grows { Grows world.old.0.packages world.new.0.packages }
    ensures rest { world.new ≡ (with_packages world.old.0 world.new.0.packages, world.old.1) }
{
    if !world.packages().is_symbol(home, name) {
        return Err(BuildError::Damaged);
    }
    world.import(owner, home, name)?;
    Ok(())
}

// The same of texts as they are written.
fn import_one(
    alloc: Global,
    world: &mut World,
    owner: &[u8],
    import: (&[u8], &[u8]),
) -> Result<(), BuildError>
    ensures made { (s : Table) (p : Name) → HasItsPackages world.old.0.packages s → owner.now ≡ p
        → p ≢ common_lisp → IsImport s p (unescaped_pair import.entry)
        → OrNoMemory (IsPartOf world.new.0.packages s
        × HasImport world.new.0.packages p (unescaped_pair import.entry)) result }
    ensures grows { Grows world.old.0.packages world.new.0.packages }
    ensures rest { world.new ≡ (with_packages world.old.0 world.new.0.packages, world.old.1) }
{
    let (name, home) = import;
    let name = text_of(alloc, name)?;
    let home = text_of(alloc, home)?;
    import_symbol(world, owner, name.as_slice(), home.as_slice())
}

fn import_pairs(
    alloc: Global,
    world: &mut World,
    owner: &[u8],
    imports: &[(&[u8], &[u8])],
) -> Result<(), BuildError>
    ensures made { (s : Table) (p : Name) → HasItsPackages world.old.0.packages s → owner.now ≡ p
        → p ≢ common_lisp → All (λ b. IsImport s p (unescaped_pair b)) imports.now
        → OrNoMemory (IsPartOf world.new.0.packages s
        × All (λ b. HasImport world.new.0.packages p (unescaped_pair b)) imports.now) result }
    ensures grows { Grows world.old.0.packages world.new.0.packages }
    ensures rest { world.new ≡ (with_packages world.old.0 world.new.0.packages, world.old.1) }
{
    for import in imports {
        import_one(alloc, world, owner, *import)?;
    }
    Ok(())
}

// Imports what a package has from other homes.
fn import_each(alloc: Global, world: &mut World, row: &PackageParts<'_>) -> Result<(), BuildError>
    ensures made { (s : Table) (p : Name) → HasItsPackages world.old.0.packages s → IsRowOf s p row.now
        → p ≢ common_lisp
        → OrNoMemory (IsPartOf world.new.0.packages s
        × HasSymbols world.new.0.packages s p) result }
    ensures grows { Grows world.old.0.packages world.new.0.packages }
    ensures rest { world.new ≡ (with_packages world.old.0 world.new.0.packages, world.old.1) }
{
    let owner = text_of(alloc, row.name)?;
    import_pairs(alloc, world, owner.as_slice(), row.imported.as_slice())
}

// Makes the symbol that a package has by this name external.
fn export_symbol(world: &mut World, owner: &[u8], name: &[u8]) -> Result<(), BuildError>
    requires { All (λ b. b < 128) name.now }
    ensures made { (s : Table) (p : Name) → HasItsPackages world.old.0.packages s
        → HasSymbols world.old.0.packages s p → owner.now ≡ p → p ≢ common_lisp → p ≢ keyword
        → IsExternal s p name.now
        → OrNoMemory (IsPartOf world.new.0.packages s
        × IsExternal world.new.0.packages p name.now) result }
    ensures grows { Grows world.old.0.packages world.new.0.packages }
    ensures rest { world.new ≡ (with_packages world.old.0 world.new.0.packages, world.old.1) }
{
    world.soundness();
    let interned = world.intern(owner, name)?;
    world.export(owner, interned.home.as_slice(), name)?;
    Ok(())
}

// The same of a text as it is written.
fn export_one(alloc: Global, world: &mut World, owner: &[u8], name: &[u8]) -> Result<(), BuildError>
    ensures made { (s : Table) (p : Name) → HasItsPackages world.old.0.packages s
        → HasSymbols world.old.0.packages s p → owner.now ≡ p → p ≢ common_lisp → p ≢ keyword
        → IsExternal s p (unescaped name.now)
        → OrNoMemory (IsPartOf world.new.0.packages s
        × IsExternal world.new.0.packages p (unescaped name.now)) result }
    ensures grows { Grows world.old.0.packages world.new.0.packages }
    ensures rest { world.new ≡ (with_packages world.old.0 world.new.0.packages, world.old.1) }
{
    let name = name_of(alloc, name)?;
    export_symbol(world, owner, name.as_slice())
}

fn export_names(
    alloc: Global,
    world: &mut World,
    owner: &[u8],
    names: &[&[u8]],
) -> Result<(), BuildError>
    ensures made { (s : Table) (p : Name) → HasItsPackages world.old.0.packages s
        → HasSymbols world.old.0.packages s p → owner.now ≡ p → p ≢ common_lisp
        → All (λ b. (p ≢ keyword) × IsExternal s p (unescaped b.now)) names.now
        → OrNoMemory (IsPartOf world.new.0.packages s
        × All (λ b. IsExternal world.new.0.packages p (unescaped b.now)) names.now) result }
    ensures grows { Grows world.old.0.packages world.new.0.packages }
    ensures rest { world.new ≡ (with_packages world.old.0 world.new.0.packages, world.old.1) }
{
    for name in names {
        export_one(alloc, world, owner, name)?;
    }
    Ok(())
}

// Makes the symbols that a package has by these names external.
fn export_each(alloc: Global, world: &mut World, row: &PackageParts<'_>) -> Result<(), BuildError>
    ensures made { (s : Table) (p : Name) → HasItsPackages world.old.0.packages s
        → HasSymbols world.old.0.packages s p → IsRowOf s p row.now → p ≢ common_lisp
        → OrNoMemory (IsPartOf world.new.0.packages s
        × HasExternals world.new.0.packages s p) result }
    ensures grows { Grows world.old.0.packages world.new.0.packages }
    ensures rest { world.new ≡ (with_packages world.old.0 world.new.0.packages, world.old.1) }
{
    let owner = text_of(alloc, row.name)?;
    export_names(alloc, world, owner.as_slice(), row.shown.as_slice())?;
    world.soundness();
    Ok(())
}

// Makes a package use another.
fn use_one(alloc: Global, world: &mut World, owner: &[u8], used: &[u8]) -> Result<(), BuildError>
    ensures made { (s : Table) (p : Name) → HasItsPackages world.old.0.packages s → owner.now ≡ p
        → p ≢ common_lisp → Uses s p (unescaped used.now)
        → OrNoMemory (IsPartOf world.new.0.packages s
        × Uses world.new.0.packages p (unescaped used.now)) result }
    ensures grows { Grows world.old.0.packages world.new.0.packages }
    ensures rest { world.new ≡ (with_packages world.old.0 world.new.0.packages, world.old.1) }
{
    let used = text_of(alloc, used)?;
    world.soundness();
    world.use_package(owner, used.as_slice())?;
    Ok(())
}

fn use_names(
    alloc: Global,
    world: &mut World,
    owner: &[u8],
    names: &[&[u8]],
) -> Result<(), BuildError>
    ensures made { (s : Table) (p : Name) → HasItsPackages world.old.0.packages s → owner.now ≡ p
        → p ≢ common_lisp → All (λ b. Uses s p (unescaped b.now)) names.now
        → OrNoMemory (IsPartOf world.new.0.packages s
        × All (λ b. Uses world.new.0.packages p (unescaped b.now)) names.now) result }
    ensures grows { Grows world.old.0.packages world.new.0.packages }
    ensures rest { world.new ≡ (with_packages world.old.0 world.new.0.packages, world.old.1) }
{
    for name in names {
        use_one(alloc, world, owner, name)?;
    }
    Ok(())
}

// Makes a package use those that it is to use.
fn use_each(alloc: Global, world: &mut World, row: &PackageParts<'_>) -> Result<(), BuildError>
    ensures made { (s : Table) (p : Name) → HasItsPackages world.old.0.packages s → IsRowOf s p row.now
        → p ≢ common_lisp
        → OrNoMemory (IsPartOf world.new.0.packages s × HasUses world.new.0.packages s p) result }
    ensures grows { Grows world.old.0.packages world.new.0.packages }
    ensures rest { world.new ≡ (with_packages world.old.0 world.new.0.packages, world.old.1) }
{
    let owner = text_of(alloc, row.name)?;
    use_names(alloc, world, owner.as_slice(), row.used.as_slice())
}

// Makes a package with its own symbols.
fn make_each(alloc: Global, world: &mut World, row: &PackageParts<'_>) -> Result<(), BuildError>
    ensures made { (s : Table) (p : Name) → AreSoundPackages s → IsPackage s p → p ≢ common_lisp
        → IsPartOf world.old.0.packages s → IsRowOf s p row.now
        → OrNoMemory (IsPartOf world.new.0.packages s × HasOwn world.new.0.packages s p) result }
    ensures grows { Grows world.old.0.packages world.new.0.packages }
    ensures rest { world.new ≡ (with_packages world.old.0 world.new.0.packages, world.old.1) }
{
    make_own(alloc, world, row.name, row.own.as_slice())
}

// Makes the packages with their own symbols.
fn make_all(alloc: Global, world: &mut World, rows: &[PackageParts<'_>]) -> Result<(), BuildError>
    ensures made { (s : Table) → AreSoundPackages s → IsPartOf world.old.0.packages s → AreRowsOf s rows.now
        → OrNoMemory (HasItsPackages world.new.0.packages s) result }
    ensures grows { Grows world.old.0.packages world.new.0.packages }
    ensures rest { world.new ≡ (with_packages world.old.0 world.new.0.packages, world.old.1) }
{
    for row in rows {
        make_each(alloc, world, row)?;
    }
    world.soundness();
    Ok(())
}

fn import_all(alloc: Global, world: &mut World, rows: &[PackageParts<'_>]) -> Result<(), BuildError>
    ensures made { (s : Table) → HasItsPackages world.old.0.packages s → AreRowsOf s rows.now
        → OrNoMemory (HasItsPackages world.new.0.packages s
        × InEachPackage s (HasSymbols world.new.0.packages s)) result }
    ensures grows { Grows world.old.0.packages world.new.0.packages }
    ensures rest { world.new ≡ (with_packages world.old.0 world.new.0.packages, world.old.1) }
{
    for row in rows {
        import_each(alloc, world, row)?;
    }
    world.soundness();
    Ok(())
}

fn export_all(alloc: Global, world: &mut World, rows: &[PackageParts<'_>]) -> Result<(), BuildError>
    ensures made { (s : Table) → HasItsPackages world.old.0.packages s
        → InEachPackage s (HasSymbols world.old.0.packages s) → AreRowsOf s rows.now
        → OrNoMemory (HasItsPackages world.new.0.packages s
        × InEachPackage s (HasExternals world.new.0.packages s)) result }
    ensures grows { Grows world.old.0.packages world.new.0.packages }
    ensures rest { world.new ≡ (with_packages world.old.0 world.new.0.packages, world.old.1) }
{
    for row in rows {
        export_each(alloc, world, row)?;
    }
    world.soundness();
    Ok(())
}

fn use_all(alloc: Global, world: &mut World, rows: &[PackageParts<'_>]) -> Result<(), BuildError>
    ensures made { (s : Table) → HasItsPackages world.old.0.packages s → AreRowsOf s rows.now
        → OrNoMemory (HasItsPackages world.new.0.packages s
        × InEachPackage s (HasUses world.new.0.packages s)) result }
    ensures grows { Grows world.old.0.packages world.new.0.packages }
    ensures rest { world.new ≡ (with_packages world.old.0 world.new.0.packages, world.old.1) }
{
    for row in rows {
        use_each(alloc, world, row)?;
    }
    world.soundness();
    Ok(())
}

/// Makes the packages of a new world those of the line that begins here, and gives what stands after the list. All
/// symbols are made before one is imported, and all external ones before a package is used. After an error a part of
/// them may be made: who calls it throws the world away.
pub(crate) fn make_packages<'a>(
    alloc: Global,
    world: &mut World,
    bytes: &'a [u8],
) -> Result<&'a [u8], BuildError>
    ensures made { (s : Table) (after : List ℕ) → AreSoundPackages s → IsPartOf world.old.0.packages s
        → bytes.now ≡ object_text s (packages_object s) ++ after
        → IsOfMade result (λ rest. (world.new.0.packages ≡ s) × (rest.now ≡ after)) }
    ensures rest { world.new ≡ (with_packages world.old.0 world.new.0.packages, world.old.1) }
{
    let (rows, after) = rows_in(alloc, bytes)?;
    let rows = rows.as_slice();
    make_all(alloc, world, rows)?;
    import_all(alloc, world, rows)?;
    export_all(alloc, world, rows)?;
    use_all(alloc, world, rows)?;
    Ok(after)
}
