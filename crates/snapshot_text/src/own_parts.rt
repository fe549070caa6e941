//! A package of a world, with the symbols at home in it, made from a row of the first line of a snapshot.
ghost use Rattle.std.specs.Prelude.{◌≡◌, ◌≢◌, ◌<◌, All, map};
ghost use Rattle.package_table.specs.Table.{Table, IsPackage, IsPresent, AreSoundPackages, common_lisp};
ghost use Rattle.package_table.specs.Growth.{Grows};
ghost use Rattle.plist_state.specs.Changes.{with_packages};
ghost use Rattle.world_text.specs.Snapshot.{made_names};
ghost use Rattle.snapshot_lines.specs.QuotedTexts.{unescaped};
ghost use Rattle.snapshot_lines.specs.PartAnswers.{OrNoMemory};
ghost use Rattle.snapshot_text.specs.Part.{IsPartOf};
ghost use Rattle.snapshot_text.specs.Phases.{HasOwn};

use plist_state::World;
use snapshot_lines::{BuildError, name_of};
use std::alloc::Global;

// Makes a package of this name, where there is none.
fn make_owner(world: &mut World, owner: &[u8]) -> Result<(), BuildError>
    requires { All (λ b. b < 128) owner.now }
    ensures there { (s : Table) → AreSoundPackages s → IsPackage s owner.now
        → IsPartOf world.old.0.packages s
        → OrNoMemory (IsPartOf world.new.0.packages s
        × IsPackage world.new.0.packages owner.now) result }
    ensures rest { world.new ≡ (with_packages world.old.0 world.new.0.packages, world.old.1) }
    ensures grows { Grows world.old.0.packages world.new.0.packages }
{
    if !world.packages().has_package(owner) {
        world.make(owner)?;
    }
    Ok(())
}

// Makes the symbol that a text names, where the package has none of that name.
fn intern_one(alloc: Global, world: &mut World, owner: &[u8], name: &[u8]) -> Result<(), BuildError>
    ensures there { (s : Table) → AreSoundPackages s → IsPartOf world.old.0.packages s
        → IsPackage world.old.0.packages owner.now → owner.now ≢ common_lisp
        → IsPresent s owner.now (unescaped name.now) owner.now
        → OrNoMemory (IsPartOf world.new.0.packages s
        × IsPresent world.new.0.packages owner.now (unescaped name.now) owner.now) result }
    ensures rest { world.new ≡ (with_packages world.old.0 world.new.0.packages, world.old.1) }
    ensures grows { Grows world.old.0.packages world.new.0.packages }
{
    world.packages().soundness();
    let name = name_of(alloc, name)?;
    world.intern(owner, name.as_slice())?;
    Ok(())
}

fn intern_each(
    alloc: Global,
    world: &mut World,
    owner: &[u8],
    names: &[&[u8]],
) -> Result<(), BuildError>
    ensures there { (s : Table) → AreSoundPackages s → IsPartOf world.old.0.packages s
        → IsPackage world.old.0.packages owner.now → owner.now ≢ common_lisp
        → All (λ b. IsPresent s owner.now (unescaped b.now) owner.now) names.now
        → OrNoMemory (IsPartOf world.new.0.packages s
        × All (λ b. IsPresent world.new.0.packages owner.now (unescaped b.now) owner.now) names.now) result }
    ensures rest { world.new ≡ (with_packages world.old.0 world.new.0.packages, world.old.1) }
    ensures grows { Grows world.old.0.packages world.new.0.packages }
{
    for name in names {
        intern_one(alloc, world, owner, name)?;
    }
    Ok(())
}

/// Makes a package, where it is none of the first, and its own symbols. After an error a part of it may be made: who
/// calls it throws the world away.
pub(crate) fn make_own(
    alloc: Global,
    world: &mut World,
    name: &[u8],
    own: &[&[u8]],
) -> Result<(), BuildError>
    ensures own { (s : Table) → AreSoundPackages s → IsPackage s (unescaped name.now)
        → unescaped name.now ≢ common_lisp → IsPartOf world.old.0.packages s
        → map (λ b. unescaped b.now) own.now ≡ made_names s (unescaped name.now)
        → OrNoMemory (IsPartOf world.new.0.packages s
        × HasOwn world.new.0.packages s (unescaped name.now)) result }
    ensures rest { world.new ≡ (with_packages world.old.0 world.new.0.packages, world.old.1) }
    ensures grows { Grows world.old.0.packages world.new.0.packages }
{
    world.packages().soundness();
    let owner = name_of(alloc, name)?;
    make_owner(world, owner.as_slice())?;
    intern_each(alloc, world, owner.as_slice(), own)
}
