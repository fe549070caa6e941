//! The export of the data of a world, and what each of its parts makes.
ghost use Rattle.std.specs.Prelude.{◌≡◌, ◌∷◌, ◌++◌, [], ℕ, List, IfOk, IfSome, IsTrue, Some, true};
ghost use Rattle.std.specs.FinMap as finite;
ghost use Rattle.export_laws.specs.Objects.{after_each, property_objects};
ghost use Rattle.export_laws.specs.ExportedTexts.{Makes, ReadsAsExported, with_data_of};
ghost use Rattle.package_table.specs.Table.{Name};
ghost use Rattle.plist_state.specs.State.{WorldState, first_readtables, initial};
ghost use Rattle.snapshot_text.specs.BuiltWorlds.{built_with_packages, built_with_properties};
ghost use Rattle.snapshot_text.specs.NamedFunctions.{are_covered};
ghost use Rattle.user_macros.specs.Functions.{Functions};
ghost use Rattle.whole_export.specs.Standard.{ReadsStandard};
ghost use Rattle.world_forms.specs.Properties.{property_lines};
ghost use Rattle.world_forms.specs.Readtables.{readtable_lines};

use export_laws::{data_makes_a_world, properties_of_a_world, property_lines_are_read};
use plist_state::World;
use std::alloc::{AllocError, Global};
use std::test::Fail;
use whole_export::readtable_lines_are_read;
use world_forms::{Content, all_forms};

fn is_nothing(text: &[u8]) -> bool
    ensures { IsTrue result → text.now ≡ [] }
{
    text.is_empty()
}

/// The forms of the data of a world; `None` where a property is left out.
///
/// - `data`: they make the data in a new store.
/// - `properties`, `readtables`: so do the lines of the properties, and those of the readtables, in a store that has the packages.
/// - `objects`: so do the forms of the properties as objects, in the first world with the packages.
fn data_of(alloc: Global, world: &World) -> Result<Option<Vec<u8>>, AllocError>
    ensures data { IfOk result (λ found. IfSome found (λ text. (functions : Functions)
        → Makes functions initial text.items (with_data_of world.now.0) (10 ∷ []))) }
    ensures properties { IfOk result (λ found. IfSome found (λ _. (functions : Functions) (now : WorldState) (rest : List ℕ)
        → now.packages ≡ world.now.0.packages → now.properties ≡ finite.empty → ReadsAsExported now
        → Makes functions now (10 ∷ property_lines world.now.0 ++ rest) (record now { properties = world.now.0.properties }) (10 ∷ rest))) }
    ensures readtables { (functions : Functions) (now : WorldState) (rest : List ℕ)
        → are_covered functions.names world.now.0 ≡ true → now.packages ≡ world.now.0.packages
        → now.readtables ≡ first_readtables → ReadsStandard now
        → Makes functions now (10 ∷ readtable_lines world.now.0 ++ rest) (record now { readtables = world.now.0.readtables }) (10 ∷ rest) }
    ensures objects { (names : List Name)
        → after_each names (built_with_packages world.now.0) (property_objects world.now.0)
        ≡ Some (built_with_properties world.now.0) }
{
    world.soundness();
    data_makes_a_world();
    property_lines_are_read();
    readtable_lines_are_read();
    properties_of_a_world(world);
    let exported = all_forms(alloc, world, Content::Data)?;
    if is_nothing(exported.left_out.as_slice()) {
        return Ok(Some(exported.forms));
    }
    Ok(None)
}

/// Whether the data of the first world have an export.
fn has_data(alloc: Global) -> Result<bool, AllocError> {
    let world = World::new(alloc)?;
    match data_of(alloc, &world)? {
        Some(forms) => Ok(!forms.is_empty()),
        None => Ok(false),
    }
}

#[test]
fn the_first_world_has_data(rt: HostRuntime) -> Result<(), Fail> {
    assert!(rt; has_data(rt.alloc())?);
    Ok(())
}
