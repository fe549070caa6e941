//! Two worlds with the same export.
ghost use Rattle.std.specs.Prelude.{◌≡◌, [], IsTrue, Some, true};
ghost use Rattle.disk_trait.specs.Disk.{IsHonest};
ghost use Rattle.plist_state.specs.State.{WorldState};
ghost use Rattle.session_words.specs.declared.content.Content.TheVariants.{World as Whole};
ghost use Rattle.snapshot_text.specs.NamedFunctions.{are_covered};
ghost use Rattle.user_macros.specs.Functions.{Functions};
ghost use Rattle.world_forms.specs.Forms.{forms};
ghost use Rattle.world_forms.specs.Properties.{left_out_lines};

use disk_trait::{Disk, MemoryDisk};
use plist_state::World;
use prevalence_store::Store;
use std::alloc::{AllocError, Global};
use store_laws::one_outcome;
use user_macros::{MacroFunctions, NoFunctions};
use whole_export::{export_makes_a_world, kept_worlds_are_covered};
use world_forms::{Content, all_forms};

fn is_equal(one: &[u8], other: &[u8]) -> bool
    ensures { IsTrue result → one.now ≡ other.now }
{
    one == other
}

/// Whether two texts are the same. If they are the exports of two worlds, of which nothing is left out, these are the same world then:
/// what the text makes in a new store.
fn are_same(one: &World, text: &[u8], other: &World, others_text: &[u8]) -> bool
    ensures { (functions : Functions) → IsTrue result
        → text.now ≡ forms one.now.0 Whole → left_out_lines one.now.0 ≡ []
        → are_covered functions.names one.now.0 ≡ true
        → others_text.now ≡ forms other.now.0 Whole → left_out_lines other.now.0 ≡ []
        → are_covered functions.names other.now.0 ≡ true
        → one.now.0 ≡ other.now.0 }
{
    one.soundness();
    other.soundness();
    export_makes_a_world();
    one_outcome::<MemoryDisk, MemoryDisk, NoFunctions, NoFunctions>();
    is_equal(text, others_text)
}

/// The world of a store over an honest disk names no macro functions but those of the program, so the laws of exports hold of it.
fn is_covered<D: Disk, M: MacroFunctions>(store: &Store<D, M>)
    ensures { (world : WorldState) → store.now.world ≡ Some world → IsHonest (D.state store.now.disk)
        → are_covered M.Meaning.functions.names world ≡ true }
{
    store.keeps_its_world();
    kept_worlds_are_covered::<D>();
}

/// Whether two stores have the same export, of which nothing is left out.
pub fn have_same_export<D: Disk, E: Disk, M: MacroFunctions>(
    alloc: Global,
    one: &Store<D, M>,
    other: &Store<E, M>,
) -> Result<bool, AllocError> {
    is_covered(one);
    is_covered(other);
    let Some(world) = one.world() else {
        return Ok(false);
    };
    let Some(others_world) = other.world() else {
        return Ok(false);
    };
    let export = all_forms(alloc, world, Content::World)?;
    let others = all_forms(alloc, others_world, Content::World)?;
    if !export.left_out.is_empty() || !others.left_out.is_empty() {
        return Ok(false);
    }
    Ok(are_same(
        world,
        export.forms.as_slice(),
        others_world,
        others.forms.as_slice(),
    ))
}
