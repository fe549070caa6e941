//! The text of a world, and two worlds with the same text.
ghost use Rattle.std.specs.Prelude.{◌≡◌, ◌≤◌, IfOk, IsTrue, List, length, ℕ};
ghost use Rattle.canon_printer.specs.Printed.{printed};
ghost use Rattle.lisp_reading.specs.Setting.{setting_of};
ghost use Rattle.package_table.specs.Table.{common_lisp_user};
ghost use Rattle.readtable_core.specs.Tables.{standard};
ghost use Rattle.user_macros.specs.Functions.{Functions};
ghost use Rattle.world_text.specs.Lines.{IsLineRead, snapshot_limits};
ghost use Rattle.world_text.specs.Snapshot.{properties_object, snapshot};

use plist_state::World;
use std::alloc::{AllocError, Global};
use std::test::Fail;
use world_text::{one_text_one_state, snapshot_lines_are_read, write};

fn is_equal(one: &[u8], other: &[u8]) -> bool
    ensures { IsTrue result → one.now ≡ other.now }
{
    one == other
}

/// The text of a world. The line of its properties is read again, whatever functions are registered and whatever follows it.
fn text_of(alloc: Global, world: &World) -> Result<Vec<u8>, AllocError>
    ensures text { IfOk result (λ text. text.items ≡ snapshot world.now.0) }
    ensures properties { (functions : Functions) (rest : List ℕ)
        → length (printed world.now.0.packages common_lisp_user (properties_object world.now.0)) ≤ 4294967295
        → IsLineRead (setting_of snapshot_limits standard 10 world.now.0.packages common_lisp_user functions)
        world.now.0.packages (properties_object world.now.0) rest }
{
    world.soundness();
    snapshot_lines_are_read();
    write(alloc, world)
}

/// Whether two worlds have the same text. If so, they are the same.
fn have_same_text(alloc: Global, one: &World, other: &World) -> Result<bool, AllocError>
    ensures { IfOk result (λ same. IsTrue same → one.now.0 ≡ other.now.0) }
{
    one.soundness();
    other.soundness();
    one_text_one_state();
    let text = text_of(alloc, one)?;
    let others_text = text_of(alloc, other)?;
    Ok(is_equal(text.as_slice(), others_text.as_slice()))
}

#[test]
fn first_worlds_have_one_text(rt: HostRuntime) -> Result<(), Fail> {
    let one = World::new(rt.alloc())?;
    let other = World::new(rt.alloc())?;
    assert!(rt; have_same_text(rt.alloc(), &one, &other)?);
    Ok(())
}
