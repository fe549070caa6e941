//! A world without the symbols that it does not need, made from its text.
ghost use Rattle.std.specs.Prelude.{◌≡◌, ◌||◌, [], IfOk};
ghost use Rattle.package_table.specs.Lookup.{is_external};
ghost use Rattle.package_table.specs.Numbers.{table_now};
ghost use Rattle.plist_state.specs.Readers.{borrowed_symbols};
ghost use Rattle.world_text.specs.Snapshot.{snapshot};
ghost use Rattle.forgotten_names.specs.WorldsWithoutNames.{without_unneeded_symbols};
ghost use Rattle.forgotten_names.specs.Marks.{is_marked};

use crate::unneeded::{is_needed, needed_marks};
use package_table::Packages;
use plist_state::{Seed, World};
use snapshot_text::read_with_seed;
use std::alloc::{AllocError, Global};
use user_macros::MacroFunctions;
use world_text::{NameTest, write_kept};

// The version of the text.
const VERSION: u16 = 2;

// The symbols that are external in their homes, and those that are marked.
#[derive(Drop)]
struct NeededNames<'a> {
    packages: &'a Packages,
    marks: &'a [bool],
}

impl NameTest for NeededNames<'_> {
    ghost keeps = { λ self home name. is_external self.packages.now.0 home name
        || is_marked (table_now self.packages.now) self.marks.now (home, name) };

    fn is_kept(&self, home: &[u8], name: &[u8]) -> bool {
        is_needed(self.packages, self.marks, home, name)
    }
}

// The text of the world without the symbols that it does not need.
fn kept_text(alloc: Global, world: &World, held: &[(&[u8], &[u8])]) -> Result<Vec<u8>, AllocError>
    ensures { IfOk result (λ text. text.items
        ≡ snapshot (without_unneeded_symbols (borrowed_symbols held.now) world.now.0)) }
{
    world.soundness();
    let packages = world.packages();
    let marks = needed_marks(alloc, packages, world, held)?;
    let test = NeededNames {
        packages,
        marks: marks.as_slice(),
    };
    write_kept(alloc, world, &test)
}

/// A world of its own, which is this one without the symbols that it does not need. Those in `held` are needed. Nothing is marked in
/// it, and its names are hashed by this seed. Linear in the world; beside it the text of the new world is in memory, twice at the end.
///
/// # Errors
/// Out of memory. It is the answer too where the text of the new world is longer than that of a snapshot may be, or where a readtable
/// names a function that is not among `macros`.
pub fn forget<R: MacroFunctions>(
    alloc: Global,
    world: &World,
    held: &[(&[u8], &[u8])],
    macros: &R,
    seed: Seed,
) -> Result<World, AllocError>
    requires { R.answers macros.now }
    ensures { IfOk result (λ new. new
        ≡ (without_unneeded_symbols (borrowed_symbols held.now) world.now.0, [])) }
{
    world.soundness();
    let text = kept_text(alloc, world, held)?;
    match read_with_seed(alloc, VERSION, text.as_slice(), macros, seed) {
        Ok(new) => Ok(new),
        Err(_) => Err(AllocError),
    }
}
