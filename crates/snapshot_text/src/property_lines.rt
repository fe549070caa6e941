//! The property lists of a world, made from the second line of a snapshot, row by row: no more than one row is in memory
//! beside the world.
ghost use Rattle.std.specs.Prelude.{◌≡◌, ◌≤◌, ◌<◌, ◌+◌, ℕ, List, ◌∷◌, ◌++◌, length, drop, IfOk};
ghost use Rattle.readtable_core.specs.Tables.{standard};
ghost use Rattle.plist_state.specs.State.{WorldState};
ghost use Rattle.plist_state.specs.Readers.{symbols_with_properties};
ghost use Rattle.plist_state.specs.Sound.{IsSoundWorldState as IsSoundState};
ghost use Rattle.snapshot_text.specs.BuiltWorlds.{built_with_packages, built_with_properties};
ghost use Rattle.snapshot_text.specs.Rows.{HasRowsUpTo, row_text, text_after};
ghost use Rattle.world_text.specs.Snapshot.{snapshot_line, properties_object};
ghost use Rattle.snapshot_lines.specs.PartAnswers.{IsOfMade};

use crate::property_parts::put_row;
use plist_state::World;
use snapshot_lines::{BuildError, Source, object_at};
use user_macros::MacroFunctions;

// Puts the row of property lists that begins at `at`. Gives its end.
fn read_row<R: MacroFunctions>(
    source: &Source<'_, R>,
    world: &mut World,
    at: usize,
) -> Result<usize, BuildError>
    requires answers { R.answers source.now.macros.now }
    requires table { source.now.table.now ≡ standard }
    ensures row { (s : WorldState) (n : ℕ) (rest : List ℕ) → IsSoundState s
        → length source.now.bytes.now ≤ 4294967295 → n < length (symbols_with_properties s)
        → HasRowsUpTo s n world.old.0
        → drop at source.now.bytes.now ≡ row_text s n ++ (text_after s (n + 1) ++ rest)
        → IsOfMade result (λ next. HasRowsUpTo s (n + 1) world.new.0
        × (drop next source.now.bytes.now ≡ text_after s (n + 1) ++ rest)) }
    ensures on { IfOk result (λ next. at ≤ next) }
{
    let (row, next) = object_at(source, world, at)?;
    put_row(source.alloc, world, &row)?;
    Ok(next)
}

// Puts the rows of which the first begins at `at`. Gives where the next line begins.
fn read_rows<R: MacroFunctions>(
    source: &Source<'_, R>,
    world: &mut World,
    at: usize,
) -> Result<usize, BuildError>
    requires answers { R.answers source.now.macros.now }
    requires table { source.now.table.now ≡ standard }
    ensures { (s : WorldState) (rest : List ℕ) → IsSoundState s
        → length source.now.bytes.now ≤ 4294967295 → 0 < length (symbols_with_properties s)
        → world.old.0 ≡ built_with_packages s
        → drop at source.now.bytes.now ≡ row_text s 0 ++ (text_after s 1 ++ 10 ∷ rest)
        → IsOfMade result (λ next. (world.new.0 ≡ built_with_properties s)
        × (drop next source.now.bytes.now ≡ rest)) }
{
    let mut next_row = at;
    'rows: loop {
        let end = read_row(source, world, next_row)?;
        let Some(byte) = source.bytes.get(end) else {
            return Err(BuildError::Damaged);
        };
        if *byte == b')' {
            return Ok(end.saturating_add(2));
        }
        next_row = end + 1;
    }
}

/// Sets the properties of the line that begins at `at`, in a world that has the packages. Gives where the next line
/// begins. The line is NIL, or a list of rows. `Damaged` where no such line stands there; who calls it throws the world
/// away then.
pub(crate) fn read_properties<R: MacroFunctions>(
    source: &Source<'_, R>,
    world: &mut World,
    at: usize,
) -> Result<usize, BuildError>
    requires answers { R.answers source.now.macros.now }
    requires table { source.now.table.now ≡ standard }
    ensures { (s : WorldState) (rest : List ℕ) → IsSoundState s
        → length source.now.bytes.now ≤ 4294967295
        → drop at source.now.bytes.now ≡ snapshot_line s.packages (properties_object s) ++ rest
        → world.old.0 ≡ built_with_packages s
        → IsOfMade result (λ next. (world.new.0 ≡ built_with_properties s)
        × (drop next source.now.bytes.now ≡ rest)) }
{
    let Some(byte) = source.bytes.get(at) else {
        return Err(BuildError::Damaged);
    };
    if *byte == b'(' {
        read_rows(source, world, at.saturating_add(1))
    } else {
        Ok(at.saturating_add(4))
    }
}
