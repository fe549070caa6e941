//! The objects of a text, one at a time.
ghost use Rattle.std.specs.Prelude.{◌≡◌, ◌≤◌, ◌<◌, ℕ, List, ◌++◌, length, drop, IfOk};
ghost use Rattle.lisp_object.specs.Object.{Object};
ghost use Rattle.readtable_core.specs.Tables.{standard};
ghost use Rattle.package_table.specs.Table.{Table};
ghost use Rattle.lisp_reading.specs.Reading.{form, reads};
ghost use Rattle.world_text.specs.Lines.{IsLineRead};
ghost use Rattle.snapshot_lines.specs.Lines.{IsReadFirst, IsReadNext, line_setting};
ghost use Rattle.world_text.specs.Snapshot.{snapshot_line};

use crate::error::BuildError;
use crate::source::Source;
use form_reader::{Limits, ReadOutcome, read_one};
use lisp_object::Datum;
use package_table::standardized::COMMON_LISP_USER;
use plist_state::World;
use user_macros::MacroFunctions;

// The base of the numbers in a snapshot, whatever that of a world is.
const BASE: u8 = 10;

// The object with which a part of the text begins, and its end there.
fn first_object<R: MacroFunctions>(
    source: &Source<'_, R>,
    world: &World,
    bytes: &[u8],
) -> Result<(Datum, usize), BuildError>
    requires answers { R.answers source.now.macros.now }
    requires table { source.now.table.now ≡ standard }
    ensures { let setting = line_setting world.now.0 (R.functions source.now.macros.now) in
        (x : Object) (end next : ℕ) → reads setting bytes.now ≡ form x 0 end next
        → IsReadFirst x end result }
{
    let packages = world.packages();
    packages.soundness();
    let limits = Limits::snapshot();
    match read_one(
        source.alloc,
        limits,
        source.table,
        BASE,
        packages,
        COMMON_LISP_USER,
        source.macros,
        bytes,
    )? {
        ReadOutcome::Form { datum, end, .. } => Ok((datum, end)),
        ReadOutcome::Empty => Err(BuildError::Damaged),
        ReadOutcome::Refused { .. } => Err(BuildError::Damaged),
    }
}

/// The object that begins at `at`, where more follows, and its end. `Damaged` where none is read there, or the line
/// ends within it.
pub fn object_at<R: MacroFunctions>(
    source: &Source<'_, R>,
    world: &World,
    at: usize,
) -> Result<(Datum, usize), BuildError>
    requires answers { R.answers source.now.macros.now }
    requires table { source.now.table.now ≡ standard }
    ensures read { let setting = line_setting world.now.0 (R.functions source.now.macros.now) in
        (x : Object) (text rest : List ℕ) (next : ℕ) → length source.now.bytes.now ≤ 4294967295
        → drop at source.now.bytes.now ≡ text ++ rest → 0 < length rest
        → reads setting (text ++ rest) ≡ form x 0 (length text) next
        → IsReadNext x source.now.bytes.now rest result }
    ensures on { IfOk result (λ read. at ≤ read.1) }
{
    let Some(rest) = source.bytes.get(at..) else {
        return Err(BuildError::Damaged);
    };
    let (datum, end) = first_object(source, world, rest)?;
    Ok((datum, at.saturating_add(end)))
}

/// The object of the line that begins at `at`, and where the next line begins. `Damaged` where none is read there.
pub fn next_object<R: MacroFunctions>(
    source: &Source<'_, R>,
    world: &World,
    at: usize,
) -> Result<(Datum, usize), BuildError>
    requires answers { R.answers source.now.macros.now }
    requires table { source.now.table.now ≡ standard }
    ensures { let setting = line_setting world.now.0 (R.functions source.now.macros.now) in
        (packages : Table) (x : Object) (rest : List ℕ) → length source.now.bytes.now ≤ 4294967295
        → drop at source.now.bytes.now ≡ snapshot_line packages x ++ rest
        → IsLineRead setting packages x rest → IsReadNext x source.now.bytes.now rest result }
{
    let (datum, end) = object_at(source, world, at)?;
    Ok((datum, end.saturating_add(1)))
}
