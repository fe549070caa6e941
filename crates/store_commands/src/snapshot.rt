// A snapshot of the store that a disk holds.
ghost use Rattle.std.specs.Prelude.{◌≡◌, ◌<◌, ◌-◌, ◌^◌, IfOk, IfErr};
ghost use Rattle.prevalence_store.specs.calls.Open.{IsUnopened};
ghost use Rattle.user_macros.specs.Functions.{are_registered};
ghost use Rattle.store_commands.specs.Report.{HasNoValue, IsSnapshot, TellsSnapshot};
ghost use Rattle.store_commands.specs.Session.{half_limit};

use crate::opening::Opening;
use crate::report::write_half;
use crate::status::Status;
use disk_trait::Disk;
use prevalence_store::{Outcome, Store, Unopened};
use std::io::Write;
use user_macros::MacroFunctions;

/// Takes a snapshot of the store that a disk holds, and writes the line on the half in use, which then has the snapshot and no
/// records. Answers how that ended. The disk is given back as the store left it, and the macro functions.
///
/// # Errors
///
/// Those of opening the store. Nothing is written then, and the disk and the macro functions are given back.
pub fn snapshot_on<D, M, O>(
    opening: Opening<D, M>,
    output: &mut O,
) -> Result<(Status, D, M), Unopened<D, M>>
where
    D: Disk,
    M: MacroFunctions,
    O: Write,
    requires room { (D.state opening.disk).failures < 2 ^ 64 - 1 }
    requires answers { M.answers opening.macros }
    ensures snapshots { IfOk result (λ p. IsSnapshot M.Meaning.functions D.state
        opening.disk opening.macros (O.contents output.old) (O.contents output.new) p.0 p.1) }
    ensures kept { IfOk result (λ p. p.2 ≡ opening.macros) }
    ensures refused { IfErr result (λ e. IsUnopened M.Meaning.functions D.state opening.disk
        (are_registered M.Meaning.functions (M.functions opening.macros)) half_limit e.number e.disk
        × (output.new ≡ output.old)) }
    ensures given_back { IfErr result (λ e. e.macros ≡ opening.macros) }
{
    let mut store = opening.open()?;
    let outcome = store.snapshot();
    let status = write_outcome(&store, &outcome, output);
    let (disk, macros) = store.close();
    Ok((status, disk, macros))
}

// Tells what became of a snapshot, and answers how that ended.
fn write_outcome<D: Disk, M: MacroFunctions, O: Write>(
    store: &Store<D, M>,
    outcome: &Outcome,
    output: &mut O,
) -> Status
    requires no_value { HasNoValue outcome.now }
    ensures { TellsSnapshot outcome.now store.now result (O.contents output.old) (O.contents output.new) }
{
    match outcome {
        Outcome::Snapshotted => write_half(store, output),
        Outcome::Refused(number) => Status::Fault(*number),
        Outcome::Accepted(_) => unreachable!(),
    }
}
