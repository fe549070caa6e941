// Files become those of the version that the next half has.
ghost use Rattle.std.specs.Prelude.{◌≡◌, ◌<◌, ◌-◌, ◌^◌, Some, IfOk, IfErr};
ghost use Rattle.plist_state.specs.State.{WorldState};
ghost use Rattle.prevalence_store.specs.calls.Open.{IsUnopened};
ghost use Rattle.user_macros.specs.Functions.{are_registered};
ghost use Rattle.store_commands.specs.Report.{HasNoValue, IsUpgrade, TellsUpgrade, Upgrades, version_line};
ghost use Rattle.store_commands.specs.Session.{half_limit};
ghost use Rattle.diagnostics.specs.StreamTexts.{WritesOut};

use crate::opening::Opening;
use crate::report::status_of_output;
use crate::status::Status;
use arrayvec::ArrayString;
use diagnostics::{Unwritten, write_out};
use disk_trait::Disk;
use prevalence_store::{Outcome, Store, Unopened};
use std::fmt::Write as WriteText;
use std::io::Write;
use user_macros::MacroFunctions;

/// Takes a snapshot of the store that a disk holds if the half that it begins has another version than the one in use, and writes the
/// line on the version: from version 1 to 2, or, on a disk that mixes, from 1 or 2 to 3. Answers how that ended. The disk is given back as the store left it, and the macro functions.
///
/// # Errors
///
/// Those of opening the store. Nothing is written then, and the disk and the macro functions are given back.
pub fn upgrade_on<D, M, O>(
    opening: Opening<D, M>,
    output: &mut O,
) -> Result<(Status, D, M), Unopened<D, M>>
where
    D: Disk,
    M: MacroFunctions,
    O: Write,
    requires room { (D.state opening.disk).failures < 2 ^ 64 - 1 }
    requires answers { M.answers opening.macros }
    ensures upgrades { IfOk result (λ p. IsUpgrade M.Meaning.functions D.state
        opening.disk opening.macros (O.contents output.old) (O.contents output.new) p.0 p.1) }
    ensures kept { IfOk result (λ p. p.2 ≡ opening.macros) }
    ensures refused { IfErr result (λ e. IsUnopened M.Meaning.functions D.state opening.disk
        (are_registered M.Meaning.functions (M.functions opening.macros)) half_limit e.number e.disk
        × (output.new ≡ output.old)) }
    ensures given_back { IfErr result (λ e. e.macros ≡ opening.macros) }
{
    let mut store = opening.open()?;
    let outcome = upgraded(&mut store);
    let status = write_upgrade(&store, &outcome, output);
    let (disk, macros) = store.close();
    Ok((status, disk, macros))
}

// Takes a snapshot if the next half has another version: on a disk that mixes it has version 3, after version 3 too, and else version 2.
fn upgraded<D: Disk, M: MacroFunctions>(store: &mut Store<D, M>) -> Outcome
    ensures upgrades { (world : WorldState) → store.old.world ≡ Some world
        → Upgrades M.Meaning.functions D.state store.old store.new world result }
    ensures macros { store.new.macros ≡ store.old.macros }
{
    let version = store.version();
    if version == 3 {
        return Outcome::Snapshotted;
    }
    if store.disk().mixes() {
        return store.snapshot();
    }
    if version == 2 {
        Outcome::Snapshotted
    } else {
        store.snapshot()
    }
}

// Tells what became of an upgrade, and answers how that ended.
fn write_upgrade<D: Disk, M: MacroFunctions, O: Write>(
    store: &Store<D, M>,
    outcome: &Outcome,
    output: &mut O,
) -> Status
    requires no_value { HasNoValue outcome.now }
    ensures { TellsUpgrade outcome.now store.now result (O.contents output.old) (O.contents output.new) }
{
    match outcome {
        Outcome::Snapshotted => status_of_output(write_version_line(output, store.version())),
        Outcome::Refused(number) => Status::Fault(*number),
        Outcome::Accepted(_) => unreachable!(),
    }
}

// Writes the line on a version, and flushes it.
fn write_version_line<W: Write>(output: &mut W, version: u16) -> Result<(), Unwritten>
    ensures { WritesOut result (W.contents output.old) (W.contents output.new)
        (version_line version) }
{
    let mut line = ArrayString::<24>::new();
    let Ok(()) = writeln!(line, "version {version}") else {
        return Err(Unwritten);
    };
    write_out(output, line.as_bytes())
}
