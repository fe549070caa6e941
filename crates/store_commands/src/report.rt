// What is told of the store that a disk holds.
ghost use Rattle.std.specs.Prelude.{◌≡◌, ◌++◌, ◌<◌, ◌-◌, ◌^◌, IsSome, IfSome, IfOk, IfErr};
ghost use Rattle.prevalence_store.specs.calls.Open.{IsUnopened};
ghost use Rattle.messages.specs.Position.{position};
ghost use Rattle.user_macros.specs.Functions.{are_registered};
ghost use Rattle.world_text.specs.Snapshot.{snapshot};
ghost use Rattle.store_commands.specs.Report.{IsReport, half_line_of, position_line, report_text};
ghost use Rattle.store_commands.specs.Session.{half_limit};
ghost use Rattle.store_commands.specs.Status.{status_of_output};
ghost use Rattle.store_commands.specs.StatusAfterText.{TellsText};

use crate::half_line::{write_half_and_position, write_half_line};
use crate::opening::Opening;
use crate::status::Status;
use command_words::Report;
use diagnostics::{Unwritten, write_out};
use disk_trait::Disk;
use lisp_object::refusal::{NO_MEMORY, OUTPUT, REOPEN};
use prevalence_store::{Store, Unopened};
use std::alloc::Global;
use std::io::Write;
use user_macros::MacroFunctions;

/// Tells this of the store that a disk holds, and answers how that ended. The disk is given back as the opening left it, and the
/// macro functions.
///
/// # Errors
///
/// Those of opening the store. Nothing is written then, and the disk and the macro functions are given back.
pub fn report_on<D, M, O>(
    opening: Opening<D, M>,
    report: Report,
    output: &mut O,
) -> Result<(Status, D, M), Unopened<D, M>>
where
    D: Disk,
    M: MacroFunctions,
    O: Write,
    requires room { (D.state opening.disk).failures < 2 ^ 64 - 1 }
    requires answers { M.answers opening.macros }
    ensures reports { IfOk result (λ p. IsReport M.Meaning.functions D.state report
        opening.disk opening.macros (O.contents output.old) (O.contents output.new) p.0 p.1) }
    ensures kept { IfOk result (λ p. p.2 ≡ opening.macros) }
    ensures refused { IfErr result (λ e. IsUnopened M.Meaning.functions D.state opening.disk
        (are_registered M.Meaning.functions (M.functions opening.macros)) half_limit e.number e.disk
        × (output.new ≡ output.old)) }
    ensures given_back { IfErr result (λ e. e.macros ≡ opening.macros) }
{
    let alloc = opening.alloc;
    let store = opening.open()?;
    let status = write_report(alloc, &store, report, output);
    let (disk, macros) = store.close();
    Ok((status, disk, macros))
}

// Writes what is told of an open store.
fn write_report<D: Disk, M: MacroFunctions, O: Write>(
    alloc: Global,
    store: &Store<D, M>,
    report: Report,
    output: &mut O,
) -> Status
    requires known { IsSome store.now.world }
    ensures { IfSome store.now.world (λ world.
        TellsText result (O.contents output.old) (O.contents output.new) (report_text report store.now world)) }
{
    match report {
        Report::Dump => write_world(alloc, store, output),
        Report::Verify => write_verified(store, output),
    }
}

// Writes the text of the world of an open store.
fn write_world<D: Disk, M: MacroFunctions, O: Write>(
    alloc: Global,
    store: &Store<D, M>,
    output: &mut O,
) -> Status
    requires known { IsSome store.now.world }
    ensures { IfSome store.now.world (λ world.
        TellsText result (O.contents output.old) (O.contents output.new) (snapshot world)) }
{
    // a store that was just opened has a world
    let Some(world) = store.world() else {
        return Status::Fault(REOPEN);
    };
    let Ok(text) = snapshot_text::write(alloc, world) else {
        return Status::Fault(NO_MEMORY);
    };
    status_of_output(write_out(output, text.as_slice()))
}

// Writes the line on the half in use of an open store, and that on its position.
fn write_verified<D: Disk, M: MacroFunctions, O: Write>(
    store: &Store<D, M>,
    output: &mut O,
) -> Status
    requires known { IsSome store.now.world }
    ensures { IfSome store.now.world
        (λ world. TellsText result (O.contents output.old) (O.contents output.new)
        (half_line_of store.now ++ position_line (position world))) }
{
    match messages::position(store) {
        Ok(position) => write_position(store, position, output),
        Err(_) => Status::Fault(NO_MEMORY),
    }
}

// Writes the line on the half in use, and that on this position.
fn write_position<D: Disk, M: MacroFunctions, O: Write>(
    store: &Store<D, M>,
    position: Option<u64>,
    output: &mut O,
) -> Status
    ensures { TellsText result (O.contents output.old) (O.contents output.new)
        (half_line_of store.now ++ position_line position) }
{
    let half = store.half();
    let written = write_half_and_position(
        output,
        half,
        store.generation(),
        store.record_count(),
        position,
    );
    status_of_output(written)
}

/// Writes the line on the half in use of an open store, and answers how that ended.
pub(crate) fn write_half<D: Disk, M: MacroFunctions, O: Write>(
    store: &Store<D, M>,
    output: &mut O,
) -> Status
    ensures { TellsText result (O.contents output.old) (O.contents output.new)
        (half_line_of store.now) }
{
    let written = write_half_line(
        output,
        store.half(),
        store.generation(),
        store.record_count(),
    );
    status_of_output(written)
}

/// How the program ends after a text that was written.
pub fn status_of_output(written: Result<(), Unwritten>) -> Status
    ensures { result ≡ status_of_output written }
{
    match written {
        Ok(()) => Status::Done,
        Err(_) => Status::Fault(OUTPUT),
    }
}
