// What is done over the store that a disk holds.
ghost use Rattle.std.specs.Prelude.{◌≡◌, ◌<◌, ◌-◌, ◌^◌, None};
ghost use Rattle.command_words.specs.declared.words.Task.{Task};
ghost use Rattle.store_commands.specs.Commands.{DoesOn};
ghost use Rattle.store_commands.specs.Output.{held_by};
ghost use Rattle.user_macros.specs.Functions.{are_registered};

use crate::export::export_on;
use crate::opening::Opening;
use crate::output::SessionOutput;
use crate::recipient::SessionRecipient;
use crate::report::report_on;
use crate::session::serve_on;
use crate::snapshot::snapshot_on;
use crate::status::Status;
use crate::told::Remark;
use crate::upgrade::upgrade_on;
use command_words::Task;
use diagnostics::Places;
use disk_trait::Disk;
use prevalence_store::Unopened;
use sessions::SessionOptions;
use std::io::Write;
use user_macros::MacroFunctions;

/// Carries a task out over the store that a disk holds, and gives the disk back as the store left it, and what is to be told of a
/// refusal that ended a session, or of what was left out of an export.
pub(crate) fn carry_out_on<D, M, I, O, T>(
    opening: Opening<D, M>,
    task: Task,
    input: &mut I,
    output: &mut SessionOutput<'_, O, T>,
) -> (Status, D, Remark)
where
    D: Disk + Drop,
    M: MacroFunctions + Drop,
    I: Places,
    O: Write,
    T: Write,
    requires room { (D.state opening.disk).failures < 2 ^ 64 - 1 }
    requires answers { M.answers opening.macros }
    ensures { DoesOn M.Meaning.functions D.state opening.macros
        (are_registered M.Meaning.functions (M.functions opening.macros)) I.remaining (held_by O.contents)
        input.old input.new output.old output.new opening.disk result.1 task result.0 result.2 }
{
    match task {
        Task::Run(wanted) => run_on(opening, wanted, input, output),
        Task::Snapshot => match snapshot_on(opening, &mut output.output) {
            Ok((status, disk, _macros)) => (status, disk, Remark::Nothing),
            Err(unopened) => without_store(unopened),
        },
        Task::Upgrade => match upgrade_on(opening, &mut output.output) {
            Ok((status, disk, _macros)) => (status, disk, Remark::Nothing),
            Err(unopened) => without_store(unopened),
        },
        Task::Export(content) => match export_on(opening, content, &mut output.output) {
            Ok((status, disk, _macros, left_out)) => (status, disk, Remark::LeftOut(left_out)),
            Err(unopened) => without_store(unopened),
        },
        Task::Tell(report) => match report_on(opening, report, &mut output.output) {
            Ok((status, disk, _macros)) => (status, disk, Remark::Nothing),
            Err(unopened) => without_store(unopened),
        },
    }
}

// Serves a session over the store that a disk holds, and gives the disk back as the store left it, and what is to be told of a refusal
// that ended it.
fn run_on<D, M, I, O>(
    opening: Opening<D, M>,
    wanted: SessionOptions,
    input: &mut I,
    output: &mut O,
) -> (Status, D, Remark)
where
    D: Disk + Drop,
    M: MacroFunctions + Drop,
    I: Places,
    O: SessionRecipient<D, M, I>,
    requires room { (D.state opening.disk).failures < 2 ^ 64 - 1 }
    requires answers { M.answers opening.macros }
    requires none { O.account output.old ≡ None }
    ensures { DoesOn M.Meaning.functions D.state opening.macros
        (are_registered M.Meaning.functions (M.functions opening.macros)) I.remaining O.contents
        input.old input.new output.old output.new opening.disk result.1 (Task.Run wanted) result.0 result.2 }
{
    match serve_on(opening, wanted, input, output) {
        Ok((ended, disk, _macros)) => (
            Status::after_session(ended, wanted.strict, input.is_unanswered()),
            disk,
            Remark::of_session(ended, input),
        ),
        Err(unopened) => without_store(unopened),
    }
}

// A store was not opened: the status, and the disk.
fn without_store<D: Drop, M: Drop>(unopened: Unopened<D, M>) -> (Status, D, Remark)
    ensures status { result.0 ≡ Status.Fault unopened.number }
    ensures disk { result.1 ≡ unopened.disk }
{
    (
        Status::Fault(unopened.number),
        unopened.disk,
        Remark::Nothing,
    )
}
