// What the words of the command line ask for.
ghost use Rattle.std.specs.Prelude.{◌≡◌, ◌⊎◌, Bool, [], map, None, Err, IfOk};
ghost use Rattle.clap.specs.Words.{Text, kind_of};
ghost use Rattle.user_macros.specs.Functions.{are_registered};
ghost use Rattle.command_words.specs.declared.words.Task.{Task};
ghost use Rattle.command_words.specs.CommandLine.{AsksFor, IsTakenByLine, faults_of};
ghost use Rattle.store_commands.specs.Commands.{DoesAfter, OpensFolder, Performs, PerformsAtTerminal, PerformsInTurn, PerformsNone, SitsAfter};
ghost use Rattle.store_commands.specs.Folders.{OpensStore};
ghost use Rattle.store_commands.specs.Output.{held_by};
ghost use Rattle.store_commands.specs.Status.{EndsAfter, HasFaultNumber, IsStatusAfterWords, IsOfWords, IsQuiet, TakesWords};
ghost use Rattle.store_commands.specs.EndLines.{TellsFault, left_out_of};
ghost use Rattle.store_commands.specs.declared.told.Remark.{Remark};

use crate::folders::{Folders, TellsCause, open_folder};
use crate::in_a_row::sessions_on;
use crate::on_disk::carry_out_on;
use crate::opening::Opening;
use crate::output::SessionOutput;
use crate::recipient::SessionRecipient;
use crate::status::Status;
use crate::terminal::Sessions;
use crate::told::{Remark, end_with, end_with_told};
use clap::Error;
use command_words::{Asked, Task, asked_in};
use diagnostics::Places;
use disk_trait::HostError;
use lisp_object::refusal::{INPUT, NO_MEMORY, OUTPUT};
use plist_state::Seed;
use program_streams::ShownText;
use sessions::SessionOptions;
use std::convert::AsStr;
use std::fmt::Write as WriteText;
use std::io::Write;
use std::random::RandomSource;
use user_macros::MacroFunctions;

/// Does what the words ask for, with these macro functions; the first word is the program's name.
///
/// Each command is over the store in the folder DIR. `run DIR` serves `input` to `output` in the mode Current; with `--rescue`
/// in the mode Rescue, with `--strict` the first form that is refused ends it, with `--group` the forms that are whole in a piece of
/// the input are logged together and answered then, and with `--snapshot-every N` it takes a snapshot after each N forms that were
/// logged. `snapshot DIR` takes a snapshot and writes the line on the half in use to `output`, `upgrade DIR` the version after it has
/// taken one of files of version 1, `export DIR` the forms that make the world, `dump DIR` its text, and `verify DIR` the line on the
/// half in use; they read nothing. A folder without a store gets one, or is a fault with `--existing`, and so is one of whose files
/// neither is in use.
///
/// Names are hashed by a seed that is drawn from `rt`; if it has no random bytes, the status is that of a fault of the input.
/// Faults are found in this order: the words, the seed, DIR, the opening of the store, the command. A text on words that are refused, or
/// the line of a fault, and after that of the device one with its cause and a path, goes to `faults`, and so does the line on a refusal that
/// ended the session; help and the version that was asked for
/// go to `output`. What is written to `output` is flushed. The teller of `output` writes a line on each form that is refused, of as many as it is
/// asked for.
pub fn program<R, M, S, I, O, T, F>(
    rt: &R,
    macros: M,
    words: &[S],
    input: &mut I,
    output: &mut SessionOutput<'_, O, T>,
    faults: &mut F,
) -> Status
where
    R: Folders + RandomSource + AllocGlobal,
    M: MacroFunctions + Drop,
    S: AsStr,
    I: Places,
    O: Write,
    T: Write,
    F: Write,
    requires answers { M.answers macros }
    ensures words { (folder : Text) (existing : Bool) (task : Task)
        → AsksFor (map S.text words.now) folder existing task
        → IsTakenByLine (map S.text words.now) folder existing task }
    ensures ends { EndsAfter (faults_of (map S.text words.now)) result }
    ensures taken { (folder : Text) (existing : Bool) (task : Task)
        → IsTakenByLine (map S.text words.now) folder existing task
        → (told : Remark) × Performs M.Meaning.functions I.remaining (held_by O.contents)
        input.old input.new output.old output.new folder task result told
        × TellsFault result told (F.contents faults.old) (F.contents faults.new)
        × OpensFolder input.old input.new output.old output.new
        (OpensStore R.Disk.state R.Disk.tells (R.opens rt.now))
        (DoesAfter M.Meaning.functions R.Disk.state macros
        (are_registered M.Meaning.functions (M.functions macros)) I.remaining (held_by O.contents)
        input.old input.new output.old output.new task result told)
        folder existing result told }
    ensures untaken { (faults_of (map S.text words.now) ≡ [] → ⊥)
        → PerformsNone input.old input.new output.old output.new result }
    ensures fault { HasFaultNumber result }
    ensures told { (told : Remark) × TellsFault result told (F.contents faults.old) (F.contents faults.new) }
    ensures quiet { IsQuiet result → faults.new ≡ faults.old }
{
    // The words come first: if they are refused, no folder is opened and nothing is read.
    match asked_in(rt.alloc(), words) {
        Ok(asked) => {
            let folder = asked.folder;
            let (status, told) = carry_out(rt, macros, asked, input, output);
            end_with_told(faults, status, &told, folder)
        }
        Err(error) => {
            let status = answer_words(&error, &mut output.output, faults);
            end_with(faults, status)
        }
    }
}

/// Does what the words ask for, as `program`, where the input is a terminal. `run` is sessions in a row on one open store then: after
/// a refusal of the reader the rest of the line is dropped, and the next session begins; the status is that of the last one. A terminal
/// gives a byte at a time, so that with `--group` each form is a group of its own there.
pub fn program_at_terminal<R, M, S, I, O, T, F>(
    rt: &R,
    macros: M,
    words: &[S],
    input: &mut I,
    output: &mut SessionOutput<'_, O, T>,
    faults: &mut F,
) -> Status
where
    R: Folders + RandomSource + AllocGlobal,
    M: MacroFunctions + Drop,
    S: AsStr,
    I: Sessions,
    O: Write,
    T: Write,
    F: Write,
    requires answers { M.answers macros }
    ensures ends { EndsAfter (faults_of (map S.text words.now)) result }
    ensures taken { (folder : Text) (existing : Bool) (task : Task)
        → IsTakenByLine (map S.text words.now) folder existing task
        → (told : Remark) × PerformsAtTerminal M.Meaning.functions I.remaining (held_by O.contents)
        input.old input.new output.old output.new folder task result told
        × TellsFault result told (F.contents faults.old) (F.contents faults.new)
        × OpensFolder input.old input.new output.old output.new
        (OpensStore R.Disk.state R.Disk.tells (R.opens rt.now))
        (SitsAfter M.Meaning.functions R.Disk.state macros
        (are_registered M.Meaning.functions (M.functions macros)) I.remaining (held_by O.contents)
        input.old input.new output.old output.new task result told)
        folder existing result told }
    ensures untaken { (faults_of (map S.text words.now) ≡ [] → ⊥)
        → PerformsNone input.old input.new output.old output.new result }
    ensures told { (told : Remark) × TellsFault result told (F.contents faults.old) (F.contents faults.new) }
    ensures quiet { IsQuiet result → faults.new ≡ faults.old }
{
    match asked_in(rt.alloc(), words) {
        Ok(asked) => {
            let folder = asked.folder;
            let (status, told) = carry_out_at_terminal(rt, macros, asked, input, output);
            end_with_told(faults, status, &told, folder)
        }
        Err(refusal) => {
            let status = answer_words(&refusal, &mut output.output, faults);
            end_with(faults, status)
        }
    }
}

// Carries a task out over the store in a folder, a session as sessions in a row.
fn carry_out_at_terminal<R, M, I, O, T>(
    rt: &R,
    macros: M,
    asked: Asked<'_>,
    input: &mut I,
    output: &mut SessionOutput<'_, O, T>,
) -> (Status, Remark)
where
    R: Folders + RandomSource + AllocGlobal,
    M: MacroFunctions + Drop,
    I: Sessions,
    O: Write,
    T: Write,
    requires answers { M.answers macros }
    ensures taken { TakesWords result.0 }
    ensures opened { OpensFolder input.old input.new output.old output.new
        (OpensStore R.Disk.state R.Disk.tells (R.opens rt.now))
        (SitsAfter M.Meaning.functions R.Disk.state macros
        (are_registered M.Meaning.functions (M.functions macros)) I.remaining (held_by O.contents)
        input.old input.new output.old output.new asked.entry.task result.0 result.1)
        asked.entry.folder.now asked.entry.existing result.0 result.1 }
    ensures performs { PerformsAtTerminal M.Meaning.functions I.remaining (held_by O.contents)
        input.old input.new output.old output.new asked.entry.folder.now asked.entry.task result.0 result.1 }
{
    match asked.task {
        Task::Run(wanted) => sit(rt, macros, asked, wanted, input, output),
        _ => carry_out(rt, macros, asked, input, output),
    }
}

// Serves sessions in a row at a terminal over the store in a folder, and tells what is to be told of them on standard error.
fn sit<R, M, I, O>(
    rt: &R,
    macros: M,
    asked: Asked<'_>,
    wanted: SessionOptions,
    input: &mut I,
    output: &mut O,
) -> (Status, Remark)
where
    R: Folders + RandomSource + AllocGlobal,
    M: MacroFunctions + Drop,
    I: Sessions,
    O: SessionRecipient<R::Disk, M, I>,
    requires answers { M.answers macros }
    requires none { O.account output.old ≡ None }
    ensures performs { PerformsInTurn M.Meaning.functions I.remaining O.contents
        input.old input.new output.old output.new asked.entry.folder.now wanted result.0 result.1 }
    ensures opened { OpensFolder input.old input.new output.old output.new
        (OpensStore R.Disk.state R.Disk.tells (R.opens rt.now))
        (SitsAfter M.Meaning.functions R.Disk.state macros
        (are_registered M.Meaning.functions (M.functions macros)) I.remaining O.contents
        input.old input.new output.old output.new (Task.Run wanted) result.0 result.1)
        asked.entry.folder.now asked.entry.existing result.0 result.1 }
{
    // the seed comes before the folder, so that nothing is made if there is none
    let Ok(seed) = Seed::draw(rt) else {
        return (Status::Fault(INPUT), Remark::Nothing);
    };
    let disk = match open_folder(rt, asked.folder, asked.existing) {
        Ok(disk) => disk,
        Err(error) => return (Status::of_host(&error), Remark::Cause(error)),
    };
    let alloc = rt.alloc();
    let opening = Opening {
        alloc,
        disk,
        macros,
        seed,
    };
    match sessions_on(opening, wanted, input, output) {
        Ok((ended, disk, _macros)) => (
            Status::of_ended(ended),
            told_after(Remark::of_session(ended, input), &disk),
        ),
        Err(unopened) => (Status::Fault(unopened.number), cause_of(&unopened.disk)),
    }
}

/// Words that gave no command: the text on them is written, help to `output` and another one to `faults`.
pub fn answer_words<O: Write, F: Write>(error: &Error, output: &mut O, faults: &mut F) -> Status
    ensures status { IsStatusAfterWords (kind_of error.now) result }
    ensures of_words { IsOfWords result }
    ensures refused { result ≡ Status.WordsRefused → output.new ≡ output.old }
    ensures memory { result ≡ Status.Fault NO_MEMORY → output.new ≡ output.old }
    ensures told { (result ≡ Status.WordsRefused → ⊥) → faults.new ≡ faults.old }
{
    match Status::of_kind(error.kind()) {
        Status::Helped => write_help(error, output),
        Status::WordsRefused => {
            let mut shown = ShownText::new(faults);
            let _ = write!(shown, "{error}");
            Status::WordsRefused
        }
        status => status,
    }
}

// Writes help that was asked for, and flushes it.
fn write_help<O: Write>(help: &Error, output: &mut O) -> Status
    ensures { (result ≡ Status.Helped) ⊎ (result ≡ Status.Fault OUTPUT) }
{
    // a status of 0 says that the help has come out, so it is flushed first
    if write!(output, "{help}").is_err() {
        return Status::Fault(OUTPUT);
    }
    match output.flush() {
        Ok(()) => Status::Helped,
        Err(_) => Status::Fault(OUTPUT),
    }
}

// Carries a task out over the store in a folder, and tells what is to be told of it on standard error. The store is closed after it,
// and its files are let go.
fn carry_out<R, M, I, O, T>(
    rt: &R,
    macros: M,
    asked: Asked<'_>,
    input: &mut I,
    output: &mut SessionOutput<'_, O, T>,
) -> (Status, Remark)
where
    R: Folders + RandomSource + AllocGlobal,
    M: MacroFunctions + Drop,
    I: Places,
    O: Write,
    T: Write,
    requires answers { M.answers macros }
    ensures performs { Performs M.Meaning.functions I.remaining (held_by O.contents)
        input.old input.new output.old output.new asked.entry.folder.now asked.entry.task result.0 result.1 }
    ensures opened { OpensFolder input.old input.new output.old output.new
        (OpensStore R.Disk.state R.Disk.tells (R.opens rt.now))
        (DoesAfter M.Meaning.functions R.Disk.state macros
        (are_registered M.Meaning.functions (M.functions macros)) I.remaining (held_by O.contents)
        input.old input.new output.old output.new asked.entry.task result.0 result.1)
        asked.entry.folder.now asked.entry.existing result.0 result.1 }
{
    // the seed comes before the folder, so that nothing is made if there is none
    let Ok(seed) = Seed::draw(rt) else {
        return (Status::Fault(INPUT), Remark::Nothing);
    };
    let disk = match open_folder(rt, asked.folder, asked.existing) {
        Ok(disk) => disk,
        Err(error) => return (Status::of_host(&error), Remark::Cause(error)),
    };
    let alloc = rt.alloc();
    let opening = Opening {
        alloc,
        disk,
        macros,
        seed,
    };
    let (status, disk, told) = carry_out_on(opening, asked.task, input, output);
    (status, told_after(told, &disk))
}

// What is to be told on standard error after a task; if that is nothing, the cause of a fault of the device.
fn told_after<D: TellsCause>(told: Remark, disk: &D) -> Remark
    ensures { ((told ≡ Remark.Nothing) × (left_out_of result ≡ [])) ⊎ (result ≡ told) }
{
    match told {
        Remark::Nothing => cause_of(disk),
        told => told,
    }
}

// The cause of a fault of the device, if there was one.
fn cause_of<D: TellsCause>(disk: &D) -> Remark
    ensures { left_out_of result ≡ [] }
{
    match disk.cause() {
        Some(failed) => Remark::Cause(HostError::Failed(failed)),
        None => Remark::Nothing,
    }
}
