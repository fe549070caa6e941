// What the words of the command line ask for.
ghost use Rattle.std.specs.Prelude.{◌≡◌, ◌⊎◌, Bool, Some, map, option_and_then, option_map, IfErr, IfOk};
ghost use Rattle.clap.specs.Words.{FailsBy, Text, app_of, found_of, kind_of, rows_of, subcommand_rows_of};
ghost use Rattle.clap.specs.declared.error.kind.ErrorKind.TheVariants.{MissingRequiredArgument, OutOfMemory};
ghost use Rattle.command_words.specs.declared.words.Task.{Task};
ghost use Rattle.command_words.specs.CommandLine.{asked_in, asked_of, command_line, content_of_flag, faults_of, mode_of_flag, number_among_rows, task_of, wanted_of, AsksFor};

use crate::rules::{DIRECTORY, EXISTING, flag_is_set};
use crate::task_lines::whole_command;
use crate::tips::with_tip;
use clap::error::ErrorKind;
use clap::{ArgMatches, Command, Error};
use session_words::{Content, Mode, SessionOptions};
use std::alloc::Global;
use std::convert::AsStr;

pub(crate) const RUN: &str = "run";

pub(crate) const SNAPSHOT: &str = "snapshot";

pub(crate) const UPGRADE: &str = "upgrade";

pub(crate) const EXPORT: &str = "export";

pub(crate) const DUMP: &str = "dump";

pub(crate) const VERIFY: &str = "verify";

pub(crate) const DATA: &str = "data";

pub(crate) const RESCUE: &str = "rescue";

pub(crate) const STRICT: &str = "strict";

pub(crate) const GROUP: &str = "group";

pub(crate) const QUIET: &str = "quiet";

pub(crate) const EVERY: &str = "snapshot-every";

pub(crate) const RATIO: &str = "snapshot-ratio";

/// How many times as long as when it was begun the half in use gets, where the words do not say it.
const USUAL_RATIO: u64 = 10;

/// What is to be done with a store.
#[derive(Clone, Copy, Debug, PartialEq, Eq)]
pub enum Task {
    /// Forms are served, as it is wanted.
    Run(SessionOptions),
    /// A snapshot is taken.
    Snapshot,
    /// Files become those of the version that the next half would have.
    Upgrade,
    /// The forms that make the world are written.
    Export(Content),
    /// Something is told of the store.
    Tell(Report),
}

/// What is told of a store.
#[derive(Clone, Copy, Debug, PartialEq, Eq)]
pub enum Report {
    /// The text of its world.
    Dump,
    /// The line on its half in use.
    Verify,
}

/// What the words ask for.
#[derive(Clone, Copy, Debug)]
pub struct Asked<'a> {
    /// The folder of the store.
    pub folder: &'a str,
    /// Whether the store has to be there already; else it is made if it is missing.
    pub existing: bool,
    /// What is to be done with it.
    pub task: Task,
}

// The mode for the value of the flag.
fn mode_for(flag: Option<&str>) -> Mode
    ensures { result ≡ mode_of_flag (option_map (λ value. value.now) flag.entry) }
{
    if flag_is_set(flag) {
        Mode::Rescue
    } else {
        Mode::Current
    }
}

// What is exported, by the value of the flag.
fn content_for(flag: Option<&str>) -> Content
    ensures { result ≡ content_of_flag (option_map (λ value. value.now) flag.entry) }
{
    if flag_is_set(flag) {
        Content::Data
    } else {
        Content::World
    }
}

/// The number of an option on snapshots, or another one where it is not given.
pub(crate) fn number_in(found: &ArgMatches<'_>, option: &str, other: u64) -> u64
    ensures { result ≡ number_among_rows other option.now (rows_of (found_of found.now)) }
{
    found.get_one::<u64>(option).unwrap_or(other)
}

// What is wanted of a session.
fn wanted_in(found: &ArgMatches<'_>) -> SessionOptions
    ensures { result ≡ wanted_of (rows_of (found_of found.now)) }
{
    SessionOptions {
        mode: mode_for(found.get_str(RESCUE)),
        snapshot_every: number_in(found, EVERY, 0),
        snapshot_ratio: number_in(found, RATIO, USUAL_RATIO),
        strict: flag_is_set(found.get_str(STRICT)),
        group: flag_is_set(found.get_str(GROUP)),
    }
}

// What the command of this name is to do.
fn task_for(name: &str, found: &ArgMatches<'_>) -> Option<Task>
    ensures { result ≡ task_of (name.now, rows_of (found_of found.now)) }
{
    match name {
        RUN => Some(Task::Run(wanted_in(found))),
        SNAPSHOT => Some(Task::Snapshot),
        UPGRADE => Some(Task::Upgrade),
        EXPORT => Some(Task::Export(content_for(found.get_str(DATA)))),
        DUMP => Some(Task::Tell(Report::Dump)),
        VERIFY => Some(Task::Tell(Report::Verify)),
        _ => None,
    }
}

// What was found, if it is a command with its folder.
fn asked_by<'a>(matches: &ArgMatches<'a>) -> Option<Asked<'a>>
    ensures { option_map (λ asked. (asked.folder.now, asked.existing, asked.task)) result
        ≡ option_and_then asked_of (subcommand_rows_of matches.now) }
{
    let (name, found) = matches.subcommand()?;
    Some(Asked {
        folder: found.get_str(DIRECTORY)?,
        existing: flag_is_set(found.get_str(EXISTING)),
        task: task_for(name, found)?,
    })
}

/// The words passed, and yet no command with its folder was found.
pub(crate) fn nothing_asked(command: &mut Command<'_>) -> Error
    ensures { (kind_of result ≡ OutOfMemory) ⊎ (kind_of result ≡ MissingRequiredArgument) }
{
    match command.error(ErrorKind::MissingRequiredArgument, "no command was given") {
        Ok(error) => error,
        Err(memory) => Error::from(memory),
    }
}

/// What the words ask for: they are the program's name and a command with its folder and its options.
///
/// # Errors
///
/// Those of `clap`: help that was asked for, words that are refused, out of memory.
pub fn asked_in<'a, S: AsStr>(alloc: Global, words: &'a [S]) -> Result<Asked<'a>, Error>
    ensures asked { IfOk result (λ asked.
        asked_in (map S.text words.entry.now)
        ≡ Some (asked.folder.now, asked.existing, asked.task)) }
    ensures taken { (folder : Text) (existing : Bool) (task : Task)
        → AsksFor (map S.text words.entry.now) folder existing task
        → IfErr result (λ e. kind_of e ≡ OutOfMemory) }
    ensures faults { FailsBy (faults_of (map S.text words.entry.now)) result }
{
    match whole_command(alloc) {
        Ok(mut line) => asked_by_line(alloc, &mut line, words),
        Err(memory) => Err(Error::from(memory)),
    }
}

// The same by the line of these commands.
fn asked_by_line<'a, S: AsStr>(
    alloc: Global,
    line: &mut Command<'a>,
    words: &'a [S],
) -> Result<Asked<'a>, Error>
    requires { app_of line.old ≡ command_line }
    ensures asked { IfOk result (λ asked.
        asked_in (map S.text words.entry.now)
        ≡ Some (asked.folder.now, asked.existing, asked.task)) }
    ensures taken { (folder : Text) (existing : Bool) (task : Task)
        → AsksFor (map S.text words.entry.now) folder existing task
        → IfErr result (λ e. kind_of e ≡ OutOfMemory) }
    ensures faults { FailsBy (faults_of (map S.text words.entry.now)) result }
{
    match line.try_get_matches_from_mut(words) {
        Ok(matches) => match asked_by(&matches) {
            Some(asked) => Ok(asked),
            None => Err(nothing_asked(line)),
        },
        Err(error) => Err(with_tip(alloc, words, error)),
    }
}
