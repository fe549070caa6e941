// The words of a session of messages: `run DIR --messages`.
ghost use Rattle.std.specs.Prelude.{◌≡◌, ℕ, Bool, false, map, option_and_then, option_map, IfErr, IfOk, Some};
ghost use Rattle.clap.specs.Words.{FailsBy, Text, app_of, kind_of, subcommand_rows_of};
ghost use Rattle.clap.specs.declared.builder.command.Command.TheViews.{out-Command as fields_of};
ghost use Rattle.clap.specs.declared.error.kind.ErrorKind.TheVariants.{OutOfMemory};
ghost use Rattle.command_words.specs.MessageLine.{message_faults, message_line, messages_in, messages_line, messages_of, AsksForMessages};

use crate::help::{MESSAGES_HELP, MESSAGES_USAGE};
use crate::look_lines::bare_command;
use crate::rules::{DIRECTORY, EXISTING, Help, flag_is_set, with_arg, with_flag};
use crate::task_lines::{every_option, store_command, with_one_sync};
use crate::tips::with_tip;
use crate::words::{EVERY, RUN, nothing_asked, number_in};
use clap::{ArgMatches, Command, Error};
use std::alloc::{AllocError, Global};
use std::convert::AsStr;

const MESSAGES: &str = "messages";

/// What is wanted of a session of messages.
#[derive(Clone, Copy, Debug)]
pub struct Messages<'a> {
    /// The folder of the store.
    pub folder: &'a str,
    /// Whether the store has to be there already; else it is made if it is missing.
    pub existing: bool,
    /// After so many messages that wrote a snapshot is taken; never if this is 0.
    pub snapshot_every: u64,
}

/// What the words ask of a session of messages: they are the program's name, and `run` with its folder, `--messages` and its options.
///
/// # Errors
///
/// Those of `clap`: help that was asked for, words that are refused, out of memory.
pub fn messages_in<'a, S: AsStr>(alloc: Global, words: &'a [S]) -> Result<Messages<'a>, Error>
    ensures asked { IfOk result (λ messages.
        messages_in (map S.text words.entry.now)
        ≡ Some (messages.folder.now, messages.existing, messages.snapshot_every)) }
    ensures taken { (folder : Text) (existing : Bool) (every : ℕ)
        → AsksForMessages (map S.text words.entry.now) folder existing every
        → IfErr result (λ e. kind_of e ≡ OutOfMemory) }
    ensures faults { FailsBy (message_faults (map S.text words.entry.now)) result }
{
    match messages_command(alloc) {
        Ok(mut line) => messages_by_line(alloc, &mut line, words),
        Err(memory) => Err(Error::from(memory)),
    }
}

// The same by the line of this command.
fn messages_by_line<'a, S: AsStr>(
    alloc: Global,
    line: &mut Command<'a>,
    words: &'a [S],
) -> Result<Messages<'a>, Error>
    requires { app_of line.old ≡ messages_line }
    ensures asked { IfOk result (λ messages.
        messages_in (map S.text words.entry.now)
        ≡ Some (messages.folder.now, messages.existing, messages.snapshot_every)) }
    ensures taken { (folder : Text) (existing : Bool) (every : ℕ)
        → AsksForMessages (map S.text words.entry.now) folder existing every
        → IfErr result (λ e. kind_of e ≡ OutOfMemory) }
    ensures faults { FailsBy (message_faults (map S.text words.entry.now)) result }
{
    match line.try_get_matches_from_mut(words) {
        Ok(matches) => match messages_by(&matches) {
            Some(messages) => Ok(messages),
            None => Err(nothing_asked(line)),
        },
        Err(error) => Err(with_tip(alloc, words, error)),
    }
}

// What was found, if it is the command with its folder.
fn messages_by<'a>(matches: &ArgMatches<'a>) -> Option<Messages<'a>>
    ensures { option_map
        (λ messages. (messages.folder.now, messages.existing, messages.snapshot_every)) result
        ≡ option_and_then messages_of (subcommand_rows_of matches.now) }
{
    let (_name, found) = matches.subcommand()?;
    Some(Messages {
        folder: found.get_str(DIRECTORY)?,
        existing: flag_is_set(found.get_str(EXISTING)),
        snapshot_every: number_in(found, EVERY, 0),
    })
}

fn message_command<'a>(alloc: Global) -> Result<Command<'a>, AllocError>
    ensures line { IfOk result (λ command. app_of command ≡ message_line) }
    ensures local { IfOk result (λ command. (fields_of command).has_globals ≡ false) }
{
    let help = Help {
        about: "Serves messages with numbers, each carried out once",
        usage: MESSAGES_USAGE,
        end: MESSAGES_HELP,
    };
    let command = store_command(alloc, RUN, help)?;
    let help = "Serve frames in place of forms";
    let command = with_flag(command, alloc, MESSAGES, help)?;
    let command = with_arg(command, every_option(alloc))?;
    with_one_sync(command, alloc)
}

// The program with this command alone.
fn messages_command<'a>(alloc: Global) -> Result<Command<'a>, AllocError>
    ensures { IfOk result (λ command. app_of command ≡ messages_line) }
{
    let command = message_command(alloc)?;
    bare_command(alloc).subcommand(command)
}
