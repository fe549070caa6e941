// Tips for a command and for an option that there is not.
ghost use Rattle.std.specs.Prelude.{◌≡◌, IfSome};
ghost use Rattle.clap.specs.Words.{kind_of};
ghost use Rattle.clap.specs.declared.error.kind.ErrorKind.TheVariants.{InvalidSubcommand, UnknownArgument};

use crate::check::CHECK;
use crate::help::COMMAND_USAGE;
use crate::looks::{BACKUP, INFO, LOG, SHOW};
use crate::rules::PROGRAM;
use crate::words::{DUMP, EXPORT, RUN, SNAPSHOT, UPGRADE, VERIFY};
use clap::error::ErrorKind;
use clap::{Command, Error};
use std::alloc::{AllocError, Global};
use std::convert::AsStr;

/// The names of all commands.
const NAMES: [&str; 11] = [
    RUN, SNAPSHOT, UPGRADE, EXPORT, DUMP, VERIFY, SHOW, INFO, LOG, BACKUP, CHECK,
];

/// The same refusal with the tip of this program in place of clap's: of a command that there is not, the nearest among the names of all
/// commands; of an option that there is not, none to pass it as a value, since no command has such values.
pub(crate) fn with_tip<S: AsStr>(alloc: Global, words: &[S], error: Error) -> Error
    ensures { kind_of result ≡ kind_of error }
{
    match error.kind() {
        ErrorKind::InvalidSubcommand => match unknown_name(alloc, words) {
            Some(told) => told,
            None => error,
        },
        ErrorKind::UnknownArgument => match unknown_option(alloc, &error) {
            Some(told) => told,
            None => error,
        },
        _ => error,
    }
}

// What is told of an option that there is not, if clap's text has that tip.
fn unknown_option(alloc: Global, error: &Error) -> Option<Error>
    ensures { IfSome result (λ told. kind_of told ≡ UnknownArgument) }
{
    let text = format!(in alloc; "{error}").ok()?;
    let (message, usage) = parts_around_tip(text.as_str())?;
    let mut line = Command::new(alloc, PROGRAM).override_usage(usage);
    line.error(ErrorKind::UnknownArgument, message).ok()
}

// What is refused, and how the command is called.
fn parts_around_tip(text: &str) -> Option<(&str, &str)> {
    let (refused, rest) = text.split_once("\n\n  tip: to pass '")?;
    let (_, rest) = rest.split_once("\n\nUsage: ")?;
    let (usage, _) = rest.split_once("\n\nFor more information")?;
    Some((refused.strip_prefix("error: ")?, usage))
}

// What clap says of a command that there is not.
fn unknown_name<S: AsStr>(alloc: Global, words: &[S]) -> Option<Error>
    ensures { IfSome result (λ error. kind_of error ≡ InvalidSubcommand) }
{
    match command_of_names(alloc) {
        Ok(mut line) => unknown_to(&mut line, words),
        Err(_) => None,
    }
}

// What this command line says of it.
fn unknown_to<'a, S: AsStr>(line: &mut Command<'a>, words: &'a [S]) -> Option<Error>
    ensures { IfSome result (λ error. kind_of error ≡ InvalidSubcommand) }
{
    match line.try_get_matches_from_mut(words) {
        Err(error) => match error.kind() {
            ErrorKind::InvalidSubcommand => Some(error),
            _ => None,
        },
        Ok(_) => None,
    }
}

// The program with the names of its commands alone.
fn command_of_names<'a>(alloc: Global) -> Result<Command<'a>, AllocError> {
    let mut command = Command::new(alloc, PROGRAM).override_usage(COMMAND_USAGE);
    for name in NAMES {
        command = command.subcommand(Command::new(alloc, name))?;
    }
    Ok(command)
}
