// The words of the command that looks for forms which cannot be read: `check [FILE] [--store DIR] [--json]`.
ghost use Rattle.std.specs.Prelude.{◌≡◌, codes, false, map, option_map, IfOk, IfSome, Some};
ghost use Rattle.clap.specs.Words.{app_of, first_of, found_of, rows_of, rule_of, subcommand_rows_of};
ghost use Rattle.clap.specs.declared.builder.command.Command.TheViews.{out-Command as fields_of};
ghost use Rattle.command_words.specs.CheckLine.{check_line, checking_line, file_given, file_rule, AsksToCheck, IsCheck};
ghost use Rattle.command_words.specs.Rules.{FindsCommand};

use crate::help::{CHECK_HELP, CHECK_USAGE};
use crate::look_lines::{bare_command, with_json};
use crate::looks::JSON;
use crate::rules::{Help, flag_is_set, new_command, with_arg, with_option};
use crate::tips::with_tip;
use crate::words::nothing_asked;
use clap::{Arg, ArgAction, ArgMatches, Command, Error};
use std::alloc::{AllocError, Global};
use std::convert::AsStr;

pub(crate) const CHECK: &str = "check";

const FILE: &str = "FILE";

const STORE: &str = "store";

/// The text whose forms are looked at.
#[derive(Clone, Copy, Debug)]
pub struct Check<'a> {
    /// The file; else standard input.
    pub file: Option<&'a str>,
    /// The folder of the store under whose world it is read; else it is that of a new store.
    pub store: Option<&'a str>,
    /// As JSON, and not as lines.
    pub json: bool,
}

/// What the words ask to look at: they are the program's name and `check` with its options.
///
/// # Errors
///
/// Those of `clap`: help that was asked for, words that are refused, out of memory.
pub fn checked_in<'a, S: AsStr>(alloc: Global, words: &'a [S]) -> Result<Check<'a>, Error>
    ensures { IfOk result (AsksToCheck (map S.text words.entry.now)) }
{
    match checking_command(alloc) {
        Ok(mut line) => checked_by_line(alloc, &mut line, words),
        Err(memory) => Err(Error::from(memory)),
    }
}

// The same by the line of this command.
fn checked_by_line<'a, S: AsStr>(
    alloc: Global,
    line: &mut Command<'a>,
    words: &'a [S],
) -> Result<Check<'a>, Error>
    requires { app_of line.old ≡ checking_line }
    ensures { IfOk result (AsksToCheck (map S.text words.entry.now)) }
{
    match line.try_get_matches_from_mut(words) {
        Ok(matches) => match check_by(&matches) {
            Some(check) => Ok(check),
            None => Err(nothing_asked(line)),
        },
        Err(error) => Err(with_tip(alloc, words, error)),
    }
}

// What was found, if it is the command.
fn check_by<'a>(matches: &ArgMatches<'a>) -> Option<Check<'a>>
    ensures { IfSome result (λ check.
        FindsCommand (λ name rows. IsCheck rows check) (subcommand_rows_of matches.now)) }
{
    let (_name, found) = matches.subcommand()?;
    Some(Check {
        file: file_in(found),
        store: found.get_str(STORE),
        json: flag_is_set(found.get_str(JSON)),
    })
}

// The file. One that is named by a hyphen is standard input.
fn file_in<'a>(found: &ArgMatches<'a>) -> Option<&'a str>
    ensures { option_map (λ file. file.now) result
        ≡ file_given (first_of (codes "FILE") (rows_of (found_of found.now))) }
{
    match found.get_str(FILE) {
        Some(name) => file_named(name),
        None => None,
    }
}

fn file_named<'a>(name: &'a str) -> Option<&'a str>
    ensures { option_map (λ file. file.now) result ≡ file_given (Some name.entry.now) }
{
    if name == "-" { None } else { Some(name) }
}

fn check_command<'a>(alloc: Global) -> Result<Command<'a>, AllocError>
    ensures line { IfOk result (λ command. app_of command ≡ check_line) }
    ensures local { IfOk result (λ command. (fields_of command).has_globals ≡ false) }
{
    let help = Help {
        about: "Tells which forms of a file cannot be read",
        usage: CHECK_USAGE,
        end: CHECK_HELP,
    };
    let command = with_arg(new_command(alloc, CHECK, help), file_place(alloc))?;
    let help = "Read under the packages and the readtable of this store";
    let command = with_option(command, alloc, STORE, "DIR", help)?;
    with_json(command, alloc)
}

fn file_place<'a>(alloc: Global) -> Arg<'a>
    ensures { (rule_of result ≡ file_rule) × (result.global ≡ false) }
{
    Arg::new(alloc, FILE)
        .help("The file; without it, or for -, standard input")
        .action(ArgAction::Set)
}

// The program with this command alone.
fn checking_command<'a>(alloc: Global) -> Result<Command<'a>, AllocError>
    ensures { IfOk result (λ command. app_of command ≡ checking_line) }
{
    let check = check_command(alloc)?;
    bare_command(alloc).subcommand(check)
}
