// The command line of the commands that open a store, with their options.
ghost use Rattle.std.specs.Prelude.{◌≡◌, codes, false, IfOk};
ghost use Rattle.clap.specs.Words.{app_of, rule_of, with_rule, with_subcommand};
ghost use Rattle.clap.specs.declared.builder.command.Command.TheViews.{out-Command as fields_of};
ghost use Rattle.command_words.specs.CommandLine.{command_line, every_rule, export_line, flags_line, program_line, ratio_rule, run_line, session_line, one_sync_line, writing_line};
ghost use Rattle.command_words.specs.Rules.{flag_rule, folder_line};

use crate::help::{
    DUMP_HELP, DUMP_USAGE, EXPORT_HELP, EXPORT_USAGE, PROGRAM_HELP, RUN_HELP, RUN_USAGE,
    SNAPSHOT_HELP, SNAPSHOT_USAGE, UPGRADE_HELP, UPGRADE_USAGE, USAGE, VERIFY_HELP, VERIFY_USAGE,
};
use crate::rules::{Help, PROGRAM, folder_command, option, with_arg, with_flag};
use crate::words::{
    DATA, DUMP, EVERY, EXPORT, GROUP, QUIET, RATIO, RESCUE, RUN, SNAPSHOT, STRICT, UPGRADE, VERIFY,
};
use clap::builder::ValueParser;
use clap::{Arg, Command};
use std::alloc::{AllocError, Global};

/// The version of the program, and of the files that it writes.
const PROGRAM_VERSION: &str = "0.1.0, files of version 2, with --one-sync of version 3";

const ONE_SYNC: &str = "one-sync";

/// A command with its folder, whose store is made where it is missing.
pub(crate) fn store_command<'a>(
    alloc: Global,
    name: &'a str,
    help: Help<'a>,
) -> Result<Command<'a>, AllocError>
    ensures line { IfOk result (λ command. app_of command ≡ folder_line name.entry.now) }
    ensures local { IfOk result (λ command. (fields_of command).has_globals ≡ false) }
{
    folder_command(
        alloc,
        name,
        help,
        "The folder of the store, made where it is missing",
        "Refuse a folder that holds no store, and make nothing",
    )
}

/// `--snapshot-every N`.
pub(crate) fn every_option<'a>(alloc: Global) -> Arg<'a>
    ensures { (rule_of result ≡ every_rule) × (result.global ≡ false) }
{
    let help = "Take a snapshot after each N forms that write, N from 1 to 1,000,000";
    option(alloc, EVERY, "N", help).value_parser(ValueParser::unsigned(1, 1_000_000))
}

fn ratio_option<'a>(alloc: Global) -> Arg<'a>
    ensures { (rule_of result ≡ ratio_rule) × (result.global ≡ false) }
{
    let help =
        "Take a snapshot once the half in use has 1 MiB and is R times as long as when it was begun, 10 if not given, 0 for never";
    option(alloc, RATIO, "R", help).value_parser(ValueParser::unsigned(0, u64::MAX))
}

fn export_command<'a>(alloc: Global) -> Result<Command<'a>, AllocError>
    ensures line { IfOk result (λ command. app_of command ≡ export_line) }
    ensures local { IfOk result (λ command. (fields_of command).has_globals ≡ false) }
{
    let help = Help {
        about: "Writes the forms that make the world",
        usage: EXPORT_USAGE,
        end: EXPORT_HELP,
    };
    let command = store_command(alloc, EXPORT, help)?;
    let help = "Leave the readtables out, so that another Lisp can load the forms";
    with_flag(command, alloc, DATA, help)
}

// A session, with its flags.
fn flags_command<'a>(alloc: Global) -> Result<Command<'a>, AllocError>
    ensures line { IfOk result (λ command. app_of command ≡ flags_line) }
    ensures local { IfOk result (λ command. (fields_of command).has_globals ≡ false) }
{
    let help = Help {
        about: "Serves the forms of standard input to standard output",
        usage: RUN_USAGE,
        end: RUN_HELP,
    };
    let command = store_command(alloc, RUN, help)?;
    let help = "Read each form under the standard readtable in COMMON-LISP-USER";
    let command = with_flag(command, alloc, RESCUE, help)?;
    let help = "End at the first form that is refused, with status 1";
    let command = with_flag(command, alloc, STRICT, help)?;
    let help = "Log the forms that are whole in what was read together, then answer them";
    with_flag(command, alloc, GROUP, help)
}

// The same with all that is wanted of it.
fn session_command<'a>(alloc: Global) -> Result<Command<'a>, AllocError>
    ensures line { IfOk result (λ command. app_of command ≡ session_line) }
    ensures local { IfOk result (λ command. (fields_of command).has_globals ≡ false) }
{
    let command = flags_command(alloc)?;
    let command = with_arg(command, every_option(alloc))?;
    with_arg(command, ratio_option(alloc))
}

fn run_command<'a>(alloc: Global) -> Result<Command<'a>, AllocError>
    ensures line { IfOk result (λ command. app_of command ≡ run_line) }
    ensures local { IfOk result (λ command. (fields_of command).has_globals ≡ false) }
{
    let command = session_command(alloc)?;
    let help = "Write the refusals alone, and at the end a count to standard error";
    let command = with_flag(command, alloc, QUIET, help)?;
    with_one_sync(command, alloc)
}

/// The command with `--one-sync`. It fails only for want of memory.
pub(crate) fn with_one_sync<'a>(
    command: Command<'a>,
    alloc: Global,
) -> Result<Command<'a>, AllocError>
    requires { (fields_of command).has_globals ≡ false }
    ensures line { IfOk result
        (λ new. app_of new ≡ with_rule (app_of command.entry) (flag_rule (codes "one-sync"))) }
    ensures local { IfOk result (λ new. (fields_of new).has_globals ≡ false) }
{
    let help =
        "Keep what is begun with one sync for a form that writes, on a disk whose writes mix";
    with_flag(command, alloc, ONE_SYNC, help)
}

// The program without its commands, which tells its version.
fn program_command<'a>(alloc: Global) -> Command<'a>
    ensures line { app_of result ≡ program_line }
    ensures local { (fields_of result).has_globals ≡ false }
{
    Command::new(alloc, PROGRAM)
        .version(PROGRAM_VERSION)
        .override_usage(USAGE)
        .override_help(PROGRAM_HELP)
}

// Adds a command that has nothing but its folder.
fn with_command<'a>(
    alloc: Global,
    program: Command<'a>,
    name: &'a str,
    help: Help<'a>,
) -> Result<Command<'a>, AllocError>
    ensures { IfOk result (λ command. app_of command
        ≡ with_subcommand (app_of program.entry) (folder_line name.entry.now).top) }
{
    let command = store_command(alloc, name, help)?;
    program.subcommand(command)
}

// A command that takes a snapshot.
fn snapshot_command<'a>(
    alloc: Global,
    name: &'a str,
    help: Help<'a>,
) -> Result<Command<'a>, AllocError>
    ensures line { IfOk result (λ command. app_of command ≡ one_sync_line name.entry.now) }
    ensures local { IfOk result (λ command. (fields_of command).has_globals ≡ false) }
{
    let command = store_command(alloc, name, help)?;
    with_one_sync(command, alloc)
}

// Adds such a command.
fn with_snapshot_command<'a>(
    alloc: Global,
    program: Command<'a>,
    name: &'a str,
    help: Help<'a>,
) -> Result<Command<'a>, AllocError>
    ensures { IfOk result (λ command. app_of command
        ≡ with_subcommand (app_of program.entry) (one_sync_line name.entry.now).top) }
{
    let command = snapshot_command(alloc, name, help)?;
    program.subcommand(command)
}

// The commands on a session, on snapshots and on forms.
fn writing_command<'a>(alloc: Global) -> Result<Command<'a>, AllocError>
    ensures { IfOk result (λ command. app_of command ≡ writing_line) }
{
    let run = run_command(alloc)?;
    let with_run = program_command(alloc).subcommand(run)?;
    let help = Help {
        about: "Takes a snapshot, and tells the half in use",
        usage: SNAPSHOT_USAGE,
        end: SNAPSHOT_HELP,
    };
    let with_snapshot = with_snapshot_command(alloc, with_run, SNAPSHOT, help)?;
    let help = Help {
        about: "Makes files of version 1 files of version 2, or with --one-sync of version 3",
        usage: UPGRADE_USAGE,
        end: UPGRADE_HELP,
    };
    with_snapshot_command(alloc, with_snapshot, UPGRADE, help)
}

/// The program with all commands that open a store.
pub(crate) fn whole_command<'a>(alloc: Global) -> Result<Command<'a>, AllocError>
    ensures { IfOk result (λ command. app_of command ≡ command_line) }
{
    let with_upgrade = writing_command(alloc)?;
    let export = export_command(alloc)?;
    let with_export = with_upgrade.subcommand(export)?;
    let with_dump = with_command(alloc, with_export, DUMP, dump_help())?;
    with_command(alloc, with_dump, VERIFY, verify_help())
}

/// What the help says of `dump`.
pub(crate) fn dump_help() -> Help<'static> {
    Help {
        about: "Writes the text of the world",
        usage: DUMP_USAGE,
        end: DUMP_HELP,
    }
}

/// What the help says of `verify`.
pub(crate) fn verify_help() -> Help<'static> {
    Help {
        about: "Tells the half in use, its generation and how many records it has",
        usage: VERIFY_USAGE,
        end: VERIFY_HELP,
    }
}
