// The command lines of the commands that only look into a store.
ghost use Rattle.std.specs.Prelude.{◌≡◌, codes, false, IfOk};
ghost use Rattle.clap.specs.Words.{app_of, rule_of, with_rule};
ghost use Rattle.clap.specs.declared.builder.command.Command.TheViews.{out-Command as fields_of};
ghost use Rattle.command_words.specs.LookLine.{backup_line, dump_line, info_line, layouts_line, log_line, looking_line, names_line, rows_line, show_line, symbol_rule, line_of_reports, verify_line, worlds_line};
ghost use Rattle.command_words.specs.Rules.{bare_line, flag_rule, folder_line};

use crate::help::{
    BACKUP_HELP, BACKUP_USAGE, INFO_HELP, INFO_USAGE, LOG_HELP, LOG_USAGE, SHOW_HELP, SHOW_USAGE,
    USAGE,
};
use crate::looks::{
    AT, BACKUP, COUNT, DESTINATION, FILES, FORMS, FROM, INDICATOR, INFO, JSON, LIKE, LOG, PACKAGE,
    PLACES, SHOW, SYMBOL,
};
use crate::rules::{Help, PROGRAM, folder_command, place, with_arg, with_flag, with_option};
use crate::task_lines::{dump_help, verify_help};
use crate::words::{DUMP, VERIFY};
use clap::{Arg, ArgAction, Command};
use std::alloc::{AllocError, Global};

// The program with these commands alone.
pub(crate) fn looking_command<'a>(alloc: Global) -> Result<Command<'a>, AllocError>
    ensures { IfOk result (λ command. app_of command ≡ looking_line) }
{
    let with_dump = worlds_command(alloc)?;
    let verify = verify_command(alloc)?;
    with_dump.subcommand(verify)
}

// The same without `verify`.
fn worlds_command<'a>(alloc: Global) -> Result<Command<'a>, AllocError>
    ensures { IfOk result (λ command. app_of command ≡ worlds_line) }
{
    let with_log = telling_command(alloc)?;
    let backup = backup_command(alloc)?;
    let with_backup = with_log.subcommand(backup)?;
    let dump = dump_command(alloc)?;
    with_backup.subcommand(dump)
}

// The program with those that tell something alone.
fn telling_command<'a>(alloc: Global) -> Result<Command<'a>, AllocError>
    ensures { IfOk result (λ command. app_of command ≡ line_of_reports) }
{
    let show = show_command(alloc)?;
    let with_show = bare_command(alloc).subcommand(show)?;
    let info = info_command(alloc)?;
    let with_info = with_show.subcommand(info)?;
    let log = log_command(alloc)?;
    with_info.subcommand(log)
}

// The program without its commands, of which one has to be there.
pub(crate) fn bare_command<'a>(alloc: Global) -> Command<'a>
    ensures line { app_of result ≡ bare_line }
    ensures local { (fields_of result).has_globals ≡ false }
{
    Command::new(alloc, PROGRAM)
        .override_usage(USAGE)
        .subcommand_required(true)
}

// A command with its folder, into which it only looks.
fn look_command<'a>(alloc: Global, name: &'a str, help: Help<'a>) -> Result<Command<'a>, AllocError>
    ensures line { IfOk result (λ command. app_of command ≡ folder_line name.entry.now) }
    ensures local { IfOk result (λ command. (fields_of command).has_globals ≡ false) }
{
    folder_command(
        alloc,
        name,
        help,
        "The folder of the store",
        "Refuse a folder that holds no store, and only look",
    )
}

fn show_command<'a>(alloc: Global) -> Result<Command<'a>, AllocError>
    ensures line { IfOk result (λ command. app_of command ≡ show_line) }
    ensures local { IfOk result (λ command. (fields_of command).has_globals ≡ false) }
{
    let command = layouts_command(alloc)?;
    let help = "Write how many they are alone, and of how many symbols";
    with_flag(command, alloc, COUNT, help)
}

// The same, which always writes the properties themselves.
fn layouts_command<'a>(alloc: Global) -> Result<Command<'a>, AllocError>
    ensures line { IfOk result (λ command. app_of command ≡ layouts_line) }
    ensures local { IfOk result (λ command. (fields_of command).has_globals ≡ false) }
{
    let command = names_command(alloc)?;
    let command = with_flag(command, alloc, FORMS, "Write the forms that set them")?;
    with_json(command, alloc)
}

// The same with the names that are asked for alone.
fn names_command<'a>(alloc: Global) -> Result<Command<'a>, AllocError>
    ensures line { IfOk result (λ command. app_of command ≡ names_line) }
    ensures local { IfOk result (λ command. (fields_of command).has_globals ≡ false) }
{
    let command = rows_command(alloc)?;
    let help = "Those of the symbols of this name, in any case; each * stands for any text";
    let command = with_option(command, alloc, LIKE, "NAME", help)?;
    with_arg(command, symbol_place(alloc))
}

fn symbol_place<'a>(alloc: Global) -> Arg<'a>
    ensures { (rule_of result ≡ symbol_rule) × (result.global ≡ false) }
{
    Arg::new(alloc, SYMBOL)
        .help("A symbol, as it is printed: its home, and its properties alone")
        .action(ArgAction::Set)
}

/// The same command, which may write JSON. It fails only for want of memory.
pub(crate) fn with_json<'a>(command: Command<'a>, alloc: Global) -> Result<Command<'a>, AllocError>
    requires { (fields_of command).has_globals ≡ false }
    ensures line { IfOk result (λ new. app_of new
        ≡ with_rule (app_of command.entry) (flag_rule (codes "json"))) }
    ensures local { IfOk result (λ new. (fields_of new).has_globals ≡ false) }
{
    with_flag(command, alloc, JSON, "Write JSON, an object a line")
}

fn info_command<'a>(alloc: Global) -> Result<Command<'a>, AllocError>
    ensures line { IfOk result (λ command. app_of command ≡ info_line) }
    ensures local { IfOk result (λ command. (fields_of command).has_globals ≡ false) }
{
    let help = Help {
        about: "Tells figures of a store and of its files",
        usage: INFO_USAGE,
        end: INFO_HELP,
    };
    let command = look_command(alloc, INFO, help)?;
    let help = "Those of the half in use and of the files alone, without opening the store";
    let command = with_flag(command, alloc, FILES, help)?;
    with_json(command, alloc)
}

// The same with the names of a package and of an indicator alone.
fn rows_command<'a>(alloc: Global) -> Result<Command<'a>, AllocError>
    ensures line { IfOk result (λ command. app_of command ≡ rows_line) }
    ensures local { IfOk result (λ command. (fields_of command).has_globals ≡ false) }
{
    let help = Help {
        about: "Shows properties of a store, as lines or as forms",
        usage: SHOW_USAGE,
        end: SHOW_HELP,
    };
    let command = look_command(alloc, SHOW, help)?;
    let help = "Those of the symbols of this package";
    let command = with_option(command, alloc, PACKAGE, "NAME", help)?;
    let help = "Those with an indicator of this name";
    with_option(command, alloc, INDICATOR, "NAME", help)
}

fn log_command<'a>(alloc: Global) -> Result<Command<'a>, AllocError>
    ensures line { IfOk result (λ command. app_of command ≡ log_line) }
    ensures local { IfOk result (λ command. (fields_of command).has_globals ≡ false) }
{
    let help = Help {
        about: "Writes the records of the half in use, a line each",
        usage: LOG_USAGE,
        end: LOG_HELP,
    };
    let command = look_command(alloc, LOG, help)?;
    let help = "From this record on, counted from 1; G.N is that of generation G";
    let command = with_option(command, alloc, FROM, "N", help)?;
    let help = "Write each number with the generation of the half before it, as G.N";
    let command = with_flag(command, alloc, PLACES, help)?;
    with_json(command, alloc)
}

fn backup_command<'a>(alloc: Global) -> Result<Command<'a>, AllocError>
    ensures line { IfOk result (λ command. app_of command ≡ backup_line) }
    ensures local { IfOk result (λ command. (fields_of command).has_globals ≡ false) }
{
    let help = Help {
        about: "Makes a new store with the world of a store",
        usage: BACKUP_USAGE,
        end: BACKUP_HELP,
    };
    let command = look_command(alloc, BACKUP, help)?;
    let help = "The folder of the new store, which must not be there";
    with_arg(command, place(alloc, DESTINATION, help))
}

fn dump_command<'a>(alloc: Global) -> Result<Command<'a>, AllocError>
    ensures line { IfOk result (λ command. app_of command ≡ dump_line) }
    ensures local { IfOk result (λ command. (fields_of command).has_globals ≡ false) }
{
    let command = look_command(alloc, DUMP, dump_help())?;
    let help =
        "The world after the first N records of the half in use; G.N of that of generation G";
    with_option(command, alloc, AT, "N", help)
}

fn verify_command<'a>(alloc: Global) -> Result<Command<'a>, AllocError>
    ensures line { IfOk result (λ command. app_of command ≡ verify_line) }
    ensures local { IfOk result (λ command. (fields_of command).has_globals ≡ false) }
{
    let command = look_command(alloc, VERIFY, verify_help())?;
    with_json(command, alloc)
}
