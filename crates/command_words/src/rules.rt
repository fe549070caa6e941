// What the command lines are made of.
ghost use Rattle.std.specs.Prelude.{◌≡◌, false, option_map, IfOk};
ghost use Rattle.clap.specs.Words.{app_of, new_app, rule_of, with_rule};
ghost use Rattle.clap.specs.declared.builder.command.Command.TheViews.{out-Command as fields_of};
ghost use Rattle.command_words.specs.Rules.{flag_rule, folder_line, is_set, option_rule, place_rule};

use clap::{Arg, ArgAction, Command};
use std::alloc::{AllocError, Global};

/// The name of the program.
pub(crate) const PROGRAM: &str = "pazturrok";

pub(crate) const DIRECTORY: &str = "DIR";

pub(crate) const EXISTING: &str = "existing";

/// What the help says of a command.
#[derive(Clone, Copy)]
pub(crate) struct Help<'a> {
    pub(crate) about: &'a str,
    pub(crate) usage: &'a str,
    /// What comes after its options.
    pub(crate) end: &'a str,
}

/// A word that has to be there.
pub(crate) fn place<'a>(alloc: Global, name: &'a str, help: &'a str) -> Arg<'a>
    ensures { (rule_of result ≡ place_rule name.entry.now) × (result.global ≡ false) }
{
    Arg::new(alloc, name)
        .help(help)
        .required(true)
        .action(ArgAction::Set)
}

/// A flag.
pub(crate) fn flag<'a>(alloc: Global, name: &'a str, help: &'a str) -> Arg<'a>
    ensures { (rule_of result ≡ flag_rule name.entry.now) × (result.global ≡ false) }
{
    Arg::new(alloc, name)
        .long(name)
        .help(help)
        .action(ArgAction::SetTrue)
}

/// An option with one value, which the help calls so.
pub(crate) fn option<'a>(alloc: Global, name: &'a str, value: &'a str, help: &'a str) -> Arg<'a>
    ensures { (rule_of result ≡ option_rule name.entry.now) × (result.global ≡ false) }
{
    Arg::new(alloc, name)
        .long(name)
        .value_name(value)
        .help(help)
        .action(ArgAction::Set)
}

/// A command without arguments, of which the help says this.
pub(crate) fn new_command<'a>(alloc: Global, name: &'a str, help: Help<'a>) -> Command<'a>
    ensures line { app_of result ≡ new_app name.entry.now }
    ensures local { (fields_of result).has_globals ≡ false }
{
    Command::new(alloc, name)
        .about(help.about)
        .override_usage(help.usage)
        .after_help(help.end)
}

/// The command with one more argument. It fails only for want of memory.
pub(crate) fn with_arg<'a>(command: Command<'a>, arg: Arg<'a>) -> Result<Command<'a>, AllocError>
    requires { (arg.global ≡ false) × ((fields_of command).has_globals ≡ false) }
    ensures line { IfOk result (λ new. app_of new ≡ with_rule (app_of command.entry) (rule_of arg.entry)) }
    ensures local { IfOk result (λ new. (fields_of new).has_globals ≡ false) }
{
    command.arg(arg)
}

/// The command with one more flag. It fails only for want of memory.
pub(crate) fn with_flag<'a>(
    command: Command<'a>,
    alloc: Global,
    name: &'a str,
    help: &'a str,
) -> Result<Command<'a>, AllocError>
    requires { (fields_of command).has_globals ≡ false }
    ensures line { IfOk result
        (λ new. app_of new ≡ with_rule (app_of command.entry) (flag_rule name.entry.now)) }
    ensures local { IfOk result (λ new. (fields_of new).has_globals ≡ false) }
{
    with_arg(command, flag(alloc, name, help))
}

/// The command with one more option of one value, which the help calls so. It fails only for want of memory.
pub(crate) fn with_option<'a>(
    command: Command<'a>,
    alloc: Global,
    name: &'a str,
    value: &'a str,
    help: &'a str,
) -> Result<Command<'a>, AllocError>
    requires { (fields_of command).has_globals ≡ false }
    ensures line { IfOk result
        (λ new. app_of new ≡ with_rule (app_of command.entry) (option_rule name.entry.now)) }
    ensures local { IfOk result (λ new. (fields_of new).has_globals ≡ false) }
{
    with_arg(command, option(alloc, name, value, help))
}

/// A command with its folder and `--existing`, of which the help says this. It fails only for want of memory.
pub(crate) fn folder_command<'a>(
    alloc: Global,
    name: &'a str,
    help: Help<'a>,
    folder: &'a str,
    existing: &'a str,
) -> Result<Command<'a>, AllocError>
    ensures line { IfOk result (λ command. app_of command ≡ folder_line name.entry.now) }
    ensures local { IfOk result (λ command. (fields_of command).has_globals ≡ false) }
{
    let command = new_command(alloc, name, help);
    let command = with_arg(command, place(alloc, DIRECTORY, folder))?;
    with_flag(command, alloc, EXISTING, existing)
}

/// Whether a flag is there, by its value.
pub(crate) fn flag_is_set(flag: Option<&str>) -> bool
    ensures { result ≡ is_set (option_map (λ value. value.now) flag.entry) }
{
    match flag {
        Some("true") => true,
        _ => false,
    }
}
