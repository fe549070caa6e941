// How what the words ask for is carried out, which their command and its options say.
ghost use Rattle.std.specs.Prelude.{◌≡◌, map};
ghost use Rattle.command_words.specs.Ways.{asks_for_help, asks_for_quiet, begins_halves, has_option, is_look, is_option, is_report, syncs_asked, way_of, way_of_command, way_of_help};

use crate::check::CHECK;
use crate::looks::{BACKUP, INFO, LOG, SHOW};
use crate::words::{DUMP, EXPORT, RUN, SNAPSHOT, UPGRADE, VERIFY};
use std::convert::AsStr;

/// How what the words ask for is carried out.
#[derive(Clone, Copy, Debug, PartialEq, Eq)]
pub enum CommandWay {
    /// Over the files of a folder: `asked_in` has the words.
    Serve,
    /// The same, of messages in frames: `messages_in` has the words.
    Messages,
    /// Over what these files hold at one moment: `asked_in` has the words.
    See,
    /// By a look into them: `looked_in` has the words.
    Look,
    /// Without a folder, or by a look into one: `checked_in` has the words.
    Check,
}

/// With how many syncs a form that writes is to be kept, in the halves that are begun.
#[derive(Clone, Copy, Debug, PartialEq, Eq)]
pub enum Syncs {
    /// With one, where whoever gives the words says that the writes of the disk mix.
    One,
    /// With two, on any honest disk.
    Two,
}

/// How what the words ask for is carried out: the name of the command comes first, or `help` and that name. Words that no command has
/// are those of `asked_in`.
pub fn way_of<S: AsStr>(words: &[S]) -> CommandWay
    ensures { result ≡ way_of (map S.text words.now) }
{
    match words {
        [_, command, options @ ..] => way_of_command(command.as_str(), options),
        _ => CommandWay::Serve,
    }
}

// The same of a command with these options.
fn way_of_command<S: AsStr>(command: &str, options: &[S]) -> CommandWay
    ensures { result ≡ way_of_command command.now (map S.text options.now) }
{
    if is_look(command) {
        return CommandWay::Look;
    }
    if command == CHECK {
        return CommandWay::Check;
    }
    if command == "help" {
        return way_of_help(options);
    }
    if command == DUMP && (has_option(options, "--at") || asks_for_help(options)) {
        return CommandWay::Look;
    }
    if command == VERIFY && (has_option(options, "--json") || asks_for_help(options)) {
        return CommandWay::Look;
    }
    if is_report(command) && has_option(options, "--existing") {
        return CommandWay::See;
    }
    if command == RUN && has_option(options, "--messages") {
        return CommandWay::Messages;
    }
    CommandWay::Serve
}

// Whether a command only looks.
fn is_look(command: &str) -> bool
    ensures { result ≡ is_look command.now }
{
    command == SHOW || command == INFO || command == LOG || command == BACKUP
}

// Whether a command may be told of a store that is only looked into.
fn is_report(command: &str) -> bool
    ensures { result ≡ is_report command.now }
{
    command == DUMP || command == VERIFY || command == EXPORT
}

// Who has the help of a command, if one is named.
fn way_of_help<S: AsStr>(names: &[S]) -> CommandWay
    ensures { result ≡ way_of_help (map S.text names.now) }
{
    let [name, ..] = names else {
        return CommandWay::Serve;
    };
    let name = name.as_str();
    if is_look(name) || name == DUMP || name == VERIFY {
        CommandWay::Look
    } else if name == CHECK {
        CommandWay::Check
    } else {
        CommandWay::Serve
    }
}

/// Whether a session is to write refusals alone.
pub fn asks_for_quiet<S: AsStr>(words: &[S]) -> bool
    ensures { result ≡ asks_for_quiet (map S.text words.now) }
{
    match words {
        [_, command, options @ ..] => {
            command.as_str() == RUN && has_option(options, "--quiet") && !asks_for_help(options)
        }
        _ => false,
    }
}

/// With how many syncs the halves are to be kept that the command begins. A half that is there already stays as it is kept.
pub fn syncs_asked<S: AsStr>(words: &[S]) -> Syncs
    ensures { result ≡ syncs_asked (map S.text words.now) }
{
    match words {
        [_, command, options @ ..]
            if begins_halves(command.as_str()) && has_option(options, "--one-sync") => {
            Syncs::One
        }
        _ => Syncs::Two,
    }
}

// Whether a command may begin a half.
fn begins_halves(command: &str) -> bool
    ensures { result ≡ begins_halves command.now }
{
    command == RUN || command == SNAPSHOT || command == UPGRADE
}

fn asks_for_help<S: AsStr>(options: &[S]) -> bool
    ensures { result ≡ asks_for_help (map S.text options.now) }
{
    has_option(options, "--help") || has_option(options, "-h")
}

// Whether an option is among words. After two hyphens there are none.
fn has_option<S: AsStr>(words: &[S], option: &str) -> bool
    ensures { result ≡ has_option option.now (map S.text words.now) }
{
    for word in words {
        let word = word.as_str();
        if word == "--" {
            return false;
        }
        if is_option(word, option) {
            return true;
        }
    }
    false
}

// Whether a word is an option, alone or before its value.
fn is_option(word: &str, option: &str) -> bool
    ensures { result ≡ is_option option.now word.now }
{
    match word.split_once('=') {
        Some((name, _)) => name == option,
        None => word == option,
    }
}
