// The words of the commands that only look into a store: `show`, `info`, `log` and `backup`, `dump --at N` and `verify --json`.
ghost use Rattle.std.specs.Prelude.{◌≡◌, map, IfOk, Some};
ghost use Rattle.std.specs.Char.{is_ascii_digit};
ghost use Rattle.std.specs.List.{list_all};
ghost use Rattle.clap.specs.Words.{app_of, first_of, found_of, rows_of, subcommand_rows_of};
ghost use Rattle.command_words.specs.LookLine.{plain_number_of, looking_line, place_given, place_of, written_number, AreRecords, AsksToLook, IsInfo, IsLook, AsksToLookAt, HasShowOptions};
ghost use Rattle.command_words.specs.Rules.{FindsCommand};

use crate::help::{DUMP_USAGE, LOG_USAGE, SHOW_USAGE};
use crate::look_lines::looking_command;
use crate::rules::{DIRECTORY, PROGRAM, flag_is_set};
use crate::tips::with_tip;
use crate::words::{DUMP, VERIFY, nothing_asked};
use clap::error::ErrorKind;
use clap::{ArgMatches, Command, Error};
use std::alloc::{AllocError, Global};
use std::convert::AsStr;

pub(crate) const SHOW: &str = "show";

pub(crate) const INFO: &str = "info";

pub(crate) const LOG: &str = "log";

pub(crate) const BACKUP: &str = "backup";

pub(crate) const PACKAGE: &str = "package";

pub(crate) const INDICATOR: &str = "indicator";

pub(crate) const LIKE: &str = "like";

pub(crate) const FORMS: &str = "forms";

pub(crate) const SYMBOL: &str = "SYMBOL";

pub(crate) const JSON: &str = "json";

pub(crate) const COUNT: &str = "count";

pub(crate) const FILES: &str = "files";

pub(crate) const FROM: &str = "from";

pub(crate) const AT: &str = "at";

pub(crate) const PLACES: &str = "places";

pub(crate) const DESTINATION: &str = "DEST";

/// What is looked at.
#[derive(Clone, Copy, Debug)]
pub enum Look<'a> {
    /// Properties.
    Show(Shown<'a>),
    /// Figures of the store and of its files.
    Info(InfoPart),
    /// The records of the half in use.
    Log(Records),
    /// The world, of which a new store is made in this folder.
    Backup(&'a str),
    /// The text of the world after so many records of the half in use.
    Dump(RecordPlace),
    /// The half in use and the position of messages, as JSON.
    Verify,
}

/// Which figures are told, and how.
#[derive(Clone, Copy, Debug, PartialEq, Eq)]
pub struct InfoPart {
    /// Those alone that need no opening: of the half in use and of the files.
    pub files: bool,
    /// As JSON, and not as lines.
    pub json: bool,
}

/// Which records are told, and how.
#[derive(Clone, Copy, Debug, PartialEq, Eq)]
pub struct Records {
    /// Those from this one on, counted from 1.
    pub from: RecordPlace,
    /// With the generation before each number.
    pub places: bool,
    /// As JSON, and not as lines.
    pub json: bool,
}

/// The number of a record, and the generation that the half in use has to have, if one is given: `N` or `G.N`.
#[derive(Clone, Copy, Debug, PartialEq, Eq)]
pub struct RecordPlace {
    pub generation: Option<u64>,
    pub number: u64,
}

impl RecordPlace {
    /// The place that a word writes, of which the number is `least` or more.
    fn of(word: &str, least: u64) -> Option<RecordPlace>
        ensures { result ≡ place_given least (Some word.now) }
    {
        let place = place_of(word)?;
        if place.number < least {
            return None;
        }
        Some(place)
    }
}

// The place that a word writes.
fn place_of(word: &str) -> Option<RecordPlace>
    ensures { result ≡ place_of word.now }
{
    match word.split_once('.') {
        Some((generation, number)) => Some(RecordPlace {
            generation: Some(plain_number_of(generation)?),
            number: plain_number_of(number)?,
        }),
        None => Some(RecordPlace {
            generation: None,
            number: number_of(word)?,
        }),
    }
}

// The number that a word writes.
fn number_of(word: &str) -> Option<u64>
    ensures { result ≡ written_number word.now }
{
    match word.parse::<u64>() {
        Ok(number) => Some(number),
        Err(_) => None,
    }
}

// The number that a word of digits alone writes.
fn plain_number_of(word: &str) -> Option<u64>
    ensures { result ≡ plain_number_of word.now }
{
    if are_digits(word) {
        number_of(word)
    } else {
        None
    }
}

fn are_digits(word: &str) -> bool
    ensures { result ≡ list_all is_ascii_digit word.now }
{
    word.as_bytes().iter().all(|byte| byte.is_ascii_digit())
}

/// Which properties are shown, and how.
#[derive(Clone, Copy, Debug)]
pub struct Shown<'a> {
    /// Those of this symbol, as it is printed, and its home.
    pub symbol: Option<&'a str>,
    /// Those of the symbols of this package.
    pub package: Option<&'a str>,
    /// Those with an indicator of this name.
    pub indicator: Option<&'a str>,
    /// Those of symbols whose names are like this.
    pub like: Option<&'a str>,
    /// As forms, and not as lines.
    pub forms: bool,
    /// As JSON, and neither as forms nor as lines.
    pub json: bool,
    /// How many they are alone, and of how many symbols.
    pub count: bool,
}

/// What the words ask to look at.
#[derive(Clone, Copy, Debug)]
pub struct Looked<'a> {
    /// The folder of the store.
    pub folder: &'a str,
    pub look: Look<'a>,
}

/// What the words ask to look at: they are the program's name and such a command with its folder and its options.
///
/// # Errors
///
/// Those of `clap`: help that was asked for, words that are refused, out of memory.
pub fn looked_in<'a, S: AsStr>(alloc: Global, words: &'a [S]) -> Result<Looked<'a>, Error>
    ensures { IfOk result (λ looked. AsksToLook (map S.text words.entry.now) looked.folder.now looked.look) }
{
    match looking_command(alloc) {
        Ok(mut line) => looked_by_line(alloc, &mut line, words),
        Err(memory) => Err(Error::from(memory)),
    }
}

// The same by the line of these commands.
fn looked_by_line<'a, S: AsStr>(
    alloc: Global,
    line: &mut Command<'a>,
    words: &'a [S],
) -> Result<Looked<'a>, Error>
    requires { app_of line.old ≡ looking_line }
    ensures { IfOk result (λ looked. AsksToLook (map S.text words.entry.now) looked.folder.now looked.look) }
{
    match line.try_get_matches_from_mut(words) {
        Ok(matches) => match looked_by(&matches) {
            Ok(looked) => Ok(looked),
            Err(mistake) => Err(error_of(alloc, line, mistake)),
        },
        Err(error) => Err(with_tip(alloc, words, error)),
    }
}

// What `clap` does not refuse.
#[derive(Clone, Copy)]
enum Mistake<'a> {
    // There is no command with its folder.
    NoCommand,
    // Forms are asked for, and this too, which are no forms.
    FormsWith(&'static str),
    // The value of this option is no place.
    NoPlace(&'a str, &'a str),
}

// The refusal of words that passed.
fn error_of(alloc: Global, command: &mut Command<'_>, mistake: Mistake<'_>) -> Error {
    let told = match mistake {
        Mistake::NoCommand => return nothing_asked(command),
        Mistake::FormsWith(other) => two_layouts(alloc, other),
        Mistake::NoPlace(option, value) => no_place(alloc, option, value),
    };
    match told {
        Ok(error) => error,
        Err(memory) => Error::from(memory),
    }
}

// The error where `--forms` is asked for beside another layout.
fn two_layouts(alloc: Global, other: &str) -> Result<Error, AllocError> {
    let text = format!(in alloc; "the argument '--forms' cannot be used with '--{other}'")?;
    let mut show = Command::new(alloc, PROGRAM).override_usage(SHOW_USAGE);
    show.error(ErrorKind::ArgumentConflict, text.as_str())
}

// The error where the value of an option is no place of a record.
fn no_place(alloc: Global, option: &str, value: &str) -> Result<Error, AllocError> {
    let wanted = "the number of a record, or G.N: N in the half of generation G";
    let text = format!(in alloc; "invalid value '{value}' for '--{option} <N>': {wanted}")?;
    let usage = if option == AT { DUMP_USAGE } else { LOG_USAGE };
    let mut line = Command::new(alloc, PROGRAM).override_usage(usage);
    line.error(ErrorKind::ValueValidation, text.as_str())
}

// What was found.
fn looked_by<'a>(matches: &ArgMatches<'a>) -> Result<Looked<'a>, Mistake<'a>>
    ensures { IfOk result (λ looked.
        FindsCommand (AsksToLookAt looked.folder.now looked.look) (subcommand_rows_of matches.now)) }
{
    match matches.subcommand() {
        Some((name, found)) => looked_at(name, found),
        None => Err(Mistake::NoCommand),
    }
}

// What the command of this name looks at, and in which folder.
fn looked_at<'a>(name: &str, found: &ArgMatches<'a>) -> Result<Looked<'a>, Mistake<'a>>
    ensures { IfOk result (λ looked.
        AsksToLookAt looked.folder.now looked.look name.now (rows_of (found_of found.now))) }
{
    match found.get_str(DIRECTORY) {
        Some(folder) => {
            let look = look_for(name, found)?;
            Ok(Looked { folder, look })
        }
        None => Err(Mistake::NoCommand),
    }
}

// What the command of this name looks at.
fn look_for<'a>(name: &str, found: &ArgMatches<'a>) -> Result<Look<'a>, Mistake<'a>>
    ensures { IfOk result (IsLook name.now (rows_of (found_of found.now))) }
{
    match name {
        SHOW => Ok(Look::Show(one_layout(shown_by(found))?)),
        INFO => Ok(Look::Info(info_by(found))),
        LOG => Ok(Look::Log(records_by(found)?)),
        BACKUP => match found.get_str(DESTINATION) {
            Some(to) => Ok(Look::Backup(to)),
            None => Err(Mistake::NoCommand),
        },
        DUMP => Ok(Look::Dump(place_by(found, AT, 0)?)),
        VERIFY => Ok(Look::Verify),
        _ => Err(Mistake::NoCommand),
    }
}

// Which properties are shown.
fn shown_by<'a>(found: &ArgMatches<'a>) -> Shown<'a>
    ensures { HasShowOptions (rows_of (found_of found.now)) result }
{
    Shown {
        symbol: found.get_str(SYMBOL),
        package: found.get_str(PACKAGE),
        indicator: found.get_str(INDICATOR),
        like: found.get_str(LIKE),
        forms: flag_is_set(found.get_str(FORMS)),
        json: flag_is_set(found.get_str(JSON)),
        count: flag_is_set(found.get_str(COUNT)),
    }
}

// The same, if they are not to be written in two ways.
fn one_layout<'a>(shown: Shown<'a>) -> Result<Shown<'a>, Mistake<'a>>
    ensures { IfOk result (λ given. given ≡ shown.entry) }
{
    if shown.forms && shown.json {
        return Err(Mistake::FormsWith(JSON));
    }
    if shown.forms && shown.count {
        return Err(Mistake::FormsWith(COUNT));
    }
    Ok(shown)
}

// Which figures are told.
fn info_by(found: &ArgMatches<'_>) -> InfoPart
    ensures { IsInfo (rows_of (found_of found.now)) result }
{
    InfoPart {
        files: flag_is_set(found.get_str(FILES)),
        json: flag_is_set(found.get_str(JSON)),
    }
}

// Which records are told.
fn records_by<'a>(found: &ArgMatches<'a>) -> Result<Records, Mistake<'a>>
    ensures { IfOk result (AreRecords (rows_of (found_of found.now))) }
{
    Ok(Records {
        from: place_by(found, FROM, 1)?,
        places: flag_is_set(found.get_str(PLACES)),
        json: flag_is_set(found.get_str(JSON)),
    })
}

// The place of an option; the least one where it is not given.
fn place_by<'a>(
    found: &ArgMatches<'a>,
    option: &'static str,
    least: u64,
) -> Result<RecordPlace, Mistake<'a>>
    ensures { IfOk result (λ place.
        Some place ≡ place_given least (first_of option.entry.now (rows_of (found_of found.now)))) }
{
    let Some(value) = found.get_str(option) else {
        return Ok(RecordPlace {
            generation: None,
            number: least,
        });
    };
    match RecordPlace::of(value, least) {
        Some(place) => Ok(place),
        None => Err(Mistake::NoPlace(option, value)),
    }
}
