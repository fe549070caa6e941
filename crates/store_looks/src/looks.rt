// Looks into the store of a folder: what is told of it with no lock and no right to write, also while it is served.
ghost use Rattle.std.specs.Borrow.{Bor};
ghost use Rattle.std.specs.Prelude.{◌≡◌, ◌<◌, ◌-◌, ◌^◌, true, map, IfErr, IfOk, IfSome, MatchResult};
ghost use Rattle.clap.specs.Words.{Text};
ghost use Rattle.command_words.specs.declared.looks.Look.TheVariants as looking;
ghost use Rattle.store_commands.specs.Status.{IsQuiet};
ghost use Rattle.store_commands.specs.EndLines.{TellsFault};
ghost use Rattle.store_commands.specs.declared.told.Remark.{Remark};
ghost use Rattle.prevalence_store.specs.calls.Open.{IsOpened};
ghost use Rattle.store_commands.specs.Session.{half_limit};
ghost use Rattle.command_words.specs.LookLine.{AsksToLook};
ghost use Rattle.store_reports.specs.Backup.{IsBackupMade, HasNoBackup};
ghost use Rattle.store_commands.specs.StatusAfterText.{TellsText};
ghost use Rattle.store_looks.specs.Looks.{EndsUnlooked, Prints};
ghost use Rattle.store_looks.specs.LookReports.{BacksUp, LooksAsAsked, LooksAt, SeesFolder, TellsDump, TellsLog, TellsLook, OpensAsNoStore, WithholdsBackup, WithholdsDump, WithholdsLog, WithholdsLook, notation_of, system_of};
ghost use Rattle.store_looks.specs.FailedLooks.{status_of};
ghost use Rattle.user_macros.specs.Functions.{are_registered};

use crate::figures::info_on;
use crate::measures::Measures;
use crate::seeds::Seeds;
use crate::showing::show_on;
use crate::unlooked::Unlooked;
use crate::verifying::verify_on;
use command_words::{Look, Looked, RecordPlace, Records, Report, looked_in};
use diagnostics::write_out;
use disk_trait::{Disk, HostError};
use lisp_object::refusal::INPUT;
use log_look::{Sight, cut_after};
use plist_state::Seed;
use prevalence_store::Store;
use std::alloc::Global;
use std::convert::AsStr;
use std::fmt::{Display, Write as WriteText};
use std::io::Write;
use store_commands::{
    Folders, HALF_LIMIT, Opening, Remark, Status, TellsCause, answer_words, end_with,
    end_with_told, open_folder, report_on, status_of_output,
};
use store_reports::{BackupError, LogPart, Notation, ShowError, StorePlaces, backup, log_lines};
use user_macros::MacroFunctions;

/// Looks into the store in a folder, as the words ask (`Way::Look` of `command_words`), and answers how that ended. The first word is the
/// program's name. The folder is opened by `folders`, of which nothing is locked, made or written.
///
/// What is told is the text of what was asked for, of the sight that this opening gave (`LooksAsAsked`). What was asked for and is not there, as a
/// package, a record or a free place for a backup, is status 2, with a sentence on `faults`, and nothing is written to `output` then, nor
/// after a fault but one of the output.
#[tactic(auto, using(crate::proofs::Printing::text_told, crate::proofs::Printing::nothing_told, crate::proofs::Printing::words_told))]
pub fn look<R, L, M, S, O, F>(
    rt: &R,
    folders: &L,
    macros: M,
    words: &[S],
    output: &mut O,
    faults: &mut F,
) -> Status
where
    R: Seeds + Measures + StorePlaces + AllocGlobal,
    L: Folders<Disk = Sight>,
    M: MacroFunctions + Drop,
    S: AsStr,
    O: Write,
    F: Write,
    requires answers { M.answers macros }
    requires may { (folder : Text) (to : Bor Text)
        → AsksToLook (map S.text words.now) folder (looking.Backup to)
        → R.may rt.now to.now }
    ensures prints { Prints O.contents output.old output.new result }
    ensures looks { LooksAsAsked M.Meaning.functions macros
        (are_registered M.Meaning.functions (M.functions macros))
        (system_of (R.measures rt.now) R.Disk.state (R.does rt.now)) (R.lacks rt.now)
        (SeesFolder ⟦<Sight as TellsCause>⟧.tells (L.opens folders.now))
        (map S.text words.now) (O.contents output.old) (O.contents output.new) result }
    ensures told { (told : Remark) × TellsFault result told (F.contents faults.old) (F.contents faults.new) }
    ensures quiet { IsQuiet result → faults.new ≡ faults.old }
{
    match looked_in(rt.alloc(), words) {
        Ok(looked) => match look_at(rt, folders, macros, looked, output) {
            Ok(status) => end_with(faults, status),
            Err(unlooked) => {
                let folder = folder_meant(looked, &unlooked);
                end_unlooked(faults, unlooked, Some(looked.look), folder)
            }
        },
        Err(error) => {
            let status = answer_words(&error, output, faults);
            end_with(faults, status)
        }
    }
}

// The folder of the store in which something failed, if it is known which: a backup has two.
fn folder_meant<'a>(looked: Looked<'a>, unlooked: &Unlooked) -> &'a str {
    match (looked.look, unlooked) {
        (_, Unlooked::Host(HostError::NoStore)) => looked.folder,
        (Look::Backup(_), _) => "",
        _ => looked.folder,
    }
}

// Ends where nothing is told of the store in a folder, by such a look if it was one, and says why. An empty folder is not told.
pub(crate) fn end_unlooked<F: Write>(
    faults: &mut F,
    unlooked: Unlooked,
    look: Option<Look<'_>>,
    folder: &str,
) -> Status
    ensures told { (told : Remark) × TellsFault result told (F.contents faults.old) (F.contents faults.new) }
    ensures quiet { IsQuiet result → faults.new ≡ faults.old }
    ensures refused { EndsUnlooked result }
    ensures status { result ≡ status_of unlooked }
{
    match unlooked {
        Unlooked::Fault(number) => end_with(faults, Status::Fault(number)),
        Unlooked::Host(error) => {
            let status = Status::of_host(&error);
            end_with_told(faults, status, &Remark::Cause(error), folder)
        }
        Unlooked::Show(error) => {
            match name_sought(look, &error) {
                Some(name) => tell_error_of(faults, name, &error),
                None => tell_error(faults, &error),
            }
            Status::WordsRefused
        }
        Unlooked::NoPlace(error) => {
            tell_error(faults, &error);
            Status::WordsRefused
        }
        Unlooked::Taken(error) => {
            tell_error(faults, &error);
            Status::WordsRefused
        }
        Unlooked::Unread(error) => {
            let mut shown = program_streams::ShownText::new(faults);
            let _ = writeln!(shown, "error: the file cannot be read: {error}");
            Status::WordsRefused
        }
    }
}

// The name that a look at properties was asked for and did not find.
fn name_sought<'a>(look: Option<Look<'a>>, error: &ShowError) -> Option<&'a str> {
    let Look::Show(shown) = look? else {
        return None;
    };
    match error {
        ShowError::NoPackage => shown.package,
        ShowError::NoSymbol => shown.symbol,
        ShowError::NoIndicator => shown.indicator,
        ShowError::OutOfMemory => None,
    }
}

// Tells why what has this name is not there.
fn tell_error_of<F: Write, E: Display>(faults: &mut F, name: &str, error: &E) {
    let mut shown = program_streams::ShownText::new(faults);
    let _ = writeln!(shown, "error: '{name}': {error}");
}

// Tells why what is asked for is not there. A name in it goes to a terminal.
fn tell_error<F: Write, E: Display>(faults: &mut F, error: &E) {
    let mut shown = program_streams::ShownText::new(faults);
    let _ = writeln!(shown, "error: {error}");
}

// What the files of a folder hold at one moment, of which one is a half in use.
#[tactic(auto, unfolding(crate::specs::LookReports::SeesFolder))]
pub(crate) fn sight_of<L: Folders<Disk = Sight>>(
    folders: &L,
    folder: &str,
) -> Result<Sight, HostError>
    ensures room { IfOk result (λ sight. (⟦<Sight as Disk>⟧.state sight).failures ≡ 0) }
    ensures sees { SeesFolder ⟦<Sight as TellsCause>⟧.tells (L.opens folders.now) folder.now result }
{
    open_folder(folders, folder, true)
}

// Tells of the store in a folder what is asked for.
fn look_at<R, L, M, O>(
    rt: &R,
    folders: &L,
    macros: M,
    looked: Looked<'_>,
    output: &mut O,
) -> Result<Status, Unlooked>
where
    R: Seeds + Measures + StorePlaces + AllocGlobal,
    L: Folders<Disk = Sight>,
    M: MacroFunctions + Drop,
    O: Write,
    requires answers { M.answers macros }
    requires may { (to : Bor Text) → looked.look ≡ looking.Backup to → R.may rt.now to.now }
    ensures refused { IfErr result (λ _. output.new ≡ output.old) }
    ensures looks { LooksAt M.Meaning.functions macros
        (are_registered M.Meaning.functions (M.functions macros))
        (system_of (R.measures rt.now) R.Disk.state (R.does rt.now)) (R.lacks rt.now)
        (SeesFolder ⟦<Sight as TellsCause>⟧.tells (L.opens folders.now))
        looked.entry.folder.now looked.entry.look (O.contents output.old) (O.contents output.new) result }
{
    let seed = match rt.seed() {
        Ok(seed) => seed,
        Err(_) => return Err(Unlooked::Fault(INPUT)),
    };
    match sight_of(folders, looked.folder) {
        Ok(sight) => look_into(rt, sight, macros, seed, looked, output),
        Err(error) => Err(Unlooked::Host(error)),
    }
}

// Tells of what was seen of a store what is asked for.
fn look_into<R, M, O>(
    rt: &R,
    sight: Sight,
    macros: M,
    seed: Seed,
    looked: Looked<'_>,
    output: &mut O,
) -> Result<Status, Unlooked>
where
    R: Measures + StorePlaces + AllocGlobal,
    M: MacroFunctions + Drop,
    O: Write,
    requires answers { M.answers macros }
    requires may { (to : Bor Text) → looked.look ≡ looking.Backup to → R.may rt.now to.now }
    requires room { (⟦<Sight as Disk>⟧.state sight).failures < 2 ^ 64 - 1 }
    ensures refused { IfErr result (λ _. output.new ≡ output.old) }
    ensures looks { MatchResult result
        (TellsLook M.Meaning.functions macros (O.contents output.old) (O.contents output.new)
        (system_of (R.measures rt.now) R.Disk.state (R.does rt.now)) looked.entry.folder.now looked.entry.look sight)
        (WithholdsLook M.Meaning.functions macros (are_registered M.Meaning.functions (M.functions macros))
        (system_of (R.measures rt.now) R.Disk.state (R.does rt.now)) looked.entry.folder.now looked.entry.look sight) }
{
    match looked.look {
        Look::Dump(place) => dump(rt.alloc(), sight, macros, seed, place, output),
        Look::Show(shown) => show_on(rt.alloc(), sight, macros, seed, shown, output),
        Look::Info(part) => {
            let opening = Opening {
                alloc: rt.alloc(),
                disk: sight,
                macros,
                seed,
            };
            info_on(rt, looked.folder, part, opening, output)
        }
        Look::Log(records) => log_on(rt.alloc(), sight, records, output),
        Look::Backup(to) => back_up(rt.alloc(), rt, sight, macros, seed, to),
        Look::Verify => verify_on(rt.alloc(), sight, macros, seed, output),
    }
}

// Writes what is told, and flushes it.
pub(crate) fn write_told<O: Write>(output: &mut O, text: &[u8]) -> Status
    ensures { TellsText result (O.contents output.old) (O.contents output.new) text.now }
{
    status_of_output(write_out(output, text))
}

// Writes the text of the world of a store that was seen, after so many of its records.
fn dump<M, O>(
    alloc: Global,
    sight: Sight,
    macros: M,
    seed: Seed,
    place: RecordPlace,
    output: &mut O,
) -> Result<Status, Unlooked>
where
    M: MacroFunctions + Drop,
    O: Write,
    requires answers { M.answers macros }
    requires room { (⟦<Sight as Disk>⟧.state sight).failures < 2 ^ 64 - 1 }
    ensures refused { IfErr result (λ _. output.new ≡ output.old) }
    ensures looks { MatchResult result
        (TellsDump M.Meaning.functions macros (O.contents output.old) (O.contents output.new) place sight)
        (WithholdsDump M.Meaning.functions macros
        (are_registered M.Meaning.functions (M.functions macros)) place sight) }
{
    let cut = cut_after(alloc, sight, place.number, place.generation)?;
    let opening = Opening {
        alloc,
        disk: cut,
        macros,
        seed,
    };
    match report_on(opening, Report::Dump, output) {
        Ok((status, _sight, _macros)) => Ok(status),
        Err(unopened) => Err(Unlooked::Fault(unopened.number)),
    }
}

/// How figures and records are written.
pub(crate) fn notation_for(json: bool) -> Notation
    ensures { result ≡ notation_of json }
{
    if json {
        Notation::Json
    } else {
        Notation::Lines
    }
}

// Writes the lines of records.
fn log_on<O: Write>(
    alloc: Global,
    sight: Sight,
    records: Records,
    output: &mut O,
) -> Result<Status, Unlooked>
    requires room { (⟦<Sight as Disk>⟧.state sight).failures < 2 ^ 64 - 1 }
    ensures refused { IfErr result (λ _. output.new ≡ output.old) }
    ensures lines { IfOk result (TellsLog (O.contents output.old) (O.contents output.new) records sight) }
    ensures none { IfErr result (WithholdsLog records sight) }
{
    let part = LogPart {
        from: records.from.number,
        generation: records.from.generation,
        with_generation: records.places,
        notation: notation_for(records.json),
    };
    let lines = log_lines(alloc, sight, &part)?;
    Ok(write_told(output, lines.as_slice()))
}

// The store that was seen, opened in memory.
pub(crate) fn opened<M: MacroFunctions + Drop>(
    alloc: Global,
    sight: Sight,
    macros: M,
    seed: Seed,
) -> Result<Store<Sight, M>, Unlooked>
    requires answers { M.answers macros }
    requires room { (⟦<Sight as Disk>⟧.state sight).failures < 2 ^ 64 - 1 }
    ensures opened { IfOk result
        (λ store. IsOpened M.Meaning.functions ⟦<Sight as Disk>⟧.state sight macros half_limit store) }
    ensures refused { IfErr result (OpensAsNoStore M.Meaning.functions
        (are_registered M.Meaning.functions (M.functions macros)) sight) }
{
    match Store::open_with_seed(alloc, sight, macros, HALF_LIMIT, seed) {
        Ok(store) => Ok(store),
        Err(unopened) => Err(Unlooked::Fault(unopened.number)),
    }
}

// Makes a new store of the world that was seen.
fn back_up<P, M>(
    alloc: Global,
    places: &P,
    sight: Sight,
    macros: M,
    seed: Seed,
    to: &str,
) -> Result<Status, Unlooked>
where
    P: StorePlaces,
    M: MacroFunctions + Drop,
    requires answers { M.answers macros }
    requires may { P.may places.now to.now }
    requires room { (⟦<Sight as Disk>⟧.state sight).failures < 2 ^ 64 - 1 }
    ensures { MatchResult result
        (BacksUp M.Meaning.functions macros (λ world. IsBackupMade P.Disk.state (P.does places.now) half_limit world to.now) sight)
        (WithholdsBackup M.Meaning.functions macros (are_registered M.Meaning.functions (M.functions macros))
        (λ world error. HasNoBackup P.Disk.state (P.does places.now) half_limit world to.now error) sight) }
{
    let store = opened(alloc, sight, macros, seed)?;
    let made = backed_up(alloc, places, &store, to);
    let _ = store.close();
    made?;
    Ok(Status::Done)
}

// Makes a new store of the world of an open one.
fn backed_up<P: StorePlaces, M: MacroFunctions>(
    alloc: Global,
    places: &P,
    store: &Store<Sight, M>,
    to: &str,
) -> Result<(), BackupError>
    requires may { P.may places.now to.now }
    ensures { IfSome store.now.world (λ world. MatchResult result
        (λ _. IsBackupMade P.Disk.state (P.does places.now) half_limit world to.now)
        (HasNoBackup P.Disk.state (P.does places.now) half_limit world to.now)) }
{
    match store.world() {
        Some(world) => backup(alloc, places, world, to, HALF_LIMIT),
        None => Err(BackupError::OutOfMemory),
    }
}
