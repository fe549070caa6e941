// Which forms of a file cannot be read.
ghost use Rattle.std.specs.Prelude.{◌≡◌, ◌++◌, IfErr, IfOk, IfSome, List, OnOk, map};
ghost use Rattle.std.specs.List.{flat_map};
ghost use Rattle.command_words.specs.LookLine.{text_of as borrowed_text};
ghost use Rattle.diagnostics.specs.declared.refusal.Refusal.{Refusal as Refused};
ghost use Rattle.log_look.specs.declared.sight.Sight.{Sight as Seen};
ghost use Rattle.plist_state.specs.Sound.{IsSoundWorldState as IsSoundState};
ghost use Rattle.world_text.specs.Snapshot.{snapshot};
ghost use Rattle.store_commands.specs.Status.{IsQuiet};
ghost use Rattle.store_commands.specs.EndLines.{TellsFault};
ghost use Rattle.store_commands.specs.declared.told.Remark.{Remark};
ghost use Rattle.store_looks.specs.CheckReports.{AreRefusalsOf, Checks, EndsCheck, FindsIn, IsCheckText, IsRefusalOfUnreadable, IsTextOf, IsWorldCheckedUnder, TellsCheckedText, unreadable_text};
ghost use Rattle.store_looks.specs.LookReports.{LookHasWorldThat};

use crate::looks::{end_unlooked, notation_for, opened, sight_of};
use crate::seeds::Seeds;
use crate::unlooked::Unlooked;
use crate::unreadable::{push_counts, push_refusal};
use command_words::{Check, checked_in};
use diagnostics::{Refusal, Spot, Spots, write_out};
use form_check::{Checked, Under, Unreadable};
use lisp_object::refusal::{DAMAGED, INPUT, NO_MEMORY, OUTPUT};
use log_look::Sight;
use plist_state::{Seed, World};
use prevalence_store::Store;
use sessions::Place;
use snapshot_text::SnapshotError;
use std::alloc::{AllocError, Global};
use std::convert::AsStr;
use std::fs;
use std::fs::File;
use std::io::{ErrorKind, Read, Write};
use std::path::Path;
use std::rt::Files;
use store_commands::{Looking, Status, answer_words, end_with};
use store_reports::Notation;
use user_macros::MacroFunctions;

/// The version of the text of a world as it is written.
const VERSION: u16 = 2;

/// Tells which forms of a file, or of the input, cannot be read, as the words ask (`Way::Check` of `command_words`), and answers how that
/// ended. Nothing is evaluated. The first word is the program's name.
///
/// A line on each goes to `output`, or an object, and one with how many forms there are. A file that cannot be read is status 2, with a sentence on
/// `faults`.
pub fn check<R, M, S, I, O, F>(
    rt: &R,
    macros: M,
    words: &[S],
    input: &mut I,
    output: &mut O,
    faults: &mut F,
) -> Status
where
    R: Files<File = File> + Seeds + AllocGlobal,
    M: MacroFunctions + Drop,
    S: AsStr,
    I: Read,
    O: Write,
    F: Write,
    requires answers { M.answers macros }
    ensures checks { Checks M.Meaning.functions (M.functions macros) macros (I.remaining input.old)
        (O.contents output.old) (O.contents output.new) (map S.text words.now) result }
    ensures told { (told : Remark) × TellsFault result told (F.contents faults.old) (F.contents faults.new) }
    ensures quiet { IsQuiet result → faults.new ≡ faults.old }
{
    match checked_in(rt.alloc(), words) {
        Ok(asked) => match check_asked(rt, macros, asked, input, output) {
            Ok(status) => end_with(faults, status),
            Err(unlooked) => end_unlooked(faults, unlooked, None, asked.store.unwrap_or("")),
        },
        Err(error) => {
            let status = answer_words(&error, output, faults);
            end_with(faults, status)
        }
    }
}

// Tells of the text that is asked for.
fn check_asked<R, M, I, O>(
    rt: &R,
    macros: M,
    asked: Check<'_>,
    input: &mut I,
    output: &mut O,
) -> Result<Status, Unlooked>
where
    R: Files<File = File> + Seeds + AllocGlobal,
    M: MacroFunctions + Drop,
    I: Read,
    O: Write,
    requires answers { M.answers macros }
    ensures tells { IfOk result
        (TellsCheckedText M.Meaning.functions (M.functions macros) macros (I.remaining input.old)
        (O.contents output.old) (O.contents output.new) asked.entry) }
    ensures refused { IfErr result (λ _. output.new ≡ output.old) }
{
    let alloc = rt.alloc();
    let text = text_of(rt, asked.file, input)?;
    let (world, macros) = world_of(rt, macros, asked.store)?;
    let found = check_in(alloc, &world, &macros, text.as_slice())?;
    let lines = lines_of(alloc, notation_for(asked.json), text.as_slice(), &found)?;
    let unreadable = found.unreadable.as_slice();
    let all_are_readable = unreadable.is_empty();
    Ok(write_lines(output, lines.as_slice(), all_are_readable))
}

// Writes what is told, and flushes it.
#[tactic(auto, unfolding(crate::specs::CheckReports::EndsCheck))]
fn write_lines<O: Write>(output: &mut O, lines: &[u8], all_are_readable: bool) -> Status
    ensures { EndsCheck all_are_readable (O.contents output.old) (O.contents output.new) lines.now result }
{
    match write_out(output, lines) {
        Ok(()) if all_are_readable => Status::Done,
        Ok(()) => Status::FormRefused,
        Err(_) => Status::Fault(OUTPUT),
    }
}

// The bytes of the file, or of the input.
#[tactic(auto, unfolding(crate::specs::CheckReports::IsTextOf))]
fn text_of<R, I>(rt: &R, file: Option<&str>, input: &mut I) -> Result<Vec<u8>, Unlooked>
where
    R: Files<File = File> + AllocGlobal,
    I: Read,
    ensures { IfOk result (λ text. IsTextOf (borrowed_text file.entry) (I.remaining input.old) text.items) }
{
    match file {
        Some(file) => read_file(rt, file),
        None => read_input(rt.alloc(), input),
    }
}

// The bytes of a file.
fn read_file<R: Files<File = File> + AllocGlobal>(rt: &R, file: &str) -> Result<Vec<u8>, Unlooked> {
    match fs::read(rt, Path::new(file)) {
        Ok(text) => Ok(text),
        Err(error) if error.kind() == ErrorKind::OutOfMemory => Err(Unlooked::Fault(NO_MEMORY)),
        Err(error) => Err(Unlooked::Unread(error)),
    }
}

// The bytes of the input.
fn read_input<I: Read>(alloc: Global, input: &mut I) -> Result<Vec<u8>, Unlooked>
    ensures { IfOk result (λ text. IfSome (I.remaining input.old) (λ all. text.items ≡ all)) }
{
    let mut text = Vec::new(alloc);
    match input.read_to_end(&mut text) {
        Ok(_) => Ok(text),
        Err(error) if error.kind() == ErrorKind::OutOfMemory => Err(Unlooked::Fault(NO_MEMORY)),
        Err(_) => Err(Unlooked::Fault(INPUT)),
    }
}

// The world under which a text is read: that of the store in this folder, or of a new one. The macro functions are given back.
#[tactic(auto, unfolding(crate::specs::CheckReports::IsWorldCheckedUnder))]
fn world_of<R, M>(rt: &R, macros: M, store: Option<&str>) -> Result<(World, M), Unlooked>
where
    R: Files<File = File> + Seeds + AllocGlobal,
    M: MacroFunctions + Drop,
    requires answers { M.answers macros }
    ensures macros { IfOk result (λ p. p.1 ≡ macros) }
    ensures world { IfOk result
        (λ p. IsWorldCheckedUnder M.Meaning.functions macros (borrowed_text store.entry) p.0.0) }
{
    let Ok(seed) = rt.seed() else {
        return Err(Unlooked::Fault(INPUT));
    };
    match store {
        Some(folder) => seen_world(rt, macros, folder, seed),
        None => Ok((World::with_seed(rt.alloc(), seed)?, macros)),
    }
}

// The world of the store in this folder, as it was at one moment.
fn seen_world<R, M>(rt: &R, macros: M, folder: &str, seed: Seed) -> Result<(World, M), Unlooked>
where
    R: Files<File = File> + Seeds + AllocGlobal,
    M: MacroFunctions + Drop,
    requires answers { M.answers macros }
    ensures macros { IfOk result (λ p. p.1 ≡ macros) }
    ensures world { IfOk result (λ p. (sight : Seen)
        × LookHasWorldThat M.Meaning.functions macros (λ had. p.0.0 ≡ had) sight) }
{
    let alloc = rt.alloc();
    let sight = sight_of(&Looking::new(rt), folder)?;
    let store = opened(alloc, sight, macros, seed)?;
    // the store keeps its world, so a copy is made, by way of its text
    let text = world_text(alloc, &store);
    let (_sight, macros) = store.close();
    match snapshot_text::read(alloc, VERSION, text?.as_slice(), &macros) {
        Ok(world) => Ok((world, macros)),
        Err(SnapshotError::OutOfMemory) => Err(Unlooked::Fault(NO_MEMORY)),
        Err(_) => Err(Unlooked::Fault(DAMAGED)),
    }
}

// The text of the world of an open store.
fn world_text<M: MacroFunctions>(
    alloc: Global,
    store: &Store<Sight, M>,
) -> Result<Vec<u8>, AllocError>
    ensures { IfSome store.now.world (λ world. IsSoundState world
        × IfOk result (λ text. text.items ≡ snapshot world)) }
{
    match store.world() {
        Some(world) => {
            world.soundness();
            snapshot_text::write(alloc, world)
        }
        None => Err(AllocError),
    }
}

// The forms of a text that cannot be read in a world.
#[tactic(auto, unfolding(crate::specs::CheckReports::FindsIn))]
fn check_in<M: MacroFunctions>(
    alloc: Global,
    world: &World,
    macros: &M,
    text: &[u8],
) -> Result<Checked, AllocError>
    requires answers { M.answers macros.now }
    ensures { IfOk result (λ found. FindsIn (M.functions macros.now) world.now.0 text.now
        (found.forms, found.unreadable.items)) }
{
    world.soundness();
    let under = Under {
        readtable: world.readtable(world.current_readtable()).unwrap(),
        base: world.read_base(),
        packages: world.packages(),
        current: world.current_package(),
    };
    form_check::check(alloc, &under, macros, text)
}

// What is told of a text: a line on each form that cannot be read, and one with how many there are, or such objects.
fn lines_of(
    alloc: Global,
    notation: Notation,
    text: &[u8],
    found: &Checked,
) -> Result<Vec<u8>, AllocError>
    ensures { IfOk result (λ lines.
        IsCheckText notation (found.now.forms, found.now.unreadable.items) lines.items) }
{
    let mut lines = Vec::new(alloc);
    push_refusals(
        alloc,
        &mut lines,
        notation,
        text,
        found.unreadable.as_slice(),
    )?;
    let unreadable = found.unreadable.len();
    push_counts(alloc, &mut lines, notation, found.forms, unreadable)?;
    Ok(lines)
}

// Adds what is told of each form that cannot be read.
fn push_refusals(
    alloc: Global,
    lines: &mut Vec<u8>,
    notation: Notation,
    text: &[u8],
    unreadable: &[Unreadable],
) -> Result<(), AllocError>
    ensures { OnOk result ((refusals : List Refused) × AreRefusalsOf unreadable.now refusals
        × (lines.new.items ≡ lines.old.items ++ flat_map (unreadable_text notation) refusals)) }
{
    let mut spot = Some(Spot::first());
    let mut passed = 0;
    for one in unreadable {
        let spots = spots_of(text, spot, passed, one);
        let refusal = refusal_of(one, spots);
        push_refusal(alloc, lines, notation, &refusal)?;
        (spot, passed) = (spots.map(|spots| spots.at), one.at);
    }
    Ok(())
}

// The lines of a form that cannot be read, from a place of the text on.
fn spots_of(text: &[u8], spot: Option<Spot>, passed: usize, one: &Unreadable) -> Option<Spots> {
    let start = spot?.through(text.get(passed..one.start)?)?;
    let at = start.through(text.get(one.start..one.at)?)?;
    Some(Spots { start, at })
}

fn refusal_of(one: &Unreadable, spots: Option<Spots>) -> Refusal
    ensures { IsRefusalOfUnreadable one.now result }
{
    Refusal {
        number: one.number,
        place: Place {
            forms: one.forms as u64,
            start: one.start as u64,
            at: one.at as u64,
        },
        spots,
    }
}
