//! Figures of a store.
//! Where memory runs out, a part of what is to be added may be there.
ghost use Rattle.std.specs.Prelude.{◌≡◌, ◌+◌, ◌-◌, ◌^◌, ◌<◌, ◌++◌, length, IfErr, IfOk, OnOk};
ghost use Rattle.log_look.specs.FirstRecords.{LookIsUnopened};
ghost use Rattle.package_table.specs.Readers.{package_names};
ghost use Rattle.plist_state.specs.Readers.{borrowed_symbols, symbols_with_properties};
ghost use Rattle.store_reports.specs.Figures.{AreFiguresOf, counts_in, end_of_figures, file_info_text, files_text, half_figures_line, half_text, info_text, sizes_text, known_figure, property_count, symbol_count, told_number, verified_text, version_text, world_text};

use crate::manner::{HalfManner, manner_of, push_manner};
use crate::numbers::{Notation, push_figure};
use disk_trait::{Disk, Half};
use log_look::{Figures, LogError, Sight, open_sight};
use package_table::Packages;
use plist_state::World;
use std::alloc::{AllocError, Global};

/// What is told of the half in use.
#[derive(Clone, Copy, Debug)]
pub struct HalfFigures {
    pub half: Half,
    pub version: u16,
    pub generation: u64,
    pub records: u64,
    /// The bytes up to its closed gate, and that: so many the next opening reads.
    pub bytes: u64,
    /// The bytes that it had before its first record.
    pub first_bytes: u64,
    /// In which manner it is kept, where its version is 3.
    pub manner: Option<HalfManner>,
}

/// What is told of the half in use of what was seen, and the sight as it was. Where no half is open it is half A, and its numbers are 0.
///
/// # Errors
///
/// `Damaged` and `UnknownVersion` where the sight holds no log that can be read. Out of memory.
pub fn half_figures(alloc: Global, sight: Sight) -> Result<(HalfFigures, Sight), LogError>
    requires { (⟦<Sight as Disk>⟧.state sight).failures < 2 ^ 64 - 1 }
    ensures figures { IfOk result (λ told. AreFiguresOf (⟦<Sight as Disk>⟧.state sight).reads told.0) }
    ensures reads { IfOk result
        (λ told. (⟦<Sight as Disk>⟧.state told.1).reads ≡ (⟦<Sight as Disk>⟧.state sight).reads) }
    ensures room { IfOk result
        (λ told. (⟦<Sight as Disk>⟧.state told.1).failures ≡ (⟦<Sight as Disk>⟧.state sight).failures) }
    ensures refused { IfErr result (λ e. LookIsUnopened e (⟦<Sight as Disk>⟧.state sight).reads) }
{
    let log = open_sight(alloc, sight)?;
    let half = log.half();
    let version = log.version();
    let figures = HalfFigures {
        half,
        version,
        generation: log.generation(),
        records: log.record_count(),
        bytes: log.size(),
        first_bytes: log.first_size(),
        manner: manner_of(version, log.disk().file(half)),
    };
    Ok((figures, log.into_disk()))
}

// How many symbols are at home in the packages.
fn symbol_count(alloc: Global, packages: &Packages) -> Result<u64, AllocError>
    ensures { IfOk result (λ count. count ≡ told_number (symbol_count packages.now.0)) }
{
    let mut count = 0u64;
    let names = packages.package_names(alloc)?;
    for name in names.as_slice() {
        let Ok(names) = packages.own_names(alloc, name) else {
            return Err(AllocError);
        };
        count = count.saturating_add(names.len() as u64);
    }
    Ok(count)
}

// How many properties the symbols have that have some.
fn property_count(world: &World, owners: &[(&[u8], &[u8])]) -> u64
    requires { borrowed_symbols owners.now ≡ symbols_with_properties world.now.0 }
    ensures { result ≡ told_number (property_count world.now.0) }
{
    let mut count = 0u64;
    for owner in owners {
        let (home, name) = *owner;
        count = count.saturating_add(world.plist_of(home, name).len() as u64);
    }
    count
}

/// The figures of a store: names and numbers, a line each, or one object. Ages are in seconds; one that is not known is left out.
///
/// # Errors
///
/// Out of memory.
pub fn info(
    alloc: Global,
    notation: Notation,
    half: &HalfFigures,
    world: &World,
    files: &Figures,
) -> Result<Vec<u8>, AllocError>
    ensures { IfOk result (λ text. text.items ≡ info_text notation half.now world.now.0 files.now) }
{
    let mut text = Vec::new(alloc);
    push_half(alloc, &mut text, notation, half)?;
    push_world(alloc, &mut text, notation, world)?;
    push_files(alloc, &mut text, notation, files)?;
    push_end(&mut text, notation)?;
    Ok(text)
}

/// The same without those of the world.
///
/// # Errors
///
/// Out of memory.
pub fn file_info(
    alloc: Global,
    notation: Notation,
    half: &HalfFigures,
    files: &Figures,
) -> Result<Vec<u8>, AllocError>
    ensures { IfOk result (λ text. text.items ≡ file_info_text notation half.now files.now) }
{
    let mut text = Vec::new(alloc);
    push_half(alloc, &mut text, notation, half)?;
    push_files(alloc, &mut text, notation, files)?;
    push_end(&mut text, notation)?;
    Ok(text)
}

/// What is told of an open store that was verified, as one object: its half in use, and the position of messages, where there is one.
///
/// # Errors
///
/// Out of memory.
pub fn verified(
    alloc: Global,
    half: Half,
    generation: u64,
    records: u64,
    position: Option<u64>,
) -> Result<Vec<u8>, AllocError>
    ensures { IfOk result (λ text. text.items ≡ verified_text half generation records position) }
{
    let notation = Notation::Json;
    let mut text = Vec::new(alloc);
    push_letter(&mut text, notation, half)?;
    push_figure(alloc, &mut text, notation, b"generation", generation)?;
    push_figure(alloc, &mut text, notation, b"records", records)?;
    push_known(alloc, &mut text, notation, b"position", position)?;
    push_end(&mut text, notation)?;
    Ok(text)
}

fn push_letter(text: &mut Vec<u8>, notation: Notation, half: Half) -> Result<(), AllocError>
    ensures { OnOk result (text.new.items ≡ text.old.items ++ half_figures_line notation half) }
{
    let line: &[u8] = match (notation, half) {
        (Notation::Lines, Half::A) => b"half A\n",
        (Notation::Lines, Half::B) => b"half B\n",
        (Notation::Json, Half::A) => b"{\"half\":\"A\"",
        (Notation::Json, Half::B) => b"{\"half\":\"B\"",
    };
    text.extend_from_slice(line)
}

fn push_end(text: &mut Vec<u8>, notation: Notation) -> Result<(), AllocError>
    ensures { OnOk result (text.new.items ≡ text.old.items ++ end_of_figures notation) }
{
    let end: &[u8] = match notation {
        Notation::Lines => b"",
        Notation::Json => b"}\n",
    };
    text.extend_from_slice(end)
}

fn push_half(
    alloc: Global,
    text: &mut Vec<u8>,
    notation: Notation,
    half: &HalfFigures,
) -> Result<(), AllocError>
    ensures { OnOk result (text.new.items ≡ text.old.items ++ half_text notation half.now) }
{
    push_letter(text, notation, half.half)?;
    push_version(alloc, text, notation, half)?;
    push_figure(alloc, text, notation, b"generation", half.generation)?;
    push_sizes(alloc, text, notation, half)
}

fn push_version(
    alloc: Global,
    text: &mut Vec<u8>,
    notation: Notation,
    half: &HalfFigures,
) -> Result<(), AllocError>
    ensures { OnOk result (text.new.items ≡ text.old.items ++ version_text notation half.now) }
{
    push_figure(alloc, text, notation, b"version", half.version as u64)?;
    push_manner(alloc, text, notation, half.manner)
}

fn push_sizes(
    alloc: Global,
    text: &mut Vec<u8>,
    notation: Notation,
    half: &HalfFigures,
) -> Result<(), AllocError>
    ensures { OnOk result (text.new.items ≡ text.old.items ++ sizes_text notation half.now) }
{
    push_figure(alloc, text, notation, b"records", half.records)?;
    push_figure(alloc, text, notation, b"bytes", half.bytes)?;
    push_figure(alloc, text, notation, b"first-bytes", half.first_bytes)
}

// How much is in a world.
#[derive(Clone, Copy)]
struct FigureCounts {
    packages: u64,
    symbols: u64,
    owners: u64,
    properties: u64,
}

fn counts_of(alloc: Global, world: &World) -> Result<FigureCounts, AllocError>
    ensures { IfOk result (λ counts. counts ≡ counts_in world.now.0) }
{
    let packages = world.packages().package_names(alloc)?;
    let symbols = symbol_count(alloc, world.packages())?;
    let owners = world.owners(alloc)?;
    let properties = property_count(world, owners.as_slice());
    Ok(FigureCounts {
        packages: packages.len() as u64,
        symbols,
        owners: owners.len() as u64,
        properties,
    })
}

fn push_world(
    alloc: Global,
    text: &mut Vec<u8>,
    notation: Notation,
    world: &World,
) -> Result<(), AllocError>
    ensures { OnOk result (text.new.items ≡ text.old.items ++ world_text notation world.now.0) }
{
    let counts = counts_of(alloc, world)?;
    push_figure(alloc, text, notation, b"packages", counts.packages)?;
    push_figure(alloc, text, notation, b"symbols", counts.symbols)?;
    push_figure(
        alloc,
        text,
        notation,
        b"symbols-with-properties",
        counts.owners,
    )?;
    push_figure(alloc, text, notation, b"properties", counts.properties)
}

fn push_files(
    alloc: Global,
    text: &mut Vec<u8>,
    notation: Notation,
    files: &Figures,
) -> Result<(), AllocError>
    ensures { OnOk result (text.new.items ≡ text.old.items ++ files_text notation files.now) }
{
    push_figure(alloc, text, notation, b"half-a-bytes", files.bytes_a)?;
    push_figure(alloc, text, notation, b"half-b-bytes", files.bytes_b)?;
    push_known(alloc, text, notation, b"half-a-age", files.age_a)?;
    push_known(alloc, text, notation, b"half-b-age", files.age_b)
}

// Adds a number, where it is known.
fn push_known(
    alloc: Global,
    text: &mut Vec<u8>,
    notation: Notation,
    name: &[u8],
    number: Option<u64>,
) -> Result<(), AllocError>
    ensures { OnOk result (text.new.items ≡ text.old.items ++ known_figure notation name.now number) }
{
    match number {
        Some(number) => push_figure(alloc, text, notation, name, number),
        None => Ok(()),
    }
}
