// The properties of a store that was seen.
ghost use Rattle.std.specs.Prelude.{◌≡◌, ◌<◌, ◌-◌, ◌^◌, IfErr, IfSome, MatchResult};
ghost use Rattle.command_words.specs.LookLine.{text_of};
ghost use Rattle.store_looks.specs.LookReports.{IsSelection, TellsProperties, WithholdsProperties, TellsShown, WithholdsShown, notation_of};
ghost use Rattle.user_macros.specs.Functions.{are_registered};

use crate::looks::{notation_for, opened, write_told};
use crate::unlooked::Unlooked;
use command_words::Shown;
use disk_trait::Disk;
use log_look::Sight;
use plist_state::{Seed, World};
use prevalence_store::Store;
use std::alloc::Global;
use std::io::Write;
use store_commands::Status;
use store_reports::{Layout, Selection, ShowError, count, show};
use user_macros::MacroFunctions;

// Shows properties, or counts them. After an error nothing is written.
pub(crate) fn show_on<M, O>(
    alloc: Global,
    sight: Sight,
    macros: M,
    seed: Seed,
    shown: Shown<'_>,
    output: &mut O,
) -> Result<Status, Unlooked>
where
    M: MacroFunctions + Drop,
    O: Write,
    requires answers { M.answers macros }
    requires room { (⟦<Sight as Disk>⟧.state sight).failures < 2 ^ 64 - 1 }
    ensures refused { IfErr result (λ _. output.new ≡ output.old) }
    ensures looks { MatchResult result
        (TellsShown M.Meaning.functions macros (O.contents output.old) (O.contents output.new) shown.entry sight)
        (WithholdsShown M.Meaning.functions macros
        (are_registered M.Meaning.functions (M.functions macros)) shown.entry sight) }
{
    let selection = selection_of(shown);
    let store = opened(alloc, sight, macros, seed)?;
    let told = told_of(alloc, &store, &selection, shown);
    let _ = store.close();
    let text = told?;
    Ok(write_told(output, text.as_slice()))
}

// The properties of an open store that are asked for, or how many they are.
fn told_of<M: MacroFunctions>(
    alloc: Global,
    store: &Store<Sight, M>,
    selection: &Selection<'_>,
    shown: Shown<'_>,
) -> Result<Vec<u8>, ShowError>
    ensures { IfSome store.now.world (λ world. MatchResult result
        (λ text. TellsProperties shown.entry.count (notation_of shown.entry.json) selection.now world text.items)
        (WithholdsProperties shown.entry.count selection.now world)) }
{
    match store.world() {
        Some(world) => told_in(alloc, world, selection, shown),
        None => Err(ShowError::OutOfMemory),
    }
}

// The same of this world.
fn told_in(
    alloc: Global,
    world: &World,
    selection: &Selection<'_>,
    shown: Shown<'_>,
) -> Result<Vec<u8>, ShowError>
    ensures { MatchResult result
        (λ text. TellsProperties shown.entry.count (notation_of shown.entry.json) selection.now world.now.0 text.items)
        (WithholdsProperties shown.entry.count selection.now world.now.0) }
{
    if shown.count {
        count(alloc, world, selection, notation_for(shown.json))
    } else {
        show(alloc, world, selection)
    }
}

// Which properties the words ask for.
fn selection_of(shown: Shown<'_>) -> Selection<'_>
    ensures { IsSelection shown.entry result }
{
    let layout = if shown.json {
        Layout::Json
    } else if shown.forms {
        Layout::Forms
    } else {
        Layout::Lines
    };
    Selection {
        symbol: bytes_of(shown.symbol),
        package: bytes_of(shown.package),
        indicator: bytes_of(shown.indicator),
        like: bytes_of(shown.like),
        layout,
    }
}

fn bytes_of(name: Option<&str>) -> Option<&[u8]>
    ensures { text_of result ≡ text_of name.entry }
{
    match name {
        Some(name) => Some(name.as_bytes()),
        None => None,
    }
}
