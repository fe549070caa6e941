// The figures of a store that was seen, and of its files.
ghost use Rattle.std.specs.Prelude.{◌≡◌, ◌<◌, ◌-◌, ◌^◌, IfErr, IfOk, IfSome, MatchResult};
ghost use Rattle.store_looks.specs.LookReports.{TellsFigures, TellsFileFigures, TellsInfo, WithholdsFigures, WithholdsFileFigures, WithholdsInfo, notation_of};
ghost use Rattle.store_reports.specs.Figures.{info_text};
ghost use Rattle.user_macros.specs.Functions.{are_registered};

use crate::looks::{notation_for, opened, write_told};
use crate::measures::Measures;
use crate::unlooked::Unlooked;
use command_words::InfoPart;
use disk_trait::Disk;
use log_look::{Figures, Sight};
use prevalence_store::Store;
use std::alloc::{AllocError, Global};
use std::io::Write;
use store_commands::{Opening, Status};
use store_reports::{HalfFigures, Notation, file_info, half_figures, info};
use user_macros::MacroFunctions;

// Tells figures of the store and of its files. After an error nothing is written.
pub(crate) fn info_on<R, M, O>(
    rt: &R,
    folder: &str,
    part: InfoPart,
    opening: Opening<Sight, M>,
    output: &mut O,
) -> Result<Status, Unlooked>
where
    R: Measures + AllocGlobal,
    M: MacroFunctions + Drop,
    O: Write,
    requires answers { M.answers opening.macros }
    requires room { (⟦<Sight as Disk>⟧.state opening.disk).failures < 2 ^ 64 - 1 }
    ensures refused { IfErr result (λ _. output.new ≡ output.old) }
    ensures looks { MatchResult result
        (TellsInfo M.Meaning.functions opening.macros (O.contents output.old) (O.contents output.new) part
        (R.measures rt.now folder.now) opening.disk)
        (WithholdsInfo M.Meaning.functions opening.macros
        (are_registered M.Meaning.functions (M.functions opening.macros)) part (R.measures rt.now folder.now) opening.disk) }
{
    let notation = notation_for(part.json);
    if part.files {
        file_figures_on(rt, folder, notation, opening.disk, output)
    } else {
        figures_on(rt, folder, notation, opening, output)
    }
}

// Tells those of the half in use and of the files, without opening the store.
fn file_figures_on<R, O>(
    rt: &R,
    folder: &str,
    notation: Notation,
    sight: Sight,
    output: &mut O,
) -> Result<Status, Unlooked>
where
    R: Measures + AllocGlobal,
    O: Write,
    requires room { (⟦<Sight as Disk>⟧.state sight).failures < 2 ^ 64 - 1 }
    ensures refused { IfErr result (λ _. output.new ≡ output.old) }
    ensures looks { MatchResult result
        (TellsFileFigures (O.contents output.old) (O.contents output.new) notation (R.measures rt.now folder.now) sight)
        (WithholdsFileFigures (R.measures rt.now folder.now) sight) }
{
    let alloc = rt.alloc();
    let figures = rt.figures(folder)?;
    let (half, _sight) = half_figures(alloc, sight)?;
    let text = file_info(alloc, notation, &half, &figures)?;
    Ok(write_told(output, text.as_slice()))
}

// Tells these with those of the world.
fn figures_on<R, M, O>(
    rt: &R,
    folder: &str,
    notation: Notation,
    opening: Opening<Sight, M>,
    output: &mut O,
) -> Result<Status, Unlooked>
where
    R: Measures + AllocGlobal,
    M: MacroFunctions + Drop,
    O: Write,
    requires answers { M.answers opening.macros }
    requires room { (⟦<Sight as Disk>⟧.state opening.disk).failures < 2 ^ 64 - 1 }
    ensures refused { IfErr result (λ _. output.new ≡ output.old) }
    ensures looks { MatchResult result
        (TellsFigures M.Meaning.functions opening.macros (O.contents output.old) (O.contents output.new) notation
        (R.measures rt.now folder.now) opening.disk)
        (WithholdsFigures M.Meaning.functions opening.macros
        (are_registered M.Meaning.functions (M.functions opening.macros)) (R.measures rt.now folder.now) opening.disk) }
{
    let alloc = rt.alloc();
    let figures = rt.figures(folder)?;
    let (half, sight) = half_figures(alloc, opening.disk)?;
    let store = opened(alloc, sight, opening.macros, opening.seed)?;
    let told = info_of(alloc, &store, notation, &half, &figures);
    let _ = store.close();
    let text = told?;
    Ok(write_told(output, text.as_slice()))
}

// The figures of an open store.
fn info_of<M: MacroFunctions>(
    alloc: Global,
    store: &Store<Sight, M>,
    notation: Notation,
    half: &HalfFigures,
    files: &Figures,
) -> Result<Vec<u8>, AllocError>
    ensures { IfSome store.now.world (λ world.
        IfOk result (λ text. text.items ≡ info_text notation half.now world files.now)) }
{
    match store.world() {
        Some(world) => info(alloc, notation, half, world, files),
        None => Err(AllocError),
    }
}
