// The half in use of a store that was seen, and its position.
ghost use Rattle.std.specs.Prelude.{◌≡◌, ◌<◌, ◌-◌, ◌^◌, IfErr, IfOk, IfSome, MatchResult};
ghost use Rattle.messages.specs.Position.{position};
ghost use Rattle.store_looks.specs.LookReports.{TellsVerified, WithholdsVerified};
ghost use Rattle.store_reports.specs.Figures.{verified_text};
ghost use Rattle.user_macros.specs.Functions.{are_registered};

use crate::looks::{opened, write_told};
use crate::unlooked::Unlooked;
use disk_trait::Disk;
use log_look::Sight;
use plist_state::Seed;
use prevalence_store::Store;
use std::alloc::{AllocError, Global};
use std::io::Write;
use store_commands::Status;
use store_reports::verified;
use user_macros::MacroFunctions;

// Opens the store in memory, and tells its half in use and its position, as an object.
pub(crate) fn verify_on<M, O>(
    alloc: Global,
    sight: Sight,
    macros: M,
    seed: Seed,
    output: &mut O,
) -> Result<Status, Unlooked>
where
    M: MacroFunctions + Drop,
    O: Write,
    requires answers { M.answers macros }
    requires room { (⟦<Sight as Disk>⟧.state sight).failures < 2 ^ 64 - 1 }
    ensures refused { IfErr result (λ _. output.new ≡ output.old) }
    ensures looks { MatchResult result
        (TellsVerified M.Meaning.functions macros (O.contents output.old) (O.contents output.new) sight)
        (WithholdsVerified M.Meaning.functions (are_registered M.Meaning.functions (M.functions macros)) sight) }
{
    let store = opened(alloc, sight, macros, seed)?;
    let told = verified_of(alloc, &store);
    let _ = store.close();
    let text = told?;
    Ok(write_told(output, text.as_slice()))
}

// The half in use of an open store, and its position.
fn verified_of<M: MacroFunctions>(
    alloc: Global,
    store: &Store<Sight, M>,
) -> Result<Vec<u8>, AllocError>
    ensures { IfSome store.now.world (λ world. IfOk result (λ text.
        text.items ≡ verified_text store.now.half store.now.generation store.now.record_count (position world))) }
{
    let position = messages::position(store)?;
    verified(
        alloc,
        store.half(),
        store.generation(),
        store.record_count(),
        position,
    )
}
