// The forms that make the world of the store that a disk holds.
ghost use Rattle.std.specs.Prelude.{◌≡◌, ◌<◌, ◌-◌, ◌^◌, IsSome, IfSome, IfOk, IfErr};
ghost use Rattle.prevalence_store.specs.calls.Open.{IsUnopened};
ghost use Rattle.user_macros.specs.Functions.{are_registered};
ghost use Rattle.world_forms.specs.Forms.{forms};
ghost use Rattle.world_forms.specs.Properties.{left_out_lines};
ghost use Rattle.store_commands.specs.Report.{IsExport, TellsForms};
ghost use Rattle.store_commands.specs.Session.{half_limit};

use crate::opening::Opening;
use crate::status::Status;
use diagnostics::write_out;
use disk_trait::Disk;
use lisp_object::refusal::{NO_MEMORY, OUTPUT, REOPEN};
use prevalence_store::{Store, Unopened};
use std::alloc::Global;
use std::io::Write;
use user_macros::MacroFunctions;
use world_forms::{Content, Export, all_forms};

/// Writes the forms that make the world of the store that a disk holds. Answers how that ended, and a line for each property that
/// no form can set. The disk is given back as the opening left it, and the macro functions.
///
/// # Errors
///
/// Those of opening the store. Nothing is written then, and the disk and the macro functions are given back.
pub fn export_on<D, M, O>(
    opening: Opening<D, M>,
    content: Content,
    output: &mut O,
) -> Result<(Status, D, M, Vec<u8>), Unopened<D, M>>
where
    D: Disk,
    M: MacroFunctions,
    O: Write,
    requires room { (D.state opening.disk).failures < 2 ^ 64 - 1 }
    requires answers { M.answers opening.macros }
    ensures exports { IfOk result (λ p. IsExport M.Meaning.functions D.state content
        opening.disk opening.macros (O.contents output.old) (O.contents output.new) p.0 p.1 p.3.items) }
    ensures kept { IfOk result (λ p. p.2 ≡ opening.macros) }
    ensures refused { IfErr result (λ e. IsUnopened M.Meaning.functions D.state opening.disk
        (are_registered M.Meaning.functions (M.functions opening.macros)) half_limit e.number e.disk
        × (output.new ≡ output.old)) }
    ensures given_back { IfErr result (λ e. e.macros ≡ opening.macros) }
{
    let alloc = opening.alloc;
    let store = opening.open()?;
    let (status, left_out) = write_forms(alloc, &store, content, output);
    let (disk, macros) = store.close();
    Ok((status, disk, macros, left_out))
}

// Writes the forms that make the world of an open store.
fn write_forms<D: Disk, M: MacroFunctions, O: Write>(
    alloc: Global,
    store: &Store<D, M>,
    content: Content,
    output: &mut O,
) -> (Status, Vec<u8>)
    requires known { IsSome store.now.world }
    ensures { IfSome store.now.world
        (λ world. TellsForms result.0 (O.contents output.old) (O.contents output.new)
        (forms world content) (left_out_lines world) result.1.items) }
{
    // a store that was just opened has a world
    let Some(world) = store.world() else {
        return (Status::Fault(REOPEN), Vec::new(alloc));
    };
    match all_forms(alloc, world, content) {
        Ok(exported) => {
            let status = write_exported(&exported, output);
            (status, exported.left_out)
        }
        Err(_) => (Status::Fault(NO_MEMORY), Vec::new(alloc)),
    }
}

// Writes forms.
fn write_exported<O: Write>(exported: &Export, output: &mut O) -> Status
    ensures { TellsForms result (O.contents output.old) (O.contents output.new)
        exported.now.forms.items exported.now.left_out.items exported.now.left_out.items }
{
    match write_out(output, exported.forms.as_slice()) {
        Ok(()) if exported.left_out.is_empty() => Status::Done,
        Ok(()) => Status::LeftOut,
        Err(_) => Status::Fault(OUTPUT),
    }
}
