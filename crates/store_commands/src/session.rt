// A session over the store that a disk holds.
ghost use Rattle.std.specs.Prelude.{◌≡◌, ◌<◌, ◌-◌, ◌^◌, None, IfOk, IfErr};
ghost use Rattle.prevalence_store.specs.calls.Open.{IsUnopened};
ghost use Rattle.user_macros.specs.Functions.{are_registered};
ghost use Rattle.store_commands.specs.Commands.{AreStreamsUntouched};
ghost use Rattle.store_commands.specs.Accounts.{IsAccountOfSessions};
ghost use Rattle.store_commands.specs.Session.{IsSession, half_limit};

use crate::opening::Opening;
use crate::recipient::SessionRecipient;
use disk_trait::Disk;
use prevalence_store::Unopened;
use session_ledger::serve_recorded;
use sessions::{Ended, SessionOptions, write_zeros_ahead};
use std::io::Read;
use user_macros::MacroFunctions;

/// A session over the store that a disk holds, as it is wanted. The disk is given back as the store left it, and the macro functions.
///
/// It knows no way to the output but that of a session (`Recipient`): so nothing goes there that is not stored by then. The account of a
/// recipient that keeps one begins with this session, and has all of it at the end.
///
/// # Errors
///
/// Those of opening the store. Nothing is read or written then, and the disk and the macro functions are given back.
pub fn serve_on<D, M, I, O>(
    opening: Opening<D, M>,
    wanted: SessionOptions,
    input: &mut I,
    output: &mut O,
) -> Result<(Ended, D, M), Unopened<D, M>>
where
    D: Disk,
    M: MacroFunctions,
    I: Read,
    O: SessionRecipient<D, M, I>,
    requires room { (D.state opening.disk).failures < 2 ^ 64 - 1 }
    requires answers { M.answers opening.macros }
    requires none { O.account output.old ≡ None }
    ensures served { IfOk result (λ p. (session : IsSession M.Meaning.functions wanted
        D.state opening.disk opening.macros (I.remaining input.old) (I.remaining input.new)
        (O.contents output.old) (O.contents output.new) p.0 p.1)
        × IsAccountOfSessions M.Meaning.functions D.state wanted.mode (I.remaining input.old)
        session.opened session.closed (O.first output.new) (O.account output.new)) }
    ensures kept { IfOk result (λ p. p.2 ≡ opening.macros) }
    ensures refused { IfErr result (λ e. IsUnopened M.Meaning.functions D.state opening.disk
        (are_registered M.Meaning.functions (M.functions opening.macros)) half_limit e.number e.disk
        × AreStreamsUntouched input.old input.new output.old output.new) }
    ensures given_back { IfErr result (λ e. e.macros ≡ opening.macros) }
{
    let mut store = opening.open()?;
    write_zeros_ahead(&mut store, wanted);
    output.begin(&store, input, wanted.mode);
    let (generation, records) = (store.generation(), store.record_count());
    let ended = serve_recorded(&mut store, input, output, wanted);
    // zeros come with the second record
    let more = store.record_count() > records.saturating_add(1);
    let wrote = more | (store.generation() != generation);
    let cut = store.cut_zeros(wrote);
    let (disk, macros) = store.close();
    Ok((ended.after_cut(cut), disk, macros))
}
