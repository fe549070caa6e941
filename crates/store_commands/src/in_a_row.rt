// Sessions in a row over the store that a disk holds.
ghost use Rattle.std.specs.Prelude.{◌≡◌, ◌<◌, ◌-◌, ◌^◌, None, Some, IfOk, IfErr, IsSome};
ghost use Rattle.plist_state.specs.State.{WorldState};
ghost use Rattle.prevalence_store.specs.calls.Open.{IsUnopened};
ghost use Rattle.user_macros.specs.Functions.{are_registered};
ghost use Rattle.store_commands.specs.Accounts.{BeginsAccount, EndsAccount, IsAccountOfSessions};
ghost use Rattle.store_commands.specs.Commands.{AreStreamsUntouched};
ghost use Rattle.store_commands.specs.Session.{half_limit};
ghost use Rattle.store_commands.specs.SessionsInRow.{AreSessions, AreSessionsInTurn};

use crate::opening::Opening;
use crate::recipient::SessionRecipient;
use crate::terminal::Sessions;
use diagnostics::Refusal;
use disk_trait::Disk;
use prevalence_store::{Store, Unopened};
use session_ledger::serve_recorded;
use sessions::{Ended, SessionOptions};
use user_macros::MacroFunctions;

/// Sessions in a row over the store that a disk holds, as `serve_on` has one: after each one that a refusal ended the input is
/// asked for another. The end is that of the last one. Each of them begins an account, where the one before it ended.
///
/// # Errors
///
/// Those of opening the store. Nothing is read or written then, and the disk and the macro functions are given back.
pub fn sessions_on<D, M, I, O>(
    opening: Opening<D, M>,
    wanted: SessionOptions,
    input: &mut I,
    output: &mut O,
) -> Result<(Ended, D, M), Unopened<D, M>>
where
    D: Disk,
    M: MacroFunctions,
    I: Sessions,
    O: SessionRecipient<D, M, I>,
    requires room { (D.state opening.disk).failures < 2 ^ 64 - 1 }
    requires answers { M.answers opening.macros }
    requires none { O.account output.old ≡ None }
    ensures served { IfOk result (λ p. (sessions : AreSessions M.Meaning.functions wanted
        D.state opening.disk opening.macros (I.remaining input.old) (I.remaining input.new)
        (O.contents output.old) (O.contents output.new) p.0 p.1)
        × IsAccountOfSessions M.Meaning.functions D.state wanted.mode (I.remaining input.old)
        sessions.opened sessions.closed (O.first output.new) (O.account output.new)) }
    ensures kept { IfOk result (λ p. p.2 ≡ opening.macros) }
    ensures refused { IfErr result (λ e. IsUnopened M.Meaning.functions D.state opening.disk
        (are_registered M.Meaning.functions (M.functions opening.macros)) half_limit e.number e.disk
        × AreStreamsUntouched input.old input.new output.old output.new) }
    ensures given_back { IfErr result (λ e. e.macros ≡ opening.macros) }
{
    let mut store = opening.open()?;
    output.begin(&store, input, wanted.mode);
    let ended = serve_in_turn(&mut store, wanted, input, output);
    let (disk, macros) = store.close();
    Ok((ended, disk, macros))
}

// Sessions in a row on an open store, with the first of which the account of the recipient begins.
fn serve_in_turn<D, M, I, O>(
    store: &mut Store<D, M>,
    wanted: SessionOptions,
    input: &mut I,
    output: &mut O,
) -> Ended
where
    D: Disk,
    M: MacroFunctions,
    I: Sessions,
    O: SessionRecipient<D, M, I>,
    requires is_open { IsSome store.old.world }
    requires begins { BeginsAccount wanted.mode (I.remaining input.old) store.old (O.account output.old) }
    ensures serves { (world : WorldState) → store.old.world ≡ Some world
        → AreSessionsInTurn M.Meaning.functions wanted D.state store.old store.new world
        (I.remaining input.old) (I.remaining input.new)
        (O.contents output.old) (O.contents output.new) result }
    ensures ends { EndsAccount M.Meaning.functions D.state store.new (O.account output.new) }
    ensures first { O.first output.new ≡ O.first output.old }
    ensures macros { store.new.macros ≡ store.old.macros }
{
    let mut ended = serve_recorded(store, input, output, wanted);
    'sessions: for _ in 0..u64::MAX {
        let Some(refusal) = Refusal::of(ended, input) else {
            break;
        };
        if !input.next_session(&refusal) {
            break;
        }
        output.begin_again(store, input, wanted.mode);
        ended = serve_recorded(store, input, output, wanted);
    }
    ended
}
