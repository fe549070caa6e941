// The ledger of a session, its only way to the output.
ghost use Rattle.std.specs.Prelude.{◌≡◌, ℕ, List, Option, None, Some, IsSome};
ghost use Rattle.plist_state.specs.State.{WorldState};
ghost use Rattle.sessions.specs.Account.{Account, AreUnderWay, first_account};
ghost use Rattle.sessions.specs.Serve.{ServesWanted};
ghost use Rattle.session_ledger.specs.Ledger.{Agrees, account_from, named_first};
ghost use Rattle.session_ledger.specs.OutgoingLines.{WentOut};

use crate::proof_log::ProofLog;
use disk_trait::Disk;
use plist_state::World;
use prevalence_store::{Store, WholeMacros};
use sessions::{Ended, OutputFault, Recipient, SessionForm, SessionOptions, serve_wanted};
use std::io::Read;
use std::marker::{Brand, Model, PhantomData};
use store_laws::sessions;
use user_macros::MacroFunctions;

/// How a session begins, for proofs alone.
pub(crate) trait Origin<D> {
    /// Its account then.
    ghost first: { Option (Account D) };

    /// What the output held.
    ghost held: { Option (List ℕ) };

    /// The account with which the output itself began, if it keeps one.
    ghost theirs: { Option (Account D) };
}

impl<D> Origin<D> for Brand {
    ghost first = { None };

    ghost held = { None };

    ghost theirs = { None };
}

/// An output, and of what lines were handed to it.
struct Ledger<'a, D: Disk, M: MacroFunctions, O: Recipient<D, M>, B: Origin<D>> {
    output: &'a mut O,
    past: ProofLog<Store<D, M>, usize>,
    of: PhantomData<B>,
}

impl<'a, D: Disk, M: MacroFunctions, O: Recipient<D, M>, B: Origin<D>> Model
    for Ledger<'a, D, M, O, B> {
    ghost use Rattle.std.specs.Prelude.{◌≡◌};
    ghost use Rattle.session_ledger.specs.Ledger.{Agrees, IsAccountOf, LedgerView, account_from, ledger_code};

    ghost Value = { LedgerView D M O };

    ghost coded = { ledger_code D.code M.code O.code };

    ghost view = { λ l. record { output = l.output.now; name = l.output.ghost_name; past = l.past.items } };

    // its account comes of lines that were handed on, and they are what the output got
    ghost invariant = { λ l. IsAccountOf M.Meaning.functions D.state B.first B.held (O.contents l.output.now) l.past.items
        × Agrees (O.account l.output.now) (account_from B.first l.past.items)
        × (O.first l.output.now ≡ B.theirs) };
}

impl<D: Disk, M: MacroFunctions, O: Recipient<D, M>, B: Origin<D>> Recipient<D, M>
    for Ledger<'_, D, M, O, B> {
    ghost contents = { λ l. O.contents l.output };

    ghost account = { λ l. account_from B.first l.past };

    ghost first = { λ l. named_first B.first l.name };

    // Writes the lines to the output, and notes that so many forms were told of.
    fn write_lines(
        &mut self,
        store: &Store<D, M>,
        lines: &[u8],
        forms: usize,
    ) -> Result<(), OutputFault> {
        sessions::<D, M>();
        let written = self.output.write_lines(store, lines, forms);
        self.past = self.past.and(store, &forms);
        written
    }

    fn is_listening(&self) -> bool {
        self.output.is_listening()
    }

    fn hear_refusal(
        &mut self,
        world: &mut World,
        macros: &WholeMacros<M>,
        number: u16,
        form: SessionForm<'_>,
    ) {
        self.output.hear_refusal(world, macros, number, form);
    }
}

// Serves a session that begins so.
fn serve_from<D, M, I, O, B>(
    store: &mut Store<D, M>,
    input: &mut I,
    output: &mut O,
    wanted: SessionOptions,
) -> Ended
where
    D: Disk,
    M: MacroFunctions,
    I: Read,
    O: Recipient<D, M>,
    B: Origin<D>,
    // `B` says how it begins: the account, what the output holds, and the account of the output itself.
    requires begins { (world : WorldState) → store.old.world ≡ Some world
        → B.first ≡ Some (first_account world wanted.mode (I.remaining input.old) store.old.disk) }
    requires agrees { Agrees (O.account output.old) B.first }
    requires held { B.held ≡ O.contents output.old }
    requires theirs { B.theirs ≡ O.first output.old }
    requires is_open { IsSome store.old.world }

    // It serves as it is wanted, and this went out of it.
    ensures serves { (world : WorldState) → store.old.world ≡ Some world
        → ServesWanted M.Meaning.functions D.state wanted store.old store.new world
        (I.remaining input.old) (I.remaining input.new) (O.contents output.old)
        (O.contents output.new) result }
    ensures went { (world : WorldState) → store.old.world ≡ Some world
        → WentOut M.Meaning.functions D.state
        (first_account world wanted.mode (I.remaining input.old) store.old.disk) store.new
        (O.contents output.old) (O.contents output.new) }

    // An account that the output keeps itself is that of this session.
    ensures under_way { (kept : Account D) → O.account output.new ≡ Some kept
        → AreUnderWay M.Meaning.functions D.state kept store.new }
    ensures first { O.first output.new ≡ O.first output.old }
    ensures macros { store.new.macros ≡ store.old.macros }
{
    let mut ledger: Ledger<'_, D, M, O, B> = Ledger {
        output,
        past: ProofLog::new(),
        of: PhantomData,
    };
    let ended = serve_wanted(store, input, &mut ledger, wanted);
    let Ledger {
        output,
        past: _,
        of: _,
    } = ledger;
    // no effect at run time: the proof reads here what the output holds
    let _ = &*output;
    ended
}

/// A session over an open store, as it is wanted, whose lines go to the output through a ledger.
///
/// - `serves`: it serves as `serve_wanted` of sessions does.
/// - `went`: this went out of it.
/// - `under_way`, `first`: an account that the output keeps itself is that of this session, as there.
pub fn serve_recorded<D, M, I, O>(
    store: &mut Store<D, M>,
    input: &mut I,
    output: &mut O,
    wanted: SessionOptions,
) -> Ended
where
    D: Disk,
    M: MacroFunctions,
    I: Read,
    O: Recipient<D, M>,
    requires is_open { IsSome store.old.world }
    requires begins { (world : WorldState) → store.old.world ≡ Some world
        → (kept : Account D) → O.account output.old ≡ Some kept
        → kept ≡ first_account world wanted.mode (I.remaining input.old) store.old.disk }
    ensures serves { (world : WorldState) → store.old.world ≡ Some world
        → ServesWanted M.Meaning.functions D.state wanted store.old store.new world
        (I.remaining input.old) (I.remaining input.new) (O.contents output.old)
        (O.contents output.new) result }
    ensures went { (world : WorldState) → store.old.world ≡ Some world
        → WentOut M.Meaning.functions D.state
        (first_account world wanted.mode (I.remaining input.old) store.old.disk) store.new
        (O.contents output.old) (O.contents output.new) }
    ensures under_way { (kept : Account D) → O.account output.new ≡ Some kept
        → AreUnderWay M.Meaning.functions D.state kept store.new }
    ensures first { O.first output.new ≡ O.first output.old }
    ensures macros { store.new.macros ≡ store.old.macros }
{
    serve_from::<D, M, I, O, Brand>(store, input, output, wanted)
}
