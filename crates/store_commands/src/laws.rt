//! What the opening of a store that has to exist says of an honest disk, and what sessions in a row say of each moment.
ghost use Rattle.std.specs.Prelude.{◌≡◌, ◌≤◌, ℕ, List, Option, Some, true, Ok, length};
ghost use Rattle.clap.specs.Words.{Text};
ghost use Rattle.disk_trait.specs.Disk.{Image, IsHonest};
ghost use Rattle.plist_state.specs.State.{WorldState};
ghost use Rattle.sessions.specs.Account.{Account, AreUnderWay, first_account};
ghost use Rattle.prevalence_store.specs.calls.Store.{StoreView};
ghost use Rattle.sessions.specs.declared.ending.Ended.{Ended};
ghost use Rattle.session_ledger.specs.OutgoingLines.{calls_in, disk_after_lines};
ghost use Rattle.session_words.specs.declared.mode.Mode.{Mode};
ghost use Rattle.session_words.specs.declared.wanted.SessionOptions.{SessionOptions};
ghost use Rattle.store_commands.specs.Accounts.{AccountGoesOn};
ghost use Rattle.store_commands.specs.Folders.{HoldsStore, OpensStore};
ghost use Rattle.store_commands.specs.Session.{IsSession};
ghost use Rattle.store_commands.specs.SessionsInRow.{AreSessions, calls_in_turn};
ghost use Rattle.store_laws.specs.Batches.{MeansCalls};
ghost use Rattle.store_laws.specs.SessionLines.{AreCalls};
ghost use Rattle.user_macros.specs.Functions.{Functions};

use crate::folders::Folders;
use disk_trait::Disk;
use prevalence_store::headline;
use session_ledger::what_went_out_is_there;
use store_laws::{batches, sessions};

/// The disk that is opened where a store has to exist: if it is honest, one of both files is an open half.
pub fn existing_stores_are_open<R: Folders>()
    ensures { (rt : R) (folder : Text) (disk : R.Disk)
        → OpensStore R.Disk.state R.Disk.tells (R.opens rt) folder true (Ok disk)
        → IsHonest (R.Disk.state disk) → HoldsStore (R.Disk.state disk).reads }
{}

/// Where a recipient begins the account of another session, as `begin_again` asks, the session goes on where the last
/// one ended: between them there is a call of the store that acknowledges nothing. What was done each time before lines
/// were handed on is one too (`what_is_answered_is_stored` of sessions). So `headline` holds of sessions in a row, at
/// each moment. For proofs: it does nothing.
pub fn sessions_go_on<D: Disk, R>()
    ensures { (functions : Functions) (account : Account D) (store : StoreView D R) (world : WorldState)
        → (mode : Mode) (had : Option (List ℕ))
        → IsHonest (D.state account.disk) → AreUnderWay functions D.state account store
        → store.world ≡ Some world
        → AccountGoesOn functions D.state account (first_account world mode had store.disk) }
{}

/// A session of the program over an honest disk, from the opening of the store to its end: from the moment on at which lines went out for the
/// k-th time, a crash leaves the world after all forms of at least k times, and of no time a part. At 0 that is from the beginning on.
///
/// Sessions in a row, as at a terminal, are calls of the store in a row: one for each time that lines went out, and one more for each session,
/// which acknowledges nothing. So wherever they are parted, a crash from then on leaves the world after all forms of the earlier ones, and of no
/// call a part; and a store that is opened on it has that world.
pub fn what_a_session_wrote_is_there<D: Disk, R>()
    ensures one { (functions : Functions) (wanted : SessionOptions) (disk back : D) (macros : R)
        → (had has held written : Option (List ℕ)) (ended : Ended)
        → IsHonest (D.state disk)
        → (session : IsSession functions wanted D.state disk macros had has held written ended back)
        → (k : ℕ) → k ≤ length session.went.out.sent → (image : Image)
        → (D.state back).left_since (D.state (disk_after_lines
        (first_account session.is_opened.world wanted.mode had session.opened.disk) session.went.out.sent k)).moment image
        → MeansCalls functions session.is_opened.world (calls_in functions D.state
        (first_account session.is_opened.world wanted.mode had session.opened.disk) session.closed session.went) k image }

    ensures in_turn { (functions : Functions) (wanted : SessionOptions) (disk back : D) (macros : R)
        → (had has held written : Option (List ℕ)) (ended : Ended)
        → IsHonest (D.state disk)
        → (row : AreSessions functions wanted D.state disk macros had has held written ended back)
        → AreCalls functions D.state (first_account row.is_opened.world wanted.mode had row.opened.disk)
        (calls_in_turn functions wanted D.state row.opened row.closed row.is_opened.world had has held written ended row.serves) }
{
    headline::<D>();
    batches::<D>();
    sessions::<D, R>();
    what_went_out_is_there::<D, R>();
}
