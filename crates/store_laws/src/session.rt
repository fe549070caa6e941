//! A session at each moment.
ghost use Rattle.std.specs.Prelude.{◌≡◌, List, [], ◌∷◌, ◌++◌};
ghost use Rattle.disk_trait.specs.Disk.{IsHonest};
ghost use Rattle.prevalence_store.specs.Theorem.{Keeps};
ghost use Rattle.sessions.specs.Account.{Account, AreStored, AreUnderWay, with_forms};
ghost use Rattle.prevalence_store.specs.calls.Store.{StoreView};
ghost use Rattle.store_laws.specs.SessionLines.{AreCalls, AreHanded, Handing, account_after, call_since, calls_of_handings};
ghost use Rattle.user_macros.specs.Functions.{Functions};

use crate::batch::batches;
use disk_trait::Disk;
use prevalence_store::headline;
use sessions::what_is_answered_is_stored;

/// What was done each time before lines were handed to the recipient of a session, one time after the other, is calls of the store in a
/// row, each of which has acknowledged all its forms. So `headline` holds of them, wherever they are parted: at any moment after the lines
/// of the earlier were handed on, while the later are under way, a crash leaves the world after some of the forms of the session, from
/// the first on, and after all whose lines were handed on; and of no group a part (`batches`).
///
/// - `further`: lines that the recipient was handed last come after the others, and its account is that after all of them.
/// - `handed`: up to the last line.
/// - `ended`: up to the end of the session, where some forms more may be in that were not answered.
pub fn sessions<D: Disk, R>()
    ensures further { (functions : Functions) (account : Account D) (handings : List (Handing D R))
        (last : Handing D R)
        → AreHanded functions D.state account handings
        → AreStored functions D.state (account_after account handings) last.store last.lines last.forms
        → AreHanded functions D.state account (handings ++ last ∷ [])
        × (account_after account (handings ++ last ∷ [])
        ≡ with_forms last.forms last.store (account_after account handings)) }
    ensures handed { (functions : Functions) (account : Account D) (handings : List (Handing D R))
        → (handed : AreHanded functions D.state account handings)
        → IsHonest (D.state account.disk) → Keeps functions (D.state account.disk) account.now
        → AreCalls functions D.state account (calls_of_handings functions D.state account handings handed) }
    ensures ended { (functions : Functions) (account : Account D) (handings : List (Handing D R))
        (store : StoreView D R)
        → (handed : AreHanded functions D.state account handings)
        → (since : AreUnderWay functions D.state (account_after account handings) store)
        → IsHonest (D.state account.disk) → Keeps functions (D.state account.disk) account.now
        → AreCalls functions D.state account (calls_of_handings functions D.state account handings handed
        ++ call_since functions D.state (account_after account handings) store since ∷ []) }
{
    headline::<D>();
    batches::<D>();
    what_is_answered_is_stored::<D, R>();
}
