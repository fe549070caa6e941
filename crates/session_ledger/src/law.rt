// What is there once lines went out.
ghost use Rattle.std.specs.Prelude.{◌≡◌, ◌≤◌, ℕ, List, Option, length};
ghost use Rattle.disk_trait.specs.Disk.{Image, IsHonest};
ghost use Rattle.prevalence_store.specs.Theorem.{Keeps};
ghost use Rattle.sessions.specs.Account.{Account};
ghost use Rattle.prevalence_store.specs.calls.Store.{StoreView};
ghost use Rattle.session_ledger.specs.OutgoingLines.{WentOut, calls_in, disk_after_lines};
ghost use Rattle.store_laws.specs.Batches.{MeansCalls};
ghost use Rattle.user_macros.specs.Functions.{Functions};

use disk_trait::Disk;
use store_laws::sessions;

/// From the moment on at which lines went out for the k-th time, to the end of the session, a crash leaves the world after all forms of at
/// least k times, and of no time a part. At 0 that is from the beginning on.
pub fn what_went_out_is_there<D: Disk, R>()
    ensures { (functions : Functions) (first : Account D) (closed : StoreView D R)
        → (held written : Option (List ℕ)) → IsHonest (D.state first.disk)
        → Keeps functions (D.state first.disk) first.now
        → (went : WentOut functions D.state first closed held written)
        → (k : ℕ) → k ≤ length went.out.sent
        → (image : Image)
        → (D.state closed.disk).left_since (D.state (disk_after_lines first went.out.sent k)).moment image
        → MeansCalls functions first.now (calls_in functions D.state first closed went) k image }
{
    sessions::<D, R>();
}
