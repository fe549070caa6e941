//! What the next program finds of what the last one answered.
ghost use Rattle.std.specs.Prelude.{◌≡◌, ℕ, List, Option, true};
ghost use Rattle.disk_trait.specs.Disk.{Image, IsHonest};
ghost use Rattle.machine_tests.specs.Machine.{IsLeftSince, calls_of_session};
ghost use Rattle.plist_state.specs.State.{WorldState};
ghost use Rattle.prevalence_store.specs.Theorem.{Keeps};
ghost use Rattle.prevalence_store.specs.calls.Open.{IsNoWord, IsUnopened, limit_at_open};
ghost use Rattle.sessions.specs.declared.ending.Ended.{Ended};
ghost use Rattle.session_words.specs.declared.wanted.SessionOptions.{SessionOptions};
ghost use Rattle.store_commands.specs.Session.{IsSession};
ghost use Rattle.store_laws.specs.Batches.{IsAfterCalls};
ghost use Rattle.user_macros.specs.Functions.{Functions};

use disk_trait::Disk;
use store_commands::what_a_session_wrote_is_there;

/// A session of the program over an honest disk was stopped at any moment from the one on at which lines had gone out for the k-th time, and
/// a crash left an image. Then a program with the same macro functions is started on an honest disk that reads this image.
///
/// - `found`: its session begins with the world after all forms of at least k times, and of no time a part.
/// - `refused`: if each function is registered, its store is refused for memory, a device fault, or no room for a first half alone.
/// - `unbegun`: where the first one was stopped while it opened the store, its session begins with the world that was there before.
pub fn what_was_answered_is_found<D: Disk, E: Disk, R, S>()
    ensures found { (functions : Functions) (wanted other : SessionOptions) (start back : D) (macros : R)
        → (had has held written : Option (List ℕ)) (ended : Ended)
        → IsHonest (D.state start)
        → (earlier : IsSession functions wanted D.state start macros had has held written ended back)
        → (k : ℕ) (image : Image) → IsLeftSince functions wanted D.state earlier k image
        → (crashed next : E) (others : S) (gave leaves holds wrote : Option (List ℕ)) (ending : Ended)
        → IsHonest (E.state crashed) → (E.state crashed).reads ≡ image
        → (again : IsSession functions other E.state crashed others gave leaves holds wrote ending next)
        → IsAfterCalls functions earlier.is_opened.world
        (calls_of_session functions wanted D.state earlier) k again.is_opened.world }
    ensures refused { (functions : Functions) (wanted : SessionOptions) (start back : D) (macros : R)
        → (had has held written : Option (List ℕ)) (ended : Ended)
        → IsHonest (D.state start)
        → (earlier : IsSession functions wanted D.state start macros had has held written ended back)
        → (k : ℕ) (image : Image) → IsLeftSince functions wanted D.state earlier k image
        → (crashed unopened : E) (limit number : ℕ)
        → IsHonest (E.state crashed) → (E.state crashed).reads ≡ image
        → (refused : IsUnopened functions E.state crashed true limit number unopened)
        → IsNoWord (E.state crashed).mixes (limit_at_open limit) image refused.fault }
    ensures unbegun { (functions : Functions) (wanted other : SessionOptions) (start back : D) (macros : R)
        → (had has held written : Option (List ℕ)) (ended : Ended) (before : WorldState)
        → IsHonest (D.state start) → Keeps functions (D.state start) before
        → (earlier : IsSession functions wanted D.state start macros had has held written ended back)
        → (image : Image) → (D.state earlier.opened.disk).left_since (D.state start).moment image
        → (crashed next : E) (others : S) (gave leaves holds wrote : Option (List ℕ)) (ending : Ended)
        → IsHonest (E.state crashed) → (E.state crashed).reads ≡ image
        → (again : IsSession functions other E.state crashed others gave leaves holds wrote ending next)
        → again.is_opened.world ≡ before }
{
    what_a_session_wrote_is_there::<D, R>();
}
