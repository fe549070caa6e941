//! Files of version 1, opened.
ghost use Rattle.std.specs.Prelude.{◌≡◌, ℕ, Bool};
ghost use Rattle.disk_trait.specs.Disk.{IsHonest};
ghost use Rattle.plist_state.specs.State.{WorldState};
ghost use Rattle.prevalence_store.specs.calls.Open.{IsNoWord, IsOpened, IsUnopened, limit_at_open};
ghost use Rattle.prevalence_store.specs.calls.Store.{StoreView};
ghost use Rattle.prevalence_store.specs.meaning.Version1.{MeansWorld1};
ghost use Rattle.user_macros.specs.Functions.{Functions};

use disk_trait::Disk;
use prevalence_store::version_1_stays;

/// A store that is opened on files which meant a world to a program of version 1 has this world, which reads in base 10. An opening
/// of such files is never refused for what they hold.
pub fn version_1_opens<D: Disk, R>()
    ensures opened { (functions : Functions) (disk : D) (macros : R) (limit : ℕ) (store : StoreView D R)
        (world : WorldState)
        → IsHonest (D.state disk) → MeansWorld1 functions (D.state disk).reads world
        → (opened : IsOpened functions D.state disk macros limit store)
        → (opened.world ≡ world) × (world.read_base ≡ 10) }
    ensures refused { (functions : Functions) (disk back : D) (whole : Bool) (limit number : ℕ)
        (world : WorldState)
        → IsHonest (D.state disk) → MeansWorld1 functions (D.state disk).reads world
        → (refused : IsUnopened functions D.state disk whole limit number back)
        → IsNoWord (D.state disk).mixes (limit_at_open limit) (D.state disk).reads refused.fault }
{
    version_1_stays();
}
