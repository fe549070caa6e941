//! Files.
ghost use Rattle.std.specs.Prelude.{◌≡◌, ℕ, Bool, List};
ghost use Rattle.disk_trait.specs.Disk.{Image, IsHonest};
ghost use Rattle.gate_log.specs.Layout.{LogRecord};
ghost use Rattle.plist_state.specs.State.{WorldState};
ghost use Rattle.prevalence_store.specs.calls.Open.{IsNoWord, IsOpened, IsUnopened, limit_at_open};
ghost use Rattle.prevalence_store.specs.calls.Store.{StoreView};
ghost use Rattle.prevalence_store.specs.meaning.Files.{MeansWorld};
ghost use Rattle.prevalence_store.specs.Theorem.{Keeps, KeepsSome};
ghost use Rattle.user_macros.specs.Functions.{Functions};
ghost use Rattle.wider_functions.specs.Among.{AreAmong};

use disk_trait::Disk;

/// What files mean with some macro functions they mean with more.
///
/// - `files`: of an image.
/// - `kept`: of whatever a crash leaves of a disk.
/// - `some_kept`: also where that is the world after some of the forms that were taken, as after a device fault or a stop within a call.
pub fn files_keep_their_world<D: Disk>()
    ensures files { (fewer more : Functions) (image : Image) (world : WorldState)
        → AreAmong fewer more
        → MeansWorld fewer image world → MeansWorld more image world }
    ensures kept { (fewer more : Functions) (disk : D) (world : WorldState)
        → AreAmong fewer more
        → Keeps fewer (D.state disk) world → Keeps more (D.state disk) world }
    ensures some_kept { (fewer more : Functions) (disk : D) (world : WorldState)
        → (forms : List LogRecord) (least : ℕ) → AreAmong fewer more
        → KeepsSome fewer (D.state disk) world forms least
        → KeepsSome more (D.state disk) world forms least }
{}

/// A store that is opened with more macro functions on files which meant a world has this world. An opening of such files is never
/// refused for what they hold.
pub fn more_functions_open<D: Disk, R>()
    ensures opened { (fewer more : Functions) (disk : D) (macros : R) (limit : ℕ) (store : StoreView D R)
        → (world : WorldState) → AreAmong fewer more
        → IsHonest (D.state disk) → MeansWorld fewer (D.state disk).reads world
        → (opened : IsOpened more D.state disk macros limit store) → opened.world ≡ world }
    ensures refused { (fewer more : Functions) (disk back : D) (whole : Bool) (limit number : ℕ)
        → (world : WorldState) → AreAmong fewer more
        → IsHonest (D.state disk) → MeansWorld fewer (D.state disk).reads world
        → (refused : IsUnopened more D.state disk whole limit number back)
        → IsNoWord (D.state disk).mixes (limit_at_open limit) (D.state disk).reads refused.fault }
{
    files_keep_their_world::<D>();
}
