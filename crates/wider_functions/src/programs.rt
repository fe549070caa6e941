//! Programs that know more: more operators, and more macro functions.
ghost use Rattle.std.specs.Prelude.{◌≡◌, ℕ, Bool, List, Ok, Some};
ghost use Rattle.disk_trait.specs.Disk.{Image, IsHonest};
ghost use Rattle.gate_log.specs.Layout.{LogRecord};
ghost use Rattle.plist_state.specs.State.{WorldState};
ghost use Rattle.session_words.specs.declared.mode.Mode.{Mode};
ghost use Rattle.prevalence_store.specs.calls.Open.{IsNoWord, IsOpened, IsUnopened, limit_at_open};
ghost use Rattle.prevalence_store.specs.calls.Store.{StoreView};
ghost use Rattle.prevalence_store.specs.meaning.Acceptance.{Acceptance, Rules};
ghost use Rattle.prevalence_store.specs.meaning.Acceptance.{accepts, accepts_by, after, after_by, rules_in_force};
ghost use Rattle.prevalence_store.specs.meaning.Files.{MeansWorld, MeansWorldBy};
ghost use Rattle.prevalence_store.specs.meaning.Version1.{MeansWorld1};
ghost use Rattle.user_macros.specs.Functions.{Functions};
ghost use Rattle.wider_functions.specs.Among.{AreAmong, AreRulesAmong};

use disk_trait::Disk;
use prevalence_store::version_1_stays;

/// What forms and files were to a program they are to one of today that has its operators and its macro functions, and perhaps more of
/// both.
///
/// - `accepted`: a form that is accepted is accepted, with the same value, the same world after it, and the same text in the log.
/// - `replayed`: records that leave a world leave this world.
/// - `files`: what files meant they mean.
/// - `version_1`: also to a program of version 1, by worlds that read in base 10.
pub fn newer_programs_keep_files()
    ensures accepted { (by : Rules) (fewer more : Functions) (world : WorldState) (mode : Mode)
        → (text : List ℕ) (given : Acceptance) → AreRulesAmong by rules_in_force → AreAmong fewer more
        → accepts_by by fewer world mode text ≡ Ok given → accepts more world mode text ≡ Ok given }
    ensures replayed { (by : Rules) (fewer more : Functions) (world later : WorldState)
        → (entries : List LogRecord) → AreRulesAmong by rules_in_force → AreAmong fewer more
        → after_by by fewer world entries ≡ Some later → after more world entries ≡ Some later }
    ensures files { (by : Rules) (fewer more : Functions) (image : Image) (world : WorldState)
        → AreRulesAmong by rules_in_force → AreAmong fewer more
        → MeansWorldBy by fewer image world → MeansWorld more image world }
    ensures version_1 { (fewer more : Functions) (image : Image) (world : WorldState)
        → AreAmong fewer more
        → MeansWorld1 fewer image world → MeansWorld more image world × (world.read_base ≡ 10) }
{
    version_1_stays();
}

/// A store that is opened by a program of today, on files which meant a world to a program that knew less, has this world. An opening
/// of such files is never refused for what they hold.
pub fn newer_programs_open<D: Disk, R>()
    ensures opened { (by : Rules) (fewer more : Functions) (disk : D) (macros : R) (limit : ℕ)
        → (store : StoreView D R) (world : WorldState) → AreRulesAmong by rules_in_force → AreAmong fewer more
        → IsHonest (D.state disk) → MeansWorldBy by fewer (D.state disk).reads world
        → (opened : IsOpened more D.state disk macros limit store) → opened.world ≡ world }
    ensures refused { (by : Rules) (fewer more : Functions) (disk back : D) (whole : Bool) (limit number : ℕ)
        → (world : WorldState) → AreRulesAmong by rules_in_force → AreAmong fewer more
        → IsHonest (D.state disk) → MeansWorldBy by fewer (D.state disk).reads world
        → (refused : IsUnopened more D.state disk whole limit number back)
        → IsNoWord (D.state disk).mixes (limit_at_open limit) (D.state disk).reads refused.fault }
{
    newer_programs_keep_files();
}
