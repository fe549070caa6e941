//! More operators.
ghost use Rattle.std.specs.Prelude.{◌≡◌, ℕ, List, Ok, Some};
ghost use Rattle.disk_trait.specs.Disk.{Image};
ghost use Rattle.gate_log.specs.Layout.{LogRecord};
ghost use Rattle.plist_state.specs.State.{WorldState};
ghost use Rattle.session_words.specs.declared.mode.Mode.{Mode};
ghost use Rattle.prevalence_store.specs.meaning.Acceptance.{Acceptance, Rules, accepts_by, after_by};
ghost use Rattle.prevalence_store.specs.meaning.BeforeOperators.{rules_before_forgetting, rules_before_operators};
ghost use Rattle.prevalence_store.specs.meaning.Files.{MeansWorld, MeansWorldBy};
ghost use Rattle.user_macros.specs.Functions.{Functions};
ghost use Rattle.wider_functions.specs.Among.{AreRulesAmong};
ghost use Rattle.wider_functions.specs.EarlierRules.{rules_before_deciding, rules_before_places};

/// By rules with more operators forms and files stay what they were, in any world and mode and with any macro functions. The second
/// rules may let forms be longer, too, and have FORGET-NAMES where it was no operator.
///
/// - `accepted`: a form that is accepted is accepted, with the same value, the same world after it, and the same text in the log.
/// - `replayed`: records that leave a world leave this world.
/// - `files`: what files mean by the first rules they mean by the second.
/// - `before`: so what files meant before the package PAZTURROK had operators they mean now.
/// - `before_deciding`, `before_places`: the same of the programs before AND and its like, and before FIND-SYMBOL, DECF and their
///   like.
/// - `before_forgetting`: and what they meant before FORGET-NAMES.
pub fn more_operators_change_nothing()
    ensures accepted { (fewer more : Rules) (functions : Functions) (world : WorldState) (mode : Mode)
        → (text : List ℕ) (given : Acceptance) → AreRulesAmong fewer more
        → accepts_by fewer functions world mode text ≡ Ok given
        → accepts_by more functions world mode text ≡ Ok given }
    ensures replayed { (fewer more : Rules) (functions : Functions) (world later : WorldState)
        → (entries : List LogRecord) → AreRulesAmong fewer more
        → after_by fewer functions world entries ≡ Some later
        → after_by more functions world entries ≡ Some later }
    ensures files { (fewer more : Rules) (functions : Functions) (image : Image) (world : WorldState)
        → AreRulesAmong fewer more
        → MeansWorldBy fewer functions image world → MeansWorldBy more functions image world }
    ensures before { (functions : Functions) (image : Image) (world : WorldState)
        → MeansWorldBy rules_before_operators functions image world
        → MeansWorld functions image world }
    ensures before_deciding { (functions : Functions) (image : Image) (world : WorldState)
        → MeansWorldBy rules_before_deciding functions image world
        → MeansWorld functions image world }
    ensures before_places { (functions : Functions) (image : Image) (world : WorldState)
        → MeansWorldBy rules_before_places functions image world
        → MeansWorld functions image world }
    ensures before_forgetting { (functions : Functions) (image : Image) (world : WorldState)
        → MeansWorldBy rules_before_forgetting functions image world
        → MeansWorld functions image world }
{}
