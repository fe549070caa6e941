//! Forms.
ghost use Rattle.std.specs.Prelude.{◌≡◌, ℕ, List, Ok, Some};
ghost use Rattle.gate_log.specs.Layout.{LogRecord};
ghost use Rattle.lisp_object.specs.Object.{Object};
ghost use Rattle.lisp_reading.specs.Reading.{form};
ghost use Rattle.plist_state.specs.State.{WorldState};
ghost use Rattle.session_words.specs.declared.mode.Mode.{Mode};
ghost use Rattle.prevalence_store.specs.meaning.Acceptance.{Acceptance, accepts, after, read_in};
ghost use Rattle.user_macros.specs.Functions.{Functions};
ghost use Rattle.wider_functions.specs.Among.{AreAmong};

/// With more macro functions forms stay what they were, in any world and mode.
///
/// - `read`: a form is read as the same object, at the same offsets.
/// - `accepted`: one that is accepted is accepted, with the same value, the same world after it, and the same text in the log.
/// - `replayed`: records that leave a world leave this world.
pub fn forms_stay_accepted()
    ensures read { (fewer more : Functions) (world : WorldState) (mode : Mode) (text : List ℕ)
        → (x : Object) (start end next : ℕ) → AreAmong fewer more
        → read_in fewer world mode text ≡ form x start end next
        → read_in more world mode text ≡ form x start end next }
    ensures accepted { (fewer more : Functions) (world : WorldState) (mode : Mode) (text : List ℕ)
        → (given : Acceptance) → AreAmong fewer more
        → accepts fewer world mode text ≡ Ok given
        → accepts more world mode text ≡ Ok given }
    ensures replayed { (fewer more : Functions) (world later : WorldState) (entries : List LogRecord)
        → AreAmong fewer more
        → after fewer world entries ≡ Some later
        → after more world entries ≡ Some later }
{}
