//! The law of a whole export: its forms, given to a new store, make the world again. It is the contract of a function that does nothing:
//! who calls it has the law in his own proof.
//!
//! - `export_makes_a_world`: all forms of a world
//! - `export_is_taken`: a session over them
//! - `kept_worlds_are_covered`: what is asked of a world holds of each that a store has
//! - `readtable_lines_are_read`: the lines of the readtables alone, in a store that has the packages
//!
//! What a text makes is `Makes` of export_laws, where the laws of the packages and of the properties stand.
//!
//! The lemmas in `proofs` are of this crate alone:
//!
//! - `Arguments`, `ArgumentKinds`: a call of an operator, by its arguments
//! - `Joined`, `Operators`, `Steps`: the line of each form, and what it makes of a readtable
//! - `OneEntry`, `OneReadtable`, `AllReadtables`: the lines one after the other
//! - `Last`, `Ending`, `KeptLines`, `Whole`: what is current, what ends the text, the properties, and all of it
//! - `Sessions`: a session over it
#![tactic(auto)]

ghost use Rattle.std.specs.Prelude.{◌≡◌, ◌∷◌, ◌++◌, [], ℕ, List, Option, Some, true};
ghost use Rattle.disk_trait.specs.Disk.{IsHonest};
ghost use Rattle.plist_state.specs.Sound.{IsSoundWorldState};
ghost use Rattle.plist_state.specs.State.{WorldState, first_readtables, initial};
ghost use Rattle.lisp_reading.specs.Reading.{empty};
ghost use Rattle.prevalence_store.specs.Theorem.{Keeps};
ghost use Rattle.sessions.specs.Serve.{ServesWanted};
ghost use Rattle.prevalence_store.specs.calls.Store.{StoreView};
ghost use Rattle.session_words.specs.declared.mode.Mode.TheVariants.{Current};
ghost use Rattle.sessions.specs.declared.ending.Ended.{Ended};
ghost use Rattle.session_words.specs.declared.wanted.SessionOptions.{SessionOptions};
ghost use Rattle.prevalence_store.specs.meaning.Acceptance.{read_in};
ghost use Rattle.snapshot_text.specs.NamedFunctions.{are_covered};
ghost use Rattle.user_macros.specs.Functions.{Functions};
ghost use Rattle.session_words.specs.declared.content.Content.TheVariants.{World};
ghost use Rattle.world_forms.specs.Forms.{forms, last_newline};
ghost use Rattle.world_forms.specs.Properties.{left_out_lines};
ghost use Rattle.world_forms.specs.Readtables.{readtable_lines};
ghost use Rattle.export_laws.specs.ExportedTexts.{Makes};
ghost use Rattle.whole_export.specs.KeptWorld.{IsWithoutLeftOut};
ghost use Rattle.whole_export.specs.ExportSession.{EndsWith};
ghost use Rattle.whole_export.specs.Standard.{ReadsStandard};

use disk_trait::Disk;

/// The readtables of a world that each crash would leave of an honest disk name no functions but those of the standard and of the program.
/// So the world of a store over such a disk (`Store::keeps_its_world`) is one that the other laws speak of.
pub fn kept_worlds_are_covered<D: Disk>()
    ensures { (functions : Functions) (disk : D) (world : WorldState)
        → IsHonest (D.state disk) → Keeps functions (D.state disk) world
        → are_covered functions.names world ≡ true }
{}

/// The lines of the readtables of a sound state, after a newline. In a state that has its packages, has the first readtables and reads
/// under the standard one, all are accepted, if there are the macro functions that they name. They leave that state with the readtables
/// of the sound one.
pub fn readtable_lines_are_read()
    ensures { (functions : Functions) (s now : WorldState) (rest : List ℕ)
        → IsSoundWorldState s → are_covered functions.names s ≡ true → now.packages ≡ s.packages
        → now.readtables ≡ first_readtables → ReadsStandard now
        → Makes functions now (10 ∷ readtable_lines s ++ rest)
        (record now { readtables = s.readtables }) (10 ∷ rest) }
{}

/// The forms of a sound state, given to a new store one after the other: all are accepted, if there are the macro functions that its
/// readtables name.
///
/// - `world`: they leave this very state, if no property is left out. What is then left of the text is its last newline, or nothing.
/// - `without`: else they leave the state without the properties that are left out.
/// - `all`: what is left of the text is no form.
pub fn export_makes_a_world()
    ensures world { (functions : Functions) (s : WorldState)
        → IsSoundWorldState s → are_covered functions.names s ≡ true → left_out_lines s ≡ []
        → Makes functions initial (forms s World) s (last_newline s World) }
    ensures without { (functions : Functions) (s : WorldState)
        → IsSoundWorldState s → are_covered functions.names s ≡ true
        → (w : WorldState) × IsWithoutLeftOut s w
        × Makes functions initial (forms s World) w (last_newline s World) }
    ensures all { (functions : Functions) (s : WorldState)
        → read_in functions s Current (last_newline s World) ≡ empty }
{}

/// A session in the mode Current over the forms of a sound state, in a store with the first world, where there are the macro functions
/// that its readtables name. No refusal ends the session, also a strict one; a fault may, or the want of room or memory.
///
/// - `world`: at the end of the input the store has this very state, if no property is left out.
/// - `without`: else it has the state without the properties that are left out.
pub fn export_is_taken<D: Disk, R>()
    ensures world { (functions : Functions) (s : WorldState)
        → IsSoundWorldState s → are_covered functions.names s ≡ true → left_out_lines s ≡ []
        → (wanted : SessionOptions) (old new : StoreView D R)
        → (has held written : Option (List ℕ)) (ended : Ended) → wanted.mode ≡ Current
        → ServesWanted functions D.state wanted old new initial (Some (forms s World)) has held written ended
        → EndsWith new.world s ended }
    ensures without { (functions : Functions) (s : WorldState)
        → IsSoundWorldState s → are_covered functions.names s ≡ true
        → (wanted : SessionOptions) (old new : StoreView D R)
        → (has held written : Option (List ℕ)) (ended : Ended) → wanted.mode ≡ Current
        → ServesWanted functions D.state wanted old new initial (Some (forms s World)) has held written ended
        → (w : WorldState) × IsWithoutLeftOut s w × EndsWith new.world w ended }
{}
