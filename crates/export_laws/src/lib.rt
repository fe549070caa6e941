//! Laws of exports: what the forms of a world make. Each is the contract of a function that does nothing: who calls it has the law in
//! his own proof.
//!
//! - `data_makes_a_world`: the text of an export of data, given to a new store, makes the packages and the property lists
//! - `property_lines_are_read`: the lines of the properties alone, in a store that has the packages
//! - `properties_are_made`: the forms of the properties, as objects, make the property lists in their order (`specs/Objects.antt`)
//! - `properties_of_a_world`: so do those of each world that a program has, from the first world with its packages on
//!
//! What a text makes is `Makes` of `specs/ExportedTexts.antt`: each form is read in the world that the ones before it left, and accepted.
//!
//! The readtables, and so the law of a whole export, are in whole_export.
//!
//! Lemmas in `proofs`, which whole_export cites too:
//!
//! - `PartsRead`, `Symbols`: what is read of the parts of a form; `PropertyText`, `PackageText`, `Current`: of the forms
//! - `There`, `One`, `All`, `PackageForms`, `NewPackages`: the forms as transactions
//! - `OneForm`, `Front`: a form in a text; `Lines`, `OnTheWay`, `PackageLines`, `Data`: all of them
#![tactic(auto)]

ghost use Rattle.std.specs.Prelude.{◌≡◌, ◌∷◌, ◌++◌, [], ℕ, List, Some, true};
ghost use Rattle.std.specs.FinMap as finite;
ghost use Rattle.lisp_object.specs.Object.{Object};
ghost use Rattle.lisp_operators.specs.Evaluation.{writes};
ghost use Rattle.package_table.specs.Symbols.{are_there};
ghost use Rattle.package_table.specs.Table as packages;
ghost use Rattle.package_table.specs.Table.{Name};
ghost use Rattle.plist_state.specs.Changes.{with_property};
ghost use Rattle.plist_state.specs.Properties.{Symbol};
ghost use Rattle.plist_state.specs.Sound.{IsSoundWorldState, IsSymbol};
ghost use Rattle.plist_state.specs.State.{WorldState, initial};
ghost use Rattle.form_eval.specs.Acceptance.{accept};
ghost use Rattle.snapshot_text.specs.BuiltWorlds.{built_with_packages, built_with_properties};
ghost use Rattle.user_macros.specs.Functions.{Functions};
ghost use Rattle.session_words.specs.declared.content.Content.TheVariants.{Data};
ghost use Rattle.world_forms.specs.Forms.{forms};
ghost use Rattle.world_forms.specs.Properties.{left_out_lines, property_lines};
ghost use Rattle.text_laws.specs.Objects.{property_object};
ghost use Rattle.export_laws.specs.Objects.{after_each, property_objects};
ghost use Rattle.export_laws.specs.ExportedTexts.{Makes, ReadsAsExported, with_data_of};

use plist_state::World;

/// The forms of the properties of a sound state, one after the other in a state that has its packages and no properties, are all
/// accepted, whatever macro functions there are. They leave that state with the property lists of the sound one, each in its order,
/// and nothing else has changed.
///
/// - `one`: a form sets its property, and changes nothing else.
/// - `all`: all of them.
pub fn properties_are_made()
    ensures one { (names : List Name) (s : WorldState) (x : Symbol) (p : Symbol × Object)
        → packages.AreSoundPackages s.packages → IsSymbol s.packages x → IsSymbol s.packages p.0
        → are_there s.packages p.1 ≡ true
        → accept names s (property_object x p) ≡ writes p.1 (with_property s x p.0 p.1) }
    ensures all { (names : List Name) (s now : WorldState)
        → IsSoundWorldState s → now.packages ≡ s.packages → now.properties ≡ finite.empty
        → after_each names now (property_objects s)
        ≡ Some (record now { properties = s.properties }) }
{}

/// The forms of the properties of a world that a program has, one after the other in the first world with its packages, leave that
/// with its properties.
pub fn properties_of_a_world(world: &World)
    ensures { (names : List Name)
        → after_each names (built_with_packages world.now.0) (property_objects world.now.0)
        ≡ Some (built_with_properties world.now.0) }
{
    world.soundness();
    properties_are_made();
}

/// The lines of the properties of a sound state, of which none is left out, after a newline. In a state that has its packages and no
/// properties, and that reads as exports are read, all are accepted, whatever macro functions there are. They leave that state with
/// the property lists of the sound one.
pub fn property_lines_are_read()
    ensures { (functions : Functions) (s now : WorldState) (rest : List ℕ)
        → IsSoundWorldState s → left_out_lines s ≡ [] → now.packages ≡ s.packages
        → now.properties ≡ finite.empty → ReadsAsExported now
        → Makes functions now (10 ∷ property_lines s ++ rest)
        (record now { properties = s.properties }) (10 ∷ rest) }
{}

/// The forms of the data of a sound state, of which no property is left out, given to a new store one after the other: all are
/// accepted, whatever macro functions there are. They leave the first state with the packages and the property lists of this one, and
/// with its package current. Only the last newline is left of the text.
pub fn data_makes_a_world()
    ensures { (functions : Functions) (s : WorldState) → IsSoundWorldState s → left_out_lines s ≡ []
        → Makes functions initial (forms s Data) (with_data_of s) (10 ∷ []) }
{}
