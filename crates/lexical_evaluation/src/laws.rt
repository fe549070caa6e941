//! What holds of the language with functions, beside the one without them, for proofs.
ghost use Rattle.std.specs.Prelude.{ℕ, ◌≡◌, ◌≤◌, false, List, Ok, Err};
ghost use Rattle.lisp_object.specs.Object.{Object};
ghost use Rattle.package_table.specs.Table.{Name};
ghost use Rattle.plist_state.specs.State.{WorldState};
ghost use Rattle.lisp_operators.specs.Evaluation.{Done};
ghost use Rattle.lisp_operators.specs.Readtables.{AreCovered};
ghost use Rattle.lexical_evaluation.specs.Calls.{lexical_value};
ghost use Rattle.lexical_evaluation.specs.Laws.{LanguagesAgree, OldFormsKeepTheirValues, OldRefusalsStay, OldWorldsReadTheSame, OwnNamesNeedNoProgram, RefusalsAgree};

/// A form that had a value in the language without functions keeps it, with its state, and one that was refused for another reason than
/// that it asks for functions is refused under the same number. For proofs: it does nothing.
pub fn old_forms_keep_their_outcomes()
    ensures values { OldFormsKeepTheirValues }
    ensures refusals { OldRefusalsStay }
{}

/// In a world without macro functions of its own those of the program are in force, and of the names of the world no program says
/// anything. For proofs: it does nothing.
pub fn macro_functions_are_apart()
    ensures old { OldWorldsReadTheSame }
    ensures own { OwnNamesNeedNoProgram }
{}

/// A form that has a value in the language without functions has the same one in the one with them, and one that is refused is refused
/// there, under the same number; but where an operator was missing, or the steps do not suffice. For proofs: it does nothing.
pub fn languages_agree()
    ensures values { LanguagesAgree }
    ensures refusals { RefusalsAgree }
{}

/// What a form does in the language with functions: where it has a value and does not write, it leaves the state of the world as it was; it
/// leaves no readtables that name other functions than those of the standard readtable and these names, where those before did not; and
/// it is refused under a number of evaluation alone, 30 to 49. For proofs: it does nothing.
pub fn values_are_those_of_evaluation()
    ensures silent { (names : List Name) (s : WorldState) (x : Object) (d : Done Object)
        → lexical_value names s x ≡ Ok d → d.wrote ≡ false → d.state ≡ s }
    ensures covered { (names : List Name) (s : WorldState) (x : Object) (d : Done Object)
        → lexical_value names s x ≡ Ok d
        → AreCovered names s.readtables → AreCovered names d.state.readtables }
    ensures numbered { (names : List Name) (s : WorldState) (x : Object) (code : ℕ)
        → lexical_value names s x ≡ Err code → (30 ≤ code) × (code ≤ 49) }
{}
