//! What holds of every form where functions of the world are known, for proofs.
ghost use Rattle.std.specs.Prelude.{ℕ, ◌≡◌, ◌≤◌, false, List, Ok, Err};
ghost use Rattle.lisp_object.specs.Object.{Object};
ghost use Rattle.package_table.specs.Table.{Name};
ghost use Rattle.plist_state.specs.State.{WorldState};
ghost use Rattle.lisp_operators.specs.Evaluation.{Done};
ghost use Rattle.lisp_operators.specs.Readtables.{AreCovered};
ghost use Rattle.evaluator.specs.FormsGivenBack.{asks_for_functions};
ghost use Rattle.form_eval.specs.Acceptance.{accept};
ghost use Rattle.lexical_forms.specs.WithFunctions.{accept_with_functions};

/// A form that is accepted without functions is accepted with them, with the same value and the same state; and one that is refused for
/// another reason than want of a function is refused under the same number. For proofs: it does nothing.
pub fn functions_change_no_form()
    ensures accepted { (names : List Name) (s : WorldState) (x : Object) (d : Done Object)
        → accept names s x ≡ Ok d → accept_with_functions names s x ≡ Ok d }
    ensures refused { (names : List Name) (s : WorldState) (x : Object) (code : ℕ)
        → accept names s x ≡ Err code → asks_for_functions code ≡ false
        → accept_with_functions names s x ≡ Err code }
{}

/// A form that is accepted and does not write leaves the state of the world as it was. For proofs: it does nothing.
pub fn silent_forms_change_nothing()
    ensures { (names : List Name) (s : WorldState) (x : Object) (d : Done Object)
        → accept_with_functions names s x ≡ Ok d → d.wrote ≡ false → d.state ≡ s }
{}

/// Where the readtables of a state name no function but those of the standard readtable and these names of macro functions, a
/// form that is accepted leaves such readtables. For proofs: it does nothing.
pub fn accepted_readtables_are_covered()
    ensures { (names : List Name) (s : WorldState) (x : Object) (d : Done Object)
        → accept_with_functions names s x ≡ Ok d
        → AreCovered names s.readtables → AreCovered names d.state.readtables }
{}

/// A form is refused under a number of evaluation alone, 30 to 49. For proofs: it does nothing.
pub fn refusals_are_of_evaluation()
    ensures { (names : List Name) (s : WorldState) (x : Object) (code : ℕ)
        → accept_with_functions names s x ≡ Err code → (30 ≤ code) × (code ≤ 49) }
{}
