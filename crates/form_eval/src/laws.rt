//! What holds of every form, for proofs.
ghost use Rattle.std.specs.Prelude.{ℕ, ℤ, neg_ℤ, Bool, ◌≡◌, ◌≤◌, true, false, List, [], ◌∷◌, Ok, Err};
ghost use Rattle.lisp_object.specs.Object.{Object, integer, pair, nil, list_of, is_proper_list};
ghost use Rattle.package_table.specs.Table.{Name};
ghost use Rattle.plist_state.specs.Properties.{Symbol};
ghost use Rattle.plist_state.specs.State.{WorldState};
ghost use Rattle.plist_state.specs.Sound.{IsSoundWorldState};
ghost use Rattle.lisp_operators.specs.Evaluation.{Done, also, gives};
ghost use Rattle.lisp_operators.specs.Properties.{t};
ghost use Rattle.evaluator.specs.Operators.{OperatorTable, IsOperatorTableWithin, standard_operator_of};
ghost use Rattle.evaluator.specs.EarlierOperators.{operators_before_deciding, operators_before_places};
ghost use Rattle.evaluator.specs.Value.{value, are_clauses};
ghost use Rattle.evaluator.specs.FormObjects.{if_form, progn_form, and_form, or_form, cond_form, when_form, unless_form};
ghost use Rattle.form_eval.specs.Acceptance.{accept, accept_by, accept_over, question_value};
ghost use Rattle.lisp_operators.specs.Readtables.{AreCovered, AreFunctionNames};
ghost use Rattle.form_eval.specs.Laws.{IsForm, IsSoundAfter};
ghost use Rattle.form_eval.specs.PlaceForms.{get_form, setf_form, incf_form, decf_form, pop_form, car_form, cdr_form, prog1_form};

use evaluator::laws::more_operators_change_no_value;

/// A form that is accepted and does not write leaves the state of the world as it was. For proofs: it does nothing.
pub fn silent_forms_change_nothing()
    ensures { (names : List Name) (s : WorldState) (x : Object) (d : Done Object)
        → accept names s x ≡ Ok d → d.wrote ≡ false → d.state ≡ s }
{}

/// A form that is accepted in a sound state leaves a sound state, in which no package, no symbol, no external name and no
/// use of a package is lost, and its value may be stored there. Asked are the names of macro functions, and a form of depth
/// at most 100 whose symbols fit the packages. For proofs: it does nothing.
pub fn accepted_states_are_sound()
    ensures { (names : List Name) (s : WorldState) (x : Object) (d : Done Object)
        → AreFunctionNames names → IsSoundWorldState s → IsForm s.packages x
        → accept names s x ≡ Ok d → IsSoundAfter s d }
{}

/// Where the readtables of a state name no function but those of the standard readtable and these names of macro functions, a
/// form that is accepted leaves such readtables. For proofs: it does nothing.
pub fn accepted_readtables_are_covered()
    ensures { (names : List Name) (s : WorldState) (x : Object) (d : Done Object)
        → accept names s x ≡ Ok d
        → AreCovered names s.readtables → AreCovered names d.state.readtables }
{}

/// A form is refused under a number of evaluation alone, 30 to 47. For proofs: it does nothing.
pub fn refusals_are_of_evaluation()
    ensures { (names : List Name) (s : WorldState) (x : Object) (code : ℕ)
        → accept names s x ≡ Err code → (30 ≤ code) × (code ≤ 47) }
{}

/// A form that is accepted where `*READ-BASE*` is no variable is accepted where it is one, with the same value and the same
/// state, and leaves the base as it was. For proofs: it does nothing.
pub fn without_a_base()
    ensures { (names : List Name) (s : WorldState) (x : Object) (d : Done Object)
        → accept_by false names s x ≡ Ok d
        → (accept_by true names s x ≡ Ok d) × (d.state.read_base ≡ s.read_base) }
{}

/// A form that is accepted with the operators of one table is accepted with those of another that has the same ones and more, with
/// the same value and the same state. So where a symbol becomes an operator, each form that was accepted stays what it was: with the
/// operators of COMMON-LISP alone, with those before AND and its like, and with those before FIND-SYMBOL, DECF and their like. Both with
/// and without the variable `*READ-BASE*`. For proofs: it does nothing.
pub fn more_operators_change_no_form()
    ensures tables { (based : Bool) (fewer more : OperatorTable) (s : WorldState) (x : Object)
        → (d : Done Object) → IsOperatorTableWithin fewer more
        → accept_over based fewer s x ≡ Ok d → accept_over based more s x ≡ Ok d }
    ensures standard { (based : Bool) (names : List Name) (s : WorldState) (x : Object)
        → (d : Done Object) → accept_over based (standard_operator_of names) s x ≡ Ok d
        → accept_by based names s x ≡ Ok d }
    ensures before_deciding { (based : Bool) (names : List Name) (s : WorldState) (x : Object)
        → (d : Done Object) → accept_over based (operators_before_deciding names) s x ≡ Ok d
        → accept_by based names s x ≡ Ok d }
    ensures before_places { (based : Bool) (names : List Name) (s : WorldState) (x : Object)
        → (d : Done Object) → accept_over based (operators_before_places names) s x ≡ Ok d
        → accept_by based names s x ≡ Ok d }
{
    more_operators_change_no_value();
}

/// What a form gives as a question it gives when it is accepted, and the same refusal; but that it is accepted counts as
/// writing also where a symbol is new. For proofs: it does nothing.
pub fn questions_are_answered_as_forms()
    ensures { (names : List Name) (s : WorldState) (x : Object)
        → (new : Bool) × (accept names s x ≡ also new (question_value names s x)) }
{}

/// The forms that decide have the values of those that the standard gives for them (5.3), in the same states, or the same refusals:
/// WHEN, UNLESS, AND and COND by IF and PROGN; OR by IF where the form that would be evaluated twice writes nothing, and in any
/// case by COND. For proofs: it does nothing.
pub fn decisions_are_those_of_if()
    ensures guarded { (names : List Name) (s : WorldState) (x forms : Object)
        → is_proper_list forms ≡ true
        → (value names s (when_form x forms) ≡ value names s (if_form x (progn_form forms) nil))
        × (value names s (unless_form x forms) ≡ value names s (if_form x nil (progn_form forms))) }
    ensures none { (names : List Name) (s : WorldState)
        → (value names s (and_form nil) ≡ gives t s) × (value names s (or_form nil) ≡ gives nil s)
        × (value names s (cond_form nil) ≡ gives nil s) }
    ensures one { (names : List Name) (s : WorldState) (x : Object)
        → (value names s (and_form (pair x nil)) ≡ value names s x)
        × (value names s (or_form (pair x nil)) ≡ value names s x) }
    ensures and { (names : List Name) (s : WorldState) (x y others : Object)
        → is_proper_list others ≡ true
        → value names s (and_form (pair x (pair y others)))
        ≡ value names s (if_form x (and_form (pair y others)) nil) }
    ensures or { (names : List Name) (s : WorldState) (x y others : Object)
        → is_proper_list others ≡ true
        → value names s (or_form (pair x (pair y others)))
        ≡ value names s (cond_form (list_of (pair x nil ∷ list_of (t ∷ or_form (pair y others) ∷ []) ∷ []))) }
    ensures silent_or { (names : List Name) (s : WorldState) (x y others : Object) (d : Done Object)
        → is_proper_list others ≡ true
        → value names s x ≡ Ok d → d.wrote ≡ false
        → value names s (or_form (pair x (pair y others)))
        ≡ value names s (if_form x x (or_form (pair y others))) }
    ensures clause { (names : List Name) (s : WorldState) (x y forms clauses : Object)
        → is_proper_list forms ≡ true
        → is_proper_list clauses ≡ true → are_clauses clauses ≡ true
        → value names s (cond_form (pair (pair x (pair y forms)) clauses))
        ≡ value names s (if_form x (progn_form (pair y forms)) (cond_form clauses)) }
    ensures test { (names : List Name) (s : WorldState) (x clauses : Object)
        → is_proper_list clauses ≡ true → are_clauses clauses ≡ true
        → value names s (cond_form (pair (pair x nil) clauses))
        ≡ value names s (or_form (list_of (x ∷ cond_form clauses ∷ []))) }
{}

/// POP and DECF of a property that two quoted symbols name have the values of the forms that the standard gives for them (14.2, 12.2),
/// in the same states, or the same refusals: POP that of the CAR of the property, after which SETF puts its CDR there; DECF by an integer
/// that of INCF by this integer with the other sign. For proofs: it does nothing.
pub fn changes_of_places_are_those_of_setf()
    ensures pop { (names : List Name) (s : WorldState) (x i : Symbol)
        → value names s (pop_form (get_form x i))
        ≡ value names s (prog1_form (car_form (get_form x i))
        (setf_form (get_form x i) (cdr_form (get_form x i)))) }
    ensures decf { (names : List Name) (s : WorldState) (x i : Symbol) (n : ℤ)
        → value names s (decf_form (get_form x i) (integer n))
        ≡ value names s (incf_form (get_form x i) (integer (neg_ℤ n))) }
{}
