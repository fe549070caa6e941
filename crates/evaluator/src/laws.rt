//! What holds of the value of every form, for proofs.
ghost use Rattle.std.specs.Prelude.{ℕ, Bool, ◌≡◌, ◌≤◌, false, List, Ok, Err};
ghost use Rattle.lisp_object.specs.Object.{Object};
ghost use Rattle.package_table.specs.Growth.{Grows};
ghost use Rattle.package_table.specs.Table.{Name};
ghost use Rattle.plist_state.specs.State.{WorldState};
ghost use Rattle.plist_state.specs.Sound.{IsSoundWorldState, IsValue};
ghost use Rattle.lisp_operators.specs.Evaluation.{Done};
ghost use Rattle.lisp_operators.specs.Readtables.{AreCovered, AreFunctionNames};
ghost use Rattle.evaluator.specs.Operators.{OperatorTable, IsOperatorTableWithin, standard_operator_of};
ghost use Rattle.evaluator.specs.EarlierOperators.{operators_before_deciding, operators_before_places};
ghost use Rattle.evaluator.specs.Value.{value, value_by, value_over};

/// The value of a form that writes nothing leaves the state as it was. For proofs: it does nothing.
pub fn silent_values_change_nothing()
    ensures { (names : List Name) (s : WorldState) (x : Object) (d : Done Object)
        → value names s x ≡ Ok d → d.wrote ≡ false → d.state ≡ s }
{}

/// In a sound state, the value of a form that may be stored leaves a sound state, in which no package, no symbol, no external
/// name and no use of a package is lost, and may be stored there. For proofs: it does nothing.
pub fn values_leave_sound_states()
    ensures { (names : List Name) (s : WorldState) (x : Object) (d : Done Object)
        → AreFunctionNames names → IsSoundWorldState s → IsValue s.packages x → value names s x ≡ Ok d
        → IsSoundWorldState d.state × Grows s.packages d.state.packages × IsValue d.state.packages d.value }
{}

/// Where the readtables of a state name no function but those of the standard readtable and these names of macro functions, the
/// value of a form leaves such readtables. For proofs: it does nothing.
pub fn values_leave_covered_readtables()
    ensures { (names : List Name) (s : WorldState) (x : Object) (d : Done Object)
        → value names s x ≡ Ok d
        → AreCovered names s.readtables → AreCovered names d.state.readtables }
{}

/// A form has no value under a number of evaluation alone, 30 to 47. For proofs: it does nothing.
pub fn values_are_refused_by_evaluation()
    ensures { (names : List Name) (s : WorldState) (x : Object) (code : ℕ)
        → value names s x ≡ Err code → (30 ≤ code) × (code ≤ 47) }
{}

/// What a form gives with the operators of one table, it gives with those of another that has the same ones and more. So where
/// a symbol becomes an operator, each form that had a value keeps it: with the operators of COMMON-LISP alone, with those before
/// AND and its like, and with those before FIND-SYMBOL, DECF and their like. Both with and without the variable `*READ-BASE*`. For
/// proofs: it does nothing.
pub fn more_operators_change_no_value()
    ensures tables { (based : Bool) (fewer more : OperatorTable) (s : WorldState) (x : Object)
        → (d : Done Object) → IsOperatorTableWithin fewer more
        → value_over based fewer s x ≡ Ok d → value_over based more s x ≡ Ok d }
    ensures standard { (based : Bool) (names : List Name) (s : WorldState) (x : Object)
        → (d : Done Object) → value_over based (standard_operator_of names) s x ≡ Ok d
        → value_by based names s x ≡ Ok d }
    ensures before_deciding { (based : Bool) (names : List Name) (s : WorldState) (x : Object)
        → (d : Done Object) → value_over based (operators_before_deciding names) s x ≡ Ok d
        → value_by based names s x ≡ Ok d }
    ensures before_places { (based : Bool) (names : List Name) (s : WorldState) (x : Object)
        → (d : Done Object) → value_over based (operators_before_places names) s x ≡ Ok d
        → value_by based names s x ≡ Ok d }
{}
