//! What holds of a world without the symbols that it does not need. Each law is the contract of a function that does nothing: who
//! calls it has the law in his own proof.
ghost use Rattle.std.specs.Prelude.{◌≡◌, ◌↔◌, List, [], Some, true};
ghost use Rattle.std.specs.FinMap as finite;
ghost use Rattle.package_table.specs.Lookup.{home_by_name, is_external, is_used};
ghost use Rattle.package_table.specs.Table.{Name};
ghost use Rattle.plist_state.specs.Properties.{Symbol};
ghost use Rattle.plist_state.specs.Sound.{IsSoundWorldState, IsSymbol};
ghost use Rattle.plist_state.specs.State.{WorldState};
ghost use Rattle.forgotten_names.specs.WorldsWithoutNames.{without_unneeded_symbols, forgettable};
ghost use Rattle.forgotten_names.specs.NeededSymbols.{is_needed};

/// A sound state is sound without them: a world may have it, and a snapshot.
pub fn forgotten_worlds_are_sound()
    ensures { (held : List Symbol) (s : WorldState) → IsSoundWorldState s
        → IsSoundWorldState (without_unneeded_symbols held s) }
{}

/// What is left is all needed: nothing more goes a second time.
pub fn forgetting_again_changes_nothing()
    ensures { (held : List Symbol) (s : WorldState)
        → without_unneeded_symbols held (without_unneeded_symbols held s) ≡ without_unneeded_symbols held s }
{}

/// Where no symbol would go, the state is as it was.
pub fn nothing_to_forget()
    ensures { (held : List Symbol) (s : WorldState) → forgettable held s ≡ []
        → without_unneeded_symbols held s ≡ s }
{}

/// The symbols that are left are those that are needed. What a package finds by a name is what it found, if that is needed, and
/// nothing else.
///
/// - `symbols`: which are left
/// - `home_by_name`: what is found by a name in a sound state
pub fn needed_symbols_stay()
    ensures symbols { (held : List Symbol) (s : WorldState) (x : Symbol)
        → IsSymbol (without_unneeded_symbols held s).packages x
        ↔ (IsSymbol s.packages x × (is_needed held s x ≡ true)) }
    ensures found { (held : List Symbol) (s : WorldState) (p n h : Name) → IsSoundWorldState s
        → (home_by_name (without_unneeded_symbols held s).packages p n ≡ Some h)
        ↔ ((home_by_name s.packages p n ≡ Some h) × (is_needed held s (h, n) ≡ true)) }
{}

/// All else is as it was.
///
/// - `rest`: property lists, readtables, the current names and the base
/// - `packages`, `uses`, `external`: the packages, what each uses, and what is external in each
pub fn what_is_not_forgotten()
    ensures rest { (held : List Symbol) (s : WorldState)
        → without_unneeded_symbols held s
        ≡ record s { packages = (without_unneeded_symbols held s).packages } }
    ensures packages { (held : List Symbol) (s : WorldState) (p : Name)
        → finite.contains_key (without_unneeded_symbols held s).packages p
        ≡ finite.contains_key s.packages p }
    ensures uses { (held : List Symbol) (s : WorldState) (p q : Name)
        → is_used (without_unneeded_symbols held s).packages p q ≡ is_used s.packages p q }
    ensures external { (held : List Symbol) (s : WorldState) (p n : Name)
        → is_external (without_unneeded_symbols held s).packages p n ≡ is_external s.packages p n }
{}
