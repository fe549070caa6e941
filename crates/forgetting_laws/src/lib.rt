//! What else FORGET-NAMES leaves as it was, and how many symbols it takes: two laws beside those of forgotten_names. Each is the contract
//! of a function that does nothing: who calls it has the law in his own proof.
//!
//! - `imports_stay`: what each package imports
//! - `forgettable_symbols_go`: which symbols are left, and how many
//!
//! Lemmas in `proofs`: `Passing`, lists of what passes tests; `Left`, the packages that are left; `Counted`, their symbols.
#![tactic(auto)]

ghost use Rattle.std.specs.Prelude.{◌≡◌, ◌+◌, List, filter, length};
ghost use Rattle.forgotten_names.specs.WorldsWithoutNames.{forgettable, without_unneeded_symbols};
ghost use Rattle.forgotten_names.specs.NeededSymbols.{is_needed};
ghost use Rattle.package_table.specs.Readers.{imports};
ghost use Rattle.package_table.specs.Table.{Name, symbol_count};
ghost use Rattle.plist_state.specs.Lists.{symbols};
ghost use Rattle.plist_state.specs.Properties.{Symbol};
ghost use Rattle.plist_state.specs.State.{WorldState};

/// The imports of each package are what they were: the same names, each with the same home, also where it is inherited besides.
pub fn imports_stay()
    ensures { (held : List Symbol) (s : WorldState) (p : Name)
        → imports (without_unneeded_symbols held s).packages p ≡ imports s.packages p }
{}

/// The symbols that are not needed go, and no others.
///
/// - `left`: those that are left, in their order
/// - `count`: a world has so many symbols less as there are that it does not need
pub fn forgettable_symbols_go()
    ensures left { (held : List Symbol) (s : WorldState)
        → symbols (without_unneeded_symbols held s).packages ≡ filter (is_needed held s) (symbols s.packages) }
    ensures count { (held : List Symbol) (s : WorldState)
        → symbol_count (without_unneeded_symbols held s).packages + length (forgettable held s)
        ≡ symbol_count s.packages }
{}
