//! Laws of printing and reading, as the contracts of functions that do nothing.
ghost use Rattle.std.specs.Prelude.{◌≡◌, ◌≤◌, ◌<◌, ◌+◌, ◌++◌, ℕ, List, Some, length, IsTrue};
ghost use Rattle.lisp_object.specs.Object.{Object, IsSound as IsSoundObject, object_depth};
ghost use Rattle.readtable_core.specs.Tables.{standard};
ghost use Rattle.token_scan.specs.Spelling.{may_end};
ghost use Rattle.token_scan.specs.Tokens.{typed_text};
ghost use Rattle.user_macros.specs.declared.call.Gather.{Gather};
ghost use Rattle.user_macros.specs.Calls.{MacroCall, MacroAnswer};
ghost use Rattle.package_table.specs.Table.{Name, Table as Packages, AreSoundPackages, common_lisp_user};
ghost use Rattle.canon_printer.specs.Printed.{printed};
ghost use Rattle.canon_printer.specs.Symbols.{HasAllSymbols};
ghost use Rattle.lisp_reading.specs.declared.limits.Limits.{Limits};
ghost use Rattle.lisp_reading.specs.Setting.{setting_of};
ghost use Rattle.lisp_reading.specs.Reading.{form, space_at, reads};
ghost use Rattle.plist_state.specs.State.{WorldState};
ghost use Rattle.plist_state.specs.Sound.{IsSoundWorldState as IsSoundState};
ghost use Rattle.world_text.specs.Lines.{snapshot_limits, IsLineRead};
ghost use Rattle.world_text.specs.Snapshot.{packages_object, properties_object, tables_object_in, snapshot_in};
ghost use Rattle.world_text.specs.PrintedTokens.{AreTokensWithin, ends_with_token};
ghost use Rattle.user_macros.specs.Functions.{Functions};

/// The printed text of an object is read back (standard 22.1.3): with sound packages that have its symbols, under the
/// standard readtable, in base 10 and in the same current package, before the end of the input or a character that ends a token. What is
/// read is the object, from the first byte of the text to its last, where its nesting, its text and its tokens are within
/// the limits, whatever functions are registered. Where the text ends with a token, one whitespace character after it is
/// discarded with it.
pub fn printed_objects_read_back()
    ensures { (limits : Limits) (packages : Packages) (current : Name) (functions : Functions)
        (x : Object) (rest : List ℕ)
        → AreSoundPackages packages → IsSoundObject x → HasAllSymbols packages x
        → object_depth x ≤ limits.nesting → length (printed packages current x) ≤ limits.text
        → 0 < limits.token → AreTokensWithin packages current limits.token x
        → IsTrue (may_end (typed_text standard rest))
        → reads (setting_of limits standard 10 packages current functions)
        (printed packages current x ++ rest)
        ≡ form x 0 (length (printed packages current x))
        (length (printed packages current x) + space_at standard (ends_with_token x) rest) }
{}

/// A text of a version is that of one sound state at most: what a snapshot does not say, a state does not have. So a world
/// that `read` gives is the one whose text the bytes are.
pub fn one_text_one_state()
    ensures { (version : ℕ) (s t : WorldState) (text : List ℕ) → IsSoundState s → IsSoundState t
        → snapshot_in version s ≡ Some text → snapshot_in version t ≡ Some text → s ≡ t }
{}

/// The lines of the text of a sound state are read, under the limits of a snapshot: each as the object that it is of, up to
/// its newline and whatever follows. The first is read with any packages, and the others with those of the state.
pub fn snapshot_lines_are_read()
    ensures packages { (s : WorldState) (first : Packages) (functions : Functions) (rest : List ℕ)
        → IsSoundState s → AreSoundPackages first
        → length (printed s.packages common_lisp_user (packages_object s.packages)) ≤ 4294967295
        → IsLineRead (setting_of snapshot_limits standard 10 first common_lisp_user functions)
        s.packages (packages_object s.packages) rest }
    ensures properties { (s : WorldState) (functions : Functions) (rest : List ℕ) → IsSoundState s
        → length (printed s.packages common_lisp_user (properties_object s)) ≤ 4294967295
        → IsLineRead (setting_of snapshot_limits standard 10 s.packages common_lisp_user functions)
        s.packages (properties_object s) rest }
    ensures tables { (version : ℕ) (s : WorldState) (third : Object) (functions : Functions)
        → (rest : List ℕ) → IsSoundState s → tables_object_in version s ≡ Some third
        → length (printed s.packages common_lisp_user third) ≤ 4294967295
        → IsLineRead (setting_of snapshot_limits standard 10 s.packages common_lisp_user functions)
        s.packages third rest }
{}
