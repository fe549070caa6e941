//! Laws of printed text, as the contracts of functions that do nothing.
ghost use Rattle.std.specs.Prelude.{◌≡◌, true, Ok, bytes_eq, codes};
ghost use Rattle.package_table.specs.Table.{Name, Table, AreSoundPackages, IsPresent, common_lisp, keyword};
ghost use Rattle.package_table.specs.Resolving.{found_at, resolution, external_resolution, internal_resolution};
ghost use Rattle.package_table.specs.Lookup.{is_external};
ghost use Rattle.canon_printer.specs.Printed.{is_accessible};

/// What is written for a symbol that is present in its home means this symbol again (standard 2.3.5), in each form: the name
/// alone in the current package, the name after a colon if the home is KEYWORD, and the name after the home and one or
/// two package markers. NIL is among the symbols of all packages, so no list ends in a symbol that is missing.
pub fn printed_symbols_are_found()
    ensures bare { (t : Table) (current home name : Name)
        → is_accessible t current home name ≡ true
        → resolution t current name ≡ Ok (found_at home) }
    ensures in_keyword { (t : Table) (home name : Name) → AreSoundPackages t → IsPresent t home name home
        → bytes_eq home keyword ≡ true → resolution t keyword name ≡ Ok (found_at home) }
    ensures after_one { (t : Table) (home name : Name) → AreSoundPackages t → IsPresent t home name home
        → is_external t home name ≡ true → external_resolution t home name ≡ Ok home }
    ensures nil { (t : Table) → AreSoundPackages t → IsPresent t common_lisp (codes "NIL") common_lisp }
    ensures after_two { (t : Table) (home name : Name) → AreSoundPackages t → IsPresent t home name home
        → internal_resolution t home name ≡ Ok (found_at home) }
{}
