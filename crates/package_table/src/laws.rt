//! Laws of look-ups, for proofs.
ghost use Rattle.std.specs.Prelude.{◌≡◌, ◌≢◌, ◌↔◌, IsTrue, Some, None};
ghost use Rattle.package_table.specs.Table.{Name, Table, Finds, FindsNone, IsExternal, IsPackage, IsPresent, AreSoundPackages, Uses, package_named};
ghost use Rattle.package_table.specs.Changes.{finds_other_than_shown, user_finds_other};
ghost use Rattle.package_table.specs.Lookup.{external_home, home_by_name};

/// The look-ups that definitions compute with say what the standard says (11.1.1.2), in any sound packages: what a
/// package finds by a name, that it finds nothing, that a symbol which is found is present in its home, which names
/// are external, that a package's own name stands for it, that a package which uses another finds another symbol by a
/// name, and that a package finds another symbol than one which is external in the other. For proofs: it does nothing.
pub fn look_up_laws()
    ensures finds { (t : Table) → AreSoundPackages t → (p n h : Name)
        → (home_by_name t p n ≡ Some h) ↔ Finds t p n h }
    ensures finds_none { (t : Table) → (p n : Name)
        → (home_by_name t p n ≡ None) ↔ FindsNone t p n }
    ensures at_home { (t : Table) → AreSoundPackages t → (p n h : Name)
        → home_by_name t p n ≡ Some h → IsPresent t h n h }
    ensures external { (t : Table) → (p n h : Name)
        → (external_home t p n ≡ Some h) ↔ (IsExternal t p n × IsPresent t p n h) }
    ensures named { (t : Table) → AreSoundPackages t → (p : Name)
        → IsPackage t p → package_named t p ≡ Some p }
    ensures users { (t : Table) → AreSoundPackages t → (p h n : Name)
        → IsTrue (user_finds_other t p h n)
        ↔ ((q : Name) × (g : Name) × Uses t q p × Finds t q n g × (g ≢ h)) }
    ensures shown { (t : Table) → AreSoundPackages t → (p q : Name)
        → IsTrue (finds_other_than_shown t p q)
        ↔ ((n : Name) × (g : Name) × (h : Name)
        × Finds t p n g × IsExternal t q n × IsPresent t q n h × (g ≢ h)) }
{}
