//! Which of the names that were made in packages stay in a text.
ghost use Rattle.std.specs.Prelude.{◌≡◌, Bool, true};
ghost use Rattle.package_table.specs.Table.{Name};

/// A test of the names that were made in packages: which of them stay in a text.
pub trait NameTest {
    /// Whether the name of a symbol stays, by the name of its home and by its own.
    ghost keeps: { Self → Name → Name → Bool };

    /// The same. Takes no memory.
    fn is_kept(&self, home: &[u8], name: &[u8]) -> bool
        ensures { result ≡ keeps self.now home.now name.now };
}

/// Each name stays.
pub(crate) struct EveryName;

impl NameTest for EveryName {
    ghost keeps = { λ _ _ _. true };

    fn is_kept(&self, _home: &[u8], _name: &[u8]) -> bool {
        true
    }
}
