//! Which properties are asked for, and how they are written.
ghost use Rattle.std.specs.Prelude.{◌≡◌};
ghost use Rattle.store_reports.specs.ShownProperties.{is_wanted_name, takes_symbol};

use name_patterns::is_like;

/// How properties are written.
#[derive(Clone, Copy, Debug, PartialEq, Eq)]
pub enum Layout {
    /// A line each: the symbol, the indicator and the value, in COMMON-LISP-USER.
    Lines,
    /// The forms that set them, for the standard readtable and COMMON-LISP-USER.
    Forms,
    /// An object of JSON each, with the same texts as a line.
    Json,
}

/// Which properties are asked for: those with all of what is given here.
#[derive(Clone, Copy, Debug)]
pub struct Selection<'a> {
    /// Of the symbol that is printed so in COMMON-LISP-USER, or has this name in the package that is asked for, with its home.
    pub symbol: Option<&'a [u8]>,
    /// Of the symbols at home in the package of this name.
    pub package: Option<&'a [u8]>,
    /// Whose indicator has this name, whatever its package.
    pub indicator: Option<&'a [u8]>,
    /// Of the symbols whose name is like this, in upper or lower case. Each star in it stands for any text, also for none.
    pub like: Option<&'a [u8]>,
    /// How they are written.
    pub layout: Layout,
}

// Whether a name is the one that is asked for, if one is.
fn is_named(wanted: Option<&[u8]>, name: &[u8]) -> bool
    ensures { result ≡ is_wanted_name wanted.entry name.now }
{
    match wanted {
        Some(wanted) => wanted == name,
        None => true,
    }
}

impl Selection<'_> {
    /// Whether properties of this symbol are asked for.
    #[tactic(auto, unfolding(crate::specs::ShownProperties::takes_symbol))]
    pub(crate) fn takes_symbol(&self, home: &[u8], name: &[u8]) -> bool
        ensures { result ≡ takes_symbol self.now (home.now, name.now) }
    {
        is_named(self.package, home)
            && match self.like {
                Some(pattern) => is_like(pattern, name),
                None => true,
            }
    }

    /// Whether properties of an indicator of this name are.
    pub(crate) fn takes_indicator(&self, name: &[u8]) -> bool
        ensures { result ≡ is_wanted_name self.now.indicator name.now }
    {
        is_named(self.indicator, name)
    }
}
