// How the text of a form is read.
ghost use Rattle.std.specs.Prelude.{◌≡◌};
ghost use Rattle.session_words.specs.Kinds.{kind_of, mode_of};

/// How a form's text is read: under the world's current readtable, in its current package; or, to get out of a readtable
/// that has become unusable, under the standard readtable in COMMON-LISP-USER. Evaluation and printing use the world's
/// current names in both modes.
#[derive(Clone, Copy, Debug, PartialEq, Eq)]
pub enum Mode {
    Current,
    Rescue,
}

impl Mode {
    /// The byte of the mode in a record.
    pub fn kind(self) -> u8
        ensures { result ≡ kind_of self }
    {
        match self {
            Mode::Current => 0,
            Mode::Rescue => 1,
        }
    }

    /// The mode of a record with this byte.
    pub fn of_kind(kind: u8) -> Mode
        ensures { result ≡ mode_of kind }
    {
        if kind == 0 {
            Mode::Current
        } else {
            Mode::Rescue
        }
    }
}
