// How a session ends, and where.
ghost use Rattle.std.specs.Prelude.{◌≡◌};
ghost use Rattle.sessions.specs.Serve.{ended_after_cut};
ghost use Rattle.sessions.specs.steps.Serve.{ended_at};

use lisp_object::refusal::REOPEN;

/// How a session ended.
#[derive(Clone, Copy, Debug, PartialEq, Eq)]
pub enum Ending {
    /// At the end of the input.
    End,
    /// At a refusal of the reader, with its number, which was answered: where the next form begins is undecided.
    Reader(u16),
    /// At a fault of the store, the input or the output, with its number, which was not answered.
    Store(u16),
}

impl Ending {
    /// How the session ended, with the place of a refusal of the reader.
    pub(crate) fn at(self, place: Place) -> Ended
        ensures { result ≡ ended_at place self }
    {
        match self {
            Ending::End => Ended::End,
            Ending::Reader(number) => Ended::Unreadable(number, place),
            Ending::Store(number) => Ended::Store(number),
        }
    }
}

/// Where a session ended in its input.
#[derive(Clone, Copy, Debug, PartialEq, Eq)]
pub struct Place {
    /// How many forms come before the one that was refused.
    pub forms: u64,
    /// How many bytes of the input come before what was refused: before the first byte of the form, or of a comment that is open.
    /// Between the form before and it is discarded text alone.
    pub start: u64,
    /// How many bytes of the input come before the place of the refusal.
    pub at: u64,
}

/// How a session ended, and where.
#[derive(Clone, Copy, Debug, PartialEq, Eq)]
pub enum Ended {
    /// At the end of the input.
    End,
    /// At a refusal of the reader, with its number, which was answered: where the next form begins is undecided.
    Unreadable(u16, Place),
    /// At a form whose evaluation was refused, with this number, which was answered; only if the session is strict. The
    /// place is where the form begins.
    Unaccepted(u16, Place),
    /// At a fault of the store, the input or the output, with its number, which was not answered.
    Store(u16),
}

impl Ended {
    /// How a session ended after which zeros were cut behind the half in use (`cut_zeros` of prevalence_store): with the number of what
    /// failed there, else as it ended. A store that met a device fault before cuts nothing.
    pub fn after_cut(self, cut: Result<(), u16>) -> Ended
        ensures { result ≡ ended_after_cut cut self }
    {
        match cut {
            Ok(()) => self,
            Err(number) => {
                if number == REOPEN {
                    self
                } else {
                    Ended::Store(number)
                }
            }
        }
    }
}
