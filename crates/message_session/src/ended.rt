// How a session of messages ends.
ghost use Rattle.std.specs.Prelude.{◌≡◌};
ghost use Rattle.message_session.specs.MessageSessions.{message_end_after_cut};

use lisp_object::refusal::REOPEN;

/// How a session of messages ended.
#[derive(Clone, Copy, Debug, PartialEq, Eq)]
pub enum MessagesEnd {
    /// At the end of the input. A frame that it cut is not carried out.
    End,
    /// At bytes that are no frame, after so many bytes of the input. Nothing of them is carried out.
    NoFrame(u64),
    /// At a fault of the store, the input or the output, with its number, or as there is no position.
    Fault(u16),
}

impl MessagesEnd {
    /// How a session ended after which zeros were cut behind the half in use (`cut_zeros` of prevalence_store): with the number of what
    /// failed there, else as it ended. A store that met a device fault before cuts nothing.
    pub fn after_cut(self, cut: Result<(), u16>) -> MessagesEnd
        ensures { result ≡ message_end_after_cut cut self }
    {
        match cut {
            Ok(()) => self,
            Err(number) => {
                if number == REOPEN {
                    self
                } else {
                    MessagesEnd::Fault(number)
                }
            }
        }
    }
}
