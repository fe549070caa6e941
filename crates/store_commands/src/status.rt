// How the program ends.
ghost use Rattle.std.specs.Prelude.{◌≡◌};
ghost use Rattle.store_commands.specs.Status.{exit_code, status_of_ended, status_of_host, status_of_kind, status_after};

use clap::error::ErrorKind;
use disk_trait::HostError;
use lisp_object::refusal::{DEVICE, NO_MEMORY};
use sessions::Ended;

/// How the program ended.
#[derive(Clone, Copy, Debug, PartialEq, Eq)]
pub enum Status {
    /// The command was carried out: the input was served to its end, or the text that was asked for was written.
    Done,
    /// The help or the version that was asked for was written.
    Helped,
    /// A form was refused, which ended the session: by the reader, or, if the session was strict, by its evaluation.
    FormRefused,
    /// A strict session came to the end of an input that has text, and no form of it was answered.
    Unanswered,
    /// The words of the command line were refused.
    WordsRefused,
    /// What no form can make was left out of an export; the rest was written.
    LeftOut,
    /// A fault, with its number: 60 to 68, or 90.
    Fault(u16),
}

impl Status {
    /// The exit status: 0 if the command was carried out and after help, 1 after a refusal that ended the session and where a strict one
    /// answered nothing, 2 for words that are refused, 3 after a fault and if something was left out of an export.
    pub fn code(self) -> u8
        ensures { result ≡ exit_code self }
    {
        match self {
            Status::Done | Status::Helped => 0,
            Status::FormRefused | Status::Unanswered => 1,
            Status::WordsRefused => 2,
            Status::LeftOut | Status::Fault(_) => 3,
        }
    }

    /// The status after a session that ended so.
    pub fn of_ended(ended: Ended) -> Status
        ensures { result ≡ status_of_ended ended }
    {
        match ended {
            Ended::End => Status::Done,
            Ended::Unreadable(..) | Ended::Unaccepted(..) => Status::FormRefused,
            Ended::Store(number) => Status::Fault(number),
        }
    }

    /// The status after a session that ended so, where it was strict or not, and it is known or not that nothing of a text was answered.
    pub fn after_session(ended: Ended, strict: bool, unanswered: bool) -> Status
        ensures { result ≡ status_after strict unanswered ended }
    {
        match ended {
            Ended::End if strict && unanswered => Status::Unanswered,
            ended => Status::of_ended(ended),
        }
    }

    /// The status after files that were not opened, for this reason.
    pub fn of_host(error: &HostError) -> Status
        ensures { result ≡ status_of_host error.now }
    {
        match error {
            HostError::OutOfMemory => Status::Fault(NO_MEMORY),
            _ => Status::Fault(DEVICE),
        }
    }

    /// The status after words that gave no command, for this reason.
    pub fn of_kind(kind: ErrorKind) -> Status
        ensures { result ≡ status_of_kind kind }
    {
        match kind {
            ErrorKind::DisplayHelp | ErrorKind::DisplayVersion => Status::Helped,
            ErrorKind::OutOfMemory => Status::Fault(NO_MEMORY),
            _ => Status::WordsRefused,
        }
    }
}
