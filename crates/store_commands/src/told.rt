// What is told on standard error as the program ends.
ghost use Rattle.std.specs.Prelude.{◌≡◌, ◌⊎◌};
ghost use Rattle.store_commands.specs.EndLines.{IsToldOf, TellsFault, TellsRefusal, left_out_of};
ghost use Rattle.store_commands.specs.Status.{IsQuiet};

use crate::status::Status;
use diagnostics::{Places, Refusal, write_fault_with_cause, write_refusal, write_text};
use disk_trait::HostError;
use sessions::Ended;
use std::io::Write;

/// The line after a strict session that answered nothing of a text.
const UNANSWERED: &[u8] =
    b"no form of the input was answered: the readtable makes comments of it; --rescue reads under the standard one\n";

/// What is told on standard error beside the line of a fault.
#[derive(Drop)]
pub enum Remark {
    Nothing,
    /// The cause of a fault of the device.
    Cause(HostError),
    /// A line for each property that was left out of an export.
    LeftOut(Vec<u8>),
    /// The refusal that ended a session.
    Refused(Refusal),
}

/// Ends so: after a fault its line is written.
pub fn end_with<F: Write>(faults: &mut F, status: Status) -> Status
    ensures status { result ≡ status }
    ensures told { TellsFault status Remark.Nothing (F.contents faults.old) (F.contents faults.new) }
    ensures quiet { IsQuiet status ⊎ (status ≡ Status.WordsRefused) → faults.new ≡ faults.old }
{
    end_with_told(faults, status, &Remark::Nothing, "")
}

/// Ends so: after a fault its line is written, and after one of the device a line with the cause, if it is known, which names what it is
/// about by the path of the store's folder; after an export what was left out of it; after a refusal that ended the session the line on it; and a line after a strict session that answered
/// nothing.
pub fn end_with_told<F: Write>(
    faults: &mut F,
    status: Status,
    told: &Remark,
    folder: &str,
) -> Status
    ensures status { result ≡ status }
    ensures told { TellsFault status told.now (F.contents faults.old) (F.contents faults.new) }
    ensures quiet { IsQuiet status ⊎ (status ≡ Status.WordsRefused) → faults.new ≡ faults.old }
{
    match status {
        Status::Fault(number) => {
            let _ = write_fault_with_cause(faults, number, told.cause(), folder);
            status
        }
        Status::LeftOut => {
            let _ = write_text(faults, told.left_out());
            status
        }
        Status::FormRefused => {
            tell_refusal(faults, told);
            status
        }
        Status::Unanswered => {
            let _ = write_text(faults, UNANSWERED);
            status
        }
        _ => status,
    }
}

// Writes the line on a refusal, if one is told.
fn tell_refusal<F: Write>(faults: &mut F, told: &Remark)
    ensures { TellsRefusal told.now (F.contents faults.old) (F.contents faults.new) }
{
    match told {
        Remark::Refused(refusal) => {
            let _ = write_refusal(faults, refusal);
        }
        _ => {}
    }
}

impl Remark {
    /// What is told after a session over this input that ended so.
    pub(crate) fn of_session<I: Places>(ended: Ended, input: &I) -> Remark
        ensures { IsToldOf ended result }
    {
        match Refusal::of(ended, input) {
            Some(refusal) => Remark::Refused(refusal),
            None => Remark::Nothing,
        }
    }

    // The cause of a fault of the device, if that is what is told.
    fn cause(&self) -> Option<&HostError> {
        match self {
            Remark::Cause(cause) => Some(cause),
            _ => None,
        }
    }

    fn left_out(&self) -> &[u8]
        ensures { result.now ≡ left_out_of self.now }
    {
        match self {
            Remark::LeftOut(lines) => lines.as_slice(),
            _ => &[],
        }
    }
}
