// Why nothing is told of a store.
ghost use Rattle.std.specs.Prelude.{◌≡◌};
ghost use Rattle.lisp_object.specs.declared.refusal.TheConstants.{NO_MEMORY as memory};
ghost use Rattle.store_looks.specs.FailedLooks.{IsOfBackup, of_log, of_show};
ghost use Rattle.store_looks.specs.declared.unlooked.Unlooked.TheVariants as unlooked;

use disk_trait::HostError;
use lisp_object::refusal::{DAMAGED, DEVICE, NO_MEMORY, VERSION};
use log_look::LogError;
use std::alloc::AllocError;
use std::io;
use store_reports::{BackupError, ShowError};

/// Why nothing is told of a store.
#[derive(Drop)]
pub(crate) enum Unlooked {
    /// A fault, with its number.
    Fault(u16),
    /// The files are not there, or a call of the system failed.
    Host(HostError),
    /// What is asked for is not in the world.
    Show(ShowError),
    /// There are not so many records, or they are of another generation.
    NoPlace(LogError),
    /// There is something where the new store would be, or beside it.
    Taken(BackupError),
    /// A file of forms cannot be read.
    Unread(io::Error),
}

impl From<HostError> for Unlooked {
    ghost from_gives = { λ error e. e ≡ unlooked.Host error };

    fn from(error: HostError) -> Unlooked {
        Unlooked::Host(error)
    }
}

impl From<AllocError> for Unlooked {
    ghost from_gives = { λ _ e. e ≡ unlooked.Fault memory };

    fn from(_error: AllocError) -> Unlooked {
        Unlooked::Fault(NO_MEMORY)
    }
}

impl From<ShowError> for Unlooked {
    ghost from_gives = { λ error e. e ≡ of_show error };

    fn from(error: ShowError) -> Unlooked {
        match error {
            ShowError::OutOfMemory => Unlooked::Fault(NO_MEMORY),
            error => Unlooked::Show(error),
        }
    }
}

impl From<LogError> for Unlooked {
    ghost from_gives = { λ error e. e ≡ of_log error };

    fn from(error: LogError) -> Unlooked {
        match error {
            LogError::OutOfMemory => Unlooked::Fault(NO_MEMORY),
            LogError::DeviceFault => Unlooked::Fault(DEVICE),
            LogError::Damaged => Unlooked::Fault(DAMAGED),
            LogError::UnknownVersion | LogError::DoesNotMix => Unlooked::Fault(VERSION),
            error => Unlooked::NoPlace(error),
        }
    }
}

impl From<BackupError> for Unlooked {
    ghost from_gives = { IsOfBackup };

    fn from(error: BackupError) -> Unlooked {
        match error {
            BackupError::OutOfMemory => Unlooked::Fault(NO_MEMORY),
            BackupError::Host(error) => Unlooked::Host(error),
            BackupError::Refused(number) => Unlooked::Fault(number),
            BackupError::Differs => Unlooked::Host(HostError::System(io::Error::new(
                io::ErrorKind::Other,
                "the backup has another world than the store",
            ))),
            error => Unlooked::Taken(error),
        }
    }
}
