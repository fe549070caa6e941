// Which call of the system failed, on which file of a store, and why.
ghost use Rattle.std.specs.Prelude.{◌≡◌};
ghost use Rattle.std.specs.Result.{result_ok};

use crate::{Half, HostError};
use std::io;
use thiserror::Error;

/// What the system was asked to do with a file.
#[derive(Clone, Copy, Debug, PartialEq, Eq, Error)]
pub enum HostCall {
    #[error("look at")]
    LookAt,
    #[error("make")]
    Make,
    #[error("open")]
    Open,
    #[error("lock")]
    Lock,
    #[error("tell the length of")]
    Measure,
    #[error("read")]
    Read,
    #[error("write")]
    Write,
    #[error("cut")]
    Cut,
    #[error("sync")]
    Sync,
}

/// A file of a store, named from its folder on.
#[derive(Clone, Copy, Debug, PartialEq, Eq, Error)]
pub enum HostFile {
    /// The folder.
    #[error(".")]
    Folder,
    /// The folder that one was made in.
    #[error("..")]
    Above,
    #[error("half-a")]
    HalfA,
    #[error("half-b")]
    HalfB,
}

impl HostFile {
    /// The file of a half.
    pub fn of_half(half: Half) -> HostFile {
        match half {
            Half::A => HostFile::HalfA,
            Half::B => HostFile::HalfB,
        }
    }

    /// The path of the file from the folder's own path on: it is empty, or begins with a slash.
    pub fn behind_folder(self) -> &'static str {
        match self {
            HostFile::Folder => "",
            HostFile::Above => "/..",
            HostFile::HalfA => "/half-a",
            HostFile::HalfB => "/half-b",
        }
    }
}

/// A call of the system that failed.
#[derive(Clone, Copy, Debug, Error)]
#[error("cannot {call} {file}: {error}")]
pub struct FailedCall {
    /// What was asked of the system.
    pub call: HostCall,
    /// With which file.
    pub file: HostFile,
    /// The system's error.
    pub error: io::Error,
}

/// What the system answered to a call; if it failed, with the call.
pub fn tried<T>(call: HostCall, file: HostFile, answer: io::Result<T>) -> Result<T, HostError>
    ensures { result_ok result ≡ result_ok answer }
{
    match answer {
        Ok(value) => Ok(value),
        Err(error) if error.kind() == io::ErrorKind::OutOfMemory => Err(HostError::OutOfMemory),
        Err(error) => Err(HostError::Failed(FailedCall { call, file, error })),
    }
}
