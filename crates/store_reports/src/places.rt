//! Where new stores are made.
ghost use Rattle.std.specs.Prelude.{◌≡◌, ℕ, List, IfOk, MatchResult, ⊤};
ghost use Rattle.store_reports.specs.NewStorePlaces.{Deed, begun, not_begun, opened, told, placed, not_placed, taken_away};

use crate::backups::BackupError;
use device_disk::{DeviceDisk, HostDevice};
use disk_trait::{Disk, HostError, IfMissing};
use std::fs::File;
use std::path::Path;
use std::rt::Files;
use std::{fs, io};

/// Where new stores are made, each in a folder beside its place, which gets the place's name once the store is whole: the system.
pub trait StorePlaces {
    /// The disk that the two files of a store are.
    type Disk: Disk + Drop;

    // the places where a store may be made
    ghost may: { Self → List ℕ → Type 0 };

    // what it does, and what comes of it
    ghost does: { Self → Deed Self.Disk → Type 0 };

    /// Makes the folder of a new store.
    ///
    /// # Errors
    ///
    /// `Exists` where something is at the place already, and `Unfinished` where something is beside it: none of that is touched. `Host` with
    /// the cause where a call of the system failed. Out of memory.
    fn begin(&self, dir: &str) -> Result<(), BackupError>
        requires { may self.now dir.now }
        ensures { MatchResult result (λ _. does self.now (begun dir.now))
            (λ error. does self.now (not_begun dir.now error)) };

    /// Opens the two files of this folder; what is missing is made, or the opening is refused and nothing is made.
    ///
    /// # Errors
    ///
    /// The cause.
    fn open(&self, dir: &str, if_missing: IfMissing) -> Result<Self::Disk, HostError>
        requires { may self.now dir.now }
        ensures room { IfOk result (λ disk. (Self.Disk.state disk).failures ≡ 0) }
        ensures opens { does self.now (opened dir.now if_missing result) };

    /// The last call of a disk that failed, with the system's error, if there is one.
    fn cause(&self, disk: &Self::Disk) -> Option<HostError>
        ensures { does self.now (told disk.now result) };

    /// Gives the folder the name of its place. That it has it then lasts.
    ///
    /// # Errors
    ///
    /// `Host` with the cause. Then nothing has this name.
    fn place(&self, dir: &str) -> Result<(), BackupError>
        requires { may self.now dir.now }
        ensures { MatchResult result (λ _. does self.now (placed dir.now))
            (λ error. does self.now (not_placed dir.now error)) };

    /// Takes the folder away.
    fn take_away(&self, dir: &str)
        requires { may self.now dir.now }
        ensures { does self.now (taken_away dir.now) };
}

impl StorePlaces for HostRuntime {
    type Disk = DeviceDisk<HostDevice>;

    ghost may = { λ host dir. ⊤ };

    ghost does = { λ host deed. ⊤ };

    fn begin(&self, dir: &str) -> Result<(), BackupError> {
        let dir = free_place(self, dir)?;
        make_beside(self, dir)
    }

    fn open(&self, dir: &str, if_missing: IfMissing) -> Result<DeviceDisk<HostDevice>, HostError> {
        let partial = format!(in self.alloc(); "{}.partial", without_slashes(dir))?;
        let files = HostDevice::open_files(self, partial.as_str(), if_missing)?;
        DeviceDisk::open(self.alloc(), files)
    }

    fn cause(&self, disk: &DeviceDisk<HostDevice>) -> Option<HostError> {
        match disk.failed_call() {
            Some(failed) => Some(HostError::Failed(failed)),
            None => None,
        }
    }

    fn place(&self, dir: &str) -> Result<(), BackupError> {
        let dir = without_slashes(dir);
        let partial = format!(in self.alloc(); "{dir}.partial")?;
        put_in_place(self, partial.as_str(), dir)
    }

    fn take_away(&self, dir: &str) {
        if let Ok(partial) = format!(in self.alloc(); "{}.partial", without_slashes(dir)) {
            remove(self, partial.as_str());
        }
    }
}

// The name of a place, without slashes at its end.
fn without_slashes(dir: &str) -> &str {
    dir.trim_end_matches('/')
}

// The name of a place where there is nothing.
fn free_place<'a, R: Files<File = File> + AllocGlobal>(
    rt: &R,
    dir: &'a str,
) -> Result<&'a str, BackupError> {
    if dir.is_empty() {
        return Err(BackupError::Host(HostError::NoName));
    }
    let name = without_slashes(dir);
    if name.is_empty() || fs::symlink_metadata(rt, name).is_ok() {
        return Err(BackupError::Exists);
    }
    Ok(name)
}

// Makes the folder beside a place. What has its name already is not touched: it may be in use.
fn make_beside<R: Files<File = File> + AllocGlobal>(rt: &R, dir: &str) -> Result<(), BackupError> {
    let partial = format!(in rt.alloc(); "{dir}.partial")?;
    match fs::create_dir(rt, partial.as_str()) {
        Ok(()) => Ok(()),
        Err(error) if error.kind() == io::ErrorKind::AlreadyExists => {
            Err(BackupError::Unfinished(partial))
        }
        Err(error) => Err(BackupError::from(error)),
    }
}

// Gives the folder its name. That it has it then lasts; where that is not sure, it is taken away.
fn put_in_place<R: Files<File = File> + AllocGlobal>(
    rt: &R,
    partial: &str,
    dir: &str,
) -> Result<(), BackupError> {
    let parent = Path::new(partial).join(rt.alloc(), "..")?;
    let parent = File::open(rt, parent.as_path())?;
    rt.rename(partial, dir)?;
    if let Err(error) = parent.sync_all() {
        remove(rt, dir);
        return Err(BackupError::from(error));
    }
    Ok(())
}

// Takes a folder away that was made here, with all that is in it. What fails in that is not told: the cause of the
// backup is.
fn remove<R: Files<File = File> + AllocGlobal>(rt: &R, made: &str) {
    let _ = fs::remove_dir_all(rt, made);
}
