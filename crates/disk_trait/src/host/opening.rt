// How the two files of a folder are opened: what has their names is looked at, and each is locked. Outside every proof, as all of
// `HostDisk`.
ghost use Rattle.std.specs.Prelude.{IfOk};
ghost use Rattle.disk_trait.specs.Host.{IsAboveStreams};

use super::folder::{is_at, make_folder};
use crate::failed_call::tried;
use crate::{HostCall, HostError, HostFile, IfMissing};
use std::fs::{File, Metadata, OpenOptions, TryLockError};
use std::os::fd::AsRawFd;
use std::os::unix::fs::{MetadataExt, OpenOptionsExt};
use std::path::Path;
use std::rt::Files;
use std::{fs, io};

// Opens and locks both files of a folder. That they are there then lasts.
pub(super) fn both_files<R: Files<File = File> + AllocGlobal>(
    rt: &R,
    dir: &str,
    if_missing: IfMissing,
) -> Result<(File, File), HostError>
    ensures { IfOk result (λ files. IsAboveStreams files.0 × IsAboveStreams files.1) }
{
    if dir.is_empty() {
        return Err(HostError::NoName);
    }
    if if_missing == IfMissing::Make {
        make_folder(rt, dir)?;
    }
    let a = open_file(rt, dir, HostFile::HalfA, if_missing)?;
    let b = open_file(rt, dir, HostFile::HalfB, if_missing)?;
    let folder = tried(HostCall::Open, HostFile::Folder, File::open(rt, dir))?;
    tried(HostCall::Sync, HostFile::Folder, folder.sync_all())?;
    Ok((a, b))
}

// Opens and locks a file, and makes it where it is missing and that is asked for.
fn open_file<R: Files<File = File> + AllocGlobal>(
    rt: &R,
    dir: &str,
    name: HostFile,
    if_missing: IfMissing,
) -> Result<File, HostError>
    ensures { IfOk result IsAboveStreams }
{
    let path = Path::new(dir).join(rt.alloc(), name_of(name))?;
    let file = match if_missing {
        IfMissing::Make => open_or_make(rt, path.as_path(), name)?,
        IfMissing::Refuse => open_at(rt, path.as_path(), name).map_err(no_store)?,
    };
    locked(file, name)
}

// The name of a half in its folder.
fn name_of(half: HostFile) -> &'static str {
    match half {
        HostFile::HalfB => "half-b",
        _ => "half-a",
    }
}

// Opens a file, and makes it where it is missing.
fn open_or_make<R: Files<File = File>>(
    rt: &R,
    path: Path<'_>,
    name: HostFile,
) -> Result<File, HostError> {
    if tried(HostCall::LookAt, name, is_at(rt, path))? {
        return open_at(rt, path, name);
    }
    match make_at(rt, path) {
        // somebody else has made it since
        Err(error) if error.kind() == io::ErrorKind::AlreadyExists => open_at(rt, path, name),
        made => tried(HostCall::Make, name, made),
    }
}

// Makes a file that is not there, which nobody but its owner may read or write. No link is followed.
fn make_at<R: Files<File = File>>(rt: &R, path: Path<'_>) -> io::Result<File> {
    OpenOptions::new()
        .read(true)
        .write(true)
        .create_new(true)
        .mode(0o600)
        .open(rt, path)
}

// Opens a file that is there. A link that takes its place after the first look is found by the second one: what was opened has to be
// what is there.
fn open_at<R: Files<File = File>>(
    rt: &R,
    path: Path<'_>,
    name: HostFile,
) -> Result<File, HostError> {
    half_at(rt, path, name)?;
    let file = OpenOptions::new().read(true).write(true).open(rt, path);
    let file = tried(HostCall::Open, name, file)?;
    let found = half_at(rt, path, name)?;
    let opened = tried(HostCall::LookAt, name, file.metadata())?;
    if opened.dev() == found.dev() && opened.ino() == found.ino() {
        Ok(file)
    } else {
        Err(HostError::Linked)
    }
}

// What is known of a file that may be a half: it is a regular one, and this is its one name.
fn half_at<R: Files>(rt: &R, path: Path<'_>, name: HostFile) -> Result<Metadata, HostError> {
    let found = tried(HostCall::LookAt, name, fs::symlink_metadata(rt, path))?;
    if found.is_symlink() {
        return Err(HostError::Linked);
    }
    if !found.is_file() {
        return Err(HostError::NoFile);
    }
    // a folder has more names than one
    if found.nlink() > 1 {
        return Err(HostError::Linked);
    }
    Ok(found)
}

// The same open file, locked, under a descriptor that is none of a standard stream.
pub(super) fn locked(file: File, name: HostFile) -> Result<File, HostError>
    ensures { IfOk result IsAboveStreams }
{
    let file = tried(HostCall::Open, name, above_streams(file))?;
    if !tried(HostCall::LookAt, name, file.metadata())?.is_file() {
        return Err(HostError::NoFile);
    }
    match file.try_lock() {
        Ok(()) => Ok(file),
        Err(TryLockError::WouldBlock) => Err(HostError::Locked),
        Err(TryLockError::Error(error)) => tried(HostCall::Lock, name, Err(error)),
    }
}

// Why a file was not opened that is not to be made: if it is missing, there is no store.
fn no_store(error: HostError) -> HostError {
    match error {
        HostError::Failed(failed) if failed.error.kind() == io::ErrorKind::NotFound => {
            HostError::NoStore
        }
        error => error,
    }
}

// The same open file under a descriptor that is none of a standard stream. A program that starts with a standard
// stream closed gets its number for the next file that it opens.
fn above_streams(file: File) -> io::Result<File>
    ensures { IfOk result IsAboveStreams }
{
    if file.as_raw_fd() > 2 {
        return Ok(file);
    }
    let copy = file.try_clone()?;
    if copy.as_raw_fd() > 2 {
        return Ok(copy);
    }
    Err(io::ErrorKind::Unsupported.into())
}
