// What stands in a folder's place, and how a missing folder is made. Outside every proof, as all of `HostDisk`.

use crate::failed_call::tried;
use crate::{HostCall, HostError, HostFile};
use std::fs::File;
use std::path::Path;
use std::rt::Files;
use std::{fs, io};

// Makes a folder where it is missing, and those above it. That they are there then lasts: the folder above each new one is synced.
pub(super) fn make_folder<R: Files<File = File> + AllocGlobal>(
    rt: &R,
    dir: &str,
) -> Result<(), HostError> {
    let folder = Path::new(dir);
    let missing = missing_folders(rt, folder);
    if missing == 0 {
        return Ok(());
    }
    // a name under which no half can stand is refused before anything is made
    let half = folder.join(rt.alloc(), "half-a")?;
    tried(HostCall::LookAt, HostFile::HalfA, is_at(rt, half.as_path()))?;
    tried(
        HostCall::Make,
        HostFile::Folder,
        fs::create_dir_all(rt, dir),
    )?;
    for made in folder.ancestors().take(missing) {
        let above = made.join(rt.alloc(), "..")?;
        let above = tried(
            HostCall::Open,
            HostFile::Above,
            File::open(rt, above.as_path()),
        )?;
        tried(HostCall::Sync, HostFile::Above, above.sync_all())?;
    }
    Ok(())
}

// How many folders are missing: this one, the one above it and so on. The empty path above a relative one is the present folder.
fn missing_folders<R: Files>(rt: &R, folder: Path<'_>) -> usize {
    folder
        .ancestors()
        .take_while(|it| !it.as_str().is_empty() && !it.exists(rt))
        .count()
}

// Whether something of this name is there, a link for one.
pub(super) fn is_at<R: Files>(rt: &R, path: Path<'_>) -> io::Result<bool> {
    match fs::symlink_metadata(rt, path) {
        Ok(_) => Ok(true),
        Err(error) if error.kind() == io::ErrorKind::NotFound => Ok(false),
        Err(error) => Err(error),
    }
}
