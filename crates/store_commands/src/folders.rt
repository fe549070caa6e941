// What opens the files of a store in a folder.
ghost use Rattle.std.specs.Prelude.{◌≡◌, ◌≢◌, ◌⊎◌, ◌<◌, ◌-◌, ◌^◌, ⊤, [], true, Decides, Err, IfOk, Option, Result, false, option_map};
ghost use Rattle.clap.specs.Words.{Text};
ghost use Rattle.device_disk.specs.Told.{told_of};
ghost use Rattle.disk_trait.specs.Disk.{IsHonest, file_of};
ghost use Rattle.disk_trait.specs.declared.host.HostError.{HostError};
ghost use Rattle.disk_trait.specs.declared.host.IfMissing.{IfMissing};
ghost use Rattle.gate_log.specs.Layout.{HasOpenGate};
ghost use Rattle.store_commands.specs.Folders.{HoldsStore, IsFailureOf, LooksWhether, OpensStore};

use device_disk::{DeviceDisk, HostDevice};
use disk_trait::{DeviceFault, Disk, FailedCall, Half, HostError, IfMissing};
use std::io;

/// The byte that a half in use begins with.
const OPEN: u8 = 0xA5;

/// A disk that tells why a call of it failed.
pub trait TellsCause: Disk {
    // what it may tell
    ghost tells: { Self → Option HostError → Type 0 };

    /// The last call of the system that failed, with its error, if there is one.
    fn cause(&self) -> Option<FailedCall>
        ensures { tells self.now (option_map HostError.Failed result) };
}

impl TellsCause for DeviceDisk<HostDevice> {
    ghost tells = { λ disk cause. ⊤ };

    fn cause(&self) -> Option<FailedCall> {
        self.failed_call()
    }
}

/// What opens the files of a store in a folder: the system.
pub trait Folders {
    /// The disk that the two files are.
    type Disk: TellsCause + Drop;

    // what an opening of this folder may give, by what is to become of a store that is missing
    ghost opens: { Self → Text → IfMissing → Result Self.Disk HostError → Type 0 };

    /// Opens the files of a store in a folder; what is missing is made, or the opening is refused and nothing is made.
    fn open_files(&self, folder: &str, if_missing: IfMissing) -> Result<Self::Disk, HostError>
        ensures room { IfOk result (λ disk. (Self.Disk.state disk).failures ≡ 0) }
        ensures opens { opens self.now folder.now if_missing result };
}

impl Folders for HostRuntime {
    type Disk = DeviceDisk<HostDevice>;

    ghost opens = { λ host folder if_missing result. IfOk result (λ disk.
        IsHonest (told_of disk) × ((told_of disk).mixes ≡ false)) };

    fn open_files(
        &self,
        folder: &str,
        if_missing: IfMissing,
    ) -> Result<DeviceDisk<HostDevice>, HostError> {
        let files = HostDevice::open_files(self, folder, if_missing)?;
        DeviceDisk::open(self.alloc(), files)
    }
}

/// Opens the files of a folder, which has a name. What is missing is made, or, if the store is to exist, refused.
pub fn open_folder<R: Folders>(rt: &R, folder: &str, existing: bool) -> Result<R::Disk, HostError>
    ensures room { IfOk result (λ disk. (R.Disk.state disk).failures ≡ 0) }
    ensures opens { ((folder.now ≡ []) × (result ≡ Err HostError.NoName))
        ⊎ ((folder.now ≢ [])
        × OpensStore R.Disk.state R.Disk.tells (R.opens rt.now) folder.now existing result) }
{
    // no folder has an empty name, and files under it would be those of the present folder
    if folder.is_empty() {
        return Err(HostError::NoName);
    }
    if existing {
        open_existing(rt, folder)
    } else {
        rt.open_files(folder, IfMissing::Make)
    }
}

// Opens the files of a folder, of which one is a half in use.
fn open_existing<R: Folders>(rt: &R, folder: &str) -> Result<R::Disk, HostError>
    ensures room { IfOk result (λ disk. (R.Disk.state disk).failures ≡ 0) }
    ensures opens { OpensStore R.Disk.state R.Disk.tells (R.opens rt.now) folder.now true result }
{
    let mut disk = match rt.open_files(folder, IfMissing::Refuse) {
        Ok(disk) => disk,
        Err(error) => return Err(error),
    };
    // where neither is one, the store would begin a new one and write over what there is
    match holds_store(&mut disk) {
        Ok(true) => Ok(disk),
        Ok(false) => Err(HostError::NoStore),
        Err(_) => Err(failure_of(&disk)),
    }
}

/// Whether one of both files is an open half. It reads, and writes nothing, also where it fails.
pub fn holds_store<D: Disk>(disk: &mut D) -> Result<bool, DeviceFault>
    requires { (D.state disk.old).failures < 2 ^ 64 - 1 }
    ensures { LooksWhether HoldsStore (D.state disk.old) (D.state disk.new) result }
{
    match is_open_half(disk, Half::A) {
        Ok(false) => is_open_half(disk, Half::B),
        found => found,
    }
}

// Whether a file is an open half.
fn is_open_half<D: Disk>(disk: &mut D, half: Half) -> Result<bool, DeviceFault>
    requires { (D.state disk.old).failures < 2 ^ 64 - 1 }
    ensures { LooksWhether
        (λ image. HasOpenGate (file_of half image)) (D.state disk.old) (D.state disk.new) result }
{
    let mut head = [0u8; 2];
    match disk.read(half, 0, &mut head) {
        Ok(count) => Ok(begins_open(&head[..count])),
        Err(fault) => Err(fault),
    }
}

// Whether the file that begins with these two bytes, or has no more than these, is an open half.
fn begins_open(head: &[u8]) -> bool
    ensures { Decides result (HasOpenGate head.now) }
{
    head.len() >= 2 && head[0] == OPEN
}

// The call that failed, with the system's error.
fn failure_of<D: TellsCause>(disk: &D) -> HostError
    ensures { IsFailureOf D.tells disk.now result }
{
    match disk.cause() {
        Some(failed) => HostError::Failed(failed),
        None => HostError::System(io::ErrorKind::Other.into()),
    }
}
