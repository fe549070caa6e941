//! A new store with the world of another one.
ghost use Rattle.std.specs.Prelude.{◌≡◌, ◌≢◌, ◌-◌, ◌^◌, ◌<◌, ◌⊎◌, ℕ, Decides, IfErr, IfOk, IsSome, IsTrue, MatchResult, None, Option, Some};
ghost use Rattle.disk_trait.specs.Disk.{Image, IsHonest, Tells};
ghost use Rattle.gate_log.specs.Failures.{is_read_fault};
ghost use Rattle.gate_log.specs.HalfInUse.{IsAt, Shows};
ghost use Rattle.gate_log.specs.Layout.{Contents, next_version};
ghost use Rattle.gate_log.specs.Log.{FilesMean};
ghost use Rattle.store_reports.specs.Backup.{HoldsWorld, HoldsNoRecord, HoldsTextAlone, IsCompared, IsBackupMade, IsNotBegun, HasItsName, IsToldAs, IsUncompared, HasNoBackup, IsBackupUnopened, IsCopyUnplaced, IsHalfUnread, IsCopyUnwritten, IsCopyWritten};
ghost use Rattle.store_reports.specs.LogRefusals.{open_number, read_number, start_number};
ghost use Rattle.store_reports.specs.declared.backups.BackupError.TheVariants as errors;

use crate::places::StorePlaces;
use disk_trait::{Disk, HostError, IfMissing};
use gate_log::{Halves, OpenRefusal, ReadError, StartError, shown_is_meant};
use lisp_object::refusal::{DAMAGED, DEVICE, NO_MEMORY, SNAPSHOT_TOO_LARGE, VERSION};
use plist_state::World;
use std::alloc::{AllocError, Global};
use std::io;
use thiserror::Error;
use world_text::write;

/// The version of the halves that are begun where no other is asked for.
const VERSION_BEGUN: u16 = 2;
/// The version of the halves that are begun on a disk that mixes.
const VERSION_OF_MIXING: u16 = 3;

/// Why there is no backup.
#[derive(Debug, Drop, Error)]
pub enum BackupError {
    /// Memory was refused.
    #[error("out of memory")]
    OutOfMemory,
    /// There is something at the place already.
    #[error("there is something of this name already; a backup is made in a new folder")]
    Exists,
    /// There is the folder of a backup to that place which was not finished, with this name: it was stopped, or is under way.
    #[error("{0} is there already: a backup to this place was stopped, or is under way; if none is, take it away with rm -r")]
    Unfinished(String),
    /// The files were not made.
    #[error("{0}")]
    Host(HostError),
    /// The backup was not written, or not opened again: the number of the refusal.
    #[error("the backup was refused with number {0}")]
    Refused(u16),
    /// What was opened again is another world.
    #[error("the backup has another world than the store")]
    Differs,
}

/// Why a log was not begun with a world, and its disk.
#[derive(Drop)]
pub struct NotBegun<D> {
    /// Why.
    pub error: BackupError,
    /// The disk.
    pub disk: D,
}

impl<D> NotBegun<D> {
    fn new(error: BackupError, disk: D) -> NotBegun<D>
        ensures error { result.error ≡ error }
        ensures disk { result.disk ≡ disk }
    {
        NotBegun { error, disk }
    }
}

impl From<AllocError> for BackupError {
    ghost from_gives = { λ _ e. e ≡ errors.OutOfMemory };

    fn from(_error: AllocError) -> BackupError {
        BackupError::OutOfMemory
    }
}

impl From<io::Error> for BackupError {
    fn from(error: io::Error) -> BackupError {
        BackupError::Host(HostError::from(error))
    }
}

impl From<HostError> for BackupError {
    ghost from_gives = { λ error e. e ≡ errors.Host error };

    fn from(error: HostError) -> BackupError {
        BackupError::Host(error)
    }
}

// The number of a log that was not opened.
fn number_of(refusal: OpenRefusal) -> u16
    ensures { result ≡ open_number refusal }
{
    match refusal {
        OpenRefusal::DeviceFault => DEVICE,
        OpenRefusal::Damaged => DAMAGED,
        OpenRefusal::UnknownVersion | OpenRefusal::DoesNotMix => VERSION,
        OpenRefusal::OutOfMemory => NO_MEMORY,
    }
}

// The number of a half that was not read.
fn number_of_read(error: ReadError) -> u16
    ensures { result ≡ read_number error }
{
    match error {
        ReadError::DeviceFault => DEVICE,
        ReadError::Damaged => DAMAGED,
        ReadError::OutOfMemory => NO_MEMORY,
    }
}

// The number of a half that was not started.
fn number_of_start(error: StartError) -> u16
    ensures { result ≡ start_number error }
{
    match error {
        StartError::DeviceFault => DEVICE,
        StartError::TooLarge => SNAPSHOT_TOO_LARGE,
        StartError::OutOfMemory => NO_MEMORY,
    }
}

/// Begins the log of a disk on which no half is open, with a world as its snapshot, and gives the disk back. Of an honest disk: the
/// text of this world is what its log holds then, no record follows it, and a crash leaves it so.
///
/// # Errors
///
/// With the disk: `Exists` where a half is open, and nothing is written then. `Refused` with the number where the log was not opened, or the
/// half not begun. Out of memory.
pub fn backup_onto<D: Disk>(
    alloc: Global,
    world: &World,
    disk: D,
    limit: u64,
) -> Result<D, NotBegun<D>>
    requires { (D.state disk).failures < 2 ^ 64 - 1 }
    ensures holds { IfOk result (λ back. IsHonest (D.state disk)
        → HoldsWorld (D.state disk).mixes world.now.0 (D.state back)) }
    ensures refused { IfErr result (λ refused.
        IsNotBegun limit world.now.0 (D.state disk) (D.state refused.disk) refused.error) }
{
    shown_is_meant();
    let text = match write(alloc, world) {
        Ok(text) => text,
        Err(AllocError) => return Err(NotBegun::new(BackupError::OutOfMemory, disk)),
    };
    let mut log = match Halves::open(alloc, disk, limit) {
        Ok(log) => log,
        Err(refused) => {
            let error = BackupError::Refused(number_of(refused.refusal));
            return Err(NotBegun::new(error, refused.disk));
        }
    };
    if log.is_started() {
        return Err(NotBegun::new(BackupError::Exists, log.into_disk()));
    }
    match log.start_half(alloc, text.as_slice()) {
        Ok(()) => Ok(log.into_disk()),
        Err(refused) => {
            let error = BackupError::Refused(number_of_start(refused));
            Err(NotBegun::new(error, log.into_disk()))
        }
    }
}

/// Makes a new store at `dir`, where there may be nothing yet, with a world as its snapshot, in halves of `limit` bytes at most. It is
/// written, opened again and compared before it gets its name, so nothing half made is ever at `dir`. It touches no other place.
///
/// # Errors
///
/// Each with its cause (`HasNoBackup`); what was begun is taken away. `Exists` where something is at `dir`, and `Unfinished` where something is
/// beside it: none of that is touched. `Host` with the cause where a call of the system failed. `Refused` with its number. `Differs`
/// where what was opened again has another text.
pub fn backup<P: StorePlaces>(
    alloc: Global,
    places: &P,
    world: &World,
    dir: &str,
    limit: u64,
) -> Result<(), BackupError>
    requires may { P.may places.now dir.now }
    ensures made { IfOk result
        (λ _. IsBackupMade P.Disk.state (P.does places.now) limit world.now.0 dir.now) }
    ensures refused { IfErr result (HasNoBackup P.Disk.state (P.does places.now) limit world.now.0 dir.now) }
{
    places.begin(dir)?;
    match make_and_place(alloc, places, world, dir, limit) {
        Ok(()) => Ok(()),
        Err(error) => {
            places.take_away(dir);
            Err(error)
        }
    }
}

// Makes a backup in its folder, and gives it its name.
fn make_and_place<P: StorePlaces>(
    alloc: Global,
    places: &P,
    world: &World,
    dir: &str,
    limit: u64,
) -> Result<(), BackupError>
    requires may { P.may places.now dir.now }
    ensures { MatchResult result (λ _. HasItsName P.Disk.state (P.does places.now) limit world.now.0 dir.now)
        (IsCopyUnplaced P.Disk.state (P.does places.now) limit world.now.0 dir.now) }
{
    write_at(alloc, places, world, dir, limit)?;
    match compare_at(alloc, places, world, dir, limit) {
        Ok(()) => places.place(dir),
        Err(error) => Err(error),
    }
}

// Writes a world to new files, which are closed then.
fn write_at<P: StorePlaces>(
    alloc: Global,
    places: &P,
    world: &World,
    dir: &str,
    limit: u64,
) -> Result<(), BackupError>
    requires may { P.may places.now dir.now }
    ensures written { IfOk result
        (λ _. IsCopyWritten P.Disk.state (P.does places.now) limit world.now.0 dir.now) }
    ensures refused { IfErr result
        (IsCopyUnwritten P.Disk.state (P.does places.now) limit world.now.0 dir.now) }
{
    let disk = places.open(dir, IfMissing::Make)?;
    match backup_onto(alloc, world, disk, limit) {
        Ok(_disk) => Ok(()),
        Err(not_begun) => Err(with_cause(places, not_begun.error, &not_begun.disk)),
    }
}

// The error, with the cause of a fault of the device.
fn with_cause<P: StorePlaces>(places: &P, error: BackupError, disk: &P::Disk) -> BackupError
    ensures { IsToldAs (P.does places.now) disk.now error result }
{
    match (error, places.cause(disk)) {
        (BackupError::Refused(DEVICE), Some(cause)) => BackupError::Host(cause),
        (error, _) => error,
    }
}

// Opens the files of a backup again, and looks whether they hold the text of a world and no record.
fn compare_at<P: StorePlaces>(
    alloc: Global,
    places: &P,
    world: &World,
    dir: &str,
    limit: u64,
) -> Result<(), BackupError>
    requires may { P.may places.now dir.now }
    ensures compared { IfOk result
        (λ _. IsCompared P.Disk.state (P.does places.now) limit world.now.0 dir.now) }
    ensures refused { IfErr result (IsUncompared P.Disk.state (P.does places.now) limit world.now.0 dir.now) }
{
    let text = write(alloc, world)?;
    let disk = places.open(dir, IfMissing::Refuse)?;
    match holds_text(alloc, disk, text.as_slice(), limit) {
        Ok(true) => Ok(()),
        Ok(false) => Err(BackupError::Differs),
        Err(refused) => Err(BackupError::Refused(refused.number)),
    }
}

/// Why a log was not read, and its disk.
#[derive(Drop)]
struct Unread<D> {
    number: u16,
    disk: D,
}

// Whether a disk holds this text and no record.
fn holds_text<D: Disk + Drop>(
    alloc: Global,
    disk: D,
    text: &[u8],
    limit: u64,
) -> Result<bool, Unread<D>>
    requires { (D.state disk).failures < 2 ^ 64 - 1 }
    ensures answer { IfOk result (λ same. IsHonest (D.state disk)
        → (k : Option Contents) × FilesMean k (D.state disk).reads
        × Decides same (HoldsTextAlone (next_version (D.state disk).mixes 0) text.now k)) }
    ensures refused { IfErr result
        (λ refused. IsBackupUnopened refused.number (D.state disk) (D.state refused.disk)
        ⊎ IsHalfUnread refused.number (D.state disk) (D.state refused.disk)) }
{
    shown_is_meant();
    let version = begun_version(&disk);
    let mut log = match Halves::open(alloc, disk, limit) {
        Ok(log) => log,
        Err(refused) => {
            let number = number_of(refused.refusal);
            return Err(Unread {
                number,
                disk: refused.disk,
            });
        }
    };
    match is_bare(alloc, &mut log, version, text) {
        Ok(same) => Ok(same),
        Err(error) => Err(Unread {
            number: number_of_read(error),
            disk: log.into_disk(),
        }),
    }
}

// The version of the half that is begun first on a disk.
fn begun_version<D: Disk>(disk: &D) -> u16
    ensures { result ≡ next_version (D.state disk.now).mixes 0 }
{
    if disk.mixes() {
        VERSION_OF_MIXING
    } else {
        VERSION_BEGUN
    }
}

// Whether a log has a half in use, of this version, with this snapshot and no record.
fn is_bare<D: Disk>(
    alloc: Global,
    log: &mut Halves<D>,
    version: u16,
    text: &[u8],
) -> Result<bool, ReadError>
    requires { (D.state log.old.disk).failures < 2 ^ 64 - 1 }
    ensures tells { Tells is_read_fault (D.state log.old.disk) (D.state log.new.disk) result }
    ensures answer { (k : Option Contents) → IsHonest (D.state log.old.disk)
        → IsAt log.old.used (D.state log.old.disk) k
        → MatchResult result (λ same. Decides same (HoldsTextAlone version text.now k)) (λ e. e ≢ ReadError.Damaged) }
{
    if !is_alone(log, version) {
        return Ok(false);
    }
    match log.snapshot_bytes(alloc) {
        Ok(found) => Ok(found.as_slice() == text),
        Err(error) => Err(error),
    }
}

// Whether a log has a half in use, of this version, with no record.
fn is_alone<D: Disk>(log: &Halves<D>, version: u16) -> bool
    ensures alone { (k : Option Contents) (image : Image) → Shows log.now.used k image
        → Decides result (HoldsNoRecord version k) }
    ensures in_use { IsTrue result → IsSome log.now.used }
{
    if !log.is_started() {
        return false;
    }
    if log.version() != version {
        return false;
    }
    log.record_count() == 0
}
