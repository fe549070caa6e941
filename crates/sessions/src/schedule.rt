// When a session takes snapshots, and how.
ghost use Rattle.std.specs.Prelude.{◌≡◌, ◌↔◌, ◌<◌, ◌≤◌, ◌+◌, ◌-◌, ◌^◌, ℕ, None, Some, IfSome, IsSome, IsTrue};
ghost use Rattle.plist_state.specs.State.{WorldState};
ghost use Rattle.sessions.specs.Pace.{CountsLoggedForm, HasHalfGrown, IsDueByCount, fill_of, first_pace};
ghost use Rattle.sessions.specs.steps.Schedule.{CountsAll, IsBeforeDue, IsBeforeGrown, RenewsOrIsRefused, RenewsAfterForm, pace_of};

use disk_trait::Disk;
use lisp_object::refusal::SNAPSHOT_TOO_LARGE;
use prevalence_store::{Outcome, Store};
use session_words::SessionOptions;
use user_macros::MacroFunctions;

/// The least size of a half that has grown enough for a snapshot.
const LEAST_GROWN: u64 = 1 << 20;

/// A snapshot after every so many forms that were logged, and how many are left until the next one; and one once the half in use has
/// grown so many times.
#[derive(Drop)]
pub(crate) struct Schedule {
    every: u64,
    left: u64,
    pub(crate) ratio: u64,
}

impl Schedule {
    /// A snapshot after every so many forms, and once the half has grown so many times; never if these are 0.
    pub(crate) fn new(every: u64, ratio: u64) -> Schedule
        ensures { pace_of result ≡ first_pace every ratio }
    {
        Schedule {
            every,
            left: every,
            ratio,
        }
    }

    /// How many forms may be logged before a snapshot is due.
    pub(crate) fn before_due(&self) -> u64
        ensures { IsBeforeDue (pace_of self.now) result }
    {
        if self.left > 1 {
            return self.left - 1;
        }
        if self.every == 0 { u64::MAX } else { 0 }
    }

    /// Counts so many forms that were logged, before a snapshot is due.
    pub(crate) fn pass(&mut self, logged: u64)
        requires { IsBeforeDue (pace_of self.old) logged }
        ensures { CountsAll logged (pace_of self.old) (pace_of self.new) }
    {
        if self.left > 1 {
            self.left -= logged;
            return;
        }
        if logged > 0 {
            self.left = self.every;
        }
    }

    /// Counts a form that was logged, and says whether a snapshot is due by the number of forms.
    pub(crate) fn count(&mut self) -> bool
        ensures due { IsTrue result ↔ IsDueByCount (pace_of self.old) }
        ensures counts { CountsLoggedForm (pace_of self.old) (pace_of self.new) }
    {
        if self.left > 1 {
            self.left -= 1;
            return false;
        }
        self.left = self.every;
        self.every > 0
    }
}

/// The least size of a half that has grown so many times; none where no half may have it.
fn grown_size(ratio: u64, first_size: u64) -> Option<u64>
    ensures some { IfSome result (λ least. (size : ℕ)
        → HasHalfGrown ratio size first_size ↔ (least ≤ size)) }
    ensures none { result ≡ None → (size : ℕ) → size < 2 ^ 64
        → HasHalfGrown ratio size first_size → ⊥ }
{
    if ratio == 0 {
        return None;
    }
    match ratio.checked_mul(first_size) {
        Some(grown) => Some(grown.max(LEAST_GROWN)),
        None => None,
    }
}

/// How many bytes more a half of this size may take before it has grown so many times.
fn bytes_before_grown(ratio: u64, size: u64, first_size: u64) -> u64
    ensures { 0 < result → HasHalfGrown ratio (size + result) first_size → ⊥ }
{
    match grown_size(ratio, first_size) {
        Some(least) => least.saturating_sub(size).saturating_sub(1),
        None => u64::MAX - size,
    }
}

/// The offset at which the half in use has grown so many times; that of no file if it never has.
fn grown_at<D: Disk, R: MacroFunctions>(store: &Store<D, R>, ratio: u64) -> u64
    ensures { (size : ℕ) → size < 2 ^ 64 → HasHalfGrown ratio size store.now.first_size → result ≤ size }
{
    match grown_size(ratio, store.first_size()) {
        Some(least) => least,
        None => u64::MAX,
    }
}

/// Has a store write zeros ahead as a session may that is wanted so. Where a snapshot is due after so many forms, none: it leaves the half
/// that was in use as it is, with the zeros behind it. Where one is due once the half has grown, none from there on, so that then there are
/// none behind it.
pub fn write_zeros_ahead<D: Disk, R: MacroFunctions>(
    store: &mut Store<D, R>,
    wanted: SessionOptions,
)
    ensures { store.new ≡ store.old }
{
    let end = if wanted.snapshot_every == 0 {
        grown_at(store, wanted.snapshot_ratio)
    } else {
        0
    };
    store.write_zeros_ahead(end);
}

// Whether the half in use has grown so many times.
fn has_grown<D: Disk, R: MacroFunctions>(store: &Store<D, R>, ratio: u64) -> bool
    ensures { IsTrue result ↔ HasHalfGrown ratio store.now.size store.now.first_size }
{
    let size = store.size();
    match grown_size(ratio, store.first_size()) {
        Some(least) => least <= size,
        None => false,
    }
}

/// How many bytes of records may be logged together: those for which there is room, before the half has grown so many times.
pub(crate) fn room_before_grown<D: Disk, R: MacroFunctions>(store: &Store<D, R>, ratio: u64) -> u64
    ensures grown { IsBeforeGrown ratio (fill_of D.state store.now) result }
    ensures fits { result ≤ store.now.limit - store.now.size }
{
    bytes_before_grown(ratio, store.size(), store.first_size()).min(store.room())
}

/// Takes a snapshot if one is due after a form that was answered. One for which there is no half is passed over. Gives
/// the number of the fault that ends the session in it.
pub(crate) fn renew_after_form<D: Disk, R: MacroFunctions>(
    store: &mut Store<D, R>,
    schedule: &mut Schedule,
    wrote: bool,
) -> Option<u16>
    requires is_open { IsSome store.old.world }
    ensures renews { (w : WorldState) → store.old.world ≡ Some w
        → RenewsAfterForm R.Meaning.functions D.state store.old store.new w wrote (pace_of schedule.old)
        (pace_of schedule.new) result }
    ensures honest { (D.state store.new.disk).honest ≡ (D.state store.old.disk).honest }
{
    if !wrote {
        return None;
    }
    // a form is counted also where the half has grown
    let counted = schedule.count();
    if !counted && !has_grown(store, schedule.ratio) {
        return None;
    }
    match renew(store, schedule.ratio) {
        Ok(()) => None,
        Err(SNAPSHOT_TOO_LARGE) => None,
        Err(number) => Some(number),
    }
}

/// Takes a snapshot, or gives the number of its refusal. If zeros are written ahead, they end where the new half has grown so many times.
pub(crate) fn renew<D: Disk, R: MacroFunctions>(
    store: &mut Store<D, R>,
    ratio: u64,
) -> Result<(), u16>
    requires is_open { IsSome store.old.world }
    ensures renews { (w : WorldState) → store.old.world ≡ Some w
        → RenewsOrIsRefused R.Meaning.functions D.state store.old store.new w result }
    ensures honest { (D.state store.new.disk).honest ≡ (D.state store.old.disk).honest }
{
    match store.snapshot() {
        Outcome::Refused(number) => Err(number),
        Outcome::Accepted(_) | Outcome::Snapshotted => {
            let end = grown_at(store, ratio);
            store.end_zeros_at(end);
            Ok(())
        }
    }
}
