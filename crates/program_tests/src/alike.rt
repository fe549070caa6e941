//! Logs whose files hold the same bytes, and a look at files that nobody writes.
ghost use Rattle.std.specs.Prelude.{◌≡◌, Option, IfSome, IsTrue, Some};
ghost use Rattle.disk_trait.specs.Disk.{Image, file_of};
ghost use Rattle.gate_log.specs.HalfInUse.{Shows, half_of};
ghost use Rattle.gate_log.specs.Layout.{Contents};
ghost use Rattle.gate_log.specs.Log.{FilesMean};
ghost use Rattle.gate_log.specs.Opening.{Warrants};
ghost use Rattle.gate_log.specs.declared.error.OpenRefusal.{OpenRefusal};
ghost use Rattle.log_look.specs.Live.{IsHonestWatch};
ghost use Rattle.log_look.specs.FilesAtRest.{AreAtRest};
ghost use Rattle.log_look.specs.SeenState.{state_of_sight};

use crate::logs::{opened, taken};
use crate::troubled_disks::HALF;
use disk_trait::{Disk, Half, MemoryDisk};
use gate_log::{Halves, one_contents, one_meaning, shown_is_meant};
use log_look::{LiveFiles, Moment, MomentFiles, Sight, a_sight_means_the_same, look, open_sight};
use std::alloc::Global;
use std::test::Fail;

fn is_same(one: Half, other: Half) -> bool
    ensures { IsTrue result → one ≡ other }
{
    one == other
}

/// Whether two logs have the same half in use.
///
/// - `meant`: of disks that read the same they hold the same contents, whatever is in use.
/// - `held`: where only the files of that half are the same, too.
fn have_same_half<D: Disk, E: Disk>(one: &Halves<D>, other: &Halves<E>) -> bool
    ensures meant { (k j : Option Contents) (image : Image)
        → Shows one.now.used k image → Shows other.now.used j image → k ≡ j }
    ensures held { IsTrue result → (k j : Contents) (image others : Image)
        → Shows one.now.used (Some k) image → Shows other.now.used (Some j) others
        → file_of (half_of one.now.used) image ≡ file_of (half_of one.now.used) others → k ≡ j }
{
    shown_is_meant();
    one_meaning();
    one_contents();
    is_same(one.half(), other.half())
}

/// Looks at two files. If nobody writes them meanwhile, what was seen means what they mean, and would be refused for the same reasons.
fn seen_at_rest<F: LiveFiles>(alloc: Global, files: &mut F) -> Option<Sight>
    ensures means { (image : Image) → IsHonestWatch (F.watch files.old)
        → AreAtRest (F.watch files.old).files (F.watch files.old).now (F.watch files.new).now image
        → IfSome result (λ sight. (k : Option Contents)
        → (FilesMean k image → FilesMean k (state_of_sight sight).reads) × (FilesMean k (state_of_sight sight).reads → FilesMean k image)) }
    ensures refused { (image : Image) → IsHonestWatch (F.watch files.old)
        → AreAtRest (F.watch files.old).files (F.watch files.old).now (F.watch files.new).now image
        → IfSome result (λ sight. (e : OpenRefusal)
        → (Warrants e image → Warrants e (state_of_sight sight).reads) × (Warrants e (state_of_sight sight).reads → Warrants e image)) }
    ensures room { IfSome result (λ sight. (state_of_sight sight).failures ≡ 0) }
{
    a_sight_means_the_same();
    match look(alloc, files) {
        Ok(sight) => Some(sight),
        Err(_) => None,
    }
}

/// Whether logs on two disks, which took the same calls, have the same half in use.
fn are_alike(alloc: Global) -> Result<bool, Fail> {
    let one = opened(alloc, taken(alloc, MemoryDisk::new(alloc))?)?;
    let other = opened(alloc, taken(alloc, MemoryDisk::new(alloc))?)?;
    Ok(have_same_half(&one, &other))
}

#[test]
fn the_same_calls_leave_the_same_half(rt: HostRuntime) -> Result<(), Fail> {
    assert!(rt; are_alike(rt.alloc())?);
    Ok(())
}

/// How many records were seen in files whose half A is this at each moment.
fn seen_count(alloc: Global, half: &[u8]) -> Option<u64> {
    let Ok(a) = Vec::from_slice(alloc, half) else {
        return None;
    };
    let mut moments = Vec::new(alloc);
    let b = Vec::new(alloc);
    let Ok(()) = moments.push(Moment { a, b }) else {
        return None;
    };
    let mut files = MomentFiles::new(moments, 0, 1);
    let Some(sight) = seen_at_rest(alloc, &mut files) else {
        return None;
    };
    match open_sight(alloc, sight) {
        Ok(log) => Some(log.record_count()),
        Err(_) => None,
    }
}

#[test]
fn a_look_sees_what_is_there(rt: HostRuntime) -> Result<(), Fail> {
    assert!(rt; seen_count(rt.alloc(), HALF) == Some(1));
    Ok(())
}
