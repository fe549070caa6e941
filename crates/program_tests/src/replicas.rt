//! Two stores that are handed the same input: one in sessions without groups, the other in sessions with groups, or the other way round.
ghost use Rattle.std.specs.Prelude.{◌≡◌, ◌<◌, ◌-◌, ◌^◌, ℕ, IfSome, IsTrue, Some};
ghost use Rattle.plist_state.specs.State.{WorldState};
ghost use Rattle.sessions.specs.declared.ending.Place.{Place};
ghost use Rattle.store_laws.specs.Outcomes.{IsByInput};

use crate::troubled_disks::{AMPLE, Trouble};
use disk_trait::{Disk, MemoryDisk};
use prevalence_store::{Mode, Store};
use sessions::{Ended, SessionOptions, serve_wanted};
use std::alloc::Global;
use std::test::Fail;
use store_laws::{groups_change_nothing, one_outcome};
use user_macros::{MacroFunctions, Macros, NoFunctions};

/// Whether a session came to the end of its input.
fn is_complete(ended: Ended) -> bool
    ensures { IsTrue result → IsByInput ended }
{
    matches!(ended, Ended::End | Ended::Unreadable(_, _))
}

/// The answers of two stores to an input: of one in a session without groups and snapshots, of the other in one with groups, and a
/// snapshot after each form that it logs. `None` where one of the sessions is cut short. Where both stores have the same world, the
/// answers are the same, and so are the worlds after them.
fn answered_twice<D: Disk, E: Disk, M: MacroFunctions>(
    alloc: Global,
    one: &mut Store<D, M>,
    other: &mut Store<E, M>,
    input: &[u8],
) -> Option<(Vec<u8>, Vec<u8>)>
    ensures bytes { IfSome result (λ both. (w : WorldState) → one.old.world ≡ Some w
        → other.old.world ≡ Some w → both.1.items ≡ both.0.items) }
    ensures worlds { IfSome result (λ both. (w : WorldState) → one.old.world ≡ Some w
        → other.old.world ≡ Some w → other.new.world ≡ one.new.world) }
{
    let plain = SessionOptions {
        mode: Mode::Current,
        snapshot_every: 0,
        snapshot_ratio: 0,
        strict: false,
        group: false,
    };
    let grouped = SessionOptions {
        mode: Mode::Current,
        snapshot_every: 1,
        snapshot_ratio: 0,
        strict: false,
        group: true,
    };
    let mut reader = input;
    let mut answers = Vec::new(alloc);
    let ended = serve_wanted(one, &mut reader, &mut answers, plain);
    let mut others_reader = input;
    let mut others_answers = Vec::new(alloc);
    let others_ended = serve_wanted(other, &mut others_reader, &mut others_answers, grouped);
    if !is_complete(ended) || !is_complete(others_ended) {
        return None;
    }
    one_outcome::<D, E, M, M>();
    Some((answers, others_answers))
}

/// Whether a strict session ended at a form that is refused.
fn is_stopped(ended: Ended) -> bool
    ensures { IsTrue result
        → (number : ℕ) × (place : Place) × (ended ≡ Ended.Unaccepted number place) }
{
    matches!(ended, Ended::Unaccepted(_, _))
}

/// The answers of two stores to an input in strict sessions that end at a form which is refused, of one with groups, of the other
/// without. `None` where one of the sessions ends otherwise. Where both stores have the same world, the answers are the same, and so
/// are the worlds after them.
fn stopped_twice<D: Disk, E: Disk, M: MacroFunctions>(
    alloc: Global,
    one: &mut Store<D, M>,
    other: &mut Store<E, M>,
    input: &[u8],
) -> Option<(Vec<u8>, Vec<u8>)>
    ensures bytes { IfSome result (λ both. (w : WorldState) → one.old.world ≡ Some w
        → other.old.world ≡ Some w → both.1.items ≡ both.0.items) }
    ensures worlds { IfSome result (λ both. (w : WorldState) → one.old.world ≡ Some w
        → other.old.world ≡ Some w → other.new.world ≡ one.new.world) }
{
    let grouped = SessionOptions {
        mode: Mode::Current,
        snapshot_every: 0,
        snapshot_ratio: 0,
        strict: true,
        group: true,
    };
    let plain = SessionOptions {
        mode: Mode::Current,
        snapshot_every: 0,
        snapshot_ratio: 0,
        strict: true,
        group: false,
    };
    let mut reader = input;
    let mut answers = Vec::new(alloc);
    let ended = serve_wanted(one, &mut reader, &mut answers, grouped);
    let mut others_reader = input;
    let mut others_answers = Vec::new(alloc);
    let others_ended = serve_wanted(other, &mut others_reader, &mut others_answers, plain);
    if !is_stopped(ended) || !is_stopped(others_ended) {
        return None;
    }
    groups_change_nothing::<D, E, M, M>();
    Some((answers, others_answers))
}

/// What two stores answered.
type Answered = (Vec<u8>, Vec<u8>);

/// The answers of two stores to an input, over disks that are opened for it, and then in strict sessions to another one, which ends at
/// a form that is refused. `None` also where one of them is not opened.
fn served_twice<D: Disk + Drop, M: MacroFunctions + Drop>(
    alloc: Global,
    disks: (D, D),
    macros: (M, M),
    input: &[u8],
    stopping: &[u8],
) -> Option<(Answered, Answered)>
    requires room { (D.state disks.0).failures < 2 ^ 64 - 1 }
    requires others_room { (D.state disks.1).failures < 2 ^ 64 - 1 }
    requires answers { M.answers macros.0 }
    requires others_answers { M.answers macros.1 }
{
    let (disk, others_disk) = disks;
    let (macros, others_macros) = macros;
    let Ok(mut one) = Store::open(alloc, disk, macros, AMPLE) else {
        return None;
    };
    let Ok(mut other) = Store::open(alloc, others_disk, others_macros, AMPLE) else {
        let _closed = one.close();
        return None;
    };
    let answers = answered_twice(alloc, &mut one, &mut other, input);
    let stopped = stopped_twice(alloc, &mut one, &mut other, stopping);
    let _closed = one.close();
    let _others_closed = other.close();
    Some((answers?, stopped?))
}

/// The same over fresh files.
fn answers_of_two(
    alloc: Global,
    input: &[u8],
    stopping: &[u8],
) -> Result<(Answered, Answered), Trouble> {
    let disks = (MemoryDisk::new(alloc), MemoryDisk::new(alloc));
    if disks.0.failures() > 0 || disks.1.failures() > 0 {
        return Err(Trouble::Device);
    }
    let macros = (
        Macros::new(alloc, NoFunctions),
        Macros::new(alloc, NoFunctions),
    );
    match served_twice(alloc, disks, macros, input, stopping) {
        Some(answers) => Ok(answers),
        None => Err(Trouble::Memory),
    }
}

const INPUT: &[u8] = b"(SETF (GET 'A 'B) 7) (GET 'A 'B)\n(CAR 'A) (SETF (GET 'A 'B) 8))";

const ANSWERS: &[u8] = b"7\n7\n! 31 UNKNOWN-OPERATOR\n8\n! 4 STRAY-CLOSE\n";

const STOPPING: &[u8] = b"(SETF (GET 'A 'B) 9) (GET 'A 'B)\n(CAR 'A) (SETF (GET 'A 'B) 8)";

const STOPPED: &[u8] = b"9\n9\n! 31 UNKNOWN-OPERATOR\n";

#[test]
fn replicas_agree(rt: HostRuntime) -> Result<(), Fail> {
    let (served, stopped) = answers_of_two(rt.alloc(), INPUT, STOPPING)?;
    assert!(rt; served.0.as_slice() == ANSWERS && served.1.as_slice() == ANSWERS);
    assert!(rt; stopped.0.as_slice() == STOPPED && stopped.1.as_slice() == STOPPED);
    Ok(())
}
