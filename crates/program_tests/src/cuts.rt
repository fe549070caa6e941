//! The same requests in one call and in two.
ghost use Rattle.std.specs.Prelude.{◌≡◌, ◌<◌, ◌-◌, ◌^◌, ◌++◌, IfSome, Some, map};
ghost use Rattle.plist_state.specs.State.{WorldState};
ghost use Rattle.messages.specs.Rounds.{told_in};

use crate::again::AMPLE;
use disk_trait::{Disk, MemoryDisk};
use message_laws::cuts_change_nothing;
use messages::{Replies, Request, answer_requests};
use prevalence_store::Store;
use std::alloc::{AllocError, Global};
use std::test::Fail;
use user_macros::{MacroFunctions, Macros, NoFunctions};

/// What was answered in one call, and what in two.
type Answered = (Replies, (Replies, Replies));

/// Answers requests in one store with one call, and in another one with two. `None` where a call is refused. Where both stores had the
/// same world, and the one call has the requests of the two, each request has the same answer.
fn answered_in_two<D: Disk, E: Disk, M: MacroFunctions>(
    one: &mut Store<D, M>,
    other: &mut Store<E, M>,
    last: u64,
    whole: &[Request<'_>],
    first: &[Request<'_>],
    rest: &[Request<'_>],
) -> Option<Answered>
    ensures { IfSome result (λ replies. (world : WorldState)
        → one.old.world ≡ Some world → other.old.world ≡ Some world
        → whole.now ≡ first.now ++ rest.now
        → map told_in replies.0.answers.items
        ≡ map told_in replies.1.0.answers.items ++ map told_in replies.1.1.answers.items) }
{
    cuts_change_nothing();
    let Some(world) = one.world() else {
        return None;
    };
    world.soundness();
    let Ok(at_once) = answer_requests(one, last, whole) else {
        return None;
    };
    let Ok(firsts) = answer_requests(other, last, first) else {
        return None;
    };
    let Ok(rests) = answer_requests(other, firsts.last, rest) else {
        return None;
    };
    Some((at_once, (firsts, rests)))
}

/// The same over disks that are opened for it, cut after the second request.
fn answered_over<D: Disk + Drop, M: MacroFunctions + Drop>(
    alloc: Global,
    disks: (D, D),
    macros: (M, M),
    requests: [Request<'_>; 3],
) -> Option<Answered>
    requires room { (D.state disks.0).failures < 2 ^ 64 - 1 }
    requires others_room { (D.state disks.1).failures < 2 ^ 64 - 1 }
    requires answers { M.answers macros.0 }
    requires others_answers { M.answers macros.1 }
{
    let (disk, others_disk) = disks;
    let (macros, others_macros) = macros;
    let Ok(mut one) = Store::open(alloc, disk, macros, AMPLE) else {
        return None;
    };
    let Ok(mut other) = Store::open(alloc, others_disk, others_macros, AMPLE) else {
        let _closed = one.close();
        return None;
    };
    let replies = answered_in_two(
        &mut one,
        &mut other,
        0,
        &requests,
        &requests[..2],
        &requests[2..],
    );
    let _closed = one.close();
    let _others_closed = other.close();
    replies
}

/// A message with this number.
fn message<'a>(number: u64, text: &'a [u8]) -> Request<'a> {
    Request {
        number: Some(number),
        text,
    }
}

/// How many answers there are in one call and in both of two, of messages to fresh stores. That ends early for want of memory alone.
fn counts_of_fresh(alloc: Global) -> Result<(usize, usize), AllocError> {
    let disks = (MemoryDisk::new(alloc), MemoryDisk::new(alloc));
    if disks.0.failures() > 0 || disks.1.failures() > 0 {
        return Err(AllocError);
    }
    let macros = (
        Macros::new(alloc, NoFunctions),
        Macros::new(alloc, NoFunctions),
    );
    let requests = [
        message(1, b"(SETF (GET 'A 'B) 7)"),
        message(2, b"(GET '|position| '|position|)"),
        message(2, b"(SETF (GET 'A 'B) 8)"),
    ];
    match answered_over(alloc, disks, macros, requests) {
        Some((whole, (first, rest))) => Ok((
            whole.answers.len(),
            first.answers.len().saturating_add(rest.answers.len()),
        )),
        None => Err(AllocError),
    }
}

#[test]
fn requests_are_answered_in_any_batches(rt: HostRuntime) -> Result<(), Fail> {
    assert!(rt; counts_of_fresh(rt.alloc())? == (3, 3));
    Ok(())
}
