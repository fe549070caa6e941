//! Two rounds of messages, with a snapshot between them.
ghost use Rattle.std.specs.Prelude.{◌≡◌, ◌<◌, ◌-◌, ◌^◌, [], ◌∷◌, IfSome, Some};
ghost use Rattle.disk_trait.specs.Disk.{IsHonest};
ghost use Rattle.plist_state.specs.State.{WorldState};
ghost use Rattle.prevalence_store.specs.Theorem.{Keeps};
ghost use Rattle.store_laws.specs.Rounds.{HasComeToPlace, after_rounds, place_at};

use crate::again::AMPLE;
use disk_trait::{Disk, MemoryDisk};
use messages::{Replies, Request, answer_requests, begin_messages};
use prevalence_store::{Outcome, Store};
use std::alloc::{AllocError, Global};
use std::test::Fail;
use store_laws::rounds;
use user_macros::{MacroFunctions, Macros, NoFunctions};

/// Answers requests, takes a snapshot, and answers others. `None` where one of these calls is refused.
///
/// Then whatever a crash leaves means the world after both rounds, and its position tells up to which message.
fn answer_twice<D: Disk, M: MacroFunctions>(
    store: &mut Store<D, M>,
    last: u64,
    first: &[Request<'_>],
    second: &[Request<'_>],
) -> Option<Replies>
    ensures { IfSome result (λ _. (w : WorldState) → store.old.world ≡ Some w
        → IsHonest (D.state store.old.disk) → Keeps M.Meaning.functions (D.state store.old.disk) w
        → HasComeToPlace M.Meaning.functions D.state store.new (after_rounds M.Meaning.functions (place_at last w) (first.now ∷ second.now ∷ []))) }
{
    let Ok(replies) = answer_requests(store, last, first) else {
        return None;
    };
    let Outcome::Snapshotted = store.snapshot() else {
        return None;
    };
    let Ok(last_replies) = answer_requests(store, replies.last, second) else {
        return None;
    };
    rounds::<D, M>();
    Some(last_replies)
}

/// A message with this number.
fn message<'a>(number: u64, text: &'a [u8]) -> Request<'a> {
    Request {
        number: Some(number),
        text,
    }
}

/// The number of the last message that is answered, and the position, after two rounds of which the last messages write nothing. That
/// ends early for want of memory alone.
fn told_after<D: Disk + Drop, M: MacroFunctions + Drop>(
    alloc: Global,
    disk: D,
    macros: M,
) -> Result<(u64, Option<u64>), AllocError>
    requires room { (D.state disk).failures < 2 ^ 64 - 1 }
    requires answers { M.answers macros }
{
    let Ok(mut store) = Store::open(alloc, disk, macros, AMPLE) else {
        return Err(AllocError);
    };
    let first = [
        message(4, b"(SETF (GET 'A 'B) 7)"),
        message(6, b"(GET 'A 'B)"),
    ];
    let second = [
        message(6, b"(SETF (GET 'A 'B) 8)"),
        message(9, b"(GET 'A 'B)"),
    ];
    let replies = match begin_messages(&mut store) {
        Ok(last) => answer_twice(&mut store, last, &first, &second),
        Err(_) => None,
    };
    let position = messages::position(&store);
    let _closed = store.close();
    match replies {
        Some(replies) => Ok((replies.last, position?)),
        None => Err(AllocError),
    }
}

/// The same over fresh files.
fn told_of_fresh(alloc: Global) -> Result<(u64, Option<u64>), AllocError> {
    let disk = MemoryDisk::new(alloc);
    if disk.failures() > 0 {
        return Err(AllocError);
    }
    told_after(alloc, disk, Macros::new(alloc, NoFunctions))
}

#[test]
fn the_position_is_that_of_the_last_round_that_wrote(rt: HostRuntime) -> Result<(), Fail> {
    assert!(rt; told_of_fresh(rt.alloc())? == (9, Some(6)));
    Ok(())
}
