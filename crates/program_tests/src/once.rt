//! Messages that are answered in one call, and what a crash leaves of them.
ghost use Rattle.std.specs.Prelude.{◌≡◌, ◌⊎◌, ◌<◌, ◌-◌, ◌^◌, IfSome, Some, pos};
ghost use Rattle.disk_trait.specs.Disk.{Image, IsHonest};
ghost use Rattle.lisp_object.specs.Object.{integer};
ghost use Rattle.plist_state.specs.State.{WorldState};
ghost use Rattle.prevalence_store.specs.meaning.Files.{MeansWorld};
ghost use Rattle.messages.specs.Position.{position_property};

use crate::again::AMPLE;
use disk_trait::{Disk, MemoryDisk};
use messages::{Replies, Request, answer_requests, begin_messages};
use prevalence_store::Store;
use std::alloc::{AllocError, Global};
use std::test::Fail;
use store_laws::each_once;
use user_macros::{MacroFunctions, Macros, NoFunctions};

/// Answers requests. `None` where they are refused.
///
/// - `any_moment`: what a crash leaves at any moment of this is the world before them, or its position is the number of the last message.
/// - `afterwards`: what a crash leaves once they are answered is the world that the store has.
fn answer_once<D: Disk, M: MacroFunctions>(
    store: &mut Store<D, M>,
    last: u64,
    requests: &[Request<'_>],
) -> Option<Replies>
    ensures any_moment { IfSome result (λ replies. (world now : WorldState) (image : Image)
        → store.old.world ≡ Some world → IsHonest (D.state store.old.disk)
        → (D.state store.new.disk).left_since (D.state store.old.disk).moment image
        → MeansWorld M.Meaning.functions image now
        → (now ≡ world) ⊎ (position_property now ≡ Some (integer (pos replies.last)))) }
    ensures afterwards { IfSome result (λ _. (world now : WorldState) (image : Image)
        → store.old.world ≡ Some world → IsHonest (D.state store.old.disk)
        → (D.state store.new.disk).may_leave image → MeansWorld M.Meaning.functions image now
        → store.new.world ≡ Some now) }
{
    store.keeps_its_world();
    let Ok(replies) = answer_requests(store, last, requests) else {
        return None;
    };
    each_once::<D, M>();
    Some(replies)
}

/// The answers to a message that is sent twice, the second time after the position was asked for. That ends early for want of memory
/// alone.
fn sent_twice<D: Disk + Drop, M: MacroFunctions + Drop>(
    alloc: Global,
    disk: D,
    macros: M,
    request: Request<'_>,
) -> Result<(Replies, Replies), AllocError>
    requires room { (D.state disk).failures < 2 ^ 64 - 1 }
    requires answers { M.answers macros }
{
    let Ok(mut store) = Store::open(alloc, disk, macros, AMPLE) else {
        return Err(AllocError);
    };
    let Ok(last) = begin_messages(&mut store) else {
        let _closed = store.close();
        return Err(AllocError);
    };
    let first = answer_once(&mut store, last, &[request]);
    let second = match messages::position(&store) {
        Ok(Some(position)) => answer_once(&mut store, position, &[request]),
        _ => None,
    };
    let _closed = store.close();
    match (first, second) {
        (Some(first), Some(second)) => Ok((first, second)),
        _ => Err(AllocError),
    }
}

/// The same over fresh files: the texts of both answers.
fn sent_twice_to_fresh(
    alloc: Global,
    request: Request<'_>,
) -> Result<(Vec<u8>, Vec<u8>), AllocError> {
    let disk = MemoryDisk::new(alloc);
    if disk.failures() > 0 {
        return Err(AllocError);
    }
    let (first, second) = sent_twice(alloc, disk, Macros::new(alloc, NoFunctions), request)?;
    Ok((first_text(alloc, &first)?, first_text(alloc, &second)?))
}

/// The text of the first answer, if there is one.
fn first_text(alloc: Global, replies: &Replies) -> Result<Vec<u8>, AllocError> {
    match replies.answers.as_slice() {
        [first, ..] => Vec::from_slice(alloc, first.text.as_slice()),
        [] => Ok(Vec::new(alloc)),
    }
}

#[test]
fn a_message_is_carried_out_once(rt: HostRuntime) -> Result<(), Fail> {
    let request = Request {
        number: Some(4),
        text: b"(SETF (GET 'A 'B) 7)",
    };
    let (first, second) = sent_twice_to_fresh(rt.alloc(), request)?;
    assert!(rt;
        first.as_slice() == b"7".as_slice() && second.as_slice() == b"! 50 OLD-NUMBER".as_slice()
    );
    Ok(())
}
