//! Requests that have no room.
ghost use Rattle.std.specs.Prelude.{◌≡◌, ◌<◌, ◌-◌, ◌^◌, Some, true};
ghost use Rattle.plist_state.specs.State.{WorldState};
ghost use Rattle.messages.specs.Refusals.{MessagesHaveNoRoom};

use crate::batches::long_form;
use disk_trait::{Disk, MemoryDisk};
use lisp_object::refusal::LOG_FULL;
use messages::{Request, answer_requests, begin_messages, refusals_have_causes};
use prevalence_store::Store;
use std::alloc::{AllocError, Global};
use std::test::Fail;
use user_macros::{MacroFunctions, Macros, NoFunctions};

// Whether a number is that of a half without room.
fn is_full(number: u16) -> bool
    ensures { result ≡ true → number ≡ LOG_FULL }
{
    number == LOG_FULL
}

/// Answers requests, and tells whether they were refused for want of room: then there is none for what they wrote, and the store is as it was.
fn has_no_room<D: Disk, M: MacroFunctions>(
    store: &mut Store<D, M>,
    last: u64,
    requests: &[Request<'_>],
) -> bool
    ensures { (world : WorldState) → store.old.world ≡ Some world → result ≡ true → (store.new ≡ store.old)
        × MessagesHaveNoRoom M.Meaning.functions D.state store.old store.new world last requests.now }
{
    refusals_have_causes::<D, M>();
    match answer_requests(store, last, requests) {
        Ok(_replies) => false,
        Err(number) => is_full(number),
    }
}

/// Whether a store in small halves has no room for a message with a long text.
fn is_short_of_room<D: Disk + Drop, M: MacroFunctions + Drop>(
    alloc: Global,
    disk: D,
    macros: M,
) -> Result<bool, AllocError>
    requires room { (D.state disk).failures < 2 ^ 64 - 1 }
    requires answers { M.answers macros }
{
    let text = long_form(alloc, 4_096)?;
    let Ok(mut store) = Store::open(alloc, disk, macros, 4_096) else {
        return Err(AllocError);
    };
    let begun = begin_messages(&mut store);
    let long = Request {
        number: Some(1),
        text: text.as_slice(),
    };
    let is_short = has_no_room(&mut store, 0, &[long]);
    let _closed = store.close();
    Ok(begun.is_ok() && is_short)
}

#[test]
fn a_long_message_has_no_room(rt: HostRuntime) -> Result<(), Fail> {
    let alloc = rt.alloc();
    let disk = MemoryDisk::new(alloc);
    assert!(rt; disk.failures() == 0);
    assert!(rt; is_short_of_room(alloc, disk, Macros::new(alloc, NoFunctions))?);
    Ok(())
}
