//! A message with a name that is sent again.
ghost use Rattle.std.specs.Prelude.{◌≡◌, ◌∷◌, ◌<◌, ◌-◌, ◌^◌, [], false, true, ℕ, List, IfSome, Some, map};
ghost use Rattle.client_table.specs.Entries.{KeptMessage, entry, is_of};
ghost use Rattle.client_table.specs.Named.{told_again};
ghost use Rattle.client_table.specs.Names.{client_name_in, form_in, is_client_name};
ghost use Rattle.messages.specs.MessageAnswers.{first_round, without_its_position};
ghost use Rattle.messages.specs.Rounds.{told_in};
ghost use Rattle.plist_state.specs.State.{WorldState};

use crate::AMPLE;
use client_table::{AnyRequest, Named, answer_first_asked, messages_have_one_answer};
use disk_trait::{Disk, MemoryDisk};
use messages::{Replies, begin_messages};
use prevalence_store::Store;
use std::alloc::{AllocError, Global};
use std::test::Fail;
use user_macros::{MacroFunctions, Macros, NoFunctions};

/// Answers a message with a name, in a table of at most four clients. `None` where the call is refused. If the message is the last one of
/// its client, it has the answer that is kept.
fn tell_again<D: Disk, M: MacroFunctions>(
    store: &mut Store<D, M>,
    last: u64,
    named: &Named<'_>,
) -> Option<Replies>
    ensures { IfSome result (λ replies. (world : WorldState) (form : List ℕ) (kept : KeptMessage)
        → store.old.world ≡ Some world
        → is_client_name (client_name_in named.now.text.now) ≡ true → form_in named.now.text.now ≡ Some form
        → entry (without_its_position (first_round last world)).left (client_name_in named.now.text.now)
        ≡ Some (named.now.number, kept) → is_of kept form ≡ true
        → map told_in replies.answers.items ≡ (told_again kept, false) ∷ []) }
{
    messages_have_one_answer();
    let asked = [AnyRequest::Named(*named)];
    match answer_first_asked(store, last, 4, &asked) {
        Ok(replies) => Some(replies),
        Err(_) => None,
    }
}

/// The answers to a message that is sent twice.
fn told_twice<D: Disk + Drop, M: MacroFunctions + Drop>(
    alloc: Global,
    disk: D,
    macros: M,
    named: &Named<'_>,
) -> Result<(Replies, Replies), AllocError>
    requires room { (D.state disk).failures < 2 ^ 64 - 1 }
    requires answers { M.answers macros }
{
    let Ok(mut store) = Store::open(alloc, disk, macros, AMPLE) else {
        return Err(AllocError);
    };
    let begun = begin_messages(&mut store);
    let first = tell_again(&mut store, 0, named);
    let second = tell_again(&mut store, 0, named);
    let _closed = store.close();
    match (begun, first, second) {
        (Ok(_), Some(first), Some(second)) => Ok((first, second)),
        _ => Err(AllocError),
    }
}

/// The same over fresh files: the texts of both answers.
fn told_twice_by_fresh(alloc: Global, named: &Named<'_>) -> Result<(Vec<u8>, Vec<u8>), AllocError> {
    let disk = MemoryDisk::new(alloc);
    if disk.failures() > 0 {
        return Err(AllocError);
    }
    let macros = Macros::new(alloc, NoFunctions);
    let (first, second) = told_twice(alloc, disk, macros, named)?;
    Ok((text_of(alloc, &first)?, text_of(alloc, &second)?))
}

/// The text of the first answer.
fn text_of(alloc: Global, replies: &Replies) -> Result<Vec<u8>, AllocError> {
    match replies.answers.as_slice().first() {
        Some(answer) => Vec::from_slice(alloc, answer.text.as_slice()),
        None => Err(AllocError),
    }
}

#[test]
fn a_message_with_a_name_is_answered_again(rt: HostRuntime) -> Result<(), Fail> {
    let named = Named {
        number: 1,
        text: b"apple (PUSH 1 (GET 'A 'B))",
    };
    let (first, second) = told_twice_by_fresh(rt.alloc(), &named)?;
    assert!(rt; first.as_slice() == b"(1)".as_slice());
    assert!(rt; second.as_slice() == b"(1)".as_slice());
    Ok(())
}
