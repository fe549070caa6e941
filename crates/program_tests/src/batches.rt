//! Requests that are answered in batches, each of which ends with the bytes of its answers.
ghost use Rattle.std.specs.Prelude.{◌<◌, ◌-◌, ◌^◌};

use crate::again::AMPLE;
use disk_trait::{Disk, MemoryDisk};
use messages::{Request, answer_first_requests, begin_messages};
use prevalence_store::Store;
use std::alloc::{AllocError, Global};
use std::test::Fail;
use user_macros::{MacroFunctions, Macros, NoFunctions};

/// Answers all of these requests. Gives how many batches there were, and the number of the last message; `None` where a call is refused.
fn answer_in_batches<D: Disk, M: MacroFunctions>(
    store: &mut Store<D, M>,
    last: u64,
    requests: &[Request<'_>],
) -> Option<(u64, u64)> {
    let mut last = last;
    let mut batches = 0u64;
    let mut left = requests;
    'batches: while !left.is_empty() {
        let Ok(replies) = answer_first_requests(store, last, left) else {
            return None;
        };
        left = &left[replies.answers.as_slice().len()..];
        last = replies.last;
        batches = batches.saturating_add(1);
    }
    Some((batches, last))
}

/// A form that makes a property a text of so many characters.
pub(crate) fn long_form(alloc: Global, length: usize) -> Result<Vec<u8>, AllocError> {
    let mut text = Vec::from_slice(alloc, b"(SETF (GET 'A 'B) \"")?;
    for _ in 0..length {
        text.push(b'x')?;
    }
    text.extend_from_slice(b"\")")?;
    Ok(text)
}

/// Batches of a message with a long answer, and of as many long questions, in a store over this disk.
fn batches_of_long<D: Disk + Drop, M: MacroFunctions + Drop>(
    alloc: Global,
    disk: D,
    macros: M,
) -> Result<(u64, u64), AllocError>
    requires room { (D.state disk).failures < 2 ^ 64 - 1 }
    requires answers { M.answers macros }
{
    let text = long_form(alloc, 40_000)?;
    let Ok(mut store) = Store::open(alloc, disk, macros, AMPLE) else {
        return Err(AllocError);
    };
    let question = Request {
        number: None,
        text: b"(GET 'A 'B)",
    };
    let message = Request {
        number: Some(3),
        text: text.as_slice(),
    };
    let requests = [message, question, question, question, question];
    let batches = match begin_messages(&mut store) {
        Ok(last) => answer_in_batches(&mut store, last, &requests),
        Err(_) => None,
    };
    let _closed = store.close();
    match batches {
        Some(batches) => Ok(batches),
        None => Err(AllocError),
    }
}

/// The same over fresh files.
fn batches_of_fresh(alloc: Global) -> Result<(u64, u64), AllocError> {
    let disk = MemoryDisk::new(alloc);
    if disk.failures() > 0 {
        return Err(AllocError);
    }
    batches_of_long(alloc, disk, Macros::new(alloc, NoFunctions))
}

// two answers of 40,002 bytes end a batch, so that five make three
#[test]
fn a_batch_ends_with_the_bytes_of_its_answers(rt: HostRuntime) -> Result<(), Fail> {
    assert!(rt; batches_of_fresh(rt.alloc())? == (3, 3));
    Ok(())
}
