//! What to do where a store is kept with one sync, and the words do not ask for it.
use crate::heads::head_in_use;
use command_words::{CommandWay, Syncs, asked_in, messages_in, syncs_asked};
use lisp_object::refusal::VERSION;
use std::io::Write;
use store_commands::{Status, Task};

/// The sentence on a command that may append to the store.
const OPEN_IT: &str = "the store is kept with one sync: open it with --one-sync";

/// That on one which only tells of it.
const LOOK: &str = "the store is kept with one sync: look into it with --existing";

/// Tells what to do where the store was refused as it is kept with one sync.
pub(crate) fn tell_way<F: Write>(
    rt: &HostRuntime,
    faults: &mut F,
    way: CommandWay,
    words: &[String],
    status: Status,
) {
    if status != Status::Fault(VERSION) || syncs_asked(words) == Syncs::One {
        return;
    }
    let told = match way {
        CommandWay::Serve => way_of_task(rt, words),
        CommandWay::Messages => way_of_messages(rt, words),
        _ => None,
    };
    if let Some(told) = told {
        let _ = writeln!(faults, "{told}");
    }
}

// What is told of a command over the files of a folder, if they are kept so.
fn way_of_task(rt: &HostRuntime, words: &[String]) -> Option<&'static str> {
    let asked = asked_in(rt.alloc(), words).ok()?;
    if !head_in_use(rt, asked.folder)?.is_one_sync() {
        return None;
    }
    match asked.task {
        Task::Export(_) | Task::Tell(_) => Some(LOOK),
        _ => Some(OPEN_IT),
    }
}

// The same of a session of messages.
fn way_of_messages(rt: &HostRuntime, words: &[String]) -> Option<&'static str> {
    let messages = messages_in(rt.alloc(), words).ok()?;
    if head_in_use(rt, messages.folder)?.is_one_sync() {
        Some(OPEN_IT)
    } else {
        None
    }
}
