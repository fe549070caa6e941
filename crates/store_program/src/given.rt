//! What the process is started with: the words, and its stack.
use lisp_object::refusal::NO_MEMORY;
use std::env;
use std::io::ErrorKind;
use store_commands::Status;

/// How many bytes of the stack are taken at the start. The deepest form takes fewer.
const STACK: usize = 524_288;

/// The words that the program was started with, or the status where they are not had: they are no text, or there is no memory.
pub(crate) fn words_given(rt: &HostRuntime) -> Result<Vec<String>, Status> {
    match env::args(rt) {
        Ok(words) => words
            .collect(rt.alloc())
            .map_err(|_| Status::Fault(NO_MEMORY)),
        Err(error) if error.kind() == ErrorKind::InvalidData => Err(Status::WordsRefused),
        Err(_) => Err(Status::Fault(NO_MEMORY)),
    }
}

/// Writes to so much of the stack, which the process has from then on, and answers one of the bytes. Where memory has a limit, a growth of the
/// stack that finds none ends the process by a signal, and one of the heap is a refusal.
#[inline(never)]
pub(crate) fn take_stack(place: usize) -> u8 {
    let mut room = [0u8; STACK];
    room[place % STACK] = 1;
    room[place / 2 % STACK]
}
