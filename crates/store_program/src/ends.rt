// What standard error tells at the end.
use lisp_object::refusal::OUTPUT;
use program_streams::{Counts, write_counts};
use std::io::{ErrorKind, Write};
use store_commands::Status;

/// Tells why the output took no more, if the program has ended for that.
pub(crate) fn tell_cause<F: Write>(faults: &mut F, status: Status, failure: Option<ErrorKind>) {
    let Some(kind) = failure else {
        return;
    };
    if status == Status::Fault(OUTPUT) {
        let _ = writeln!(faults, "standard output: {kind}");
    }
}

/// Tells how many answers there were, unless no session was asked for.
pub(crate) fn tell_counts<F: Write>(faults: &mut F, status: Status, counts: Counts) {
    match status {
        Status::Helped | Status::WordsRefused => {}
        _ => {
            let _ = write_counts(faults, counts);
        }
    }
}
