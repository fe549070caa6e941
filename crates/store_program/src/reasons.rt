//! What standard error tells of refused forms, and whether somebody asks for it.
use command_words::asks_for_quiet;
use std::env;
use std::io::Write;
use store_commands::{History, Places, Reasons, Status, write_unread};

/// The variable of the environment by which somebody asks for the lines on refused forms, and its value for a line on each of them.
const REASONS: &str = "PAZTURROK_REASONS";

const ALL: &str = "all";

/// Of which refused forms standard error has a line where standard input is no terminal: as the environment asks for, and of few of a quiet session.
pub(crate) fn reasons_for(rt: &HostRuntime, words: &[String]) -> Reasons {
    let asked = match env::var(rt, REASONS) {
        Ok(value) => reasons_by(value.as_str()),
        Err(_) => Reasons::None,
    };
    if asked == Reasons::None && asks_for_quiet(words) {
        Reasons::Few
    } else {
        asked
    }
}

// What a value of the variable asks for.
fn reasons_by(value: &str) -> Reasons {
    if value == ALL {
        Reasons::All
    } else if value.is_empty() {
        Reasons::None
    } else {
        Reasons::Few
    }
}

/// Tells what could not be read, where that ended the session.
pub(crate) fn tell_unread<I: Places, F: Write>(
    rt: &HostRuntime,
    faults: &mut F,
    input: &I,
    history: &History,
    status: Status,
) {
    match (status, history.refused()) {
        (Status::FormRefused, Some((number, place))) => {
            let spot = input.spot_at(place.start);
            let _ = write_unread(rt.alloc(), faults, input, number, place, spot);
        }
        _ => {}
    }
}
