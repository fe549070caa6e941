//! The commands of the program, as a library: over a store whose files are in a folder they serve forms, write the text of the
//! world, or tell the half in use.
//!
//! - `program` does what the words of the command line ask for, and answers a `Status` (module `status`), with what is told on standard
//!   error as it ends (`told`); `program_at_terminal` the same at a terminal,
//!   where `run` is sessions in a row (modules `commands` and `on_disk`).
//! - `serve_on` serves forms over any disk, `snapshot_on` takes a snapshot, `upgrade_on` takes one where the next half has another version, `export_on`
//!   writes the forms that make the world, and `report_on` writes what is told of a store (modules `session`, `snapshot`, `upgrade`,
//!   `export` and `report`). What the store is opened with is handed to them as an `Opening` (module `opening`).
//! - What goes out of a session goes through a ledger (session_ledger), so it is known that it is stored by then:
//!   `what_a_session_wrote_is_there` (module `laws`).
//! - `sessions_on` serves sessions in a row (module `in_a_row`), and `terminal` has the input that asks for them, with its prompts.
//! - `output` has the output of the program, which tells of forms that were refused: the place of each and the part for which it was, on a stream
//!   of its own.
//! - `recipient` has who gets the lines of sessions in a row, and may keep account of each; `sessions_go_on` (module `laws`): what follows
//!   at each moment of them. `what_a_session_wrote_is_there` says it of sessions at a terminal too, whatever the output.
//! - `answers` has an output that tells what was answered, and an input that knows whether anything was; `given` tells comments from
//!   text there.
//! - `command_words` has the command line; `diagnostics` writes the line of a fault, and that on the refusal that ended a session, and
//!   has the input that tells lines and columns; `half_line` writes that on the half in use.
//! - `folders` has what opens the files of a folder, and the disk that they are; `looking` opens what they hold at one moment in their
//!   place, for reports on a store that may be served meanwhile. `existing_stores_are_open` (module `laws`): with
//!   `--existing` one of both files of an honest disk is a half in use.
//!
//! # For proofs above
//!
//! - proofs/Reports.antt: from what is written of an open store to what the commands promise.
//! - proofs/FolderLaws.antt: from how the files of a folder were opened to what a command tells of it.
//! - proofs/Accounts.antt: a store that is to write zeros ahead is the one that was opened (`opened_still`).
//! - proofs/Statuses.antt: which statuses come after which words.
#![tactic(auto)]

mod answers;
mod commands;
mod export;
mod folders;
mod given;
mod half_line;
mod in_a_row;
mod laws;
mod looking;
mod on_disk;
mod opening;
mod output;
mod recipient;
mod report;
mod session;
mod snapshot;
mod status;
mod terminal;
mod told;
mod upgrade;

pub use answers::{Answers, Heard, Piped};
pub use command_words::{Report, Task};
pub use commands::{answer_words, program, program_at_terminal};
pub use diagnostics::{
    History, Lines, Places, Reasons, Refusal, RefusalTeller, Spot, Spots, Unwritten, write_fault,
    write_fault_with_cause, write_refusal, write_unread,
};
pub use export::export_on;
pub use folders::{Folders, TellsCause, holds_store, open_folder};
pub use half_line::write_half_line;
pub use in_a_row::sessions_on;
pub use laws::{existing_stores_are_open, sessions_go_on, what_a_session_wrote_is_there};
pub use looking::Looking;
pub use opening::{HALF_LIMIT, Opening};
pub use output::SessionOutput;
pub use recipient::SessionRecipient;
pub use report::{report_on, status_of_output};
pub use session::serve_on;
pub use snapshot::snapshot_on;
pub use status::Status;
pub use terminal::{Sessions, Terminal};
pub use told::{Remark, end_with, end_with_told};
pub use upgrade::upgrade_on;
