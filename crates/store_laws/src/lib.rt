//! The laws of the store over whole histories and whole inputs, above the clauses of its calls. Each is the contract of a function
//! that does nothing: who calls it has the law in his own proof.
//!
//! The modules are `history`, `outcome`, `batch`, `session`, of messages `once` and `round`, and `version_1`.
//!
//! - `histories`: whatever happened to a store in any order (openings, calls, stops within them, refused openings, losses of power),
//!   what a crash leaves is the world after some of the forms that were accepted, from the first on, and after all that were
//!   acknowledged (`specs/Histories.antt`)
//! - `one_outcome`: sessions over the same input, from the same world on, that come to the end of it write the same bytes and leave
//!   the same world, whatever the disk, the pace of snapshots, groups or not; what a session wrote that was cut short is the front
//!   of that (`specs/Outcomes.antt`)
//! - `groups_change_nothing`: so a session with groups gives what one without them gives, also a strict one that ends at a refused form
//! - `batches`: of calls that log their forms together a crash leaves all forms of some of them, from the first on, and of none a part
//!   (`specs/Batches.antt`)
//! - `sessions`: what a session does between two times that it hands lines on is a call which has acknowledged their forms; so at each
//!   moment of it, up to its end, all forms are there whose lines were handed on, and of no group a part (`specs/SessionLines.antt`)
//! - `each_once`: what a crash leaves of a store in which messages were answered has all of them or none, and the position that tells
//!   so (`specs/Messages.antt`)
//! - `rounds`: so of rounds in a row, at each moment: the messages up to the position are in, and no answered message over it wrote
//!   (`specs/Rounds.antt`)
//! - `version_1_opens`: a store that is opened on files of version 1 has the world that they meant to version 1
//!
//! Lemmas in `proofs`, of which crates above cite `Outcomes`: `CutShort`, `Events`, `Handings`, `InputForms`, `MessagesDone`, `NoneOver`,
//! `Outcomes`, `RoundsDone`, `WholeCalls`.
#![tactic(auto)]

mod batch;
mod history;
mod once;
mod outcome;
mod round;
mod session;
mod version_1;

pub use batch::batches;
pub use history::histories;
pub use once::each_once;
pub use outcome::{groups_change_nothing, one_outcome};
pub use round::rounds;
pub use session::sessions;
pub use version_1::version_1_opens;
