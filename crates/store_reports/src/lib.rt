//! What is told of a store that was seen (`log_look`): texts of its world, of its log and of its files, and a backup.
//!
//! - `show`: properties of a world, as lines, as forms or as JSON (module `showing`, over `selection` and `homes`), and `count`:
//!   how many they are (module `counting`).
//! - `info`: figures of a store and of its files, and `file_info`: those that need no world; `verified`: what is told of a store that was
//!   verified, as JSON (module `figures`). Of a half of version 3 they have how many syncs an append takes, and the identity of the store (module
//!   `manner`).
//! - `log_lines`: the records of the half in use, a line each (module `log`).
//! - `backup`: a new store with the world of another one (module `backups`), at a place that something makes and names (`StorePlaces`, module
//!   `places`); `backup_onto`: on a disk that is there.
//!
//! All but these two give bytes and write nothing. In lines control characters are escaped (module `escaped`); JSON is that of module
//! `json`, and `numbers` writes numbers in both: crates above add members of their own by `push_string_member`, `push_number_member` and
//! `push_figure`.
#![tactic(auto)]

mod backups;
mod counting;
mod escaped;
mod figures;
mod homes;
mod json;
mod log;
mod manner;
mod numbers;
mod places;
mod selection;
mod showing;

pub use backups::{BackupError, NotBegun, backup, backup_onto};
pub use counting::count;
pub use figures::{HalfFigures, file_info, half_figures, info, verified};
pub use json::{push_number_member, push_string_member};
pub use log::{LogPart, log_lines};
pub use manner::HalfManner;
pub use numbers::{Notation, push_figure};
pub use places::StorePlaces;
pub use selection::{Layout, Selection};
pub use showing::{ShowError, show};
