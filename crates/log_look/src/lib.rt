//! A look into the log of a store that somebody else may be writing: read alone, with no lock and no right to write.
//!
//! A writer goes on while the two files are read, so that they are never seen at one moment. `look` reads the half in use from its
//! start to its end, and the headers of both halves before and after. Where the half is still the one in use, and of the same
//! generation, its bytes hold what it held at one moment in between (`WasMeant` in `specs/LookResults.antt`): they were read forward, and the
//! log writes a record, or a batch, behind its closed gate before it opens that gate; or, with one sync, over zeros, and then what is held is what
//! stands before the first 0. Where a batch was seen behind that 0, and the 0 is none any more, it was written meanwhile. Else it looks again.
//!
//! What it rests on: nobody but the log of a store writes the two files (`AreFilesAppended` in `specs/FilesDuringLook.antt`), and a read gives
//! what was there when it was read (`LiveFiles`). Where a half that is kept with one sync was cut short by a crash, the first append after an
//! opening overwrites what is left with zeros. A look that goes on meanwhile is not covered: the sums of each record are looked at then
//! as ever, and no more is claimed.
//!
//! # Modules
//!
//! - `live`: the trait `LiveFiles`, two files that somebody else may be writing. `host`: `HostFiles`, two of the operating system,
//!   and `look_into`, a look into the files of a folder.
//! - `moments`: `MomentFiles`, two files in memory that change from read to read: an honest one, for tests.
//! - `tries`: the look, in tries. `whole` reads a file to its end, `settled` sees to it that a batch that was seen was not written behind one that
//!   was not, and `heads` reads the headers.
//! - `sight`: `Sight`, the bytes that were seen, as a disk that takes no write.
//! - `opened`: the log of a sight. `cut`: a sight with no more than its first records.
//! - `error`: why a look was not had, or nothing is told of what was seen.
//! - `laws`: a look at files that nobody writes meanwhile means what they mean.
#![tactic(auto)]

mod cut;
mod error;
mod heads;
mod host;
mod laws;
mod live;
mod moments;
mod opened;
mod settled;
mod sight;
mod tries;
mod whole;

pub use cut::cut_after;
pub use error::{LogError, LookError};
pub use host::{Figures, HostFiles, look_into};
pub use laws::a_sight_means_the_same;
pub use live::LiveFiles;
pub use moments::{Moment, MomentFiles};
pub use opened::{open_at, open_sight};
pub use sight::Sight;
pub use tries::look;

/// The byte of an open gate. Every other byte is a closed one.
const OPEN: u8 = 0xA5;
/// The length of a header in bytes.
const HEADER: usize = 15;
/// The length of a record's head in bytes, in a half of version 1 or 2.
const RECORD_HEAD: usize = 6;
/// The version whose records come in batches.
const BATCHED_VERSION: u16 = 3;
/// Where in a half of that version the mark of its batches stands.
const MARK_AT: usize = 15;
/// How many bytes of a half are read at a time.
const PIECE: usize = 65_536;
/// How often a look is tried.
const TRIES: u32 = 1000;
