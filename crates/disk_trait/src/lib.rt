//! A disk of two files: what each call gives, and what a crash at any moment may leave.
//!
//! The trait `Disk` (module `disk`) promises the layer above, of a disk that claims to be honest: a read gives
//! what was written; until a sync a crash may leave each write and each cut undone, done, or torn in the range
//! that it touches; after a sync it leaves what a read gives. Of every disk it promises that `failures` counts
//! the calls that failed. A disk may claim besides that its writes mix: of one that is torn each byte is then the old one or the new
//! one. The definitions are in `specs/Disk.antt`, and the laws by which runs of calls are told,
//! moment by moment, in `specs/Moments.antt`.
//!
//! - `Half` (module `half`) names one of the two files, and `DeviceFault` is the answer of a call that failed.
//! - `MemoryDisk` (module `memory`) is an honest disk in memory. It keeps a record of its calls (module `call`),
//!   so that it can crash: `Crash` (module `crash`) says what is then left.
//! - `FuseDisk` and `OnceDisk` (module `faulty`) let calls of another disk fail, for tests: those that a `Faults` (module
//!   `faults`) names.
//! - `HostDisk` (module `host`) is two files of the operating system. It claims no honesty, and keeps the last call of the system that
//!   failed, a `FailedCall` (module `failed_call`); `HostError` says why they are not opened. They are opened in `host/opening.rt`, and a
//!   missing folder is made in `host/folder.rt`.
//! - `torn_images` (module `laws`): a write or a cut that a crash cuts short may leave each mix of bytes. `mixed_is_torn`: what a write
//!   may leave where writes mix is among them.
#![tactic(auto)]

mod call;
mod crash;
mod disk;
mod failed_call;
mod faults;
mod faulty;
mod half;
mod host;
mod laws;
mod memory;

pub use crash::Crash;
pub use disk::{DeviceFault, Disk};
pub use failed_call::{FailedCall, HostCall, HostFile};
pub use faults::{Faults, Fuse, Once};
pub use faulty::{FaultyDisk, FuseDisk, OnceDisk};
pub use half::Half;
pub use host::{HostDisk, HostError, IfMissing};
pub use laws::{mixed_is_torn, torn_images};
pub use memory::MemoryDisk;
