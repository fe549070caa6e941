//! A disk over the two files of a machine, of which it asks four things (`Device`, module `device`): to read, to write, to cut and to sync
//! a file.
//!
//! - `DeviceDisk` (module `disk`) is honest by the calls that it makes. It notes each call in memory, as `DeferredDisk` does, and makes it
//!   before the call of the disk ends. Its state is told from the bytes that it read as it was opened, and from the calls since; what it
//!   gives to a read comes from memory.
//! - All that a crash may leave of the files is among what that state says: `a_crash_leaves_what_is_told`. What is taken as given of a
//!   device stands in `specs/DeviceFiles.antt`: what files hold after its calls, and what a crash leaves of them. A disk that says that its
//!   writes mix (`open_mixing`) stands on a premise more, which is named there.
//! - A write that took a part is gone on with, and what a signal interrupts is asked again (module `whole`, `specs/Pieces.antt`). After a
//!   call that failed the device is asked for nothing more (`never_again`). What fails is told with the call and the file; for an opening
//!   that is in module `opening`.
//! - `HostDevice` (module `host`) is two files of the operating system. Each of its calls is noted (module `note`) in a list that exists only
//!   in proofs (module `past`). That the system does in a call what its note says is to be read there.
//! - `MemoryDevice` (module `memory`) is two files in memory, for tests: one of its calls goes wrong, by an `InjectedFault`.
#![tactic(auto)]

mod device;
mod disk;
mod host;
mod memory;
mod note;
mod opening;
mod past;
mod whole;

pub use device::{Device, DeviceAnswer};
pub use disk::{DeviceDisk, a_crash_leaves_what_is_told};
pub use host::HostDevice;
pub use memory::{InjectedFault, MemoryDevice};
