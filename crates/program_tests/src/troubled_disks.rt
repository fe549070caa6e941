//! Disks in memory, and what may go wrong in a test.

use disk_trait::{DeviceFault, Disk, Half, MemoryDisk};
use std::alloc::{AllocError, Global};

/// A limit that no file of a test comes near.
pub const AMPLE: u64 = 1 << 30;

/// A half of version 2 whose world has the property 7.
pub const HALF: &[u8] =
    b"\xa5\0\x02\0\0\0\0\0\0\0\x01\0\0\0\x8a((\"COMMON-LISP-USER\" (\"COMMON-LISP\") NIL NIL NIL) (\"KEYWORD\" NIL NIL NIL NIL))\nNIL\n(\"COMMON-LISP-USER\" \"USER\" 10 ((\"USER\" \"UPCASE\" NIL)))\n\xa5\0\0\0\0\x14(SETF (GET 'A 'B) 7)\0";

/// Why a test has nothing to look at.
#[derive(Debug, PartialEq, Eq, Drop)]
pub enum Trouble {
    /// The device failed: a disk in memory does where it finds none.
    Device,
    Memory,
}

impl From<AllocError> for Trouble {
    fn from(_error: AllocError) -> Trouble {
        Trouble::Memory
    }
}

impl From<DeviceFault> for Trouble {
    fn from(_fault: DeviceFault) -> Trouble {
        Trouble::Device
    }
}

/// A disk whose half A has these bytes, which no crash takes away.
pub fn disk_of(alloc: Global, a: &[u8]) -> Result<MemoryDisk, Trouble> {
    let mut disk = MemoryDisk::new(alloc);
    disk.write_at(Half::A, 0, a)?;
    disk.sync(Half::A)?;
    disk.sync(Half::B)?;
    if disk.failures() > 0 {
        return Err(Trouble::Device);
    }
    Ok(disk)
}
