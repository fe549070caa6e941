//! A machine in memory with one folder, whose disk outlives the program that opened it.
//!
//! `device`: the same over a device in memory, one of whose calls goes wrong.
ghost use Rattle.std.specs.Prelude.{⊤, IfOk};
ghost use Rattle.disk_trait.specs.Disk.{IsHonest};
ghost use Rattle.disk_trait.specs.Faulty.{faulty};
ghost use Rattle.disk_trait.specs.Memory.{state_of};

pub mod device;

use disk_trait::{DeviceFault, Disk, FailedCall, FuseDisk, Half, HostError, IfMissing, MemoryDisk};
use std::alloc::{Alloc, AllocError, Global};
use std::cell::RefCell;
use std::io;
use std::random::RandomSource;
use std::rc::Rc;
use store_commands::{Folders, TellsCause};

/// Where a disk stands while no program has it open.
type Shelf<D> = Rc<RefCell<Option<D>>>;

/// A machine with one folder, whatever its name.
#[derive(Drop)]
pub struct MemoryMachine {
    alloc: Global,
    shelf: Shelf<FuseDisk<MemoryDisk>>,
}

impl MemoryMachine {
    /// Its folder holds what this disk does, and a store there is stopped after so many calls of the disk.
    pub fn new(alloc: Global, disk: MemoryDisk, calls: u64) -> Result<MemoryMachine, AllocError> {
        let disk = FuseDisk::new(disk, calls);
        let shelf = Rc::new(alloc, RefCell::new(Some(disk)))?;
        Ok(MemoryMachine { alloc, shelf })
    }

    /// Takes the disk out, as the last program left it. `None` where one has it open.
    pub fn take_disk(&self) -> Option<MemoryDisk> {
        match self.shelf.try_replace(None) {
            Ok(Some(disk)) => Some(disk.into_inner()),
            _ => None,
        }
    }
}

/// A disk that a program has open. It goes back to its shelf as it is dropped.
pub struct OpenDisk<D: Disk + Drop> {
    disk: D,
    shelf: Shelf<D>,
}

impl<D: Disk + Drop> Drop for OpenDisk<D> {
    fn drop(self) {
        let OpenDisk { disk, shelf } = self;
        let _ = shelf.try_replace(Some(disk));
    }
}

impl<D: Disk + Drop> Disk for OpenDisk<D> {
    ghost state = { λ it. D.state it.disk };

    ghost sound = { λ it honest. D.sound it.disk honest };

    fn failures(&self) -> u64 {
        self.disk.failures()
    }

    fn mixes(&self) -> bool {
        self.disk.mixes()
    }

    fn len(&mut self, half: Half) -> Result<u64, DeviceFault> {
        self.disk.len(half)
    }

    fn read(&mut self, half: Half, at: u64, buffer: &mut [u8]) -> Result<usize, DeviceFault> {
        self.disk.read(half, at, buffer)
    }

    fn write_at(&mut self, half: Half, at: u64, bytes: &[u8]) -> Result<(), DeviceFault> {
        self.disk.write_at(half, at, bytes)
    }

    fn cut(&mut self, half: Half, len: u64) -> Result<(), DeviceFault> {
        self.disk.cut(half, len)
    }

    fn sync(&mut self, half: Half) -> Result<(), DeviceFault> {
        self.disk.sync(half)
    }
}

impl<D: Disk + Drop> TellsCause for OpenDisk<D> {
    ghost tells = { λ disk cause. ⊤ };

    fn cause(&self) -> Option<FailedCall> {
        None
    }
}

impl Folders for MemoryMachine {
    type Disk = OpenDisk<FuseDisk<MemoryDisk>>;

    ghost opens = { λ machine folder if_missing result. IfOk result (λ it. IsHonest (faulty state_of it.disk)) };

    fn open_files(
        &self,
        _folder: &str,
        _if_missing: IfMissing,
    ) -> Result<OpenDisk<FuseDisk<MemoryDisk>>, HostError> {
        let Ok(shelf) = self.shelf.clone() else {
            return Err(HostError::OutOfMemory);
        };
        let Ok(Some(disk)) = shelf.try_replace(None) else {
            return Err(HostError::Locked);
        };
        let opened = OpenDisk { disk, shelf };
        if opened.failures() > 0 {
            return Err(HostError::System(io::ErrorKind::Other.into()));
        }
        Ok(opened)
    }
}

impl Alloc for MemoryMachine {
    type A = Global;

    fn alloc(&self) -> Global {
        self.alloc
    }
}

impl RandomSource for MemoryMachine {
    fn fill_bytes(&self, buf: &mut [u8]) -> io::Result<()> {
        buf.fill(7);
        Ok(())
    }
}
