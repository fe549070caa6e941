//! A machine in memory with one folder over a device, one of whose calls goes wrong.
ghost use Rattle.std.specs.Prelude.{IfOk};
ghost use Rattle.device_disk.specs.Told.{told_of};
ghost use Rattle.disk_trait.specs.Disk.{IsHonest};

use super::{OpenDisk, Shelf};
use device_disk::{DeviceDisk, InjectedFault, MemoryDevice};
use disk_trait::{HostError, IfMissing};
use std::alloc::{Alloc, AllocError, Global};
use std::cell::RefCell;
use std::io;
use std::random::RandomSource;
use std::rc::Rc;
use store_commands::Folders;

/// A machine with one folder, whatever its name, which is opened once.
#[derive(Drop)]
pub struct DeviceMachine {
    alloc: Global,
    device: RefCell<Option<MemoryDevice>>,
    fault: Option<(u64, InjectedFault)>,
    shelf: Shelf<DeviceDisk<MemoryDevice>>,
}

impl DeviceMachine {
    /// Its folder holds what a crash leaves of this device. At the call of this number, counted from 0, that goes wrong.
    pub fn new(
        alloc: Global,
        device: MemoryDevice,
        fault: Option<(u64, InjectedFault)>,
    ) -> Result<DeviceMachine, AllocError> {
        let shelf = Rc::new(alloc, RefCell::new(None))?;
        let device = RefCell::new(Some(device));
        Ok(DeviceMachine {
            alloc,
            device,
            fault,
            shelf,
        })
    }

    /// Takes the device out, as the last program left it. `None` where its folder was not opened.
    pub fn take_device(&self) -> Option<MemoryDevice> {
        match self.shelf.try_replace(None) {
            Ok(Some(disk)) => Some(disk.into_device()),
            _ => None,
        }
    }
}

impl Folders for DeviceMachine {
    type Disk = OpenDisk<DeviceDisk<MemoryDevice>>;

    ghost opens = { λ machine folder if_missing result. IfOk result (λ it. IsHonest (told_of it.disk)) };

    fn open_files(
        &self,
        _folder: &str,
        _if_missing: IfMissing,
    ) -> Result<OpenDisk<DeviceDisk<MemoryDevice>>, HostError> {
        let Ok(shelf) = self.shelf.clone() else {
            return Err(HostError::OutOfMemory);
        };
        let Ok(Some(device)) = self.device.try_replace(None) else {
            return Err(HostError::Locked);
        };
        let disk = DeviceDisk::open(self.alloc, device.crashed(self.fault))?;
        Ok(OpenDisk { disk, shelf })
    }
}

impl Alloc for DeviceMachine {
    type A = Global;

    fn alloc(&self) -> Global {
        self.alloc
    }
}

impl RandomSource for DeviceMachine {
    fn fill_bytes(&self, buf: &mut [u8]) -> io::Result<()> {
        buf.fill(7);
        Ok(())
    }
}
