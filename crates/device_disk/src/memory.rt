// A device in memory, one of whose calls goes wrong.
ghost use Rattle.std.specs.Prelude.{◌≡◌, ◌≤◌, ◌∷◌, [], length};
ghost use Rattle.device_disk.specs.DeviceAnswers.{MatchAnswer};
ghost use Rattle.device_disk.specs.DeviceCalls.{done, failed};
ghost use Rattle.device_disk.specs.Notes.{order_value};

use crate::device::{Device, DeviceAnswer};
use crate::note::{DeviceNote, DeviceOrder};
use crate::past::DevicePast;
use disk_trait::Half;
use std::alloc::{AllocError, Global};
use std::io;

/// What goes wrong in a call.
#[derive(Clone, Copy, Debug, PartialEq, Eq)]
pub enum InjectedFault {
    /// A write takes at most so many bytes; a read gives at most so many, and one at least.
    Short(usize),
    /// A signal comes before anything is done.
    Interrupted,
    /// It fails, and nothing of it is done.
    Failed(io::ErrorKind),
    /// A write fails of which so many bytes are done.
    Torn(usize),
}

/// Two files in memory. A crash leaves of each what it held at its last sync.
#[derive(Drop)]
pub struct MemoryDevice {
    alloc: Global,
    a: MemoryFile,
    b: MemoryFile,
    fault: Option<(u64, InjectedFault)>,
    count: u64,
    past: DevicePast,
}

// A file, and what it held at its last sync.
#[derive(Drop)]
struct MemoryFile {
    bytes: Vec<u8>,
    synced: Vec<u8>,
}

impl MemoryFile {
    // So many bytes from there on, up to the buffer's length.
    fn read(&self, at: u64, most: usize, buffer: &mut [u8]) -> usize
        ensures { result ≤ length buffer.old }
    {
        let start = (at as usize).min(self.bytes.len());
        let count = (self.bytes.len() - start).min(most).min(buffer.len());
        buffer[..count].copy_from_slice(&self.bytes[start..start + count]);
        count
    }

    // Puts these bytes in place of those from there on. Between its old end and the place there are zeros.
    fn write(&mut self, alloc: Global, at: u64, bytes: &[u8]) -> Result<(), AllocError> {
        let place = at as usize;
        let mut next = self.bytes[..place.min(self.bytes.len())].to_vec(alloc)?;
        if next.len() < place {
            next.resize(place, 0)?;
        }
        next.extend_from_slice(bytes)?;
        if next.len() < self.bytes.len() {
            next.extend_from_slice(&self.bytes[next.len()..])?;
        }
        self.bytes = next;
        Ok(())
    }

    fn sync(&mut self, alloc: Global) -> Result<(), AllocError> {
        self.synced = self.bytes.as_slice().to_vec(alloc)?;
        Ok(())
    }
}

impl MemoryDevice {
    /// Two empty files. At the call of this number, counted from 0, that goes wrong; `None`: no call goes wrong.
    pub fn new(alloc: Global, fault: Option<(u64, InjectedFault)>) -> MemoryDevice
        ensures { ⟦<MemoryDevice as Device>⟧.calls result ≡ [] }
    {
        let a = MemoryFile {
            bytes: Vec::new(alloc),
            synced: Vec::new(alloc),
        };
        let b = MemoryFile {
            bytes: Vec::new(alloc),
            synced: Vec::new(alloc),
        };
        MemoryDevice {
            alloc,
            a,
            b,
            fault,
            count: 0,
            past: DevicePast::new(),
        }
    }

    /// How many calls it was asked for.
    pub fn count(&self) -> u64 {
        self.count
    }

    /// What a file holds.
    pub fn bytes(&self, half: Half) -> &[u8] {
        match half {
            Half::A => self.a.bytes.as_slice(),
            Half::B => self.b.bytes.as_slice(),
        }
    }

    /// What a file held at its last sync.
    pub fn synced(&self, half: Half) -> &[u8] {
        match half {
            Half::A => self.a.synced.as_slice(),
            Half::B => self.b.synced.as_slice(),
        }
    }

    /// A new device on what a crash leaves of this one.
    pub fn crashed(self, fault: Option<(u64, InjectedFault)>) -> MemoryDevice
        ensures { ⟦<MemoryDevice as Device>⟧.calls result ≡ [] }
    {
        let MemoryDevice {
            alloc,
            a,
            b,
            fault: _,
            count: _,
            past: _,
        } = self;
        let mut device = MemoryDevice::new(alloc, fault);
        device.a.bytes = a.synced;
        device.b.bytes = b.synced;
        device
    }

    // Counts a call, and says what goes wrong in it.
    fn struck(&mut self) -> Option<InjectedFault>
        ensures { self.new.past ≡ self.old.past }
    {
        let number = self.count;
        self.count = number.saturating_add(1);
        match self.fault {
            Some((call, fault)) if call == number => Some(fault),
            _ => None,
        }
    }

    fn file(&self, half: Half) -> &MemoryFile {
        match half {
            Half::A => &self.a,
            Half::B => &self.b,
        }
    }

    // Puts bytes into a file.
    fn put(&mut self, half: Half, at: u64, bytes: &[u8]) -> Result<(), AllocError>
        ensures { self.new.past ≡ self.old.past }
    {
        match half {
            Half::A => self.a.write(self.alloc, at, bytes),
            Half::B => self.b.write(self.alloc, at, bytes),
        }
    }

    // The order was done, with this answer.
    fn done<T>(&mut self, order: DeviceOrder<'_>, value: T) -> DeviceAnswer<T>
        ensures { MatchAnswer result
            (λ given. (given ≡ value) × (self.new.past.calls ≡ done (order_value order.entry) ∷ self.old.past.calls)) ⊥ ⊥ }
    {
        self.past = self.past.then(&DeviceNote::Done(order));
        DeviceAnswer::Done(value)
    }

    fn failed<T>(&mut self, order: DeviceOrder<'_>, kind: io::ErrorKind) -> DeviceAnswer<T>
        ensures { MatchAnswer result (λ _. ⊥) ⊥
            (self.new.past.calls ≡ failed (order_value order.entry) ∷ self.old.past.calls) }
    {
        self.past = self.past.then(&DeviceNote::Failed(order));
        DeviceAnswer::Failed(kind.into())
    }
}

impl Device for MemoryDevice {
    ghost calls = { λ device. device.past.calls };

    fn read_at(&mut self, half: Half, at: u64, buffer: &mut [u8]) -> DeviceAnswer<usize> {
        let room = buffer.len();
        let most = match self.struck() {
            Some(InjectedFault::Interrupted) => return DeviceAnswer::Interrupted,
            Some(InjectedFault::Failed(kind)) => return DeviceAnswer::Failed(kind.into()),
            Some(InjectedFault::Short(most)) => most.max(1),
            _ => room,
        };
        let count = self.file(half).read(at, most, buffer);
        let bytes = &buffer[..count];
        let note = DeviceNote::Gave {
            half,
            at,
            room,
            bytes,
        };
        self.past = self.past.then(&note);
        DeviceAnswer::Done(count)
    }

    fn write_at(&mut self, half: Half, at: u64, bytes: &[u8]) -> DeviceAnswer<usize> {
        let whole = DeviceOrder::Write { half, at, bytes };
        let most = match self.struck() {
            Some(InjectedFault::Interrupted) => return DeviceAnswer::Interrupted,
            Some(InjectedFault::Failed(kind)) => return self.failed(whole, kind),
            Some(InjectedFault::Torn(most)) => {
                let some = &bytes[..most.min(bytes.len())];
                let _ = self.put(half, at, some);
                return self.failed(whole, io::ErrorKind::Other);
            }
            Some(InjectedFault::Short(most)) => most.min(bytes.len()),
            None => bytes.len(),
        };
        let bytes = &bytes[..most];
        match self.put(half, at, bytes) {
            Ok(()) => self.done(DeviceOrder::Write { half, at, bytes }, most),
            Err(_) => self.failed(whole, io::ErrorKind::OutOfMemory),
        }
    }

    fn cut(&mut self, half: Half, len: u64) -> DeviceAnswer<()> {
        let order = DeviceOrder::Cut { half, len };
        match self.struck() {
            Some(InjectedFault::Interrupted) => return DeviceAnswer::Interrupted,
            Some(InjectedFault::Failed(kind)) => return self.failed(order, kind),
            _ => {}
        }
        match half {
            Half::A => self.a.bytes.truncate(len as usize),
            Half::B => self.b.bytes.truncate(len as usize),
        }
        self.done(order, ())
    }

    fn sync(&mut self, half: Half) -> DeviceAnswer<()> {
        let order = DeviceOrder::Sync { half };
        match self.struck() {
            Some(InjectedFault::Interrupted) => return DeviceAnswer::Interrupted,
            Some(InjectedFault::Failed(kind)) => return self.failed(order, kind),
            _ => {}
        }
        let synced = match half {
            Half::A => self.a.sync(self.alloc),
            Half::B => self.b.sync(self.alloc),
        };
        match synced {
            Ok(()) => self.done(order, ()),
            Err(_) => self.failed(order, io::ErrorKind::OutOfMemory),
        }
    }
}
