// A device that is two files of the operating system. Each of its four calls is one call of the system, and a note of it: that the system
// does in it what the note says is to be read here.
ghost use Rattle.std.specs.Prelude.{◌≡◌, ◌≤◌, ◌∷◌, [], IfOk, length, take};
ghost use Rattle.disk_trait.specs.Host.{IsAboveStreams};
ghost use Rattle.disk_trait.specs.Orders.{writes, cuts, syncs};
ghost use Rattle.device_disk.specs.DeviceCalls.{done, failed, gave};
ghost use Rattle.device_disk.specs.DeviceAnswers.{MatchAnswer};
ghost use Rattle.device_disk.specs.Notes.{order_value};

use crate::device::{Device, DeviceAnswer};
use crate::note::{DeviceNote, DeviceOrder};
use crate::past::DevicePast;
use disk_trait::{Half, HostDisk, HostError, IfMissing};
use std::fs::File;
use std::io;
use std::os::unix::fs::FileExt;
use std::rt::Files;

/// Two files of the operating system, open for reading and for writing. Neither has a descriptor of a standard stream.
#[derive(Drop)]
pub struct HostDevice {
    a: File,
    b: File,
    past: DevicePast,
    ghost a_descriptor: { IsAboveStreams a },
    ghost b_descriptor: { IsAboveStreams b },
}

impl HostDevice {
    /// The two files of a folder, opened and locked as those of a `HostDisk` are. They stay locked as long as the device lives.
    ///
    /// # Errors
    ///
    /// Those of `HostDisk::open_files`.
    pub fn open_files<R: Files<File = File> + AllocGlobal>(
        rt: &R,
        dir: &str,
        if_missing: IfMissing,
    ) -> Result<HostDevice, HostError>
        ensures { IfOk result (λ device. ⟦<HostDevice as Device>⟧.calls device ≡ []) }
    {
        let (a, b) = HostDisk::open_files(rt, dir, if_missing)?.into_files();
        Ok(HostDevice::of_files(a, b))
    }

    /// These two files, of which nothing was asked yet.
    pub fn of_files(a: File, b: File) -> HostDevice
        requires a { IsAboveStreams a }
        requires b { IsAboveStreams b }
        ensures { ⟦<HostDevice as Device>⟧.calls result ≡ [] }
    {
        let past = DevicePast::new();
        HostDevice { a, b, past }
    }

    // The file of a half.
    fn file(&self, half: Half) -> &File {
        match half {
            Half::A => &self.a,
            Half::B => &self.b,
        }
    }

    // The order was done, with this answer.
    fn done<T>(&mut self, order: DeviceOrder<'_>, value: T) -> DeviceAnswer<T>
        ensures { MatchAnswer result
            (λ given. (given ≡ value) × (self.new.past.calls ≡ done (order_value order.entry) ∷ self.old.past.calls)) ⊥ ⊥ }
    {
        self.past = self.past.then(&DeviceNote::Done(order));
        DeviceAnswer::Done(value)
    }

    // The order was not done: a signal came first, or it failed.
    fn not_done<T>(&mut self, order: DeviceOrder<'_>, error: io::Error) -> DeviceAnswer<T>
        ensures { MatchAnswer result (λ _. ⊥) (self.new.past.calls ≡ self.old.past.calls)
            (self.new.past.calls ≡ failed (order_value order.entry) ∷ self.old.past.calls) }
    {
        if error.kind() == io::ErrorKind::Interrupted {
            return DeviceAnswer::Interrupted;
        }
        self.past = self.past.then(&DeviceNote::Failed(order));
        DeviceAnswer::Failed(error)
    }
}

impl Device for HostDevice {
    ghost calls = { λ device. device.past.calls };

    fn read_at(&mut self, half: Half, at: u64, buffer: &mut [u8]) -> DeviceAnswer<usize> {
        let room = buffer.len();
        match self.file(half).read_at(buffer, at) {
            Ok(count) => {
                let bytes = &buffer[..count];
                let note = DeviceNote::Gave {
                    half,
                    at,
                    room,
                    bytes,
                };
                self.past = self.past.then(&note);
                DeviceAnswer::Done(count)
            }
            Err(error) if error.kind() == io::ErrorKind::Interrupted => DeviceAnswer::Interrupted,
            Err(error) => DeviceAnswer::Failed(error),
        }
    }

    fn write_at(&mut self, half: Half, at: u64, bytes: &[u8]) -> DeviceAnswer<usize> {
        match self.file(half).write_at(bytes, at) {
            Ok(count) => {
                let bytes = &bytes[..count];
                self.done(DeviceOrder::Write { half, at, bytes }, count)
            }
            Err(error) => self.not_done(DeviceOrder::Write { half, at, bytes }, error),
        }
    }

    fn cut(&mut self, half: Half, len: u64) -> DeviceAnswer<()> {
        let order = DeviceOrder::Cut { half, len };
        match self.file(half).set_len(len) {
            Ok(()) => self.done(order, ()),
            Err(error) => self.not_done(order, error),
        }
    }

    fn sync(&mut self, half: Half) -> DeviceAnswer<()> {
        let order = DeviceOrder::Sync { half };
        match self.file(half).sync_all() {
            Ok(()) => self.done(order, ()),
            Err(error) => self.not_done(order, error),
        }
    }
}
