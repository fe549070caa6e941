// Two files, as a machine has them.
ghost use Rattle.std.specs.Prelude.{◌≡◌, ◌≤◌, ◌∷◌, List, length, take};
ghost use Rattle.disk_trait.specs.Orders.{writes, cuts, syncs};
ghost use Rattle.device_disk.specs.DeviceCalls.{DeviceCall, done, failed, gave};
ghost use Rattle.device_disk.specs.DeviceAnswers.{MatchAnswer};

use disk_trait::Half;
use std::io;

/// What a device answers.
#[derive(Drop)]
pub enum DeviceAnswer<T> {
    /// It was done.
    Done(T),
    /// A signal came before anything was done.
    Interrupted,
    /// It failed. Any part of it may be done.
    Failed(io::Error),
}

/// Two files, of which a disk asks four things.
///
/// Each clause says what the system was asked and what came of it. That is to be read beside each body by whoever trusts it.
pub trait Device {
    /// What it was asked since it was made, and what came of it, the newest first.
    ghost calls: { Self → List DeviceCall };

    /// Reads some of the bytes that a file has from there on, up to the buffer's length; none of them at its end.
    fn read_at(&mut self, half: Half, at: u64, buffer: &mut [u8]) -> DeviceAnswer<usize>
        ensures calls { MatchAnswer result
            (λ count. (count ≤ length buffer.old)
            × (calls self.new ≡ gave half at (length buffer.old) (take count buffer.new) ∷ calls self.old))
            (calls self.new ≡ calls self.old)
            (calls self.new ≡ calls self.old) }
        ensures size { length buffer.new ≡ length buffer.old };

    /// Writes some of these bytes from there on, from their front.
    fn write_at(&mut self, half: Half, at: u64, bytes: &[u8]) -> DeviceAnswer<usize>
        ensures { MatchAnswer result
            (λ count. (count ≤ length bytes.now)
            × (calls self.new ≡ done (writes half at (take count bytes.now)) ∷ calls self.old))
            (calls self.new ≡ calls self.old)
            (calls self.new ≡ failed (writes half at bytes.now) ∷ calls self.old) };

    /// Cuts a file to this length.
    fn cut(&mut self, half: Half, len: u64) -> DeviceAnswer<()>
        ensures { MatchAnswer result
            (λ _. calls self.new ≡ done (cuts half len) ∷ calls self.old)
            (calls self.new ≡ calls self.old)
            (calls self.new ≡ failed (cuts half len) ∷ calls self.old) };

    /// Syncs a file: after it a crash leaves of the file what was done to it.
    fn sync(&mut self, half: Half) -> DeviceAnswer<()>
        ensures { MatchAnswer result
            (λ _. calls self.new ≡ done (syncs half) ∷ calls self.old)
            (calls self.new ≡ calls self.old)
            (calls self.new ≡ failed (syncs half) ∷ calls self.old) };
}
