//! Calls of a disk in a row.
ghost use Rattle.std.specs.Prelude.{◌≡◌, ◌+◌, ◌-◌, ◌<◌, ◌≤◌, ◌^◌, OnOk};

use disk_trait::{DeviceFault, Disk, Half};

/// How many steps there are.
pub const STEPS: u64 = 7;

/// The next step: a write, a cut or a sync.
pub fn step<D: Disk>(disk: &mut D, number: u64) -> Result<(), DeviceFault>
    requires { (D.state disk.old).failures < 2 ^ 64 - 1 }
    ensures same { OnOk result ((D.state disk.new).failures ≡ (D.state disk.old).failures) }
    ensures most { (D.state disk.new).failures ≤ (D.state disk.old).failures + 1 }
{
    match number {
        0 => append(disk, Half::A, b"abc"),
        1 => disk.sync(Half::A),
        2 => append(disk, Half::B, b"defgh"),
        3 => append(disk, Half::A, b"ij"),
        4 => shorten(disk, Half::A, 2),
        5 => disk.sync(Half::A),
        _ => disk.sync(Half::B),
    }
}

/// What the two files hold after so many steps.
pub fn held_after(steps: u64) -> (&'static [u8], &'static [u8]) {
    match steps {
        0 => (b"".as_slice(), b"".as_slice()),
        1 | 2 => (b"abc".as_slice(), b"".as_slice()),
        3 => (b"abc".as_slice(), b"defgh".as_slice()),
        4 => (b"abcij".as_slice(), b"defgh".as_slice()),
        _ => (b"ab".as_slice(), b"defgh".as_slice()),
    }
}

/// What the two files held at their last sync after so many steps.
pub fn synced_after(steps: u64) -> (&'static [u8], &'static [u8]) {
    match steps {
        0 | 1 => (b"".as_slice(), b"".as_slice()),
        2..=5 => (b"abc".as_slice(), b"".as_slice()),
        6 => (b"ab".as_slice(), b"".as_slice()),
        _ => (b"ab".as_slice(), b"defgh".as_slice()),
    }
}

/// All steps, up to one that fails: how many were done.
pub fn run<D: Disk>(disk: &mut D) -> u64
    requires { (D.state disk.old).failures ≡ 0 }
    ensures { (D.state disk.new).failures ≤ 1 }
{
    for number in 0..STEPS {
        if step(disk, number).is_err() {
            return number;
        }
    }
    STEPS
}

// Writes behind the end of a file.
fn append<D: Disk>(disk: &mut D, half: Half, bytes: &[u8]) -> Result<(), DeviceFault>
    requires { (D.state disk.old).failures < 2 ^ 64 - 1 }
    ensures same { OnOk result ((D.state disk.new).failures ≡ (D.state disk.old).failures) }
    ensures most { (D.state disk.new).failures ≤ (D.state disk.old).failures + 1 }
{
    let len = disk.len(half)?;
    disk.write_at(half, len, bytes)
}

// Cuts a file to so many bytes, if it has them.
fn shorten<D: Disk>(disk: &mut D, half: Half, most: u64) -> Result<(), DeviceFault>
    requires { (D.state disk.old).failures < 2 ^ 64 - 1 }
    ensures same { OnOk result ((D.state disk.new).failures ≡ (D.state disk.old).failures) }
    ensures most { (D.state disk.new).failures ≤ (D.state disk.old).failures + 1 }
{
    let len = disk.len(half)?;
    disk.cut(half, len.min(most))
}
