// A call of a device and what came of it, as it is noted.
ghost use Rattle.std.specs.Prelude.{◌≡◌};

use disk_trait::Half;

#[derive(Clone, Copy, Drop)]
pub(crate) enum DeviceOrder<'a> {
    Write {
        half: Half,
        at: u64,
        bytes: &'a [u8],
    },
    Cut {
        half: Half,
        len: u64,
    },
    Sync {
        half: Half,
    },
}

#[derive(Clone, Copy, Drop)]
pub(crate) enum DeviceNote<'a> {
    Done(DeviceOrder<'a>),
    Failed(DeviceOrder<'a>),
    Gave {
        half: Half,
        at: u64,
        room: usize,
        bytes: &'a [u8],
    },
}
