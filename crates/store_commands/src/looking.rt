// What the files of a folder hold at one moment, in place of the files.
ghost use Rattle.std.specs.Prelude.{◌≡◌, IfOk};

use crate::folders::{Folders, TellsCause};
use disk_trait::{Disk, FailedCall, HostError, IfMissing};
use log_look::{Sight, look_into};
use std::alloc::{Alloc, Global};
use std::fs::File;
use std::io;
use std::random::RandomSource;
use std::rt::Files;

/// A system in which a folder is opened by a look: no file is locked, made or written, and the disk is what its files hold at one
/// moment. So what is told of a store is told of one that may be served meanwhile.
#[derive(Clone, Copy)]
pub struct Looking<'a, R> {
    rt: &'a R,
}

impl<'a, R> Looking<'a, R> {
    /// Looks into the folders of this system, in place of opening their files.
    pub fn new(rt: &'a R) -> Looking<'a, R> {
        Looking { rt }
    }
}

impl<R: Files<File = File> + AllocGlobal> Folders for Looking<'_, R> {
    type Disk = Sight;

    ghost opens = { λ looking folder if_missing result. IfOk result (λ sight. (⟦<Sight as Disk>⟧.state sight).failures ≡ 0) };

    fn open_files(&self, folder: &str, _if_missing: IfMissing) -> Result<Sight, HostError> {
        look_into(self.rt, folder)
    }
}

impl<R: AllocGlobal> Alloc for Looking<'_, R> {
    type A = Global;

    fn alloc(&self) -> Global {
        self.rt.alloc()
    }
}

impl<R: RandomSource> RandomSource for Looking<'_, R> {
    fn fill_bytes(&self, buf: &mut [u8]) -> io::Result<()> {
        self.rt.fill_bytes(buf)
    }
}

impl TellsCause for Sight {
    ghost use Rattle.std.specs.Prelude.{⊤};

    ghost tells = { λ sight cause. ⊤ };

    fn cause(&self) -> Option<FailedCall> {
        None
    }
}
