// What was asked of a device since it was made. It exists only in proofs.
ghost use Rattle.std.specs.Prelude.{◌≡◌, List, [], ◌∷◌};
ghost use Rattle.std.specs.Coded.{coded_list};
ghost use base.Fml.{ftrue};
ghost use Rattle.device_disk.specs.DeviceCalls.{DeviceCall, device_call_code};

use crate::note::DeviceNote;
use std::marker::Model;

/// A clause reads the calls as `calls`, the newest first.
#[derive(Drop)]
pub(crate) struct DevicePast {
    ghost calls: { List DeviceCall } by { coded_list device_call_code },
}

impl Model for DevicePast {
    ghost also_owns = { λ _. ftrue };
}

impl DevicePast {
    ghost use Rattle.device_disk.specs.Notes.{noted_call};

    // Nothing was asked yet.
    pub(crate) fn new() -> DevicePast
        ensures { result.calls ≡ [] }
    {
        DevicePast {}
    }

    // One call more.
    pub(crate) fn then(&self, _note: &DeviceNote<'_>) -> DevicePast
        ensures { result.calls ≡ noted_call _note.now ∷ self.now.calls }
    {
        DevicePast {}
    }
}
