// Why a form was not added to a batch, and why a batch was not logged.
ghost use Rattle.std.specs.Prelude.{◌≡◌};
ghost use Rattle.prevalence_store.specs.steps.Failure.{failure_number};

use lisp_object::refusal::{DEVICE, LOG_FULL, NO_MEMORY};

/// Why a form was not added to a batch.
#[derive(Clone, Copy)]
pub enum Unadded {
    /// Evaluation refused it, with this number.
    Refused(u16),
    /// There was no memory.
    OutOfMemory,
}

/// Why a batch was not logged.
#[derive(Clone, Copy)]
pub enum Unlogged {
    /// Its records would pass the half's limit.
    Full,
    /// The device failed.
    DeviceFault,
    /// There was no memory.
    OutOfMemory,
}

impl Unlogged {
    /// The number of the refusal.
    pub fn number(self) -> u16
        ensures { result ≡ failure_number self }
    {
        match self {
            Unlogged::Full => LOG_FULL,
            Unlogged::DeviceFault => DEVICE,
            Unlogged::OutOfMemory => NO_MEMORY,
        }
    }
}
