//! What measures the files of a store.
ghost use Rattle.std.specs.Prelude.{⊤, Result};
ghost use Rattle.clap.specs.Words.{Text};
ghost use Rattle.disk_trait.specs.declared.host.HostError.{HostError};
ghost use Rattle.log_look.specs.declared.host.Figures.{Figures};

use disk_trait::HostError;
use log_look::{Figures, HostFiles};

/// What measures the two files of a store in a folder: the system.
pub trait Measures {
    // what it may tell of the files of this folder
    ghost measures: { Self → Text → Result Figures HostError → Type 0 };

    /// How long the files are, and how old.
    ///
    /// # Errors
    ///
    /// Why that is not told.
    fn figures(&self, folder: &str) -> Result<Figures, HostError>
        ensures { measures self.now folder.now result };
}

impl Measures for HostRuntime {
    ghost measures = { λ host folder result. ⊤ };

    fn figures(&self, folder: &str) -> Result<Figures, HostError> {
        let files = HostFiles::open(self, folder)?;
        let figures = files.figures(self)?;
        Ok(figures)
    }
}
