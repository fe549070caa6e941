// What a store is opened with.
ghost use Rattle.std.specs.Prelude.{◌≡◌, ◌<◌, ◌-◌, ◌^◌, true, IfErr, IfOk, OnOk};
ghost use Rattle.prevalence_store.specs.calls.Open.{IsOpened, IsUnopened};
ghost use Rattle.store_commands.specs.Session.{half_limit};
ghost use Rattle.user_macros.specs.Functions.{are_registered};

use disk_trait::Disk;
use plist_state::Seed;
use prevalence_store::{Store, Unopened};
use std::alloc::Global;
use user_macros::MacroFunctions;

/// How many bytes each of the two files of a store may have.
pub const HALF_LIMIT: u64 = 1_073_741_824;

/// What a store is opened with.
#[derive(Drop)]
pub struct Opening<D, M> {
    /// Where its memory is from.
    pub alloc: Global,
    /// The disk that holds it.
    pub disk: D,
    /// Its macro functions.
    pub macros: M,
    /// By this seed its names are hashed.
    pub seed: Seed,
}

impl<D: Disk, M: MacroFunctions> Opening<D, M> {
    /// Opens the store, each of whose files may have `HALF_LIMIT` bytes.
    ///
    /// # Errors
    ///
    /// Those of `Store::open_with_seed`, with the disk and the macro functions.
    pub fn open(self) -> Result<Store<D, M>, Unopened<D, M>>
        requires room { (D.state self.disk).failures < 2 ^ 64 - 1 }
        requires answers { M.answers self.macros }
        ensures opened { IfOk result
            (IsOpened M.Meaning.functions D.state self.disk self.macros half_limit) }
        ensures whole { OnOk result
            (are_registered M.Meaning.functions (M.functions self.macros) ≡ true) }
        ensures refused { IfErr result (λ e. IsUnopened M.Meaning.functions D.state self.disk
            (are_registered M.Meaning.functions (M.functions self.macros)) half_limit e.number e.disk) }
        ensures given_back { IfErr result (λ e. e.macros ≡ self.macros) }
    {
        Store::open_with_seed(self.alloc, self.disk, self.macros, HALF_LIMIT, self.seed)
    }
}
