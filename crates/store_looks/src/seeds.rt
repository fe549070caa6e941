// Where seeds come from.
ghost use Rattle.std.specs.Prelude.{⊤, IfErr};

use plist_state::Seed;
use std::io;
use std::random::RandomSource;

/// What gives seeds that nobody can know: the system.
pub trait Seeds {
    // it may have no random bytes
    ghost lacks: { Self → Type 0 };

    /// A seed that nobody can know.
    ///
    /// # Errors
    ///
    /// Why there is none.
    fn seed(&self) -> io::Result<Seed>
        ensures { IfErr result (λ _. lacks self.now) };
}

impl Seeds for HostRuntime {
    ghost lacks = { λ host. ⊤ };

    fn seed(&self) -> io::Result<Seed> {
        Seed::draw(self)
    }
}
