// The two files of a disk.
ghost use Rattle.std.specs.Prelude.{◌≡◌};
ghost use Rattle.disk_trait.specs.Half.{opposite_of};

/// One of the two files of a disk.
#[derive(Clone, Copy, Debug, PartialEq, Eq)]
pub enum Half {
    A,
    B,
}

impl Half {
    /// The half that is not this one.
    pub fn opposite(self) -> Half
        ensures { result ≡ opposite_of self }
    {
        match self {
            Half::A => Half::B,
            Half::B => Half::A,
        }
    }
}
