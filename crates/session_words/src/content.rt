// What of a world is exported.

/// What of a world is exported.
#[derive(Clone, Copy, Debug, PartialEq, Eq)]
pub enum Content {
    /// All of it.
    World,
    /// Packages and properties alone, in forms that other Lisps know.
    Data,
}
