//! How long the lists are.

/// How long each of the lists of `PackageSets` is: all that is needed to go back to them.
#[derive(Clone, Copy, Debug, PartialEq, Eq)]
pub struct Sizes {
    pub names: u32,
    pub packages: u32,
    pub symbols: u32,
    pub imports: u32,
    pub externals: u32,
    pub uses: u32,
}
