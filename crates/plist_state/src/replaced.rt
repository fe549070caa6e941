//! What a world kept before another was put in its place.
use crate::note::Note;
use crate::sizes::ListSizes;
use crate::stored::Stored;
use package_table::Packages;

/// What a world kept when another was put in its place: its packages, what it had besides them, the notes under its marks,
/// and the sizes of its long lists.
#[derive(Drop)]
pub(crate) struct Replaced {
    pub(crate) packages: Packages,
    pub(crate) stored: Stored,
    pub(crate) marks: Vec<Vec<Note>>,
    pub(crate) sizes: ListSizes,
}
