// What became of a form, or of a snapshot.

use lisp_object::Datum;

/// What became of a form, or of a snapshot.
#[derive(PartialEq, Eq, Debug, Drop)]
pub enum Outcome {
    /// The form was accepted, with this value, and is logged where it wrote.
    Accepted(Datum),
    /// The snapshot was taken: the other half is in use.
    Snapshotted,
    /// It was refused, with the number of the refusal; nothing of it is left.
    Refused(u16),
}
