//! A part of a form with its place.
ghost use Rattle.std.specs.Prelude.{◌≡◌, ◌++◌, ◌∷◌, [], IfOk};
ghost use Rattle.lisp_object.specs.declared.datum.Datum.{Datum};
ghost use Rattle.refused_part.specs.Search.{IsPlacedIn};

use crate::filling::item_at;
use lisp_object::Datum;
use std::alloc::{AllocError, Global};

/// A part, and its place in the form.
#[derive(Drop)]
pub(crate) struct PlacedPart<'a> {
    pub(crate) place: Vec<usize>,
    pub(crate) part: &'a Datum,
}

/// The item of a part, with its place.
pub(crate) fn item_of<'a>(
    alloc: Global,
    part: &PlacedPart<'a>,
    index: usize,
) -> Result<PlacedPart<'a>, AllocError>
    ensures { IfOk result (λ item. (form : Datum) → IsPlacedIn form part.now → IsPlacedIn form item) }
{
    match item_at(part.part, index) {
        Some(item) => Ok(PlacedPart {
            place: longer(alloc, part.place.as_slice(), index)?,
            part: item,
        }),
        // each index is of an item
        None => Err(AllocError),
    }
}

// A place that goes one step on.
fn longer(alloc: Global, place: &[usize], index: usize) -> Result<Vec<usize>, AllocError>
    ensures { IfOk result (λ longer. longer.items ≡ place.now ++ index ∷ []) }
{
    let mut longer = Vec::from_slice(alloc, place)?;
    longer.push(index)?;
    Ok(longer)
}
