//! The name of an operator that is near to another name.
ghost use Rattle.std.specs.Prelude.{◌≡◌, map, IfOk};
ghost use Rattle.std.specs.Option.{option_map};
ghost use Rattle.refused_part.specs.NearNames.{first_near, is_near};

use std::alloc::{AllocError, Global};
use strsim::generic_damerau_levenshtein;

/// The first of these names that is near to a name by at most so many edits.
pub(crate) fn first_near(
    alloc: Global,
    names: &'static [&'static [u8]],
    name: &[u8],
    most: usize,
) -> Result<Option<&'static [u8]>, AllocError>
    ensures { IfOk result (λ near. option_map (λ known. known.now) near
        ≡ first_near most name.now (map (λ known. known.now) names.now)) }
{
    'names: for known in names {
        if is_near(alloc, name, known, most)? {
            return Ok(Some(*known));
        }
    }
    Ok(None)
}

// Whether two names are near by at most so many edits.
fn is_near(alloc: Global, name: &[u8], known: &[u8], most: usize) -> Result<bool, AllocError>
    ensures { IfOk result (λ near. near ≡ is_near most name.now known.now) }
{
    let ([first, ..], [other, ..]) = (name, known) else {
        return Ok(false);
    };
    if *first != *other {
        return Ok(false);
    }
    let edits = generic_damerau_levenshtein(alloc, name, known)?;
    Ok(edits <= most)
}
