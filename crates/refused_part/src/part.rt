//! The part of a form for which the form was refused.
ghost use Rattle.std.specs.Prelude.{◌≡◌, ◌<◌, IfOk, IfSome};
ghost use Rattle.form_eval.specs.Laws.{MayEvaluate};
ghost use Rattle.refused_part.specs.Part.{IsRefusedPart};
ghost use Rattle.refused_part.specs.Search.{MayTry, IsPlacedIn, IsFoundPart};

use crate::filling::items_inside;
use crate::placed::{PlacedPart, item_of};
use crate::trials::Trials;
use form_eval::ReadForm;
use lisp_object::Datum;
use plist_state::World;
use std::alloc::{AllocError, Global};
use user_macros::Meaning;

/// A form has at most so many levels of parts.
const MOST_LEVELS: usize = 101;

/// So many trials are made of a form at most.
const MOST_TRIALS: u64 = 200;

/// The forms of all these trials have at most so many parts.
const MOST_TRIED: u64 = 500_000;

/// Of a list with more items than these not each is tried.
const FEW: usize = 6;

/// The part of a form for which the form was refused with this number. The world is as it was.
///
/// It costs up to 200 evaluations of the form, and fewer of one with more than 2,500 parts. Where they do not lead to its end, the part is
/// the innermost one to which they led.
///
/// # Errors
/// Memory runs out.
pub fn refused_part<'a, M: Meaning>(
    alloc: Global,
    world: &mut World,
    macros: &M,
    form: &'a ReadForm,
    number: u16,
) -> Result<&'a Datum, AllocError>
    requires form { MayEvaluate world.old.0.packages form.now }
    ensures part { IfOk result (λ part. IsRefusedPart M.functions.names world.old.0 number
        form.now.datum part.now) }
    ensures may { IfOk result (λ part. MayTry world.old.0.packages part.now) }
    ensures same { world.new ≡ world.old }
{
    let trials = Trials {
        alloc,
        macros,
        form: &form.datum,
        number,
    };
    trials.innermost(world)
}

// How many trials are made of a form of this size.
fn trials_of(size: u64) -> u64 {
    MOST_TRIED / size.max(MOST_TRIED / MOST_TRIALS)
}

impl<'a, 'm, M: Meaning> Trials<'a, 'm, M> {
    // Goes inwards, from the form on.
    fn innermost(&self, world: &mut World) -> Result<&'a Datum, AllocError>
        requires form { MayTry world.old.0.packages self.now.form.now }
        ensures part { IfOk result (λ part. IsRefusedPart M.functions.names world.old.0 self.now.number
            self.now.form.now part.now) }
        ensures may { IfOk result (λ part. MayTry world.old.0.packages part.now) }
        ensures same { world.new ≡ world.old }
    {
        let mut left = trials_of(self.form.size());
        let mut found = PlacedPart {
            place: Vec::new(self.alloc),
            part: self.form,
        };
        'levels: for _ in 0..MOST_LEVELS {
            match self.refused_near(world, &mut left, &found)? {
                Some(inner) => found = inner,
                None => break,
            }
        }
        Ok(found.part)
    }

    // The argument of a part that is refused, or else the item of one that is not evaluated itself, as of a place or of a clause.
    fn refused_near(
        &self,
        world: &mut World,
        left: &mut u64,
        part: &PlacedPart<'a>,
    ) -> Result<Option<PlacedPart<'a>>, AllocError>
        requires form { MayTry world.old.0.packages self.now.form.now }
        requires there { IsPlacedIn self.now.form.now part.now }
        ensures found { IfOk result (λ found. IfSome found
            (IsFoundPart M.functions.names world.old.0 self.now.number self.now.form.now)) }
        ensures same { world.new ≡ world.old }
    {
        let (first, end) = self.range_of(world, left, part)?;
        if let Some(found) = self.refused_among(world, left, part, (first, end))? {
            return Ok(Some(found));
        }
        for i in first..end {
            let item = item_of(self.alloc, part, i)?;
            if let Some(found) = self.refused_within(world, left, &item)? {
                return Ok(Some(found));
            }
        }
        Ok(None)
    }

    // The item of a part that is refused, if the part is not evaluated itself.
    fn refused_within(
        &self,
        world: &mut World,
        left: &mut u64,
        part: &PlacedPart<'a>,
    ) -> Result<Option<PlacedPart<'a>>, AllocError>
        requires form { MayTry world.old.0.packages self.now.form.now }
        requires there { IsPlacedIn self.now.form.now part.now }
        ensures found { IfOk result (λ found. IfSome found
            (IsFoundPart M.functions.names world.old.0 self.now.number self.now.form.now)) }
        ensures same { world.new ≡ world.old }
    {
        if items_inside(part.part).is_empty() || self.is_reached(world, left, part)? {
            return Ok(None);
        }
        let range = self.range_of(world, left, part)?;
        self.refused_among(world, left, part, range)
    }

    // The first of these items of a part that is refused.
    fn refused_among(
        &self,
        world: &mut World,
        left: &mut u64,
        part: &PlacedPart<'a>,
        range: (usize, usize),
    ) -> Result<Option<PlacedPart<'a>>, AllocError>
        requires form { MayTry world.old.0.packages self.now.form.now }
        requires there { IsPlacedIn self.now.form.now part.now }
        ensures found { IfOk result (λ found. IfSome found
            (IsFoundPart M.functions.names world.old.0 self.now.number self.now.form.now)) }
        ensures same { world.new ≡ world.old }
    {
        for i in range.0..range.1 {
            let item = item_of(self.alloc, part, i)?;
            if self.is_refused_at(world, left, &item)? {
                return Ok(Some(item));
            }
        }
        Ok(None)
    }

    // From where to where the items are that are tried: all, or of many the last one that is reached.
    fn range_of(
        &self,
        world: &mut World,
        left: &mut u64,
        part: &PlacedPart<'a>,
    ) -> Result<(usize, usize), AllocError>
        requires form { MayTry world.old.0.packages self.now.form.now }
        requires there { IsPlacedIn self.now.form.now part.now }
        ensures same { world.new ≡ world.old }
    {
        let count = items_inside(part.part).len();
        if count <= FEW {
            return Ok((0, count));
        }
        let last = self.last_reached(world, left, part, count)?;
        Ok((last, last + 1))
    }

    // The last of the items that is reached, if those that are come before those that are not.
    fn last_reached(
        &self,
        world: &mut World,
        left: &mut u64,
        part: &PlacedPart<'a>,
        count: usize,
    ) -> Result<usize, AllocError>
        requires form { MayTry world.old.0.packages self.now.form.now }
        requires there { IsPlacedIn self.now.form.now part.now }
        requires some { 0 < count }
        ensures below { IfOk result (λ last. last < count) }
        ensures same { world.new ≡ world.old }
    {
        let (mut low, mut high) = (0, count);
        'halves: while high - low > 1 {
            let middle = low + (high - low) / 2;
            let item = item_of(self.alloc, part, middle)?;
            if self.is_begun(world, left, &item)? {
                low = middle;
            } else {
                high = middle;
            }
        }
        Ok(low)
    }

    // Whether a part is reached, or its first or its second item.
    fn is_begun(
        &self,
        world: &mut World,
        left: &mut u64,
        part: &PlacedPart<'a>,
    ) -> Result<bool, AllocError>
        requires form { MayTry world.old.0.packages self.now.form.now }
        requires there { IsPlacedIn self.now.form.now part.now }
        ensures same { world.new ≡ world.old }
    {
        if self.is_reached(world, left, part)? {
            return Ok(true);
        }
        for i in 0..items_inside(part.part).len().min(2) {
            let item = item_of(self.alloc, part, i)?;
            if self.is_reached(world, left, &item)? {
                return Ok(true);
            }
        }
        Ok(false)
    }
}
