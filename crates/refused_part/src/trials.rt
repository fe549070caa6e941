//! What is tried with a form that was refused.
ghost use Rattle.std.specs.Prelude.{◌≡◌, true, IfOk};
ghost use Rattle.lisp_object.specs.Datum.{object_of};
ghost use Rattle.lisp_object.specs.declared.refusal.TheConstants.{ARGUMENT_COUNT, NOT_A_FORM};
ghost use Rattle.refused_part.specs.Part.{is_evaluated, is_refused_at, is_refused_first, is_refused_form};
ghost use Rattle.refused_part.specs.PartPlaces.{both, no_form, quote_of_none, with_part};
ghost use Rattle.refused_part.specs.Search.{MayTry, IsPlacedIn};

use crate::filling::filled;
use crate::marks::{both, no_form, quote_of_none};
use crate::placed::PlacedPart;
use crate::trial::is_refused_form;
use lisp_object::Datum;
use lisp_object::refusal::{ARGUMENT_COUNT, NOT_A_FORM};
use plist_state::World;
use std::alloc::{AllocError, Global};
use user_macros::Meaning;

/// What is tried with a form that was refused with this number.
#[derive(Drop)]
pub(crate) struct Trials<'a, 'm, M> {
    pub(crate) alloc: Global,
    pub(crate) macros: &'m M,
    pub(crate) form: &'a Datum,
    pub(crate) number: u16,
}

impl<'a, 'm, M: Meaning> Trials<'a, 'm, M> {
    /// Whether it is known that the evaluation of the form comes to this place: the form has the number of what is refused there.
    pub(crate) fn is_reached(
        &self,
        world: &mut World,
        left: &mut u64,
        part: &PlacedPart<'a>,
    ) -> Result<bool, AllocError>
        requires form { MayTry world.old.0.packages self.now.form.now }
        requires there { IsPlacedIn self.now.form.now part.now }
        ensures same { world.new ≡ world.old }
    {
        // not the number that the form has
        if self.number == NOT_A_FORM {
            self.has_number_of_quote(world, left, part)
        } else {
            self.has_number_of_no_form(world, left, part)
        }
    }

    /// Whether it is known that the part at a place is evaluated, and refused with the number of the form.
    pub(crate) fn is_refused_at(
        &self,
        world: &mut World,
        left: &mut u64,
        part: &PlacedPart<'a>,
    ) -> Result<bool, AllocError>
        requires form { MayTry world.old.0.packages self.now.form.now }
        requires there { IsPlacedIn self.now.form.now part.now }
        ensures tells { IfOk result (λ refused. refused ≡ true
            → is_refused_at M.functions.names world.old.0 self.now.number (object_of self.now.form.now)
            part.now.place.items (object_of part.now.part.now) ≡ true) }
        ensures same { world.new ≡ world.old }
    {
        if is_constant(part.part) || !self.is_refused_first(world, left, part)? {
            return Ok(false);
        }
        self.is_evaluated(world, left, part)
    }

    // Whether it is known that the form keeps its number where something that is refused follows the part.
    fn is_refused_first(
        &self,
        world: &mut World,
        left: &mut u64,
        part: &PlacedPart<'a>,
    ) -> Result<bool, AllocError>
        requires form { MayTry world.old.0.packages self.now.form.now }
        requires there { IsPlacedIn self.now.form.now part.now }
        ensures tells { IfOk result (λ refused. refused ≡ true
            → is_refused_first M.functions.names world.old.0 self.now.number (object_of self.now.form.now)
            part.now.place.items (object_of part.now.part.now) ≡ true) }
        ensures same { world.new ≡ world.old }
    {
        world.soundness();
        let other = no_form(self.alloc)?;
        if !self.is_refused_before(world, left, part, other)? {
            return Ok(false);
        }
        let other = quote_of_none(self.alloc)?;
        self.is_refused_before(world, left, part, other)
    }

    // Whether it is known that the form keeps its number where this follows the part.
    fn is_refused_before(
        &self,
        world: &mut World,
        left: &mut u64,
        part: &PlacedPart<'a>,
        other: Datum,
    ) -> Result<bool, AllocError>
        requires form { MayTry world.old.0.packages self.now.form.now }
        requires there { IsPlacedIn self.now.form.now part.now }
        requires other { MayTry world.old.0.packages other }
        ensures tells { IfOk result (λ refused. refused ≡ true
            → is_refused_form M.functions.names world.old.0 self.now.number
            (with_part part.now.place.items (both (object_of part.now.part.now) (object_of other))
            (object_of self.now.form.now)) ≡ true) }
        ensures same { world.new ≡ world.old }
    {
        world.soundness();
        let other = both(self.alloc, part.part, other)?;
        self.is_refused_with(world, left, part, &other, self.number)
    }

    // Whether it is known that the form has the number of whatever is refused in this place.
    fn is_evaluated(
        &self,
        world: &mut World,
        left: &mut u64,
        part: &PlacedPart<'a>,
    ) -> Result<bool, AllocError>
        requires form { MayTry world.old.0.packages self.now.form.now }
        requires there { IsPlacedIn self.now.form.now part.now }
        ensures tells { IfOk result (λ evaluated. evaluated ≡ true
            → is_evaluated M.functions.names world.old.0
            (object_of self.now.form.now) part.now.place.items ≡ true) }
        ensures same { world.new ≡ world.old }
    {
        if !self.has_number_of_no_form(world, left, part)? {
            return Ok(false);
        }
        self.has_number_of_quote(world, left, part)
    }

    // Whether it is known that the form has the number of a symbol without a home in this place.
    fn has_number_of_no_form(
        &self,
        world: &mut World,
        left: &mut u64,
        part: &PlacedPart<'a>,
    ) -> Result<bool, AllocError>
        requires form { MayTry world.old.0.packages self.now.form.now }
        requires there { IsPlacedIn self.now.form.now part.now }
        ensures tells { IfOk result (λ refused. refused ≡ true
            → is_refused_form M.functions.names world.old.0 NOT_A_FORM
            (with_part part.now.place.items no_form (object_of self.now.form.now)) ≡ true) }
        ensures same { world.new ≡ world.old }
    {
        world.soundness();
        let other = no_form(self.alloc)?;
        self.is_refused_with(world, left, part, &other, NOT_A_FORM)
    }

    // Whether it is known that the form has the number of QUOTE of nothing in this place.
    fn has_number_of_quote(
        &self,
        world: &mut World,
        left: &mut u64,
        part: &PlacedPart<'a>,
    ) -> Result<bool, AllocError>
        requires form { MayTry world.old.0.packages self.now.form.now }
        requires there { IsPlacedIn self.now.form.now part.now }
        ensures tells { IfOk result (λ refused. refused ≡ true
            → is_refused_form M.functions.names world.old.0 ARGUMENT_COUNT
            (with_part part.now.place.items quote_of_none (object_of self.now.form.now)) ≡ true) }
        ensures same { world.new ≡ world.old }
    {
        world.soundness();
        let other = quote_of_none(self.alloc)?;
        self.is_refused_with(world, left, part, &other, ARGUMENT_COUNT)
    }

    // Whether it is known that the form, with this in a place, is refused with its number: if a trial is left.
    fn is_refused_with(
        &self,
        world: &mut World,
        left: &mut u64,
        part: &PlacedPart<'a>,
        other: &Datum,
        number: u16,
    ) -> Result<bool, AllocError>
        requires form { MayTry world.old.0.packages self.now.form.now }
        requires there { IsPlacedIn self.now.form.now part.now }
        requires other { MayTry world.old.0.packages other.now }
        ensures tells { IfOk result (λ refused. refused ≡ true
            → is_refused_form M.functions.names world.old.0 number
            (with_part part.now.place.items (object_of other.now) (object_of self.now.form.now)) ≡ true) }
        ensures same { world.new ≡ world.old }
    {
        if *left == 0 {
            return Ok(false);
        }
        *left -= 1;
        let form = filled(self.alloc, self.form, part.place.as_slice(), other)?;
        is_refused_form(self.alloc, world, self.macros, form, number)
    }
}

// Whether it is its own value wherever it is evaluated.
fn is_constant(datum: &Datum) -> bool {
    match datum {
        Datum::Integer(_) | Datum::Rational(_) | Datum::Char(_) => true,
        Datum::Text(_) | Datum::Vector(_) => true,
        _ => false,
    }
}
