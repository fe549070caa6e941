//! Properties by the names by which a package finds the symbol and the indicator.
ghost use Rattle.std.specs.Prelude.{◌≡◌, true, false, Some, IfOk, IfSome, OnErr};
ghost use Rattle.std.specs.Option.{option_map};
ghost use Rattle.lisp_object.specs.Datum.{object_of, is_proper};
ghost use Rattle.package_table.specs.Lookup.{home_by_name};
ghost use Rattle.package_table.specs.Table.{Name};
ghost use Rattle.plist_state.specs.Found.{GetsFound, PutsFound};
ghost use Rattle.plist_state.specs.Sound.{IsValue};

use crate::{World, rows, sizes, stored};
use lisp_object::Datum;
use std::alloc::AllocError;

impl World {
    /// The value beside an indicator of a symbol, as `get_at` gives it, by the names by which a package finds both, in one look-up
    /// each: `Some(None)` where there is none. Where it finds none by one of them, `None`. Takes no memory.
    pub fn get_found(
        &self,
        current: &[u8],
        symbol: &[u8],
        indicator: &[u8],
    ) -> Option<Option<&Datum>>
        ensures value { IfSome result (λ value. GetsFound self.now.0 current.now symbol.now indicator.now
            (option_map (λ d. object_of d.now) value)) }
        ensures proper { IfSome result (λ value. IfSome value (λ d. is_proper d.now ≡ true)) }
    {
        self.packages.numbering();
        let Some(owner) = self.packages.found(current, symbol) else {
            return None;
        };
        let Some(under) = self.packages.found(current, indicator) else {
            return None;
        };
        let stored = &self.stored;
        Some(rows::value(&stored.properties, &stored.indexes, owner, under))
    }

    /// Sets the value beside an indicator of a symbol, as `put_at` does, by the names by which a package finds both, in one look-up
    /// each. Where it finds none by one of them, nothing is done, and the value is let go. Gives whether it was set. After out of
    /// memory nothing has changed.
    pub fn put_found(
        &mut self,
        current: &[u8],
        symbol: &[u8],
        indicator: &[u8],
        value: Datum,
    ) -> Result<bool, AllocError>
        requires proper { is_proper value ≡ true }
        requires value { (h i : Name) → home_by_name self.old.0.packages current.now symbol.now ≡ Some h
            → home_by_name self.old.0.packages current.now indicator.now ≡ Some i
            → IsValue self.old.0.packages (object_of value) }
        ensures put { IfOk result (λ was_put. was_put ≡ true
            → PutsFound self.old self.new current.now symbol.now indicator.now (object_of value)) }
        ensures other { IfOk result (λ was_put. was_put ≡ false → self.new ≡ self.old) }
        ensures err { OnErr result (self.new ≡ self.old) }
    {
        self.packages.numbering();
        let Some(owner) = self.packages.found(current, symbol) else {
            return Ok(false);
        };
        let Some(place) = self.packages.found(current, indicator) else {
            return Ok(false);
        };
        sizes::forget(&mut self.sizes, owner, place);
        stored::put(
            self.alloc,
            &mut self.stored,
            &mut self.marks,
            owner,
            place,
            value,
        )?;
        Ok(true)
    }
}
