//! Property lists, given by borrow.
ghost use Rattle.std.specs.Prelude.{◌≡◌, ◌<◌, ◌==◌, true, All, Some, length, map};
ghost use Rattle.std.specs.List.{slice_get};
ghost use Rattle.lisp_object.specs.Datum.{is_proper};
ghost use Rattle.package_table.specs.Numbers.{table_now};
ghost use Rattle.plist_state.specs.Lists.{IsNumber, named_plist};
ghost use Rattle.plist_state.specs.Views.{numbered_property, property_of, items_in};

use crate::Property;
use package_table::Packages;
use property_rows::Row;
use std::marker::Model;

/// The property list of a symbol, as a world has it, the indicators in the order in which they were first set (standard 10.1).
/// No call takes memory.
#[derive(Drop)]
pub struct PropertyList<'a> {
    packages: &'a Packages,
    row: Option<&'a Row>,
}

impl<'a> Model for PropertyList<'a> {
    ghost use Rattle.plist_state.specs.Properties.{Plist, plist_code};

    ghost Value = { Plist };

    ghost coded = { plist_code };

    ghost use Rattle.plist_state.specs.PropertyListViews.{plist_in, IsPropertyList};

    ghost view = { plist_in };

    ghost invariant = { IsPropertyList };
}

impl<'a> PropertyList<'a> {
    pub(crate) fn new(packages: &'a Packages, row: Option<&'a Row>) -> PropertyList<'a>
        requires indicators { All (λ p. IsNumber (table_now packages.now) p.indicator) (items_in row) }
        requires values { All (λ p. is_proper p.value ≡ true) (items_in row) }
        ensures { result ≡ named_plist (table_now packages.now) (map numbered_property (items_in row.entry)) }
    {
        PropertyList { packages, row }
    }

    /// How many properties there are.
    pub fn len(&self) -> usize
        ensures { result ≡ length self.now }
    {
        match self.row {
            Some(row) => row.len(),
            None => 0,
        }
    }

    /// Whether the list has no property.
    pub fn is_empty(&self) -> bool
        ensures { result ≡ (length self.now == 0) }
    {
        self.len() == 0
    }

    /// The property at an index.
    pub fn at(&self, index: usize) -> Property<'a>
        requires { index < length self.now }
        ensures property { slice_get self.now index ≡ Some (property_of result) }
        ensures proper { is_proper result.value.now ≡ true }
    {
        let Some(row) = self.row else { unreachable!() };
        let Some((home, name)) = self.packages.symbol_of(row.indicator(index)) else {
            unreachable!()
        };
        Property {
            home,
            name,
            value: row.value(index),
        }
    }
}
