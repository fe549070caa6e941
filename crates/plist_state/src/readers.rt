//! The lists that a world gives, each sorted by bytes.
ghost use Rattle.std.specs.Prelude.{◌≡◌, ◌++◌, map, filter, is_some, IfOk, OnOk};
ghost use Rattle.std.specs.FinMap as finite;
ghost use Rattle.package_table.specs.Numbers.{table_now};
ghost use Rattle.package_table.specs.Readers.{own_names};
ghost use Rattle.plist_state.specs.Lists.{property_list_of, lists};
ghost use Rattle.plist_state.specs.Readers.{readtable_names, borrowed_symbols, symbols_with_properties};
ghost use Rattle.plist_state.specs.Views.{lists_of, readtables_of};

use crate::{World, rows};
use lisp_object::{Bytes, Items};
use package_table::Packages;
use property_rows::Row;
use readtable_core::Readtable;
use std::alloc::{AllocError, Global};
use std::collections::BTreeMap;

fn names(alloc: Global, tables: &BTreeMap<Vec<u8>, Readtable>) -> Result<Items<Bytes>, AllocError>
    ensures { IfOk result (λ names. names ≡ finite.keys (readtables_of tables.now)) }
{
    let mut names = Items::new(alloc);
    for name in tables.keys() {
        names.push(Bytes::from_slice(alloc, name.as_slice())?)?;
    }
    Ok(names)
}

// Whether the symbol of this home and name has properties.
fn has_properties(packages: &Packages, rows: &Vec<Row>, home: &[u8], name: &[u8]) -> bool
    ensures { result
        ≡ is_some (property_list_of (table_now packages.now) (lists_of rows.now) (home.now, name.now)) }
{
    match packages.number_of(home, name) {
        Some(number) => rows::count(rows, number) > 0,
        None => false,
    }
}

// Adds the symbols of a home that have properties. The home is a package, so that only memory can run out.
fn push_owners<'a>(
    alloc: Global,
    packages: &'a Packages,
    rows: &Vec<Row>,
    home: &'a [u8],
    symbols: &mut Vec<(&'a [u8], &'a [u8])>,
) -> Result<(), AllocError>
    ensures { OnOk result (borrowed_symbols symbols.new.items ≡ borrowed_symbols symbols.old.items
        ++ filter (λ x. is_some (property_list_of (table_now packages.now) (lists_of rows.now) x)) (map (λ n. (home.now, n)) (own_names packages.now.0 home.now))) }
{
    let Ok(names) = packages.own_names(alloc, home) else {
        return Err(AllocError);
    };
    for name in names {
        if has_properties(packages, rows, home, name) {
            symbols.push((home, name))?;
        }
    }
    Ok(())
}

// The symbols that have properties.
fn owners<'a>(
    alloc: Global,
    packages: &'a Packages,
    rows: &Vec<Row>,
) -> Result<Vec<(&'a [u8], &'a [u8])>, AllocError>
    ensures { IfOk result (λ symbols. borrowed_symbols symbols.items
        ≡ finite.keys (lists (table_now packages.now) (lists_of rows.now))) }
{
    let mut symbols = Vec::new(alloc);
    for home in packages.package_names(alloc)? {
        push_owners(alloc, packages, rows, home, &mut symbols)?;
    }
    Ok(symbols)
}

// The homes and the names of symbols.
fn copies(alloc: Global, symbols: &[(&[u8], &[u8])]) -> Result<Items<(Bytes, Bytes)>, AllocError>
    ensures { IfOk result (λ copies. copies ≡ borrowed_symbols symbols.now) }
{
    let mut copies = Items::new(alloc);
    for (home, name) in symbols {
        let home = Bytes::from_slice(alloc, home)?;
        let name = Bytes::from_slice(alloc, name)?;
        copies.push((home, name))?;
    }
    Ok(copies)
}

impl World {
    /// The names of the readtables, sorted by their bytes.
    pub fn readtable_names(&self, alloc: Global) -> Result<Items<Bytes>, AllocError>
        ensures { IfOk result (λ names. names ≡ readtable_names self.now.0) }
    {
        names(alloc, &self.stored.readtables)
    }

    /// The symbols that have properties, each by its home and its name, sorted by the bytes of these.
    pub fn with_properties(&self, alloc: Global) -> Result<Items<(Bytes, Bytes)>, AllocError>
        ensures { IfOk result (λ symbols. symbols ≡ symbols_with_properties self.now.0) }
    {
        copies(alloc, self.owners(alloc)?.as_slice())
    }

    /// The same symbols in the same order, each as the world has its home and its name: no name is copied.
    pub fn owners(&self, alloc: Global) -> Result<Vec<(&[u8], &[u8])>, AllocError>
        ensures { IfOk result
            (λ symbols. borrowed_symbols symbols.items ≡ symbols_with_properties self.now.0) }
    {
        owners(alloc, &self.packages, &self.stored.properties)
    }
}
