//! What callers ask of the packages. Package names are full here: a nickname names none. No question takes memory.
ghost use Rattle.std.specs.Prelude.{◌≡◌, ◌↔◌, IfSome, IsTrue, Some, is_some, nat_lt, option_map};
ghost use Rattle.std.specs.FinMap as finite;
ghost use Rattle.package_table.specs.Table.{Name, IsExternal, IsPresent, Uses, symbol_count};
ghost use Rattle.package_table.specs.Numbers.{names_of_symbol, number_of, table_now, IsFoundNumber};
ghost use Rattle.package_table.specs.Changes.{is_full_of_packages, is_full_of_symbols};
ghost use Rattle.package_table.specs.Lookup.{is_external, is_present, is_symbol, is_used};

use crate::Packages;
use crate::limits::MAX_SYMBOLS;
use crate::look_ups::{
    external_home, found_by_names, has_package, is_full_of_packages, is_present, is_symbol,
    is_used, number_of, symbol_of,
};

impl Packages {
    /// Whether a package has the name `owner`.
    pub fn has_package(&self, owner: &[u8]) -> bool
        ensures { result ≡ finite.contains_key self.now.0 owner.now }
    {
        has_package(&self.sets, owner)
    }

    /// Whether there is a symbol of the home `home` and this name. `import` asks for it.
    pub fn is_symbol(&self, home: &[u8], name: &[u8]) -> bool
        ensures value { result ≡ is_symbol self.now.0 home.now name.now }
        ensures present { IsTrue result ↔ IsPresent self.now.0 home.now name.now home.now }
    {
        is_symbol(&self.sets, home, name)
    }

    /// The number of the symbol of this home and name, if there is one. Each symbol has one number, which is below
    /// how many there are, and two symbols have two (`numbering`).
    pub fn number_of(&self, home: &[u8], name: &[u8]) -> Option<u32>
        ensures { result ≡ number_of (table_now self.now) home.now name.now }
    {
        number_of(&self.sets, home, name)
    }

    /// The number of the symbol that a package finds by this name, if it finds one. That None comes only where it finds
    /// none is said by no clause.
    pub fn found(&self, owner: &[u8], name: &[u8]) -> Option<u32>
        ensures { IfSome result (IsFoundNumber (table_now self.now) owner.now name.now) }
    {
        found_by_names(&self.sets, owner, name)
    }

    /// The home and the name of the symbol of this number, as the packages have them: `number_of` turned round. There
    /// is one for each number below how many symbols there are.
    pub fn symbol_of(&self, number: u32) -> Option<(&[u8], &[u8])>
        ensures symbol { (h n : Name) → (option_map names_of_symbol result ≡ Some (h, n))
            ↔ (number_of (table_now self.now) h n ≡ Some number) }
        ensures there { is_some result ≡ nat_lt number (symbol_count self.now.0) }
    {
        symbol_of(&self.sets, number)
    }

    /// Whether there are 1,000 packages, so that `make` refuses one more.
    pub fn is_full_of_packages(&self) -> bool
        ensures { result ≡ is_full_of_packages self.now.0 }
    {
        is_full_of_packages(&self.sets)
    }

    /// Whether there are 1,000,000 symbols, so that `intern` refuses a new one.
    pub fn is_full_of_symbols(&self) -> bool
        ensures { result ≡ is_full_of_symbols self.now.0 }
    {
        self.sets.symbol_count() as u64 >= MAX_SYMBOLS
    }

    /// Whether a symbol is present in `owner` by `name` (standard 11.1.1.2.1). One that is inherited is not.
    pub fn is_present(&self, owner: &[u8], name: &[u8]) -> bool
        ensures { result ≡ is_present self.now.0 owner.now name.now }
    {
        is_present(&self.sets, owner, name)
    }

    /// Whether the symbol that is present in `owner` by `name` is external there (standard 11.1.1.2.1).
    pub fn is_external(&self, owner: &[u8], name: &[u8]) -> bool
        ensures value { result ≡ is_external self.now.0 owner.now name.now }
        ensures external { IsTrue result ↔ IsExternal self.now.0 owner.now name.now }
    {
        external_home(&self.sets, owner, name).is_some()
    }

    /// Whether `owner` uses `used` (standard 11.1.1.2.2).
    pub fn is_used(&self, owner: &[u8], used: &[u8]) -> bool
        ensures value { result ≡ is_used self.now.0 owner.now used.now }
        ensures uses { IsTrue result ↔ Uses self.now.0 owner.now used.now }
    {
        is_used(&self.sets, owner, used)
    }
}
