//! What is kept, by names and by numbers. None of these calls takes memory.
ghost use Rattle.std.specs.Prelude.{◌≡◌, ◌<◌, length, get_or, position, bytes_eq, is_some};
ghost use Rattle.package_sets.specs.KeptSets.{import_of, name_at, pair_at, pair_eq, positions_of};
ghost use Rattle.package_sets.specs.Groups.{pair_of};
ghost use Rattle.package_sets.specs.InheritedNames.{TellsInherited};

use crate::{PackageSets, Pair};

/// The external symbol of a name in a package that another uses, if it was looked for to the end.
#[derive(Clone, Copy, Debug, PartialEq, Eq)]
pub enum Inherited {
    /// It is at this place of what is external.
    External(u32),
    /// There is none.
    Nothing,
    /// More packages have a symbol of that name external than are used.
    Unknown,
}

// Packages are made after those of the standard, of which names speak most.
const STANDARDIZED_PACKAGES: u32 = 3;

impl PackageSets {
    /// How many names of symbols there are.
    pub fn name_count(&self) -> u32
        ensures { result ≡ length self.now.names }
    {
        self.names.len()
    }

    /// How many packages there are.
    pub fn package_count(&self) -> u32
        ensures { result ≡ length self.now.packages }
    {
        self.packages.len()
    }

    /// How many symbols there are.
    pub fn symbol_count(&self) -> u32
        ensures { result ≡ length self.now.symbols }
    {
        self.symbols.len()
    }

    /// The number of a symbol's name.
    pub fn find_name(&self, name: &[u8]) -> Option<u32>
        ensures { result ≡ position (bytes_eq name.now) self.now.names }
    {
        self.names.find(name)
    }

    /// The number of the package of this name.
    pub fn find_package(&self, name: &[u8]) -> Option<u32>
        ensures { result ≡ position (bytes_eq name.now) self.now.packages }
    {
        self.packages.find_from_front(STANDARDIZED_PACKAGES, name)
    }

    /// The number of the symbol that is at home in `home` and has this name, both given by their numbers.
    pub fn find_symbol(&self, home: u32, name: u32) -> Option<u32>
        ensures { result ≡ position (pair_eq (home, name)) self.now.symbols }
    {
        self.symbols.find(home, name)
    }

    /// The number of the symbol that a package imports by this name, both given by their numbers.
    pub fn find_import(&self, owner: u32, name: u32) -> Option<u32>
        ensures { result ≡ import_of self.now owner name }
    {
        if self.imports.of(owner).is_empty() {
            return None;
        }
        match self.imports.find(owner, name) {
            Some(number) => Some(self.imported[number as usize]),
            None => None,
        }
    }

    /// Whether a package exports a symbol, both given by their numbers.
    pub fn is_external(&self, owner: u32, symbol: u32) -> bool
        ensures { result ≡ is_some (position (pair_eq (owner, symbol)) self.now.externals) }
    {
        self.externals.find(owner, symbol).is_some()
    }

    /// Whether a package uses another.
    pub fn is_used(&self, owner: u32, used: u32) -> bool
        ensures { result ≡ is_some (position (pair_eq (owner, used)) self.now.uses) }
    {
        self.uses.find(owner, used).is_some()
    }

    /// The name of a number.
    pub fn name(&self, number: u32) -> &[u8]
        requires { number < length self.now.names }
        ensures { result.now ≡ name_at self.now.names number }
    {
        self.names.at(number)
    }

    /// The name of the package of a number.
    pub fn package(&self, number: u32) -> &[u8]
        requires { number < length self.now.packages }
        ensures { result.now ≡ name_at self.now.packages number }
    {
        self.packages.at(number)
    }

    /// The home and the name of the symbol of a number.
    pub fn symbol(&self, number: u32) -> Pair
        requires { number < length self.now.symbols }
        ensures { pair_of result ≡ pair_at self.now.symbols number }
    {
        self.symbols.at(number)
    }

    /// The package that has an import, and the name by which it has it.
    pub fn import_at(&self, number: u32) -> Pair
        requires { number < length self.now.imports }
        ensures { pair_of result ≡ pair_at self.now.imports number }
    {
        self.imports.at(number)
    }

    /// The symbol of an import.
    pub fn imported_at(&self, number: u32) -> u32
        requires { number < length self.now.imports }
        ensures { result ≡ get_or self.now.imported number 0 }
    {
        self.imported[number as usize]
    }

    /// A package and a symbol that it exports.
    pub fn external_at(&self, number: u32) -> Pair
        requires { number < length self.now.externals }
        ensures { pair_of result ≡ pair_at self.now.externals number }
    {
        self.externals.at(number)
    }

    /// A package and one that it uses.
    pub fn use_at(&self, number: u32) -> Pair
        requires { number < length self.now.uses }
        ensures { pair_of result ≡ pair_at self.now.uses number }
    {
        self.uses.at(number)
    }

    /// The numbers of the symbols that are at home in a package, rising.
    pub fn own(&self, home: u32) -> &[u32]
        ensures { result.now ≡ positions_of home self.now.symbols }
    {
        self.symbols.of(home)
    }

    /// The numbers of the imports of a package, rising.
    pub fn imports_of(&self, owner: u32) -> &[u32]
        ensures { result.now ≡ positions_of owner self.now.imports }
    {
        self.imports.of(owner)
    }

    /// The numbers of what is external in a package, rising.
    pub fn externals_of(&self, owner: u32) -> &[u32]
        ensures { result.now ≡ positions_of owner self.now.externals }
    {
        self.externals.of(owner)
    }

    /// The numbers of the uses of a package, rising.
    pub fn uses_of(&self, owner: u32) -> &[u32]
        ensures { result.now ≡ positions_of owner self.now.uses }
    {
        self.uses.of(owner)
    }

    /// An external symbol of this name in a package that `owner` uses. It looks at what is external by this name, at
    /// no more places than `owner` uses packages.
    pub fn find_inherited(&self, owner: u32, name: u32) -> Inherited
        ensures { TellsInherited self.now owner name result }
    {
        let mut last = self.chains.last(name);
        for _ in self.uses.of(owner) {
            if last == 0 {
                return Inherited::Nothing;
            }
            let place = last - 1;
            if self.is_used(owner, self.externals.at(place).first) {
                return Inherited::External(place);
            }
            last = self.chains.before(place);
        }
        Inherited::Unknown
    }
}
