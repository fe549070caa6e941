//! The number of a symbol, under which its property list is kept.
ghost use Rattle.std.specs.Prelude.{◌≡◌, Some};
ghost use Rattle.package_table.specs.Numbers as numbers;
ghost use Rattle.package_table.specs.Numbers.{table_now};
ghost use Rattle.plist_state.specs.Views.{symbol_named};
ghost use Rattle.plist_state.specs.Sound.{IsSymbol};

use crate::BorrowedSymbol;
use package_table::Packages;

/// The number of a symbol that is there. Takes no memory.
pub(crate) fn number(packages: &Packages, symbol: BorrowedSymbol<'_>) -> u32
    requires { IsSymbol packages.now.0 (symbol_named symbol) }
    ensures { let s = symbol_named symbol.entry in
        numbers.number_of (table_now packages.now) s.0 s.1 ≡ Some result }
{
    packages.numbering();
    match packages.number_of(symbol.home, symbol.name) {
        Some(number) => number,
        None => unreachable!(),
    }
}
