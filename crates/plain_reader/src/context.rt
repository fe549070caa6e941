//! What reading is handed.
ghost use Rattle.std.specs.Prelude.{◌≡◌, ◌≤◌, true, false, Some, refl};
ghost use Rattle.readtable_core.specs.declared.table.Case.TheVariants.{Upcase};
ghost use Rattle.readtable_core.specs.Tables.{entry_at};
ghost use Rattle.readtable_core.specs.Names.{std_list, std_quote};
ghost use Rattle.readtable_core.specs.Sound.{IsReadtable};
ghost use Rattle.package_table.specs.Table.{IsPackage};
ghost use Rattle.lisp_reading.specs.Reading.{is_whitespace};

use lisp_reading::Limits;
use package_table::{OnePackage, Packages};
use readtable_core::Readtable;
use std::alloc::Global;

/// The limits, the readtable in force, where a parenthesis begins a list, the base of numbers, which is 2 to 36, the packages and
/// the current one, which is one of them, by its name and as it was found. The tests say whether the base is 10 and letters become
/// upper-case ones, and whether a quote has its standard function.
#[derive(Drop)]
pub(crate) struct PlainContext<'a> {
    pub alloc: Global,
    pub limits: Limits,
    pub readtable: &'a Readtable,
    pub base: u8,
    pub packages: &'a Packages,
    pub current: &'a [u8],
    pub current_package: OnePackage<'a>,
    pub standard: bool,
    pub quotes: bool,
    ghost lowest_base: { 2 ≤ base },
    ghost highest_base: { base ≤ 36 },
    ghost known: { IsPackage packages.now.0 current.now },
    ghost same: { current_package ≡ (packages.now.0, current.now) },
    ghost sound: { IsReadtable readtable.now },
    ghost numbers: { standard ≡ true → base ≡ 10 },
    ghost case: { standard ≡ true → readtable.now.letters ≡ Upcase },
    ghost lists: { (entry_at readtable.now 40).function ≡ Some std_list },
    ghost closes: { is_whitespace readtable.now 41 ≡ false },
    ghost quoting: { quotes ≡ true → (entry_at readtable.now 39).function ≡ Some std_quote },
}
