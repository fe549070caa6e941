//! What reading is handed.
ghost use Rattle.std.specs.Prelude.{◌≤◌};
ghost use Rattle.package_table.specs.Table.{IsPackage};

use lisp_reading::Limits;
use package_table::Packages;
use readtable_core::Readtable;
use std::alloc::Global;

/// The limits, the readtable in force, the base of numbers, which is 2 to 36, the packages and the current one, which is one of
/// them, and the functions of users.
#[derive(Drop)]
pub struct Context<'a, R> {
    pub alloc: Global,
    pub limits: Limits,
    pub readtable: &'a Readtable,
    pub base: u8,
    pub packages: &'a Packages,
    pub current: &'a [u8],
    pub macros: &'a R,
    ghost lowest_base: { 2 ≤ base },
    ghost highest_base: { base ≤ 36 },
    ghost known: { IsPackage packages.now.0 current.now },
}
