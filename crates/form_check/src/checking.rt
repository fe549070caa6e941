//! Goes through a text form by form.
ghost use Rattle.std.specs.Prelude.{◌≡◌, ◌≤◌, drop, length, IfOk};
ghost use Rattle.package_table.specs.Table.{IsPackage};
ghost use Rattle.form_check.specs.Checking.{check_of_text, setting_under, after_line};

use crate::begin::{Beginning, Under, beginning_of};
use std::alloc::{AllocError, Global};
use user_macros::MacroFunctions;

/// A form that cannot be read.
#[derive(Clone, Copy, Debug, PartialEq, Eq)]
pub struct Unreadable {
    /// The number of its refusal.
    pub number: u16,
    /// How many forms come before it, those that cannot be read among them.
    pub forms: usize,
    /// How many bytes come before it.
    pub start: usize,
    /// How many bytes come before the place where it is refused.
    pub at: usize,
}

/// What is found in a text.
#[derive(Debug, Drop)]
pub struct Checked {
    /// How many forms there are, those that cannot be read among them.
    pub forms: usize,
    /// Those that cannot be read, in their order.
    pub unreadable: Vec<Unreadable>,
}

/// The forms of a text that cannot be read. After one of them the next form begins after the end of the line in which it was refused,
/// as at a terminal.
pub fn check<M: MacroFunctions>(
    alloc: Global,
    under: &Under<'_>,
    macros: &M,
    text: &[u8],
) -> Result<Checked, AllocError>
    requires answers { M.answers macros.now }
    requires lowest_base { 2 ≤ under.now.base }
    requires highest_base { under.now.base ≤ 36 }
    requires current { IsPackage under.now.packages.now.0 under.now.current.now }
    ensures { IfOk result (λ found. (found.forms, found.unreadable.items)
        ≡ check_of_text (setting_under under.now.readtable.now under.now.base
        under.now.packages.now.0 under.now.current.now (M.functions macros.now)) text.now) }
{
    let mut found = Checked {
        forms: 0,
        unreadable: Vec::new(alloc),
    };
    let mut rest = text;
    'forms: for turn in 0..text.len() + 1 {
        let offset = text.len() - rest.len();
        match beginning_of(alloc, under, macros, rest)? {
            Beginning::Nothing => return Ok(found),
            Beginning::Form(next) => rest = &rest[next..],
            Beginning::Refused { number, start, at } => {
                found.unreadable.push(Unreadable {
                    number,
                    forms: turn,
                    start: offset + start,
                    at: offset + at,
                })?;
                rest = after_line(&rest[at..]);
            }
        }
        found.forms = turn + 1;
    }
    Ok(found)
}

// What comes after the first end of a line.
fn after_line(text: &[u8]) -> &[u8]
    ensures text { result.now ≡ after_line text.now }
    ensures within { length result.now ≤ length text.now }
{
    let mut rest = text;
    'bytes: while let Some((byte, more)) = rest.split_first() {
        if *byte == b'\n' {
            return more;
        }
        rest = more;
    }
    rest
}
