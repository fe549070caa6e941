//! Numbers, as they are written.
//! Where memory runs out, a part of what is to be added may be there.
ghost use Rattle.std.specs.Prelude.{◌≡◌, ◌++◌, [], ◌∷◌, codes, decimal, OnOk};
ghost use Rattle.store_reports.specs.Notations.{figure};
ghost use Rattle.store_reports.specs.Json.{json_number};
ghost use Rattle.store_reports.specs.declared.numbers.Notation.TheVariants as notations;

use crate::json::push_json_number;
use std::alloc::{AllocError, Global};

/// How figures and records are written.
#[derive(Clone, Copy, Debug, PartialEq, Eq)]
pub enum Notation {
    /// In lines of words.
    Lines,
    /// In objects of JSON.
    Json,
}

/// Adds a number in base 10. After an error, want of memory alone, a part may be added.
pub(crate) fn push_number(alloc: Global, text: &mut Vec<u8>, number: u64) -> Result<(), AllocError>
    ensures { OnOk result (text.new.items ≡ text.old.items ++ decimal number) }
{
    let digits = format!(in alloc; "{number}")?;
    text.extend_from_slice(digits.as_bytes())
}

/// Adds a name and a number: a line, or a member of an object that is not its first one. Where memory runs out, a part of it stands
/// there.
pub fn push_figure(
    alloc: Global,
    text: &mut Vec<u8>,
    notation: Notation,
    name: &[u8],
    number: u64,
) -> Result<(), AllocError>
    ensures { OnOk result (text.new.items ≡ text.old.items ++ figure notation name.now number) }
{
    match notation {
        Notation::Lines => push_line(alloc, text, name, number),
        Notation::Json => push_member(alloc, text, name, number),
    }
}

fn push_line(alloc: Global, text: &mut Vec<u8>, name: &[u8], number: u64) -> Result<(), AllocError>
    ensures { OnOk result (text.new.items ≡ text.old.items ++ figure notations.Lines name.now number) }
{
    text.extend_from_slice(name)?;
    text.push(b' ')?;
    push_number(alloc, text, number)?;
    text.push(b'\n')?;
    Ok(())
}

fn push_member(
    alloc: Global,
    text: &mut Vec<u8>,
    name: &[u8],
    number: u64,
) -> Result<(), AllocError>
    ensures { OnOk result (text.new.items ≡ text.old.items ++ figure notations.Json name.now number) }
{
    text.extend_from_slice(b",\"")?;
    text.extend_from_slice(name)?;
    text.extend_from_slice(b"\":")?;
    push_json_number(alloc, text, number)
}
