//! How numbers, characters and texts are written: the same in every package.
//! After an error, want of memory alone, a part may be written.
ghost use Rattle.std.specs.Prelude.{◌≡◌, ◌++◌, OnOk};
ghost use Rattle.std.specs.Fmt.{signed_decimal};
ghost use Rattle.canon_printer.specs.Written.{printed_ratio, printed_character, printed_text};
ghost use Rattle.canon_printer.specs.Written.{AddsText};

use crate::names::write_escaped;
use lisp_object::Ratio;
use std::alloc::AllocError;

/// Writes an integer in decimal (standard 22.1.3.1.1).
pub(crate) fn write_integer(text: &mut Vec<u8>, n: i128) -> Result<(), AllocError>
    ensures { OnOk result (AddsText text.old text.new (signed_decimal n)) }
{
    let digits = n.to_string(*text.allocator())?;
    text.extend_from_slice(digits.as_bytes())
}

/// Writes a ratio, its two parts in decimal (standard 22.1.3.1.2).
pub(crate) fn write_ratio(text: &mut Vec<u8>, ratio: Ratio) -> Result<(), AllocError>
    ensures { OnOk result (AddsText text.old text.new (printed_ratio ratio.0 ratio.1)) }
{
    write_integer(text, ratio.numerator())?;
    text.push(b'/')?;
    let digits = ratio.denominator().to_string(*text.allocator())?;
    text.extend_from_slice(digits.as_bytes())
}

/// Writes a character by its name, or as it is (standard 22.1.3.2).
pub(crate) fn write_character(text: &mut Vec<u8>, c: u8) -> Result<(), AllocError>
    ensures { OnOk result (AddsText text.old text.new (printed_character c)) }
{
    text.extend_from_slice(b"#\\")?;
    match c {
        8 => text.extend_from_slice(b"Backspace"),
        b'\t' => text.extend_from_slice(b"Tab"),
        b'\n' => text.extend_from_slice(b"Newline"),
        12 => text.extend_from_slice(b"Page"),
        b'\r' => text.extend_from_slice(b"Return"),
        b' ' => text.extend_from_slice(b"Space"),
        127 => text.extend_from_slice(b"Rubout"),
        _ => text.extend_from_slice(&[c]),
    }
}

/// Writes a string (standard 22.1.3.4).
pub(crate) fn write_text(text: &mut Vec<u8>, bytes: &[u8]) -> Result<(), AllocError>
    ensures { OnOk result (AddsText text.old text.new (printed_text bytes.now)) }
{
    text.push(b'"')?;
    for c in bytes {
        write_escaped(text, *c, *c == b'"' || *c == b'\\')?;
    }
    text.push(b'"')?;
    Ok(())
}
