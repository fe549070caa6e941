//! How names are written.
//! After an error, want of memory alone, a part may be written.
ghost use Rattle.std.specs.Prelude.{◌≡◌, ◌∷◌, [], ◌++◌, if◌then◌else◌, codes, OnOk};
ghost use Rattle.std.specs.List.{list_all};
ghost use Rattle.canon_printer.specs.Names.{printed_name, is_plain, begins_plain, goes_on_plain, is_escaped_in_bars, is_invalid};
ghost use Rattle.canon_printer.specs.Written.{AddsText};

use std::alloc::AllocError;

/// Writes a name as it is if it reads back so, and else between bars (standard 22.1.3.3).
pub(crate) fn write_name(text: &mut Vec<u8>, name: &[u8]) -> Result<(), AllocError>
    ensures { OnOk result (AddsText text.old text.new (printed_name name.now)) }
{
    if is_plain(name) {
        return text.extend_from_slice(name);
    }
    text.push(b'|')?;
    for c in name {
        write_escaped(text, *c, is_escaped_in_bars(*c))?;
    }
    text.push(b'|')?;
    Ok(())
}

/// Writes the character, after a backslash if it needs one. After an error, want of memory alone, a part may be
/// written.
pub(crate) fn write_escaped(text: &mut Vec<u8>, c: u8, is_escaped: bool) -> Result<(), AllocError>
    ensures { OnOk result (AddsText text.old text.new
        (if is_escaped then codes "\\" ++ c ∷ [] else c ∷ [])) }
{
    if is_escaped {
        text.push(b'\\')?;
    }
    text.push(c)?;
    Ok(())
}

fn is_plain(name: &[u8]) -> bool
    ensures { result ≡ is_plain name.now }
{
    match name {
        [] => false,
        [first, others @ ..] => begins_plain(*first) && goes_on_plainly(others),
    }
}

fn goes_on_plainly(name: &[u8]) -> bool
    ensures { result ≡ list_all goes_on_plain name.now }
{
    name.iter().all(|c| goes_on_plain(*c))
}

fn begins_plain(c: u8) -> bool
    ensures { result ≡ begins_plain c }
{
    c.is_ascii_uppercase() || b"*!$<>=?%&_".contains(&c)
}

fn goes_on_plain(c: u8) -> bool
    ensures { result ≡ goes_on_plain c }
{
    begins_plain(c) || c.is_ascii_digit() || b"+-/".contains(&c)
}

fn is_escaped_in_bars(c: u8) -> bool
    ensures { result ≡ is_escaped_in_bars c }
{
    c == b'|' || c == b'\\' || is_invalid(c)
}

// Whether the character has syntax type invalid in the standard readtable.
fn is_invalid(c: u8) -> bool
    ensures { result ≡ is_invalid c }
{
    c < 8 || c == 11 || (14 <= c && c < 32)
}
