//! Names, texts, symbols and characters as they stand in a form. After an error, want of memory alone, a part may be added.
ghost use Rattle.std.specs.Prelude.{◌≡◌, ◌<◌, [], ◌∷◌, ◌++◌, map, if◌then◌else◌, codes, OnOk};
ghost use Rattle.std.specs.List.{list_all, flat_map};
ghost use Rattle.canon_printer.specs.Names.{with_backslashes, is_escaped_in_bars, is_invalid};
ghost use Rattle.canon_printer.specs.Written.{AddsText, printed_text};
ghost use Rattle.package_table.specs.Readers.{names_of};
ghost use Rattle.world_forms.specs.NameTokens.{is_portable_name, is_plain_after, name_text, prefix_text, symbol_text, token_prefix_length, is_too_long};
ghost use Rattle.world_forms.specs.NameTokens.{text_argument, call_text, value_text, quoted_text, character_argument, keyword_argument};
ghost use Rattle.world_forms.specs.NameTokens.{hex_digit, told_character, told_text};

use canon_printer::print;
use lisp_object::Datum;
use lisp_reading::Limits;
use package_table::Packages;
use package_table::standardized::{COMMON_LISP_USER, KEYWORD};
use std::alloc::{AllocError, Global};

/// Adds a byte, after a backslash if it would not stand for itself.
fn push_byte(text: &mut Vec<u8>, byte: u8, is_escaped: bool) -> Result<(), AllocError>
    ensures { OnOk result (AddsText text.old text.new
        (if is_escaped then codes "\\" ++ byte ∷ [] else byte ∷ [])) }
{
    if is_escaped {
        text.push(b'\\')?;
    }
    text.push(byte)?;
    Ok(())
}

/// Adds a text.
pub(crate) fn push_text(text: &mut Vec<u8>, bytes: &[u8]) -> Result<(), AllocError>
    ensures { OnOk result (AddsText text.old text.new (printed_text bytes.now)) }
{
    text.push(b'"')?;
    for byte in bytes {
        push_byte(text, *byte, *byte == b'"' || *byte == b'\\')?;
    }
    text.push(b'"')?;
    Ok(())
}

// Whether the character has syntax type invalid in the standard readtable (standard 2.1.4): no token takes it without a backslash.
fn is_invalid(c: u8) -> bool
    ensures { result ≡ is_invalid c }
{
    c < 8 || c == 11 || (14 <= c && c < 32)
}

/// Whether a character between bars needs a backslash: a bar, a backslash, and what no token takes without one.
fn is_escaped_in_bars(c: u8) -> bool
    ensures { result ≡ is_escaped_in_bars c }
{
    c == b'|' || c == b'\\' || is_invalid(c)
}

/// Adds a name between bars.
fn push_barred(text: &mut Vec<u8>, name: &[u8]) -> Result<(), AllocError>
    ensures { OnOk result (AddsText text.old text.new
        (codes "|" ++ with_backslashes is_escaped_in_bars name.now ++ codes "|")) }
{
    text.push(b'|')?;
    for byte in name {
        push_byte(text, *byte, is_escaped_in_bars(*byte))?;
    }
    text.push(b'|')?;
    Ok(())
}

fn is_plain_after(c: u8) -> bool
    ensures { result ≡ is_plain_after c }
{
    c.is_ascii_uppercase() || c.is_ascii_digit() || c == b'-'
}

fn are_plain_after(name: &[u8]) -> bool
    ensures { result ≡ list_all is_plain_after name.now }
{
    name.iter().all(|c| is_plain_after(*c))
}

/// Whether a name is read as it stands: a capital letter, and then capital letters, digits and hyphens.
fn is_plain(name: &[u8]) -> bool
    ensures { result ≡ is_portable_name name.now }
{
    match name {
        [] => false,
        [first, others @ ..] => first.is_ascii_uppercase() && are_plain_after(others),
    }
}

/// Adds a name as a part of a token.
fn push_name(text: &mut Vec<u8>, name: &[u8]) -> Result<(), AllocError>
    ensures { OnOk result (AddsText text.old text.new (name_text name.now)) }
{
    if is_plain(name) {
        text.extend_from_slice(name)
    } else {
        push_barred(text, name)
    }
}

/// Adds what comes before the name of a symbol.
fn push_prefix(text: &mut Vec<u8>, home: &[u8]) -> Result<(), AllocError>
    ensures { OnOk result (AddsText text.old text.new (prefix_text home.now)) }
{
    if home == KEYWORD {
        return text.extend_from_slice(b":");
    }
    if home == COMMON_LISP_USER {
        return Ok(());
    }
    push_name(text, home)?;
    text.extend_from_slice(b"::")
}

/// Adds the token of a symbol: the name alone if its home is COMMON-LISP-USER, and else after its home.
#[tactic(auto, unfolding(crate::specs::NameTokens::symbol_text))]
pub(crate) fn push_symbol(text: &mut Vec<u8>, home: &[u8], name: &[u8]) -> Result<(), AllocError>
    ensures { OnOk result (AddsText text.old text.new (symbol_text home.now name.now)) }
{
    push_prefix(text, home)?;
    push_name(text, name)
}

/// How many characters of a symbol's token come before its name.
fn prefix_len(home: &[u8]) -> usize
    ensures { result ≡ token_prefix_length home.now }
{
    if home == KEYWORD {
        1
    } else if home == COMMON_LISP_USER {
        0
    } else {
        home.len() + 2
    }
}

/// Whether the token of a symbol has more characters than one in a form may have.
#[tactic(auto, unfolding(crate::specs::NameTokens::is_too_long))]
fn is_too_long(home: &[u8], name: &[u8]) -> bool
    ensures { result ≡ is_too_long home.now name.now }
{
    prefix_len(home).saturating_add(name.len()) > Limits::form().token
}

/// Adds what evaluates to a symbol, with the marks round a token that keep it from being evaluated. A symbol whose token would be too
/// long is the value of INTERN, which finds it.
#[tactic(auto, unfolding(crate::specs::NameTokens::value_text))]
pub(crate) fn push_value(
    text: &mut Vec<u8>,
    before: &[u8],
    after: &[u8],
    home: &[u8],
    name: &[u8],
) -> Result<(), AllocError>
    ensures { OnOk result (AddsText text.old text.new
        (value_text before.now after.now home.now name.now)) }
{
    if is_too_long(home, name) {
        return push_call(text, b"INTERN", &[name, home]);
    }
    text.extend_from_slice(before)?;
    push_symbol(text, home, name)?;
    text.extend_from_slice(after)
}

/// Adds texts as arguments.
fn push_arguments(text: &mut Vec<u8>, texts: &[&[u8]]) -> Result<(), AllocError>
    ensures { OnOk result (AddsText text.old text.new (flat_map text_argument (names_of texts.now))) }
{
    for argument in texts {
        text.push(b' ')?;
        push_text(text, argument)?;
    }
    Ok(())
}

/// Adds a call of an operator with texts.
#[tactic(auto, unfolding(crate::specs::NameTokens::call_text))]
pub(crate) fn push_call(
    text: &mut Vec<u8>,
    operator: &[u8],
    texts: &[&[u8]],
) -> Result<(), AllocError>
    ensures { OnOk result (AddsText text.old text.new (call_text operator.now (names_of texts.now))) }
{
    text.push(b'(')?;
    text.extend_from_slice(operator)?;
    push_arguments(text, texts)?;
    text.push(b')')?;
    Ok(())
}

/// Adds a keyword as an argument.
pub(crate) fn push_keyword(text: &mut Vec<u8>, name: &[u8]) -> Result<(), AllocError>
    ensures { OnOk result (AddsText text.old text.new (keyword_argument name.now)) }
{
    text.push(b' ')?;
    push_symbol(text, KEYWORD, name)
}

/// Adds a character below 128 as an argument.
pub(crate) fn push_character(
    alloc: Global,
    text: &mut Vec<u8>,
    packages: &Packages,
    character: u8,
) -> Result<(), AllocError>
    requires { character < 128 }
    ensures { OnOk result (AddsText text.old text.new (character_argument character)) }
{
    packages.soundness();
    let printed = print(alloc, &Datum::Char(character), packages, COMMON_LISP_USER)?;
    text.push(b' ')?;
    text.extend_from_slice(printed.as_slice())
}

/// A digit of base 16.
fn hex_digit(n: u8) -> u8
    requires { n < 16 }
    ensures { result ≡ hex_digit n }
{
    if n < 10 { n + b'0' } else { n + 87 }
}

/// Adds a character for a terminal: one that a terminal would obey by its number.
fn push_told_character(text: &mut Vec<u8>, c: u8) -> Result<(), AllocError>
    ensures { OnOk result (AddsText text.old text.new (told_character c)) }
{
    if c < 32 || c == 127 {
        let escape = [b'\\', b'x', hex_digit(c / 16), hex_digit(c % 16)];
        return text.extend_from_slice(&escape);
    }
    text.push(c)?;
    Ok(())
}

/// Adds a text for a terminal.
pub(crate) fn push_told(text: &mut Vec<u8>, bytes: &[u8]) -> Result<(), AllocError>
    ensures { OnOk result (AddsText text.old text.new (told_text bytes.now)) }
{
    for byte in bytes {
        push_told_character(text, *byte)?;
    }
    Ok(())
}
