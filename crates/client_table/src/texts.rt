// The texts of the store's own forms, which change the table.
ghost use Rattle.std.specs.Prelude.{◌≡◌, ◌++◌, ◌∷◌, [], codes, decimal, if◌then◌else◌, IfOk, OnOk};
ghost use Rattle.std.specs.List.{list_any};
ghost use Rattle.client_table.specs.Entries.{admission_text, client_text, client_count_text, entry_text, kept_text, leaving_text, package_text};
ghost use Rattle.client_table.specs.Told.{kept_told};
ghost use Rattle.canon_printer.specs.Names.{with_backslashes};
ghost use Rattle.canon_printer.specs.Written.{is_escaped_in_text, printed_text};

use crate::entry::{KeptAnswer, TABLE_PACKAGE, client_count};
use itoa::Buffer;
use plist_state::World;
use std::alloc::{AllocError, Global};

/// It puts an entry in.
pub(crate) fn entry_text(
    alloc: Global,
    name: &[u8],
    number: u64,
    kept: KeptAnswer<'_>,
) -> Result<Vec<u8>, AllocError>
    ensures { IfOk result (λ text. text.items ≡ entry_text name.now number (kept_told kept.entry)) }
{
    let mut text = Vec::with_capacity(alloc, 200)?;
    text.extend_from_slice(b"(SETF (GET ")?;
    push_client(&mut text, name)?;
    text.extend_from_slice(b" (INTERN \"%MESSAGE\" \"%CLIENTS\")) '(")?;
    push_number(&mut text, number)?;
    push_kept(&mut text, kept)?;
    text.extend_from_slice(b"))")?;
    Ok(text)
}

// A symbol of the table as a form.
fn push_client(text: &mut Vec<u8>, name: &[u8]) -> Result<(), AllocError>
    ensures { OnOk result (text.new.items ≡ text.old.items ++ client_text name.now) }
{
    text.extend_from_slice(b"(INTERN \"")?;
    push_escaped(text, name)?;
    text.extend_from_slice(b"\" \"%CLIENTS\")")?;
    Ok(())
}

fn push_kept(text: &mut Vec<u8>, kept: KeptAnswer<'_>) -> Result<(), AllocError>
    ensures { OnOk result (text.new.items ≡ text.old.items ++ kept_text (kept_told kept.entry)) }
{
    match kept {
        KeptAnswer::Whole(form, answer) => {
            push_text(text, form)?;
            push_text(text, answer)
        }
        KeptAnswer::Count(count) => {
            text.push(b' ')?;
            push_number(text, count)?;
            text.extend_from_slice(b" \"\"")
        }
    }
}

fn push_number(text: &mut Vec<u8>, number: u64) -> Result<(), AllocError>
    ensures { OnOk result (text.new.items ≡ text.old.items ++ decimal number) }
{
    let mut buffer = Buffer::new();
    text.extend_from_slice(buffer.format(number).as_bytes())
}

// A text, after a space.
fn push_text(text: &mut Vec<u8>, bytes: &[u8]) -> Result<(), AllocError>
    ensures { OnOk result (text.new.items ≡ text.old.items ++ codes " " ++ printed_text bytes.now) }
{
    text.extend_from_slice(b" \"")?;
    push_escaped(text, bytes)?;
    text.push(b'"')?;
    Ok(())
}

#[tactic(auto, using(crate::proofs::Escaping::plain_escaped))]
fn push_escaped(text: &mut Vec<u8>, bytes: &[u8]) -> Result<(), AllocError>
    ensures { OnOk result (text.new.items ≡ text.old.items ++ with_backslashes is_escaped_in_text bytes.now) }
{
    if !has_escaped(bytes) {
        return text.extend_from_slice(bytes);
    }
    for byte in bytes {
        push_byte(text, *byte, is_escaped(*byte))?;
    }
    Ok(())
}

fn has_escaped(bytes: &[u8]) -> bool
    ensures { result ≡ list_any is_escaped_in_text bytes.now }
{
    bytes.iter().any(|byte| is_escaped(*byte))
}

// Whether a byte needs a backslash in a text.
fn is_escaped(byte: u8) -> bool
    ensures { result ≡ is_escaped_in_text byte }
{
    byte == b'"' || byte == b'\\'
}

// A byte, after a backslash if it needs one.
fn push_byte(text: &mut Vec<u8>, byte: u8, is_escaped: bool) -> Result<(), AllocError>
    ensures { OnOk result (text.new.items ≡ text.old.items
        ++ (if is_escaped then codes "\\" ++ byte ∷ [] else byte ∷ [])) }
{
    if is_escaped {
        text.push(b'\\')?;
    }
    text.push(byte)?;
    Ok(())
}

/// It takes an entry out.
pub(crate) fn leaving_text(alloc: Global, world: &World, name: &[u8]) -> Result<Vec<u8>, AllocError>
    ensures { IfOk result (λ text. text.items ≡ leaving_text world.now.0 name.now) }
{
    let count = u128::from(client_count(world).saturating_sub(1));
    let mut text = Vec::from_slice(alloc, b"(PROGN (REMPROP ")?;
    push_client(&mut text, name)?;
    text.extend_from_slice(b" ")?;
    push_client(&mut text, b"%MESSAGE")?;
    text.extend_from_slice(b") (SETF ")?;
    push_count(&mut text, count)?;
    text.extend_from_slice(b")")?;
    Ok(text)
}

// The place of the number of clients, and this number.
fn push_count(text: &mut Vec<u8>, count: u128) -> Result<(), AllocError>
    ensures { OnOk result (text.new.items ≡ text.old.items ++ client_count_text (decimal count)) }
{
    text.extend_from_slice(b"(GET ")?;
    push_client(text, b"%MESSAGE")?;
    text.extend_from_slice(b" ")?;
    push_client(text, b"%CLIENTS")?;
    text.extend_from_slice(b") ")?;
    push_digits(text, count)?;
    text.extend_from_slice(b")")
}

fn push_digits(text: &mut Vec<u8>, count: u128) -> Result<(), AllocError>
    ensures { OnOk result (text.new.items ≡ text.old.items ++ decimal count) }
{
    let digits = count.to_string(*text.allocator())?;
    text.extend_from_slice(digits.as_bytes())
}

// The form that makes the package, where it is not there.
fn push_package(text: &mut Vec<u8>, is_there: bool) -> Result<(), AllocError>
    ensures { OnOk result (text.new.items ≡ text.old.items ++ package_text is_there) }
{
    if is_there {
        return Ok(());
    }
    text.extend_from_slice(b"(MAKE-PACKAGE \"%CLIENTS\") ")
}

/// It makes the symbol of a client that has no entry, and before the first one the package.
pub(crate) fn admission_text(
    alloc: Global,
    world: &World,
    name: &[u8],
) -> Result<Vec<u8>, AllocError>
    ensures { IfOk result (λ text. text.items ≡ admission_text world.now.0 name.now) }
{
    let count = u128::from(client_count(world)) + 1;
    let mut text = Vec::from_slice(alloc, b"(PROGN ")?;
    push_package(&mut text, world.packages().has_package(TABLE_PACKAGE))?;
    text.extend_from_slice(b"(SETF ")?;
    push_count(&mut text, count)?;
    text.extend_from_slice(b" (SETF (GET ")?;
    push_client(&mut text, name)?;
    text.extend_from_slice(b" ")?;
    push_client(&mut text, b"%MESSAGE")?;
    text.extend_from_slice(b") '(0 0 \"\")))")?;
    Ok(text)
}
