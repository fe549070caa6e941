//! Lists of texts, as they stand in a snapshot. A text is kept as it is written between its quotes, so that it takes no memory
//! of its own; `text_of` gives what it is.
ghost use Rattle.std.specs.Prelude.{◌≡◌, ◌<◌, ◌++◌, ◌∷◌, [], ℕ, List, All, true, map, length, IfOk};
ghost use Rattle.std.specs.List.{list_all};
ghost use Rattle.lisp_object.specs.Ascii.{is_ascii};
ghost use Rattle.canon_printer.specs.Written.{printed_text};
ghost use Rattle.package_table.specs.Table.{Name};
ghost use Rattle.snapshot_lines.specs.QuotedTexts.{unescaped, unescaped_pair, quoted_texts, pair_text, pairs_text, IsAtItems, IsNextItem, LeavesFewerBytes};
ghost use Rattle.snapshot_lines.specs.PartAnswers.{IsOfMade, SucceedsWith};

use crate::error::BuildError;
use lisp_object::Bytes;
use std::alloc::{AllocError, Global};

/// What comes next in a list.
#[derive(Drop)]
pub enum Coming<'a> {
    /// An item, which begins here.
    Item(&'a [u8]),
    /// What stands after the list.
    End(&'a [u8]),
}

/// What stands after this byte. `Damaged` where another byte stands there, or none.
pub fn after_byte(bytes: &[u8], byte: u8) -> Result<&[u8], BuildError>
    ensures after { (after : List ℕ) → bytes.now ≡ byte ∷ after
        → SucceedsWith result (λ rest. rest.now ≡ after) }
    ensures shorter { IfOk result (λ rest. length rest.now < length bytes.now) }
{
    match bytes {
        [first, after @ ..] if *first == byte => Ok(after),
        _ => Err(BuildError::Damaged),
    }
}

/// What comes next, where a list begins or after one of its items. `Damaged` where it is none of these.
pub fn coming_item(bytes: &[u8]) -> Result<Coming<'_>, BuildError>
    ensures item { (items : List (List ℕ)) (after : List ℕ) → IsAtItems items after bytes.now
        → SucceedsWith result (IsNextItem items after) }
    ensures shorter { IfOk result (LeavesFewerBytes bytes.now) }
{
    let [first, rest @ ..] = bytes else {
        return Err(BuildError::Damaged);
    };
    match *first {
        b'(' | b' ' => Ok(Coming::Item(rest)),
        b')' => Ok(Coming::End(rest)),
        // the rest of NIL
        b'N' => match rest.get(2..) {
            Some(after) => Ok(Coming::End(after)),
            None => Err(BuildError::Damaged),
        },
        _ => Err(BuildError::Damaged),
    }
}

/// The text that begins here, as it is written between its quotes, and what stands after it. `Damaged` where no quote
/// begins it, or none ends it.
pub fn written_text(bytes: &[u8]) -> Result<(&[u8], &[u8]), BuildError>
    ensures text { (name after : List ℕ) → bytes.now ≡ printed_text name ++ after
        → SucceedsWith result (λ read. (unescaped read.0.now ≡ name) × (read.1.now ≡ after)) }
    ensures shorter { IfOk result (λ read. length read.1.now < length bytes.now) }
{
    let text = after_byte(bytes, b'"')?;
    let mut escaped = false;
    for (i, c) in text.iter().enumerate() {
        if escaped {
            escaped = false;
        } else if *c == b'\\' {
            escaped = true;
        } else if *c == b'"' {
            return Ok((&text[..i], &text[i + 1..]));
        }
    }
    Err(BuildError::Damaged)
}

/// The text that is written so.
///
/// # Errors
/// Out of memory.
pub fn text_of(alloc: Global, written: &[u8]) -> Result<Bytes, AllocError>
    ensures { IfOk result (λ text. text ≡ unescaped written.now) }
{
    let mut text = Vec::with_capacity(alloc, written.len())?;
    let mut escaped = false;
    for c in written {
        if escaped {
            text.push(*c)?;
            escaped = false;
        } else if *c == b'\\' {
            escaped = true;
        } else {
            text.push(*c)?;
        }
    }
    Bytes::from_vec(text)
}

/// The text that is written between quotes in this way, of characters below 128. `Damaged` where a character is above.
pub fn name_of(alloc: Global, written: &[u8]) -> Result<Bytes, BuildError>
    ensures same { IfOk result (λ name. name ≡ unescaped written.now) }
    ensures below { IfOk result (λ name. All (λ b. b < 128) name) }
    ensures read { list_all is_ascii (unescaped written.now) ≡ true
        → IsOfMade result (λ name. name ≡ unescaped written.now) }
{
    let name = text_of(alloc, written)?;
    if !name.is_ascii() {
        return Err(BuildError::Damaged);
    }
    Ok(name)
}

fn push_item<T: Copy>(items: &mut Vec<T>, item: T) -> Result<(), AllocError>
    ensures { IfOk result (λ _. items.new.items ≡ items.old.items ++ item ∷ []) }
{
    items.push(item)?;
    Ok(())
}

/// The texts of the list that begins here, and what stands after it. `Damaged` where something else stands there.
pub fn texts_in(alloc: Global, bytes: &[u8]) -> Result<(Vec<&[u8]>, &[u8]), BuildError>
    ensures texts { (names : List Name) (after : List ℕ) → bytes.now ≡ quoted_texts names ++ after
        → IsOfMade result (λ read. (map (λ b. unescaped b.now) read.0.items ≡ names)
        × (read.1.now ≡ after)) }
    ensures shorter { IfOk result (λ read. length read.1.now < length bytes.now) }
{
    let mut texts = Vec::new(alloc);
    let mut rest = bytes;
    'texts: loop {
        match coming_item(rest)? {
            Coming::End(after) => return Ok((texts, after)),
            Coming::Item(item) => {
                let (written, after) = written_text(item)?;
                push_item(&mut texts, written)?;
                rest = after;
            }
        }
    }
}

// The two texts of the list that begins here, and what stands after it.
fn pair_in(bytes: &[u8]) -> Result<((&[u8], &[u8]), &[u8]), BuildError>
    ensures pair { (pair : Name × Name) (after : List ℕ) → bytes.now ≡ pair_text pair ++ after
        → SucceedsWith result (λ read. (unescaped_pair read.0 ≡ pair) × (read.1.now ≡ after)) }
    ensures shorter { IfOk result (λ read. length read.1.now < length bytes.now) }
{
    let (first, rest) = written_text(after_byte(bytes, b'(')?)?;
    let (second, rest) = written_text(after_byte(rest, b' ')?)?;
    let after = after_byte(rest, b')')?;
    Ok(((first, second), after))
}

/// The pairs of texts of the list that begins here, and what stands after it. `Damaged` where something else stands
/// there.
pub fn pairs_in(alloc: Global, bytes: &[u8]) -> Result<(Vec<(&[u8], &[u8])>, &[u8]), BuildError>
    ensures pairs { (pairs : List (Name × Name)) (after : List ℕ)
        → bytes.now ≡ pairs_text pairs ++ after
        → IsOfMade result (λ read. (map unescaped_pair read.0.items ≡ pairs)
        × (read.1.now ≡ after)) }
    ensures shorter { IfOk result (λ read. length read.1.now < length bytes.now) }
{
    let mut pairs = Vec::new(alloc);
    let mut rest = bytes;
    'pairs: loop {
        match coming_item(rest)? {
            Coming::End(after) => return Ok((pairs, after)),
            Coming::Item(item) => {
                let (pair, after) = pair_in(item)?;
                push_item(&mut pairs, pair)?;
                rest = after;
            }
        }
    }
}
