//! The text of a part as it is told: its first bytes, with quotes.
use std::alloc::{AllocError, Global};

/// How many bytes of a part are told.
const MOST_TOLD: usize = 80;

/// What a quoted object begins with where it is printed.
const QUOTE: &[u8] = b"(QUOTE ";

/// What is read of a printed text.
#[derive(Clone, Copy, PartialEq, Eq)]
enum Reading {
    Plain,
    Text,
    Bars,
    /// After an escape.
    Escaped,
    /// After one within a text, or within bars.
    EscapedText,
    EscapedBars,
}

impl Reading {
    // After one more byte.
    fn after(self, byte: u8) -> Reading {
        match (self, byte) {
            (Reading::Plain, b'"') => Reading::Text,
            (Reading::Plain, b'|') => Reading::Bars,
            (Reading::Plain, b'\\') => Reading::Escaped,
            (Reading::Text, b'"') | (Reading::Bars, b'|') | (Reading::Escaped, _) => Reading::Plain,
            (Reading::Text, b'\\') => Reading::EscapedText,
            (Reading::Bars, b'\\') => Reading::EscapedBars,
            (Reading::EscapedText, _) => Reading::Text,
            (Reading::EscapedBars, _) => Reading::Bars,
            (reading, _) => reading,
        }
    }
}

/// The first 80 bytes of a printed text. A space stands for each that is no character of ASCII, and a quote for QUOTE, if that is what the
/// name QUOTE means there.
pub(crate) fn told_of(alloc: Global, text: &[u8], has_quote: bool) -> Result<Vec<u8>, AllocError> {
    let mut told = Vec::new(alloc);
    let mut ends: Vec<usize> = Vec::new(alloc);
    let (mut reading, mut left_out) = (Reading::Plain, 0u64);
    'bytes: for (at, byte) in text.iter().enumerate() {
        if left_out > 0 {
            left_out -= 1;
            continue;
        }
        if told.len() >= MOST_TOLD {
            told.extend_from_slice(b" ..")?;
            break;
        }
        if reading == Reading::Plain && *byte == b')' && ends.as_slice().last() == Some(&at) {
            ends.pop();
            continue;
        }
        if reading == Reading::Plain && has_quote {
            if let Some(end) = end_of_quote(text, at) {
                told.push(b'\'')?;
                ends.push(end)?;
                left_out = 6;
                continue;
            }
        }
        reading = reading.after(*byte);
        told.push(if byte.is_ascii_graphic() { *byte } else { b' ' })?;
    }
    Ok(told)
}

// Where the list ends that begins at a place, if it is QUOTE of one object.
fn end_of_quote(text: &[u8], at: usize) -> Option<usize> {
    let inner = text.get(at..)?.strip_prefix(QUOTE)?;
    let length = length_of_object(inner)?;
    if inner.get(length) != Some(&b')') {
        return None;
    }
    at.checked_add(QUOTE.len())?.checked_add(length)
}

// How many bytes the object has with which a text begins.
fn length_of_object(text: &[u8]) -> Option<usize> {
    let (mut reading, mut depth) = (Reading::Plain, 0u64);
    'bytes: for (at, byte) in text.iter().enumerate() {
        match (reading, *byte) {
            (Reading::Plain, b' ' | b')') if depth == 0 => return Some(at),
            (Reading::Plain, b'(') => depth = depth.saturating_add(1),
            (Reading::Plain, b')') => depth = depth.saturating_sub(1),
            _ => {}
        }
        reading = reading.after(*byte);
    }
    None
}
