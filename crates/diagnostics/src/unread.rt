// What is told of a text that could not be read, beside its place.
use crate::fault::Unwritten;
use crate::places::{Places, Spot};
use crate::refusal::{Refusal, Spots, write_refused_form};
use arrayvec::ArrayString;
use lisp_object::refusal::{
    DOT_CONTEXT, END_OF_FILE, FORM_TOO_LONG, INVALID_CHARACTER, INVALID_TRAIT, NO_DISPATCH,
    NUMERIC_ARGUMENT, OUT_OF_PROFILE, STRAY_CLOSE, TEXT_LEFT_OVER, TOO_DEEP, name_of,
};
use sessions::Place;
use std::alloc::{AllocError, Global};
use std::fmt::Write as WriteText;
use std::io::Write;

/// How many bytes are told.
const MOST_TOLD: u64 = 80;

/// The last byte that is a character.
const LAST_OF_ASCII: u8 = 127;

/// What is told of a byte that is none.
const PAST_ASCII: &[u8] =
    b", which is past ASCII: the clients write such a character as a reference, like &#xFC;";

/// Writes a line on a text that a session over this input could not read, with a place to be told: the number, what was refused, and where
/// more is told of the number. Of a form that was read nothing is written, nor without memory for the line.
pub fn write_unread<I: Places, W: Write>(
    alloc: Global,
    faults: &mut W,
    input: &I,
    number: u16,
    place: Place,
    spot: Option<Spot>,
) -> Result<(), Unwritten> {
    if number > TEXT_LEFT_OVER {
        return Ok(());
    }
    let spots = match spot {
        Some(spot) => Some(Spots::of_form(spot)),
        None => None,
    };
    let refusal = Refusal {
        number,
        place,
        spots,
    };
    match unread_text(alloc, input, number, place) {
        Ok(text) => write_refused_form(alloc, faults, &refusal, text.as_slice()),
        Err(AllocError) => Err(Unwritten),
    }
}

// The name of the number, and the text that was refused: the token, the line or the form.
fn unread_text<I: Places>(
    alloc: Global,
    input: &I,
    number: u16,
    place: Place,
) -> Result<Vec<u8>, AllocError> {
    let end = end_of(number, place);
    let from = match number {
        END_OF_FILE | TOO_DEEP | FORM_TOO_LONG => place.start,
        _ => beginning_of(input, number, place),
    };
    let mut text = Vec::from_slice(alloc, name_of(number).as_bytes())?;
    text.extend_from_slice(b": ")?;
    // of a call that ends with a delimiter there is no token
    let from = if from < end { from } else { place.start };
    add_bytes(&mut text, input, from, end)?;
    if text.as_slice().last() == Some(&b' ') {
        text.pop();
    }
    if number == INVALID_CHARACTER || number == INVALID_TRAIT {
        add_number(&mut text, input.byte_at(place.at))?;
    }
    Ok(text)
}

// Where the text ends: before the place of the refusal, or with the byte there.
fn end_of(number: u16, place: Place) -> u64 {
    match number {
        INVALID_CHARACTER
        | INVALID_TRAIT
        | STRAY_CLOSE
        | NO_DISPATCH
        | NUMERIC_ARGUMENT
        | OUT_OF_PROFILE => place.at.saturating_add(1),
        _ => place.at,
    }
}

// Where the token before the place of a refusal begins, or its line.
fn beginning_of<I: Places>(input: &I, number: u16, place: Place) -> u64 {
    let mut from = place.at;
    'bytes: for _ in 0..MOST_TOLD {
        let Some(before) = from.checked_sub(1) else {
            break;
        };
        match input.byte_at(before) {
            Some(byte) if !is_between(number, byte) => from = before,
            _ => break,
        }
    }
    from
}

// Whether this byte comes before the text that is told of this number.
fn is_between(number: u16, byte: u8) -> bool {
    match number {
        STRAY_CLOSE | DOT_CONTEXT => byte == b'\n',
        _ => match byte {
            b' ' | b'\t' | b'\r' | b'\n' | b'(' | b')' | b'\'' | b'"' | b';' => true,
            _ => false,
        },
    }
}

// Adds the bytes of an input between two places, up to 80. One space stands for all between them that is no character of ASCII.
fn add_bytes<I: Places>(
    text: &mut Vec<u8>,
    input: &I,
    from: u64,
    end: u64,
) -> Result<(), AllocError> {
    'bytes: for count in 0..MOST_TOLD {
        let place = from.saturating_add(count);
        if place >= end {
            return Ok(());
        }
        match input.byte_at(place) {
            Some(byte) if byte.is_ascii_graphic() => text.push(byte)?,
            _ if text.as_slice().last() != Some(&b' ') => text.push(b' ')?,
            _ => {}
        }
    }
    if end > from.saturating_add(MOST_TOLD) {
        text.extend_from_slice(b" ..")?;
    }
    Ok(())
}

// What comes before the number of a byte that is shown in the text, or that nothing stands before.
fn words_before(is_shown: bool, is_alone: bool) -> &'static [u8] {
    match (is_shown, is_alone) {
        (true, _) => b"; its last byte is ",
        (false, true) => b" the byte ",
        (false, false) => b"; then comes the byte ",
    }
}

// Adds which byte it is, if that is known: one that can be shown is the last of the text, and each other one comes after it.
fn add_number(text: &mut Vec<u8>, byte: Option<u8>) -> Result<(), AllocError> {
    let Some(byte) = byte else {
        return Ok(());
    };
    let is_alone = text.as_slice().last() == Some(&b':');
    text.extend_from_slice(words_before(byte.is_ascii_graphic(), is_alone))?;
    let mut number = ArrayString::<8>::new();
    // it has room for each number
    let _ = write!(number, "{byte}");
    text.extend_from_slice(number.as_bytes())?;
    if byte > LAST_OF_ASCII {
        text.extend_from_slice(PAST_ASCII)?;
    }
    Ok(())
}
