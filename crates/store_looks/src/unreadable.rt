// How forms that cannot be read are told: by lines, or by objects of JSON.
// Where memory runs out, a part of what is to be added may be there.
ghost use Rattle.std.specs.Prelude.{◌≡◌, ◌++◌, codes, decimal, OnOk};
ghost use Rattle.diagnostics.specs.Refusals.{form_of, line_of};
ghost use Rattle.store_looks.specs.CheckReports.{checked_counts_line, counts_object, form_counts_text, later_member, refusal_object, place_members, unreadable_text};

use diagnostics::{Refusal, Spots, write_refusal};
use lisp_object::refusal::name_of;
use sessions::Place;
use std::alloc::{AllocError, Global};
use store_reports::{Notation, push_figure, push_number_member, push_string_member};

/// Adds what is told of a form that cannot be read. After an error, want of memory alone, a part may be added.
pub(crate) fn push_refusal(
    alloc: Global,
    text: &mut Vec<u8>,
    notation: Notation,
    refusal: &Refusal,
) -> Result<(), AllocError>
    ensures { OnOk result (text.new.items ≡ text.old.items ++ unreadable_text notation refusal.now) }
{
    match notation {
        Notation::Lines => push_line(text, refusal),
        Notation::Json => push_object(alloc, text, refusal),
    }
}

fn push_line(text: &mut Vec<u8>, refusal: &Refusal) -> Result<(), AllocError>
    ensures { OnOk result (text.new.items ≡ text.old.items ++ line_of refusal.now) }
{
    let Ok(()) = write_refusal(text, refusal) else {
        return Err(AllocError);
    };
    Ok(())
}

fn push_object(alloc: Global, text: &mut Vec<u8>, refusal: &Refusal) -> Result<(), AllocError>
    ensures { OnOk result (text.new.items ≡ text.old.items ++ refusal_object refusal.now) }
{
    let name = name_of(refusal.number);
    text.push(b'{')?;
    push_string_member(text, b"name", name.as_bytes())?;
    push_later(alloc, text, b"number", refusal.number as u64)?;
    push_later(alloc, text, b"form", form_of(refusal))?;
    push_place(alloc, text, refusal.place, refusal.spots)?;
    text.extend_from_slice(b"}\n")?;
    Ok(())
}

// Which form was refused, counted from 1.
fn form_of(refusal: &Refusal) -> u64
    ensures { result ≡ form_of refusal.now }
{
    refusal.place.forms.saturating_add(1)
}

// Adds a number that is not the first member of an object.
#[tactic(auto, unfolding(crate::specs::CheckReports::later_member))]
fn push_later(alloc: Global, text: &mut Vec<u8>, name: &[u8], value: u64) -> Result<(), AllocError>
    ensures { OnOk result (text.new.items ≡ text.old.items ++ later_member name.now value) }
{
    push_figure(alloc, text, Notation::Json, name, value)
}

// Adds where a form is refused, and where it began.
fn push_place(
    alloc: Global,
    text: &mut Vec<u8>,
    place: Place,
    spots: Option<Spots>,
) -> Result<(), AllocError>
    ensures { OnOk result (text.new.items ≡ text.old.items ++ place_members place spots) }
{
    match spots {
        Some(spots) => push_spots(alloc, text, spots),
        None => push_bytes(alloc, text, place),
    }
}

fn push_spots(alloc: Global, text: &mut Vec<u8>, spots: Spots) -> Result<(), AllocError>
    ensures { OnOk result (text.new.items ≡ text.old.items ++ (later_member (codes "line") spots.at.line
        ++ later_member (codes "column") spots.at.column ++ later_member (codes "start-line") spots.start.line
        ++ later_member (codes "start-column") spots.start.column)) }
{
    push_later(alloc, text, b"line", spots.at.line)?;
    push_later(alloc, text, b"column", spots.at.column)?;
    push_later(alloc, text, b"start-line", spots.start.line)?;
    push_later(alloc, text, b"start-column", spots.start.column)?;
    Ok(())
}

fn push_bytes(alloc: Global, text: &mut Vec<u8>, place: Place) -> Result<(), AllocError>
    ensures { OnOk result (text.new.items ≡ text.old.items
        ++ (later_member (codes "after-bytes") place.at ++ later_member (codes "start-after-bytes") place.start)) }
{
    push_later(alloc, text, b"after-bytes", place.at)?;
    push_later(alloc, text, b"start-after-bytes", place.start)?;
    Ok(())
}

/// Adds how many forms there are, and how many of them cannot be read. After an error, want of memory alone, a part may
/// be added.
pub(crate) fn push_counts(
    alloc: Global,
    text: &mut Vec<u8>,
    notation: Notation,
    forms: usize,
    unreadable: usize,
) -> Result<(), AllocError>
    ensures { OnOk result (text.new.items ≡ text.old.items ++ form_counts_text notation forms unreadable) }
{
    match notation {
        Notation::Lines => push_counts_line(alloc, text, forms, unreadable),
        Notation::Json => push_counts_object(alloc, text, forms as u64, unreadable as u64),
    }
}

fn push_counts_line(
    alloc: Global,
    text: &mut Vec<u8>,
    forms: usize,
    unreadable: usize,
) -> Result<(), AllocError>
    ensures { OnOk result (text.new.items ≡ text.old.items ++ checked_counts_line forms unreadable) }
{
    text.extend_from_slice(b"forms ")?;
    push_number(alloc, text, forms)?;
    text.extend_from_slice(b" unreadable ")?;
    push_number(alloc, text, unreadable)?;
    text.push(b'\n')?;
    Ok(())
}

fn push_number(alloc: Global, text: &mut Vec<u8>, number: usize) -> Result<(), AllocError>
    ensures { OnOk result (text.new.items ≡ text.old.items ++ decimal number) }
{
    let digits = format!(in alloc; "{number}")?;
    text.extend_from_slice(digits.as_bytes())
}

fn push_counts_object(
    alloc: Global,
    text: &mut Vec<u8>,
    forms: u64,
    unreadable: u64,
) -> Result<(), AllocError>
    ensures { OnOk result (text.new.items ≡ text.old.items ++ counts_object forms unreadable) }
{
    text.push(b'{')?;
    push_number_member(alloc, text, b"forms", forms)?;
    push_later(alloc, text, b"unreadable", unreadable)?;
    text.extend_from_slice(b"}\n")?;
    Ok(())
}
