// A form that stands whole and plain in a piece.
ghost use Rattle.std.specs.Prelude.{◌≡◌, ◌+◌, ◌<◌, ◌≤◌, ◌^◌, ℕ, List, None, ◌++◌, length, take, true, false, IfOk, IfSome};
ghost use Rattle.lisp_object.specs.Object.{IsSound};
ghost use Rattle.lisp_object.specs.Datum.{is_proper, object_of};
ghost use Rattle.form_reader.specs.Reader.{fed};
ghost use Rattle.package_table.specs.Symbols.{are_there};
ghost use Rattle.sessions.specs.declared.input.Fed.{Fed};
ghost use Rattle.prevalence_store.specs.meaning.Acceptance.{table_in};
ghost use Rattle.sessions.specs.steps.Input.{FeedsInput, IsPending};
ghost use Rattle.user_macros.specs.Functions.{Functions};

use super::{Pending, PlacedForm};
use form_eval::ReadForm;
use form_reader::Limits;
use plain_reader::read_plain;
use plist_state::World;
use prevalence_store::{base_in, package_in};
use readtable_core::Readtable;
use readtable_core::standard_names::{STD_CLOSE, STD_LIST};
use session_words::Mode;
use std::alloc::{AllocError, Global};

impl Pending {
    /// The plain form that a piece begins with, if nothing is open and there is one. It takes no way through the reader of
    /// bytes. Else nothing has changed.
    pub(crate) fn feed_plain(
        &mut self,
        alloc: Global,
        readtable: &Readtable,
        world: &World,
        mode: Mode,
        piece: &[u8],
    ) -> Result<Option<PlacedForm>, AllocError>
        // The readtable is that of the world, and there is room to count.
        requires table { readtable.now ≡ table_in world.now.0 mode }
        requires dropped { self.old.dropped ≤ fed self.old.reader }
        requires count { fed self.old.reader + length piece.now ≤ 2 ^ 63 }

        // A form that was found is the one that the pending bytes and the piece begin with; it is sound, and its symbols are there if it says so.
        ensures feeds { (functions : Functions) (bytes : List ℕ)
            → IsPending functions world.now.0 mode self.old bytes
            → IfOk result (λ found. IfSome found (λ form. FeedsInput functions world.now.0 mode self.new
            (bytes ++ take (length form.own.items) piece.now) (Fed.Form form false))) }
        ensures sound { IfOk result (λ found. IfSome found
            (λ form. (is_proper form.read.datum ≡ true) × IsSound (object_of form.read.datum))) }
        ensures all_there { IfOk result (λ found. IfSome found (λ form.
            form.read.known ≡ true → are_there world.now.0.packages (object_of form.read.datum) ≡ true)) }
        ensures places { IfOk result (λ found. IfSome found
            (λ form. (form.start ≡ self.old.dropped) × (form.next ≡ form.start + length form.own.items))) }
        ensures some { IfOk result (λ found. IfSome found
            (λ form. (0 < length form.own.items) × (length form.own.items ≤ length piece.now))) }

        // Where none was found nothing has changed, and no more bytes are pending than were.
        ensures none { IfOk result (λ found. found ≡ None → self.new ≡ self.old) }
        ensures count { fed self.new.reader ≤ fed self.old.reader }
    {
        if !self.text.is_empty() {
            return Ok(None);
        }
        if !has_lists(readtable) {
            return Ok(None);
        }
        let Some(front) = first_list(piece) else {
            return Ok(None);
        };
        let (base, package) = (base_in(world, mode), package_in(world, mode));
        let limits = Limits::form();
        let Some(plain) = read_plain(
            alloc,
            limits,
            readtable,
            base,
            world.packages(),
            package,
            front,
        )?
        else {
            return Ok(None);
        };
        if plain.end != front.len() {
            return Ok(None);
        }
        let own = Vec::from_slice(alloc, front)?;
        let start = self.dropped;
        *self = Pending::new(alloc);
        let read = ReadForm {
            datum: plain.datum,
            known: plain.known,
        };
        Ok(Some(PlacedForm {
            read,
            own,
            start,
            next: start + front.len(),
        }))
    }
}

// Whether parentheses are those of lists. Where they are not, no plain form is looked for.
fn has_lists(readtable: &Readtable) -> bool {
    calls(readtable, b'(', STD_LIST) && calls(readtable, b')', STD_CLOSE)
}

// Whether the function at this character has this name.
fn calls(readtable: &Readtable, c: u8, name: &[u8]) -> bool {
    match readtable.macro_of(c) {
        Some(function) => function.as_bytes() == name,
        None => false,
    }
}

/// How far a plain form is looked for at most, in bytes: where none is found the next form looks again.
const LONGEST_PLAIN: usize = 1_024;

// The front of a piece to the parenthesis that closes the first one, outside of texts, if it begins with one and has none of the characters
// that plain forms do not have. This is where a form may end; whether it does, the reader says.
fn first_list(piece: &[u8]) -> Option<&[u8]>
    ensures some { IfSome result (λ front. 0 < length front.now) }
    ensures front { IfSome result (λ front. front.now ≡ take (length front.now) piece.now) }
    ensures within { IfSome result (λ front. length front.now ≤ length piece.now) }
{
    let mut depth = 0usize;
    let mut in_text = false;
    let mut count = 0;
    'bytes: for byte in piece {
        count += 1;
        match *byte {
            b'"' => in_text = !in_text,
            b'(' if !in_text => depth = depth.saturating_add(1),
            b')' if !in_text => depth = depth.saturating_sub(1),
            b'#' | b'|' | b';' | b'\\' if !in_text => return None,
            _ => {}
        }
        if depth == 0 {
            return if count > 1 {
                Some(&piece[..count])
            } else {
                None
            };
        }
        if count == LONGEST_PLAIN {
            return None;
        }
    }
    None
}
