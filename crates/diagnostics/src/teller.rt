// What tells of forms that were refused.
ghost use Rattle.std.specs.Prelude.{◌≡◌, Err};
ghost use Rattle.form_eval.specs.Acceptance.{accept};
ghost use Rattle.form_eval.specs.Laws.{MayEvaluate};
ghost use Rattle.lisp_object.specs.Datum.{object_of};

use crate::fault::write_text;
use crate::parts::{length_of_name, place_of_part};
use crate::places::{History, Places};
use crate::refusal::{Refusal, Spots, write_refused_form};
use arrayvec::ArrayString;
use plist_state::World;
use refused_part::refused_text;
use sessions::{Place, SessionForm};
use std::alloc::{AllocError, Global};
use std::fmt::Write as WriteText;
use std::io::Write;
use user_macros::Meaning;

/// So many are few.
const FEW: u64 = 100;

/// What is told after the last of them.
const ENOUGH: &[u8] = b"100 refusals were told; of the next ones there is no line here\n";

/// Of which forms that were refused it is told why.
#[derive(Clone, Copy, Debug, PartialEq, Eq)]
pub enum Reasons {
    /// Of none, as nobody asks.
    None,
    /// Of the first 100, for somebody who looks on.
    Few,
    /// Of all, for a program that reads them.
    All,
}

impl Reasons {
    // Of how many.
    fn count(self) -> u64 {
        match self {
            Reasons::None => 0,
            Reasons::Few => FEW,
            Reasons::All => u64::MAX,
        }
    }
}

/// What tells of forms that were refused: the place of each in the input of sessions, and the operator or the part for which it was refused.
#[derive(Drop)]
pub struct RefusalTeller<'a, T> {
    alloc: Global,
    stream: T,
    // what the input of the sessions gave
    history: &'a History,
    // how many bytes of it come before the present session
    start: u64,
    // of so many more it tells
    left: u64,
}

impl<'a, T> RefusalTeller<'a, T> {
    /// Before the first session, whose input has this history. The reasons that are asked for are told on a stream.
    pub fn new(
        alloc: Global,
        stream: T,
        history: &'a History,
        reasons: Reasons,
    ) -> RefusalTeller<'a, T> {
        RefusalTeller {
            alloc,
            stream,
            history,
            start: 0,
            left: reasons.count(),
        }
    }

    /// A session begins over this input.
    pub fn begin<I: Places>(&mut self, input: &I) {
        self.start = match input.spot_at(0) {
            Some(spot) => spot.bytes,
            None => 0,
        };
    }

    /// Whether it tells of one more.
    pub fn is_listening(&self) -> bool {
        self.left > 0
    }

    // The line in which a form begins, if it is known.
    fn spots(&self, place: Place) -> Option<Spots> {
        let start = self.start.checked_add(place.start)?;
        Some(Spots::of_form(self.history.spot_at(start)?))
    }
}

impl<T: Write> RefusalTeller<'_, T> {
    /// Tells of a form that was refused with this number, if it tells of one more. Without memory for that nothing is told. The world is as it was.
    pub fn tell<M: Meaning>(
        &mut self,
        world: &mut World,
        macros: &M,
        number: u16,
        form: SessionForm<'_>,
    )
        requires form { MayEvaluate world.old.0.packages form.read.now }
        requires refused { accept M.functions.names world.old.0 (object_of form.read.now.datum)
            ≡ Err number }
        ensures same { world.new ≡ world.old }
    {
        if !self.is_listening() {
            return;
        }
        self.left = self.left.saturating_sub(1);
        if let Ok(text) = refused_text(self.alloc, world, macros, form.read, number) {
            self.tell_text(number, form, text.as_slice());
        }
        if !self.is_listening() {
            let _ = write_text(&mut self.stream, ENOUGH);
        }
    }

    // Writes the line on a form, with the line of the part if that is another one.
    fn tell_text(&mut self, number: u16, form: SessionForm<'_>, text: &[u8]) {
        let refusal = Refusal {
            number,
            place: form.place,
            spots: self.spots(form.place),
        };
        if let Ok(text) = with_line(self.alloc, text, later_line(&refusal, form.own, text)) {
            let _ = write_refused_form(self.alloc, &mut self.stream, &refusal, text.as_slice());
        }
    }
}

// The line of the part that a text tells of, if the form begins in another one.
fn later_line(refusal: &Refusal, form: &[u8], text: &[u8]) -> Option<u64> {
    let start = refusal.spots?.start;
    let place = place_of_part(form, text)?;
    let spot = start.through(form.get(..place)?)?;
    if spot.line == start.line {
        None
    } else {
        Some(spot.line)
    }
}

// What is told, with a line behind the part if there is one.
fn with_line(alloc: Global, text: &[u8], line: Option<u64>) -> Result<Vec<u8>, AllocError> {
    let Some(line) = line else {
        return Vec::from_slice(alloc, text);
    };
    let Some((part, rest)) = text.split_at_checked(length_of_name(text)) else {
        return Vec::from_slice(alloc, text);
    };
    let mut number = ArrayString::<48>::new();
    // it has room for each number
    let _ = write!(number, ", in line {line}");
    let mut told = Vec::from_slice(alloc, part)?;
    told.extend_from_slice(number.as_bytes())?;
    told.extend_from_slice(rest)?;
    Ok(told)
}
