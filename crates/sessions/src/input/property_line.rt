// GET of a property that stands in a piece, answered from its text.
ghost use Rattle.std.specs.Prelude.{◌≡◌, ◌<◌, ◌≤◌, ◌+◌, ◌^◌, List, ℕ, length, IfSome};
ghost use Rattle.form_reader.specs.Reader.{fed};
ghost use Rattle.sessions.specs.steps.PropertyLine.{HasLine};
ghost use Rattle.sessions.specs.steps.Input.{IsPending};
ghost use Rattle.user_macros.specs.Functions.{Functions};

use super::Pending;
use crate::output::line_of_property;
use plist_state::World;
use prevalence_store::get_from_text;
use session_words::Mode;
use std::alloc::Global;

/// The line that answers a form which wrote nothing, and how many bytes the form takes: of the piece, and of the bytes since the last
/// form.
#[derive(Drop)]
pub(crate) struct FoundLine {
    pub(crate) line: Vec<u8>,
    pub(crate) count: usize,
    pub(crate) next: usize,
}

impl Pending {
    /// The line of GET of a property with which a piece begins, if nothing is open and there is one. No form is made. None says nothing
    /// of the piece, also where memory runs out: it is read again then.
    pub(crate) fn find_line(
        &self,
        alloc: Global,
        world: &World,
        mode: Mode,
        piece: &[u8],
    ) -> Option<FoundLine>
        requires dropped { self.now.dropped ≤ fed self.now.reader }
        requires count { fed self.now.reader + length piece.now < 2 ^ 63 }
        ensures has { (functions : Functions) (bytes : List ℕ)
            → IsPending functions world.now.0 mode self.now bytes
            → IfSome result (HasLine functions world.now.0 mode bytes piece.now) }
        ensures within { IfSome result (λ f. (0 < f.count) × (f.count ≤ length piece.now)) }
        ensures places { IfSome result (λ f. f.next ≡ self.now.dropped + f.count) }
    {
        if !self.text.is_empty() {
            return None;
        }
        let found = get_from_text(alloc, world, mode, piece)?;
        match line_of_property(alloc, world, found.value) {
            Ok(line) => Some(FoundLine {
                line,
                count: found.end,
                next: self.dropped + found.end,
            }),
            Err(_) => None,
        }
    }
}
