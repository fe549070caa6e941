//! The marks of a token.
ghost use Rattle.std.specs.Prelude.{◌≡◌, IfOk};
ghost use Rattle.token_scan.specs.Marks.{mark_character, characters};

use smallvec::SmallVec;
use std::alloc::{AllocError, Global};
use std::default::MadeWith;

/// A mark of a token: a character as it is or escaped, or a multiple escape, which encloses characters
/// (standard 2.2, 2.3).
#[derive(Clone, Copy, Debug, PartialEq, Eq)]
pub enum Mark {
    /// A character outside bars, not escaped.
    Plain(u8),
    /// A character after a single escape, or between multiple escapes.
    Quoted(u8),
    /// A multiple escape character.
    Bar,
}

/// The marks of a token, of which 32 need no memory.
pub type Marks = SmallVec<Mark, 32>;

/// What the unused places of a list of marks hold.
impl MadeWith<Global> for Mark {
    ghost use Rattle.token_scan.specs.declared.mark.Mark.TheVariants.{Bar};

    ghost is_made_with = { λ mark. mark ≡ Bar };

    fn made_with(_alloc: Global) -> Mark {
        Mark::Bar
    }
}

/// The characters of the marks, in their case, without bars and escapes.
pub fn characters(alloc: Global, marks: &[Mark]) -> Result<Vec<u8>, AllocError>
    ensures { IfOk result (λ text. text.items ≡ characters marks.now) }
{
    marks
        .iter()
        .filter_map(|mark| character_of(*mark))
        .collect(alloc)
}

fn character_of(mark: Mark) -> Option<u8>
    ensures { result ≡ mark_character mark }
{
    match mark {
        Mark::Plain(c) | Mark::Quoted(c) => Some(c),
        Mark::Bar => None,
    }
}
