//! The case of a token's letters.
ghost use Rattle.std.specs.Prelude.{◌≡◌, IsTrue};
ghost use Rattle.readtable_core.specs.Characters.{upper_case};
ghost use Rattle.token_scan.specs.Marks.{are_ascii};
ghost use Rattle.token_meaning.specs.Folding.{lower_case, on_plain, in_upper_case, in_lower_case, has_upper_case, has_lower_case, inverted_marks, folded_marks};

use readtable_core::Case;
use token_scan::Mark;

/// Folds the case of a token (standard 23.1.2), in place. `marks` are those of the whole token, its package prefix
/// included. Letters that were escaped stay as they are. `Invert` turns all the letters to the other case where they have
/// one case, and else none. Takes no memory.
pub fn fold_case(case: Case, marks: &mut [Mark])
    ensures value { marks.new ≡ folded_marks case marks.old }
    ensures ascii { IsTrue (are_ascii marks.old) → IsTrue (are_ascii marks.new) }
{
    fold(case, marks);
}

fn fold(case: Case, marks: &mut [Mark])
    ensures { marks.new ≡ folded_marks case marks.old }
{
    match case {
        Case::Upcase => upcase(marks),
        Case::Downcase => downcase(marks),
        Case::Preserve => {}
        Case::Invert => invert(marks),
    }
}

fn invert(marks: &mut [Mark])
    ensures { marks.new ≡ inverted_marks marks.old }
{
    if !has_upper_case(marks) {
        upcase(marks);
    } else if !has_lower_case(marks) {
        downcase(marks);
    }
}

fn upcase(marks: &mut [Mark])
    ensures { marks.new ≡ in_upper_case marks.old }
{
    for mark in marks.iter_mut() {
        upper(mark);
    }
}

fn downcase(marks: &mut [Mark])
    ensures { marks.new ≡ in_lower_case marks.old }
{
    for mark in marks.iter_mut() {
        lower(mark);
    }
}

fn upper(mark: &mut Mark)
    ensures { mark.new ≡ on_plain upper_case mark.old }
{
    *mark = upper_case(*mark);
}

fn lower(mark: &mut Mark)
    ensures { mark.new ≡ on_plain lower_case mark.old }
{
    *mark = lower_case(*mark);
}

fn upper_case(mark: Mark) -> Mark
    ensures { result ≡ on_plain upper_case mark }
{
    match mark {
        Mark::Plain(c) if c.is_ascii_lowercase() => Mark::Plain(c - 32),
        _ => mark,
    }
}

fn lower_case(mark: Mark) -> Mark
    ensures { result ≡ on_plain lower_case mark }
{
    match mark {
        Mark::Plain(c) if c.is_ascii_uppercase() => Mark::Plain(c + 32),
        _ => mark,
    }
}

fn has_upper_case(marks: &[Mark]) -> bool
    ensures { result ≡ has_upper_case marks.now }
{
    marks
        .iter()
        .any(|mark| matches!(mark, Mark::Plain(b'A'..=b'Z')))
}

fn has_lower_case(marks: &[Mark]) -> bool
    ensures { result ≡ has_lower_case marks.now }
{
    marks
        .iter()
        .any(|mark| matches!(mark, Mark::Plain(b'a'..=b'z')))
}
