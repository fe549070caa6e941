//! The parts of the objects of a snapshot: texts, lists and numbers.
ghost use Rattle.std.specs.Prelude.{◌≡◌, ◌<◌, ℕ, List, true, All, map, pos, IfOk};
ghost use Rattle.std.specs.List.{list_all};
ghost use Rattle.lisp_object.specs.Object.{Object, text, list_of};
ghost use Rattle.lisp_object.specs.Datum.{object_of, is_proper};
ghost use Rattle.world_text.specs.Snapshot.{number};
ghost use Rattle.snapshot_lines.specs.PartAnswers.{SucceedsWith};

use lisp_object::{Bytes, Datum};
use snapshot_lines::BuildError;

// The bytes of a text. `Damaged` where it is another object.
pub(crate) fn text_in(datum: &Datum) -> Result<&Bytes, BuildError>
    ensures same { IfOk result (λ bytes. datum.now ≡ Datum.Text bytes.now) }
    ensures read { is_proper datum.now ≡ true → (bytes : List ℕ) → object_of datum.now ≡ text bytes
        → SucceedsWith result (λ read. read.now ≡ bytes) }
{
    match datum {
        Datum::Text(bytes) => Ok(bytes),
        _ => Err(BuildError::Damaged),
    }
}

// The items of a list that ends in NIL. `Damaged` where it is another object.
pub(crate) fn items_in(datum: &Datum) -> Result<&[Datum], BuildError>
    ensures same { IfOk result (λ items. object_of datum.now ≡ list_of (map object_of items.now)) }
    ensures read { is_proper datum.now ≡ true → (xs : List Object)
        → object_of datum.now ≡ list_of xs
        → SucceedsWith result (λ items. (map object_of items.now ≡ xs)
        × (list_all is_proper items.now ≡ true)) }
{
    if datum.is_nil() {
        return Ok(&[]);
    }
    match datum {
        Datum::List { items, tail } => match tail {
            None => Ok(items.as_slice()),
            Some(_) => Err(BuildError::Damaged),
        },
        _ => Err(BuildError::Damaged),
    }
}

// A number below 128. `Damaged` where it is another object.
pub(crate) fn character_in(datum: &Datum) -> Result<u8, BuildError>
    ensures number { IfOk result (λ n. datum.now ≡ Datum.Integer (pos n)) }
    ensures below { IfOk result (λ n. n < 128) }
    ensures read { is_proper datum.now ≡ true → (n : ℕ) → object_of datum.now ≡ number n → n < 128
        → SucceedsWith result (λ read. read ≡ n) }
{
    match datum {
        Datum::Integer(n) => match u8::try_from(*n) {
            Ok(n) if n < 128 => Ok(n),
            _ => Err(BuildError::Damaged),
        },
        _ => Err(BuildError::Damaged),
    }
}
