//! A literal, which SETF puts to a place.
ghost use Rattle.std.specs.Prelude.{◌≡◌, true, false};
ghost use Rattle.lisp_object.specs.Datum.{object_of, is_proper};
ghost use Rattle.plain_reader.specs.SelfEvaluating.{is_self_evaluating};

use lisp_object::Datum;

/// A literal: an object that was quoted, without its quote, or one that evaluates to itself.
#[derive(Drop)]
pub struct Literal {
    pub datum: Datum,
    pub is_quoted: bool,
    ghost proper: { is_proper datum ≡ true },
    ghost evaluates: { is_quoted ≡ false → is_self_evaluating (object_of datum) ≡ true },
}
