//! How many steps data are: about what it costs to copy them.
ghost use Rattle.std.specs.Prelude.{◌≡◌, ◌+◌, ◌-◌, ◌^◌, length, min, sum, map, unwrap_or, option_map};
ghost use Rattle.lisp_object.specs.Object.{list_of};
ghost use Rattle.lisp_object.specs.Datum.{object_of};
ghost use Rattle.lisp_operators.specs.EvaluationAnswers.{IsProper, AreProper, objects};
ghost use Rattle.kept_functions.specs.Counting.{weight};
ghost use Rattle.kept_functions.specs.Weights.{datum_weight};

use lisp_object::{Boxed, Datum, Items};

/// One for each atom, list and vector, as its size, and one for each character of a text and of a name. More than 2^64-1 counts as
/// that.
#[tactic(auto, using(crate::proofs::Weighing::weight_object))]
pub fn weight(datum: &Datum) -> u64
    requires { IsProper datum.now }
    ensures { result ≡ min (weight (object_of datum.now)) (2 ^ 64 - 1) }
{
    weighed(datum)
}

/// The weight of a list of these; of none it is that of NIL.
#[tactic(auto, using(crate::proofs::Weighing::weight_of_some, crate::proofs::Weighing::weight_of_none))]
pub fn weight_of_list(items: &[Datum]) -> u64
    requires { AreProper items.now }
    ensures { result ≡ min (weight (list_of (objects items.now))) (2 ^ 64 - 1) }
{
    if items.is_empty() {
        return 4;
    }
    total_weight(items).saturating_add(1)
}

#[cycle(weighing)]
#[tactic(auto, using(crate::proofs::Weighing::datum_weight_laws))]
fn weighed(datum: &Datum) -> u64
    ensures { result ≡ min (datum_weight datum.now) (2 ^ 64 - 1) }
{
    match datum {
        Datum::List { items, tail } => {
            let items = items_weight(items);
            let tail = tail_weight(tail);
            items.saturating_add(tail).saturating_add(1)
        }
        Datum::Vector(items) => items_weight(items).saturating_add(1),
        Datum::Text(characters) => name_weight(characters.as_slice()),
        Datum::Symbol { name, .. } => name_weight(name.as_slice()),
        Datum::Uninterned(name) => name_weight(name.as_slice()),
        Datum::Integer(_) => 1,
        Datum::Rational(_) => 1,
        Datum::Char(_) => 1,
    }
}

#[cycle(weighing)]
fn items_weight(items: &Items<Datum>) -> u64
    ensures { result ≡ min (sum (map datum_weight items.now)) (2 ^ 64 - 1) }
{
    total_weight(items.as_slice())
}

#[cycle(weighing)]
fn total_weight(items: &[Datum]) -> u64
    ensures { result ≡ min (sum (map datum_weight items.now)) (2 ^ 64 - 1) }
{
    let mut total = 0u64;
    for item in items {
        total = total.saturating_add(weighed(item));
    }
    total
}

#[cycle(weighing)]
fn tail_weight(tail: &Option<Boxed<Datum>>) -> u64
    ensures { result ≡ min (unwrap_or (option_map datum_weight tail.now) 0) (2 ^ 64 - 1) }
{
    match tail {
        None => 0,
        Some(tail) => weighed(tail.get()),
    }
}

// The weight of a text or a name of these characters.
fn name_weight(characters: &[u8]) -> u64
    ensures { result ≡ min (length characters.now + 1) (2 ^ 64 - 1) }
{
    let length = characters.len() as u64;
    length.saturating_add(1)
}
