//! Vectors with a length (standard 2.4.8.3).
ghost use Rattle.std.specs.Prelude.{◌≡◌, ◌+◌, ◌*◌, ◌-◌, ◌^◌, ◌<◌, ◌≤◌, Some, true, nat_le, sum, map, replicate, ◌++◌, if◌then◌else◌, Err, IfOk};
ghost use Rattle.std.specs.List.{list_all};
ghost use Rattle.std.specs.Option.{SomeIff};
ghost use Rattle.lisp_object.specs.Datum.{object_of, is_proper, size};
ghost use Rattle.lisp_object.specs.Object.{vector as vector_object, list_of};
ghost use Rattle.std_macros.specs.declared.refusal.StdRefusal.TheVariants.{VectorLength};
ghost use Rattle.std_macros.specs.Values.{gives_one, vector_of};
ghost use Rattle.std_macros.specs.Results.{AreSoundData, AnswersWithValue, IsProperFinished};

use crate::{FinishError, Finished, StdRefusal};
use lisp_object::{Datum, Items};
use std::alloc::{AllocError, Global};

/// The largest size of a vector whose last object is repeated.
pub const LARGEST_REPEATED_VECTOR: u64 = 1_000_000;

/// The vector of this length that begins with these objects, the last of which is repeated where they are fewer.
/// Refused as `VectorLength` where they are more, or none is there to repeat.
pub(crate) fn vector(
    alloc: Global,
    length: u32,
    items: Items<Datum>,
) -> Result<Finished, FinishError>
    requires { AreSoundData items }
    ensures value { AnswersWithValue result (vector_of (Some length) (map object_of items)) }
    ensures proper { IfOk result IsProperFinished }
{
    let count = items.len() as u64;
    let length = u64::from(length);
    if length < count {
        return Err(FinishError::Refused(StdRefusal::VectorLength));
    }
    if length == count {
        return Ok(Finished::One(Datum::Vector(items)));
    }
    let mut front = items.into_vec();
    let Some(last) = front.pop() else {
        return Err(FinishError::Refused(StdRefusal::VectorLength));
    };
    repeating(alloc, front, last, length - count)
}

/// The vector of the front, and of the last object once and so many times more, where it is not too large.
fn repeating(
    alloc: Global,
    front: Vec<Datum>,
    last: Datum,
    copies: u64,
) -> Result<Finished, FinishError>
    requires copies { copies < 2 ^ 32 }
    requires proper { AreSoundData (front.items ++ replicate (copies + 1) last) }
    ensures value { AnswersWithValue result
        (if nat_le (sum (map size front.items) + (copies + 1) * size last + 1) LARGEST_REPEATED_VECTOR
        then gives_one (vector_object (list_of (map object_of (front.items ++ replicate (copies + 1) last)))) else Err VectorLength) }
    ensures proper { IfOk result IsProperFinished }
{
    // Nothing is copied for a vector that is too large.
    if !fits(front.as_slice(), &last, copies) {
        return Err(FinishError::Refused(StdRefusal::VectorLength));
    }
    Ok(Finished::One(Datum::Vector(repeated(alloc, front, last, copies)?)))
}

/// The front, and the last object after it that is in it so many times more.
fn repeated(
    alloc: Global,
    front: Vec<Datum>,
    last: Datum,
    copies: u64,
) -> Result<Items<Datum>, AllocError>
    ensures { IfOk result (λ items. items ≡ front.items ++ replicate (copies + 1) last) }
{
    let mut items = front;
    for _ in 0..copies {
        items.push(last.copy(alloc)?)?;
    }
    items.push(last)?;
    Ok(Items::from_vec(items))
}

/// Whether a vector of the front, and of the last object once and so many times more, is not too large.
#[tactic(auto, using(crate::proofs::Repeating::times_room, crate::proofs::Repeating::no_room))]
fn fits(front: &[Datum], last: &Datum, copies: u64) -> bool
    requires { copies < 2 ^ 32 }
    ensures { result
        ≡ nat_le (sum (map size front.now) + (copies + 1) * size last.now + 1) LARGEST_REPEATED_VECTOR }
{
    match room_after(front, LARGEST_REPEATED_VECTOR - 1) {
        Some(room) => times_fit(last.size(), copies + 1, room),
        None => false,
    }
}

/// What is left of the room after these.
fn room_after(items: &[Datum], room: u64) -> Option<u64>
    requires { room < 2 ^ 64 - 1 }
    ensures { SomeIff result (sum (map size items.now) ≤ room) (room - sum (map size items.now)) }
{
    let mut left = room;
    for item in items {
        left = left.checked_sub(item.size())?;
    }
    Some(left)
}

/// Whether so many objects of this size have room. A size of 2^64-1 may be more than that.
fn times_fit(size: u64, times: u64, room: u64) -> bool
    ensures { result ≡ nat_le (times * size) room }
{
    match times.checked_mul(size) {
        Some(total) => total <= room,
        None => false,
    }
}
