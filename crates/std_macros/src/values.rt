//! The value of each standard function.
ghost use Rattle.std.specs.Prelude.{◌≡◌, ◌≢◌, ◌≤◌, ◌<◌, true, codes, length, [], Err, IfOk, IfSome, IsTrue, Option, option_map};
ghost use Rattle.std.specs.List.{list_all, list_any};
ghost use Rattle.lisp_object.specs.Ascii.{is_ascii};
ghost use Rattle.lisp_object.specs.Datum.{is_proper, object_of};
ghost use Rattle.token_scan.specs.Marks.{are_ascii};
ghost use Rattle.token_meaning.specs.Folding.{folded_marks};
ghost use Rattle.token_meaning.specs.Meanings.{is_package_marker};
ghost use Rattle.token_meaning.specs.Results.{view_number};
ghost use Rattle.std_macros.specs.Values.{headed, headed_value, list_value, text_value, character_value, vector_value, is_own_name, uninterned_of, uninterned_value, rational_or_refused, rational_value, value_of};
ghost use Rattle.std_macros.specs.declared.kind.Standard.TheVariants.{Vector};
ghost use Rattle.std_macros.specs.Results.{view_gathered, IsProperGathered, IsSoundDatum, AnswersWithValue, IsProperFinished};

use crate::characters::character;
use crate::vectors::vector;
use crate::{FinishError, Finished, Standard, StdGathered, StdRefusal, radix_of};
use lisp_object::{Bytes, Datum, Items};
use readtable_core::Case;
use std::alloc::{AllocError, Global};
use token_meaning::{MeaningRefusal, fold_case, rational};
use token_scan::{Mark, Marks, characters};

/// What a standard function gives for what was gathered, under the case of the readtable (standard 2.4): an object, nothing,
/// or a refusal. `number` is the number of the call, which functions other than `Vector` and `Radix` ignore. What was gathered
/// fits the way of the function; where it does not, nothing is given. The data in it are proper and sound, and its characters
/// below 128.
///
/// # Errors
///
/// 4 STRAY-CLOSE, 8 NUMBER-RANGE, 9 ZERO-DENOMINATOR, 15 NUMERIC-ARGUMENT, 16 CHARACTER-NAME, 17 RADIX-TOKEN,
/// 18 VECTOR-LENGTH, 19 UNINTERNED-TOKEN, 25 OUT-OF-PROFILE; and out of memory, where an object is given.
pub fn finish(
    alloc: Global,
    kind: Standard,
    case: Case,
    number: Option<u32>,
    gathered: StdGathered,
) -> Result<Finished, FinishError>
    requires { IsProperGathered gathered }
    ensures value { AnswersWithValue result (value_of kind case number (view_gathered gathered)) }
    ensures proper { IfOk result IsProperFinished }
{
    match kind {
        Standard::List => list(alloc, gathered),
        Standard::Close => Err(FinishError::Refused(StdRefusal::StrayClose)),
        Standard::Quote => headed(alloc, b"QUOTE", gathered),
        Standard::Comment | Standard::Block => Ok(Finished::Nothing),
        Standard::String => text(gathered),
        Standard::Out => Err(FinishError::Refused(StdRefusal::OutOfProfile)),
        Standard::Char => character_of(gathered),
        Standard::Function => headed(alloc, b"FUNCTION", gathered),
        Standard::Vector => vector_of(alloc, number, gathered),
        Standard::Uninterned => uninterned(alloc, case, gathered),
        Standard::Binary => rational_in(2, gathered),
        Standard::Octal => rational_in(8, gathered),
        Standard::Hex => rational_in(16, gathered),
        Standard::Radix => match radix_of(number) {
            Some(base) => rational_in(base, gathered),
            None => Err(FinishError::Refused(StdRefusal::NumericArgument)),
        },
    }
}

// ---- lists and texts

fn list(alloc: Global, gathered: StdGathered) -> Result<Finished, FinishError>
    requires { IsProperGathered gathered }
    ensures value { AnswersWithValue result (list_value (view_gathered gathered)) }
    ensures proper { IfOk result IsProperFinished }
{
    match gathered {
        StdGathered::Many(items) => {
            Ok(Finished::One(Datum::list(alloc, items.into_vec(), None)?))
        }
        StdGathered::Dotted { items, tail } => {
            Ok(Finished::One(Datum::list(alloc, items.into_vec(), Some(tail))?))
        }
        _ => Ok(Finished::Nothing),
    }
}

fn text(gathered: StdGathered) -> Result<Finished, FinishError>
    requires { IsProperGathered gathered }
    ensures value { AnswersWithValue result (text_value (view_gathered gathered)) }
    ensures proper { IfOk result IsProperFinished }
{
    match gathered {
        StdGathered::Text(bytes) => Ok(Finished::One(Datum::Text(bytes))),
        _ => Ok(Finished::Nothing),
    }
}

// ---- one object, headed by a symbol

#[inline(always)]
fn headed(alloc: Global, name: &[u8], gathered: StdGathered) -> Result<Finished, FinishError>
    requires proper { IsProperGathered gathered }
    requires name { list_all is_ascii name.now ≡ true }
    ensures value { AnswersWithValue result (headed_value name.now (view_gathered gathered)) }
    ensures proper { IfOk result IsProperFinished }
{
    match gathered {
        StdGathered::One(x) => Ok(Finished::One(headed_list(alloc, name, x)?)),
        _ => Ok(Finished::Nothing),
    }
}

/// The list of the symbol of COMMON-LISP of this name, and of `x`.
#[inline(always)]
fn headed_list(alloc: Global, name: &[u8], x: Datum) -> Result<Datum, AllocError>
    requires name { list_all is_ascii name.now ≡ true }
    ensures object { IfOk result (λ d. object_of d ≡ headed name.now (object_of x)) }
    ensures proper { IsSoundDatum x → IfOk result IsSoundDatum }
{
    let room = Vec::with_capacity(alloc, 2)?;
    let mut items = Items::from_vec(room);
    items.push(symbol(alloc, name)?)?;
    items.push(x)?;
    Ok(Datum::List { items, tail: None })
}

fn symbol(alloc: Global, name: &[u8]) -> Result<Datum, AllocError>
    ensures { IfOk result (λ d. d ≡ Datum.Symbol (codes "COMMON-LISP") name.now) }
{
    Ok(Datum::Symbol {
        package: Bytes::from_slice(alloc, b"COMMON-LISP")?,
        name: Bytes::from_slice(alloc, name)?,
    })
}

// ---- what a token gives

fn character_of(gathered: StdGathered) -> Result<Finished, FinishError>
    requires { IsProperGathered gathered }
    ensures value { AnswersWithValue result (character_value (view_gathered gathered)) }
    ensures proper { IfOk result IsProperFinished }
{
    match gathered {
        StdGathered::Marks(marks) => character(marks.as_slice()),
        _ => Ok(Finished::Nothing),
    }
}

fn uninterned(alloc: Global, case: Case, gathered: StdGathered) -> Result<Finished, FinishError>
    requires { IsProperGathered gathered }
    ensures value { AnswersWithValue result (uninterned_value case (view_gathered gathered)) }
    ensures proper { IfOk result IsProperFinished }
{
    match gathered {
        StdGathered::Marks(marks) => uninterned_symbol(alloc, case, marks),
        _ => Ok(Finished::Nothing),
    }
}

fn uninterned_symbol(alloc: Global, case: Case, marks: Marks) -> Result<Finished, FinishError>
    requires { IsTrue (are_ascii marks.items) }
    ensures value { AnswersWithValue result (uninterned_of case marks.items) }
    ensures proper { IfOk result IsProperFinished }
{
    if !is_own_name(marks.as_slice()) {
        return Err(FinishError::Refused(StdRefusal::UninternedToken));
    }
    let marks = folded(case, marks);
    let name = characters(alloc, marks.as_slice())?;
    Ok(Finished::One(Datum::Uninterned(Bytes::from_vec(name)?)))
}

fn folded(case: Case, mut marks: Marks) -> Marks
    ensures { result.items ≡ folded_marks case marks.items }
{
    fold_case(case, marks.as_mut_slice());
    marks
}

/// Whether a mark is there, and no package marker.
fn is_own_name(marks: &[Mark]) -> bool
    ensures { result ≡ is_own_name marks.now }
{
    match marks {
        [] => false,
        _ => !has_marker(marks),
    }
}

fn has_marker(marks: &[Mark]) -> bool
    ensures { result ≡ list_any is_package_marker marks.now }
{
    marks.iter().any(|mark| matches!(mark, Mark::Plain(b':')))
}

fn rational_in(base: u8, gathered: StdGathered) -> Result<Finished, FinishError>
    requires lowest_base { 2 ≤ base }
    requires highest_base { base ≤ 36 }
    ensures value { AnswersWithValue result (rational_value base (view_gathered gathered)) }
    ensures proper { IfOk result IsProperFinished }
{
    match gathered {
        StdGathered::Marks(marks) => rational_or_refused(rational(marks.as_slice(), base)),
        _ => Ok(Finished::Nothing),
    }
}

fn rational_or_refused(
    found: Option<Result<Datum, MeaningRefusal>>,
) -> Result<Finished, FinishError>
    requires { IfSome found (λ given. IfOk given (λ datum. is_proper datum ≡ true)) }
    ensures value { AnswersWithValue result (rational_or_refused (option_map view_number found)) }
    ensures proper { IfOk result IsProperFinished }
{
    match found {
        None => Err(FinishError::Refused(StdRefusal::RadixToken)),
        Some(given) => match given {
            Ok(datum) => {
                // The number is looked at: it is sound.
                let _proper = datum.is_proper();
                Ok(Finished::One(datum))
            }
            Err(refusal) => Err(FinishError::Refused(StdRefusal::Rational(refusal))),
        },
    }
}

// ---- vectors

fn vector_of(
    alloc: Global,
    number: Option<u32>,
    gathered: StdGathered,
) -> Result<Finished, FinishError>
    requires { IsProperGathered gathered }
    ensures value { AnswersWithValue result (vector_value number (view_gathered gathered)) }
    ensures proper { IfOk result IsProperFinished }
{
    match gathered {
        StdGathered::Many(items) => match number {
            None => Ok(Finished::One(Datum::Vector(items))),
            Some(length) => vector(alloc, length, items),
        },
        _ => Ok(Finished::Nothing),
    }
}
