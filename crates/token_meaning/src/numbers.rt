//! The syntax of numbers, read from left to right with checked sums. In base 10 each character is looked at once; in another
//! base the digits at the front are looked at twice where the token is no rational in that base.
ghost use Rattle.std.specs.Prelude.{◌≡◌, ◌≤◌, ◌<◌, ℕ, List, ◌∷◌, true, ◌&&◌, IfOk, IfSome, option_map};
ghost use Rattle.lisp_object.specs.Datum.{is_proper};
ghost use Rattle.token_meaning.specs.Numbers.{is_exponent_marker, integer_of, ratio_of, rational_form, decimal_or_float_form, number_in_base, rational_number};
ghost use Rattle.token_meaning.specs.Leading.{codes_of, IsLeading, after_code, is_exponent};
ghost use Rattle.token_meaning.specs.Results.{view_number, IsSigned, IsWorth};

use crate::MeaningRefusal;
use crate::numerals::{Leading, is_end, is_negative, leading_digits, numeral, without_sign};
use lisp_object::{Datum, Ratio};
use token_scan::Mark;

/// What the marks give as a number in `base`, which is 2 to 36 (standard 2.3.1, 2.3.2); None where they are in no syntax of
/// numbers. An escaped character and a bar are in none. Takes no memory.
pub(crate) fn number(marks: &[Mark], base: u8) -> Option<Result<Datum, MeaningRefusal>>
    requires lowest_base { 2 ≤ base }
    requires highest_base { base ≤ 36 }
    ensures gives { number_in_base base (codes_of marks.now) ≡ option_map view_number result }
    ensures proper { IfSome result (λ given. IfOk given (λ datum. is_proper datum ≡ true)) }
{
    let text = without_sign(marks);
    let negative = is_negative(marks);
    let whole = leading_digits(text, base);
    if let Some(given) = rational_form(negative, whole, base) {
        return Some(given);
    }
    if base == 10 {
        decimal_or_float(negative, whole)
    } else {
        decimal_or_float(negative, leading_digits(text, 10))
    }
}

/// What the marks give as an integer or a ratio of digits in `base`, which is 2 to 36; None where they are none. Takes no
/// memory.
pub(crate) fn rational_number(marks: &[Mark], base: u8) -> Option<Result<Datum, MeaningRefusal>>
    requires lowest_base { 2 ≤ base }
    requires highest_base { base ≤ 36 }
    ensures gives { rational_number base (codes_of marks.now) ≡ option_map view_number result }
    ensures proper { IfSome result (λ given. IfOk given (λ datum. is_proper datum ≡ true)) }
{
    let whole = leading_digits(without_sign(marks), base);
    rational_form(is_negative(marks), whole, base)
}

/// An integer or a ratio of digits in `base`, which begins with the digits `whole`.
fn rational_form(
    negative: bool,
    whole: Leading<'_>,
    base: u8,
) -> Option<Result<Datum, MeaningRefusal>>
    requires lowest_base { 2 ≤ base }
    requires highest_base { base ≤ 36 }
    ensures gives { (text : List ℕ)
        → IsLeading base text whole.entry.some whole.entry.size (codes_of whole.entry.rest.now)
        → rational_form base negative text ≡ option_map view_number result }
    ensures proper { IfSome result (λ given. IfOk given (λ datum. is_proper datum ≡ true)) }
{
    if !whole.some {
        return None;
    }
    if is_end(whole.rest) {
        return Some(integer(negative, whole.size));
    }
    let below = after(b'/', whole.rest)?;
    let denominator = numeral(below, base)?;
    Some(ratio(negative, whole.size, denominator))
}

/// An integer in decimal digits with the point at the end (standard 2.3.1), or a float (standard 2.3.2.2), which begins with
/// the decimal digits `whole`.
fn decimal_or_float(negative: bool, whole: Leading<'_>) -> Option<Result<Datum, MeaningRefusal>>
    ensures gives { (text : List ℕ)
        → IsLeading 10 text whole.entry.some whole.entry.size (codes_of whole.entry.rest.now)
        → decimal_or_float_form negative text ≡ option_map view_number result }
    ensures proper { IfSome result (λ given. IfOk given (λ datum. is_proper datum ≡ true)) }
{
    match after(b'.', whole.rest) {
        Some(rest) => after_point(negative, whole, leading_digits(rest, 10)),
        None if has_exponent(whole.some, whole.rest) => Some(Err(MeaningRefusal::FloatToken)),
        None => None,
    }
}

/// The same where the point comes after the digits `whole`, and the digits `fraction` after the point.
fn after_point(
    negative: bool,
    whole: Leading<'_>,
    fraction: Leading<'_>,
) -> Option<Result<Datum, MeaningRefusal>>
    ensures gives { (text after : List ℕ)
        → IsLeading 10 text whole.entry.some whole.entry.size (46 ∷ after)
        → IsLeading 10 after fraction.entry.some fraction.entry.size (codes_of fraction.entry.rest.now)
        → decimal_or_float_form negative text ≡ option_map view_number result }
    ensures proper { IfSome result (λ given. IfOk given (λ datum. is_proper datum ≡ true)) }
{
    if !is_end(fraction.rest) {
        if has_exponent(whole.some | fraction.some, fraction.rest) {
            return Some(Err(MeaningRefusal::FloatToken));
        }
        return None;
    }
    if fraction.some {
        return Some(Err(MeaningRefusal::FloatToken));
    }
    if whole.some {
        return Some(integer(negative, whole.size));
    }
    None
}

/// What comes after the character `c`, where it is the first.
fn after(c: u8, marks: &[Mark]) -> Option<&[Mark]>
    requires { 0 < c }
    ensures { option_map (λ rest. codes_of rest.now) result ≡ after_code c (codes_of marks.now) }
{
    match marks {
        [Mark::Plain(first), rest @ ..] if *first == c => Some(rest),
        _ => None,
    }
}

/// Whether there are digits, and an exponent comes after them.
fn has_exponent(some: bool, marks: &[Mark]) -> bool
    ensures { result ≡ (some && is_exponent (codes_of marks.now)) }
{
    some && is_exponent(marks)
}

/// Whether it is an exponent marker and decimal digits, perhaps with a sign between them (standard 2.3.2.2).
fn is_exponent(marks: &[Mark]) -> bool
    ensures { result ≡ is_exponent (codes_of marks.now) }
{
    match marks {
        [Mark::Plain(c), rest @ ..] if is_exponent_marker(*c) => {
            numeral(without_sign(rest), 10).is_some()
        }
        _ => false,
    }
}

fn is_exponent_marker(c: u8) -> bool
    ensures { result ≡ is_exponent_marker c }
{
    matches!(
        c,
        b'e' | b'E' | b's' | b'S' | b'f' | b'F' | b'd' | b'D' | b'l' | b'L'
    )
}

// ---- what the digits give

/// The integer of this size; None is a size beyond 128 bits.
fn integer(negative: bool, size: Option<u128>) -> Result<Datum, MeaningRefusal>
    ensures gives { (worth : ℕ) → IsWorth size worth → view_number result ≡ integer_of negative worth }
    ensures proper { IfOk result (λ datum. is_proper datum ≡ true) }
{
    let n = signed_value(negative, size)?;
    Ok(Datum::Integer(n))
}

/// The quotient of these sizes.
fn ratio(
    negative: bool,
    numerator: Option<u128>,
    denominator: Option<u128>,
) -> Result<Datum, MeaningRefusal>
    ensures gives { (above below : ℕ) → IsWorth numerator above → IsWorth denominator below
        → view_number result ≡ ratio_of negative above below }
    ensures proper { IfOk result (λ datum. is_proper datum ≡ true) }
{
    let Some(d) = denominator else {
        return Err(MeaningRefusal::NumberRange);
    };
    if d == 0 {
        return Err(MeaningRefusal::ZeroDenominator);
    }
    let n = signed_value(negative, numerator)?;
    match Ratio::reduce(n, d) {
        Some(datum) => Ok(datum),
        None => Err(MeaningRefusal::ZeroDenominator),
    }
}

/// The number of this size, below zero or not.
fn signed_value(negative: bool, size: Option<u128>) -> Result<i128, MeaningRefusal>
    ensures { (worth : ℕ) → IsWorth size worth → IsSigned negative worth result }
{
    match size {
        Some(size) => signed(negative, size),
        None => Err(MeaningRefusal::NumberRange),
    }
}

fn signed(negative: bool, size: u128) -> Result<i128, MeaningRefusal>
    ensures { IsSigned negative size result }
{
    match i128::try_from(size) {
        Ok(n) if negative => Ok(-n),
        Ok(n) => Ok(n),
        Err(_) if negative && size == 1 << 127 => Ok(i128::MIN),
        Err(_) => Err(MeaningRefusal::NumberRange),
    }
}
