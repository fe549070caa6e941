//! Numerals: digits in a base, and what they are worth.
ghost use Rattle.std.specs.Prelude.{◌≡◌, ◌+◌, ◌*◌, ◌^◌, ◌<◌, ◌≤◌, ℕ, false, MatchOption};
ghost use Rattle.std.specs.Option.{SomeIff};
ghost use Rattle.std.specs.Char.{digit_value};
ghost use Rattle.token_meaning.specs.Numerals.{is_empty, without_sign, is_negative};
ghost use Rattle.token_meaning.specs.Leading.{code_of, codes_of, begins_with_digit, IsFirstDigit, IsLeading, IsNumeralSize};
ghost use Rattle.token_meaning.specs.Results.{IsWorth};

use token_scan::Mark;

/// The digits at the front of marks.
#[derive(Clone, Copy)]
pub(crate) struct Leading<'a> {
    /// Whether there is a digit.
    pub some: bool,
    /// What they are worth; None where that is beyond 128 bits.
    pub size: Option<u128>,
    /// What comes after them.
    pub rest: &'a [Mark],
}

/// The digits in `base`, which is 2 to 36, at the front of `marks`.
pub(crate) fn leading_digits(marks: &[Mark], base: u8) -> Leading<'_>
    requires lowest_base { 2 ≤ base }
    requires highest_base { base ≤ 36 }
    ensures { IsLeading base (codes_of marks.now) result.some result.size (codes_of result.rest.now) }
{
    let mut some = false;
    let mut size = Some(0);
    let mut rest = marks;
    while let Some((digit, more)) = first_digit(rest, base) {
        some = true;
        size = with_digit(size, digit, base);
        rest = more;
    }
    Leading { some, size, rest }
}

/// What `marks` are worth where they are one digit or more in `base`, which is 2 to 36, and nothing else. The size is None
/// where it is beyond 128 bits.
pub(crate) fn numeral(marks: &[Mark], base: u8) -> Option<Option<u128>>
    requires lowest_base { 2 ≤ base }
    requires highest_base { base ≤ 36 }
    ensures { IsNumeralSize base (codes_of marks.now) result }
{
    let whole = leading_digits(marks, base);
    if !whole.some {
        return None;
    }
    if !is_end(whole.rest) {
        return None;
    }
    Some(whole.size)
}

/// The digit in `base`, which is 2 to 36, that is first, and what comes after it.
fn first_digit(marks: &[Mark], base: u8) -> Option<(u32, &[Mark])>
    requires lowest_base { 2 ≤ base }
    requires highest_base { base ≤ 36 }
    ensures { MatchOption result (begins_with_digit base (codes_of marks.now) ≡ false)
        (λ found. IsFirstDigit base (codes_of marks.now) found.0 (codes_of found.1.now)) }
{
    match marks {
        [] => None,
        [mark, rest @ ..] => {
            let digit = digit_of(*mark, base)?;
            Some((digit, rest))
        }
    }
}

/// Whether nothing is there.
pub(crate) fn is_end(marks: &[Mark]) -> bool
    ensures { result ≡ is_empty (codes_of marks.now) }
{
    match marks {
        [] => true,
        _ => false,
    }
}

/// The number that the mark writes as a digit in `base`, which is 2 to 36.
fn digit_of(mark: Mark, base: u8) -> Option<u32>
    requires lowest_base { 2 ≤ base }
    requires highest_base { base ≤ 36 }
    ensures { SomeIff result (digit_value (code_of mark) < base) (digit_value (code_of mark)) }
{
    match mark {
        Mark::Plain(c) => char::from(c).to_digit(u32::from(base)),
        _ => None,
    }
}

/// The number that one more digit writes after those of `size`; None where it is beyond 128 bits.
fn with_digit(size: Option<u128>, digit: u32, base: u8) -> Option<u128>
    requires { 2 ≤ base }
    ensures { (worth : ℕ) → IsWorth size worth → IsWorth result (worth * base + digit) }
{
    sum_with(size?, digit, base)
}

fn sum_with(sum: u128, digit: u32, base: u8) -> Option<u128>
    ensures { SomeIff result (sum * base + digit < 2 ^ 128) (sum * base + digit) }
{
    sum.checked_mul(u128::from(base))?
        .checked_add(u128::from(digit))
}

/// The marks after the sign at their front, if there is one.
pub(crate) fn without_sign(marks: &[Mark]) -> &[Mark]
    ensures { codes_of result.now ≡ without_sign (codes_of marks.now) }
{
    match marks {
        [Mark::Plain(b'+' | b'-'), rest @ ..] => rest,
        _ => marks,
    }
}

/// Whether a minus is at the front.
pub(crate) fn is_negative(marks: &[Mark]) -> bool
    ensures { result ≡ is_negative (codes_of marks.now) }
{
    match marks {
        [Mark::Plain(b'-'), ..] => true,
        _ => false,
    }
}
