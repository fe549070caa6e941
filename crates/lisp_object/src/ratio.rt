//! Ratios in lowest terms.
ghost use Rattle.std.specs.Prelude.{◌≡◌, ◌<◌, pos, true, IfSome, option_map, unsigned_abs, int_div};
ghost use Rattle.std.specs.Int.{IsGcd};
ghost use Prim.Native.Nat.{◌∣◌};
ghost use Rattle.lisp_object.specs.Lowest.{IsLowest};
ghost use Rattle.lisp_object.specs.Quotient.{gcd, quotient};
ghost use Rattle.lisp_object.specs.Datum.{object_of, is_proper};

use crate::Datum;
use std::marker::Model;

/// A ratio that is no integer: its denominator is over 1, and no number over 1 divides both parts (standard 2.3.2).
#[derive(Clone, Copy, Debug, PartialEq, Eq)]
pub struct Ratio {
    numerator: i128,
    denominator: u128,
}

impl Model for Ratio {
    ghost use Rattle.std.specs.Prelude.{ℕ, ℤ};
    ghost use Rattle.lisp_object.specs.Lowest.{IsLowest};

    ghost Value = { ℤ × ℕ };

    ghost view = { λ r. (r.numerator, r.denominator) };

    ghost invariant = { λ r. IsLowest r.numerator r.denominator };

    ghost inverse = { λ v. record { numerator = v.0; denominator = v.1 } };
}

impl Ratio {
    /// The numerator, whose sign is that of the ratio.
    pub fn numerator(&self) -> i128
        ensures value { result ≡ self.now.0 }
        ensures lowest { IsLowest self.now.0 self.now.1 }
    {
        self.numerator
    }

    /// The denominator.
    pub fn denominator(&self) -> u128
        ensures value { result ≡ self.now.1 }
        ensures lowest { IsLowest self.now.0 self.now.1 }
    {
        self.denominator
    }

    /// The quotient of `n` by `d` in lowest terms (standard 2.3.1, 2.3.2), an integer where its denominator is 1; None
    /// where `d` is 0. It takes no memory.
    pub fn reduce(n: i128, d: u128) -> Option<Datum>
        ensures value { option_map object_of result ≡ quotient n d }
        ensures proper { IfSome result (λ datum. is_proper datum ≡ true) }
    {
        if d == 0 {
            return None;
        }
        let divisor = greatest_divisor(n.unsigned_abs(), d);
        let numerator = divided(n, divisor);
        let denominator = d / divisor;
        if denominator == 1 {
            return Some(Datum::Integer(numerator));
        }
        Some(Datum::Rational(Ratio {
            numerator,
            denominator,
        }))
    }
}

// The greatest number that divides both.
fn greatest_divisor(a: u128, b: u128) -> u128
    requires { 0 < b }
    ensures value { result ≡ gcd a b }
    ensures divides { IsGcd a b result }
{
    let mut x = a;
    let mut y = b;
    while y != 0 {
        let rest = x % y;
        x = y;
        y = rest;
    }
    x
}

// `n` divided by a number that divides it: a divisor of 2^127 or more divides only 0 and -2^127.
fn divided(n: i128, divisor: u128) -> i128
    requires over_zero { 0 < divisor }
    requires divides { divisor ∣ unsigned_abs n }
    ensures { result ≡ int_div n (pos divisor) }
{
    match i128::try_from(divisor) {
        Ok(divisor) => n / divisor,
        Err(_) => n.signum(),
    }
}
