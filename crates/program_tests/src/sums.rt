//! The sum of a text, by which damage is found.
ghost use Rattle.std.specs.Prelude.{◌≡◌, ℕ, List, false};
ghost use Rattle.crc32c.specs.Burst.{IsBurst};
ghost use Rattle.crc32c.specs.Register.{crc32c};

use crc32c::{bursts, crc32c, crc32c_append, known_sums};
use std::test::Fail;

// The text of which each implementation tells its sum.
const DIGITS: &[u8] = b"123456789";

/// Whether a text has this sum. Of a text that had it and was damaged in a burst of at most 32 bits it has not.
fn has_sum(text: &[u8], sum: u32) -> bool
    ensures { (was : List ℕ) → sum ≡ crc32c was → IsBurst 32 was text.now → result ≡ false }
{
    bursts();
    crc32c(text) == sum
}

/// The sum of the digits from 1 to 9.
fn sum_of_digits() -> u32
    ensures { result ≡ 0xE3069283 }
{
    known_sums();
    crc32c(DIGITS)
}

#[test]
fn a_burst_is_found(rt: HostRuntime) -> Result<(), Fail> {
    let sum = sum_of_digits();
    assert!(rt; sum == 0xe306_9283);
    assert!(rt; has_sum(DIGITS, sum));
    assert!(rt; !has_sum(b"123456788", sum));
    assert!(rt; !has_sum(b"123\x00\xff6789", sum));
    Ok(())
}

#[test]
fn pieces_have_the_sum_of_the_whole(rt: HostRuntime) -> Result<(), Fail> {
    let front = crc32c(&DIGITS[..4]);
    assert!(rt; crc32c_append(front, &DIGITS[4..]) == sum_of_digits());
    Ok(())
}
