//! A number at the front of bytes, and the byte that ends it.
ghost use Rattle.std.specs.Prelude.{◌<◌, IfNone, IfSome};
ghost use Rattle.message_frames.specs.Numbers.{AddsDigit, AddsNone, HasRole, ReadsNumber};

use crate::words::NotWhole;

/// The number that the bytes begin with, in digits without a leading zero, at most this one, and what comes after the
/// byte that ends it. Else whether more bytes may still make one there.
pub(crate) fn read_number(bytes: &[u8], most: u64, end: u8) -> Result<(u64, &[u8]), NotWhole>
    requires { end < 48 }
    ensures { ReadsNumber end most bytes.now result }
{
    let mut number = None;
    for (i, byte) in bytes.iter().enumerate() {
        match role_of(*byte, number, most, end) {
            Role::Digit(more) => number = Some(more),
            Role::End(whole) => return Ok((whole, &bytes[i + 1..])),
            Role::Other => return Err(NotWhole::Malformed),
        }
    }
    Err(NotWhole::Begun)
}

// What a byte is after the digits of a number.
#[derive(Clone, Copy)]
enum Role {
    // A digit more, and the number then.
    Digit(u64),
    // The end of this number.
    End(u64),
    // Neither.
    Other,
}

fn role_of(byte: u8, number: Option<u64>, most: u64, end: u8) -> Role
    ensures { HasRole byte number most end result }
{
    match number {
        Some(whole) if byte == end => Role::End(whole),
        _ => match with_digit(number, byte, most) {
            Some(more) => Role::Digit(more),
            None => Role::Other,
        },
    }
}

// The number of these digits and one more: if it is one, if no leading zero comes before it, and if the number is not too great.
fn with_digit(number: Option<u64>, byte: u8, most: u64) -> Option<u64>
    ensures some { IfSome result (AddsDigit number byte most) }
    ensures none { IfNone result (AddsNone number byte most) }
{
    if !byte.is_ascii_digit() || number == Some(0) {
        return None;
    }
    let digit = u128::from(byte - b'0');
    let more = u128::from(number.unwrap_or(0)) * 10 + digit;
    if more <= u128::from(most) {
        Some(more as u64)
    } else {
        None
    }
}
