// The sum of a text.
ghost use Rattle.std.specs.Prelude.{◌≡◌, ◌++◌, ℕ, List};
ghost use Rattle.crc32c.specs.Register.{after_bits, crc32c, sum_after, text_bits};

use crate::table::after_byte;

// So many bytes are taken at a time, so that the compiler writes their steps one after the other.
const GROUP: usize = 8;
// A register of which each bit is 1.
const ONES: u32 = 0xffff_ffff;

// The register after these bytes.
#[inline(always)]
fn after_bytes(first: u32, bytes: &[u8]) -> u32
    ensures { result ≡ after_bits first (text_bits bytes.now) }
{
    let mut register = first;
    for byte in bytes {
        register = after_byte(register, *byte);
    }
    register
}

/// The CRC-32C of these bytes.
pub fn crc32c(bytes: &[u8]) -> u32
    ensures { result ≡ crc32c bytes.now }
{
    crc32c_append(0, bytes)
}

/// The CRC-32C of a text that ends with these bytes, where `sum` is that of all before them.
pub fn crc32c_append(sum: u32, bytes: &[u8]) -> u32
    ensures after { result ≡ sum_after sum bytes.now }
    ensures whole { (before : List ℕ) → sum ≡ crc32c before → result ≡ crc32c (before ++ bytes.now) }
{
    let mut register = sum ^ ONES;
    let mut at = 0;
    while bytes.len() - at >= GROUP {
        register = after_bytes(register, &bytes[at..at + GROUP]);
        at += GROUP;
    }
    register = after_bytes(register, &bytes[at..]);
    register ^ ONES
}
