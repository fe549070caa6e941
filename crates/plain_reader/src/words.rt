//! Names without a package prefix, and integers, seen from their bytes.
ghost use Rattle.std.specs.Prelude.{◌≡◌, ◌+◌, ◌*◌, ◌^◌, ◌-◌, ◌<◌, ◌==◌, map, not, true, IfOk, IfSome, IsTrue};
ghost use Rattle.std.specs.List.{list_all, list_any};
ghost use Rattle.lisp_object.specs.Ascii.{is_ascii};
ghost use Rattle.readtable_core.specs.Characters.{is_lower_case, upper_case, is_digit};
ghost use Rattle.token_meaning.specs.Numerals.{is_numeral, numeral_value};
ghost use Rattle.plain_reader.specs.Tokens.{IsToken};
ghost use Rattle.plain_reader.specs.Words.{is_word};
ghost use Rattle.plain_reader.specs.Plain.{AreSymbolsThere, IfStill};

use crate::context::PlainContext;
use lisp_object::Bytes;
use lisp_reading::HeldObject;
use package_table::Resolved;
use std::alloc::{AllocError, Global};

/// A name of at most so many bytes is made on the stack.
const ON_STACK: usize = 16;

/// Whether the first byte begins no number, and no byte is a colon.
pub(crate) fn is_word(bytes: &[u8]) -> bool
    ensures { result ≡ is_word bytes.now }
{
    match bytes {
        [] => false,
        [c, ..] => *c > b'9' && !has_colon(bytes),
    }
}

fn has_colon(bytes: &[u8]) -> bool
    ensures { result ≡ list_any (λ c. c == 58) bytes.now }
{
    bytes.iter().any(|c| *c == b':')
}

/// The symbol of such a token. None says that the name resolves to no symbol, and that the text is to be read as any other.
#[inline(always)]
pub(crate) fn word(
    with: &PlainContext<'_>,
    known: &mut bool,
    bytes: &[u8],
) -> Result<Option<HeldObject>, AllocError>
    requires standard { IsTrue with.now.standard }
    requires word { IsTrue (is_word bytes.now) }
    requires ascii { list_all is_ascii bytes.now ≡ true }
    ensures token { IfOk result (λ found. IfSome found (IsToken with.now bytes.now)) }
    ensures known { IfOk result (λ found. IfStill known.old known.new
        (IfSome found (AreSymbolsThere with.now))) }
{
    with.packages.soundness();
    let name = upcased(with.alloc, bytes)?;
    match with.current_package.resolve(name.as_slice()) {
        Ok(Resolved::Found(home)) => Ok(Some(HeldObject::symbol(with.alloc, home, name)?)),
        Ok(Resolved::New(home)) => {
            *known = false;
            Ok(Some(HeldObject::symbol(with.alloc, home, name)?))
        }
        Err(_) => Ok(None),
    }
}

#[inline(always)]
fn upcased(alloc: Global, bytes: &[u8]) -> Result<Bytes, AllocError>
    ensures { IfOk result (λ name. name ≡ map upper_case bytes.now) }
{
    if has_lower(bytes) {
        copied(alloc, bytes)
    } else {
        Bytes::from_slice(alloc, bytes)
    }
}

/// Whether a byte is a lower-case letter.
#[inline(always)]
pub(crate) fn has_lower(bytes: &[u8]) -> bool
    ensures { result ≡ list_any is_lower_case bytes.now }
{
    bytes.iter().any(|c| c.is_ascii_lowercase())
}

// The same bytes with upper-case letters for lower-case ones.
#[inline(never)]
fn copied(alloc: Global, bytes: &[u8]) -> Result<Bytes, AllocError>
    ensures { IfOk result (λ name. name ≡ map upper_case bytes.now) }
{
    if bytes.len() <= ON_STACK {
        let mut name = [0; ON_STACK];
        name[..bytes.len()].copy_from_slice(bytes);
        upcase(&mut name);
        return Bytes::from_slice(alloc, &name[..bytes.len()]);
    }
    let mut name = Vec::from_slice(alloc, bytes)?;
    upcase(name.as_mut_slice());
    Bytes::from_vec(name)
}

fn upcase(name: &mut [u8])
    ensures { name.new ≡ map upper_case name.old }
{
    for c in name.iter_mut() {
        *c = upper_case(*c);
    }
}

// The upper-case letter of a lower-case one, and any other character as it is.
#[inline(always)]
fn upper_case(c: u8) -> u8
    ensures { result ≡ upper_case c }
{
    if c.is_ascii_lowercase() { c - 32 } else { c }
}

/// The number that decimal digits write, where there are no others and it is below 2^64.
pub(crate) fn decimal(bytes: &[u8]) -> Option<u64>
    ensures value { IfSome result
        (λ n. (is_numeral 10 bytes.now ≡ true) × (n ≡ numeral_value 10 bytes.now)) }
    ensures small { IfSome result (λ n. n < 2 ^ 64) }
{
    if bytes.is_empty() {
        return None;
    }
    let mut n = 0;
    for c in bytes {
        if !is_digit(*c) {
            return None;
        }
        n = with_digit(n, *c)?;
    }
    Some(n)
}

fn is_digit(c: u8) -> bool
    ensures { result ≡ is_digit c }
{
    c.is_ascii_digit()
}

// The number with a digit more, while it is below 2^64.
fn with_digit(n: u64, c: u8) -> Option<u64>
    requires { IsTrue (is_digit c) }
    ensures value { IfSome result (λ m. m ≡ n * 10 + (c - 48)) }
    ensures small { IfSome result (λ m. m < 2 ^ 64) }
{
    n.checked_mul(10)?.checked_add(u64::from(c - b'0'))
}
