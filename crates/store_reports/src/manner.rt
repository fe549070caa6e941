//! In which manner a half of version 3 is kept, and whose it is.
//! Where memory runs out, a part of what is to be added may be there.
ghost use Rattle.std.specs.Prelude.{◌≡◌, ◌++◌, OnOk};
ghost use Rattle.gate_log.specs.Layout.{Contents, HalfHolds};
ghost use Rattle.store_reports.specs.HalfManners.{TellsManner, hexadecimal_text, identity_text, known_manner, manner_text, syncs_of};
ghost use Rattle.store_reports.specs.declared.numbers.Notation.TheVariants as notations;

use crate::escaped::digit;
use crate::numbers::{Notation, push_figure};
use std::alloc::{AllocError, Global};

/// The version of the halves that have a manner.
const BATCHED_VERSION: u16 = 3;
/// Where in such a half the mark of its batches stands.
const MARK_AT: usize = 15;
/// The mark of one that is kept with one sync.
const ONE_SYNC: u8 = 0xFE;
/// Where in it the identity of the store begins, and where it ends.
const IDENTITY_AT: usize = 16;

const IDENTITY_END: usize = 32;

/// What the head of a half of version 3 says beside its numbers.
#[derive(Clone, Copy, Debug)]
pub struct HalfManner {
    /// The mark of its batches, which tells how it is kept.
    pub mark: u8,
    /// The identity of its store.
    pub identity: [u8; 16],
}

/// The manner of a half of this version, which has these bytes; `None` where its version is 1 or 2.
pub(crate) fn manner_of(version: u16, file: &[u8]) -> Option<HalfManner>
    ensures { (k : Contents) → HalfHolds k file.now → version ≡ k.version → TellsManner result k file.now }
{
    if version != BATCHED_VERSION || file.len() < IDENTITY_END {
        return None;
    }
    let mut identity = [0u8; 16];
    identity.copy_from_slice(&file[IDENTITY_AT..IDENTITY_END]);
    Some(HalfManner {
        mark: file[MARK_AT],
        identity,
    })
}

// How many syncs an append takes.
fn syncs(mark: u8) -> u64
    ensures { result ≡ syncs_of mark }
{
    if mark == ONE_SYNC { 1 } else { 2 }
}

/// Adds how many syncs an append takes, and the identity, of a half that has a manner.
pub(crate) fn push_manner(
    alloc: Global,
    text: &mut Vec<u8>,
    notation: Notation,
    manner: Option<HalfManner>,
) -> Result<(), AllocError>
    ensures { OnOk result (text.new.items ≡ text.old.items ++ known_manner notation manner) }
{
    match manner {
        Some(manner) => push_known(alloc, text, notation, manner),
        None => Ok(()),
    }
}

fn push_known(
    alloc: Global,
    text: &mut Vec<u8>,
    notation: Notation,
    manner: HalfManner,
) -> Result<(), AllocError>
    ensures { OnOk result (text.new.items ≡ text.old.items ++ manner_text notation manner) }
{
    push_figure(alloc, text, notation, b"syncs", syncs(manner.mark))?;
    push_identity(text, notation, &manner.identity)
}

fn push_identity(text: &mut Vec<u8>, notation: Notation, identity: &[u8]) -> Result<(), AllocError>
    ensures { OnOk result (text.new.items ≡ text.old.items ++ identity_text notation identity.now) }
{
    match notation {
        Notation::Lines => push_identity_line(text, identity),
        Notation::Json => push_identity_member(text, identity),
    }
}

fn push_identity_line(text: &mut Vec<u8>, identity: &[u8]) -> Result<(), AllocError>
    ensures { OnOk result (text.new.items ≡ text.old.items ++ identity_text notations.Lines identity.now) }
{
    text.extend_from_slice(b"identity ")?;
    push_hexadecimal(text, identity)?;
    text.push(b'\n')?;
    Ok(())
}

fn push_identity_member(text: &mut Vec<u8>, identity: &[u8]) -> Result<(), AllocError>
    ensures { OnOk result (text.new.items ≡ text.old.items ++ identity_text notations.Json identity.now) }
{
    text.extend_from_slice(b",\"identity\":\"")?;
    push_hexadecimal(text, identity)?;
    text.push(b'"')?;
    Ok(())
}

// Adds each byte as two digits in base 16.
fn push_hexadecimal(text: &mut Vec<u8>, bytes: &[u8]) -> Result<(), AllocError>
    ensures { OnOk result (text.new.items ≡ text.old.items ++ hexadecimal_text bytes.now) }
{
    for byte in bytes {
        text.extend_from_slice(&[digit(*byte / 16), digit(*byte % 16)])?;
    }
    Ok(())
}
