//! Records that come together, as bytes of which none is 0.

use batch_bytes::{BatchThere, batch_of, batch_there};
use std::alloc::Global;
use std::test::Fail;

const MARK: u8 = 0xFE;

/// The bytes of a batch of the records "(A)" and "(B)".
fn taken_together(alloc: Global) -> Result<Vec<u8>, Fail> {
    Ok(batch_of(alloc, MARK, &[(0, b"(A)"), (1, b"(B)")])?)
}

/// What bytes begin with.
fn read(bytes: &[u8]) -> &'static str {
    match batch_there(MARK, bytes) {
        BatchThere::Whole { size, records } => {
            if size == 42 && records == 2 {
                return "these";
            }
            "others"
        }
        BatchThere::Unfinished => "unfinished",
        BatchThere::Neither => "neither",
    }
}

/// The batch with another byte at this place.
fn changed(alloc: Global, place: usize, byte: u8) -> Result<Vec<u8>, Fail> {
    let mut bytes = taken_together(alloc)?;
    if place < bytes.len() {
        bytes[place] = byte;
    }
    Ok(bytes)
}

/// What stands behind a batch has no part in it.
#[test]
fn a_batch_is_read_again(rt: HostRuntime) -> Result<(), Fail> {
    let mut bytes = taken_together(rt.alloc())?;
    assert_eq!(rt; bytes.len(), 42);
    assert_eq!(rt; read(&bytes), "these");
    bytes.extend_from_slice(b"\xfe\x00(")?;
    assert_eq!(rt; read(&bytes), "these");
    Ok(())
}

/// The end of the file at each place, a 0 there, and another byte.
#[test]
fn a_batch_that_is_not_whole_is_none(rt: HostRuntime) -> Result<(), Fail> {
    let bytes = taken_together(rt.alloc())?;
    for place in 0..bytes.len() {
        assert_eq!(rt; read(&bytes[..place]), "unfinished", "{place}");
        assert_eq!(rt;
            read(&changed(rt.alloc(), place, 0)?),
            "unfinished",
            "{place}"
        );
        let other = bytes[place] ^ 2;
        assert_eq!(rt;
            read(&changed(rt.alloc(), place, other)?),
            "neither",
            "{place}"
        );
    }
    Ok(())
}
