//! An answer that is read back from its bytes.
ghost use Rattle.std.specs.Prelude.{◌≡◌, ◌<◌, ◌^◌, ◌++◌, [], List, OnOk, ℕ};
ghost use Rattle.message_frames.specs.Frames.{IsFrame, Sent, answer_bytes};

use message_frames::{Kind, answers_are_read_back, push_answer};
use std::alloc::{AllocError, Global};
use std::test::Fail;

/// Writes an answer. Whoever reads an answer from its bytes reads this one, and nothing is left.
fn push_first(out: &mut Vec<u8>, kind: Kind, answer: &[u8]) -> Result<(), AllocError>
    requires { out.old.items ≡ [] }
    ensures { OnOk result ((limit : ℕ) (other : Sent) (after : List ℕ) → limit < 2 ^ 64
        → IsFrame limit (kind, answer.now) → IsFrame limit other
        → out.new.items ≡ answer_bytes other ++ after → (other ≡ (kind, answer.now)) × (after ≡ [])) }
{
    answers_are_read_back();
    push_answer(out, kind, answer)?;
    Ok(())
}

/// The bytes of an answer.
fn bytes_of(alloc: Global, kind: Kind, answer: &[u8]) -> Result<Vec<u8>, AllocError> {
    let mut bytes = Vec::new(alloc);
    push_first(&mut bytes, kind, answer)?;
    Ok(bytes)
}

#[test]
fn an_answer_has_its_length(rt: HostRuntime) -> Result<(), Fail> {
    let bytes = bytes_of(rt.alloc(), Kind::Do(1), b"7")?;
    assert!(rt; bytes.as_slice() == b"1 1\n7\n".as_slice());
    Ok(())
}
