//! Sessions in halves with little room, with groups and without, and steps one after the other.

use crate::asked::{Ask, left_after};
use crate::lines::Trouble;
use prevalence_store::{Mode, Step};
use sessions::SessionOptions;
use std::alloc::Global;
use std::test::Fail;

/// A session over fresh files of this limit, and the text of what it answers, how it ends, and the half in use then.
struct Case {
    limit: u64,
    snapshot_every: u64,
    input: &'static [u8],
    text: &'static [u8],
}

const CASES: &[Case] = &[
    // one for which there is no half is passed over
    Case {
        limit: 300,
        snapshot_every: 1,
        input: b"(PROGN (SETF (GET 'A 'B) '#200(1)) 1)(SETF (GET 'A 'C) 2)",
        text: b"1\n2\nend\nhalf A generation 1 records 2\n",
    },
    // a half that is full makes room by one
    Case {
        limit: 202,
        snapshot_every: 0,
        input: b"(SETF (GET 'A 'B) 7)(SETF (GET 'A 'B) 8)",
        text: b"7\n8\nend\nhalf B generation 2 records 1\n",
    },
    // which is none of those that are taken in turn, and changes nothing in their count
    Case {
        limit: 202,
        snapshot_every: 2,
        input: b"(SETF (GET 'A 'B) 7)(SETF (GET 'A 'B) 8)",
        text: b"7\n8\nend\nhalf A generation 3 records 0\n",
    },
    // and where that is not enough the session ends
    Case {
        limit: 202,
        snapshot_every: 0,
        input: b"(SETF (GET 'A 'B) 7)(SETF (GET 'A 'B) \"0123456789012345678901234\")(LIST 1)",
        text: b"7\nstore 64\nhalf B generation 2 records 0\n",
    },
    Case {
        limit: 224,
        snapshot_every: 0,
        input: b"(PROGN (SETF (GET 'A 'B) '#200(1)) 1)(SETF (GET 'A 'C) 2)(SETF (GET 'A 'D) 3)",
        text: b"1\n2\nstore 65\nhalf A generation 1 records 2\n",
    },
    Case {
        limit: 154,
        snapshot_every: 0,
        input: b"(SETF (GET 'A 'B) 1)(SETF (GET 'A 'B) 2)(SETF (GET 'A 'B) 3)",
        text: b"store 64\nhalf B generation 2 records 0\n",
    },
    Case {
        limit: 202,
        snapshot_every: 0,
        input: b"(SETF (GET 'A 'B) 1)(SETF (GET 'A 'B) 2)(SETF (GET 'A 'B) 3)",
        text: b"1\n2\n3\nend\nhalf A generation 3 records 1\n",
    },
];

/// A session that is strict or not, with groups or without.
fn wanted(strict: bool, group: bool, every: u64) -> SessionOptions {
    SessionOptions {
        mode: Mode::Current,
        snapshot_every: every,
        snapshot_ratio: 0,
        strict,
        group,
    }
}

/// Whether what is asked has this text.
fn is_told(alloc: Global, limit: u64, ask: Ask<'_>, text: &[u8]) -> Result<bool, Trouble> {
    Ok(left_after(alloc, limit, ask)?.text.as_slice() == text)
}

/// Whether the session of a case does what the case wants, strict or not.
fn is_as_wanted(alloc: Global, case: &Case) -> Result<bool, Trouble> {
    let (every, input) = (case.snapshot_every, case.input);
    let asked = [
        Ask::Serve(every, input),
        Ask::Wanted(wanted(false, false, every), input),
        Ask::Wanted(wanted(true, false, every), input),
    ];
    for ask in asked {
        if !is_told(alloc, case.limit, ask, case.text)? {
            return Ok(false);
        }
    }
    Ok(true)
}

#[test]
fn snapshots_are_taken_in_turn_and_for_room(rt: HostRuntime) -> Result<(), Fail> {
    for (place, case) in CASES.iter().enumerate() {
        assert!(rt; is_as_wanted(rt.alloc(), case)?, "{place}");
    }
    Ok(())
}

const SEVEN: Step<'static> = Step::Form(Mode::Current, b"(SETF (GET 'A 'B) 7)");

const EIGHT: Step<'static> = Step::Form(Mode::Current, b"(SETF (GET 'A 'B) 8)");

const GET: Step<'static> = Step::Form(Mode::Current, b"(GET 'A 'B)");

/// Whether steps have this text, and leave halves of these sizes.
fn run_so(
    alloc: Global,
    steps: &[Step<'_>],
    text: &[u8],
    sizes: [usize; 2],
) -> Result<bool, Trouble> {
    let found = left_after(alloc, 202, Ask::Run(steps))?;
    Ok(found.text.as_slice() == text && [found.a.len(), found.b.len()] == sizes)
}

#[test]
fn steps_are_taken_in_turn(rt: HostRuntime) -> Result<(), Fail> {
    let none = b"half A generation 1 records 0\n";
    assert!(rt; run_so(rt.alloc(), &[], none, [154, 0])?);
    let all =
        b"accepted 7\nrefused 64\naccepted 7\nsnapshotted\naccepted 8\nhalf B generation 2 records 1\n";
    let steps = [SEVEN, EIGHT, GET, Step::Snapshot, EIGHT];
    assert!(rt; run_so(rt.alloc(), &steps, all, [180, 192])?);
    Ok(())
}

/// Whether a session has the same text and leaves the same files with groups and without.
fn is_the_same(alloc: Global, limit: u64, strict: bool, input: &[u8]) -> Result<bool, Trouble> {
    let left = left_after(alloc, limit, Ask::Wanted(wanted(strict, true, 0), input))?;
    let other = left_after(alloc, limit, Ask::Wanted(wanted(strict, false, 0), input))?;
    Ok(
        left.text.as_slice() == other.text.as_slice()
            && left.a.as_slice() == other.a.as_slice()
            && left.b.as_slice() == other.b.as_slice(),
    )
}

/// Forms that write and that do not, refused ones, what the reader refuses, a change of the read base, comments, and an
/// end in a form.
const SESSIONS: [&[u8]; 8] = [
    b"",
    b"(SETF (GET 'A 'B) 7)",
    b"(SETF (GET 'A 'B) 7)\n(GET 'A 'B)\n'C\n(SETF (GET 'A 'B) 8) (GET 'A 'B)\n",
    b"(SETF (GET 'A 'B) 7)\n(CAR 'A)\n(SETF (GET 'A 'B) 8)\n(CDR 'B)\n7 8 ",
    b"(SETF (GET 'A 'B) 7)\n(SETF (GET 'A 'C) 8)\n)\n(SETF (GET 'A 'C) 9)\n",
    b"(SETF *READ-BASE* 16) (SETF (GET 'A 'B) 10)\n(GET 'A 'B)\n(SETF (GET 'A 'C) 1F)\n; the end\n",
    b"(SETF (GET 'A 'B) '(1 2\n 3))(SETF (GET 'A 'C) \"a)b\")'A 'B(SETF (GET 'A 'D) #|x|# 4)\n(",
    b"(SETF (GET 'A 'B) 1)(SETF (GET 'A 'B) 2)(SETF (GET 'A 'B) 3)(SETF (GET 'A 'B) 4)(SETF (GET 'A 'B) 5)\n",
];

#[test]
fn groups_renew_a_full_half(rt: HostRuntime) -> Result<(), Fail> {
    let alloc = rt.alloc();
    for input in SESSIONS {
        for limit in [200, 240, 280, 320, 1 << 30] {
            for strict in [false, true] {
                assert!(rt;
                    is_the_same(alloc, limit, strict, input)?,
                    "{limit} {strict}"
                );
            }
        }
    }
    Ok(())
}
