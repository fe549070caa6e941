//! Programs that are stopped at a call of the disk, and what the next one finds.
ghost use Rattle.machine_tests.specs.Machine.{IsHonestMachine};

use crate::machine::MemoryMachine;
use crate::programs::run_on_machine;
use command_words::Syncs;
use disk_trait::{Crash, Disk, MemoryDisk};
use std::alloc::Global;
use std::cell::Cell;
use std::mem;
use std::random::RandomSource;
use std::test::Fail;
use store_commands::{
    Folders, Heard, History, Lines, Piped, Reasons, RefusalTeller, SessionOutput,
};
use user_macros::{Macros, NoFunctions};

/// More calls of the disk than the program makes here.
const MOST_CALLS: u64 = 60;

/// Three forms that write. The answer to each is a digit on a line.
pub const FORMS: &[u8] = b"(SETF (GET 'A 'B) 1)\n(SETF (GET 'A 'B) 2)\n(SETF (GET 'A 'B) 3)\n";

pub const ONE_BY_ONE: &str = "--strict";

pub const TOGETHER: &str = "--group";

/// What the program with these words answers to this input on a machine.
pub fn answers_to<R>(alloc: Global, machine: &R, words: &[&str], input: &[u8]) -> Vec<u8>
where
    R: Folders + RandomSource + AllocGlobal,
    requires honest { IsHonestMachine R.Disk.state (R.opens machine.now) }
{
    let mut text = Vec::new(alloc);
    if text.extend_from_slice(input).is_err() {
        return Vec::new(alloc);
    }
    let heard = Cell::new(Heard::Nothing);
    let history = History::new(alloc);
    let reasons: Vec<u8> = Vec::new(alloc);
    let mut faults: Vec<u8> = Vec::new(alloc);
    let lines = Lines::new(text.as_slice(), &history);
    let mut input = Piped::new(lines, &heard);
    let mut output = SessionOutput {
        output: Vec::new(alloc),
        teller: RefusalTeller::new(alloc, reasons, &history, Reasons::None),
    };
    let macros = Macros::new(alloc, NoFunctions);
    let _status = run_on_machine(machine, macros, words, &mut input, &mut output, &mut faults);
    mem::replace(&mut output.output, Vec::new(alloc))
}

/// What the program answers to this input on a machine, with an option of `run`.
pub fn answers_on<R>(alloc: Global, machine: &R, option: &str, input: &[u8]) -> Vec<u8>
where
    R: Folders + RandomSource + AllocGlobal,
    requires honest { IsHonestMachine R.Disk.state (R.opens machine.now) }
{
    let words = ["pazturrok", "run", "store", option];
    answers_to(alloc, machine, &words, input)
}

/// An empty disk on which a store is kept with so many syncs: with one, its writes mix.
fn empty_disk(alloc: Global, syncs: Syncs) -> MemoryDisk {
    match syncs {
        Syncs::One => MemoryDisk::mixing(alloc),
        Syncs::Two => MemoryDisk::new(alloc),
    }
}

/// Runs the program over this disk, which stops after so many calls and crashes in this way: how many forms it answered, and what the next
/// program answers to a question then. `None` for want of memory.
fn stopped_after(
    alloc: Global,
    empty: MemoryDisk,
    calls: u64,
    kind: Crash,
    option: &str,
) -> Option<(usize, Vec<u8>)> {
    let machine = MemoryMachine::new(alloc, empty, calls).ok()?;
    let answers = answers_on(alloc, &machine, option, FORMS);
    let mut disk = machine.take_disk()?;
    if disk.failures() > 0 {
        return None;
    }
    if disk.crash(kind).is_err() {
        return None;
    }
    let again = MemoryMachine::new(alloc, disk, u64::MAX).ok()?;
    let found = answers_on(alloc, &again, option, b"(GET 'A 'B)\n");
    Some((answers.len() / 2, found))
}

/// The answer to the question after so many of the forms.
pub fn answer_after(forms: usize) -> &'static [u8] {
    match forms {
        0 => b"NIL\n".as_slice(),
        1 => b"1\n".as_slice(),
        2 => b"2\n".as_slice(),
        _ => b"3\n".as_slice(),
    }
}

/// How many forms may be there where so many were answered: the next one, or all of a group.
pub fn most_after(answered: usize, option: &str) -> usize {
    if option == TOGETHER {
        3
    } else {
        answered.saturating_add(1)
    }
}

/// Whether the next program finds what was answered, or what was under way besides.
fn is_found(alloc: Global, empty: MemoryDisk, calls: u64, kind: Crash, option: &str) -> bool {
    match stopped_after(alloc, empty, calls, kind, option) {
        Some((answered, found)) => {
            found.as_slice() == answer_after(answered)
                || found.as_slice() == answer_after(most_after(answered, option))
        }
        None => false,
    }
}

/// How a disk crashes here, by how many syncs keep a store on it.
fn crashes_with(syncs: Syncs) -> [Crash; 4] {
    match syncs {
        Syncs::One => [
            Crash::Kept,
            Crash::Lost,
            Crash::Scattered(64),
            Crash::Scattered(200),
        ],
        Syncs::Two => [
            Crash::Kept,
            Crash::Lost,
            Crash::Filled(0),
            Crash::Filled(165),
        ],
    }
}

/// How many stops of the program lose what was answered, or what a store on such a disk had.
fn lost_stops(alloc: Global, syncs: Syncs) -> usize {
    let mut lost: usize = 0;
    for calls in 0..MOST_CALLS {
        for kind in crashes_with(syncs) {
            for option in [ONE_BY_ONE, TOGETHER] {
                if !is_found(alloc, empty_disk(alloc, syncs), calls, kind, option) {
                    lost = lost.saturating_add(1);
                }
            }
        }
    }
    lost
}

#[test]
fn the_next_program_finds_what_was_answered(rt: HostRuntime) -> Result<(), Fail> {
    assert_eq!(rt; lost_stops(rt.alloc(), Syncs::Two), 0);
    Ok(())
}

#[test]
fn with_one_sync_the_next_program_finds_what_was_answered(rt: HostRuntime) -> Result<(), Fail> {
    assert_eq!(rt; lost_stops(rt.alloc(), Syncs::One), 0);
    Ok(())
}

#[test]
fn a_program_that_is_not_stopped_answers_all(rt: HostRuntime) -> Result<(), Fail> {
    for syncs in [Syncs::One, Syncs::Two] {
        for option in [ONE_BY_ONE, TOGETHER] {
            let empty = empty_disk(rt.alloc(), syncs);
            let told = stopped_after(rt.alloc(), empty, MOST_CALLS, Crash::Lost, option);
            assert!(rt;
                told.is_some_and(|(answered, found)| answered == 3
                    && found.as_slice() == b"3\n".as_slice())
            );
        }
    }
    Ok(())
}
