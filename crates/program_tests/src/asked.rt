//! Calls of a store over a disk in memory, the text of what they gave, and what they left. No function here has a clause: so what
//! the calls ensure is in no test.

use crate::lines::{
    Trouble, ended_line, ending_line, half_line, is_short, outcome_lines, trouble_of,
};
use disk_trait::{Disk, Half, MemoryDisk};
use fixed_macros::Fixed;
use prevalence_store::{Mode, Step, Store};
use sessions::{Ended, Ending, SessionOptions, serve, serve_wanted};
use six_functions::SixFunctions;
use std::alloc::Global;

/// A store of a test.
type TestStore = Store<MemoryDisk, Fixed<SixFunctions>>;

/// What is asked of a store over fresh files.
#[derive(Clone, Copy)]
pub enum Ask<'a> {
    /// A session that takes a snapshot after so many forms: its answers, and `end`, `reader N` or `store N`.
    Serve(u64, &'a [u8]),
    /// One that tells where it ended: its answers, and `end`, `store N`, or `reader N` or `strict N` with the forms before it and the
    /// places where it starts and is refused, as in `reader 4 forms 1 start 2 at 2`.
    Wanted(SessionOptions, &'a [u8]),
    /// Steps, each with `accepted 7` for an integer, `accepted` for another value, `snapshotted` or `refused N`.
    Run(&'a [Step<'a>]),
}

fn answers_to(alloc: Global, store: &mut TestStore, every: u64, input: &[u8]) -> (Ending, Vec<u8>) {
    let (mut reader, mut writer) = (input, Vec::new(alloc));
    let ending = serve(store, &mut reader, &mut writer, Mode::Current, every);
    (ending, writer)
}

fn wanted_answers_to(
    alloc: Global,
    store: &mut TestStore,
    wanted: SessionOptions,
    input: &[u8],
) -> (Ended, Vec<u8>) {
    let (mut reader, mut writer) = (input, Vec::new(alloc));
    let ended = serve_wanted(store, &mut reader, &mut writer, wanted);
    (ended, writer)
}

fn run_steps(alloc: Global, store: &mut TestStore, steps: &[Step<'_>]) -> Result<Vec<u8>, Trouble> {
    let mut text = Vec::new(alloc);
    let outcomes = store.run(steps)?;
    outcome_lines(&mut text, outcomes.as_slice())?;
    Ok(text)
}

// The text of a call of an open store.
fn told(alloc: Global, store: &mut TestStore, ask: Ask<'_>) -> Result<Vec<u8>, Trouble> {
    match ask {
        Ask::Serve(every, input) => {
            let (ending, mut text) = answers_to(alloc, store, every, input);
            ending_line(&mut text, ending)?;
            Ok(text)
        }
        Ask::Wanted(wanted, input) => {
            let (ended, mut text) = wanted_answers_to(alloc, store, wanted, input);
            ended_line(&mut text, ended)?;
            Ok(text)
        }
        Ask::Run(steps) => run_steps(alloc, store, steps),
    }
}

// What the store tells of the half in use then: `half A generation 1 records 0`.
fn told_of_half(store: &TestStore, text: &mut Vec<u8>) -> Result<(), Trouble> {
    half_line(text, store.half(), store.generation(), store.record_count())
}

fn told_all(alloc: Global, store: &mut TestStore, ask: Ask<'_>) -> Result<Vec<u8>, Trouble> {
    let mut text = told(alloc, store, ask)?;
    for line in text.as_slice().split(|byte| *byte == b'\n') {
        if is_short(line) {
            return Err(Trouble::Memory);
        }
    }
    told_of_half(store, &mut text)?;
    Ok(text)
}

// The disk of a store that is closed.
fn closed(store: TestStore) -> MemoryDisk {
    let (disk, _macros) = store.close();
    disk
}

// The bytes of a half.
fn bytes_of(alloc: Global, disk: &mut MemoryDisk, half: Half) -> Result<Vec<u8>, Trouble> {
    if disk.failures() > 0 {
        return Err(Trouble::Device);
    }
    let mut bytes = vec![in alloc; 0; disk.len(half)? as usize]?;
    let count = disk.read(half, 0, &mut bytes)?;
    bytes.truncate(count);
    Ok(bytes)
}

/// The text of what was asked, and the bytes of both halves after it.
#[derive(Drop)]
pub struct Left {
    pub text: Vec<u8>,
    pub a: Vec<u8>,
    pub b: Vec<u8>,
}

fn left_by(alloc: Global, store: TestStore, ask: Ask<'_>) -> Result<Left, Trouble> {
    let mut store = store;
    let told = told_all(alloc, &mut store, ask);
    let mut disk = closed(store);
    let text = told?;
    let a = bytes_of(alloc, &mut disk, Half::A)?;
    let b = bytes_of(alloc, &mut disk, Half::B)?;
    Ok(Left { text, a, b })
}

/// What is left of fresh files of this limit.
pub fn left_after(alloc: Global, limit: u64, ask: Ask<'_>) -> Result<Left, Trouble> {
    let disk = MemoryDisk::new(alloc);
    if disk.failures() > 0 {
        return Err(Trouble::Device);
    }
    let macros = Fixed::new(alloc, SixFunctions::new());
    match Store::open(alloc, disk, macros, limit) {
        Ok(store) => left_by(alloc, store, ask),
        Err(unopened) => Err(trouble_of(unopened.number)),
    }
}
