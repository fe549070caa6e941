//! The program: it registers the macro functions, hands them to `store_commands::program` with the words, the standard streams and
//! the files of the system, and ends with its status.
//!
//! - `opening`: at a terminal, how much there is to open; `pages`: where prompts go, and what the pages say
//! - `counted`: the refusals among answers, and how many answers there were; `reasons`: which refused forms standard error tells of;
//!   `ends`: what it tells at the end
//! - `given`: the words, and the stack
//! - `kept`: what to do where the store is kept with one sync; `heads`: what the files of a store begin with
#![tactic(auto)]

mod counted;
mod ends;
mod given;
mod heads;
mod kept;
mod opening;
mod pages;
mod reasons;

ghost use Rattle.std.specs.Prelude.{◌≡◌, true, IfErr, is_ok};
ghost use Rattle.user_macros.specs.Sound.{IsSoundCall};
ghost use Rattle.user_macros.specs.Functions.{are_registered};

use crate::counted::Counted;
use crate::ends::{tell_cause, tell_counts};
use crate::given::{take_stack, words_given};
use crate::kept::tell_way;
use crate::opening::Telling;
use crate::pages::Pages;
use crate::reasons::{reasons_for, tell_unread};
use command_words::{CommandWay, asks_for_quiet, syncs_asked, way_of};
use lisp_object::refusal::NO_MEMORY;
use message_command::run_messages;
use program_streams::{
    BesidePipe, Cleared, Counts, Pipe, Progress, Refusals, TypedLines, Uninterrupted,
    has_lost_reader,
};
use readtable_core::FnName;
use six_functions::{SixFunctions, macro_functions};
use std::alloc::AllocError;
use std::cell::Cell;
use std::fs;
use std::io::{IsTerminal, Stderr, Stdin, Stdout, Write};
use std::path::Path;
use std::process::ExitCode;
use std::random::RandomSource;
use store_commands::{
    Answers, Folders, Heard, History, Lines, Looking, Piped, Reasons, RefusalTeller, SessionOutput,
    Status, Terminal, end_with, program, program_at_terminal,
};
use store_looks::{check, look};
use system_folders::Syncing;
use user_macros::{Answer, Call, Cause, MacroFn, MacroFunctions, Macros, RegistryRefusal};

// Does what the words ask for, with macro functions that are all registered.
fn serve<M: MacroFunctions + Drop, F: Write>(rt: &HostRuntime, macros: M, faults: &mut F) -> Status
    requires answers { M.answers macros }
    requires whole { are_registered M.Meaning.functions (M.functions macros) ≡ true }
{
    match words_given(rt) {
        Ok(words) => serve_words(rt, macros, words.as_slice(), faults),
        Err(Status::WordsRefused) => {
            let _ = writeln!(faults, "error: a word of the command line is no text");
            Status::WordsRefused
        }
        Err(status) => end_with(faults, status),
    }
}

// The same with these words.
fn serve_words<M: MacroFunctions + Drop, F: Write>(
    rt: &HostRuntime,
    macros: M,
    words: &[String],
    faults: &mut F,
) -> Status
    requires answers { M.answers macros }
{
    // what was written is there, which no compiler knows
    if take_stack(words.len()) > 1 {
        return end_with(faults, Status::Fault(NO_MEMORY));
    }
    let way = way_of(words);
    let status = serve_in_way(rt, way, macros, words, faults);
    tell_way(rt, faults, way, words, status);
    status
}

// The same in this way.
fn serve_in_way<M: MacroFunctions + Drop, F: Write>(
    rt: &HostRuntime,
    way: CommandWay,
    macros: M,
    words: &[String],
    faults: &mut F,
) -> Status
    requires answers { M.answers macros }
{
    match way {
        way @ (CommandWay::Look | CommandWay::Check | CommandWay::See) => tell(
            rt, way, macros, words,
        ),
        CommandWay::Messages => serve_messages(rt, macros, words, faults),
        CommandWay::Serve if asks_for_quiet(words) => serve_quietly(rt, macros, words, faults),
        CommandWay::Serve if rt.stdin().is_terminal() => serve_at_terminal(
            rt, macros, words, faults,
        ),
        CommandWay::Serve => serve_pipe(
            rt,
            &Telling::new(rt, &Syncing::new(rt, syncs_asked(words))),
            macros,
            words,
            Uninterrupted::new(rt.stdout()),
            rt.stderr(),
        ),
    }
}

// The same of messages with numbers.
fn serve_messages<M: MacroFunctions + Drop, F: Write>(
    rt: &HostRuntime,
    macros: M,
    words: &[String],
    faults: &mut F,
) -> Status
    requires answers { M.answers macros }
{
    let failure = Cell::new(None);
    let mut input = Uninterrupted::new(rt.stdin());
    let mut output = Pipe::new(Uninterrupted::new(rt.stdout()), &failure);
    let system = Syncing::new(rt, syncs_asked(words));
    let folders = Telling::new(rt, &system);
    let status = run_messages(&folders, macros, words, &mut input, &mut output, faults);
    tell_cause(faults, status, failure.get());
    status
}

// Tells what the words ask for, in this way. If the reader of the output goes before its end, as `head` does, that is no fault.
fn tell<M: MacroFunctions + Drop>(
    rt: &HostRuntime,
    way: CommandWay,
    macros: M,
    words: &[String],
) -> Status
    requires answers { M.answers macros }
{
    let failure = Cell::new(None);
    let mut output = Pipe::new(Uninterrupted::new(rt.stdout()), &failure);
    let mut faults = BesidePipe::new(rt.stderr(), &failure);
    let status = match way {
        CommandWay::Look => look(
            rt,
            &Looking::new(rt),
            macros,
            words,
            &mut output,
            &mut faults,
        ),
        CommandWay::Check => {
            let mut input = Uninterrupted::new(rt.stdin());
            check(rt, macros, words, &mut input, &mut output, &mut faults)
        }
        _ => {
            let folders = Looking::new(rt);
            serve_pipe(
                rt,
                &Telling::new(rt, &folders),
                macros,
                words,
                output,
                &mut faults,
            )
        }
    };
    if has_lost_reader(failure.get()) {
        return Status::Done;
    }
    // that is told already where it is told by a session
    if way != CommandWay::See {
        tell_cause(&mut faults, status, failure.get());
    }
    status
}

// The same with refusals alone on standard output, and a count at the end on standard error.
fn serve_quietly<M: MacroFunctions + Drop, F: Write>(
    rt: &HostRuntime,
    macros: M,
    words: &[String],
    faults: &mut F,
) -> Status
    requires answers { M.answers macros }
{
    if rt.stdin().is_terminal() {
        return serve_quietly_at_terminal(rt, macros, words, faults);
    }
    let mut output = Refusals::new(rt.alloc(), Uninterrupted::new(rt.stdout()));
    let system = Syncing::new(rt, syncs_asked(words));
    let folders = Telling::new(rt, &system);
    let status = serve_pipe(rt, &folders, macros, words, &mut output, rt.stderr());
    tell_counts(faults, status, output.counts());
    status
}

// The same where standard input is no terminal, and folders are opened by another system. At a terminal standard error has a line on how far
// it is.
fn serve_pipe<R, M, O, F>(
    rt: &HostRuntime,
    folders: &R,
    macros: M,
    words: &[String],
    output: O,
    faults: F,
) -> Status
where
    R: Folders + RandomSource + AllocGlobal,
    M: MacroFunctions + Drop,
    O: Write + Drop,
    F: Write + Drop,
    requires answers { M.answers macros }
{
    let (heard, stands) = (Cell::new(Heard::Nothing), Cell::new(false));
    let failure = Cell::new(None);
    let reasons = reasons_for(rt, words);
    let history = History::new(rt.alloc());
    let stdin = Uninterrupted::new(rt.stdin());
    let progress = if is_told(rt, words) {
        Progress::new(rt, stdin, rt.stderr(), &stands, size_of_input(rt))
    } else {
        Progress::silent(rt, stdin, rt.stderr(), &stands)
    };
    let mut input = Piped::new(Lines::new(progress, &history), &heard);
    let mut output = SessionOutput {
        output: Answers::new(Pipe::new(output, &failure), &heard),
        teller: RefusalTeller::new(
            rt.alloc(),
            Cleared::new(rt.stderr(), &stands),
            &history,
            reasons,
        ),
    };
    let mut faults = Cleared::new(faults, &stands);
    let status = program(folders, macros, words, &mut input, &mut output, &mut faults);
    faults.clear();
    tell_cause(&mut faults, status, failure.get());
    if reasons != Reasons::None {
        tell_unread(rt, &mut faults, &input, &history, status);
    }
    status
}

// Whether standard error has a line on how far it is: at a terminal that gets no answers.
fn is_told(rt: &HostRuntime, words: &[String]) -> bool {
    rt.stderr().is_terminal() && (asks_for_quiet(words) || !rt.stdout().is_terminal())
}

// How many bytes standard input has, if it is a file.
fn size_of_input(rt: &HostRuntime) -> Option<u64> {
    match fs::metadata(rt, Path::new("/dev/stdin")) {
        Ok(file) if file.is_file() => Some(file.len()),
        _ => None,
    }
}

// Standard input, if it is a terminal.
fn typed_lines(rt: &HostRuntime) -> TypedLines<Uninterrupted<Stdin>, Stderr> {
    TypedLines::new(Uninterrupted::new(rt.stdin()), rt.stderr())
}

// The same at a terminal, whose prompts go to standard error.
fn serve_at_terminal<M: MacroFunctions + Drop, F: Write>(
    rt: &HostRuntime,
    macros: M,
    words: &[String],
    faults: &mut F,
) -> Status
    requires answers { M.answers macros }
{
    let (heard, history) = (Cell::new(Heard::Nothing), History::new(rt.alloc()));
    let lines = Lines::new(typed_lines(rt), &history);
    let mut input = Terminal::new(rt.alloc(), lines, Pages::new(rt), &heard);
    let mut output = SessionOutput {
        output: Answers::new(Uninterrupted::new(rt.stdout()), &heard),
        teller: RefusalTeller::new(rt.alloc(), rt.stderr(), &history, Reasons::Few),
    };
    let system = Syncing::new(rt, syncs_asked(words));
    let folders = Telling::new(rt, &system);
    program_at_terminal(&folders, macros, words, &mut input, &mut output, faults)
}

// What is noted of the answers of a quiet session.
#[derive(Drop)]
struct Noted {
    heard: Cell<Heard>,
    counts: Cell<Counts>,
}

impl Noted {
    // Both, lent for the same time.
    fn lent<'a>(&'a self) -> (&'a Cell<Heard>, &'a Cell<Counts>) {
        (&self.heard, &self.counts)
    }
}

// The same with refusals alone, and a count at the end.
fn serve_quietly_at_terminal<M: MacroFunctions + Drop, F: Write>(
    rt: &HostRuntime,
    macros: M,
    words: &[String],
    faults: &mut F,
) -> Status
    requires answers { M.answers macros }
{
    let history = History::new(rt.alloc());
    let failure = Cell::new(None);
    let noted = Noted {
        heard: Cell::new(Heard::Nothing),
        counts: Cell::new(Counts {
            values: 0,
            refusals: 0,
        }),
    };
    let (heard, counts) = noted.lent();
    let lines = Lines::new(typed_lines(rt), &history);
    let mut input = Terminal::new(rt.alloc(), lines, Pages::new(rt), heard);
    let written = Pipe::new(Uninterrupted::new(rt.stdout()), &failure);
    let refusals = Counted::new(rt.alloc(), written, counts);
    let mut output = SessionOutput {
        output: Answers::new(refusals, heard),
        teller: RefusalTeller::new(rt.alloc(), rt.stderr(), &history, Reasons::Few),
    };
    let system = Syncing::new(rt, syncs_asked(words));
    let folders = Telling::new(rt, &system);
    let status = program_at_terminal(&folders, macros, words, &mut input, &mut output, faults);
    tell_cause(faults, status, failure.get());
    tell_counts(faults, status, counts.get());
    status
}

// What comes of registering a function whose name is known and not taken: only memory can refuse it.
fn registered(registering: Result<(), RegistryRefusal>) -> Result<(), AllocError>
    requires { IfErr registering (λ refusal. refusal.cause ≡ Cause.OutOfMemory) }
    ensures { is_ok result ≡ is_ok registering }
{
    match registering {
        Ok(()) => Ok(()),
        Err(_) => Err(AllocError),
    }
}

// Registers the macro functions, and then does what the words ask for.
fn start<F: Write>(rt: &HostRuntime, faults: &mut F) -> Result<Status, AllocError> {
    let alloc = rt.alloc();
    let square: MacroFn = Box::new(
        alloc,
        move |call: Call| -> Result<Answer, AllocError>
            requires { IsSoundCall call }
        { macro_functions::square(alloc, call) },
    )?;
    let close: MacroFn = Box::new(alloc, |_call: Call| Ok(Answer::Refused(1)))?;
    let note: MacroFn = Box::new(alloc, |_call: Call| Ok(Answer::Nothing))?;
    let skip: MacroFn = Box::new(alloc, |_call: Call| Ok(Answer::Nothing))?;
    let unit: MacroFn = Box::new(
        alloc,
        move |call: Call| -> Result<Answer, AllocError>
            requires { IsSoundCall call }
        { macro_functions::unit(alloc, call) },
    )?;
    let scale: MacroFn = Box::new(
        alloc,
        |call: Call| -> Result<Answer, AllocError>
            requires { IsSoundCall call }
        { Ok(macro_functions::scale(call)) },
    )?;
    let mut macros = Macros::new(alloc, SixFunctions::new());
    registered(macros.register(FnName::new(b"SQUARE").unwrap(), square))?;
    registered(macros.register(FnName::new(b"CLOSE").unwrap(), close))?;
    registered(macros.register(FnName::new(b"NOTE").unwrap(), note))?;
    registered(macros.register(FnName::new(b"SKIP").unwrap(), skip))?;
    registered(macros.register(FnName::new(b"UNIT").unwrap(), unit))?;
    registered(macros.register(FnName::new(b"SCALE").unwrap(), scale))?;
    Ok(serve(rt, macros, faults))
}

fn main(rt: HostRuntime) -> ExitCode {
    let mut faults = rt.stderr();
    let status = match start(&rt, &mut faults) {
        Ok(status) => status,
        Err(AllocError) => end_with(&mut faults, Status::Fault(NO_MEMORY)),
    };
    ExitCode::from(status.code())
}
