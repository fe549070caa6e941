//! The end of a text, wherever a reader is in a form.
//! An error is want of memory: the reader takes no byte after it, and answers it again.
ghost use Rattle.std.specs.Prelude.{◌≡◌, ◌≤◌, ◌<◌, ◌+◌, ◌^◌, List, [], length, true, None, Ok, IfOk};
ghost use Rattle.readtable_core.specs.Tables.{Table};
ghost use Rattle.form_reader.specs.declared.stack.Frame.{Frame};
ghost use Rattle.lisp_reading.specs.Setting.{Setting};
ghost use Rattle.form_reader.specs.Context.{setting};
ghost use Rattle.form_reader.specs.declared.state.State.TheVariants.{Object as AtObject, Token as AtToken, CallToken as AtCallToken, Line as AtLine};
ghost use Rattle.form_reader.specs.declared.reader.ReadOutcome.TheVariants.{Empty as IsEmpty};
ghost use Rattle.lisp_reading.specs.declared.attempt.Found.TheVariants.{TheEnd as the_end};
ghost use Rattle.form_reader.specs.declared.state.Event.TheVariants.{Open as IsAt};
ghost use Rattle.form_reader.specs.declared.state.Event.TheVariants.{Gives as IsDone};
ghost use Rattle.form_reader.specs.State.{Brings, state_gives};
ghost use Rattle.form_reader.specs.Step.{outcome_of, rest_of_attempt, Settles};
ghost use Rattle.form_reader.specs.EndOfText.{TokenStops, RefusesIn, IsLastEvent, IsLastSettled};
ghost use Rattle.form_reader.specs.Reader.{IsOutcome};

use crate::call::end_call;
use crate::context::Context;
use crate::reader::ReadOutcome;
use crate::stack::Stack;
use crate::state::{Event, State};
use crate::token::{BegunScan, refusal_number, token_end};
use crate::value::{Return, return_value};
use lisp_object::refusal::{DOT_CONTEXT, END_OF_FILE};
use lisp_reading::{Found, HeldText, Invoked, Limits};
use std::alloc::AllocError;
use std_macros::StdGathered;
use token_scan::TokenScan;
use user_macros::MacroFunctions;

/// Whether the end of the text at `at` ends a token; else the number of its refusal.
fn token_stop(limits: &Limits, scan: &mut TokenScan, at: usize) -> Option<u16>
    requires { at ≤ limits.now.text }
    ensures stops { (table : Table) → TokenStops table limits.now scan.old at result }
    ensures same { result ≡ None → scan.new ≡ scan.old }
{
    match scan.finish() {
        Ok(()) => None,
        Err(refusal) => Some(refusal_number(limits, refusal, at)),
    }
}

/// The end of the text at `at`, in a token that is an object.
fn last_token<R: MacroFunctions>(
    with: &Context<'_, R>,
    scan: BegunScan,
    at: usize,
) -> Result<Event, AllocError>
    requires within { at ≤ with.now.limits.text }
    ensures brings { let setting = setting R.functions with.now in
        (stack : List Frame) → IfOk result (λ event. Brings setting stack at [] event
        (state_gives setting stack (AtToken scan) at [])) }
    ensures last { IfOk result (IsLastEvent at) }
{
    let mut scan = scan.into_scan();
    match token_stop(&with.limits, &mut scan, at) {
        None => token_end(with, scan.into_marks(), at),
        Some(code) => Ok(Event::Refused(code, at)),
    }
}

/// The end of the text at `at`, in the token of a call at this depth.
fn last_call_token<R: MacroFunctions>(
    with: &Context<'_, R>,
    depth: usize,
    call: Invoked,
    mut scan: TokenScan,
    at: usize,
) -> Result<Event, AllocError>
    requires answers { R.answers with.now.macros.now }
    requires within { at ≤ with.now.limits.text }
    ensures brings { let setting = setting R.functions with.now in
        (stack : List Frame) → depth ≡ length stack → IfOk result (λ event. Brings setting stack at [] event
        (state_gives setting stack (AtCallToken call scan) at [])) }
    ensures last { IfOk result (IsLastEvent at) }
{
    match token_stop(&with.limits, &mut scan, at) {
        None => {
            let gathered = StdGathered::Marks(scan.into_marks());
            end_call(with, depth, &call, true, gathered, at)
        }
        Some(code) => Ok(Event::Refused(code, at)),
    }
}

/// The end of the text at `at`, which ends the line of a call at this depth.
fn last_line<R: MacroFunctions>(
    with: &Context<'_, R>,
    depth: usize,
    call: Invoked,
    text: HeldText,
    at: usize,
) -> Result<Event, AllocError>
    requires answers { R.answers with.now.macros.now }
    requires within { at ≤ with.now.limits.text }
    ensures brings { let setting = setting R.functions with.now in
        (stack : List Frame) → depth ≡ length stack
        → IfOk result (λ event. Brings setting stack at [] event
        (state_gives setting stack (AtLine call text) at [])) }
    ensures last { IfOk result (IsLastEvent at) }
{
    let gathered = StdGathered::Text(text.into_bytes()?);
    end_call(with, depth, &call, false, gathered, at)
}

/// What the end of the text at `at` brings; the state is left where an object may begin.
fn last<R: MacroFunctions>(
    with: &Context<'_, R>,
    depth: usize,
    state: State,
    at: usize,
) -> Result<Event, AllocError>
    requires answers { R.answers with.now.macros.now }
    requires within { at ≤ with.now.limits.text }
    ensures brings { let setting = setting R.functions with.now in
        (stack : List Frame) → depth ≡ length stack → IfOk result (λ event. Brings setting stack at [] event
        (state_gives setting stack state at [])) }
    ensures last { IfOk result (IsLastEvent at) }
    ensures object { state ≡ AtObject → result ≡ Ok (IsAt AtObject) }
{
    match state {
        State::Object => Ok(Event::Open(State::Object)),
        State::Token(scan) => last_token(with, scan, at),
        State::CallToken(call, scan) => last_call_token(with, depth, call, scan, at),
        State::Line(call, text) => last_line(with, depth, call, text, at),
        State::Text(..) => Ok(Event::Refused(END_OF_FILE, at)),
        State::Escaped(..) => Ok(Event::Refused(END_OF_FILE, at)),
        State::Block(..) => Ok(Event::Refused(END_OF_FILE, at)),
        State::Number(..) => Ok(Event::Refused(END_OF_FILE, at)),
    }
}

/// The end of the text at `at`, where an object may begin.
fn end_at_object(calls: usize, at: usize) -> Event
    ensures settles { (setting : Setting) (stack : List Frame) → calls ≡ length stack
        → at ≤ setting.limits.text
        → Settles setting stack at [] result (state_gives setting stack AtObject at []) }
    ensures last { IsLastSettled at result }
    ensures none { calls ≡ 0 → result ≡ IsDone the_end }
{
    if calls == 0 {
        return Event::Gives(Found::TheEnd);
    }
    Event::Refused(END_OF_FILE, at)
}

/// What the outermost attempt comes to at the end of the text, which is at `at`.
fn settle_last<R: MacroFunctions>(
    with: &Context<'_, R>,
    stack: &mut Stack,
    state: State,
    at: usize,
) -> Result<Event, AllocError>
    requires answers { R.answers with.now.macros.now }
    requires within { at ≤ with.now.limits.text }
    ensures settles { let setting = setting R.functions with.now in
        IfOk result (λ settled. Settles setting stack.new at [] settled
        (state_gives setting stack.old state at [])) }
    ensures last { IfOk result (IsLastSettled at) }
    ensures between { stack.old ≡ [] → state ≡ AtObject → result ≡ Ok (IsDone the_end) }
{
    match last(with, stack.len(), state, at)? {
        Event::Open(_) => Ok(end_at_object(stack.len(), at)),
        Event::Gives(found) => match return_value(with, stack, found, at)? {
            Return::Waits(_) => Ok(end_at_object(stack.len(), at)),
            Return::Gives(found) => Ok(Event::Gives(found)),
            Return::Refused(code, offset) => Ok(Event::Refused(code, offset)),
        },
        Event::Refused(code, offset) => Ok(Event::Refused(code, offset)),
    }
}

/// What the attempt that began at `start` came to at the end of the text, at the offset `at` in it.
fn done_last(found: Found, start: usize, at: usize) -> ReadOutcome
    requires count { start + at ≤ 2 ^ 63 }
    ensures outcome { (setting : Setting)
        → IsOutcome result (outcome_of setting start (Ok (found, at, []))) }
    ensures refuses { (setting : Setting) → RefusesIn setting start (Ok (found, at, [])) result }
    ensures the_end { found ≡ the_end → result ≡ IsEmpty }
{
    match found {
        Found::Nothing(_) => ReadOutcome::Empty,
        Found::One(_, x) => {
            let end = start + at;
            ReadOutcome::Form {
                datum: x.into_datum(),
                start,
                end,
                next: end,
            }
        }
        Found::LoneDot => ReadOutcome::Refused {
            code: DOT_CONTEXT,
            at: start + at,
        },
        Found::TheEnd => ReadOutcome::Empty,
    }
}

/// The end of the text, where the attempt began at `start` and has `at` bytes.
pub(crate) fn last_outcome<R: MacroFunctions>(
    with: &Context<'_, R>,
    stack: &mut Stack,
    state: State,
    start: usize,
    at: usize,
) -> Result<ReadOutcome, AllocError>
    requires answers { R.answers with.now.macros.now }
    requires within { at ≤ with.now.limits.text }
    requires count { start + at ≤ 2 ^ 63 }
    ensures outcome { let setting = setting R.functions with.now in
        IfOk result (λ outcome. IsOutcome outcome (rest_of_attempt setting stack.old state start at [])) }
    ensures refuses { let setting = setting R.functions with.now in
        IfOk result (RefusesIn setting start (state_gives setting stack.old state at [])) }
    ensures between { stack.old ≡ [] → state ≡ AtObject → result ≡ Ok IsEmpty }
{
    match settle_last(with, stack, state, at)? {
        Event::Open(_) => unreachable!(),
        Event::Gives(found) => Ok(done_last(found, start, at)),
        Event::Refused(code, offset) => Ok(ReadOutcome::Refused {
            code,
            at: start + offset,
        }),
    }
}
