//! One byte of a text, wherever a reader is in a form, and after what it ends.
//! An error is want of memory: the reader takes no byte after it, and answers it again.
ghost use Rattle.std.specs.Prelude.{◌≡◌, ◌≤◌, ◌<◌, ◌+◌, ◌^◌, ℕ, List, [], ◌∷◌, length, true, Ok, IfOk};
ghost use Rattle.lisp_reading.specs.Plans.{Read};
ghost use Rattle.lisp_reading.specs.declared.attempt.Found.{Found as FoundThere};
ghost use Rattle.form_reader.specs.declared.stack.Frame.{Frame};
ghost use Rattle.lisp_reading.specs.declared.limits.Limits.{Limits as Bounds};
ghost use Rattle.lisp_reading.specs.Setting.{Setting};
ghost use Rattle.form_reader.specs.Context.{setting};
ghost use Rattle.form_reader.specs.Step.{Passes, IsReadyPass, verdict_of, Settles, ChangesTo, IsStanding, IsReadySettled, IsReadyChange, StepBeginsFrom, OpensNothingAtStart, StartsAt, StartsWith, StartsAfter, Starts, is_space};
ghost use Rattle.form_reader.specs.declared.state.State.TheVariants.{Object as AtObject};
ghost use Rattle.form_reader.specs.declared.step.Change.TheVariants.{Goes};
ghost use Rattle.form_reader.specs.State.{Brings, state_gives, lookahead, IsReady, Moves, IsReadyMove};

use crate::context::Context;
use crate::dispatch::in_number;
use crate::gather::{in_block, in_escaped, in_line, in_text};
use crate::stack::Stack;
use crate::state::{Event, Moved, State};
use crate::step::object::{Passed, after_found, at_object, is_blank};
use crate::token::{in_call_token, in_token};
use crate::value::{Return, return_value};
use lisp_object::refusal::DOT_CONTEXT;
use lisp_reading::{Found, HeldObject};
use std::alloc::AllocError;
use user_macros::MacroFunctions;

pub(crate) mod object;

/// What a byte is to the text.
#[derive(Drop)]
pub enum Change {
    /// More bytes decide: where the attempt began, how many bytes it has, and where the reader is in it.
    Goes(usize, usize, State),
    /// A form: its object, its start, its end, and where the next form begins.
    Form(HeldObject, usize, usize, usize),
    /// A refusal: where what is refused began, its number, and its offset.
    Refused(usize, u16, usize),
}

/// The byte `c` at `at`, also where it ends a token first.
#[inline(always)]
pub(crate) fn feed<R: MacroFunctions>(
    with: &Context<'_, R>,
    stack: &mut Stack,
    state: State,
    at: usize,
    c: u8,
) -> Result<Passed, AllocError>
    requires answers { R.answers with.now.macros.now }
    requires standing { IsStanding with.now.limits stack.old state at }
    requires count { at < 2 ^ 63 }
    ensures passes { let setting = setting R.functions with.now in
        (cs : List ℕ) → IfOk result (λ passed. Passes setting stack.new at c cs passed
        (state_gives setting stack.old state at (c ∷ cs))) }
    ensures ready { IfOk result (IsReadyPass with.now.limits at) }
    ensures nesting { IfOk result (λ _. length stack.new ≤ with.now.limits.nesting) }
{
    match advance(with, stack, state, at, c)? {
        Moved::After(event) => Ok(Passed::Brings(event)),
        Moved::Before(event) => match event {
            Event::Open(_) => unreachable!(),
            Event::Gives(found) => after_found(with, stack, found, at, c),
            Event::Refused(code, offset) => Ok(Passed::Brings(Event::Refused(code, offset))),
        },
    }
}

/// What the open calls make of what a byte brings, at the offset `at` after it.
#[inline(always)]
fn settle<R: MacroFunctions>(
    with: &Context<'_, R>,
    stack: &mut Stack,
    event: Event,
    at: usize,
) -> Result<Event, AllocError>
    requires answers { R.answers with.now.macros.now }
    requires nesting { length stack.old ≤ with.now.limits.nesting }
    requires ready { IsReady with.now.limits at event }
    ensures settles { let setting = setting R.functions with.now in
        (cs : List ℕ) (read : Read FoundThere) → Brings setting stack.old at cs event read
        → IfOk result (λ settled. Settles setting stack.new at cs settled read) }
    ensures ready { IfOk result (IsReadySettled with.now.limits stack.new at) }
{
    match event {
        Event::Open(state) => Ok(Event::Open(state)),
        Event::Gives(found) => match return_value(with, stack, found, at)? {
            Return::Waits(_) => Ok(Event::Open(State::Object)),
            Return::Gives(found) => Ok(Event::Gives(found)),
            Return::Refused(code, offset) => Ok(Event::Refused(code, offset)),
        },
        Event::Refused(code, offset) => Ok(Event::Refused(code, offset)),
    }
}

/// What the attempt that began at `start` came to with the byte before the offset `at` in it.
#[inline(always)]
fn done_after(found: Found, start: usize, at: usize) -> Change
    requires found { lookahead found ≡ 0 }
    requires count { start + at ≤ 2 ^ 63 }
    ensures turns { (setting : Setting) (cs : List ℕ)
        → ChangesTo setting [] cs result (verdict_of setting start (Ok (found, at, cs))) }
    ensures ready { (limits : Bounds) (stack : List Frame) → length stack ≤ limits.nesting
        → IsReadyChange limits stack (start + at) result }
    ensures begins { StepBeginsFrom start result }
    ensures anew { OpensNothingAtStart [] result }
    ensures starts { StartsAt start result }
{
    match found {
        Found::Nothing(_) => Change::Goes(start + at, 0, State::Object),
        Found::One(_, x) => Change::Form(x, start, start + at, start + at),
        Found::LoneDot => unreachable!(),
        Found::TheEnd => unreachable!(),
    }
}

/// What the attempt that began at `start` comes to after what a byte brings, at the offset `at` after it.
#[inline(always)]
fn change_of<R: MacroFunctions>(
    with: &Context<'_, R>,
    stack: &mut Stack,
    event: Event,
    start: usize,
    at: usize,
) -> Result<Change, AllocError>
    requires answers { R.answers with.now.macros.now }
    requires nesting { length stack.old ≤ with.now.limits.nesting }
    requires ready { IsReady with.now.limits at event }
    requires some { 0 < at }
    requires count { start + at ≤ 2 ^ 63 }

    // The change is what the text comes to under what the byte brings; the rest is what the next byte finds.
    ensures turns { let setting = setting R.functions with.now in
        (cs : List ℕ) (read : Read FoundThere) → Brings setting stack.old at cs event read
        → IfOk result (λ change. ChangesTo setting stack.new cs change (verdict_of setting start read)) }
    ensures ready { IfOk result (IsReadyChange with.now.limits stack.new (start + at)) }

    // Where the attempt began that is then open.
    ensures begins { IfOk result (StepBeginsFrom start) }
    ensures anew { IfOk result (OpensNothingAtStart stack.new) }
    ensures starts { IfOk result (StartsAt start) }
{
    match settle(with, stack, event, at)? {
        Event::Open(state) => Ok(Change::Goes(start, at, state)),
        Event::Gives(found) => Ok(done_after(found, start, at)),
        Event::Refused(code, offset) => Ok(Change::Refused(start, code, start + offset)),
    }
}

/// Whether the byte `c` is whitespace that is discarded where nothing is open.
#[inline(always)]
fn is_space<R: MacroFunctions>(with: &Context<'_, R>, c: u8) -> bool
    ensures { result ≡ is_space (setting R.functions with.now) c }
{
    with.limits.text > 0 && is_blank(with.readtable.syntax(c))
}

/// The byte `c`, with which an attempt begins at `start`, with no open call.
#[inline(always)]
fn first_change<R: MacroFunctions>(
    with: &Context<'_, R>,
    stack: &mut Stack,
    start: usize,
    c: u8,
) -> Result<Change, AllocError>
    requires answers { R.answers with.now.macros.now }
    requires none { stack.old ≡ [] }
    requires count { start < 2 ^ 63 }

    // The change is what a text that begins with the byte comes to; the rest is what the next byte finds.
    ensures turns { let setting = setting R.functions with.now in
        (cs : List ℕ) → IfOk result (λ change. ChangesTo setting stack.new cs change
        (verdict_of setting start (state_gives setting [] AtObject 0 (c ∷ cs)))) }
    ensures ready { IfOk result (IsReadyChange with.now.limits stack.new (start + 1)) }

    // Where the attempt began that is then open, also after whitespace.
    ensures begins { IfOk result (StepBeginsFrom start) }
    ensures anew { IfOk result (OpensNothingAtStart stack.new) }
    ensures starts { IfOk result (StartsWith (setting R.functions with.now) start c) }
    ensures space { is_space (setting R.functions with.now) c ≡ true
        → (result ≡ Ok (Goes (start + 1) 0 AtObject)) × (stack.new ≡ []) }
{
    if is_space(with, c) {
        return Ok(Change::Goes(start + 1, 0, State::Object));
    }
    let event = at_object(with, stack, 0, c)?;
    change_of(with, stack, event, start, 1)
}

/// What the attempt that began at `start` came to before the byte `c`, at the offset `at` in it, with no open call.
#[inline(always)]
fn done_before<R: MacroFunctions>(
    with: &Context<'_, R>,
    stack: &mut Stack,
    found: Found,
    start: usize,
    at: usize,
    c: u8,
) -> Result<Change, AllocError>
    requires answers { R.answers with.now.macros.now }
    requires found { lookahead found ≤ 1 }
    requires none { stack.old ≡ [] }
    requires count { start + at < 2 ^ 63 }

    // The change is what the text comes to, whose first object ended before the byte; the rest is what the next byte
    // finds.
    ensures turns { let setting = setting R.functions with.now in
        (cs : List ℕ) → IfOk result (λ change. ChangesTo setting stack.new cs change
        (verdict_of setting start (Ok (found, at, c ∷ cs)))) }
    ensures ready { IfOk result (IsReadyChange with.now.limits stack.new (start + at + 1)) }

    // Where the attempt began that is then open.
    ensures begins { IfOk result (StepBeginsFrom start) }
    ensures anew { IfOk result (OpensNothingAtStart stack.new) }
    ensures starts { IfOk result (StartsAfter (setting R.functions with.now) found start at c) }
{
    match found {
        Found::Nothing(_) => first_change(with, stack, start + at, c),
        Found::One(token, x) => {
            let end = start + at;
            if token && is_blank(with.readtable.syntax(c)) {
                return Ok(Change::Form(x, start, end, end + 1));
            }
            Ok(Change::Form(x, start, end, end))
        }
        Found::LoneDot => Ok(Change::Refused(start, DOT_CONTEXT, start + at)),
        Found::TheEnd => unreachable!(),
    }
}

/// Whether nothing is open, and the attempt has no byte.
#[inline(always)]
fn is_first(stack: &Stack, state: &State, at: usize) -> bool
    ensures first { result ≡ true → (stack.now ≡ []) × (state.now ≡ AtObject) × (at ≡ 0) }
    ensures others { stack.now ≡ [] → state.now ≡ AtObject → at ≡ 0 → result ≡ true }
{
    match state {
        State::Object => at == 0 && stack.len() == 0,
        _ => false,
    }
}

/// The byte `c`, where the attempt began at `start` and has `at` bytes.
pub(crate) fn take_byte<R: MacroFunctions>(
    with: &Context<'_, R>,
    stack: &mut Stack,
    state: State,
    start: usize,
    at: usize,
    c: u8,
) -> Result<Change, AllocError>
    requires answers { R.answers with.now.macros.now }
    requires standing { IsStanding with.now.limits stack.old state at }
    requires count { start + at < 2 ^ 63 }

    // The change is what the text comes to; the rest is what the next byte finds.
    ensures turns { let setting = setting R.functions with.now in
        (cs : List ℕ) → IfOk result (λ change. ChangesTo setting stack.new cs change
        (verdict_of setting start (state_gives setting stack.old state at (c ∷ cs)))) }
    ensures ready { IfOk result (IsReadyChange with.now.limits stack.new (start + at + 1)) }

    // Where the attempt began that is then open, also after whitespace.
    ensures begins { IfOk result (StepBeginsFrom start) }
    ensures anew { IfOk result (OpensNothingAtStart stack.new) }
    ensures starts { IfOk result (Starts (setting R.functions with.now) stack.old state start at c) }
    ensures space { is_space (setting R.functions with.now) c ≡ true
        → at ≡ 0 → stack.old ≡ [] → state ≡ AtObject
        → (result ≡ Ok (Goes (start + 1) 0 AtObject)) × (stack.new ≡ []) }
{
    if is_first(stack, &state, at) {
        return first_change(with, stack, start, c);
    }
    match feed(with, stack, state, at, c)? {
        Passed::Brings(event) => change_of(with, stack, event, start, at + 1),
        Passed::Done(found) => done_before(with, stack, found, start, at, c),
    }
}

/// The byte `c` at `at`, where the reader is in `state` in its innermost call.
#[inline(always)]
pub(crate) fn advance<R: MacroFunctions>(
    with: &Context<'_, R>,
    stack: &mut Stack,
    state: State,
    at: usize,
    c: u8,
) -> Result<Moved, AllocError>
    requires answers { R.answers with.now.macros.now }
    requires standing { IsStanding with.now.limits stack.old state at }
    requires count { at < 2 ^ 63 }
    ensures moves { let setting = setting R.functions with.now in
        (cs : List ℕ) → IfOk result (λ moved. Moves setting stack.new at c cs moved
        (state_gives setting stack.old state at (c ∷ cs))) }
    ensures ready { IfOk result (IsReadyMove with.now.limits at) }
    ensures nesting { IfOk result (λ _. length stack.new ≤ with.now.limits.nesting) }
{
    let depth = stack.len();
    match state {
        State::Object => Ok(Moved::After(at_object(with, stack, at, c)?)),
        State::Token(scan) => in_token(with, scan, at, c),
        State::CallToken(call, scan) => in_call_token(with, depth, call, scan, at, c),
        State::Text(text) => Ok(Moved::After(in_text(with, depth, text, at, c)?)),
        State::Escaped(text) => Ok(Moved::After(in_escaped(with, depth, text, at, c)?)),
        State::Line(call, text) => { Ok(Moved::After(in_line(with, depth, call, text, at, c)?)) }
        State::Block(call, levels) => {
            Ok(Moved::After(in_block(with, depth, call, levels, at, c)?))
        }
        State::Number(character, number) => {
            Ok(Moved::After(in_number(with, stack, character, number, at, c)?))
        }
    }
}
