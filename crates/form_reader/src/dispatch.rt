//! The functions at macro characters and sub-characters: which it is, and how its call begins.
//! An error is want of memory: the reader takes no byte after it, and answers it again.
ghost use Rattle.std.specs.Prelude.{◌≡◌, ◌≤◌, ◌<◌, ◌+◌, ℕ, List, ◌∷◌, length, IfOk, true, false, Ok, Some};
ghost use Rattle.readtable_core.specs.Tables.{entry_at};
ghost use Rattle.lisp_reading.specs.Setting.{function_of, is_baseless, standard_way, user_way, way_in};
ghost use Rattle.form_reader.specs.Context.{setting};
ghost use Rattle.lisp_reading.specs.Reading.{macro_called, sub_there};
ghost use Rattle.form_reader.specs.Stack.{plan_gives};
ghost use Rattle.form_reader.specs.State.{inner_at, Brings, state_gives, IsReady};
ghost use Rattle.form_reader.specs.declared.stack.Frame.{Frame};
ghost use Rattle.form_reader.specs.declared.state.State.TheVariants.{Number as AtNumber};
ghost use Rattle.form_reader.specs.Dispatch.{CallBegins, CallGathers, has_no_object, way_of_part};

use crate::call::end_call;
use crate::context::Context;
use crate::gather::{LineByte, number_byte};
use crate::stack::{Frame, Part, Stack};
use crate::state::{Event, OpenText, State};
use lisp_object::refusal::{
    FORM_TOO_LONG, INVALID_CHARACTER, NO_DISPATCH, OUT_OF_PROFILE, TOO_DEEP,
};
use lisp_reading::{
    Function, HeldCharacter, HeldNumber, HeldObjects, HeldText, Invoked, Way, function_of,
    is_baseless, standard_way, user_way,
};
use std::alloc::AllocError;
use std_macros::{StdGathered, way};
use token_scan::TokenScan;
use user_macros::MacroFunctions;

/// Begins the call of the macro character `c`, which is the byte before `at`.
#[inline(always)]
pub(crate) fn begin_macro<R: MacroFunctions>(
    with: &Context<'_, R>,
    stack: &mut Stack,
    c: u8,
    at: usize,
) -> Result<Event, AllocError>
    requires answers { R.answers with.now.macros.now }
    requires within { at ≤ with.now.limits.text }
    requires character { c < 128 }
    requires nesting { length stack.old ≤ with.now.limits.nesting }
    ensures brings { let setting = setting R.functions with.now in
        (cs : List ℕ) → IfOk result (λ event. Brings setting stack.new at cs event
        (plan_gives setting stack.old
        (macro_called setting (length stack.old) (inner_at setting (length stack.old)) c
        (entry_at setting.table c).function) at cs)) }
    ensures ready { IfOk result (IsReady with.now.limits at) }
    ensures nesting { IfOk result (λ _. length stack.new ≤ with.now.limits.nesting) }
{
    match with.readtable.macro_of(c) {
        None => Ok(Event::Refused(OUT_OF_PROFILE, at.saturating_sub(1))),
        Some(name) => {
            if name.is_dispatch() {
                let character = HeldCharacter::new(c);
                return Ok(Event::Open(State::Number(character, HeldNumber::none())));
            }
            begin_call(with, stack, Invoked::of_macro(function_of(name), c), at)
        }
    }
}

/// The byte `c` at `at`, in the number of the dispatching character `character`, or its sub-character.
pub(crate) fn in_number<R: MacroFunctions>(
    with: &Context<'_, R>,
    stack: &mut Stack,
    character: HeldCharacter,
    mut number: HeldNumber,
    at: usize,
    c: u8,
) -> Result<Event, AllocError>
    requires answers { R.answers with.now.macros.now }
    requires within { at ≤ with.now.limits.text }
    requires nesting { length stack.old ≤ with.now.limits.nesting }
    ensures brings { let setting = setting R.functions with.now in
        (cs : List ℕ) → IfOk result (λ event. Brings setting stack.new (at + 1) cs event
        (state_gives setting stack.old (AtNumber character number) at (c ∷ cs))) }
    ensures ready { IfOk result (IsReady with.now.limits (at + 1)) }
    ensures nesting { IfOk result (λ _. length stack.new ≤ with.now.limits.nesting) }
{
    match number_byte(with.readtable, &with.limits, &mut number, at, c) {
        LineByte::More => Ok(Event::Open(State::Number(character, number))),
        LineByte::Ended => sub_byte(with, stack, character.get(), number, at, c),
        LineByte::Refused(code) => Ok(Event::Refused(code, at)),
    }
}

/// The byte `c` at `at`, which is the sub-character.
fn sub_byte<R: MacroFunctions>(
    with: &Context<'_, R>,
    stack: &mut Stack,
    character: u8,
    number: HeldNumber,
    at: usize,
    c: u8,
) -> Result<Event, AllocError>
    requires answers { R.answers with.now.macros.now }
    requires within { at ≤ with.now.limits.text }
    requires character { character < 128 }
    requires nesting { length stack.old ≤ with.now.limits.nesting }
    ensures brings { let setting = setting R.functions with.now in
        (cs : List ℕ) → IfOk result (λ event. Brings setting stack.new (at + 1) cs event
        (plan_gives setting stack.old
        (sub_there setting (length stack.old) (inner_at setting (length stack.old))
        character number) at (c ∷ cs))) }
    ensures ready { IfOk result (IsReady with.now.limits (at + 1)) }
    ensures nesting { IfOk result (λ _. length stack.new ≤ with.now.limits.nesting) }
{
    if at >= with.limits.text {
        return Ok(Event::Refused(FORM_TOO_LONG, at));
    }
    if c >= 128 {
        return Ok(Event::Refused(INVALID_CHARACTER, at));
    }
    match with.readtable.dispatch_of(character, c) {
        None => Ok(Event::Refused(NO_DISPATCH, at)),
        Some(name) => {
            let function = function_of(name);
            let sub = c.to_ascii_uppercase();
            let call = Invoked::of_sub(function, character, sub, number.get());
            begin_call(with, stack, call, at + 1)
        }
    }
}

/// Begins a call whose last byte is the one before `at`.
#[tactic(auto, using(crate::proofs::Dispatches::refused_is))]
#[inline(always)]
pub(crate) fn begin_call<R: MacroFunctions>(
    with: &Context<'_, R>,
    stack: &mut Stack,
    call: Invoked,
    at: usize,
) -> Result<Event, AllocError>
    requires answers { R.answers with.now.macros.now }
    requires within { at ≤ with.now.limits.text }
    requires nesting { length stack.old ≤ with.now.limits.nesting }
    ensures begins { let setting = setting R.functions with.now in
        (cs : List ℕ) → IfOk result (λ event. CallBegins setting stack.new stack.old call at cs event) }
    ensures ready { IfOk result (IsReady with.now.limits at) }
    ensures nesting { IfOk result (λ _. length stack.new ≤ with.now.limits.nesting) }
{
    match way_of(with, &call) {
        None => Ok(Event::Refused(OUT_OF_PROFILE, at.saturating_sub(1))),
        Some(way) => gather(with, stack, call, way, at),
    }
}

/// Begins to gather in this way.
#[tactic(auto, using(crate::proofs::Dispatches::token_begins, crate::proofs::Dispatches::escaped_begins, crate::proofs::Calls::all_ready))]
#[inline(always)]
fn gather<R: MacroFunctions>(
    with: &Context<'_, R>,
    stack: &mut Stack,
    call: Invoked,
    way: Way,
    at: usize,
) -> Result<Event, AllocError>
    requires answers { R.answers with.now.macros.now }
    requires way { let setting = setting R.functions with.now in
        way_in setting call ≡ Some way }
    requires within { at ≤ with.now.limits.text }
    requires nesting { length stack.old ≤ with.now.limits.nesting }
    ensures gathers { let setting = setting R.functions with.now in
        (cs : List ℕ) → IfOk result
        (λ event. CallGathers setting stack.new stack.old call way at cs event) }
    ensures ready { IfOk result (IsReady with.now.limits at) }
    ensures nesting { IfOk result (λ _. length stack.new ≤ with.now.limits.nesting) }
{
    match way {
        Way::Nothing => end_call(with, stack.len(), &call, false, StdGathered::Nothing, at),
        Way::Next => {
            let part = Part::Next;
            open_call(with, stack, Frame { call, part }, at)
        }
        Way::List => {
            let part = Part::List(HeldObjects::new(with.alloc));
            open_call(with, stack, Frame { call, part }, at)
        }
        Way::Until(close) => {
            let part = Part::Until(close, HeldObjects::new(with.alloc));
            open_call(with, stack, Frame { call, part }, at)
        }
        Way::Text(terminator) => {
            let text = HeldText::new(with.alloc);
            Ok(Event::Open(State::Text(OpenText {
                call,
                terminator,
                text,
            })))
        }
        Way::Line(_) => {
            let text = HeldText::new(with.alloc);
            Ok(Event::Open(State::Line(call, text)))
        }
        Way::Block => Ok(Event::Open(State::Block(call, (0, 0)))),
        Way::Token => {
            let scan = TokenScan::begin(with.alloc, with.limits.token);
            Ok(Event::Open(State::CallToken(call, scan)))
        }
        Way::EscapedToken => {
            let scan = TokenScan::begin_escaped(with.alloc, with.limits.token);
            Ok(Event::Open(State::CallToken(call, scan)))
        }
    }
}

/// Opens a call that reads objects and has none yet, unless as many calls are open as may be.
#[inline(always)]
fn open_call<R: MacroFunctions>(
    with: &Context<'_, R>,
    stack: &mut Stack,
    frame: Frame,
    at: usize,
) -> Result<Event, AllocError>
    requires none { has_no_object frame.part ≡ true }
    requires within { at ≤ with.now.limits.text }
    requires nesting { length stack.old ≤ with.now.limits.nesting }
    ensures gathers { let setting = setting R.functions with.now in
        (cs : List ℕ) → IfOk result
        (λ event. CallGathers setting stack.new stack.old frame.call (way_of_part frame.part) at cs event) }
    ensures ready { IfOk result (IsReady with.now.limits at) }
    ensures nesting { IfOk result (λ _. length stack.new ≤ with.now.limits.nesting) }
{
    if stack.len() >= with.limits.nesting as usize {
        return Ok(Event::Refused(TOO_DEEP, at.saturating_sub(1)));
    }
    stack.push(frame)?;
    Ok(Event::Open(State::Object))
}

/// The way in which the function of a call gathers.
#[inline(always)]
fn way_of<R: MacroFunctions>(with: &Context<'_, R>, call: &Invoked) -> Option<Way>
    ensures { let setting = setting R.functions with.now in
        result ≡ way_in setting call.now }
{
    match call.function() {
        Function::Standard(kind) => {
            if is_baseless(kind, call.number()) {
                return Some(Way::Nothing);
            }
            Some(standard_way(call.caller(), way(kind)))
        }
        Function::User(name) => match with.macros.gather_of(name) {
            None => None,
            Some(gather) => Some(user_way(call.caller(), gather)),
        },
    }
}
