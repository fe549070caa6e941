//! One byte where an object may begin, also after a token there.
//! An error is want of memory: the reader takes no byte after it, and answers it again.
ghost use Rattle.std.specs.Prelude.{◌≡◌, ◌≤◌, ◌<◌, ◌+◌, ℕ, List, ◌∷◌, length, true, IfOk, false};
ghost use Rattle.form_reader.specs.Step.{Passes, IsReadyPass};
ghost use Rattle.lisp_reading.specs.Plans.{gives};
ghost use Rattle.form_reader.specs.Context.{setting};
ghost use Rattle.lisp_reading.specs.Reading.{is_blank, stands_alone, alone};
ghost use Rattle.form_reader.specs.Stack.{plan_gives, next_item_gives};
ghost use Rattle.form_reader.specs.State.{Brings, state_gives, lookahead, IsReady, attempt_at};
ghost use Rattle.form_reader.specs.declared.state.State.TheVariants.{Object as AtObject};
ghost use Rattle.readtable_core.specs.Tables.{entry_at};

use crate::call::close;
use crate::context::Context;
use crate::dispatch::begin_macro;
use crate::stack::Stack;
use crate::state::{Event, State};
use crate::token::begin_token;
use crate::value::{Return, return_value};
use lisp_object::refusal::{FORM_TOO_LONG, INVALID_CHARACTER};
use lisp_reading::Found;
use readtable_core::Syntax;
use std::alloc::AllocError;
use user_macros::MacroFunctions;

/// The byte `c` at `at`, where an object may begin.
#[inline(always)]
pub(crate) fn at_object<R: MacroFunctions>(
    with: &Context<'_, R>,
    stack: &mut Stack,
    at: usize,
    c: u8,
) -> Result<Event, AllocError>
    requires answers { R.answers with.now.macros.now }
    requires within { at ≤ with.now.limits.text }
    requires nesting { length stack.old ≤ with.now.limits.nesting }
    ensures brings { let setting = setting R.functions with.now in
        (cs : List ℕ) → IfOk result (λ event. Brings setting stack.new (at + 1) cs event
        (state_gives setting stack.old AtObject at (c ∷ cs))) }
    ensures ready { IfOk result (IsReady with.now.limits (at + 1)) }
    ensures nesting { IfOk result (λ _. length stack.new ≤ with.now.limits.nesting) }
{
    // The closing character is looked for before its own syntax, which may be any.
    if let Some(frame) = stack.pop_closed_by(c) {
        if at >= with.limits.text {
            return Ok(Event::Refused(FORM_TOO_LONG, at));
        }
        return close(with, stack.len(), frame, at + 1);
    }
    if stands_alone(with.readtable.syntax(c)) {
        lone_byte(with, stack, at, c)
    } else {
        begin_token(with, at, c)
    }
}

/// The byte `c` at `at`, where an object may begin after a token that this byte ended.
#[inline(always)]
pub(crate) fn after_token<R: MacroFunctions>(
    with: &Context<'_, R>,
    stack: &mut Stack,
    at: usize,
    c: u8,
) -> Result<Event, AllocError>
    requires answers { R.answers with.now.macros.now }
    requires within { at ≤ with.now.limits.text }
    requires nesting { length stack.old ≤ with.now.limits.nesting }
    ensures brings { let setting = setting R.functions with.now in
        (cs : List ℕ) → IfOk result (λ event. Brings setting stack.new (at + 1) cs event
        (next_item_gives setting true stack.old at (c ∷ cs))) }
    ensures ready { IfOk result (IsReady with.now.limits (at + 1)) }
    ensures nesting { IfOk result (λ _. length stack.new ≤ with.now.limits.nesting) }
{
    // Whitespace that ended a token is discarded with it, also where it is the closing character.
    if is_blank(with.readtable.syntax(c)) {
        if at >= with.limits.text {
            return Ok(Event::Refused(FORM_TOO_LONG, at));
        }
        return Ok(Event::Open(State::Object));
    }
    at_object(with, stack, at, c)
}

/// Whether it is the syntax type of whitespace.
#[inline(always)]
pub(crate) fn is_blank(syntax: Syntax) -> bool
    ensures { result ≡ is_blank syntax }
{
    matches!(syntax, Syntax::Whitespace)
}

/// What a byte is after what was found before it.
#[derive(Drop)]
pub enum Passed {
    /// It is taken, and brings this.
    Brings(Event),
    /// The outermost attempt came to this before it.
    Done(Found),
}

/// The byte `c` at `at`, where this was found before it in the innermost call.
#[inline(always)]
pub(crate) fn after_found<R: MacroFunctions>(
    with: &Context<'_, R>,
    stack: &mut Stack,
    found: Found,
    at: usize,
    c: u8,
) -> Result<Passed, AllocError>
    requires answers { R.answers with.now.macros.now }
    requires within { at ≤ with.now.limits.text }
    requires nesting { length stack.old ≤ with.now.limits.nesting }
    requires found { lookahead found ≤ 1 }
    ensures passes { let setting = setting R.functions with.now in
        (cs : List ℕ) → IfOk result (λ passed. Passes setting stack.new at c cs passed
        (plan_gives setting stack.old (gives found) at (c ∷ cs))) }
    ensures ready { IfOk result (IsReadyPass with.now.limits at) }
    ensures nesting { IfOk result (λ _. length stack.new ≤ with.now.limits.nesting) }
{
    match return_value(with, stack, found, at)? {
        Return::Waits(token) => {
            if token {
                Ok(Passed::Brings(after_token(with, stack, at, c)?))
            } else {
                Ok(Passed::Brings(at_object(with, stack, at, c)?))
            }
        }
        Return::Gives(found) => Ok(Passed::Done(found)),
        Return::Refused(code, offset) => Ok(Passed::Brings(Event::Refused(code, offset))),
    }
}

/// Whether a character of this syntax type begins no token.
#[inline(always)]
pub(crate) fn stands_alone(syntax: Syntax) -> bool
    ensures { result ≡ stands_alone syntax }
{
    match syntax {
        Syntax::Whitespace
        | Syntax::TerminatingMacro
        | Syntax::NonTerminatingMacro
        | Syntax::Invalid => true,
        Syntax::Constituent | Syntax::SingleEscape | Syntax::MultipleEscape => false,
    }
}

/// What an attempt comes to where its first byte `c`, at `at`, begins no token.
#[inline(always)]
pub(crate) fn lone_byte<R: MacroFunctions>(
    with: &Context<'_, R>,
    stack: &mut Stack,
    at: usize,
    c: u8,
) -> Result<Event, AllocError>
    requires answers { R.answers with.now.macros.now }
    requires within { at ≤ with.now.limits.text }
    requires nesting { length stack.old ≤ with.now.limits.nesting }
    requires alone { stands_alone (entry_at with.now.readtable.now c).syntax ≡ true }
    ensures brings { let setting = setting R.functions with.now in
        (cs : List ℕ) → IfOk result (λ event. Brings setting stack.new (at + 1) cs event
        (plan_gives setting stack.old (attempt_at setting (length stack.old)) at (c ∷ cs))) }
    ensures ready { IfOk result (IsReady with.now.limits (at + 1)) }
    ensures nesting { IfOk result (λ _. length stack.new ≤ with.now.limits.nesting) }
{
    with.readtable.soundness();
    // One byte too many is refused as that (23), also where it is no character (2).
    if at >= with.limits.text {
        return Ok(Event::Refused(FORM_TOO_LONG, at));
    }
    if c >= 128 {
        return Ok(Event::Refused(INVALID_CHARACTER, at));
    }
    match with.readtable.syntax(c) {
        Syntax::Whitespace => Ok(Event::Gives(Found::Nothing(false))),
        Syntax::TerminatingMacro => begin_macro(with, stack, c, at + 1),
        Syntax::NonTerminatingMacro => begin_macro(with, stack, c, at + 1),
        _ => Ok(Event::Refused(INVALID_CHARACTER, at)),
    }
}
