//! One byte of what a call gathers: a text, a line, a block, a number; and what the call comes to.
//! An error is want of memory: the reader takes no byte after it, and answers it again.
ghost use Rattle.std.specs.Prelude.{◌≡◌, ◌≤◌, ◌<◌, ◌+◌, ◌^◌, ◌==◌, ℕ, List, ◌∷◌, ◌++◌, [], IfOk, IfSome, Ok, None, length};
ghost use Rattle.lisp_reading.specs.Plans.{loop, next_byte, run};
ghost use Rattle.lisp_reading.specs.Gathering.{text_turn, line_turn, block_turn, number_turn, block_next};
ghost use Rattle.form_reader.specs.Gather.{TextFeeds, EscapeFeeds, LineFeeds, BlockFeeds, NumberFeeds};
ghost use Rattle.form_reader.specs.declared.gather.TextByte.TheVariants.{More as TextMore, Escape as TextEscape, Ended as TextEnded};
ghost use Rattle.form_reader.specs.declared.gather.LineByte.TheVariants.{More as LineMore, Ended as LineEnded};
ghost use Rattle.lisp_reading.specs.declared.way.Keep.TheVariants.{Kept};
ghost use Rattle.form_reader.specs.declared.stack.Frame.{Frame};
ghost use Rattle.form_reader.specs.Context.{setting};
ghost use Rattle.form_reader.specs.declared.state.State.TheVariants.{Text as AtText, Escaped as AtEscaped, Line as AtLine, Block as AtBlock};
ghost use Rattle.form_reader.specs.State.{Brings, state_gives, IsReady};

use crate::call::end_call;
use crate::context::Context;
use crate::state::{Event, OpenText, State};
use lisp_object::refusal::{FORM_TOO_LONG, INVALID_CHARACTER, NUMERIC_ARGUMENT};
use lisp_reading::{HeldNumber, HeldText, Invoked, Keep, Limits};
use readtable_core::{Readtable, Syntax};
use std::alloc::AllocError;
use std_macros::StdGathered;
use user_macros::MacroFunctions;

/// What a byte is to a text.
#[derive(Clone, Copy)]
pub enum TextByte {
    /// One more character.
    More,
    /// An escape: the next character is one of the text.
    Escape,
    /// It ends the text.
    Ended,
    /// It is refused.
    Refused(u16),
}

/// What a byte is to a line, a block or a number.
#[derive(Clone, Copy)]
pub enum LineByte {
    /// One more.
    More,
    /// It ends it.
    Ended,
    /// It is refused.
    Refused(u16),
}

/// The byte `c` at `at`, after the characters of `text`.
#[tactic(auto, using(lisp_reading::proofs::Fed::text_over, lisp_reading::proofs::Fed::text_invalid, lisp_reading::proofs::Fed::text_ends, lisp_reading::proofs::Fed::text_escapes, lisp_reading::proofs::Fed::text_takes))]
pub(crate) fn text_byte(
    readtable: &Readtable,
    limits: &Limits,
    terminator: u8,
    text: &mut HeldText,
    at: usize,
    c: u8,
) -> Result<TextByte, AllocError>
    requires { at ≤ limits.now.text }
    ensures feeds { (cs : List ℕ) → IfOk result (λ fed.
        TextFeeds readtable.now limits.now terminator text.new at cs fed
        (run readtable.now limits.now
        (loop limits.now (text_turn readtable.now terminator) text.old) at (c ∷ cs))) }
    ensures more { result ≡ Ok TextMore → at < limits.now.text }
    ensures escape { result ≡ Ok TextEscape → at < limits.now.text }
    ensures ended { result ≡ Ok TextEnded → at < limits.now.text }
{
    if at >= limits.text {
        return Ok(TextByte::Refused(FORM_TOO_LONG));
    }
    if c >= 128 {
        return Ok(TextByte::Refused(INVALID_CHARACTER));
    }
    // The terminator is looked for before its own syntax, which may be that of an escape.
    if c == terminator {
        return Ok(TextByte::Ended);
    }
    if readtable.syntax(c) == Syntax::SingleEscape {
        return Ok(TextByte::Escape);
    }
    text.push(c)?;
    Ok(TextByte::More)
}

/// The byte `c` at `at`, after an escape.
#[tactic(auto, using(lisp_reading::proofs::Fed::byte_over, lisp_reading::proofs::Fed::byte_invalid, lisp_reading::proofs::Fed::byte_taken))]
pub(crate) fn escaped_byte(
    readtable: &Readtable,
    limits: &Limits,
    terminator: u8,
    text: &mut HeldText,
    at: usize,
    c: u8,
) -> Result<Option<u16>, AllocError>
    ensures feeds { (cs : List ℕ) → IfOk result (λ fed.
        EscapeFeeds readtable.now limits.now terminator text.new at cs fed
        (run readtable.now limits.now
        (next_byte (λ d. loop limits.now (text_turn readtable.now terminator) (text.old ++ d ∷ []))) at (c ∷ cs))) }
    ensures more { result ≡ Ok None → at < limits.now.text }
{
    if at >= limits.text {
        return Ok(Some(FORM_TOO_LONG));
    }
    if c >= 128 {
        return Ok(Some(INVALID_CHARACTER));
    }
    text.push(c)?;
    Ok(None)
}

/// The byte `c` at `at`, after the characters of a line.
#[tactic(auto, using(lisp_reading::proofs::Fed::line_over, lisp_reading::proofs::Fed::line_invalid, lisp_reading::proofs::Fed::line_ends, lisp_reading::proofs::Fed::line_keeps, lisp_reading::proofs::Fed::line_drops))]
pub(crate) fn line_byte(
    readtable: &Readtable,
    limits: &Limits,
    keep: Keep,
    text: &mut HeldText,
    at: usize,
    c: u8,
) -> Result<LineByte, AllocError>
    requires { at ≤ limits.now.text }
    ensures feeds { (cs : List ℕ) → IfOk result (λ fed.
        LineFeeds readtable.now limits.now keep text.new at cs fed
        (run readtable.now limits.now (loop limits.now (line_turn keep) text.old) at (c ∷ cs))) }
    ensures more { result ≡ Ok LineMore → at < limits.now.text }
    ensures ended { result ≡ Ok LineEnded → at < limits.now.text }
{
    if at >= limits.text {
        return Ok(LineByte::Refused(FORM_TOO_LONG));
    }
    if c >= 128 {
        return Ok(LineByte::Refused(INVALID_CHARACTER));
    }
    if c == b'\n' {
        return Ok(LineByte::Ended);
    }
    match keep {
        Keep::Kept => text.push(c)?,
        Keep::Dropped => {}
    }
    Ok(LineByte::More)
}

/// The byte `c` at `at`, inside a block: how many blocks are open inside it, and the byte before, if it may begin a pair.
#[tactic(auto, using(lisp_reading::proofs::Fed::block_over, lisp_reading::proofs::Fed::block_invalid, lisp_reading::proofs::Fed::block_ends, lisp_reading::proofs::Fed::block_more))]
pub(crate) fn block_byte(
    readtable: &Readtable,
    limits: &Limits,
    levels: &mut (usize, u8),
    at: usize,
    c: u8,
) -> LineByte
    requires within { at ≤ limits.now.text }
    requires level { levels.old.0 ≤ at }
    ensures feeds { (cs : List ℕ) → BlockFeeds readtable.now limits.now levels.new at cs result
        (run readtable.now limits.now (loop limits.now block_turn levels.old) at (c ∷ cs)) }
    ensures level { levels.new.0 ≤ at + 1 }
    ensures more { result ≡ LineMore → at < limits.now.text }
    ensures ended { result ≡ LineEnded → at < limits.now.text }
{
    if at >= limits.text {
        return LineByte::Refused(FORM_TOO_LONG);
    }
    if c >= 128 {
        return LineByte::Refused(INVALID_CHARACTER);
    }
    match block_next(*levels, c) {
        None => LineByte::Ended,
        Some(next) => {
            *levels = next;
            LineByte::More
        }
    }
}

fn block_next(levels: (usize, u8), c: u8) -> Option<(usize, u8)>
    requires { levels.0 + 1 < 2 ^ 64 }
    ensures value { result ≡ block_next levels c }
    ensures level { IfSome result (λ next. next.0 ≤ levels.0 + 1) }
{
    let (level, last) = levels;
    if last == b'|' && c == b'#' {
        if level == 0 {
            return None;
        }
        return Some((level - 1, 0));
    }
    if last == b'#' && c == b'|' {
        return Some((level + 1, 0));
    }
    Some((level, c))
}

/// The byte `c` at `at`, in the number of a dispatch call.
#[tactic(auto, using(lisp_reading::proofs::Fed::number_over, lisp_reading::proofs::Fed::number_ends, lisp_reading::proofs::Fed::number_more, lisp_reading::proofs::Fed::number_passes))]
pub(crate) fn number_byte(
    readtable: &Readtable,
    limits: &Limits,
    number: &mut HeldNumber,
    at: usize,
    c: u8,
) -> LineByte
    requires { at ≤ limits.now.text }
    ensures feeds { (cs : List ℕ) → NumberFeeds readtable.now limits.now number.new at c cs result
        (run readtable.now limits.now (loop limits.now number_turn number.old) at (c ∷ cs)) }
    ensures more { result ≡ LineMore → at < limits.now.text }
    ensures same { result ≡ LineEnded → number.new ≡ number.old }
{
    // What ends the number is not taken, so it is not asked whether it is one byte too many.
    if !c.is_ascii_digit() {
        return LineByte::Ended;
    }
    if at >= limits.text {
        return LineByte::Refused(FORM_TOO_LONG);
    }
    match number.with_digit(c) {
        None => LineByte::Refused(NUMERIC_ARGUMENT),
        Some(next) => {
            *number = next;
            LineByte::More
        }
    }
}

/// The byte `c` at `at`, in the text of a call at this depth.
#[tactic(auto, using(crate::proofs::Calls::all_ready))]
pub(crate) fn in_text<R: MacroFunctions>(
    with: &Context<'_, R>,
    depth: usize,
    mut held: OpenText,
    at: usize,
    c: u8,
) -> Result<Event, AllocError>
    requires answers { R.answers with.now.macros.now }
    requires within { at ≤ with.now.limits.text }
    requires count { at < 2 ^ 63 }
    ensures brings { let setting = setting R.functions with.now in
        (stack : List Frame) (cs : List ℕ) → depth ≡ length stack
        → IfOk result (λ event. Brings setting stack (at + 1) cs event
        (state_gives setting stack (AtText held) at (c ∷ cs))) }
    ensures ready { IfOk result (IsReady with.now.limits (at + 1)) }
{
    match text_byte(
        with.readtable,
        &with.limits,
        held.terminator,
        &mut held.text,
        at,
        c,
    )? {
        TextByte::More => Ok(Event::Open(State::Text(held))),
        TextByte::Escape => Ok(Event::Open(State::Escaped(held))),
        TextByte::Ended => {
            let OpenText { call, text, .. } = held;
            let gathered = StdGathered::Text(text.into_bytes()?);
            end_call(with, depth, &call, false, gathered, at + 1)
        }
        TextByte::Refused(code) => Ok(Event::Refused(code, at)),
    }
}

/// The byte `c` at `at`, after an escape in the text of a call.
pub(crate) fn in_escaped<R: MacroFunctions>(
    with: &Context<'_, R>,
    depth: usize,
    mut held: OpenText,
    at: usize,
    c: u8,
) -> Result<Event, AllocError>
    ensures brings { let setting = setting R.functions with.now in
        (stack : List Frame) (cs : List ℕ) → depth ≡ length stack
        → IfOk result (λ event. Brings setting stack (at + 1) cs event
        (state_gives setting stack (AtEscaped held) at (c ∷ cs))) }
    ensures ready { IfOk result (IsReady with.now.limits (at + 1)) }
{
    match escaped_byte(
        with.readtable,
        &with.limits,
        held.terminator,
        &mut held.text,
        at,
        c,
    )? {
        None => Ok(Event::Open(State::Text(held))),
        Some(code) => Ok(Event::Refused(code, at)),
    }
}

/// The byte `c` at `at`, in the line of a call at this depth.
#[tactic(auto, using(crate::proofs::Calls::all_ready))]
pub(crate) fn in_line<R: MacroFunctions>(
    with: &Context<'_, R>,
    depth: usize,
    call: Invoked,
    mut text: HeldText,
    at: usize,
    c: u8,
) -> Result<Event, AllocError>
    requires answers { R.answers with.now.macros.now }
    requires within { at ≤ with.now.limits.text }
    requires count { at < 2 ^ 63 }
    ensures brings { let setting = setting R.functions with.now in
        (stack : List Frame) (cs : List ℕ) → depth ≡ length stack
        → IfOk result (λ event. Brings setting stack (at + 1) cs event
        (state_gives setting stack (AtLine call text) at (c ∷ cs))) }
    ensures ready { IfOk result (IsReady with.now.limits (at + 1)) }
{
    let keep = call.keep();
    match line_byte(with.readtable, &with.limits, keep, &mut text, at, c)? {
        LineByte::More => Ok(Event::Open(State::Line(call, text))),
        LineByte::Ended => {
            let gathered = StdGathered::Text(text.into_bytes()?);
            end_call(with, depth, &call, false, gathered, at + 1)
        }
        LineByte::Refused(code) => Ok(Event::Refused(code, at)),
    }
}

/// The byte `c` at `at`, in the block of a call at this depth.
#[tactic(auto, using(crate::proofs::Calls::all_ready))]
pub(crate) fn in_block<R: MacroFunctions>(
    with: &Context<'_, R>,
    depth: usize,
    call: Invoked,
    mut levels: (usize, u8),
    at: usize,
    c: u8,
) -> Result<Event, AllocError>
    requires answers { R.answers with.now.macros.now }
    requires within { at ≤ with.now.limits.text }
    requires count { at < 2 ^ 63 }
    requires level { levels.0 ≤ at }
    ensures brings { let setting = setting R.functions with.now in
        (stack : List Frame) (cs : List ℕ) → depth ≡ length stack
        → IfOk result (λ event. Brings setting stack (at + 1) cs event
        (state_gives setting stack (AtBlock call levels) at (c ∷ cs))) }
    ensures ready { IfOk result (IsReady with.now.limits (at + 1)) }
{
    match block_byte(with.readtable, &with.limits, &mut levels, at, c) {
        LineByte::More => Ok(Event::Open(State::Block(call, levels))),
        LineByte::Ended => end_call(with, depth, &call, false, StdGathered::Nothing, at + 1),
        LineByte::Refused(code) => Ok(Event::Refused(code, at)),
    }
}
