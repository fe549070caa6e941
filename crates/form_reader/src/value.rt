//! What the open calls make of what is found in the innermost.
//! An error is want of memory: the reader takes no byte after it, and answers it again.
ghost use Rattle.std.specs.Prelude.{◌≤◌, ◌<◌, ℕ, List, length, IfOk};
ghost use Rattle.lisp_reading.specs.Plans.{gives};
ghost use Rattle.lisp_reading.specs.declared.attempt.Found.TheVariants.{One as one, LoneDot as lone_dot};
ghost use Rattle.form_reader.specs.declared.stack.Frame.{Frame};
ghost use Rattle.form_reader.specs.Call.{plan_of, value_lookahead};
ghost use Rattle.lisp_reading.specs.Setting.{Setting};
ghost use Rattle.form_reader.specs.Context.{setting};
ghost use Rattle.form_reader.specs.Stack.{plan_gives};
ghost use Rattle.form_reader.specs.Value.{AttemptTakes, ShortensOpenCalls, Returns, IsReturnAt};
ghost use Rattle.form_reader.specs.State.{discarded_space_length, lookahead};

use crate::call::{CallValue, call_value};
use crate::context::Context;
use crate::stack::Stack;
use lisp_object::refusal::{DOT_CONTEXT, END_OF_FILE};
use lisp_reading::{Found, HeldObject};
use std::alloc::AllocError;
use std_macros::StdGathered;
use user_macros::MacroFunctions;

/// What the innermost open call makes of a value that is found in it, or all open calls.
#[derive(Drop)]
pub enum Return {
    /// More is read where an object may begin, after one whitespace character where there is one and a token ended.
    Waits(bool),
    /// The innermost ends, or the outermost attempt, and comes to this.
    Gives(Found),
    /// The number of a refusal, and its offset.
    Refused(u16, usize),
}

/// What the innermost open call makes of what is found in it at `at`.
fn take<R: MacroFunctions>(
    with: &Context<'_, R>,
    stack: &mut Stack,
    found: Found,
    at: usize,
) -> Result<Return, AllocError>
    requires answers { R.answers with.now.macros.now }
    requires within { at ≤ with.now.limits.text }
    requires open { 0 < length stack.old }
    ensures takes { let setting = setting R.functions with.now in
        (cs : List ℕ) → IfOk result (λ received. AttemptTakes setting stack.new at cs received
        (plan_gives setting stack.old (gives found) at cs)) }
    ensures leaves { IfOk result (IsReturnAt (lookahead found) at) }
    ensures shorter { IfOk result (ShortensOpenCalls stack.old stack.new) }
{
    match found {
        Found::Nothing(token) => Ok(Return::Waits(token)),
        Found::One(token, x) => take_one(with, stack, token, x, at),
        Found::LoneDot => Ok(take_dot(stack, at)),
        Found::TheEnd => Ok(Return::Refused(END_OF_FILE, at)),
    }
}

/// What the innermost open call makes of an object.
fn take_one<R: MacroFunctions>(
    with: &Context<'_, R>,
    stack: &mut Stack,
    token: bool,
    x: HeldObject,
    at: usize,
) -> Result<Return, AllocError>
    requires answers { R.answers with.now.macros.now }
    requires within { at ≤ with.now.limits.text }
    requires open { 0 < length stack.old }
    ensures takes { let setting = setting R.functions with.now in
        (cs : List ℕ) → IfOk result (λ received. AttemptTakes setting stack.new at cs received
        (plan_gives setting stack.old (gives (one token x)) at cs)) }
    ensures leaves { IfOk result (IsReturnAt (discarded_space_length token) at) }
    ensures shorter { IfOk result (ShortensOpenCalls stack.old stack.new) }
{
    match stack.pop_waiting() {
        Some(call) => {
            let depth = stack.len();
            let gathered = StdGathered::One(x.into_datum());
            Ok(return_of(call_value(with, depth, &call, token, token, gathered)?, at))
        }
        None => {
            if stack.take_object(x)? {
                Ok(Return::Waits(token))
            } else {
                Ok(Return::Refused(DOT_CONTEXT, at))
            }
        }
    }
}

/// What the innermost open call makes of a dot.
fn take_dot(stack: &mut Stack, at: usize) -> Return
    requires open { 0 < length stack.old }
    ensures takes { (setting : Setting) (cs : List ℕ) → at ≤ setting.limits.text
        → AttemptTakes setting stack.new at cs result
        (plan_gives setting stack.old (gives lone_dot) at cs) }
    ensures leaves { IsReturnAt 1 at result }
    ensures shorter { ShortensOpenCalls stack.old stack.new result }
{
    if stack.take_dot() {
        Return::Waits(false)
    } else {
        Return::Refused(DOT_CONTEXT, at)
    }
}

/// What an open call that ends at `at` comes to.
fn return_of(completed: CallValue, at: usize) -> Return
    ensures takes { (setting : Setting) (stack : List Frame) (cs : List ℕ)
        → AttemptTakes setting stack at cs result
        (plan_gives setting stack (plan_of completed) at cs) }
    ensures leaves { IsReturnAt (value_lookahead completed) at result }
{
    match completed {
        CallValue::Gives(found) => Return::Gives(found),
        CallValue::Refused(code, back) => Return::Refused(code, at.saturating_sub(back)),
    }
}

/// What the open calls make of what is found in the innermost at `at`.
pub(crate) fn return_value<R: MacroFunctions>(
    with: &Context<'_, R>,
    stack: &mut Stack,
    found: Found,
    at: usize,
) -> Result<Return, AllocError>
    requires answers { R.answers with.now.macros.now }
    requires within { at ≤ with.now.limits.text }
    ensures value { let setting = setting R.functions with.now in
        (cs : List ℕ) → IfOk result (λ returned. Returns setting stack.new at cs returned
        (plan_gives setting stack.old (gives found) at cs)) }
    ensures shorter { IfOk result (λ returned. length stack.new ≤ length stack.old) }
    ensures leaves { IfOk result (IsReturnAt (lookahead found) at) }
{
    let mut found = found;
    'calls: while stack.len() > 0 {
        match take(with, stack, found, at)? {
            Return::Waits(token) => return Ok(Return::Waits(token)),
            Return::Gives(next) => found = next,
            Return::Refused(code, offset) => return Ok(Return::Refused(code, offset)),
        }
    }
    Ok(Return::Gives(found))
}
