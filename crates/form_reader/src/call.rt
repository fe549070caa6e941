//! What a call gives for what was gathered, where it ends.
ghost use Rattle.std.specs.Prelude.{◌≡◌, ◌+◌, ◌&&◌, true, nat_le, IfOk, IsTrue, ◌≤◌, ◌||◌, ℕ, false, List, length, Ok, ◌<◌};
ghost use Rattle.lisp_object.specs.Object.{IsSound, object_depth};
ghost use Rattle.lisp_object.specs.Datum.{object_of, is_proper};
ghost use Rattle.user_macros.specs.Calls.{call_of, answer_of, material_of};
ghost use Rattle.user_macros.specs.Sound.{IsSoundCall, IsProperMaterial};
ghost use Rattle.std_macros.specs.Values.{value_of};
ghost use Rattle.std_macros.specs.Results.{view_gathered, IsProperGathered};
ghost use Rattle.lisp_reading.specs.Answering.{may_be_answered};
ghost use Rattle.lisp_reading.specs.Setting.{macro_call, user_material, Setting};
ghost use Rattle.form_reader.specs.Context.{setting};
ghost use Rattle.lisp_reading.specs.Reading.{bytes_back, finished_plan, plan_after_answer, completed_call, closed};
ghost use Rattle.form_reader.specs.Call.{plan_of, value_lookahead, CallComesTo};
ghost use Rattle.form_reader.specs.State.{discarded_space_length, Brings, IsReady, IsEnd};
ghost use Rattle.form_reader.specs.declared.stack.Frame.{Frame};
ghost use Rattle.form_reader.specs.Stack.{plan_gives, call_in};

use crate::call::answer::may_be_answered;
use crate::context::Context;
use crate::stack::{Frame, Part};
use crate::state::Event;
use lisp_object::refusal::{DOT_CONTEXT, MACRO_ANSWER, MACRO_REFUSED};
use lisp_object::{Bytes, Datum};
use lisp_reading::{Found, Function, HeldObject, Invoked};
use package_table::Packages;
use readtable_core::Case;
use std::alloc::{AllocError, Global};
use std_macros::{FinishError, Finished, Standard, StdGathered, StdRefusal, finish};
use token_scan::characters;
use user_macros::{Answer, Call, Gathered, MacroFunctions};

mod answer;
mod same;

/// What a call comes to.
#[derive(Drop)]
pub enum CallValue {
    /// An object, or nothing.
    Gives(Found),
    /// The number of a refusal, and how many bytes before the end of the call it is.
    Refused(u16, usize),
}

/// What the function of a call gives for what was gathered at this depth: whether a token ends the call,
/// and whether a token ends an object in it.
#[tactic(auto, using(crate::proofs::Calls::space_or))]
pub(crate) fn call_value<R: MacroFunctions>(
    with: &Context<'_, R>,
    depth: usize,
    call: &Invoked,
    token: bool,
    spaced: bool,
    gathered: StdGathered,
) -> Result<CallValue, AllocError>
    requires answers { R.answers with.now.macros.now }
    requires proper { IsProperGathered gathered }
    ensures gives { let setting = setting R.functions with.now in
        IfOk result (λ r. completed_call setting depth call.now token spaced (view_gathered gathered)
        ≡ plan_of r) }
    ensures ends { IfOk result (λ r. value_lookahead r ≤ discarded_space_length (token || spaced)) }
{
    match call.function() {
        Function::Standard(kind) => {
            let case = with.readtable.case();
            standard_value(with.alloc, kind, case, call.number(), token, gathered)
        }
        Function::User(name) => {
            // A function that is not registered refuses each call, and is not called.
            if with.macros.gather_of(name).is_none() {
                return Ok(CallValue::Refused(MACRO_REFUSED, 0));
            }
            let call = macro_call(with.alloc, call, gathered)?;
            let answer = with.macros.call(name, call)?;
            Ok(user_value(
                with.packages,
                with.limits.nesting,
                depth,
                token,
                spaced,
                answer,
            ))
        }
    }
}

/// The value of a standard function.
fn standard_value(
    alloc: Global,
    kind: Standard,
    case: Case,
    number: Option<u32>,
    token: bool,
    gathered: StdGathered,
) -> Result<CallValue, AllocError>
    requires { IsProperGathered gathered }
    ensures gives { IfOk result (λ r.
        finished_plan token (value_of kind case number (view_gathered gathered)) ≡ plan_of r) }
    ensures ends { IfOk result (λ r. value_lookahead r ≤ discarded_space_length token) }
{
    match finish(alloc, kind, case, number, gathered) {
        Ok(Finished::One(datum)) => {
            Ok(CallValue::Gives(Found::One(token, HeldObject::new(datum))))
        }
        Ok(Finished::Nothing) => Ok(CallValue::Gives(Found::Nothing(false))),
        Err(FinishError::OutOfMemory) => Err(AllocError),
        Err(FinishError::Refused(refusal)) => {
            Ok(CallValue::Refused(refusal.number(), bytes_back(refusal)))
        }
    }
}

/// How many bytes before the end of the call its refusal is.
fn bytes_back(refusal: StdRefusal) -> usize
    ensures { result ≡ bytes_back refusal }
{
    match refusal {
        StdRefusal::StrayClose | StdRefusal::OutOfProfile | StdRefusal::NumericArgument => 1,
        _ => 0,
    }
}

/// What an answer comes to.
#[tactic(auto, using(crate::proofs::Calls::space_or, crate::proofs::Calls::or_space, crate::proofs::Fits::answered_not, crate::proofs::Fits::answered_one))]
fn user_value(
    packages: &Packages,
    nesting: u32,
    depth: usize,
    token: bool,
    spaced: bool,
    answer: Answer,
) -> CallValue
    ensures gives { plan_after_answer packages.now.0 nesting depth token spaced (answer_of answer)
        ≡ plan_of result }
    ensures ends { value_lookahead result ≤ discarded_space_length (token || spaced) }
{
    match answer {
        Answer::One(datum) => {
            if !fits(packages, nesting, depth, &datum) {
                return CallValue::Refused(MACRO_ANSWER, 0);
            }
            CallValue::Gives(Found::One(token, HeldObject::new(datum)))
        }
        Answer::Nothing => CallValue::Gives(Found::Nothing(spaced)),
        Answer::Refused(_) => CallValue::Refused(MACRO_REFUSED, 0),
    }
}

/// Whether a datum may be answered at this depth, within the nesting.
#[tactic(auto, using(crate::proofs::Fits::too_deep, crate::proofs::Fits::within_nesting))]
fn fits(packages: &Packages, nesting: u32, depth: usize, datum: &Datum) -> bool
    ensures value { result ≡ (is_proper datum.now && (may_be_answered packages.now.0 (object_of datum.now)
        && nat_le (object_depth (object_of datum.now) + depth) nesting)) }
    ensures sound { IsTrue result → IsSound (object_of datum.now) }
{
    let nesting = u64::from(nesting);
    let depth = depth as u64;
    depth <= nesting && may_be_answered(packages, nesting - depth, datum)
}

/// The call that a function of a user gets.
fn macro_call(alloc: Global, call: &Invoked, gathered: StdGathered) -> Result<Call, AllocError>
    requires { IsProperGathered gathered }
    ensures value { IfOk result (λ c. call_of c ≡ macro_call call.now (view_gathered gathered)) }
    ensures sound { IfOk result IsSoundCall }
{
    Ok(Call {
        character: call.character(),
        sub: call.sub(),
        number: call.number(),
        gathered: user_gathered(alloc, gathered)?,
    })
}

#[tactic(auto, using(crate::proofs::Calls::all_proper, lisp_object::proofs::Sound::all_below, token_meaning::proofs::Ascii::ascii_characters))]
fn user_gathered(alloc: Global, gathered: StdGathered) -> Result<Gathered, AllocError>
    requires { IsProperGathered gathered }
    ensures value { IfOk result (λ g. material_of g ≡ user_material (view_gathered gathered)) }
    ensures sound { IfOk result IsProperMaterial }
{
    match gathered {
        StdGathered::Nothing => Ok(Gathered::Nothing),
        StdGathered::One(datum) => Ok(Gathered::One(datum)),
        StdGathered::Many(items) => Ok(Gathered::Many(items)),
        StdGathered::Dotted { .. } => Ok(Gathered::Nothing),
        StdGathered::Text(bytes) => Ok(Gathered::Text(bytes)),
        StdGathered::Marks(marks) => {
            let text = characters(alloc, marks.as_slice())?;
            Ok(Gathered::Text(Bytes::from_vec(text)?))
        }
    }
}

/// What a call that ends at `at` brings.
#[tactic(auto, using(crate::proofs::Dispatches::refused_is))]
#[inline(always)]
pub(crate) fn event_of(completed: CallValue, at: usize) -> Event
    ensures comes { (setting : Setting) (stack : List Frame) (cs : List ℕ)
        → CallComesTo setting stack completed at cs result }
    ensures ends { IsEnd (value_lookahead completed) at result }
{
    match completed {
        CallValue::Gives(found) => Event::Gives(found),
        CallValue::Refused(code, back) => Event::Refused(code, at.saturating_sub(back)),
    }
}

/// What a call brings that ends at `at` at this depth, and whether a token ends it.
#[inline(always)]
pub(crate) fn end_call<R: MacroFunctions>(
    with: &Context<'_, R>,
    depth: usize,
    call: &Invoked,
    token: bool,
    gathered: StdGathered,
    at: usize,
) -> Result<Event, AllocError>
    requires answers { R.answers with.now.macros.now }
    requires proper { IsProperGathered gathered }
    ensures brings { let setting = setting R.functions with.now in
        (stack : List Frame) (cs : List ℕ) → depth ≡ length stack
        → IfOk result (λ event. Brings setting stack at cs event
        (plan_gives setting stack
        (completed_call setting (length stack) call.now token false (view_gathered gathered)) at cs)) }
    ensures ends { IfOk result (IsEnd (discarded_space_length token) at) }
{
    Ok(event_of(call_value(with, depth, call, token, false, gathered)?, at))
}

/// What an open call gives at this depth, where its closing character is the byte before `at`.
#[tactic(auto, using(crate::proofs::Calls::all_ready))]
#[inline(always)]
pub(crate) fn close<R: MacroFunctions>(
    with: &Context<'_, R>,
    depth: usize,
    frame: Frame,
    at: usize,
) -> Result<Event, AllocError>
    requires answers { R.answers with.now.macros.now }
    requires within { at ≤ with.now.limits.text }
    requires some { 0 < at }
    ensures brings { let setting = setting R.functions with.now in
        (stack : List Frame) (cs : List ℕ) → depth ≡ length stack
        → IfOk result (λ event. Brings setting stack at cs event
        (plan_gives setting stack (call_in setting frame stack closed) at cs)) }
    ensures ready { IfOk result (IsReady with.now.limits at) }
{
    let Frame { call, part } = frame;
    match part {
        Part::Next => Ok(Event::Refused(DOT_CONTEXT, at)),
        Part::List(items) => {
            let gathered = StdGathered::Many(items.into_items());
            end_call(with, depth, &call, false, gathered, at)
        }
        Part::Until(_, items) => {
            let gathered = StdGathered::Many(items.into_items());
            end_call(with, depth, &call, false, gathered, at)
        }
        Part::Dotted(_) => Ok(Event::Refused(DOT_CONTEXT, at.saturating_sub(1))),
        Part::Tailed(items, tail) => {
            let items = items.into_items();
            let tail = tail.into_datum();
            end_call(
                with,
                depth,
                &call,
                false,
                StdGathered::Dotted { items, tail },
                at,
            )
        }
    }
}
