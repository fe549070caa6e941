//! Tokens: one byte of a token, and what it comes to where it ends.
//! An error is want of memory: the reader takes no byte after it, and answers it again.
ghost use Rattle.std.specs.Prelude.{◌≡◌, ◌≤◌, ◌<◌, ℕ, List, ◌∷◌, IfOk, IsTrue, IsFalse, Ok, nat_lt, if◌then◌else◌, ◌+◌, length, true, false};
ghost use Rattle.token_scan.specs.Tokens.{kind, typed_byte};
ghost use Rattle.token_scan.specs.Spelling.{ends_tokens};
ghost use Rattle.token_scan.specs.ByteByByte.{Scan, first_scan, has_begun};
ghost use Rattle.form_reader.specs.Token.{TokenFeeds, is_going, token_read, FeedsBegunToken, FirstFeeds, IsBegunByte, refused_number};
ghost use Rattle.form_reader.specs.declared.gather.LineByte.TheVariants.{Ended as LineEnded, More as LineMore};
ghost use Rattle.form_reader.specs.declared.token.BegunByte.TheVariants.{More as BegunMore};
ghost use Rattle.form_reader.specs.declared.token.FirstByte.TheVariants.{More as FirstMore};
ghost use Rattle.lisp_object.specs.declared.refusal.TheConstants.{FORM_TOO_LONG};
ghost use Rattle.token_scan.specs.declared.stage.Stage.TheVariants.{Outside};
ghost use Rattle.form_reader.specs.declared.stack.Frame.{Frame};
ghost use Rattle.readtable_core.specs.Tables.{entry_at};
ghost use Rattle.form_reader.specs.Context.{setting};
ghost use Rattle.lisp_reading.specs.Reading.{stands_alone, token_found};
ghost use Rattle.form_reader.specs.Stack.{plan_gives};
ghost use Rattle.form_reader.specs.State.{attempt_at, Brings, IsReady, Moves, state_gives, IsReadyMove, IsEnd};
ghost use Rattle.token_scan.specs.Marks.{are_ascii};
ghost use Rattle.form_reader.specs.declared.state.State.TheVariants.{Token as AtToken, CallToken as AtCallToken};

use crate::call::end_call;
use crate::context::Context;
use crate::gather::LineByte;
use crate::state::{Event, Moved, State};
use crate::step::object::stands_alone;
use lisp_object::refusal::{
    END_OF_FILE, FORM_TOO_LONG, INVALID_CHARACTER, INVALID_TRAIT, TOKEN_TOO_LONG,
};
use lisp_reading::{Found, Invoked, Limits, ResolutionError, ResolvedToken, tell};
use readtable_core::Readtable;
use std::alloc::{AllocError, Global};
use std::marker::Model;
use std_macros::StdGathered;
use token_scan::{FedByte, Marks, ScanRefusal, TokenScan};
use user_macros::MacroFunctions;

/// A token of which a byte was taken: where it ends it has a mark.
#[derive(Drop)]
pub struct BegunScan {
    scan: TokenScan,
}

impl Model for BegunScan {
    ghost use Rattle.std.specs.Prelude.{IsTrue};
    ghost use Rattle.token_scan.specs.ByteByByte.{Scan, has_begun};

    ghost Value = { Scan };

    ghost view = { λ b. b.scan };

    ghost invariant = { λ b. IsTrue (has_begun b.scan) };
}

/// What a byte is to a token that has begun.
#[derive(Drop)]
pub enum BegunByte {
    /// It is taken.
    More(BegunScan),
    /// It ends the token, and is not taken.
    Ended(Marks),
    /// It is refused.
    Refused(u16),
}

/// What the first byte is to a token.
#[derive(Drop)]
pub enum FirstByte {
    /// It is taken.
    More(BegunScan),
    /// It is refused.
    Refused(u16),
}

/// A token from its first byte `c` on, which is at `at`.
pub(crate) fn first_byte(
    alloc: Global,
    readtable: &Readtable,
    limits: &Limits,
    at: usize,
    c: u8,
) -> Result<FirstByte, AllocError>
    requires within { at ≤ limits.now.text }
    requires begins { IsFalse (ends_tokens (kind (typed_byte readtable.now c))) }
    ensures feeds { (cs : List ℕ) → IfOk result (λ fed.
        FirstFeeds readtable.now limits.now at cs fed
        (token_read readtable.now limits.now (first_scan limits.now.token) at (c ∷ cs))) }
    ensures going { (scan : Scan) → result ≡ Ok (FirstMore scan) → IsTrue (is_going scan.stage) }
    ensures below { (scan : Scan) → result ≡ Ok (FirstMore scan) → at < limits.now.text }
{
    let mut scan = TokenScan::begin(alloc, limits.token);
    match token_byte(readtable, limits, &mut scan, at, c)? {
        LineByte::More => Ok(FirstByte::More(BegunScan { scan })),
        LineByte::Ended => unreachable!(),
        LineByte::Refused(code) => Ok(FirstByte::Refused(code)),
    }
}

impl BegunScan {
    /// The scan of the token.
    pub(crate) fn into_scan(self) -> TokenScan
        ensures value { result ≡ self }
        ensures begun { IsTrue (has_begun result) }
    {
        self.scan
    }

    /// The byte `c` at `at`.
    #[tactic(auto, using(token_scan::proofs::Forwards::begun_has_mark))]
    #[inline(always)]
    pub(crate) fn byte(
        self,
        readtable: &Readtable,
        limits: &Limits,
        at: usize,
        c: u8,
    ) -> Result<BegunByte, AllocError>
        requires { at ≤ limits.now.text }
        ensures feeds { (cs : List ℕ) → IfOk result (λ fed.
            FeedsBegunToken readtable.now limits.now at c cs fed
            (token_read readtable.now limits.now self at (c ∷ cs))) }
        ensures ended { IfOk result IsBegunByte }
        ensures going { (scan : Scan) → result ≡ Ok (BegunMore scan) → IsTrue (is_going scan.stage) }
        ensures below { (scan : Scan) → result ≡ Ok (BegunMore scan) → at < limits.now.text }
    {
        let BegunScan { mut scan } = self;
        match token_byte(readtable, limits, &mut scan, at, c)? {
            LineByte::More => Ok(BegunByte::More(BegunScan { scan })),
            LineByte::Ended => Ok(BegunByte::Ended(scan.into_marks())),
            LineByte::Refused(code) => Ok(BegunByte::Refused(code)),
        }
    }
}

/// The byte `c` at `at`, after what was fed to `scan`.
#[tactic(auto, using(crate::proofs::Tokens::token_more, crate::proofs::Tokens::token_ended, crate::proofs::Tokens::token_over, crate::proofs::Tokens::token_refused))]
#[inline(always)]
pub(crate) fn token_byte(
    readtable: &Readtable,
    limits: &Limits,
    scan: &mut TokenScan,
    at: usize,
    c: u8,
) -> Result<LineByte, AllocError>
    requires { at ≤ limits.now.text }
    ensures feeds { (cs : List ℕ) → IfOk result (λ fed.
        TokenFeeds readtable.now limits.now scan.new at c cs fed
        (token_read readtable.now limits.now scan.old at (c ∷ cs))) }
    ensures ended { result ≡ Ok LineEnded → (scan.new ≡ scan.old) × (scan.new.stage ≡ Outside) }
    ensures ends { result ≡ Ok LineEnded → IsTrue (ends_tokens (kind (typed_byte readtable.now c))) }
    ensures more { result ≡ Ok LineMore → IsTrue (has_begun scan.new) }
    ensures going { result ≡ Ok LineMore → IsTrue (is_going scan.new.stage) }
    ensures below { result ≡ Ok LineMore → at < limits.now.text }
    ensures begun { IsTrue (has_begun scan.old) → IsTrue (has_begun scan.new) }
{
    match scan.feed(readtable.syntax(c), c)? {
        // The byte is not taken, so it is not asked whether it is one too many.
        FedByte::Ended => Ok(LineByte::Ended),
        FedByte::More => {
            if at >= limits.text {
                Ok(LineByte::Refused(FORM_TOO_LONG))
            } else {
                Ok(LineByte::More)
            }
        }
        FedByte::Refused(refusal) => Ok(LineByte::Refused(refusal_number(limits, refusal, at))),
    }
}

/// The number of a refusal at `at`, where the byte may be one too many.
pub(crate) fn refusal_number(limits: &Limits, refusal: ScanRefusal, at: usize) -> u16
    requires { at ≤ limits.now.text }
    ensures { result ≡ refused_number limits.now.text refusal at }
{
    match refusal {
        ScanRefusal::EndOfFile => END_OF_FILE,
        ScanRefusal::InvalidCharacter => below(limits, INVALID_CHARACTER, at),
        ScanRefusal::InvalidTrait => below(limits, INVALID_TRAIT, at),
        ScanRefusal::TokenTooLong => below(limits, TOKEN_TOO_LONG, at),
    }
}

/// The number of the refusal of a byte that may be one too many.
fn below(limits: &Limits, code: u16, at: usize) -> u16
    ensures { result ≡ (if nat_lt at limits.now.text then code else FORM_TOO_LONG) }
{
    if at < limits.text {
        code
    } else {
        FORM_TOO_LONG
    }
}

/// What an attempt comes to where its first byte `c`, at `at`, begins a token.
#[tactic(auto, using(crate::proofs::Objects::begins_token))]
#[inline(always)]
pub(crate) fn begin_token<R: MacroFunctions>(
    with: &Context<'_, R>,
    at: usize,
    c: u8,
) -> Result<Event, AllocError>
    requires within { at ≤ with.now.limits.text }
    requires begins { stands_alone (entry_at with.now.readtable.now c).syntax ≡ false }
    ensures brings { let setting = setting R.functions with.now in
        (stack : List Frame) (cs : List ℕ) → length stack ≤ with.now.limits.nesting
        → IfOk result (λ event. Brings setting stack (at + 1) cs event
        (plan_gives setting stack (attempt_at setting (length stack)) at (c ∷ cs))) }
    ensures ready { IfOk result (IsReady with.now.limits (at + 1)) }
{
    match first_byte(with.alloc, with.readtable, &with.limits, at, c)? {
        FirstByte::More(scan) => Ok(Event::Open(State::Token(scan))),
        FirstByte::Refused(code) => Ok(Event::Refused(code, at)),
    }
}

/// The byte `c` at `at`, in a token that is an object.
#[inline(always)]
pub(crate) fn in_token<R: MacroFunctions>(
    with: &Context<'_, R>,
    scan: BegunScan,
    at: usize,
    c: u8,
) -> Result<Moved, AllocError>
    requires within { at ≤ with.now.limits.text }
    ensures moves { let setting = setting R.functions with.now in
        (stack : List Frame) (cs : List ℕ) → IfOk result (λ moved. Moves setting stack at c cs moved
        (state_gives setting stack (AtToken scan) at (c ∷ cs))) }
    ensures ready { IfOk result (IsReadyMove with.now.limits at) }
{
    match scan.byte(with.readtable, &with.limits, at, c)? {
        BegunByte::More(scan) => Ok(Moved::After(Event::Open(State::Token(scan)))),
        BegunByte::Ended(marks) => Ok(Moved::Before(token_end(with, marks, at)?)),
        BegunByte::Refused(code) => Ok(Moved::After(Event::Refused(code, at))),
    }
}

/// What a token comes to where it ends, at `at`.
#[inline(always)]
pub(crate) fn token_end<R: MacroFunctions>(
    with: &Context<'_, R>,
    marks: Marks,
    at: usize,
) -> Result<Event, AllocError>
    requires some { 0 < length marks.items }
    requires ascii { IsTrue (are_ascii marks.items) }
    ensures brings { let setting = setting R.functions with.now in
        (stack : List Frame) (cs : List ℕ) → IfOk result (λ event. Brings setting stack at cs event
        (plan_gives setting stack (token_found setting marks.items) at cs)) }
    ensures ends { IfOk result (IsEnd 1 at) }
{
    let case = with.readtable.case();
    match tell(
        with.alloc,
        case,
        with.packages,
        with.current,
        with.base,
        marks,
    ) {
        Ok(ResolvedToken::Object(x)) => Ok(Event::Gives(Found::One(true, x))),
        Ok(ResolvedToken::Dot) => Ok(Event::Gives(Found::LoneDot)),
        Err(ResolutionError::OutOfMemory) => Err(AllocError),
        Err(ResolutionError::Refused(code)) => Ok(Event::Refused(code, at)),
    }
}

/// The byte `c` at `at`, in the token of a call at this depth.
pub(crate) fn in_call_token<R: MacroFunctions>(
    with: &Context<'_, R>,
    depth: usize,
    call: Invoked,
    mut scan: TokenScan,
    at: usize,
    c: u8,
) -> Result<Moved, AllocError>
    requires answers { R.answers with.now.macros.now }
    requires within { at ≤ with.now.limits.text }
    ensures moves { let setting = setting R.functions with.now in
        (stack : List Frame) (cs : List ℕ) → depth ≡ length stack
        → IfOk result (λ moved. Moves setting stack at c cs moved
        (state_gives setting stack (AtCallToken call scan) at (c ∷ cs))) }
    ensures ready { IfOk result (IsReadyMove with.now.limits at) }
{
    match token_byte(with.readtable, &with.limits, &mut scan, at, c)? {
        LineByte::More => Ok(Moved::After(Event::Open(State::CallToken(call, scan)))),
        LineByte::Ended => {
            let gathered = StdGathered::Marks(scan.into_marks());
            Ok(Moved::Before(end_call(with, depth, &call, true, gathered, at)?))
        }
        LineByte::Refused(code) => Ok(Moved::After(Event::Refused(code, at))),
    }
}
