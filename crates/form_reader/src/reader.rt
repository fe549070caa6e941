//! A reader that takes a text one byte at a time.
ghost use Rattle.std.specs.Prelude.{IsTrue};
ghost use Rattle.form_reader.specs.State.{is_standing};

use crate::context::Context;
use crate::end_of_text::last_outcome;
use crate::stack::Stack;
use crate::state::State;
use crate::step::{Change, take_byte};
use lisp_object::Datum;
use lisp_reading::Limits;
use package_table::Packages;
use readtable_core::Readtable;
use std::alloc::{AllocError, Global};
use std::mem;
use user_macros::MacroFunctions;

mod feed;
mod whole;

pub use whole::read_one;

/// A reader that takes the text of a form one byte at a time. It keeps no text, but what the calls that are open have gathered.
#[derive(Drop)]
pub struct FormReader {
    limits: Limits,
    alloc: Global,
    start: usize,
    at: usize,
    stack: Stack,
    state: ReaderState,
    ghost standing: { IsTrue (is_standing limits stack at state) },
}

/// Where a reader is.
#[derive(Drop)]
pub enum ReaderState {
    /// In a form: where it is in the innermost call.
    Open(State),
    /// It refused the text, with this number, at this offset.
    Refused(u16, usize),
    /// It ran out of memory.
    OutOfMemory,
}

/// What one more byte is to the text.
#[derive(Drop)]
pub enum Advance {
    /// More bytes decide.
    More,
    /// The text begins with a form: its object, its start, its end, and where the next form begins.
    Form {
        datum: Datum,
        start: usize,
        end: usize,
        next: usize,
    },
    /// The number of the refusal, and its offset.
    Refused {
        code: u16,
        at: usize,
    },
}

impl FormReader {
    ghost use Rattle.std.specs.Prelude.{◌≡◌, ◌<◌, ◌≤◌, ◌+◌, ◌^◌, ℕ, true, false, List, [], ◌∷◌, ◌++◌, Ok, IfOk, IsErr, OnErr};
    ghost use Rattle.package_table.specs.Table.{IsPackage};
    ghost use Rattle.lisp_reading.specs.Setting.{Setting, setting_of};
    ghost use Rattle.lisp_object.specs.Object.{Object};
    ghost use Rattle.lisp_reading.specs.Reading.{form, is_whitespace, reads};
    ghost use Rattle.form_reader.specs.declared.reader.Advance.TheVariants.{More as AdvanceMore, Refused as AdvanceRefused};
    ghost use Rattle.form_reader.specs.declared.reader.ReadOutcome.TheVariants.{Empty as ReadEmpty, Refused as ReadRefused};
    ghost use Rattle.form_reader.specs.Step.{StepBeginsFrom, IsReadyChange};
    ghost use Rattle.form_reader.specs.Reader.{limits_of, fed, begun, HasRefused, RanOutOfMemory, IsNewReader, IsBetweenForms, LeavesBetween, IsAfterBytes, Steps, CountsFedBytes, BeginsLater, HasBegunAfter, StepsBegun, RefusesFrom, IsSoundStep, Becomes, IsOutcome};

    /// A reader that was fed nothing, between forms. It keeps `alloc` for what it gathers.
    pub fn new(alloc: Global, limits: Limits) -> FormReader
        ensures new { IsNewReader result }
        ensures limits { limits_of result ≡ limits }
        ensures begun { begun result ≡ 0 }
        ensures after { (setting : Setting) → IsAfterBytes setting result [] }
        ensures between { IsBetweenForms result }
        ensures has_begun { (setting : Setting) → HasBegunAfter setting result [] }
    {
        FormReader {
            limits,
            alloc,
            start: 0,
            at: 0,
            stack: Stack::new(alloc),
            state: ReaderState::Open(State::Object),
        }
    }

    /// Where the object, or the discarded call or text, that is now open began, as a number of bytes from the beginning of
    /// the text. A form that is read begins there or later, so the bytes before it need not be kept.
    pub fn begun(&self) -> usize
        ensures value { result ≡ begun self.now }
        ensures within { result ≤ fed self.now }
        ensures form { (setting : Setting) (bytes more : List ℕ) (x : Object) (start end next : ℕ)
            → IsAfterBytes setting self.now bytes
            → reads setting (bytes ++ more) ≡ form x start end next → result ≤ start }
    {
        let FormReader { start, .. } = self;
        *start
    }

    /// One more byte of the text, under the same readtable, base of numbers (2 to 36), packages, current package and functions
    /// as the bytes before it.
    /// After a refusal, and after it ran out of memory, it answers the same again. Between forms whitespace is taken without
    /// memory, unless the limit of the text is 0, and the reader stays there.
    pub fn step<R: MacroFunctions>(
        &mut self,
        byte: u8,
        readtable: &Readtable,
        base: u8,
        packages: &Packages,
        current: &[u8],
        macros: &R,
    ) -> Result<Advance, AllocError>
        requires answers { R.answers macros.now }
        requires lowest_base { 2 ≤ base }
        requires highest_base { base ≤ 36 }
        requires current { IsPackage packages.now.0 current.now }
        requires count { fed self.old < 2 ^ 63 }

        // What the byte comes to is what the whole text comes to: a form, a refusal, or that more bytes decide.
        ensures steps { (bytes : List ℕ) → IsAfterBytes
            (setting_of (limits_of self.old) readtable.now base packages.now.0 current.now
            (R.functions macros.now))
            self.old bytes → IfOk result (Steps
            (setting_of (limits_of self.old) readtable.now base packages.now.0 current.now
            (R.functions macros.now))
            self.new (bytes ++ byte ∷ [])) }
        ensures limits { limits_of self.new ≡ limits_of self.old }

        // It counts the byte unless it refuses it, and what is open began no earlier than before; a form that it gives is sound.
        ensures fed { fed self.new ≤ fed self.old + 1 }
        ensures counts { IfOk result (CountsFedBytes self.old self.new) }
        ensures begun { IfOk result (BeginsLater self.old self.new) }
        ensures sound { IfOk result IsSoundStep }

        // After a refusal, and after it ran out of memory, it answers the same again.
        ensures refused { (number offset : ℕ) → HasRefused self.old number offset
            → (result ≡ Ok (AdvanceRefused number offset)) × HasRefused self.new number offset }
        ensures unchanged { (number offset : ℕ) → HasRefused self.old number offset → self.new ≡ self.old }
        ensures memory { OnErr result (RanOutOfMemory self.new) }
        ensures spent { RanOutOfMemory self.old → IsErr result }
        ensures stays { (number offset : ℕ)
            → (HasRefused self.old number offset → fed self.new ≡ fed self.old)
            × (RanOutOfMemory self.old → fed self.new ≡ fed self.old) }

        // Between forms whitespace leaves the reader there.
        ensures between { IsBetweenForms self.old → is_whitespace readtable.now byte ≡ true
            → 0 < (limits_of self.old).text → (result ≡ Ok AdvanceMore) × IsBetweenForms self.new }
        ensures between_forms { IfOk result (LeavesBetween self.new) }
        ensures nothing_open { result ≡ Ok AdvanceMore
            → begun self.new ≡ fed self.new → IsBetweenForms self.new }

        // If it knew where the form began that is open, it still does.
        ensures has_begun { (bytes : List ℕ) → IsAfterBytes
            (setting_of (limits_of self.old) readtable.now base packages.now.0 current.now
            (R.functions macros.now))
            self.old bytes → HasBegunAfter
            (setting_of (limits_of self.old) readtable.now base packages.now.0 current.now
            (R.functions macros.now))
            self.old bytes → IfOk result (StepsBegun
            (setting_of (limits_of self.old) readtable.now base packages.now.0 current.now
            (R.functions macros.now))
            self.new (bytes ++ byte ∷ [])) }
    {
        let with = Context {
            alloc: self.alloc,
            limits: self.limits,
            readtable,
            base,
            packages,
            current,
            macros,
        };
        // Until the byte has come to something: where that fails, the reader answers the same again.
        match mem::replace(&mut self.state, ReaderState::OutOfMemory) {
            ReaderState::Open(state) => {
                let change = take_byte(&with, &mut self.stack, state, self.start, self.at, byte)?;
                Ok(self.take(change))
            }
            ReaderState::Refused(code, at) => {
                self.state = ReaderState::Refused(code, at);
                Ok(Advance::Refused { code, at })
            }
            ReaderState::OutOfMemory => Err(AllocError),
        }
    }

    /// Becomes what a byte is to the text.
    #[inline(always)]
    fn take(&mut self, change: Change) -> Advance
        requires ready { IsReadyChange (limits_of self.old) self.old.stack (fed self.old + 1) change }
        requires begins { StepBeginsFrom self.old.start change }
        ensures limits { limits_of self.new ≡ limits_of self.old }
        ensures takes { Becomes change self.old self.new result }
        ensures sound { IsSoundStep result }
    {
        match change {
            Change::Goes(start, at, state) => {
                self.start = start;
                self.at = at;
                self.state = ReaderState::Open(state);
                Advance::More
            }
            Change::Form(x, start, end, next) => {
                self.start = 0;
                self.at = 0;
                self.state = ReaderState::Open(State::Object);
                Advance::Form {
                    datum: x.into_datum(),
                    start,
                    end,
                    next,
                }
            }
            Change::Refused(start, code, at) => {
                // The offset of the refusing byte stays: what came to nothing before it is left out.
                self.at -= start - self.start;
                self.start = start;
                self.state = ReaderState::Refused(code, at);
                Advance::Refused { code, at }
            }
        }
    }

    /// The end of the text, under the same readtable, base, packages, current package and functions as its bytes. Between forms
    /// the text is empty.
    pub fn finish<R: MacroFunctions>(
        self,
        readtable: &Readtable,
        base: u8,
        packages: &Packages,
        current: &[u8],
        macros: &R,
    ) -> Result<ReadOutcome, AllocError>
        requires answers { R.answers macros.now }
        requires lowest_base { 2 ≤ base }
        requires highest_base { base ≤ 36 }
        requires current { IsPackage packages.now.0 current.now }
        requires count { fed self ≤ 2 ^ 63 }

        // After a refusal, and after it ran out of memory, it answers the same again.
        ensures refused { (number offset : ℕ) → HasRefused self number offset
            → result ≡ Ok (ReadRefused number offset) }
        ensures spent { RanOutOfMemory self → IsErr result }

        // The outcome is that of the whole text.
        ensures outcome { (bytes : List ℕ) → IsAfterBytes
            (setting_of (limits_of self) readtable.now base packages.now.0 current.now
            (R.functions macros.now))
            self bytes → IfOk result (λ outcome. IsOutcome outcome (reads
            (setting_of (limits_of self) readtable.now base packages.now.0 current.now
            (R.functions macros.now))
            bytes)) }
        ensures between { IsBetweenForms self → result ≡ Ok ReadEmpty }
        ensures has_begun { (bytes : List ℕ) → HasBegunAfter
            (setting_of (limits_of self) readtable.now base packages.now.0 current.now
            (R.functions macros.now))
            self bytes → IfOk result (RefusesFrom
            (setting_of (limits_of self) readtable.now base packages.now.0 current.now
            (R.functions macros.now))
            bytes (begun self)) }
    {
        let FormReader {
            limits,
            alloc,
            start,
            at,
            mut stack,
            state,
        } = self;
        match state {
            ReaderState::Open(state) => {
                let with = Context {
                    alloc,
                    limits,
                    readtable,
                    base,
                    packages,
                    current,
                    macros,
                };
                last_outcome(&with, &mut stack, state, start, at)
            }
            ReaderState::Refused(code, at) => Ok(ReadOutcome::Refused { code, at }),
            ReaderState::OutOfMemory => Err(AllocError),
        }
    }
}

/// What a text begins with.
#[derive(Drop)]
pub enum ReadOutcome {
    /// An object, its start, its end, and where the next form begins: at the end, or after the one whitespace character that
    /// is discarded with it.
    Form {
        datum: Datum,
        start: usize,
        end: usize,
        next: usize,
    },
    /// Only discarded text.
    Empty,
    /// The number of a refusal, and its offset.
    Refused {
        code: u16,
        at: usize,
    },
}
