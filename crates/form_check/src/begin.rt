//! What a text begins with, and where that begins.
ghost use Rattle.std.specs.Prelude.{◌≡◌, ◌≤◌, ◌^◌, ℕ, List, IfOk};
ghost use Rattle.package_table.specs.Table.{IsPackage};
ghost use Rattle.lisp_reading.specs.Setting.{setting_of};
ghost use Rattle.form_check.specs.Checking.{IsBeginning, beginning_at_end, setting_under};
ghost use Rattle.form_reader.specs.Reader.{IsAfterBytes, HasBegunAfter, fed, limits_of};

use form_reader::{
    Advance, FormReader, Limits, ReadOutcome, forms_are_framed, refusals_are_decided,
};
use package_table::Packages;
use readtable_core::Readtable;
use std::alloc::{AllocError, Global};
use user_macros::MacroFunctions;

/// Under what a text is read.
#[derive(Clone, Copy)]
pub struct Under<'a> {
    pub readtable: &'a Readtable,
    /// The base of its numbers, from 2 to 36.
    pub base: u8,
    pub packages: &'a Packages,
    /// The name of the current package.
    pub current: &'a [u8],
}

/// What a text begins with.
#[derive(Clone, Copy, Debug, PartialEq, Eq)]
pub(crate) enum Beginning {
    /// No form.
    Nothing,
    /// A form; what comes after it begins here.
    Form(usize),
    /// A refusal: its number, where what is refused begins, and where it is refused.
    Refused {
        number: u16,
        start: usize,
        at: usize,
    },
}

/// What a text begins with.
pub(crate) fn beginning_of<M: MacroFunctions>(
    alloc: Global,
    under: &Under<'_>,
    macros: &M,
    text: &[u8],
) -> Result<Beginning, AllocError>
    requires answers { M.answers macros.now }
    requires lowest_base { 2 ≤ under.now.base }
    requires highest_base { under.now.base ≤ 36 }
    requires current { IsPackage under.now.packages.now.0 under.now.current.now }
    ensures { IfOk result (IsBeginning (setting_under under.now.readtable.now under.now.base
        under.now.packages.now.0 under.now.current.now (M.functions macros.now)) text.now) }
{
    forms_are_framed();
    refusals_are_decided();
    let mut reader = FormReader::new(alloc, Limits::form());
    if text.is_empty() {
        return finished(reader, under, macros);
    }
    let Under {
        readtable,
        base,
        packages,
        current,
    } = *under;
    let (_, advance) = reader.feed(text, readtable, base, packages, current, macros)?;
    match advance {
        Advance::More => finished(reader, under, macros),
        Advance::Form { next, .. } => Ok(Beginning::Form(next)),
        Advance::Refused { code, at } => Ok(Beginning::Refused {
            number: code,
            start: reader.begun(),
            at,
        }),
    }
}

// What the text that the reader was fed is at its end.
fn finished<M: MacroFunctions>(
    reader: FormReader,
    under: &Under<'_>,
    macros: &M,
) -> Result<Beginning, AllocError>
    requires answers { M.answers macros.now }
    requires lowest_base { 2 ≤ under.now.base }
    requires highest_base { under.now.base ≤ 36 }
    requires current { IsPackage under.now.packages.now.0 under.now.current.now }
    requires count { fed reader ≤ 2 ^ 63 }
    ensures { let setting = setting_of (limits_of reader) under.now.readtable.now under.now.base
        under.now.packages.now.0 under.now.current.now (M.functions macros.now) in
        (text : List ℕ) → IsAfterBytes setting reader text → HasBegunAfter setting reader text
        → IfOk result (IsBeginning setting text) }
{
    forms_are_framed();
    refusals_are_decided();
    let start = reader.begun();
    let Under {
        readtable,
        base,
        packages,
        current,
    } = *under;
    let outcome = reader.finish(readtable, base, packages, current, macros)?;
    Ok(ended(&outcome, start))
}

// What a text begins with that came to this, where what is open began there.
fn ended(outcome: &ReadOutcome, start: usize) -> Beginning
    ensures { result ≡ beginning_at_end outcome.now start }
{
    match outcome {
        ReadOutcome::Empty => Beginning::Nothing,
        ReadOutcome::Form { next, .. } => Beginning::Form(*next),
        ReadOutcome::Refused { code, at } => Beginning::Refused {
            number: *code,
            start,
            at: *at,
        },
    }
}
