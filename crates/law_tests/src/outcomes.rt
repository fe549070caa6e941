//! What the laws of reading say of what was read.
ghost use Rattle.std.specs.Prelude.{◌≡◌, ◌≤◌, ◌<◌, ◌^◌, ◌∷◌, ◌++◌, [], ℕ, List, IfOk, IsTrue, Ok, length};
ghost use Rattle.form_reader.specs.Reader.{IsAfterBytes, IsBetweenForms, IsOutcome, fed, limits_of};
ghost use Rattle.lisp_reading.specs.SamePackages.{FindsSame};
ghost use Rattle.lisp_reading.specs.Reading.{ReadingResult, attempt, empty, outcome, reads, reads_at};
ghost use Rattle.lisp_reading.specs.Plans.{run};
ghost use Rattle.lisp_reading.specs.Setting.{setting_of};
ghost use Rattle.package_table.specs.Table.{IsPackage, Table};
ghost use Rattle.law_tests.specs.Known.{IsKnownOutcome};
ghost use Rattle.readtable_core.specs.Names.{is_among};
ghost use Rattle.user_macros.specs.Functions.{named_among};

use form_reader::{
    Advance, FormReader, Limits, ReadOutcome, empty_texts_are_discarded, forms_are_decided,
    forms_are_within_the_limit, forms_fit, only_registered_names_matter,
    only_what_is_found_matters, read_one, reading_goes_on, refusals_are_of_reading,
    spaced_forms_are_framed, texts_begin_between_forms, what_is_decided_is_answered, wider_limits,
};
use lisp_reading::a_text_is_decided;
use package_table::Packages;
use readtable_core::Readtable;
use std::alloc::{AllocError, Global};
use std::test::Fail;
use user_macros::{MacroFunctions, Macros, NoFunctions};

/// What a text begins with.
///
/// - `known`: of a form where it was decided, and how it is read again; of a refusal its number.
/// - `goes_on`: it is what the first attempt at an object says, and then what is read after that.
/// - `packages`: it is the same in other packages that find the same.
/// - `names`: and by other functions of the same names.
fn read_alone<R: MacroFunctions>(
    alloc: Global,
    limits: Limits,
    readtable: &Readtable,
    base: u8,
    packages: &Packages,
    current: &[u8],
    macros: &R,
    bytes: &[u8],
) -> Result<ReadOutcome, AllocError>
    requires answers { R.answers macros.now }
    requires lowest_base { 2 ≤ base }
    requires highest_base { base ≤ 36 }
    requires current { IsPackage packages.now.0 current.now }
    ensures known { IfOk result (IsKnownOutcome
        (setting_of limits readtable.now base packages.now.0 current.now (R.functions macros.now)) bytes.now) }
    ensures goes_on { IfOk result (λ read. IsOutcome read (outcome readtable.now 0
        (λ next rest. reads_at
        (setting_of limits readtable.now base packages.now.0 current.now (R.functions macros.now)) next rest)
        (run readtable.now limits (attempt
        (setting_of limits readtable.now base packages.now.0 current.now (R.functions macros.now)) limits.nesting) 0 bytes.now))) }
    ensures packages { IfOk result (λ read. (others : Table) → FindsSame packages.now.0 others
        → IsOutcome read (reads
        (setting_of limits readtable.now base others current.now (R.functions macros.now)) bytes.now)) }
    ensures names { IfOk result (λ read. (names : List (List ℕ))
        → ((name : List ℕ) → IsTrue (is_among (R.functions macros.now).names name) → IsTrue (is_among names name))
        → ((name : List ℕ) → IsTrue (is_among names name) → IsTrue (is_among (R.functions macros.now).names name))
        → IsOutcome read (reads (setting_of limits readtable.now base packages.now.0 current.now
        (named_among names (R.functions macros.now))) bytes.now)) }
{
    forms_are_within_the_limit();
    forms_fit();
    a_text_is_decided();
    forms_are_decided();
    wider_limits();
    spaced_forms_are_framed();
    empty_texts_are_discarded();
    refusals_are_of_reading();
    only_what_is_found_matters();
    only_registered_names_matter();
    reading_goes_on();
    let outcome = read_one(
        alloc, limits, readtable, base, packages, current, macros, bytes,
    )?;
    Ok(outcome)
}

/// One more byte of a text for a reader.
///
/// - `undecided`: where more bytes decide, no outcome is that of every text that begins with these bytes.
/// - `begins`: between forms nothing but discarded text came before, and the text after it is read as one that begins there.
fn step_alone<R: MacroFunctions>(
    reader: &mut FormReader,
    byte: u8,
    readtable: &Readtable,
    base: u8,
    packages: &Packages,
    current: &[u8],
    macros: &R,
) -> Result<Advance, AllocError>
    requires answers { R.answers macros.now }
    requires lowest_base { 2 ≤ base }
    requires highest_base { base ≤ 36 }
    requires current { IsPackage packages.now.0 current.now }
    requires count { fed reader.old < 2 ^ 63 }
    ensures undecided { (bytes : List ℕ) (whole : ReadingResult) → IsAfterBytes
        (setting_of (limits_of reader.old) readtable.now base packages.now.0 current.now (R.functions macros.now))
        reader.old bytes → result ≡ Ok Advance.More
        → ((more : List ℕ) → reads
        (setting_of (limits_of reader.old) readtable.now base packages.now.0 current.now (R.functions macros.now))
        ((bytes ++ byte ∷ []) ++ more) ≡ whole) → ⊥ }
    ensures begins { (bytes more : List ℕ) → IsAfterBytes
        (setting_of (limits_of reader.old) readtable.now base packages.now.0 current.now (R.functions macros.now))
        reader.old bytes → IsBetweenForms reader.old
        → (reads
        (setting_of (limits_of reader.old) readtable.now base packages.now.0 current.now (R.functions macros.now))
        bytes ≡ empty)
        × (reads
        (setting_of (limits_of reader.old) readtable.now base packages.now.0 current.now (R.functions macros.now))
        (bytes ++ more) ≡ reads_at
        (setting_of (limits_of reader.old) readtable.now base packages.now.0 current.now (R.functions macros.now))
        (length bytes) more) }
{
    what_is_decided_is_answered();
    texts_begin_between_forms();
    reader.step(byte, readtable, base, packages, current, macros)
}

/// Whether a text of one byte is read whole by both, in the first packages and the standard readtable.
fn is_read_by_both(alloc: Global, byte: u8) -> Result<bool, AllocError> {
    let table = Readtable::standard(alloc)?;
    let packages = Packages::new(alloc)?;
    let macros = Macros::new(alloc, NoFunctions);
    let Some(current) = packages.find(b"COMMON-LISP-USER") else {
        return Ok(false);
    };
    let limits = Limits::form();
    let mut reader = FormReader::new(alloc, limits);
    let step = step_alone(&mut reader, byte, &table, 10, &packages, current, &macros)?;
    let text = [byte];
    let whole = read_alone(
        alloc, limits, &table, 10, &packages, current, &macros, &text,
    )?;
    Ok(matches!(&step, Advance::More) && matches!(&whole, ReadOutcome::Form { .. }))
}

#[test]
fn a_letter_is_a_form_at_the_end_of_a_text(rt: HostRuntime) -> Result<(), Fail> {
    assert!(rt; is_read_by_both(rt.alloc(), b'A')?);
    Ok(())
}
