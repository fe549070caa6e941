// Under what a text is read, and what it begins with.
ghost use Rattle.std.specs.Prelude.{◌≡◌, ◌≤◌, true, IfOk};
ghost use Rattle.package_table.specs.Table.{IsPackage};
ghost use Rattle.form_reader.specs.Reader.{IsOutcome};
ghost use Rattle.prevalence_store.specs.meaning.Acceptance.{base_in, package_in, read_in, table_in};
ghost use Rattle.prevalence_store.specs.steps.Setting.{SymbolsAreThere, IsTextReadWhole};

use crate::whole_macros::WholeMacros;
use form_eval::ReadForm;
use form_reader::{Limits, ReadOutcome, read_one};
use lisp_object::refusal::{END_OF_FILE, TEXT_LEFT_OVER};
use plain_reader::read_plain;
use plist_state::World;
use readtable_core::Readtable;
use session_words::Mode;
use std::alloc::{AllocError, Global};
use user_macros::MacroFunctions;

/// The readtable under which a text is read.
pub fn readtable_in(world: &World, mode: Mode) -> &Readtable
    ensures { result.now ≡ table_in world.now.0 mode }
{
    world.soundness();
    match mode {
        Mode::Current => world.readtable(world.current_readtable()).unwrap(),
        Mode::Rescue => world.readtable(b"STANDARD").unwrap(),
    }
}

/// The package in which a text is read.
pub fn package_in(world: &World, mode: Mode) -> &[u8]
    ensures name { result.now ≡ package_in world.now.0 mode }
    ensures is_package { IsPackage world.now.0.packages result.now }
{
    world.soundness();
    match mode {
        Mode::Current => world.current_package(),
        Mode::Rescue => b"COMMON-LISP-USER",
    }
}

/// The base of the numbers of a text.
pub fn base_in(world: &World, mode: Mode) -> u8
    ensures base { result ≡ base_in world.now.0 mode }
    ensures lowest_base { 2 ≤ result }
    ensures highest_base { result ≤ 36 }
{
    match mode {
        Mode::Current => world.read_base(),
        Mode::Rescue => 10,
    }
}

/// What a text is that is to be one form.
#[derive(Drop)]
pub enum WholeText {
    /// A form, and from where to where its own text goes.
    Form {
        /// The form that was read.
        form: ReadForm,
        /// Where its own text begins.
        start: usize,
        /// Where its own text ends.
        end: usize,
    },
    /// It is refused with this number: it is not read, there is no object in it, or more comes after the object.
    Refused(u16),
}

/// Reads a text that is to be one form, in a world.
pub fn read_whole<R: MacroFunctions>(
    alloc: Global,
    world: &World,
    macros: &WholeMacros<R>,
    mode: Mode,
    text: &[u8],
) -> Result<WholeText, AllocError>
    ensures { IfOk result (IsTextReadWhole R.Meaning.functions world.now.0 mode text.now) }
{
    world.soundness();
    let SettingStart { outcome, known } = begins(alloc, world, macros, mode, text)?;
    match outcome {
        ReadOutcome::Empty => Ok(WholeText::Refused(END_OF_FILE)),
        ReadOutcome::Refused { code, at: _ } => Ok(WholeText::Refused(code)),
        ReadOutcome::Form {
            datum,
            start,
            end,
            next,
        } => {
            if next != text.len() {
                return Ok(WholeText::Refused(TEXT_LEFT_OVER));
            }
            let form = ReadForm { datum, known };
            Ok(WholeText::Form { form, start, end })
        }
    }
}

// What a text begins with.
#[derive(Drop)]
struct SettingStart {
    outcome: ReadOutcome,
    // whether each symbol of a form is known to be there already
    known: bool,
}

// What a text begins with.
fn begins<R: MacroFunctions>(
    alloc: Global,
    world: &World,
    macros: &WholeMacros<R>,
    mode: Mode,
    text: &[u8],
) -> Result<SettingStart, AllocError>
    ensures outcome { IfOk result (λ begun. IsOutcome begun.outcome
        (read_in R.Meaning.functions world.now.0 mode text.now)) }
    ensures all_there { IfOk result (λ begun. begun.known ≡ true
        → SymbolsAreThere world.now.0.packages begun.outcome) }
{
    let (readtable, base) = (readtable_in(world, mode), base_in(world, mode));
    let (packages, package) = (world.packages(), package_in(world, mode));
    let limits = Limits::form();
    // most forms are plain, and need no reader of bytes
    if let Some(plain) = read_plain(alloc, limits, readtable, base, packages, package, text)? {
        return Ok(SettingStart {
            outcome: ReadOutcome::Form {
                datum: plain.datum,
                start: 0,
                end: plain.end,
                next: plain.end,
            },
            known: plain.known,
        });
    }
    let functions = &macros.functions;
    let outcome = read_one(
        alloc, limits, readtable, base, packages, package, functions, text,
    )?;
    Ok(SettingStart {
        outcome,
        known: false,
    })
}
