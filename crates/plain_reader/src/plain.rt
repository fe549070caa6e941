//! Plain forms.
ghost use Rattle.std.specs.Prelude.{◌≡◌, ◌≤◌, ◌<◌, ℕ, List, ◌∷◌, ◌++◌, length, true, None, Ok, IfOk, IfSome, IsTrue};
ghost use Rattle.std.specs.List.{list_all};
ghost use Rattle.lisp_object.specs.Object.{IsSound};
ghost use Rattle.lisp_object.specs.Datum.{object_of, is_proper};
ghost use Rattle.readtable_core.specs.declared.table.Case.TheVariants.{Upcase};
ghost use Rattle.package_table.specs.Table.{IsPackage};
ghost use Rattle.package_table.specs.Symbols.{are_there};
ghost use Rattle.user_macros.specs.Functions.{Functions};
ghost use Rattle.lisp_reading.specs.Setting.{setting_of};
ghost use Rattle.lisp_reading.specs.Reading.{is_whitespace, form, reads};
ghost use Rattle.package_table.specs.Resolving.{found_at, resolution};
ghost use Rattle.package_table.specs.Table.{Name};
ghost use Rattle.plain_reader.specs.Written.{get_form_at, setf_at};
ghost use Rattle.plain_reader.specs.Plain.{IsHanded};

use crate::context::PlainContext;
use crate::literal::Literal;
use crate::objects::{calls, is_blank, list};
use crate::property_forms::{written_place, written_setf};
use lisp_object::Datum;
use lisp_reading::Limits;
use package_table::Packages;
use readtable_core::standard_names::{STD_LIST, STD_QUOTE};
use readtable_core::{Case, Readtable};
use std::alloc::{AllocError, Global};

/// Under a higher limit of nesting, no form is read here: each open list may be a call on the stack.
const MAX_NESTING: u32 = 1000;

/// A form that begins a text: its object, its end, and whether each of its symbols is known to be one of the packages.
#[derive(Drop)]
pub struct PlainForm {
    pub datum: Datum,
    pub end: usize,
    pub known: bool,
}

/// The form that the text `bytes` begins with, where numbers are in `base`, which is 2 to 36, if it is a list that is written
/// with parentheses, quotes, tokens and texts without escapes, and whitespace, under the standard functions of these
/// characters. It is that of every text that begins with these bytes, whatever the functions of users are. None says nothing
/// of the text; under a limit of nesting over 1,000 it is all that is said.
pub fn read_plain(
    alloc: Global,
    limits: Limits,
    readtable: &Readtable,
    base: u8,
    packages: &Packages,
    current: &[u8],
    bytes: &[u8],
) -> Result<Option<PlainForm>, AllocError>
    requires lowest_base { 2 ≤ base }
    requires highest_base { base ≤ 36 }
    requires current { IsPackage packages.now.0 current.now }
    ensures form { (functions : Functions) (more : List ℕ) →
        let setting = setting_of limits readtable.now base packages.now.0 current.now functions in
        IfOk result (λ found. IfSome found
        (λ f. reads setting (bytes.now ++ more) ≡ form (object_of f.datum) 0 f.end f.end)) }
    ensures known { IfOk result (λ found. IfSome found
        (λ f. f.known ≡ true → are_there packages.now.0 (object_of f.datum) ≡ true)) }
    ensures proper { IfOk result (λ found. IfSome found (λ f. is_proper f.datum ≡ true)) }
    ensures sound { IfOk result (λ found. IfSome found (λ f. IsSound (object_of f.datum))) }

    // The form ends within the bytes, behind the first; in whitespace alone none is found.
    ensures some { IfOk result (λ found. IfSome found (λ f. 0 < f.end)) }
    ensures within { IfOk result (λ found. IfSome found (λ f. f.end ≤ length bytes.now)) }
    ensures blank { list_all (is_whitespace readtable.now) bytes.now ≡ true → result ≡ Ok None }
{
    if bytes.len() > limits.text {
        return Ok(None);
    }
    if limits.nesting > MAX_NESTING {
        return Ok(None);
    }
    match bytes {
        [c, rest @ ..] if *c == b'(' => {
            if !calls(readtable, b'(', STD_LIST) || is_blank(readtable, b')') {
                return Ok(None);
            }
            readtable.soundness();
            let with = PlainContext {
                alloc,
                limits,
                readtable,
                base,
                packages,
                current,
                current_package: packages.package(current),
                standard: base == 10 && is_upcase(readtable.case()),
                quotes: calls(readtable, b'\'', STD_QUOTE),
            };
            let mut known = true;
            match list(&with, limits.nesting, &mut known, rest)? {
                None => Ok(None),
                Some(gathered) => {
                    packages.soundness();
                    let list = gathered.items.into_list(alloc)?;
                    Ok(Some(PlainForm {
                        datum: list.into_datum(),
                        end: bytes.len() - gathered.rest.len(),
                        known,
                    }))
                }
            }
        }
        _ => Ok(None),
    }
}

/// SETF of the property of two quoted symbols to a literal, by the names that stand in the text; where it ends, and whether each
/// symbol of the literal is known to be one of the packages.
#[derive(Drop)]
pub struct ReadSetf<'a> {
    pub symbol: &'a [u8],
    pub indicator: &'a [u8],
    pub literal: Literal,
    pub end: usize,
    pub known: bool,
}

/// What `read_plain` gives of the text `bytes`, where it is such a SETF with one whitespace character between its parts, and its
/// names, in capitals and without a package prefix, find symbols. They are not sought: whoever sets the property finds them. None
/// says nothing of the text.
#[inline(always)]
pub fn read_setf<'a>(
    alloc: Global,
    limits: Limits,
    readtable: &Readtable,
    base: u8,
    packages: &Packages,
    current: &[u8],
    bytes: &'a [u8],
) -> Result<Option<ReadSetf<'a>>, AllocError>
    requires lowest_base { 2 ≤ base }
    requires highest_base { base ≤ 36 }
    requires current { IsPackage packages.now.0 current.now }
    ensures form { (functions : Functions) (more : List ℕ) (h i : Name) →
        let setting = setting_of limits readtable.now base packages.now.0 current.now functions in
        IfOk result (λ found. IfSome found
        (λ s. resolution packages.now.0 current.now s.symbol.now ≡ Ok (found_at h)
        → resolution packages.now.0 current.now s.indicator.now ≡ Ok (found_at i)
        → reads setting (bytes.now ++ more)
        ≡ form (setf_at h s.symbol.now i s.indicator.now s.literal) 0 s.end s.end)) }
    ensures known { (h i : Name) → IfOk result (λ found. IfSome found
        (λ s. resolution packages.now.0 current.now s.symbol.now ≡ Ok (found_at h)
        → resolution packages.now.0 current.now s.indicator.now ≡ Ok (found_at i)
        → s.known ≡ true
        → are_there packages.now.0 (setf_at h s.symbol.now i s.indicator.now s.literal) ≡ true)) }
    ensures sound { (h i : Name) → IfOk result (λ found. IfSome found
        (λ s. resolution packages.now.0 current.now s.symbol.now ≡ Ok (found_at h)
        → resolution packages.now.0 current.now s.indicator.now ≡ Ok (found_at i)
        → IsSound (setf_at h s.symbol.now i s.indicator.now s.literal))) }
{
    let Some(rest) = behind_parenthesis(limits, bytes) else {
        return Ok(None);
    };
    let Some(with) = quoting(alloc, limits, readtable, base, packages, current) else {
        return Ok(None);
    };
    packages.soundness();
    let mut known = true;
    match written_setf(&with, limits.nesting, &mut known, rest)? {
        None => Ok(None),
        Some(taken) => Ok(Some(ReadSetf {
            symbol: taken.symbol,
            indicator: taken.indicator,
            literal: taken.literal,
            end: bytes.len() - taken.rest.len(),
            known,
        })),
    }
}

/// GET of the property of two quoted symbols, by the names that stand in the text, and where it ends.
#[derive(Clone, Copy)]
pub struct ReadGet<'a> {
    pub symbol: &'a [u8],
    pub indicator: &'a [u8],
    pub end: usize,
}

/// What `read_plain` gives of the text `bytes`, where it is such a GET, as `read_setf` has its place. None says nothing of the text.
#[inline(always)]
pub fn read_get<'a>(
    alloc: Global,
    limits: Limits,
    readtable: &Readtable,
    base: u8,
    packages: &Packages,
    current: &[u8],
    bytes: &'a [u8],
) -> Option<ReadGet<'a>>
    requires lowest_base { 2 ≤ base }
    requires highest_base { base ≤ 36 }
    requires current { IsPackage packages.now.0 current.now }
    ensures form { (functions : Functions) (more : List ℕ) (h i : Name) →
        let setting = setting_of limits readtable.now base packages.now.0 current.now functions in
        IfSome result
        (λ g. resolution packages.now.0 current.now g.symbol.now ≡ Ok (found_at h)
        → resolution packages.now.0 current.now g.indicator.now ≡ Ok (found_at i)
        → reads setting (bytes.now ++ more)
        ≡ form (get_form_at h g.symbol.now i g.indicator.now) 0 g.end g.end) }
    ensures there { (h i : Name) → IfSome result
        (λ g. resolution packages.now.0 current.now g.symbol.now ≡ Ok (found_at h)
        → resolution packages.now.0 current.now g.indicator.now ≡ Ok (found_at i)
        → are_there packages.now.0 (get_form_at h g.symbol.now i g.indicator.now) ≡ true) }
    ensures within { IfSome result (λ g. (0 < g.end) × (g.end ≤ length bytes.now)) }
{
    let rest = behind_parenthesis(limits, bytes)?;
    if limits.nesting < 2 {
        return None;
    }
    let with = quoting(alloc, limits, readtable, base, packages, current)?;
    packages.soundness();
    let place = written_place(&with, limits.nesting, rest)?;
    Some(ReadGet {
        symbol: place.symbol,
        indicator: place.indicator,
        end: bytes.len() - place.rest.len(),
    })
}

// The text behind a parenthesis, where it is not too long, and no higher limit of nesting is in force than forms are read under here.
#[inline(always)]
fn behind_parenthesis<'a>(limits: Limits, bytes: &'a [u8]) -> Option<&'a [u8]>
    ensures fits { IfSome result (λ _. length bytes.now ≤ limits.text) }
    ensures behind { IfSome result (λ rest. 40 ∷ rest.now ≡ bytes.now) }
{
    if bytes.len() > limits.text || limits.nesting > MAX_NESTING {
        return None;
    }
    match bytes {
        [c, rest @ ..] if *c == b'(' => Some(rest),
        _ => None,
    }
}

// What reading is handed, where parentheses and quotes have their standard functions.
#[inline(always)]
fn quoting<'a>(
    alloc: Global,
    limits: Limits,
    readtable: &'a Readtable,
    base: u8,
    packages: &'a Packages,
    current: &'a [u8],
) -> Option<PlainContext<'a>>
    requires lowest_base { 2 ≤ base }
    requires highest_base { base ≤ 36 }
    requires current { IsPackage packages.now.0 current.now }
    ensures quotes { IfSome result (λ with. IsTrue with.quotes) }
    ensures hands { IfSome result
        (IsHanded limits readtable.now base packages.now.0 current.now) }
{
    if !calls(readtable, b'(', STD_LIST) || is_blank(readtable, b')') {
        return None;
    }
    if !calls(readtable, b'\'', STD_QUOTE) {
        return None;
    }
    readtable.soundness();
    Some(PlainContext {
        alloc,
        limits,
        readtable,
        base,
        packages,
        current,
        current_package: packages.package(current),
        standard: base == 10 && is_upcase(readtable.case()),
        quotes: true,
    })
}

fn is_upcase(case: Case) -> bool
    ensures { IsTrue result → case ≡ Upcase }
{
    matches!(case, Case::Upcase)
}
