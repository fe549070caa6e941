//! What is told of a form that was refused.
ghost use Rattle.std.specs.Prelude.{◌≡◌, true, IfOk, IfSome};
ghost use Rattle.form_eval.specs.Laws.{FitsTable, MayEvaluate};
ghost use Rattle.lisp_object.specs.Datum.{object_of, is_proper};
ghost use Rattle.lisp_object.specs.Object.{AllAtoms};
ghost use Rattle.refused_part.specs.Search.{MayTry};

use crate::clashes::add_clash;
use crate::filling::item_at;
use crate::marks::{call_of, quotation};
use crate::operators::{
    PAZTURROK, is_in_pazturrok, is_of_pazturrok, meant_by, name_of_symbol, without_bars,
};
use crate::part::refused_part;
use crate::quotes::told_of;
use crate::trial::{MOST_LEVELS, is_refused_form};
use crate::ways::{ALONE, WITHOUT_COMMON_LISP, add_way_to_own, uses, way_on};
use canon_printer::print;
use form_eval::{EvaluationError, ReadForm, accept};
use lisp_object::Datum;
use lisp_object::refusal::{NAME_CONFLICT, NOT_A_FORM, UNKNOWN_OPERATOR, name_of};
use package_table::standardized::COMMON_LISP;
use plist_state::World;
use std::alloc::{AllocError, Global};
use user_macros::Meaning;

/// What is told of a form that was refused with this number: after 31 the operator, and how it becomes known, or which one may have been
/// meant; else the name of the number and the part of the form for which it was refused, up to 80 bytes, and after 30 the part with a quote. No
/// byte of it is a control character. The world is as it was.
///
/// # Errors
/// Memory runs out.
pub fn refused_text<M: Meaning>(
    alloc: Global,
    world: &mut World,
    macros: &M,
    form: &ReadForm,
    number: u16,
) -> Result<Vec<u8>, AllocError>
    requires form { MayEvaluate world.old.0.packages form.now }
    ensures same { world.new ≡ world.old }
{
    let part = refused_part(alloc, world, macros, form, number)?;
    match unknown_operator(alloc, world, macros, part, number)? {
        Some(operator) => operator_text(alloc, world, macros, operator),
        None => part_text(alloc, world, macros, part, number),
    }
}

// The operator of a form that was refused with this number, if it is not known.
fn unknown_operator<'a, M: Meaning>(
    alloc: Global,
    world: &mut World,
    macros: &M,
    part: &'a Datum,
    number: u16,
) -> Result<Option<&'a Datum>, AllocError>
    requires part { MayTry world.old.0.packages part.now }
    ensures may { IfOk result (λ unknown. IfSome unknown
        (λ operator. MayTry world.old.0.packages operator.now)) }
    ensures same { world.new ≡ world.old }
{
    if number != UNKNOWN_OPERATOR {
        return Ok(None);
    }
    let Some(operator) = item_at(part, 0) else {
        return Ok(None);
    };
    if is_unknown(alloc, world, macros, operator)? {
        Ok(Some(operator))
    } else {
        Ok(None)
    }
}

// Whether a form without arguments is refused with 31 if it begins with this.
fn is_unknown<M: Meaning>(
    alloc: Global,
    world: &mut World,
    macros: &M,
    head: &Datum,
) -> Result<bool, AllocError>
    requires head { MayTry world.old.0.packages head.now }
    ensures same { world.new ≡ world.old }
{
    world.soundness();
    let form = call_of(alloc, head)?;
    is_refused_form(alloc, world, macros, form, UNKNOWN_OPERATOR)
}

// What is told of an operator that is not known.
fn operator_text<M: Meaning>(
    alloc: Global,
    world: &mut World,
    macros: &M,
    operator: &Datum,
) -> Result<Vec<u8>, AllocError>
    requires operator { MayTry world.old.0.packages operator.now }
    ensures same { world.new ≡ world.old }
{
    let name = printed(alloc, world, macros, operator)?;
    let mut text = Vec::from_slice(alloc, b"no operator ")?;
    text.extend_from_slice(without_bars(name.as_slice()))?;
    add_way(alloc, &mut text, world, operator)?;
    Ok(text)
}

// What is told of a part that was refused with another number.
fn part_text<M: Meaning>(
    alloc: Global,
    world: &mut World,
    macros: &M,
    part: &Datum,
    number: u16,
) -> Result<Vec<u8>, AllocError>
    requires part { MayTry world.old.0.packages part.now }
    ensures same { world.new ≡ world.old }
{
    let name = printed(alloc, world, macros, part)?;
    let mut text = Vec::from_slice(alloc, name_of(number).as_bytes())?;
    text.extend_from_slice(b": ")?;
    text.extend_from_slice(name.as_slice())?;
    if number == NOT_A_FORM {
        text.extend_from_slice(b"; quoted it is a value: '")?;
        text.extend_from_slice(name.as_slice())?;
    }
    text.extend_from_slice(way_on(world, part, number))?;
    if number == NAME_CONFLICT {
        add_clash(alloc, &mut text, world, part)?;
    }
    Ok(text)
}

// Adds how an operator becomes known, or which one may have been meant.
fn add_way(
    alloc: Global,
    text: &mut Vec<u8>,
    world: &World,
    operator: &Datum,
) -> Result<(), AllocError> {
    if !uses(world, COMMON_LISP) {
        return text.extend_from_slice(WITHOUT_COMMON_LISP);
    }
    let Some(name) = name_of_symbol(operator) else {
        return Ok(());
    };
    if is_in_pazturrok(operator) && is_of_pazturrok(name) {
        return text.extend_from_slice(ALONE);
    }
    if is_of_pazturrok(name) {
        text.extend_from_slice(b": ")?;
        return add_way_to_own(alloc, text, world, name);
    }
    if let Some(known) = meant_by(alloc, name)? {
        text.extend_from_slice(b"; did you mean ")?;
        text.extend_from_slice(known)?;
        text.push(b'?')?;
        if is_of_pazturrok(known) && !uses(world, PAZTURROK) {
            text.push(b' ')?;
            add_way_to_own(alloc, text, world, known)?;
        }
    }
    Ok(())
}

// The text of a part of a form, up to 80 bytes, with its symbols in their homes.
fn printed<M: Meaning>(
    alloc: Global,
    world: &mut World,
    macros: &M,
    part: &Datum,
) -> Result<Vec<u8>, AllocError>
    requires part { MayTry world.old.0.packages part.now }
    ensures same { world.new ≡ world.old }
{
    world.soundness();
    let form = quotation(alloc, part)?;
    print_after(alloc, world, macros, form, part)
}

// The text of a part after a form that has its symbols.
fn print_after<M: Meaning>(
    alloc: Global,
    world: &mut World,
    macros: &M,
    datum: Datum,
    part: &Datum,
) -> Result<Vec<u8>, AllocError>
    requires proper { is_proper datum ≡ true }
    requires fits { AllAtoms (FitsTable world.old.0.packages) (object_of datum) }
    requires part { is_proper part.now ≡ true }
    ensures same { world.new ≡ world.old }
{
    if !datum.is_proper() {
        return print_in(alloc, world, part);
    }
    if datum.depth() > MOST_LEVELS {
        return print_in(alloc, world, part);
    }
    let mark = world.mark_count();
    let form = ReadForm {
        datum,
        known: false,
    };
    match accept(alloc, world, macros, &form) {
        Ok(_) => {
            let text = print_in(alloc, world, part);
            world.back_to(mark);
            text
        }
        Err(EvaluationError::Refused(_)) => print_in(alloc, world, part),
        Err(EvaluationError::OutOfMemory) => Err(AllocError),
    }
}

// The text of a part as the world is, up to 80 bytes.
fn print_in(alloc: Global, world: &World, part: &Datum) -> Result<Vec<u8>, AllocError>
    requires part { is_proper part.now ≡ true }
{
    world.soundness();
    let text = print(alloc, part, world.packages(), world.current_package())?;
    told_of(alloc, text.as_slice(), uses(world, COMMON_LISP))
}
