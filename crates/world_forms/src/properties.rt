//! The forms that make the properties.
//! After an error, want of memory alone, a part may be added.
ghost use Rattle.std.specs.Prelude.{◌≡◌, ◌++◌, true, codes, IfOk, OnOk};
ghost use Rattle.std.specs.List.{flat_map};
ghost use Rattle.lisp_object.specs.Datum.{object_of, is_proper};
ghost use Rattle.readtable_core.specs.Tables.{standard};
ghost use Rattle.lisp_reading.specs.Reading.{ReadingResult, reads};
ghost use Rattle.form_reader.specs.Reader.{IsOutcome};
ghost use Rattle.plist_state.specs.Readers.{borrowed_symbol, borrowed_symbols};
ghost use Rattle.plist_state.specs.Views.{property_of};
ghost use Rattle.canon_printer.specs.Written.{AddsText};
ghost use Rattle.world_forms.specs.NameTokens.{world_form_line, symbol_text, quoted_text, told_text};
ghost use Rattle.world_forms.specs.Properties.{form_setting, ends_at, property_form, property_line, left_out_line, plist_lines, plist_left_out, property_lines, left_out_lines};

use crate::texts::{push_symbol, push_told, push_value};
use canon_printer::print;
use form_reader::{Limits, ReadOutcome, read_one};
use package_table::Packages;
use package_table::standardized::COMMON_LISP_USER;
use plist_state::{Property, PropertyList, World};
use readtable_core::Readtable;
use std::alloc::{AllocError, Global};
use user_macros::{Macros, NoFunctions};

/// Adds what evaluates to a symbol: its token after a quote.
fn push_quoted(text: &mut Vec<u8>, home: &[u8], name: &[u8]) -> Result<(), AllocError>
    ensures { OnOk result (AddsText text.old text.new (quoted_text home.now name.now)) }
{
    push_value(text, b"'", b"", home, name)
}

/// The form that sets a property.
#[tactic(auto, unfolding(crate::specs::Properties::property_form))]
fn form_of(
    alloc: Global,
    packages: &Packages,
    home: &[u8],
    name: &[u8],
    property: &Property<'_>,
) -> Result<Vec<u8>, AllocError>
    requires { is_proper property.now.value.now ≡ true }
    ensures { IfOk result (λ form. form.items
        ≡ property_form packages.now.0 (home.now, name.now) (property_of property.now)) }
{
    packages.soundness();
    let mut form = Vec::new(alloc);
    form.extend_from_slice(b"(SETF (GET ")?;
    push_quoted(&mut form, home, name)?;
    form.push(b' ')?;
    push_quoted(&mut form, property.home, property.name)?;
    form.extend_from_slice(b") '")?;
    let value = print(alloc, property.value, packages, COMMON_LISP_USER)?;
    form.extend_from_slice(value.as_slice())?;
    form.push(b')')?;
    Ok(form)
}

/// What a text begins with, read as the forms are.
#[tactic(auto, using(crate::proofs::Settings::read_so))]
fn read_form(
    alloc: Global,
    readtable: &Readtable,
    packages: &Packages,
    text: &[u8],
) -> Result<ReadOutcome, AllocError>
    requires { readtable.now ≡ standard }
    ensures { IfOk result (λ read. IsOutcome read (reads (form_setting packages.now.0) text.now)) }
{
    packages.soundness();
    let macros = Macros::new(alloc, NoFunctions);
    let read = read_one(
        alloc,
        Limits::form(),
        readtable,
        10,
        packages,
        COMMON_LISP_USER,
        &macros,
        text,
    )?;
    Ok(read)
}

/// Whether it is a form that ends at this place.
fn ends_at(read: &ReadOutcome, len: usize) -> bool
    ensures { (outcome : ReadingResult) → IsOutcome read.now outcome → result ≡ ends_at outcome len }
{
    match read {
        ReadOutcome::Form { end, .. } => *end == len,
        ReadOutcome::Empty | ReadOutcome::Refused { .. } => false,
    }
}

/// Whether a line is read as one form that ends at this place. What is too long or too deep for a form is not.
fn is_form(
    alloc: Global,
    readtable: &Readtable,
    packages: &Packages,
    line: &[u8],
    end: usize,
) -> Result<bool, AllocError>
    requires { readtable.now ≡ standard }
    ensures { IfOk result (λ is. is ≡ ends_at (reads (form_setting packages.now.0) line.now) end) }
{
    let read = read_form(alloc, readtable, packages, line)?;
    Ok(ends_at(&read, end))
}

/// A symbol and an indicator of it.
fn names_of(
    alloc: Global,
    home: &[u8],
    name: &[u8],
    property: &Property<'_>,
) -> Result<Vec<u8>, AllocError>
    ensures { IfOk result (λ names. names.items ≡ symbol_text home.now name.now
        ++ codes " " ++ symbol_text property.now.home.now property.now.name.now) }
{
    let mut names = Vec::new(alloc);
    push_symbol(&mut names, home, name)?;
    names.push(b' ')?;
    push_symbol(&mut names, property.home, property.name)?;
    Ok(names)
}

/// Adds the line of a property that no form can set, for a terminal: the symbol and its indicator.
fn push_names(
    left_out: &mut Vec<u8>,
    home: &[u8],
    name: &[u8],
    property: &Property<'_>,
) -> Result<(), AllocError>
    ensures { OnOk result
        (AddsText left_out.old left_out.new (world_form_line (told_text (symbol_text home.now name.now
        ++ codes " " ++ symbol_text property.now.home.now property.now.name.now)))) }
{
    let names = names_of(*left_out.allocator(), home, name, property)?;
    push_told(left_out, names.as_slice())?;
    left_out.push(b'\n')?;
    Ok(())
}

/// Adds the form that sets a property of a symbol, or the line of one that no form can set to `left_out`.
#[tactic(auto, unfolding(crate::specs::Properties::is_form, crate::specs::Properties::property_line, crate::specs::Properties::left_out_line))]
fn push_property(
    alloc: Global,
    text: &mut Vec<u8>,
    left_out: &mut Vec<u8>,
    packages: &Packages,
    readtable: &Readtable,
    symbol: &(&[u8], &[u8]),
    property: &Property<'_>,
) -> Result<(), AllocError>
    requires proper { is_proper property.now.value.now ≡ true }
    requires readtable { readtable.now ≡ standard }
    ensures text { OnOk result (AddsText text.old text.new
        (property_line packages.now.0 (borrowed_symbol symbol.now) (property_of property.now))) }
    ensures left_out { OnOk result (AddsText left_out.old left_out.new
        (left_out_line packages.now.0 (borrowed_symbol symbol.now) (property_of property.now))) }
{
    let (home, name) = symbol;
    let mut form = form_of(alloc, packages, home, name, property)?;
    let end = form.len();
    form.push(b'\n')?;
    if is_form(alloc, readtable, packages, form.as_slice(), end)? {
        text.extend_from_slice(form.as_slice())?;
        return Ok(());
    }
    push_names(left_out, home, name, property)
}

/// Adds those of a symbol, in the order of its list.
fn push_listed(
    alloc: Global,
    text: &mut Vec<u8>,
    left_out: &mut Vec<u8>,
    packages: &Packages,
    readtable: &Readtable,
    symbol: &(&[u8], &[u8]),
    properties: &PropertyList<'_>,
) -> Result<(), AllocError>
    requires { readtable.now ≡ standard }
    ensures text { OnOk result (AddsText text.old text.new
        (flat_map (property_line packages.now.0 (borrowed_symbol symbol.now)) properties.now)) }
    ensures left_out { OnOk result (AddsText left_out.old left_out.new
        (flat_map (left_out_line packages.now.0 (borrowed_symbol symbol.now)) properties.now)) }
{
    for index in 0..properties.len() {
        let property = properties.at(index);
        push_property(
            alloc, text, left_out, packages, readtable, symbol, &property,
        )?;
    }
    Ok(())
}

/// Adds the forms that set the properties of a symbol; those that no form can set go to `left_out`, a line each.
#[tactic(auto, unfolding(crate::specs::Properties::plist_lines, crate::specs::Properties::plist_left_out))]
fn push_plist(
    alloc: Global,
    text: &mut Vec<u8>,
    left_out: &mut Vec<u8>,
    world: &World,
    readtable: &Readtable,
    symbol: &(&[u8], &[u8]),
) -> Result<(), AllocError>
    requires { readtable.now ≡ standard }
    ensures text { OnOk result (AddsText text.old text.new
        (plist_lines world.now.0 (borrowed_symbol symbol.now))) }
    ensures left_out { OnOk result (AddsText left_out.old left_out.new
        (plist_left_out world.now.0 (borrowed_symbol symbol.now))) }
{
    let (home, name) = symbol;
    let properties = world.plist_of(home, name);
    push_listed(
        alloc,
        text,
        left_out,
        world.packages(),
        readtable,
        symbol,
        &properties,
    )
}

fn push_plists(
    alloc: Global,
    text: &mut Vec<u8>,
    left_out: &mut Vec<u8>,
    world: &World,
    readtable: &Readtable,
    symbols: &[(&[u8], &[u8])],
) -> Result<(), AllocError>
    requires { readtable.now ≡ standard }
    ensures text { OnOk result (AddsText text.old text.new
        (flat_map (plist_lines world.now.0) (borrowed_symbols symbols.now))) }
    ensures left_out { OnOk result (AddsText left_out.old left_out.new
        (flat_map (plist_left_out world.now.0) (borrowed_symbols symbols.now))) }
{
    for symbol in symbols {
        push_plist(alloc, text, left_out, world, readtable, symbol)?;
    }
    Ok(())
}

/// Adds the forms that set the properties of a world. After an error, want of memory alone, a part may be added.
#[tactic(auto, unfolding(crate::specs::Properties::property_lines, crate::specs::Properties::left_out_lines))]
pub(crate) fn push_properties(
    alloc: Global,
    text: &mut Vec<u8>,
    left_out: &mut Vec<u8>,
    world: &World,
) -> Result<(), AllocError>
    ensures text { OnOk result (AddsText text.old text.new (property_lines world.now.0)) }
    ensures left_out { OnOk result (AddsText left_out.old left_out.new (left_out_lines world.now.0)) }
{
    let readtable = Readtable::standard(alloc)?;
    let symbols = world.owners(alloc)?;
    push_plists(alloc, text, left_out, world, &readtable, symbols.as_slice())
}
