//! Properties of a world.
//! Where memory runs out, a part of what is to be added may be there.
ghost use Rattle.std.specs.Prelude.{◌≡◌, ◌++◌, true, IfErr, IfOk, OnOk};
ghost use Rattle.std.specs.List.{flat_map};
ghost use Rattle.lisp_object.specs.Datum.{is_proper};
ghost use Rattle.plist_state.specs.Readers.{borrowed_symbols};
ghost use Rattle.plist_state.specs.Views.{property_of};
ghost use Rattle.store_reports.specs.ShownProperties.{asked_text, has_wanted, property_text, shown_list, shown_property, printed_in_user_package, ArePropertiesShown, GivesSome, ArePropertiesUnshown};
ghost use Rattle.store_reports.specs.declared.showing.ShowError.TheVariants as showing;

use crate::escaped::push_escaped;
use crate::homes::{AskedSymbol, shown_by_home};
use crate::json::push_string_member;
use crate::selection::{Layout, Selection};
use canon_printer::print;
use lisp_object::{Bytes, Datum};
use package_table::Packages;
use package_table::standardized::COMMON_LISP_USER;
use plist_state::{Property, PropertyList, World};
use std::alloc::{AllocError, Global};
use thiserror::Error;

/// Why no properties were shown.
#[derive(Clone, Copy, Debug, PartialEq, Eq, Error)]
pub enum ShowError {
    /// Memory was refused.
    #[error("out of memory")]
    OutOfMemory,
    /// There is no package of the name that is asked for.
    #[error("there is no package of this name (a name is given as the store has it, mostly in upper case)")]
    NoPackage,
    /// No symbol that is asked for is printed so, nor, where a package is asked for, has this name.
    #[error("there is no such symbol (a symbol is given as it is printed, with its package, as SHOP::APPLE, or by its name with --package; mostly in upper case)")]
    NoSymbol,
    /// No property that is asked for has an indicator of this name.
    #[error("no property has an indicator of this name (a name is given without its package, mostly in upper case)")]
    NoIndicator,
}

impl From<AllocError> for ShowError {
    ghost from_gives = { λ _ e. e ≡ showing.OutOfMemory };

    fn from(_error: AllocError) -> ShowError {
        ShowError::OutOfMemory
    }
}

/// Those properties of a world that are asked for, in the order of the world: of the symbols by their homes and names, and of each in
/// the order of its list. Where a symbol is asked for, its home comes first.
///
/// # Errors
///
/// `NoPackage` where a package is asked for that there is not; `NoSymbol` where a symbol is; `NoIndicator` where an indicator is asked for
/// that none of the properties has. Out of memory.
pub fn show(alloc: Global, world: &World, selection: &Selection<'_>) -> Result<Vec<u8>, ShowError>
    ensures shown { IfOk result (λ text. ArePropertiesShown selection.now world.now.0 text.items) }
    ensures refused { IfErr result (ArePropertiesUnshown selection.now world.now.0) }
{
    if !has_wanted(world, selection) {
        return Err(ShowError::NoPackage);
    }
    let text = asked_text(alloc, world, selection)?;
    if selection.symbol.is_some() {
        return some_text(text, ShowError::NoSymbol);
    }
    if selection.indicator.is_some() {
        return some_text(text, ShowError::NoIndicator);
    }
    Ok(text)
}

// A text of something, or this refusal.
fn some_text(text: Vec<u8>, none: ShowError) -> Result<Vec<u8>, ShowError>
    ensures { GivesSome none text.items result }
{
    if text.is_empty() {
        return Err(none);
    }
    Ok(text)
}

// The symbol that is asked for, or the properties.
#[tactic(auto, unfolding(crate::specs::ShownProperties::shown_text))]
fn asked_text(
    alloc: Global,
    world: &World,
    selection: &Selection<'_>,
) -> Result<Vec<u8>, AllocError>
    ensures { IfOk result (λ text. text.items ≡ asked_text selection.now world.now.0) }
{
    match selection.symbol {
        Some(symbol) => shown_by_home(alloc, world, &AskedSymbol { selection, symbol }),
        None => {
            let mut text = Vec::new(alloc);
            let symbols = world.owners(alloc)?;
            push_lists(alloc, &mut text, world, selection, symbols.as_slice())?;
            Ok(text)
        }
    }
}

/// Whether the package that is asked for is there, if one is.
pub(crate) fn has_wanted(world: &World, selection: &Selection<'_>) -> bool
    ensures { result ≡ has_wanted selection.now world.now.0 }
{
    match selection.package {
        Some(package) => world.packages().has_package(package),
        None => true,
    }
}

// Adds those properties of these symbols that are asked for.
fn push_lists(
    alloc: Global,
    text: &mut Vec<u8>,
    world: &World,
    selection: &Selection<'_>,
    symbols: &[(&[u8], &[u8])],
) -> Result<(), AllocError>
    ensures { OnOk result (text.new.items
        ≡ text.old.items ++ flat_map (shown_list selection.now world.now.0) (borrowed_symbols symbols.now)) }
{
    for symbol in symbols {
        let (home, name) = *symbol;
        push_list(alloc, text, world, selection, home, name)?;
    }
    Ok(())
}

/// Adds those properties of a symbol that are asked for. After an error, want of memory alone, a part may be added.
#[tactic(auto, unfolding(crate::specs::ShownProperties::shown_list))]
pub(crate) fn push_list(
    alloc: Global,
    text: &mut Vec<u8>,
    world: &World,
    selection: &Selection<'_>,
    home: &[u8],
    name: &[u8],
) -> Result<(), AllocError>
    ensures { OnOk result (text.new.items
        ≡ text.old.items ++ shown_list selection.now world.now.0 (home.now, name.now)) }
{
    if !selection.takes_symbol(home, name) {
        return Ok(());
    }
    let symbol = symbol_text(alloc, world.packages(), home, name)?;
    let properties = world.plist_of(home, name);
    push_properties(
        alloc,
        text,
        world.packages(),
        selection,
        symbol.as_slice(),
        &properties,
    )
}

// Adds those of these properties that are asked for, of the symbol of this text.
fn push_properties(
    alloc: Global,
    text: &mut Vec<u8>,
    packages: &Packages,
    selection: &Selection<'_>,
    symbol: &[u8],
    properties: &PropertyList<'_>,
) -> Result<(), AllocError>
    ensures { OnOk result (text.new.items ≡ text.old.items
        ++ flat_map (shown_property selection.now packages.now.0 symbol.now) properties.now) }
{
    for index in 0..properties.len() {
        let property = properties.at(index);
        push_wanted(alloc, text, packages, selection, symbol, &property)?;
    }
    Ok(())
}

// Adds a property of the symbol of this text, if it is asked for.
#[tactic(auto, unfolding(crate::specs::ShownProperties::shown_property))]
fn push_wanted(
    alloc: Global,
    text: &mut Vec<u8>,
    packages: &Packages,
    selection: &Selection<'_>,
    symbol: &[u8],
    property: &Property<'_>,
) -> Result<(), AllocError>
    requires { is_proper property.now.value.now ≡ true }
    ensures { OnOk result (text.new.items ≡ text.old.items
        ++ shown_property selection.now packages.now.0 symbol.now (property_of property.now)) }
{
    if !selection.takes_indicator(property.name) {
        return Ok(());
    }
    packages.soundness();
    let indicator = symbol_text(alloc, packages, property.home, property.name)?;
    let value = print(alloc, property.value, packages, COMMON_LISP_USER)?;
    push_property(
        text,
        selection.layout,
        symbol,
        indicator.as_slice(),
        value.as_slice(),
    )
}

// Adds a property, by the texts of its symbol, its indicator and its value.
fn push_property(
    text: &mut Vec<u8>,
    layout: Layout,
    symbol: &[u8],
    indicator: &[u8],
    value: &[u8],
) -> Result<(), AllocError>
    ensures { OnOk result (text.new.items
        ≡ text.old.items ++ property_text layout symbol.now indicator.now value.now) }
{
    match layout {
        Layout::Lines => push_line(text, symbol, indicator, value),
        Layout::Forms => push_form(text, symbol, indicator, value),
        Layout::Json => push_object(text, symbol, indicator, value),
    }
}

#[tactic(auto, unfolding(crate::specs::ShownProperties::property_text))]
fn push_object(
    text: &mut Vec<u8>,
    symbol: &[u8],
    indicator: &[u8],
    value: &[u8],
) -> Result<(), AllocError>
    ensures { OnOk result (text.new.items
        ≡ text.old.items ++ property_text Layout.Json symbol.now indicator.now value.now) }
{
    text.push(b'{')?;
    push_string_member(text, b"symbol", symbol)?;
    text.push(b',')?;
    push_string_member(text, b"indicator", indicator)?;
    text.push(b',')?;
    push_string_member(text, b"value", value)?;
    text.extend_from_slice(b"}\n")?;
    Ok(())
}

#[tactic(auto, unfolding(crate::specs::ShownProperties::property_text))]
fn push_line(
    text: &mut Vec<u8>,
    symbol: &[u8],
    indicator: &[u8],
    value: &[u8],
) -> Result<(), AllocError>
    ensures { OnOk result (text.new.items
        ≡ text.old.items ++ property_text Layout.Lines symbol.now indicator.now value.now) }
{
    push_escaped(text, symbol)?;
    text.push(b' ')?;
    push_escaped(text, indicator)?;
    text.push(b' ')?;
    push_escaped(text, value)?;
    text.push(b'\n')?;
    Ok(())
}

#[tactic(auto, unfolding(crate::specs::ShownProperties::property_text))]
fn push_form(
    text: &mut Vec<u8>,
    symbol: &[u8],
    indicator: &[u8],
    value: &[u8],
) -> Result<(), AllocError>
    ensures { OnOk result (text.new.items
        ≡ text.old.items ++ property_text Layout.Forms symbol.now indicator.now value.now) }
{
    text.extend_from_slice(b"(SETF (GET '")?;
    text.extend_from_slice(symbol)?;
    text.extend_from_slice(b" '")?;
    text.extend_from_slice(indicator)?;
    text.extend_from_slice(b") '")?;
    text.extend_from_slice(value)?;
    text.extend_from_slice(b")\n")?;
    Ok(())
}

/// The text of a symbol in COMMON-LISP-USER. The names of a world are bytes below 128; of others nothing is written. It
/// fails only for want of memory.
#[tactic(auto, unfolding(crate::specs::ShownProperties::printed_in_user_package))]
pub(crate) fn symbol_text(
    alloc: Global,
    packages: &Packages,
    home: &[u8],
    name: &[u8],
) -> Result<Vec<u8>, AllocError>
    ensures { IfOk result (λ text. text.items ≡ printed_in_user_package packages.now.0 (home.now, name.now)) }
{
    packages.soundness();
    let package = Bytes::from_slice(alloc, home)?;
    let name = Bytes::from_slice(alloc, name)?;
    if package.is_ascii() && name.is_ascii() {
        let symbol = Datum::Symbol { package, name };
        return print(alloc, &symbol, packages, COMMON_LISP_USER);
    }
    Ok(Vec::new(alloc))
}
