// A symbol that is asked for by its text.
// Where memory runs out, a part of what is to be added may be there.
ghost use Rattle.std.specs.List.{flat_map};
ghost use Rattle.std.specs.Prelude.{◌≡◌, ◌++◌, [], ◌∷◌, IfOk, OnOk};
ghost use Rattle.package_table.specs.Readers.{names_of};
ghost use Rattle.store_reports.specs.EscapedText.{shown_for_terminal};
ghost use Rattle.store_reports.specs.ShownProperties.{home_text, is_asked, shown_by_home, shown_home, shown_homes};

use crate::escaped::push_escaped;
use crate::json::push_string_member;
use crate::selection::{Layout, Selection};
use crate::showing::{push_list, symbol_text};
use plist_state::World;
use std::alloc::{AllocError, Global};

/// A symbol that is asked for, as it is printed in COMMON-LISP-USER, or, among those of a package, by its name.
#[derive(Clone, Copy)]
pub(crate) struct AskedSymbol<'a> {
    pub(crate) selection: &'a Selection<'a>,
    pub(crate) symbol: &'a [u8],
}

impl AskedSymbol<'_> {
    /// Whether it is one of this name that is printed so.
    pub(crate) fn is_for(&self, printed: &[u8], name: &[u8]) -> bool
        ensures { result ≡ is_asked self.now.selection.now self.now.symbol.now printed.now name.now }
    {
        printed == self.symbol || (self.selection.package.is_some() && name == self.symbol)
    }
}

/// The symbol that is asked for: its home, and its properties. It fails only for want of memory.
#[tactic(auto, unfolding(crate::specs::ShownProperties::shown_by_home))]
pub(crate) fn shown_by_home(
    alloc: Global,
    world: &World,
    asked: &AskedSymbol<'_>,
) -> Result<Vec<u8>, AllocError>
    ensures { IfOk result (λ text. text.items
        ≡ shown_by_home asked.now.selection.now world.now.0 asked.now.symbol.now) }
{
    let mut text = Vec::new(alloc);
    let homes = world.packages().package_names(alloc)?;
    push_homes(alloc, &mut text, world, asked, homes.as_slice())?;
    Ok(text)
}

// Adds it, if it is at home in one of these packages.
fn push_homes(
    alloc: Global,
    text: &mut Vec<u8>,
    world: &World,
    asked: &AskedSymbol<'_>,
    homes: &[&[u8]],
) -> Result<(), AllocError>
    ensures { OnOk result (text.new.items ≡ text.old.items
        ++ flat_map (shown_homes asked.now.selection.now world.now.0 asked.now.symbol.now) (names_of homes.now)) }
{
    for home in homes {
        push_names(alloc, text, world, asked, home)?;
    }
    Ok(())
}

// Adds it, if it is at home in this package.
#[tactic(auto, unfolding(crate::specs::ShownProperties::shown_homes))]
fn push_names(
    alloc: Global,
    text: &mut Vec<u8>,
    world: &World,
    asked: &AskedSymbol<'_>,
    home: &[u8],
) -> Result<(), AllocError>
    ensures { OnOk result (text.new.items ≡ text.old.items
        ++ shown_homes asked.now.selection.now world.now.0 asked.now.symbol.now home.now) }
{
    let Ok(names) = world.packages().own_names(alloc, home) else {
        return Err(AllocError);
    };
    push_named(alloc, text, world, asked, home, names.as_slice())
}

// Adds it, if it has one of these names there.
fn push_named(
    alloc: Global,
    text: &mut Vec<u8>,
    world: &World,
    asked: &AskedSymbol<'_>,
    home: &[u8],
    names: &[&[u8]],
) -> Result<(), AllocError>
    ensures { OnOk result (text.new.items ≡ text.old.items
        ++ flat_map (λ name. shown_home asked.now.selection.now world.now.0 asked.now.symbol.now (home.now, name))
        (names_of names.now)) }
{
    for name in names {
        push_symbol(alloc, text, world, asked, home, name)?;
    }
    Ok(())
}

// Adds the symbol of this home and this name, if it is the one that is asked for.
#[tactic(auto, unfolding(crate::specs::ShownProperties::shown_home))]
fn push_symbol(
    alloc: Global,
    text: &mut Vec<u8>,
    world: &World,
    asked: &AskedSymbol<'_>,
    home: &[u8],
    name: &[u8],
) -> Result<(), AllocError>
    ensures { OnOk result (text.new.items ≡ text.old.items
        ++ shown_home asked.now.selection.now world.now.0 asked.now.symbol.now (home.now, name.now)) }
{
    if !asked.selection.takes_symbol(home, name) {
        return Ok(());
    }
    let symbol = symbol_text(alloc, world.packages(), home, name)?;
    if !asked.is_for(symbol.as_slice(), name) {
        return Ok(());
    }
    push_home(text, asked.selection.layout, symbol.as_slice(), home)?;
    push_list(alloc, text, world, asked.selection, home, name)
}

// Adds the home of the symbol of this text.
#[tactic(auto, unfolding(crate::specs::ShownProperties::home_text))]
fn push_home(
    text: &mut Vec<u8>,
    layout: Layout,
    symbol: &[u8],
    home: &[u8],
) -> Result<(), AllocError>
    ensures { OnOk result (text.new.items ≡ text.old.items ++ home_text layout symbol.now home.now) }
{
    match layout {
        Layout::Lines => push_line(text, b"home ", home),
        Layout::Forms => push_line(text, b"; home ", home),
        Layout::Json => push_object(text, symbol, home),
    }
}

fn push_line(text: &mut Vec<u8>, front: &[u8], home: &[u8]) -> Result<(), AllocError>
    ensures { OnOk result (text.new.items
        ≡ text.old.items ++ (front.now ++ shown_for_terminal home.now ++ 10 ∷ [])) }
{
    text.extend_from_slice(front)?;
    push_escaped(text, home)?;
    text.push(b'\n')?;
    Ok(())
}

#[tactic(auto, unfolding(crate::specs::ShownProperties::home_text))]
fn push_object(text: &mut Vec<u8>, symbol: &[u8], home: &[u8]) -> Result<(), AllocError>
    ensures { OnOk result (text.new.items ≡ text.old.items ++ home_text Layout.Json symbol.now home.now) }
{
    text.push(b'{')?;
    push_string_member(text, b"symbol", symbol)?;
    text.push(b',')?;
    push_string_member(text, b"home", home)?;
    text.extend_from_slice(b"}\n")?;
    Ok(())
}
