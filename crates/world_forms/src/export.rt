//! All forms of a world.
//! After an error, want of memory alone, a part may be added.
ghost use Rattle.std.specs.Prelude.{◌≡◌, [], decimal, option_map, IfOk, OnOk};
ghost use Rattle.std.specs.Option.{option_map_or};
ghost use Rattle.canon_printer.specs.Written.{AddsText};
ghost use Rattle.world_forms.specs.Forms.{package_form, base_form, readtable_form, reading_forms, current_form, forms, last_newline, newline_in};
ghost use Rattle.world_forms.specs.Properties.{left_out_lines};

use crate::packages::push_packages;
use crate::properties::push_properties;
use crate::readtables::push_readtables;
use crate::texts::{push_text, push_value};
use package_table::standardized::KEYWORD;
use plist_state::World;
use readtable_core::{Readtable, Syntax};
use session_words::Content;
use std::alloc::{AllocError, Global};

/// The forms of a world.
#[derive(Drop)]
pub struct Export {
    /// The forms, with a newline after each. After the last, where it is read under the readtable of the world, only if that
    /// discards it.
    pub forms: Vec<u8>,
    /// The properties that no form can set, since a form has limits: a line each, of the symbol and its indicator.
    pub left_out: Vec<u8>,
}

/// The forms that make a world, and the properties that no form can set.
///
/// # Errors
/// Out of memory.
pub fn all_forms(alloc: Global, world: &World, content: Content) -> Result<Export, AllocError>
    ensures forms { IfOk result (λ exported. exported.forms.items ≡ forms world.now.0 content) }
    ensures left_out { IfOk result (λ exported. exported.left_out.items ≡ left_out_lines world.now.0) }
{
    match content {
        Content::World => world_forms(alloc, world),
        Content::Data => data_forms(alloc, world),
    }
}

/// The forms of all of a world.
#[tactic(auto, unfolding(crate::specs::Forms::forms))]
fn world_forms(alloc: Global, world: &World) -> Result<Export, AllocError>
    ensures forms { IfOk result
        (λ exported. exported.forms.items ≡ forms world.now.0 Content.World) }
    ensures left_out { IfOk result (λ exported. exported.left_out.items ≡ left_out_lines world.now.0) }
{
    let mut forms = Vec::new(alloc);
    let mut left_out = Vec::new(alloc);
    // so that no form is read under a readtable that an earlier one has changed
    forms.extend_from_slice(b"(IN-READTABLE :STANDARD)\n")?;
    push_packages(alloc, &mut forms, world.packages())?;
    push_properties(alloc, &mut forms, &mut left_out, world)?;
    push_readtables(alloc, &mut forms, world)?;
    push_current(&mut forms, world, Content::World)?;
    push_last_newline(&mut forms, world, Content::World)?;
    Ok(Export { forms, left_out })
}

/// Those of its packages and properties.
#[tactic(auto, unfolding(crate::specs::Forms::forms))]
fn data_forms(alloc: Global, world: &World) -> Result<Export, AllocError>
    ensures forms { IfOk result
        (λ exported. exported.forms.items ≡ forms world.now.0 Content.Data) }
    ensures left_out { IfOk result (λ exported. exported.left_out.items ≡ left_out_lines world.now.0) }
{
    let mut forms = Vec::new(alloc);
    let mut left_out = Vec::new(alloc);
    push_packages(alloc, &mut forms, world.packages())?;
    push_properties(alloc, &mut forms, &mut left_out, world)?;
    push_current(&mut forms, world, Content::Data)?;
    push_last_newline(&mut forms, world, Content::Data)?;
    Ok(Export { forms, left_out })
}

/// One form that makes the package, and with the readtables the read base and the readtable, of a world current: the next one would
/// be read under them.
#[tactic(auto, unfolding(crate::specs::Forms::current_form))]
fn push_current(forms: &mut Vec<u8>, world: &World, content: Content) -> Result<(), AllocError>
    ensures { OnOk result (AddsText forms.old forms.new (current_form world.now.0 content)) }
{
    forms.extend_from_slice(b"(PROGN ")?;
    push_package(forms, world)?;
    push_reading(forms, world, content)?;
    forms.extend_from_slice(b")")
}

/// Ends the last line. What makes the readtable of the world current is read by then, so a newline that it does not discard would be
/// read as a form.
#[tactic(auto, unfolding(crate::specs::Forms::last_newline))]
fn push_last_newline(forms: &mut Vec<u8>, world: &World, content: Content) -> Result<(), AllocError>
    ensures { OnOk result (AddsText forms.old forms.new (last_newline world.now.0 content)) }
{
    match content {
        Content::World => push_newline_in(forms, world.readtable(world.current_readtable())),
        Content::Data => {
            forms.push(b'\n')?;
            Ok(())
        }
    }
}

/// Adds a newline, if this readtable discards it.
fn push_newline_in(forms: &mut Vec<u8>, readtable: Option<&Readtable>) -> Result<(), AllocError>
    ensures { OnOk result (AddsText forms.old forms.new
        (option_map_or newline_in (option_map (λ table. table.now) readtable.entry) [])) }
{
    match readtable {
        Some(readtable) if readtable.syntax(b'\n') == Syntax::Whitespace => {
            forms.push(b'\n')?;
            Ok(())
        }
        _ => Ok(()),
    }
}

/// What makes the package of a world current.
#[tactic(auto, unfolding(crate::specs::Forms::package_form))]
fn push_package(forms: &mut Vec<u8>, world: &World) -> Result<(), AllocError>
    ensures { OnOk result (AddsText forms.old forms.new (package_form world.now.0)) }
{
    forms.extend_from_slice(b"(IN-PACKAGE ")?;
    push_text(forms, world.current_package())?;
    forms.extend_from_slice(b")")
}

/// What makes its read base and its readtable current, if the readtables are exported.
#[tactic(auto, unfolding(crate::specs::Forms::reading_forms))]
fn push_reading(forms: &mut Vec<u8>, world: &World, content: Content) -> Result<(), AllocError>
    ensures { OnOk result (AddsText forms.old forms.new (reading_forms world.now.0 content)) }
{
    match content {
        Content::World => {
            forms.push(b' ')?;
            push_base(forms, world)?;
            forms.push(b' ')?;
            push_readtable(forms, world)
        }
        Content::Data => Ok(()),
    }
}

/// What makes its read base current.
fn push_base(forms: &mut Vec<u8>, world: &World) -> Result<(), AllocError>
    ensures { OnOk result (AddsText forms.old forms.new (base_form world.now.0)) }
{
    forms.extend_from_slice(b"(SETF *READ-BASE* ")?;
    push_decimal(forms, world.read_base())?;
    forms.extend_from_slice(b")")?;
    Ok(())
}

/// What makes its readtable current.
fn push_readtable(forms: &mut Vec<u8>, world: &World) -> Result<(), AllocError>
    ensures { OnOk result (AddsText forms.old forms.new (readtable_form world.now.0)) }
{
    forms.extend_from_slice(b"(IN-READTABLE ")?;
    push_value(forms, b"", b"", KEYWORD, world.current_readtable())?;
    forms.extend_from_slice(b")")?;
    Ok(())
}

/// Adds a number.
fn push_decimal(forms: &mut Vec<u8>, number: u8) -> Result<(), AllocError>
    ensures { OnOk result (AddsText forms.old forms.new (decimal number)) }
{
    let digits = number.to_string(*forms.allocator())?;
    forms.extend_from_slice(digits.as_bytes())
}
