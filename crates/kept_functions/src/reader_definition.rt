//! Macro functions that are kept in the world.
ghost use Rattle.std.specs.Prelude.{◌≡◌, IfSome, option_map, option_and_then, bytes_eq};
ghost use Rattle.lisp_object.specs.Datum.{object_of};
ghost use Rattle.lisp_operators.specs.EvaluationAnswers.{IsProper, AreProper, objects};
ghost use Rattle.lisp_operators.specs.ArgumentKinds.{a_keyword, a_character};
ghost use Rattle.kept_functions.specs.ReaderFunctions.{is_lisp_name, way_named, way_up_to, way_by_items, way_written, reader_function_of_items, reader_definition_of, reader_function_in};
ghost use Rattle.value_functions.specs.Sequences.{items_of};
ghost use Rattle.kept_functions.specs.KeptFunctions.{stored_reader, IsProperDefinition};

use crate::definition::{PAZTURROK, StoredDefinition, definition_in, proper_items};
use lisp_object::Datum;
use lisp_operators::kinds;
use package_table::standardized::KEYWORD;
use plist_state::{BorrowedSymbol, World};
use readtable_core::FnName;
use user_macros::Gather;

/// The name of the indicator of a macro function.
pub const READER_INDICATOR: &[u8] = b"READER-DEFINITION";

/// A macro function as it stands in the world: how it gathers, and what it does with what was gathered.
#[derive(Clone, Copy, Debug)]
pub struct StoredReader<'a> {
    pub way: Gather,
    pub definition: StoredDefinition<'a>,
}

/// Whether a macro function of the world may have this name. No program registers one of these. Such a name is one of a
/// macro function that begins with `LISP-`.
pub fn is_lisp_name(name: &[u8]) -> bool
    ensures { result ≡ is_lisp_name name.now }
{
    FnName::new(name).is_some() && name.starts_with(b"LISP-")
}

fn is_name(name: &[u8], wanted: &[u8]) -> bool
    ensures { result ≡ bytes_eq name.now wanted.now }
{
    name == wanted
}

// The name of a keyword.
#[tactic(auto, using(lisp_operators::proofs::Shapes::keyword_by_parts))]
fn keyword_name(datum: &Datum) -> Option<&[u8]>
    requires { IsProper datum.now }
    ensures { option_map (λ n. n.now) result ≡ a_keyword (object_of datum.now) }
{
    match kinds::symbol(datum) {
        Ok((home, name)) => {
            if is_name(home, KEYWORD) {
                return Some(name);
            }
            None
        }
        Err(_) => None,
    }
}

// The character that a datum is.
fn character_in(datum: &Datum) -> Option<u8>
    requires { IsProper datum.now }
    ensures { result ≡ a_character (object_of datum.now) }
{
    match datum {
        Datum::Char(character) => Some(*character),
        Datum::Integer(_) => None,
        Datum::Rational(_) => None,
        Datum::Text(_) => None,
        Datum::Symbol { .. } => None,
        Datum::Uninterned(_) => None,
        Datum::List { .. } => None,
        Datum::Vector(_) => None,
    }
}

fn way_named(name: &[u8]) -> Option<Gather>
    ensures { result ≡ way_named name.now }
{
    if is_name(name, b"NOTHING") {
        Some(Gather::Nothing)
    } else if is_name(name, b"NEXT") {
        Some(Gather::Next)
    } else if is_name(name, b"TEXT-SAME") {
        Some(Gather::TextSame)
    } else if is_name(name, b"LINE") {
        Some(Gather::Line)
    } else if is_name(name, b"TOKEN") {
        Some(Gather::Token)
    } else {
        None
    }
}

// The way of this name that ends at a character.
fn way_up_to(name: &[u8], character: u8) -> Option<Gather>
    ensures { result ≡ way_up_to name.now character }
{
    if is_name(name, b"UNTIL") {
        Some(Gather::Until(character))
    } else if is_name(name, b"TEXT") {
        Some(Gather::Text(character))
    } else {
        None
    }
}

// The way that a list of these items writes down.
fn way_by_items(items: &[Datum]) -> Option<Gather>
    requires { AreProper items.now }
    ensures { result ≡ way_by_items (objects items.now) }
{
    if items.len() != 2 {
        return None;
    }
    match character_in(&items[1]) {
        Some(character) => match keyword_name(&items[0]) {
            Some(name) => way_up_to(name, character),
            None => None,
        },
        None => None,
    }
}

// The way that the items of a datum, if it has any, write down.
fn way_of_items(datum: &Datum) -> Option<Gather>
    requires { IsProper datum.now }
    ensures { result ≡ option_and_then way_by_items (items_of (object_of datum.now)) }
{
    match proper_items(datum) {
        Some(items) => way_by_items(items),
        None => None,
    }
}

// The way that a datum writes down.
#[tactic(auto, using(crate::proofs::Readers::way_of_list))]
fn way_written(datum: &Datum) -> Option<Gather>
    requires { IsProper datum.now }
    ensures { result ≡ way_written (object_of datum.now) }
{
    match datum {
        Datum::Symbol { .. } => match keyword_name(datum) {
            Some(name) => way_named(name),
            None => None,
        },
        Datum::List { .. } => way_of_items(datum),
        Datum::Integer(_) => way_of_items(datum),
        Datum::Rational(_) => way_of_items(datum),
        Datum::Char(_) => way_of_items(datum),
        Datum::Text(_) => way_of_items(datum),
        Datum::Uninterned(_) => way_of_items(datum),
        Datum::Vector(_) => way_of_items(datum),
    }
}

/// The macro function that a list of these items is: a way, variables, and then forms.
pub fn reader_definition_in(items: &[Datum]) -> Option<StoredReader<'_>>
    requires { AreProper items.now }
    ensures value { option_map stored_reader result ≡ reader_function_of_items (objects items.now) }
    ensures proper { IfSome result (λ r. IsProperDefinition r.definition) }
{
    if items.is_empty() {
        return None;
    }
    match way_written(&items[0]) {
        Some(way) => match definition_in(&items[1..]) {
            Some(definition) => {
                if definition.variables.len() > 4 {
                    return None;
                }
                Some(StoredReader { way, definition })
            }
            None => None,
        },
        None => None,
    }
}

/// The macro function that a datum is.
pub fn reader_definition_of(datum: &Datum) -> Option<StoredReader<'_>>
    requires { IsProper datum.now }
    ensures value { option_map stored_reader result ≡ reader_definition_of (object_of datum.now) }
    ensures proper { IfSome result (λ r. IsProperDefinition r.definition) }
{
    match proper_items(datum) {
        Some(items) => reader_definition_in(items),
        None => None,
    }
}

/// The macro function of a name in the world.
pub fn reader_in<'a>(world: &'a World, name: &[u8]) -> Option<StoredReader<'a>>
    ensures value { option_map stored_reader result ≡ reader_function_in world.now.0 name.now }
    ensures proper { IfSome result (λ r. IsProperDefinition r.definition) }
{
    if !is_lisp_name(name) {
        return None;
    }
    let indicator = BorrowedSymbol {
        home: PAZTURROK,
        name: READER_INDICATOR,
    };
    let symbol = BorrowedSymbol {
        home: KEYWORD,
        name,
    };
    match world.get_at(symbol, indicator) {
        Some(definition) => reader_definition_of(definition),
        None => None,
    }
}
