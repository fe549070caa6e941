//! Functions that are kept in the world: a definition is the value of a property.
ghost use Rattle.std.specs.Prelude.{◌≡◌, true, false, not, None, All, IfSome, option_map, is_some, bytes_eq};
ghost use Rattle.std.specs.List.{list_any};
ghost use Rattle.std.specs.Option.{IsSome};
ghost use Rattle.lisp_object.specs.Datum.{object_of};
ghost use Rattle.lisp_operators.specs.EvaluationAnswers.{IsProper, AreProper, objects};
ghost use Rattle.lisp_operators.specs.Members.{symbol_of_member, symbols_in, each_in};
ghost use Rattle.value_functions.specs.Sequences.{items_of};
ghost use Rattle.kept_functions.specs.Environments.{a_variable, are_distinct, is_global, is_same_variable, variables_of};
ghost use Rattle.kept_functions.specs.Definitions.{definition_among, definition_of, function_in, is_undefinable};
ghost use Rattle.kept_functions.specs.KeptFunctions.{stored_definition, IsProperDefinition};

use lisp_object::Datum;
use lisp_operators::kinds;
use package_table::standardized::{COMMON_LISP, KEYWORD};
use plist_state::{BorrowedSymbol, World};

/// The package of the operators that COMMON-LISP does not have.
pub const PAZTURROK: &[u8] = b"PAZTURROK";

/// The name of the indicator of a function.
pub const FUNCTION_INDICATOR: &[u8] = b"DEFINITION";

/// A function as it stands in the world: its variables, and the forms of its body.
#[derive(Clone, Copy, Debug)]
pub struct StoredDefinition<'a> {
    pub variables: &'a [Datum],
    pub body: &'a [Datum],
}

/// The items of a list that ends in NIL; nothing of any other object.
pub fn proper_items(datum: &Datum) -> Option<&[Datum]>
    requires { IsProper datum.now }
    ensures value { option_map (λ xs. objects xs.now) result ≡ items_of (object_of datum.now) }
    ensures proper { IfSome result (λ xs. AreProper xs.now) }
{
    match datum {
        Datum::List { items, tail } => match tail {
            Some(_) => None,
            None => Some(items.as_slice()),
        },
        Datum::Symbol { .. } => { if datum.is_nil() { Some(&[]) } else { None } }
        Datum::Uninterned(_) => None,
        Datum::Text(_) => None,
        Datum::Vector(_) => None,
        Datum::Integer(_) => None,
        Datum::Rational(_) => None,
        Datum::Char(_) => None,
    }
}

fn is_name(name: &[u8], wanted: &[u8]) -> bool
    ensures { result ≡ bytes_eq name.now wanted.now }
{
    name == wanted
}

// Whether no form binds this symbol: it is a constant or a variable of the language.
fn is_global(home: &[u8], name: &[u8]) -> bool
    ensures { result ≡ is_global (home.now, name.now) }
{
    if is_name(home, KEYWORD) {
        return true;
    }
    if !is_name(home, COMMON_LISP) {
        return false;
    }
    is_name(name, b"T")
        || is_name(name, b"NIL")
        || is_name(name, b"*PACKAGE*")
        || is_name(name, b"*READTABLE*")
        || is_name(name, b"*READ-BASE*")
}

/// Whether a form may bind it: an interned symbol that is no constant and no variable of the language.
#[tactic(auto, using(crate::proofs::Variables::variable_by_parts))]
pub fn is_variable(datum: &Datum) -> bool
    requires { IsProper datum.now }
    ensures { result ≡ is_some (a_variable (object_of datum.now)) }
{
    match kinds::symbol(datum) {
        Ok((home, name)) => !is_global(home, name),
        Err(_) => false,
    }
}

/// The home and the name of a datum that is a symbol.
pub fn symbol_in(datum: &Datum) -> (&[u8], &[u8])
    requires { IsProper datum.now }
    ensures { (result.0.now, result.1.now) ≡ symbol_of_member datum.now }
{
    match kinds::symbol(datum) {
        Ok(symbol) => symbol,
        Err(_) => (&[], &[]),
    }
}

// Whether two data are one symbol.
fn is_same_variable(one: &Datum, other: &Datum) -> bool
    requires one { IsProper one.now }
    requires other { IsProper other.now }
    ensures { result ≡ is_same_variable (symbol_of_member one.now) (symbol_of_member other.now) }
{
    let (home, name) = symbol_in(one);
    let (other_home, other_name) = symbol_in(other);
    is_name(home, other_home) && is_name(name, other_name)
}

// Whether none of these is the same symbol.
fn is_missing(datum: &Datum, others: &[Datum]) -> bool
    requires proper { IsProper datum.now }
    requires others { AreProper others.now }
    ensures { result
        ≡ not (list_any (is_same_variable (symbol_of_member datum.now)) (symbols_in others.now)) }
{
    for other in others {
        if is_same_variable(datum, other) {
            return false;
        }
    }
    true
}

// Whether these symbols are each another one.
fn are_distinct(items: &[Datum]) -> bool
    requires { AreProper items.now }
    ensures { result ≡ are_distinct (symbols_in items.now) }
{
    for i in 0..items.len() {
        if !is_missing(&items[i], &items[i + 1..]) {
            return false;
        }
    }
    true
}

// Whether each of these is a variable.
fn are_variables(items: &[Datum]) -> bool
    requires { AreProper items.now }
    ensures each { result ≡ true → All (λ d. IsSome (a_variable (object_of d))) items.now }
    ensures none { result ≡ false → each_in a_variable (objects items.now) ≡ None }
{
    for item in items {
        if !is_variable(item) {
            return false;
        }
    }
    true
}

/// The variables that a list has in it, each of them once.
#[tactic(auto, using(crate::proofs::Variables::variables_found, crate::proofs::Variables::not_each_variable, crate::proofs::Variables::not_distinct, crate::proofs::Variables::no_variables))]
pub fn variables_in(datum: &Datum) -> Option<&[Datum]>
    requires { IsProper datum.now }
    ensures value { option_map (λ xs. symbols_in xs.now) result ≡ variables_of (object_of datum.now) }
    ensures proper { IfSome result (λ xs. AreProper xs.now) }
{
    match proper_items(datum) {
        Some(items) => {
            if !are_variables(items) {
                return None;
            }
            if !are_distinct(items) {
                return None;
            }
            Some(items)
        }
        None => None,
    }
}

/// The definition that a list of these items is: its variables, and then forms.
pub fn definition_in(items: &[Datum]) -> Option<StoredDefinition<'_>>
    requires { AreProper items.now }
    ensures value { option_map stored_definition result ≡ definition_among (objects items.now) }
    ensures proper { IfSome result IsProperDefinition }
{
    if items.is_empty() {
        return None;
    }
    match variables_in(&items[0]) {
        Some(variables) => Some(StoredDefinition {
            variables,
            body: &items[1..],
        }),
        None => None,
    }
}

/// The definition that a datum is.
#[tactic(auto, using(crate::proofs::Variables::by_items))]
pub fn definition_of(datum: &Datum) -> Option<StoredDefinition<'_>>
    requires { IsProper datum.now }
    ensures value { option_map stored_definition result ≡ definition_of (object_of datum.now) }
    ensures proper { IfSome result IsProperDefinition }
{
    match proper_items(datum) {
        Some(items) => definition_in(items),
        None => None,
    }
}

/// Whether a symbol of this home may name a function of the world.
pub fn is_definable(home: &[u8]) -> bool
    ensures { result ≡ not (is_undefinable home.now) }
{
    if is_name(home, COMMON_LISP) {
        return false;
    }
    if is_name(home, PAZTURROK) {
        return false;
    }
    !is_name(home, KEYWORD)
}

/// The function of a symbol.
pub fn function_in<'a>(world: &'a World, home: &[u8], name: &[u8]) -> Option<StoredDefinition<'a>>
    ensures value { option_map stored_definition result ≡ function_in world.now.0 (home.now, name.now) }
    ensures proper { IfSome result IsProperDefinition }
{
    if !is_definable(home) {
        return None;
    }
    let indicator = BorrowedSymbol {
        home: PAZTURROK,
        name: FUNCTION_INDICATOR,
    };
    match world.get_at(BorrowedSymbol { home, name }, indicator) {
        Some(definition) => definition_of(definition),
        None => None,
    }
}
