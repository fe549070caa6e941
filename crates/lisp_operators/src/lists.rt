//! Arguments that are one of a kind or a list of such.
ghost use Rattle.std.specs.Prelude.{◌≡◌, None, IsSome, All, IfErr, IfOk, IfSome, option_map};
ghost use Rattle.lisp_object.specs.Datum.{object_of};
ghost use Rattle.lisp_operators.specs.ArgumentKinds.{a_symbol, a_name, one_or_each};
ghost use Rattle.lisp_operators.specs.declared.error.EvaluationError.TheVariants.{Refused};
ghost use Rattle.lisp_operators.specs.Members.{AreMembers, symbol_of_member, name_in, symbols_in, names_in};
ghost use Rattle.lisp_operators.specs.EvaluationAnswers.{IsOfKind, IsProper, AreProper, IsRefusedAs, objects};

use crate::EvaluationError::Refused;
use crate::{EvaluationError, kinds};
use lisp_object::Datum;
use lisp_object::refusal::ARGUMENT_KIND;
use std::slice;

// The members of a list, or the one argument; nothing where a list ends in another object.
fn members(datum: &Datum) -> Option<&[Datum]>
    requires { IsProper datum.now }
    ensures value { AreMembers (object_of datum.now) (option_map (λ m. objects m.now) result) }
    ensures proper { IfSome result (λ m. AreProper m.now) }
{
    match datum {
        Datum::List { items, tail } => {
            if tail.is_some() {
                return None;
            }
            Some(items.as_slice())
        }
        Datum::Symbol { .. } => {
            if !kinds::is_true(datum) {
                return Some(&[]);
            }
            Some(slice::from_ref(datum))
        }
        Datum::Integer(_) => Some(slice::from_ref(datum)),
        Datum::Rational(_) => Some(slice::from_ref(datum)),
        Datum::Char(_) => Some(slice::from_ref(datum)),
        Datum::Text(_) => Some(slice::from_ref(datum)),
        Datum::Uninterned(_) => Some(slice::from_ref(datum)),
        Datum::Vector(_) => Some(slice::from_ref(datum)),
    }
}

// That each of these is an interned symbol.
fn check_symbols(members: &[Datum]) -> Result<(), EvaluationError>
    requires { AreProper members.now }
    ensures each { IfOk result (λ _. All (λ d. IsSome (a_symbol (object_of d))) members.now) }
    ensures none { IfErr result (IsRefusedAs a_symbol members.now) }
{
    for member in members {
        match kinds::symbol(member) {
            Ok(_) => {}
            Err(error) => return Err(error),
        }
    }
    Ok(())
}

// That each of these is a designator of a name.
fn check_names(members: &[Datum]) -> Result<(), EvaluationError>
    requires { AreProper members.now }
    ensures each { IfOk result (λ _. All (λ d. IsSome (a_name (object_of d))) members.now) }
    ensures none { IfErr result (IsRefusedAs a_name members.now) }
{
    for member in members {
        match kinds::name(member) {
            Ok(_) => {}
            Err(error) => return Err(error),
        }
    }
    Ok(())
}

/// The members of a list, or the one argument, where each is an interned symbol. Refused as `ARGUMENT_KIND` where it
/// does not end in NIL, or a member is another object.
pub(crate) fn symbols(datum: &Datum) -> Result<&[Datum], EvaluationError>
    requires { IsProper datum.now }
    ensures value { IsOfKind (λ m. symbols_in m.now) result
        (one_or_each a_symbol (object_of datum.now)) }
    ensures proper { IfOk result (λ m. AreProper m.now) }
{
    match members(datum) {
        Some(members) => match check_symbols(members) {
            Ok(()) => Ok(members),
            Err(error) => Err(error),
        },
        None => Err(Refused(ARGUMENT_KIND)),
    }
}

/// The members of a list, or the one argument, where each is a designator of a name. Refused as `ARGUMENT_KIND` where
/// it does not end in NIL, or a member is another object.
pub(crate) fn names(datum: &Datum) -> Result<&[Datum], EvaluationError>
    requires { IsProper datum.now }
    ensures value { IsOfKind (λ m. names_in m.now) result
        (one_or_each a_name (object_of datum.now)) }
    ensures proper { IfOk result (λ m. AreProper m.now) }
{
    match members(datum) {
        Some(members) => match check_names(members) {
            Ok(()) => Ok(members),
            Err(error) => Err(error),
        },
        None => Err(Refused(ARGUMENT_KIND)),
    }
}

/// The home and the name of a member that is a symbol.
pub(crate) fn symbol_in(member: &Datum) -> (&[u8], &[u8])
    requires { IsProper member.now }
    ensures { (result.0.now, result.1.now) ≡ symbol_of_member member.now }
{
    match kinds::symbol(member) {
        Ok(symbol) => symbol,
        Err(_) => (&[], &[]),
    }
}

/// The name of which a member is a designator.
pub(crate) fn name_in(member: &Datum) -> &[u8]
    requires { IsProper member.now }
    ensures { result.now ≡ name_in member.now }
{
    kinds::name(member).unwrap_or(&[])
}
