//! GET of a property whose symbols are quoted, and SETF of such a property to a literal. They are carried out from the form: no
//! symbol is copied, and no list of values is made. Where the form is given away, the literal is moved out of it.
//! None, and a form that is given back, say that it is evaluated in the ordinary way. No clause says when: what the
//! form gives is the same in both.
ghost use Rattle.std.specs.Prelude.{◌≡◌, true, All, IfErr, IfOk, IfSome, List, None, Option, codes, length};
ghost use Rattle.lisp_object.specs.Object.{Object, pair, symbol};
ghost use Rattle.lisp_object.specs.Datum.{object_of};
ghost use Rattle.package_table.specs.Table.{Name, Table, common_lisp};
ghost use Rattle.plist_state.specs.Views.{symbol_named};
ghost use Rattle.lisp_operators.specs.Effects.{Leaves};
ghost use Rattle.lisp_operators.specs.EvaluationAnswers.{Answers, done, IsArgument, IsProper, AreProper, IsProperValue, object_of_symbol};
ghost use Rattle.evaluator.specs.Direct.{quoted, quoted_key, IsCall, IsLiteral, IsSetf, IsStorable, property_value, value_set, setf};
ghost use Rattle.evaluator.specs.ArgumentValues.{arguments_in};
ghost use Rattle.evaluator.specs.Value.{value};
ghost use Rattle.evaluator.specs.StandIns.{seen};

use crate::control::nothing;
use crate::place::is_standard;
use crate::trimmed::trimmed;
use crate::wanted::{ValueUse, seen, shown};
use lisp_object::Datum;
use lisp_operators::{Evaluated, EvaluationError};
use plist_state::{BorrowedSymbol, World};
use std::alloc::Global;

/// A property that two quoted symbols of a form name.
#[derive(Clone, Copy, Debug)]
pub(crate) struct QuotedProperty<'a> {
    pub symbol: BorrowedSymbol<'a>,
    pub indicator: BorrowedSymbol<'a>,
}

/// Such a property, and the literal that SETF puts there.
#[derive(Clone, Copy, Debug)]
pub(crate) struct Assignment<'a> {
    pub property: QuotedProperty<'a>,
    pub literal: &'a Datum,
}

// The items of a list that is headed by the symbol of COMMON-LISP with this name, where there are so many.
fn call<'a>(form: &'a Datum, operator: &[u8], count: usize) -> Option<&'a [Datum]>
    requires { IsProper form.now }
    ensures form { IfSome result (λ items. form.now ≡ Datum.List items.now None) }
    ensures object { IfSome result (λ items.
        object_of form.now ≡ pair (symbol common_lisp operator.now) (arguments_in items.now)) }
    ensures counted { IfSome result (λ items. length items.now ≡ count) }
    ensures proper { IfSome result (λ items. AreProper items.now) }
    ensures arguments { (u : Table) → IsArgument u form.now
        → IfSome result (λ items. All (IsArgument u) items.now) }
{
    let Datum::List { items, tail } = form else {
        return None;
    };
    if tail.is_some() {
        return None;
    }
    let items = items.as_slice();
    if items.len() != count {
        return None;
    }
    if !is_standard(&items[0], operator) {
        return None;
    }
    Some(items)
}

// Whether it is such a list.
fn is_call(form: &Datum, operator: &[u8], count: usize) -> bool
    requires { IsProper form.now }
    ensures { result ≡ true → IsCall operator.now count form.now }
{
    match call(form, operator, count) {
        Some(_) => true,
        None => false,
    }
}

/// The items of a list that is headed by the symbol of COMMON-LISP with this name, where there are so many, moved out;
/// or the form.
pub(crate) fn into_call(form: Datum, operator: &[u8], count: usize) -> Result<Vec<Datum>, Datum>
    requires { IsProper form }
    ensures form { IfOk result (λ items. form ≡ Datum.List items.items None) }
    ensures object { IfOk result (λ items.
        object_of form ≡ pair (symbol common_lisp operator.now) (arguments_in items.items)) }
    ensures counted { IfOk result (λ items. length items.items ≡ count) }
    ensures same { IfErr result (λ same. same ≡ form) }
{
    if is_call(&form, operator, count) {
        into_items(form)
    } else {
        Err(form)
    }
}

// The items of a list, moved out; or the form.
fn into_items(form: Datum) -> Result<Vec<Datum>, Datum>
    ensures list { IfOk result (λ items.
        (tail : Option Datum) × (form ≡ Datum.List items.items tail)) }
    ensures same { IfErr result (λ same. same ≡ form) }
{
    match form.into_list() {
        Ok((items, _tail)) => Ok(items.into_vec()),
        Err(other) => Err(other),
    }
}

// What is quoted by a form that is headed by QUOTE. A None says nothing of the form.
fn quoted(form: &Datum) -> Option<&Datum>
    requires { IsProper form.now }
    ensures object { IfSome result (λ x. object_of form.now ≡ quoted (object_of x.now)) }
    ensures proper { IfSome result (λ x. IsProper x.now) }
    ensures argument { (u : Table) → IsArgument u form.now → IfSome result (λ x. IsArgument u x.now) }
{
    let Some(items) = call(form, b"QUOTE", 2) else {
        return None;
    };
    Some(&items[1])
}

// The symbol that is quoted by a form. A None says nothing of the form.
fn quoted_symbol(form: &Datum) -> Option<BorrowedSymbol<'_>>
    requires { IsProper form.now }
    ensures { IfSome result (λ s.
        object_of form.now ≡ quoted (object_of_symbol (symbol_named s))) }
{
    let Some(Datum::Symbol { package, name }) = quoted(form) else {
        return None;
    };
    Some(BorrowedSymbol {
        home: package.as_slice(),
        name: name.as_slice(),
    })
}

/// The property that a form headed by GET names, where its arguments are two quoted symbols. A None says nothing of them: the form
/// is then evaluated as any other.
pub(crate) fn quoted_property(items: &[Datum]) -> Option<QuotedProperty<'_>>
    requires { AreProper items.now }
    ensures { IfSome result (λ p.
        arguments_in items.now ≡ quoted_key (symbol_named p.symbol) (symbol_named p.indicator)) }
{
    if items.len() != 3 {
        return None;
    }
    let Some(symbol) = quoted_symbol(&items[1]) else {
        return None;
    };
    let Some(indicator) = quoted_symbol(&items[2]) else {
        return None;
    };
    Some(QuotedProperty { symbol, indicator })
}

// The object that a form gives in every state: what it quotes, or itself. A None says nothing of the form.
fn literal(form: &Datum) -> Option<&Datum>
    requires { IsProper form.now }
    ensures value { IfSome result (λ x. IsLiteral (object_of form.now) (object_of x.now)) }
    ensures argument { (u : Table) → IsArgument u form.now → IfSome result (λ x. IsArgument u x.now) }
{
    match form {
        Datum::Integer(_) => Some(form),
        Datum::Rational(_) => Some(form),
        Datum::Char(_) => Some(form),
        Datum::Text(_) => Some(form),
        Datum::Vector(_) => Some(form),
        Datum::List { .. } => quoted(form),
        Datum::Symbol { .. } => None,
        Datum::Uninterned(_) => None,
    }
}

/// Whether a form is a literal: an object that is its own value, or a quoted one.
pub(crate) fn is_literal(form: &Datum) -> bool
    requires { IsProper form.now }
    ensures { result ≡ true → (x : Object) × IsLiteral (object_of form.now) x }
{
    match literal(form) {
        Some(_) => true,
        None => false,
    }
}

// The same object, moved out; or the form.
fn into_literal(form: Datum) -> Result<Datum, Datum>
    requires { IsProper form }
    ensures value { IfOk result (λ x. IsLiteral (object_of form) (object_of x)) }
    ensures argument { (u : Table) → IsArgument u form → IfOk result (λ x. IsArgument u x) }
    ensures same { IfErr result (λ same. same ≡ form) }
{
    match form {
        Datum::Integer(..) => Ok(form),
        Datum::Rational(..) => Ok(form),
        Datum::Char(..) => Ok(form),
        Datum::Text(..) => Ok(form),
        Datum::Vector(..) => Ok(form),
        Datum::List { .. } => into_quoted(form),
        Datum::Symbol { .. } => Err(form),
        Datum::Uninterned(..) => Err(form),
    }
}

// What is quoted by a form that is headed by QUOTE, moved out; or the form.
fn into_quoted(form: Datum) -> Result<Datum, Datum>
    requires { IsProper form }
    ensures object { IfOk result (λ x. object_of form ≡ quoted (object_of x)) }
    ensures argument { (u : Table) → IsArgument u form → IfOk result (λ x. IsArgument u x) }
    ensures same { IfErr result (λ same. same ≡ form) }
{
    match into_call(form, b"QUOTE", 2) {
        Ok(mut items) => Ok(items.remove(1)),
        Err(form) => Err(form),
    }
}

// The property that a place names, where it is GET of two quoted symbols. A None says nothing of the place.
fn place_property(place: &Datum) -> Option<QuotedProperty<'_>>
    requires { IsProper place.now }
    ensures { IfSome result (λ p. object_of place.now
        ≡ pair (symbol common_lisp (codes "GET"))
        (quoted_key (symbol_named p.symbol) (symbol_named p.indicator))) }
{
    let Some(items) = call(place, b"GET", 3) else {
        return None;
    };
    quoted_property(items)
}

/// What a form headed by SETF puts where, if its place is GET of two quoted symbols and its value is a literal.
pub(crate) fn literal_assignment(items: &[Datum]) -> Option<Assignment<'_>>
    requires counted { length items.now ≡ 3 }
    requires proper { AreProper items.now }
    ensures value { IfSome result (λ a.
        IsSetf (arguments_in items.now) a.property (object_of a.literal.now)) }
    ensures storable { (u : Table) → All (IsArgument u) items.now
        → IfSome result (λ a. IsStorable u a.property a.literal.now) }
{
    let Some(literal) = literal(&items[2]) else {
        return None;
    };
    let Some(property) = place_property(&items[1]) else {
        return None;
    };
    Some(Assignment { property, literal })
}

/// GET of a property that two quoted symbols name. It changes nothing.
pub(crate) fn get_directly(
    alloc: Global,
    world: &World,
    property: QuotedProperty<'_>,
    wanted: ValueUse,
) -> Result<Evaluated, EvaluationError>
    ensures gives { Answers done result world.now.0
        (seen wanted (property_value property.entry world.now.0)) }
    ensures proper { IfOk result IsProperValue }
{
    match world.get_at(property.symbol, property.indicator) {
        Some(value) => Ok(Evaluated {
            value: shown(alloc, value, wanted)?,
            wrote: false,
        }),
        None => seen(nothing(alloc), wanted),
    }
}

/// SETF of such a property. After an error the world may have changed, but for its marks: who calls it goes back to
/// one.
pub(crate) fn set_directly(
    alloc: Global,
    world: &mut World,
    assignment: Assignment<'_>,
    wanted: ValueUse,
) -> Result<Evaluated, EvaluationError>
    requires { IsStorable world.old.0.packages assignment.property assignment.literal.now }
    ensures gives { Answers done result world.new.0
        (seen wanted
        (value_set assignment.entry.property (object_of assignment.entry.literal.now) world.old.0)) }
    ensures proper { IfOk result IsProperValue }
    ensures marked { world.new.1 ≡ world.old.1 }
{
    let Assignment { property, literal } = assignment;
    let stored = literal.copy(alloc)?;
    let value = shown(alloc, literal, wanted)?;
    world.put_at(property.symbol, property.indicator, stored)?;
    Ok(Evaluated { value, wrote: true })
}

// SETF of such a property to a literal, which is moved. Its lists keep no room for more items.
fn put(
    world: &mut World,
    property: QuotedProperty<'_>,
    literal: Datum,
) -> Result<bool, EvaluationError>
    requires { IsStorable world.old.0.packages property literal }
    ensures gives { Leaves result world.new.0 (value_set property.entry (object_of literal) world.old.0) }
    ensures errors { IfErr result (λ error. error ≡ EvaluationError.OutOfMemory) }
    ensures marked { world.new.1 ≡ world.old.1 }
{
    world.put_at(property.symbol, property.indicator, trimmed(literal))?;
    Ok(true)
}

/// What SETF of a place to a form does, where they are such a property and a literal, which is moved out of the form. It is
/// refused under no number. If they are not, nothing is done, and the form is given back.
pub(crate) fn set_moved(
    world: &mut World,
    place: &Datum,
    form: Datum,
) -> Result<Result<bool, EvaluationError>, Datum>
    requires place { IsArgument world.old.0.packages place.now }
    requires form { IsArgument world.old.0.packages form }
    ensures gives { (names : List Name) → IfOk result (λ set. Leaves set world.new.0
        (value names world.old.0 (setf (object_of place.now) (object_of form)))) }
    ensures errors { IfOk result (λ set. IfErr set (λ error. error ≡ EvaluationError.OutOfMemory)) }
    ensures same { IfErr result (λ same. same ≡ form) }
    ensures unchanged { IfErr result (λ _. world.new ≡ world.old) }
    ensures marked { world.new.1 ≡ world.old.1 }
{
    let Some(property) = place_property(place) else {
        return Err(form);
    };
    match into_literal(form) {
        Ok(literal) => Ok(put(world, property, literal)),
        Err(form) => Err(form),
    }
}
